//! The bins of a series.
ghost use Rattle.std.specs.Prelude.{◌≡◌, ◌≤◌, ◌-ℤ◌, pos, FitsSigned, IfOk, IsTrue, map, replicate};
ghost use Rattle.std.specs.Int.{is_positive, w64};
ghost use Rattle.kql_cells.specs.Seen.{seen};
ghost use Rattle.kql_scalar_fns.specs.Dynamic.{element};
ghost use Rattle.kql_meaning.specs.FittingOperators.{bins_fit};
ghost use Rattle.kql_meaning.specs.MakeSeries.{axis_of, bins};
ghost use Rattle.kql_meaning.specs.Numbers.{count_of_terms};
ghost use Rattle.kql_meaning.specs.Sources.{number_in};
ghost use Rattle.kql_meaning.specs.Values.{number_as, number_of};
ghost use Rattle.series_op.specs.Bins.{AreBins, ArePlaces, IsPlace, start_of};

use crate::numbers::{element, number_as, number_in, number_of};
use kql_bound::SeriesPlan;
use kql_cells::{CellRef, Column, Dyn, DynList, Kind, Value};
use kql_items::Items;
use kql_values::Vector;
use std::alloc::{AllocError, Global};

/// How many bins a series over these columns has.
#[tactic(auto, using(crate::proofs::BinSteps::asked_steps))]
pub(crate) fn count_of_bins(series: &SeriesPlan, _columns: &[Column]) -> usize
    requires fits { IsTrue (bins_fit series.now _columns.now) }
    ensures bins { AreBins series.now result }
{
    let from = number_in(&series.from);
    let to = number_in(&series.to);
    let step = number_in(&series.step);
    let count = count_below(from, to, step);
    count as usize
}

// How many numbers there are, by a step, from one on and below another.
#[tactic(auto, using(crate::proofs::BinSteps::count_steps))]
fn count_below(from: i64, to: i64, step: i64) -> u64
    requires positive { IsTrue (is_positive step) }
    requires few { count_of_terms from (to -ℤ pos 1) step ≤ 100000 }
    ensures count { result ≡ count_of_terms from (to -ℤ pos 1) step }
{
    if from < to {
        (to.abs_diff(from) - 1) / step.unsigned_abs() + 1
    } else {
        0
    }
}

/// The place of the bin that each of these numbers starts, among so many, where it starts one.
#[tactic(auto, using(crate::proofs::BinSteps::places_steps))]
pub(crate) fn bin_places(
    alloc: Global,
    series: &SeriesPlan,
    count: usize,
    starts: &Vector,
) -> Result<Vec<Option<usize>>, AllocError>
    requires positive { IsTrue (is_positive (number_in series.now.step)) }
    ensures places { IfOk result (λ ps. ArePlaces series.now count starts.now ps.items) }
{
    let mut places = Vec::with_capacity(alloc, starts.len())?;
    'rows: for i in 0..starts.len() {
        let place = bin_place(series, count, starts.cell(i));
        places.push(place)?;
    }
    Ok(places)
}

// The place of the bin that a number starts, among so many, where it starts one.
#[tactic(auto, using(crate::proofs::BinSteps::place_steps))]
fn bin_place(series: &SeriesPlan, count: usize, start: CellRef<'_>) -> Option<usize>
    requires positive { IsTrue (is_positive (number_in series.now.step)) }
    ensures place { IsPlace series.now count (number_of (seen start.entry)) result }
{
    let from = number_in(&series.from);
    let step = number_in(&series.step).unsigned_abs();
    match number_of(start) {
        None => None,
        Some(x) => {
            if x < from {
                return None;
            }
            let distance = x.abs_diff(from);
            if distance % step == 0 {
                let place = distance / step;
                if place < count as u64 {
                    Some(place as usize)
                } else {
                    None
                }
            } else {
                None
            }
        }
    }
}

/// The bins as an array, once for each group.
#[tactic(auto, using(crate::proofs::BinSteps::axis_steps))]
pub(crate) fn axis_column(
    alloc: Global,
    series: &SeriesPlan,
    count: usize,
    groups: usize,
) -> Result<Vector, AllocError>
    requires bins { AreBins series.now count }
    ensures axis { IfOk result (λ v. v ≡ replicate groups (axis_of series.now)) }
{
    let parts = axis_parts(alloc, series, count)?;
    let mut one = Vector::new(alloc, Kind::Dynamic);
    one.push(Value::Dynamic(Dyn::Array(parts)))?;
    let column = Vector::repeated(alloc, Kind::Dynamic, one.cell(0), groups)?;
    Ok(column)
}

// The starts of the bins as elements.
#[tactic(auto, using(crate::proofs::BinSteps::parts_steps))]
fn axis_parts(alloc: Global, series: &SeriesPlan, count: usize) -> Result<DynList, AllocError>
    requires bins { AreBins series.now count }
    ensures parts { IfOk result (λ ds. ds ≡ map (λ b. element (number_as series.now.from.kind b)) (bins series.now)) }
{
    let mut parts = Items::with_capacity(alloc, count)?;
    'bins: for k in 0..count {
        let start = start_of(series, k);
        let part = element(alloc, number_as(series.from.kind, start))?;
        parts.push(part)?;
    }
    Ok(parts)
}

// The start of a bin.
fn start_of(series: &SeriesPlan, k: usize) -> i64
    requires fits { FitsSigned w64 (start_of series.now k) }
    ensures start { result ≡ start_of series.now k }
{
    let from = number_in(&series.from);
    let step = number_in(&series.step);
    (from as i128 + k as i128 * step as i128) as i64
}
