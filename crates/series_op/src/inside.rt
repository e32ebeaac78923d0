//! The rows whose axis lies inside.
ghost use Rattle.std.specs.Prelude.{◌≡◌, ◌++◌, ◌∷◌, [], IfOk, OnOk, cond, filter, length};
ghost use Rattle.std.specs.List.{range_with_len};
ghost use Rattle.kql_cells.specs.Seen.{seen, value_at};
ghost use Rattle.kql_meaning.specs.MakeSeries.{is_inside, rows_inside};
ghost use Rattle.kql_meaning.specs.Tables.{cell, places};
ghost use Rattle.kql_meaning.specs.Values.{number_of};

use crate::numbers::{number_in, number_of};
use kql_bound::SeriesPlan;
use kql_cells::CellRef;
use kql_items::Items;
use kql_values::{Table, Vector};
use std::alloc::{AllocError, Global};

/// Copies of the rows whose axis lies from the start of the first bin on and below the end, in order.
#[tactic(auto, using(crate::proofs::InsideSteps::table_steps))]
pub(crate) fn rows_inside(
    alloc: Global,
    t: &Table,
    series: &SeriesPlan,
) -> Result<Table, AllocError>
    ensures rows { IfOk result (λ r. r ≡ rows_inside series.now t.now) }
{
    let places = places_inside(alloc, t, series)?;
    let inside = t.gather(alloc, places.as_slice())?;
    Ok(inside)
}

// Their places. A table without the axis has none.
#[tactic(auto, using(crate::proofs::InsideSteps::axis_steps))]
fn places_inside(alloc: Global, t: &Table, series: &SeriesPlan) -> Result<Items<usize>, AllocError>
    ensures places { IfOk result (λ ps. ps ≡ filter (λ i. is_inside series.now (number_of (cell t.now i series.now.axis))) (places t.now)) }
{
    match t.schema().find(series.axis.as_str()) {
        Some(axis) => {
            let places = column_inside(alloc, t.column(axis), series)?;
            Ok(places)
        }
        None => Ok(Items::new(alloc)),
    }
}

// The places at which a column lies inside.
#[tactic(auto, using(crate::proofs::InsideSteps::column_steps))]
fn column_inside(
    alloc: Global,
    column: &Vector,
    series: &SeriesPlan,
) -> Result<Items<usize>, AllocError>
    ensures places { IfOk result (λ ps. ps ≡ filter (λ i. is_inside series.now (number_of (value_at column.now i))) (range_with_len 0 (length column.now))) }
{
    let mut places = Items::new(alloc);
    'rows: for i in 0..column.len() {
        let inside = is_inside(series, column.cell(i));
        push_if(&mut places, i, inside)?;
    }
    Ok(places)
}

// Adds a place where a test is true.
fn push_if(places: &mut Items<usize>, place: usize, test: bool) -> Result<(), AllocError>
    ensures added { OnOk result (places.new ≡ places.old ++ cond test (place ∷ []) []) }
{
    if test {
        places.push(place)?;
    }
    Ok(())
}

#[tactic(auto, unfolding(kql_meaning::specs::MakeSeries::is_inside))]
fn is_inside(series: &SeriesPlan, axis: CellRef<'_>) -> bool
    ensures inside { result ≡ is_inside series.now (number_of (seen axis.entry)) }
{
    match number_of(axis) {
        None => false,
        Some(x) => number_in(&series.from) <= x && x < number_in(&series.to),
    }
}
