//! Running sums and numbers of rows, in one pass.
ghost use Rattle.std.specs.Prelude.{◌≡◌, ◌<◌, ◌+◌, ◌^◌, IfOk, IfSome, length};
ghost use Rattle.kql_cells.specs.Seen.{seen};
ghost use Rattle.kql_meaning.specs.Numbers.{added, fitted};
ghost use Rattle.window_ops.specs.Carries.{run_on};
ghost use Rattle.window_ops.specs.Running.{restart_at, row_numbers, running_sums, start_at, term_at};

use crate::carries::{Carry, with_row};
use crate::cells::{fitted, holds, number_of, numbered};
use kql_cells::{CellRef, Kind};
use kql_values::Vector;
use std::alloc::{AllocError, Global};

/// The running sum of the terms at each row, null where it does not fit; it begins anew where the restart is true. The carry is that of
/// the rows in front.
#[tactic(auto, using(crate::proofs::RunSteps::sum_loop))]
pub(crate) fn running_sums(
    alloc: Global,
    kind: Option<Kind>,
    terms: &Vector,
    restarts: &Option<Vector>,
    before: &Carry,
) -> Result<Vector, AllocError>
    requires restarts { IfSome restarts.now (λ rs. length rs ≡ length terms.now) }
    requires few { before.now.count + length terms.now < 2 ^ 63 }
    ensures sums { IfOk result (λ v. v ≡ running_sums kind restarts.now terms.now before.now) }
{
    let mut sums = Vector::new(alloc, kind.unwrap_or(Kind::Long));
    let mut run = before.copy();
    'rows: for i in 0..terms.len() {
        let next = with_row(&run, restarts_at(restarts, i), number_of(terms.cell(i)));
        run = next;
        sums.push_cell(sum_cell(kind, &run))?;
    }
    Ok(sums)
}

/// The number of each row: the start at it, or 1, and the rows since its run began. The carry is that of the rows in front.
#[tactic(auto, using(crate::proofs::RunSteps::number_loop))]
pub(crate) fn row_numbers(
    alloc: Global,
    count: usize,
    starts: &Option<Vector>,
    restarts: &Option<Vector>,
    before: &Carry,
) -> Result<Vector, AllocError>
    requires starts { IfSome starts.now (λ vs. length vs ≡ count) }
    requires restarts { IfSome restarts.now (λ rs. length rs ≡ count) }
    requires few { before.now.count + count < 2 ^ 63 }
    ensures numbers { IfOk result (λ v. v ≡ row_numbers count starts.now restarts.now before.now) }
{
    let mut numbers = Vector::new(alloc, Kind::Long);
    let mut run = before.copy();
    'rows: for i in 0..count {
        let next = with_row(&run, restarts_at(restarts, i), None);
        run = next;
        numbers.push_cell(numbered(start_cell(starts, i), run.count() - 1))?;
    }
    Ok(numbers)
}

/// The carry up to the end of columns of so many values, from that of the rows in front.
#[tactic(auto, using(crate::proofs::RunSteps::carry_loop))]
pub(crate) fn carry_over(
    terms: &Option<Vector>,
    restarts: &Option<Vector>,
    count: usize,
    before: &Carry,
) -> Carry
    requires terms { IfSome terms.now (λ vs. length vs ≡ count) }
    requires restarts { IfSome restarts.now (λ rs. length rs ≡ count) }
    requires few { before.now.count + count < 2 ^ 63 }
    ensures carry { result ≡ run_on (restart_at restarts.now) (term_at terms.now) before.now count }
{
    let mut run = before.copy();
    'rows: for i in 0..count {
        let next = with_row(&run, restarts_at(restarts, i), number_at(terms, i));
        run = next;
    }
    run
}

// The sum of a carry as a value of a type.
fn sum_cell(kind: Option<Kind>, run: &Carry) -> CellRef<'static>
    ensures { seen result ≡ fitted kind run.now.sum }
{
    fitted(kind, run.sum())
}

// Whether a run begins at a row.
#[tactic(auto, unfolding(crate::specs::Running::restart_at))]
fn restarts_at(restarts: &Option<Vector>, i: usize) -> bool
    requires within { IfSome restarts.now (λ rs. i < length rs) }
    ensures { result ≡ restart_at restarts.now i }
{
    match restarts {
        None => false,
        Some(values) => holds(values.cell(i)),
    }
}

// The number of the term at a row.
#[tactic(auto, unfolding(crate::specs::Running::term_at, kql_meaning::specs::Numbers::added))]
fn number_at(terms: &Option<Vector>, i: usize) -> Option<i64>
    requires within { IfSome terms.now (λ vs. i < length vs) }
    ensures number { added result ≡ term_at terms.now i }
{
    match terms {
        None => None,
        Some(values) => number_of(values.cell(i)),
    }
}

// The start at a row, which is 1 where none is given.
#[tactic(auto, unfolding(crate::specs::Running::start_at))]
fn start_cell(starts: &Option<Vector>, i: usize) -> CellRef<'_>
    requires within { IfSome starts.now (λ vs. i < length vs) }
    ensures { seen result ≡ start_at starts.now i }
{
    match starts {
        None => CellRef::Long(1),
        Some(values) => values.cell(i),
    }
}
