//! Numbers at equal distances, as the cells of a column.
ghost use Rattle.std.specs.Prelude.{◌≡◌, ◌≤◌, ◌≤ℤ◌, ◌+ℤ◌, pos, map, IfOk, IsTrue};
ghost use Rattle.std.specs.Int.{is_positive};
ghost use Rattle.kql_cells.specs.Seen.{seen};
ghost use Rattle.kql_meaning.specs.Numbers.{count_of_terms, terms};
ghost use Rattle.kql_meaning.specs.Sources.{number_in};
ghost use Rattle.kql_meaning.specs.Values.{number_as};

use kql_bound::Lit;
use kql_cells::{CellRef, Kind, Value};
use kql_values::Vector;
use std::alloc::{AllocError, Global};

/// The number that a literal is; 0 for one that is none.
#[tactic(auto, unfolding(kql_meaning::specs::Sources::number_in, kql_meaning::specs::Values::number_of, kql_meaning::specs::Numbers::added))]
pub(crate) fn number_in(literal: &Lit) -> i64
    ensures number { result ≡ number_in literal.now }
{
    match &literal.value {
        Value::Long(n) => *n,
        Value::Moment(n) => *n,
        Value::Span(n) => *n,
        _ => 0,
    }
}

/// The numbers from one on, by a step, that are not above another, as values of a type.
#[tactic(auto, using(crate::proofs::TermSteps::term_steps))]
pub(crate) fn terms(
    alloc: Global,
    kind: Kind,
    from: i64,
    to: i64,
    step: i64,
) -> Result<Vector, AllocError>
    requires positive { IsTrue (is_positive step) }
    requires few { count_of_terms from to step ≤ 1000000 }
    ensures terms { IfOk result (λ v. v ≡ map (number_as kind) (terms from to step)) }
{
    let count = count_of_terms(from, to, step);
    let mut made = Vector::new(alloc, kind);
    'terms: for k in 0..count {
        let n = above(from, k * step.unsigned_abs(), to);
        made.push_cell(number_as(kind, n))?;
    }
    Ok(made)
}

// How many numbers there are.
#[tactic(auto, using(crate::proofs::TermSteps::count_steps))]
fn count_of_terms(from: i64, to: i64, step: i64) -> u64
    requires positive { IsTrue (is_positive step) }
    requires few { count_of_terms from to step ≤ 1000000 }
    ensures count { result ≡ count_of_terms from to step }
{
    if from <= to {
        to.abs_diff(from) / step.unsigned_abs() + 1
    } else {
        0
    }
}

// The number so much above another, which is at most a third one.
fn above(from: i64, distance: u64, to: i64) -> i64
    requires { (from +ℤ pos distance) ≤ℤ to }
    ensures { result ≡ from +ℤ pos distance }
{
    (from as i128 + distance as i128) as i64
}

// A number as a value of a type.
#[tactic(auto, unfolding(kql_meaning::specs::Values::number_as))]
fn number_as(kind: Kind, n: i64) -> CellRef<'static>
    ensures { seen result ≡ number_as kind n }
{
    match kind {
        Kind::Long => CellRef::Long(n),
        Kind::Moment => CellRef::Moment(n),
        Kind::Span => CellRef::Span(n),
        Kind::Bool | Kind::Text | Kind::Dynamic => CellRef::Null,
    }
}
