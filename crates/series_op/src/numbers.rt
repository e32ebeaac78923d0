//! Numbers in literals and cells, and cells that show them as elements of an array.
ghost use Rattle.std.specs.Prelude.{◌≡◌, IfOk};
ghost use Rattle.kql_cells.specs.Seen.{seen};
ghost use Rattle.kql_cells.specs.Values.{IsWellFormed};
ghost use Rattle.kql_scalar_fns.specs.Dynamic.{element};
ghost use Rattle.kql_meaning.specs.Sources.{number_in};
ghost use Rattle.kql_meaning.specs.Values.{number_as, number_of};

use kql_bound::Lit;
use kql_cells::{CellRef, Dyn, KText, Kind, Value, clone_dyn};
use kql_ticks::{print_moment, print_span};
use std::alloc::{AllocError, Global};

/// The number that a literal is; 0 for one that is none.
#[tactic(auto, unfolding(kql_meaning::specs::Sources::number_in, kql_meaning::specs::Values::number_of, kql_meaning::specs::Numbers::added))]
pub(crate) fn number_in(literal: &Lit) -> i64
    ensures number { result ≡ number_in literal.now }
{
    match &literal.value {
        Value::Long(n) => *n,
        Value::Moment(n) => *n,
        Value::Span(n) => *n,
        _ => 0,
    }
}

/// The number that a cell shows.
#[tactic(auto, unfolding(kql_meaning::specs::Values::number_of))]
pub(crate) fn number_of(cell: CellRef<'_>) -> Option<i64>
    ensures number { result ≡ number_of (seen cell.entry) }
{
    match cell {
        CellRef::Long(n) => Some(n),
        CellRef::Moment(n) => Some(n),
        CellRef::Span(n) => Some(n),
        _ => None,
    }
}

/// A number as a value of a type.
#[tactic(auto, unfolding(kql_meaning::specs::Values::number_as))]
pub(crate) fn number_as(kind: Kind, n: i64) -> CellRef<'static>
    ensures number { seen result ≡ number_as kind n }
{
    match kind {
        Kind::Long => CellRef::Long(n),
        Kind::Moment => CellRef::Moment(n),
        Kind::Span => CellRef::Span(n),
        Kind::Bool | Kind::Text | Kind::Dynamic => CellRef::Null,
    }
}

/// What a cell shows as an element of an array: a datetime or timespan is its printed text.
#[tactic(auto, unfolding(kql_scalar_fns::specs::Dynamic::element))]
pub(crate) fn element(alloc: Global, cell: CellRef<'_>) -> Result<Dyn, AllocError>
    requires { IsWellFormed (seen cell) }
    ensures value { IfOk result (λ d. d ≡ element (seen cell.entry)) }
{
    match cell {
        CellRef::Null => Ok(Dyn::Null),
        CellRef::Bool(b) => Ok(Dyn::Bool(b)),
        CellRef::Long(n) => Ok(Dyn::Long(n)),
        CellRef::Text(t) => Ok(Dyn::Text(KText::from_str(alloc, t)?)),
        CellRef::Moment(n) => Ok(Dyn::Text(print_moment(alloc, n)?)),
        CellRef::Span(n) => Ok(Dyn::Text(print_span(alloc, n)?)),
        CellRef::Dynamic(d) => clone_dyn(alloc, d),
    }
}
