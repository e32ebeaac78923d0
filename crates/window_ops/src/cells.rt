//! What is read of cells, and cells of numbers.
ghost use Rattle.std.specs.Prelude.{◌≡◌, pos};
ghost use Rattle.kql_ticks.specs.Ranges.{fit};
ghost use Rattle.kql_cells.specs.Seen.{seen};
ghost use Rattle.kql_cells.specs.declared.value.Value.TheVariants as value;
ghost use Rattle.kql_scalar_fns.specs.Arguments.{long_or_null, span_or_null};
ghost use Rattle.kql_scalar_fns.specs.Arithmetic.{sum};
ghost use Rattle.kql_meaning.specs.Numbers.{fitted};
ghost use Rattle.kql_meaning.specs.Values.{holds, number_of};

use kql_cells::{CellRef, Kind};

/// Whether a cell shows that something is true: a null does not.
#[tactic(auto, unfolding(kql_meaning::specs::Values::holds, kql_scalar_fns::specs::Logic::truth))]
pub(crate) fn holds(cell: CellRef<'_>) -> bool
    ensures { result ≡ holds (seen cell.entry) }
{
    match cell {
        CellRef::Bool(b) => b,
        _ => false,
    }
}

/// The number that a long, a datetime or a timespan is.
#[tactic(auto, unfolding(kql_meaning::specs::Values::number_of))]
pub(crate) fn number_of(cell: CellRef<'_>) -> Option<i64>
    ensures { result ≡ number_of (seen cell.entry) }
{
    match cell {
        CellRef::Long(n) => Some(n),
        CellRef::Moment(n) => Some(n),
        CellRef::Span(n) => Some(n),
        _ => None,
    }
}

/// A sum as a value of a type, where it is in the type's range, and else null.
#[tactic(auto, unfolding(kql_meaning::specs::Numbers::fitted))]
pub(crate) fn fitted(kind: Option<Kind>, sum: i128) -> CellRef<'static>
    ensures { seen result ≡ fitted kind sum }
{
    match kind {
        Some(Kind::Span) => span_or_null(fit(sum)),
        _ => long_or_null(fit(sum)),
    }
}

/// A start and so many rows more.
#[tactic(auto, unfolding(kql_scalar_fns::specs::Arithmetic::sum))]
pub(crate) fn numbered(start: CellRef<'_>, count: usize) -> CellRef<'static>
    ensures { seen result ≡ sum (seen start.entry) (value.Long (pos count)) }
{
    match start {
        CellRef::Long(n) => long_or_null(fit(n as i128 + count as i128)),
        _ => CellRef::Null,
    }
}

#[tactic(auto, unfolding(kql_ticks::specs::Ranges::fit))]
fn fit(x: i128) -> Option<i64>
    ensures { result ≡ fit x }
{
    if x < i64::MIN as i128 || x > i64::MAX as i128 {
        return None;
    }
    Some(x as i64)
}

fn long_or_null(n: Option<i64>) -> CellRef<'static>
    ensures { seen result ≡ long_or_null n }
{
    match n {
        Some(n) => CellRef::Long(n),
        None => CellRef::Null,
    }
}

fn span_or_null(n: Option<i64>) -> CellRef<'static>
    ensures { seen result ≡ span_or_null n }
{
    match n {
        Some(n) => CellRef::Span(n),
        None => CellRef::Null,
    }
}
