//! What is read of a cell.
ghost use Rattle.std.specs.Prelude.{◌≡◌, FitsSigned, IfSome, map};
ghost use Rattle.std.specs.Int.{w64};
ghost use Rattle.kql_cells.specs.Seen.{seen};
ghost use Rattle.kql_cells.specs.Values.{IsWellFormed};
ghost use Rattle.kql_scalar_fns.specs.Arguments.{argument};
ghost use Rattle.kql_scalar_fns.specs.Choice.{is_below};
ghost use Rattle.kql_meaning.specs.Values.{absent_as, holds, number_of};
ghost use Rattle.kql_meaning.specs.Windows.{count_in};
ghost use Rattle.kql_cells.specs.declared.value.Value.TheVariants as value;

use kql_cells::{CellRef, Kind};

/// The argument at a place, and null where there is none.
#[tactic(auto, unfolding(kql_scalar_fns::specs::Arguments::argument))]
pub(crate) fn argument<'a>(args: &[CellRef<'a>], i: usize) -> CellRef<'a>
    ensures value { seen result ≡ argument (map seen args.now) i }
{
    if i < args.len() {
        args[i]
    } else {
        CellRef::Null
    }
}

/// What stands in a column of a type where there is no value.
#[tactic(auto, using(crate::proofs::FormFacts::absent_forms), unfolding(kql_meaning::specs::Values::absent_as))]
pub(crate) fn absent_as(kind: Option<Kind>) -> CellRef<'static>
    ensures value { seen result ≡ absent_as kind }
    ensures form { IsWellFormed (seen result) }
{
    match kind {
        None => CellRef::Null,
        Some(kind) => kind.absent(),
    }
}

/// Whether a condition is true.
#[tactic(auto, unfolding(kql_meaning::specs::Values::holds, kql_scalar_fns::specs::Logic::truth))]
pub(crate) fn holds(cell: CellRef<'_>) -> bool
    ensures { result ≡ holds (seen cell.entry) }
{
    match cell {
        CellRef::Bool(b) => b,
        _ => false,
    }
}

/// The number that a long, a datetime or a timespan is.
#[tactic(auto, unfolding(kql_meaning::specs::Values::number_of))]
pub(crate) fn number_of(cell: CellRef<'_>) -> Option<i64>
    ensures { result ≡ number_of (seen cell.entry) }
{
    match cell {
        CellRef::Long(n) => Some(n),
        CellRef::Moment(n) => Some(n),
        CellRef::Span(n) => Some(n),
        _ => None,
    }
}

/// The number that the first argument is. It has 64 bits.
pub(crate) fn first_number(args: &[CellRef<'_>]) -> Option<i64>
    ensures value { result ≡ number_of (argument (map seen args.now) 0) }
    ensures fits { IfSome result (λ n. FitsSigned w64 n) }
{
    match number_of(argument(args, 0)) {
        None => None,
        Some(n) => Some(n),
    }
}

/// Whether a is below b: both are numbers of one type.
#[tactic(auto, unfolding(kql_scalar_fns::specs::Comparison::order))]
pub(crate) fn is_below(a: CellRef<'_>, b: CellRef<'_>) -> bool
    ensures { result ≡ is_below (seen a.entry) (seen b.entry) }
{
    match (a, b) {
        (CellRef::Long(a), CellRef::Long(b)) => a < b,
        (CellRef::Moment(a), CellRef::Moment(b)) => a < b,
        (CellRef::Span(a), CellRef::Span(b)) => a < b,
        _ => false,
    }
}

/// The number that a long of 0 or more is, and else 0.
#[tactic(auto, unfolding(kql_meaning::specs::Windows::count_in))]
pub(crate) fn count_in(cell: CellRef<'_>) -> usize
    ensures { result ≡ count_in (seen cell.entry) }
{
    match cell {
        CellRef::Long(n) => whole(n),
        _ => 0,
    }
}

// A number of 0 or more, and else 0.
#[tactic(auto, using(crate::proofs::CellFacts::count_facts))]
fn whole(n: i64) -> usize
    ensures { result ≡ count_in (value.Long n) }
{
    if n < 0 { 0 } else { n as usize }
}
