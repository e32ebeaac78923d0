//! Three-valued logic: a bool that is not known is none.
ghost use Rattle.std.specs.Prelude.{◌≡◌, ◌↔◌, IsTrue, Some};
ghost use Rattle.kql_cells.specs.Seen.{seen};
ghost use Rattle.kql_scalar_fns.specs.Arguments.{bool_or_null};
ghost use Rattle.kql_scalar_fns.specs.Logic.{both, either, is_true, opposite, truth};

use kql_cells::CellRef;

/// The bool that a cell shows, if it shows one.
#[tactic(auto, unfolding(kql_scalar_fns::specs::Logic::truth))]
pub(crate) fn truth(a: CellRef<'_>) -> Option<bool>
    ensures { result ≡ truth (seen a.entry) }
{
    match a {
        CellRef::Bool(b) => Some(b),
        _ => None,
    }
}

/// A bool as a cell, which is null where it is not known.
pub(crate) fn bool_cell<'a>(known: Option<bool>) -> CellRef<'a>
    ensures { seen result ≡ bool_or_null known }
{
    match known {
        Some(b) => CellRef::Bool(b),
        None => CellRef::Null,
    }
}

/// False where one is false, else not known where one is not known.
pub(crate) fn both(p: Option<bool>, q: Option<bool>) -> Option<bool>
    ensures { result ≡ both p q }
{
    match (p, q) {
        (Some(true), q) => q,
        (Some(false), _) => Some(false),
        (None, Some(false)) => Some(false),
        (None, _) => None,
    }
}

/// True where one is true, else not known where one is not known.
pub(crate) fn either(p: Option<bool>, q: Option<bool>) -> Option<bool>
    ensures { result ≡ either p q }
{
    match (p, q) {
        (Some(false), q) => q,
        (Some(true), _) => Some(true),
        (None, Some(true)) => Some(true),
        (None, _) => None,
    }
}

pub(crate) fn opposite(known: Option<bool>) -> Option<bool>
    ensures { result ≡ opposite known }
{
    match known {
        Some(b) => Some(!b),
        None => None,
    }
}

/// What is not known counts as not true.
pub(crate) fn is_true(known: Option<bool>) -> bool
    ensures { result ≡ is_true known }
{
    match known {
        Some(b) => b,
        None => false,
    }
}

/// Whether it is known to be this.
pub(crate) fn is_decided(known: Option<bool>, answer: bool) -> bool
    ensures decided { IsTrue result ↔ (known ≡ Some answer) }
{
    match known {
        Some(b) => b == answer,
        None => false,
    }
}
