//! The names of added columns and derived tables.
ghost use Rattle.std.specs.Prelude.{◌≡◌, IfOk};
ghost use Rattle.pattern_lift.specs.Derived.{named};

use kql_cells::KText;
use kql_lexer::Place;
use std::alloc::{AllocError, Global};

/// The name of an added column by the place of its call's word, and of a derived table by that of its first call.
#[tactic(auto, unfolding(crate::specs::Derived::named))]
pub fn call_name(alloc: Global, marks: &str, place: Place) -> Result<KText, AllocError>
    ensures name { IfOk result (λ n. n ≡ named marks.now place) }
{
    let line = place.line;
    let column = place.column;
    let name = format!(in alloc; "{marks}{line}:{column}")?;
    Ok(KText::from_string(name))
}
