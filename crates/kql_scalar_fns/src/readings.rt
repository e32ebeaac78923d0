ghost use Rattle.std.specs.Prelude.{◌≡◌, ◌++◌, IfOk, IsTrue, OnOk, option_map};
ghost use Rattle.std.specs.Fmt.{signed_decimal};
ghost use Rattle.kql_dynamic.specs.Parts.{text};
ghost use Rattle.kql_cells.specs.Dynamic.{is_well_formed_dynamic};
ghost use Rattle.kql_cells.specs.Seen.{seen};
ghost use Rattle.kql_cells.specs.Values.{IsWellFormed};
ghost use Rattle.kql_scalar_fns.specs.Readings.{dynamic_text, text_of};

use kql_cells::{CellRef, Dyn, KText};
use kql_dynamic::print_json;
use kql_ticks::{print_moment, print_span};
use std::alloc::{AllocError, Global};

// The text of a dynamic value that is one.
#[tactic(auto, unfolding(kql_dynamic::specs::Parts::text))]
pub(crate) fn text_in(d: &Dyn) -> Option<&str>
    ensures { option_map (λ s. s.now) result ≡ text d.now }
{
    match d {
        Dyn::Text(t) => Some(t.as_str()),
        _ => None,
    }
}

// JSON, but a text without its quotes.
#[tactic(auto, unfolding(crate::specs::Readings::dynamic_text))]
fn dynamic_text(alloc: Global, d: &Dyn) -> Result<KText, AllocError>
    requires { IsTrue (is_well_formed_dynamic d.now) }
    ensures { IfOk result (λ t. t ≡ dynamic_text d.now) }
{
    match text_in(d) {
        Some(t) => KText::from_str(alloc, t),
        None => print_json(alloc, d),
    }
}

fn long_text(alloc: Global, n: i64) -> Result<KText, AllocError>
    ensures { IfOk result (λ t. t ≡ signed_decimal n) }
{
    Ok(KText::from_string(format!(in alloc; "{n}")?))
}

// What a value prints as; null is the empty text.
#[tactic(auto, unfolding(crate::specs::Readings::text_of))]
pub(crate) fn text_of(alloc: Global, a: CellRef<'_>) -> Result<KText, AllocError>
    requires { IsWellFormed (seen a) }
    ensures { IfOk result (λ t. t ≡ text_of (seen a.entry)) }
{
    match a {
        CellRef::Null => Ok(KText::new(alloc)),
        CellRef::Bool(true) => KText::from_str(alloc, "true"),
        CellRef::Bool(false) => KText::from_str(alloc, "false"),
        CellRef::Long(n) => long_text(alloc, n),
        CellRef::Text(t) => KText::from_str(alloc, t),
        CellRef::Moment(n) => print_moment(alloc, n),
        CellRef::Span(n) => print_span(alloc, n),
        CellRef::Dynamic(d) => dynamic_text(alloc, d),
    }
}

// Adds what a value prints as at the end.
#[tactic(auto, unfolding(crate::specs::Readings::text_of))]
pub(crate) fn push_text_of(alloc: Global, out: &mut KText, a: CellRef<'_>) -> Result<(), AllocError>
    requires { IsWellFormed (seen a) }
    ensures { OnOk result (out.new ≡ out.old ++ text_of (seen a.entry)) }
{
    match a {
        CellRef::Text(t) => out.push_str(t),
        other => {
            let text = text_of(alloc, other)?;
            out.push_str(text.as_str())
        }
    }
}
