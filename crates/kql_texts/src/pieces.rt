ghost use Rattle.std.specs.Prelude.{◌≡◌, ◌∷◌, ◌++◌, [], IfOk, OnOk};
ghost use Rattle.kql_texts.specs.Pieces.{JoinsInto, Replaces, SplitsInto};
ghost use Rattle.kql_texts.specs.Texts.{elements, replace, split_by};

use kql_cells::{Dyn, DynList, KText};
use kql_items::Items;
use std::alloc::{AllocError, Global};

/// The texts between the occurrences of `separator`, which are taken from the left, no two overlapping.
/// An empty separator gives the text alone.
pub fn split_by(alloc: Global, text: &str, separator: &str) -> Result<DynList, AllocError>
    ensures value { IfOk result (λ parts. parts ≡ elements (split_by text.now separator.now)) }
    ensures pieces { IfOk result (λ parts. SplitsInto text.now separator.now parts) }
    ensures joined { IfOk result (λ parts. JoinsInto text.now separator.now parts) }
{
    let mut parts = Items::new(alloc);
    if separator.is_empty() {
        push_text(alloc, &mut parts, text)?;
        return Ok(parts);
    }
    for piece in text.split(separator) {
        push_text(alloc, &mut parts, piece)?;
    }
    Ok(parts)
}

/// The text with `to` in the place of each `from`, which are taken from the left, no two overlapping.
/// An empty `from` changes nothing.
pub fn replace(alloc: Global, text: &str, from: &str, to: &str) -> Result<KText, AllocError>
    ensures value { IfOk result (λ r. r ≡ replace text.now from.now to.now) }
    ensures replaced { IfOk result (λ r. Replaces text.now from.now to.now r) }
    ensures same { from.now ≡ to.now → IfOk result (λ r. r ≡ text.now) }
{
    if from.is_empty() {
        return KText::from_str(alloc, text);
    }
    let replaced = text.replace(alloc, from, to)?;
    Ok(KText::from_string(replaced))
}

fn push_text(alloc: Global, parts: &mut DynList, text: &str) -> Result<(), AllocError>
    ensures { OnOk result (parts.new ≡ parts.old ++ Dyn.Text text.now ∷ []) }
{
    parts.push(Dyn::Text(KText::from_str(alloc, text)?))
}
