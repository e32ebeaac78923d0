ghost use Rattle.std.specs.Prelude.{◌≡◌, ◌↔◌, IfOk, IsOk, IsTrue};
ghost use Rattle.kql_texts.specs.Folding.{folded};
ghost use Rattle.kql_texts.specs.Stands.{Begins, Ends, Holds};
ghost use Rattle.kql_texts.specs.Texts.{begins, ends, holds, same};

use crate::folding::{Fold, read_as};
use caseless::default_caseless_match_str;
use std::alloc::{AllocError, Global};

/// Whether `part` stands in `text`. An empty part stands in every text.
pub fn holds(alloc: Global, text: &str, part: &str, fold: Fold) -> Result<bool, AllocError>
    ensures value { IfOk result (λ r. r ≡ holds (folded fold text.now) (folded fold part.now)) }
    ensures held { IfOk result (λ r. IsTrue r ↔ Holds (folded fold text.now) (folded fold part.now)) }
    ensures exact { fold ≡ Fold.Exact → IsOk result }
{
    let text = read_as(alloc, text, fold)?;
    let part = read_as(alloc, part, fold)?;
    Ok(text.as_str().contains(part.as_str()))
}

/// Whether `text` begins with `part`.
pub fn begins(alloc: Global, text: &str, part: &str, fold: Fold) -> Result<bool, AllocError>
    ensures value { IfOk result (λ r. r ≡ begins (folded fold text.now) (folded fold part.now)) }
    ensures begun { IfOk result (λ r. IsTrue r ↔ Begins (folded fold text.now) (folded fold part.now)) }
    ensures exact { fold ≡ Fold.Exact → IsOk result }
{
    let text = read_as(alloc, text, fold)?;
    let part = read_as(alloc, part, fold)?;
    Ok(text.as_str().starts_with(part.as_str()))
}

/// Whether `text` ends with `part`.
pub fn ends(alloc: Global, text: &str, part: &str, fold: Fold) -> Result<bool, AllocError>
    ensures value { IfOk result (λ r. r ≡ ends (folded fold text.now) (folded fold part.now)) }
    ensures ended { IfOk result (λ r. IsTrue r ↔ Ends (folded fold text.now) (folded fold part.now)) }
    ensures exact { fold ≡ Fold.Exact → IsOk result }
{
    let text = read_as(alloc, text, fold)?;
    let part = read_as(alloc, part, fold)?;
    Ok(text.as_str().ends_with(part.as_str()))
}

/// Whether two texts are the same. It takes no memory; its form is that of the other searches.
pub fn same(_alloc: Global, text: &str, other: &str, fold: Fold) -> Result<bool, AllocError>
    ensures value { IfOk result (λ r. r ≡ same (folded fold text.now) (folded fold other.now)) }
    ensures equal { IfOk result (λ r. IsTrue r ↔ (folded fold text.now ≡ folded fold other.now)) }
    ensures answered { IsOk result }
{
    match fold {
        Fold::Exact => Ok(text == other),
        Fold::Caseless => Ok(default_caseless_match_str(text, other)),
    }
}
