ghost use Rattle.std.specs.Prelude.{◌≡◌, string_bytes, IfOk, IsOk};
ghost use Rattle.std.specs.Cow.{cow_str_bytes};
ghost use Rattle.std.specs.Str.{chars, encode_utf8_all};
ghost use Rattle.caseless.specs.Caseless.{default_case_fold};
ghost use Rattle.kql_texts.specs.Folding.{folded};

use caseless::Caseless;
use std::alloc::{AllocError, Global};
use std::borrow::CowStr;

/// Whether a search minds case.
#[derive(Clone, Copy, Debug, PartialEq, Eq)]
pub enum Fold {
    /// Texts are compared by bytes.
    Exact,
    /// Texts are compared by the bytes of their default case folds (The Unicode Standard, section 3.13),
    /// without a normal form.
    Caseless,
}

/// What a search reads of a text.
pub fn read_as<'a>(alloc: Global, text: &'a str, fold: Fold) -> Result<CowStr<'a>, AllocError>
    ensures bytes { IfOk result (λ c. cow_str_bytes c ≡ folded fold text.now) }
    ensures exact { fold ≡ Fold.Exact → IsOk result }
{
    match fold {
        Fold::Exact => Ok(CowStr::Borrowed(text)),
        Fold::Caseless => Ok(CowStr::Owned(case_fold(alloc, text)?)),
    }
}

// An ASCII text folds byte by byte, in one block of memory.
fn case_fold(alloc: Global, text: &str) -> Result<String, AllocError>
    ensures { IfOk result (λ s. string_bytes s ≡ encode_utf8_all (default_case_fold (chars text.now))) }
{
    if !text.is_ascii() {
        return full_case_fold(alloc, text);
    }
    let mut folded = String::from_str(alloc, text)?;
    folded.make_ascii_lowercase();
    Ok(folded)
}

// No character folds to more than three times its bytes, so that one block of memory is enough.
fn full_case_fold(alloc: Global, text: &str) -> Result<String, AllocError>
    ensures { IfOk result (λ s. string_bytes s ≡ encode_utf8_all (default_case_fold (chars text.now))) }
{
    let mut folded = String::with_capacity(alloc, text.len().saturating_mul(3))?;
    folded.extend(text.chars().default_case_fold())?;
    Ok(folded)
}
