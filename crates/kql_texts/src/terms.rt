ghost use Rattle.std.specs.Prelude.{◌≡◌, ◌↔◌, ◌≤◌, length, take, drop, IfOk, IsTrue};
ghost use Rattle.std.specs.Str.{chars};
ghost use Rattle.kql_texts.specs.Folding.{folded};
ghost use Rattle.kql_texts.specs.Marks.{mark_between, marked};
ghost use Rattle.kql_texts.specs.Terms.{HasTerm, IsBorder, are_joined};
ghost use Rattle.kql_texts.specs.Texts.{has_term};

use crate::folding::{Fold, read_as};
use memchr::memmem;
use std::alloc::{AllocError, Global};

// What is written between two bytes of a text that is searched for terms: no byte of a text is 255.
const BORDER: u8 = 255;

const JOINED: u8 = 254;

/// Whether `part` stands in `text` as a term: at a place at whose start and end the characters on the two
/// sides are not both ASCII letters or digits. The ends of the text are no characters.
pub fn has_term(alloc: Global, text: &str, part: &str, fold: Fold) -> Result<bool, AllocError>
    ensures value { IfOk result (λ r. r ≡ has_term (folded fold text.now) (folded fold part.now)) }
    ensures term { IfOk result (λ r. IsTrue r ↔ HasTerm (folded fold text.now) (folded fold part.now)) }
    ensures characters { IfOk result (λ r. IsTrue r ↔ HasTerm (chars (folded fold text.now)) (chars (folded fold part.now))) }
{
    let text = read_as(alloc, text, fold)?;
    let part = read_as(alloc, part, fold)?;
    stands_as_term(alloc, text.as_str(), part.as_str())
}

// The first place decides most often.
fn stands_as_term(alloc: Global, text: &str, part: &str) -> Result<bool, AllocError>
    ensures { IfOk result (λ r. IsTrue r ↔ HasTerm text.now part.now) }
{
    match text.find(part) {
        None => Ok(false),
        Some(at) => {
            if is_border(text.as_bytes(), at) && is_border(text.as_bytes(), at + part.len()) {
                return Ok(true);
            }
            stands_between_marks(alloc, text, part)
        }
    }
}

// Places may overlap, so that one search after another would not be linear: one search finds the part with
// its borders.
fn stands_between_marks(alloc: Global, text: &str, part: &str) -> Result<bool, AllocError>
    ensures { IfOk result (λ r. IsTrue r ↔ HasTerm text.now part.now) }
{
    let text = marked(alloc, text.as_bytes())?;
    let part = marked(alloc, part.as_bytes())?;
    Ok(memmem::find(&text, &part).is_some())
}

fn marked(alloc: Global, bytes: &[u8]) -> Result<Vec<u8>, AllocError>
    ensures { IfOk result (λ v. v.items ≡ marked bytes.now) }
{
    let mut marks = Vec::with_capacity(alloc, 2 * bytes.len() + 1)?;
    let mut before = 0;
    for byte in bytes {
        marks.push(mark_between(before, *byte))?;
        marks.push(*byte)?;
        before = *byte;
    }
    marks.push(BORDER)?;
    Ok(marks)
}

fn mark_between(before: u8, after: u8) -> u8
    ensures { result ≡ mark_between before after }
{
    if are_joined(before, after) {
        JOINED
    } else {
        BORDER
    }
}

fn are_joined(before: u8, after: u8) -> bool
    ensures { result ≡ are_joined before after }
{
    before.is_ascii_alphanumeric() && after.is_ascii_alphanumeric()
}

fn is_border(bytes: &[u8], at: usize) -> bool
    requires { at ≤ length bytes.now }
    ensures { IsTrue result ↔ IsBorder (take at bytes.now) (drop at bytes.now) }
{
    at == 0 || at == bytes.len() || !are_joined(bytes[at - 1], bytes[at])
}
