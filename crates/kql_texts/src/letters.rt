ghost use Rattle.std.specs.Prelude.{◌≡◌, map, reverse, IfOk};
ghost use Rattle.std.specs.Char.{to_ascii_lowercase, to_ascii_uppercase};
ghost use Rattle.std.specs.Cmp.Lexicographic.{slice_cmp};
ghost use Rattle.std.specs.Ordering.{nat_cmp};
ghost use Rattle.std.specs.Str.{chars, encode_utf8_all};

use kql_cells::KText;
use std::alloc::{AllocError, Global};
use std::cmp::Ordering;

/// The text with each ASCII letter in upper case.
pub fn to_upper(alloc: Global, text: &str) -> Result<KText, AllocError>
    ensures letters { IfOk result (λ r. r ≡ map to_ascii_uppercase text.now) }
{
    let mut letters = String::from_str(alloc, text)?;
    letters.make_ascii_uppercase();
    Ok(KText::from_string(letters))
}

/// The text with each ASCII letter in lower case.
pub fn to_lower(alloc: Global, text: &str) -> Result<KText, AllocError>
    ensures letters { IfOk result (λ r. r ≡ map to_ascii_lowercase text.now) }
{
    let mut letters = String::from_str(alloc, text)?;
    letters.make_ascii_lowercase();
    Ok(KText::from_string(letters))
}

/// The characters from the last to the first.
pub fn reverse_chars(alloc: Global, text: &str) -> Result<KText, AllocError>
    ensures reversed { IfOk result (λ r. r ≡ encode_utf8_all (reverse (chars text.now))) }
{
    let mut reversed = String::with_capacity(alloc, text.len())?;
    reversed.extend(text.chars().rev())?;
    Ok(KText::from_string(reversed))
}

/// The order of two texts by their bytes.
pub fn compare(text: &str, other: &str) -> Ordering
    ensures bytes { result ≡ slice_cmp nat_cmp text.now other.now }
{
    text.cmp(other)
}
