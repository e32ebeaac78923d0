ghost use Rattle.std.specs.Prelude.{◌≡◌, ◌↔◌, ◌-◌, ◌≤◌, ◌≤ℤ◌, pos, length, min, take, drop, IfOk};
ghost use Rattle.std.specs.Str.{chars, encode_utf8_all};
ghost use Rattle.kql_texts.specs.Places.{IsIndexOf, or_zero, place_in};
ghost use Rattle.kql_texts.specs.Stands.{Holds};
ghost use Rattle.kql_texts.specs.Texts.{index_of, sub_text};

use kql_cells::KText;
use std::alloc::{AllocError, Global};

/// How many characters a text has.
pub fn char_count(text: &str) -> u64
    ensures count { result ≡ length (chars text.now) }
    ensures few { result ≤ length text.now }
{
    text.chars().count() as u64
}

/// The place of the first character of the first `part` in a text, or -1 where it stands nowhere.
/// An empty part stands at 0.
pub fn index_of(text: &str, part: &str) -> i64
    ensures value { result ≡ index_of text.now part.now }
    ensures place { IsIndexOf (chars text.now) (chars part.now) result }
    ensures held { (pos 0 ≤ℤ result) ↔ Holds text.now part.now }
{
    match text.find(part) {
        Some(at) => char_count(&text[..at]) as i64,
        None => -1,
    }
}

/// The characters from place `start` on, at most `count` of them. A negative start counts from the end of the
/// text, and is 0 where that is before its beginning; a negative count is 0.
pub fn sub_text(alloc: Global, text: &str, start: i64, count: i64) -> Result<KText, AllocError>
    ensures value { IfOk result (λ r. r ≡ sub_text text.now start count) }
    ensures counted { let all = length (chars text.now) in IfOk result (λ r. length (chars r) ≡ min (or_zero count) (all - place_in all start)) }
{
    let rest = chars_from(text, place_of(text, start));
    KText::from_str(alloc, chars_up_to(rest, not_negative(count)))
}

// The place that a start says.
fn place_of(text: &str, start: i64) -> u64
    ensures { result ≡ place_in (length (chars text.now)) start }
{
    if start < 0 {
        char_count(text).saturating_sub(start.unsigned_abs())
    } else {
        start as u64
    }
}

fn not_negative(count: i64) -> u64
    ensures { result ≡ or_zero count }
{
    if count < 0 { 0 } else { count as u64 }
}

// What follows the first `count` characters.
fn chars_from(text: &str, count: u64) -> &str
    ensures { result.now ≡ encode_utf8_all (drop count (chars text.now)) }
{
    let mut rest = text.chars();
    for _passed in 0..count {
        match rest.next() {
            Some(_next) => {}
            None => return "",
        }
    }
    rest.as_str()
}

// The first `count` characters.
fn chars_up_to(text: &str, count: u64) -> &str
    ensures { result.now ≡ encode_utf8_all (take count (chars text.now)) }
{
    let rest = chars_from(text, count);
    &text[..text.len() - rest.len()]
}
