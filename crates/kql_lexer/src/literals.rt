//! Typed literals.

ghost use Rattle.std.specs.Prelude.{◌≡◌, ◌+◌, ◌<◌, ◌≤◌, if◌then◌else◌, false, true, length, drop, slice_index, Some, None, IfSome};
ghost use Rattle.std.specs.List.{prefix_len};
ghost use Rattle.kql_lexer.specs.Literals.{gap_len, literal_keyword, literal_open, opens_literal, quote_end, quoted_len, raw_len};
ghost use Rattle.kql_lexer.specs.Bytes.{class_of, is_word_char};
ghost use Rattle.kql_lexer.specs.Shapes.{IsFront, IsPlain, gap_after, quote_after};
ghost use Rattle.kql_lexer.specs.Words.{joined_words, word_before};
ghost use Rattle.kql_lexer.specs.declared.classes.Class.TheVariants as class;

use crate::classes::is_blank;
use crate::keyword::Keyword;
use crate::token::{Front, Shape};

/// The byte at a place, 0 past the end.
fn byte_at(bytes: &[u8], at: usize) -> u8
    ensures { result ≡ slice_index bytes.now at }
{
    if at < bytes.len() { bytes[at] } else { 0 }
}

/// Whether blanks and comments go on with a byte before another, and whether the next byte is in a comment.
#[tactic(auto, unfolding(crate::specs::Shapes::gap_after))]
fn gap_after(comment: bool, byte: u8, next: u8) -> Option<bool>
    ensures { result ≡ gap_after comment byte next }
{
    if comment {
        Some(byte != b'\n')
    } else if is_blank(byte) {
        Some(false)
    } else if byte == b'/' && next == b'/' {
        Some(true)
    } else {
        None
    }
}

/// How many bytes of blanks and comments stand first.
#[tactic(auto, using(crate::proofs::LiteralFacts::gap_steps))]
fn gap_len(bytes: &[u8]) -> usize
    ensures len { result ≡ gap_len false bytes.now }
    ensures within { result ≤ length bytes.now }
{
    let mut comment = false;
    for (i, byte) in bytes.iter().enumerate() {
        match gap_after(comment, *byte, byte_at(bytes, i + 1)) {
            Some(next) => comment = next,
            None => return i,
        }
    }
    bytes.len()
}

/// Whether a text between quotes goes on behind a byte, and whether a backslash stands before the next.
#[tactic(auto, unfolding(crate::specs::Shapes::quote_after))]
fn quote_after(kept: bool, byte: u8) -> Option<bool>
    ensures { result ≡ quote_after kept byte }
{
    if kept {
        Some(false)
    } else if byte == b'"' {
        None
    } else {
        Some(byte == b'\\')
    }
}

/// How many bytes stand up to the next double quote that is not behind a backslash, itself included.
#[tactic(auto, using(crate::proofs::LiteralFacts::quote_steps))]
fn quote_end(bytes: &[u8]) -> Option<usize>
    ensures value { result ≡ quote_end false bytes.now }
    ensures within { IfSome result (λ n. n ≤ length bytes.now) }
{
    let mut kept = false;
    for (i, byte) in bytes.iter().enumerate() {
        match quote_after(kept, *byte) {
            Some(next) => kept = next,
            None => return Some(i + 1),
        }
    }
    None
}

/// How many bytes behind a byte belong to a text between quotes that it opens. `plain` says that no double quote there
/// or behind the byte is followed by one that would close it; so no text is searched for one again and again.
#[tactic(auto, using(crate::proofs::LiteralFacts::quoted_steps))]
fn quoted_len(byte: u8, bytes: &[u8], plain: &mut bool) -> usize
    requires plain { IsPlain plain.old bytes.now }
    requires alone { plain.old ≡ true → byte ≡ 34 → quote_end false bytes.now ≡ None }
    ensures len { result ≡ quoted_len byte bytes.now }
    ensures within { result ≤ length bytes.now }
    ensures plain { IsPlain plain.new bytes.now }
{
    if byte != b'"' || *plain {
        return 0;
    }
    match quote_end(bytes) {
        Some(n) => n,
        None => {
            *plain = true;
            0
        }
    }
}

/// How many bytes stand before the first `)` that is not between two double quotes.
#[tactic(auto, using(crate::proofs::LiteralFacts::raw_start))]
fn raw_len(bytes: &[u8], plain: &mut bool) -> usize
    requires { IsPlain plain.old bytes.now }
    ensures len { result ≡ raw_len 0 bytes.now }
    ensures within { result ≤ length bytes.now }
    ensures plain { IsPlain plain.new (drop result bytes.now) }
{
    let mut i = 0;
    while i < bytes.len() {
        if bytes[i] == b')' {
            return i;
        }
        i += 1 + quoted_len(bytes[i], &bytes[i + 1..], plain);
    }
    bytes.len()
}

/// Where the `(` of a typed literal stands, if the bytes open one: behind their first word, which has `size` bytes.
#[tactic(auto, using(crate::proofs::WordFronts::at_steps))]
pub(crate) fn literal_at(rest: &[u8], size: usize, keyword: Keyword) -> Option<usize>
    requires size { size ≡ prefix_len is_word_char rest.now }
    requires keyword { keyword ≡ literal_keyword rest.now }
    requires within { size ≤ length rest.now }
    ensures value { result ≡ (if opens_literal rest.now then Some (literal_open rest.now) else None) }
{
    if !keyword.is_literal() {
        return None;
    }
    let at = size + gap_len(&rest[size..]);
    if byte_at(rest, at) == b'(' {
        Some(at)
    } else {
        None
    }
}

/// The longest typed literal whose `(` is at byte `at`, or its flaw.
pub(crate) fn literal_front(rest: &[u8], keyword: Keyword, at: usize, plain: &mut bool) -> Front
    requires opens { opens_literal rest.now ≡ true }
    requires place { at ≡ literal_open rest.now }
    requires within { at < length rest.now }
    requires keyword { keyword ≡ literal_keyword rest.now }
    requires none { word_before joined_words rest.now ≡ None }
    requires class { class_of (slice_index rest.now 0) ≡ class.Letter }
    requires plain { IsPlain plain.old rest.now }
    ensures front { IsFront rest.now result }
    ensures plain { IsPlain plain.new (drop result.size rest.now) }
{
    let start = at + 1;
    let end = start + raw_len(&rest[start..], plain);
    if end < rest.len() {
        Front {
            size: end + 1,
            shape: Shape::Typed(keyword, at),
        }
    } else {
        Front {
            size: end,
            shape: Shape::Flaw(102),
        }
    }
}
