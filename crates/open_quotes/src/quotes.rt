//! The quote that is open at the end of a file.
ghost use Rattle.std.specs.Prelude.{◌≡◌, ◌<◌, ◌≤◌, drop, length, take, IfSome, IfNone};
ghost use Rattle.csv.specs.Reading.{strip_bom};
ghost use Rattle.open_quotes.specs.Quotes.{EndsInside, OpensIn, line_of};

use crate::place::{Place, opened_behind, place_behind};

/// The line, from 1, of the quote that is open at the end of a file; none where the file does not end inside a cell of quotes.
pub fn open_quote(bytes: &[u8]) -> Option<usize>
    ensures opened { IfSome result (λ line. OpensIn (strip_bom bytes.now) line) }
    ensures closed { IfNone result (EndsInside (strip_bom bytes.now) → ⊥) }
{
    let text = without_mark(bytes);
    let mut place = Place::Start;
    let mut opened = 0;
    for i in 0..text.len() {
        let next = place_behind(place, text[i]);
        opened = opened_behind(place, next, i, opened);
        place = next;
    }
    if place == Place::Quoted {
        Some(line_at(text, opened))
    } else {
        None
    }
}

// The line of the byte at a place.
fn line_at(text: &[u8], k: usize) -> usize
    requires { k ≤ length text.now }
    ensures { result ≡ line_of text.now k }
{
    let mut line = 1;
    for i in 0..k {
        if text[i] == b'\n' {
            line += 1;
        }
    }
    line
}

// A file without a byte order mark.
#[tactic(auto, unfolding(csv::specs::Reading::strip_bom))]
fn without_mark(bytes: &[u8]) -> &[u8]
    ensures { result.now ≡ strip_bom bytes.now }
{
    match bytes {
        [0xef, 0xbb, 0xbf, rest @ ..] => rest,
        _ => bytes,
    }
}
