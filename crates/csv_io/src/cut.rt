ghost use Rattle.std.specs.Prelude.{◌≡◌, ◌<◌, ◌≤◌, IfOk, IfSome, drop, true, false, if◌then◌else◌, length, map, slice_index};
ghost use Rattle.csv.specs.Reading.{strip_bom};
ghost use Rattle.csv_io.specs.Cuts.{IsCut, IsRecordAt, records_at};
ghost use Rattle.csv_io.specs.Runs.{IsAhead, IsBehind, ends_line};

use crate::lanes::{Ahead, behind, field_end, is_plain, look, quote_end};
use std::alloc::AllocError;

// A field that stands in a text from one place to another, and ends at a third, and what is known of the bytes behind it.
#[derive(Clone, Copy)]
struct Cut {
    from: usize,
    to: usize,
    end: usize,
    ahead: Ahead,
}

// The field that begins at a place, if it stands there as it is.
#[inline(always)]
fn cut_field(text: &[u8], at: usize, ahead: Ahead) -> Option<Cut>
    requires { IsAhead text.now at ahead.bits ahead.left }
    ensures cut { IfSome result (λ c. IsCut text.now at c.from c.to c.end) }
    ensures ahead { IfSome result (λ c. IsBehind text.now c.end c.ahead.bits c.ahead.left) }
{
    if at < text.len() && text[at] == b'"' {
        return cut_quoted(text, at);
    }
    let (end, ahead) = field_end(text, at, ahead);
    Some(Cut {
        from: at,
        to: end,
        end,
        ahead,
    })
}

// The field in quotes that begins at a place, if no quote stands in it and it ends behind the second.
#[inline(always)]
fn cut_quoted(text: &[u8], at: usize) -> Option<Cut>
    requires within { at < length text.now }
    requires quote { slice_index text.now at ≡ 34 }
    ensures cut { IfSome result (λ c. IsCut text.now at c.from c.to c.end) }
    ensures ahead { IfSome result (λ c. IsBehind text.now c.end c.ahead.bits c.ahead.left) }
{
    let from = at + 1;
    let to = quote_end(text, from);
    if to == text.len() {
        return None;
    }
    let end = to + 1;
    if end < text.len() && is_plain(text[end]) {
        return None;
    }
    let ahead = behind(text, end);
    Some(Cut {
        from,
        to,
        end,
        ahead,
    })
}

// The fields of the record that begins at a place, and where it ends, if each stands there as it is.
#[inline(always)]
pub(crate) fn cut_record<'a>(
    text: &'a [u8],
    start: usize,
    fields: &mut Vec<&'a [u8]>,
) -> Result<Option<usize>, AllocError>
    requires within { start < length text.now }
    requires begins { ends_line (slice_index text.now start) ≡ false }
    ensures { IfOk result (λ found. IfSome found (IsRecordAt text.now start (map (λ f. f.now) fields.new.items))) }
{
    fields.clear();
    let mut at = start;
    let mut ahead = look(text, start);
    'fields: while let Some(cut) = cut_field(text, at, ahead) {
        fields.push(&text[cut.from..cut.to])?;
        if cut.end == text.len() || text[cut.end] != b',' {
            return Ok(Some(cut.end));
        }
        at = cut.end + 1;
        ahead = cut.ahead;
    }
    Ok(None)
}

// Where the next record begins behind a place, or where the text ends.
#[inline(always)]
pub(crate) fn record_start(text: &[u8], at: usize) -> usize
    requires { at ≤ length text.now }
    ensures within { result ≤ length text.now }
    ensures same { records_at text.now at ≡ records_at text.now result }
    ensures begins { result < length text.now → ends_line (slice_index text.now result) ≡ false }
{
    let mut start = at;
    while start < text.len() && ends_line(text[start]) {
        start += 1;
    }
    start
}

// The end of a line.
fn ends_line(b: u8) -> bool
    ensures { result ≡ ends_line b }
{
    b == b'\r' || b == b'\n'
}

// Whether a text begins with a byte order mark.
#[inline(always)]
#[tactic(auto, unfolding(csv::specs::Reading::strip_bom))]
pub(crate) fn has_mark(text: &[u8]) -> bool
    ensures length { result ≡ true → 3 ≤ length text.now }
    ensures rest { strip_bom text.now ≡ (if result then drop 3 text.now else text.now) }
{
    match text {
        [a, b, c, ..] => *a == 0xef && *b == 0xbb && *c == 0xbf,
        _ => false,
    }
}
