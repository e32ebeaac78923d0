//! The first record of a text.
ghost use Rattle.std.specs.Prelude.{◌≡◌, ◌<◌, ◌≤◌, [], false, IfOk, MatchOption, length, slice_index};
ghost use Rattle.csv_io.specs.Cuts.{records_at};
ghost use Rattle.csv_io.specs.Load.{file_records};
ghost use Rattle.csv_io.specs.Parts.{IsFirst};
ghost use Rattle.csv_io.specs.Runs.{ends_line};

use crate::cut::{has_mark, record_start};
use crate::line::Line;
use std::alloc::AllocError;

// Reads the first record of a text, and answers where it ends, if there is one.
pub(crate) fn read_first<'a>(
    text: &'a str,
    line: &mut Line<'a>,
) -> Result<Option<usize>, AllocError>
    ensures { IfOk result (λ found. MatchOption found (file_records text.now ≡ []) (IsFirst text.now line.new)) }
{
    let bytes = text.as_bytes();
    let start = text_start(bytes);
    if start == bytes.len() {
        return Ok(None);
    }
    let end = line.read(bytes, start)?;
    Ok(Some(end))
}

// Where the first record of a text begins, or where the text ends.
fn text_start(text: &[u8]) -> usize
    ensures within { result ≤ length text.now }
    ensures first { file_records text.now ≡ records_at text.now result }
    ensures begins { result < length text.now → ends_line (slice_index text.now result) ≡ false }
{
    let from = if has_mark(text) { 3 } else { 0 };
    record_start(text, from)
}
