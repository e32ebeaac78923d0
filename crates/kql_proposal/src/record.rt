//! The header of a file, as it stands there.

ghost use Rattle.std.specs.Prelude.{◌≤◌, length};

use csv::{ByteRecord, ReaderBuilder};
use std::alloc::{AllocError, Global};

// The end of a field that gives the type of strings.
const STRING: &[u8] = b":string";

/// The header of a file.
#[derive(Debug, Drop)]
pub(crate) struct First {
    /// For each field, whether it gives the type of strings.
    pub strings: Vec<bool>,
    /// How many bytes of the file stand before the rows.
    pub end: usize,
}

/// The header of a file that loads; want of memory is all that may keep it from being read.
pub(crate) fn first_record(alloc: Global, bytes: &[u8]) -> Result<First, AllocError> {
    let text = without_mark(bytes);
    let mut reader = ReaderBuilder::new()
        .has_headers(false)
        .from_reader(alloc, text);
    let mut record = ByteRecord::new(alloc);
    if reader.read_byte_record(&mut record).is_err() {
        return Err(AllocError);
    }
    let mut strings = Vec::new(alloc);
    for j in 0..record.len() {
        let field = record.get(j).unwrap_or(b"");
        strings.push(field.ends_with(STRING))?;
    }
    let read = usize::try_from(reader.position().byte()).unwrap_or(usize::MAX);
    let end = behind_line(text, read) + (bytes.len() - text.len());
    Ok(First { strings, end })
}

// A file without its byte order mark.
fn without_mark(bytes: &[u8]) -> &[u8]
    ensures { length result.now ≤ length bytes.now }
{
    match bytes.strip_prefix(b"\xef\xbb\xbf") {
        Some(text) => text,
        None => bytes,
    }
}

// The place behind a line feed that stands at a place, after a carriage return.
fn behind_line(text: &[u8], at: usize) -> usize
    ensures { result ≤ length text.now }
{
    let at = at.min(text.len());
    if text[at..].starts_with(b"\n") {
        at + 1
    } else {
        at
    }
}
