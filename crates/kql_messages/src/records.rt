//! Records of a file of CSV.

ghost use Rattle.std.specs.Prelude.{◌≤◌, length};

use csv::{ByteRecord, Reader, ReaderBuilder};
use std::alloc::Global;
use std::str;

// A reader of the records of a file.
fn reader<'a>(alloc: Global, bytes: &'a [u8]) -> Reader<&'a [u8]> {
    ReaderBuilder::new()
        .has_headers(false)
        .flexible(true)
        .from_reader(alloc, bytes)
}

/// How many bytes the header of a file has, with the end of its line.
pub fn header_end(alloc: Global, bytes: &[u8]) -> usize
    ensures within { result ≤ length bytes.now }
{
    let mut records = reader(alloc, bytes);
    let mut record = ByteRecord::new(alloc);
    match records.read_byte_record(&mut record) {
        Ok(true) => (records.position().byte() as usize).min(bytes.len()),
        _ => 0,
    }
}

/// The header of a file, a record, and the line of the file on which that begins, from 1.
#[derive(Drop)]
pub(crate) struct Rows {
    pub(crate) header: ByteRecord,
    pub(crate) row: ByteRecord,
    pub(crate) line: u64,
}

/// The header of a file, and the record that stands so many behind it.
pub(crate) fn rows_at(alloc: Global, bytes: &[u8], number: u64) -> Option<Rows> {
    let mut records = reader(alloc, bytes);
    let mut header = ByteRecord::new(alloc);
    let mut row = ByteRecord::new(alloc);
    if !matches!(records.read_byte_record(&mut header), Ok(true)) {
        return None;
    }
    for _ in 0..number {
        if !matches!(records.read_byte_record(&mut row), Ok(true)) {
            return None;
        }
    }
    let line = match row.position() {
        Some(position) => line_behind_blank_ones(bytes, position.byte() as usize, position.line()),
        None => 1,
    };
    Some(Rows { header, row, line })
}

// The line of the first byte from a place on that ends no line, where the place is on this line.
fn line_behind_blank_ones(bytes: &[u8], from: usize, line: u64) -> u64 {
    let mut at = line;
    for byte in bytes.get(from..).unwrap_or(&[]) {
        if *byte == b'\n' {
            at = at.saturating_add(1);
        } else if *byte != b'\r' {
            return at;
        }
    }
    at
}

/// A field of a record as a text.
pub(crate) fn field(record: &ByteRecord, at: usize) -> &str {
    str::from_utf8(record.get(at).unwrap_or(b"")).unwrap_or("")
}
