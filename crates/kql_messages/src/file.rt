//! What is told of a file that is refused.

ghost use Rattle.std.specs.Prelude.{◌≡◌, ◌≤◌, ◌<◌, ◌+◌, ◌*◌, IfOk};
ghost use Rattle.std.specs.String.{string_bytes};
ghost use Rattle.kql_messages.specs.Facts.{mib_of, sizes_text};

use crate::cells::why_not;
use crate::kinds::kind_named;
use crate::records::{Rows, field, rows_at};
use crate::sentence::{Advice, NONE, Sentence, Word};
use crate::words::front;
use kql_near::nearest_name;
use std::alloc::{AllocError, Global};

/// A file that is refused, and what is known of it.
#[derive(Clone, Copy)]
pub struct RefusedFile<'a> {
    pub code: u32,
    /// The row, counted from 1; the header is row 0.
    pub row: u64,
    /// The column, or what the code has in its place.
    pub column: u64,
    /// The name of the table; none of the query's file.
    pub table: Option<&'a str>,
    pub path: &'a str,
    /// What the file holds, where it can be read again.
    pub bytes: &'a [u8],
    /// The names of the files in its folder.
    pub beside: &'a [&'a str],
}

// How many characters of a cell are shown.
const SHOWN: usize = 80;

// What a file is by its first bytes: 301.
fn bytes_told<'a>(refused: &RefusedFile<'a>) -> Sentence<'a> {
    let form = match refused.bytes {
        [0x1f, 0x8b, ..] => "{} is gzip: {}=<(zcat {})",
        [0x28, 0xb5, 0x2f, 0xfd, ..] => "{} is zstd: {}=<(zstdcat {})",
        [b'P', b'K', ..] => "{} is a zip, perhaps of a spreadsheet: save it as CSV",
        [0xff, 0xfe, ..] | [0xfe, 0xff, ..] => "{} is in UTF-16: {}=<(iconv -f UTF-16 -t UTF-8 {})",
        _ => {
            return Sentence {
                form: "{} is not UTF-8 from byte {} on; if it is in Latin-1: {}=<(iconv -f LATIN1 -t UTF-8 {})",
                words: [
                    Word::Text(refused.path),
                    Word::Number(refused.column.saturating_add(1)),
                    Word::Text(refused.table.unwrap_or("T")),
                    Word::Text(refused.path),
                    NONE,
                    NONE,
                ],
            };
        }
    };
    Sentence::with_three(
        form,
        refused.path,
        refused.table.unwrap_or("T"),
        refused.path,
    )
}

// How many columns a table has at most.
const COLUMNS_TOP: u64 = 256;

// A field of the header whose name or type is refused: 303 and 304.
fn header_told<'a>(refused: &RefusedFile<'a>, rows: &'a Rows) -> Sentence<'a> {
    let name = field(&rows.header, (refused.column as usize).saturating_sub(1));
    let (form, first, second) = match name.rsplit_once(':') {
        _ if refused.column > COLUMNS_TOP => (
            "{}, column {} of the header: a table has at most 256 columns",
            "",
            "",
        ),
        _ if refused.code == 304 => (
            "{}, column {} of the header: the name {} stands before; give this one another",
            name,
            "",
        ),
        Some((front, word @ ("int" | "real" | "double" | "decimal"))) => (
            "{}, column {} of the header: there is no type {}; write {}:long for whole numbers",
            word,
            front,
        ),
        Some((front, word @ ("date" | "time"))) => (
            "{}, column {} of the header: there is no type {}; write {}:datetime, or :timespan for durations",
            word,
            front,
        ),
        Some((front, word @ "guid")) => (
            "{}, column {} of the header: there is no type {}; write {} alone, for texts",
            word,
            front,
        ),
        _ => ("{}, column {} of the header: a name is missing", "", ""),
    };
    Sentence {
        form,
        words: [
            Word::Text(refused.path),
            Word::Number(refused.column),
            Word::Text(first),
            Word::Text(second),
            NONE,
            NONE,
        ],
    }
}

// A row of another length than the header: 305.
fn length_told<'a>(refused: &RefusedFile<'a>, rows: &'a Rows) -> Advice<'a> {
    let columns = rows.header.len();
    let fields = rows.row.len();
    let first = Sentence {
        form: if fields == 1 {
            "{}, line {}: {} cell in the row, where the header has {}"
        } else {
            "{}, line {}: {} cells in the row, where the header has {}"
        },
        words: [
            Word::Text(refused.path),
            Word::Number(rows.line),
            Word::Number(fields as u64),
            Word::Number(columns as u64),
            NONE,
            NONE,
        ],
    };
    let second = if columns == 1 && field(&rows.header, 0).contains(';') {
        "The cells of this file are parted by semicolons, and those of a table by commas"
    } else if fields > columns {
        "Put a cell that has a comma in it between double quotes"
    } else {
        "A double quote that is not closed runs on over the next lines; a cell that is left out keeps its comma"
    };
    Advice {
        first: Some(first),
        second: Some(Sentence::plain(second)),
    }
}

// A cell that does not read as its column's type: 306.
fn cell_told<'a>(refused: &RefusedFile<'a>, rows: &'a Rows) -> Option<Sentence<'a>> {
    let at = (refused.column as usize).saturating_sub(1);
    let (name, word) = field(&rows.header, at).rsplit_once(':')?;
    let kind = kind_named(word)?;
    let cell = field(&rows.row, at);
    let shown = front(cell, SHOWN);
    Some(Sentence {
        form: if shown.len() < cell.len() {
            "{}, line {}, column {} ({}): the cell \"{}..\" {}"
        } else {
            "{}, line {}, column {} ({}): the cell \"{}\" {}"
        },
        words: [
            Word::Text(refused.path),
            Word::Number(rows.line),
            Word::Text(name),
            Word::Text(word),
            Word::Text(shown),
            Word::Text(why_not(kind, cell)),
        ],
    })
}

// A file that there is not: 307.
fn missing_told<'a>(alloc: Global, refused: &RefusedFile<'a>) -> Result<Advice<'a>, AllocError> {
    let path = refused.path;
    let name = match path.rsplit_once('/') {
        Some((_, name)) => name,
        None => path,
    };
    let second = match nearest_name(alloc, name, refused.beside)? {
        Some(other) => Some(Sentence::with("Did you mean {}, which is in that folder?", other)),
        None if refused.table.is_none() && path.contains('|') => Some(Sentence::plain(
            "Behind run stands the path of a query's file; a query itself stands behind -e: kql -e 'T | count' T=t.csv",
        )),
        None => None,
    };
    Ok(Advice {
        first: Some(Sentence::with("There is no file {}", path)),
        second,
    })
}

// The sentences on a file of which the header and the row are read again.
fn rows_told<'a>(refused: &RefusedFile<'a>, rows: &'a Rows) -> Advice<'a> {
    match refused.code {
        305 => length_told(refused, rows),
        306 => Advice::of(cell_told(refused, rows)),
        _ => Advice::of(Some(header_told(refused, rows))),
    }
}

/// How many bytes the table files have together, and how many they may have.
#[derive(Clone, Copy, Debug)]
pub struct Sizes {
    pub bytes: u64,
    pub limit: u64,
}

// How many bytes a MiB has.
const MIB: u64 = 1_048_576;

// How many MiB hold so many bytes.
fn mib_of(bytes: u64) -> u64
    ensures value { result ≡ mib_of bytes }
    ensures holds { bytes ≤ result * 1048576 }
    ensures least { result * 1048576 < bytes + 1048576 }
{
    bytes / MIB + u64::from(bytes % MIB > 0)
}

/// The sentence for table files that have more bytes than may be read: 308.
pub fn sizes_message(alloc: Global, sizes: Sizes) -> Result<String, AllocError>
    ensures text { IfOk result (λ told. string_bytes told ≡ sizes_text sizes.bytes sizes.limit) }
{
    let Sizes { bytes, limit } = sizes;
    let mib = mib_of(bytes);
    format!(in alloc;
        "The table files have {bytes} bytes together, and {limit} may be read: give --limit {mib}MiB, or leave rows out before"
    )
}

/// The sentences for a refused file, each in a line, without an end of the last; none where nothing more is known than its code tells.
pub fn file_message(alloc: Global, refused: &RefusedFile<'_>) -> Result<String, AllocError> {
    let mut out = String::new(alloc);
    match refused.code {
        301 => bytes_told(refused).write(&mut out)?,
        302 => Sentence::with(
            "{} is empty: begin it with a header, as time:datetime,host,ms:long",
            refused.path,
        )
        .write(&mut out)?,
        303..=306 => {
            if let Some(rows) = rows_at(alloc, refused.bytes, refused.row) {
                rows_told(refused, &rows).write(&mut out)?;
            }
        }
        307 => missing_told(alloc, refused)?.write(&mut out)?,
        308 => Sentence {
            form: "The table files have more bytes together than may be read: give --limit 2GiB, or as many as it takes; docs/COOKBOOK.md has chunks of a large file",
            words: [NONE, NONE, NONE, NONE, NONE, NONE],
        }
        .write(&mut out)?,
        _ => {}
    }
    Ok(out)
}
