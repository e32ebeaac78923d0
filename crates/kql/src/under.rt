//! What a terminal is told under an answer of the files of its tables: how many numbers of JSON are null in them, and which quote is open at the end.

use crate::advice::{asked_in, front_of};
use crate::probe::catalogue_of;
use json_losses::{count_losses, losses_line};
use kql_cells::{Kind, NamedSchema};
use kql_words::table_parts;
use open_quotes::{open_quote, quote_line};
use std::io;

/// Tells a terminal of the files of an answer's tables that these words name, and that their catalogue does. Only a file of a table among these is read
/// again.
pub(crate) fn tell(rt: &HostRuntime, words: &[String], tables: &[NamedSchema]) -> io::Result<()> {
    let Some(asked) = asked_in(words) else {
        return Ok(());
    };
    let most = asked.options.limit;
    for word in words {
        let Some((name, path)) = table_parts(word.as_str()) else {
            continue;
        };
        let Some(table) = table_of(tables, name) else {
            continue;
        };
        let Some(bytes) = front_of(rt, path, most) else {
            continue;
        };
        if has_dynamic(table) {
            tell_losses(rt, path, bytes.as_slice())?;
        }
        tell_quote(rt, path, bytes.as_slice())?;
    }
    tell_entries(rt, words, tables, most)
}

// Tells of the files of the entries of a catalogue.
fn tell_entries(
    rt: &HostRuntime,
    words: &[String],
    tables: &[NamedSchema],
    most: u64,
) -> io::Result<()> {
    let Some(catalogue) = catalogue_of(rt, words) else {
        return Ok(());
    };
    for entry in catalogue.tables.as_slice() {
        if table_of(tables, entry.name.as_str()).is_none() {
            continue;
        }
        for path in entry.files.as_slice() {
            if let Some(bytes) = front_of(rt, path.as_str(), most) {
                tell_quote(rt, path.as_str(), bytes.as_slice())?;
            }
        }
    }
    Ok(())
}

// Tells of the numbers of JSON in a file that are no whole ones.
fn tell_losses(rt: &HostRuntime, path: &str, bytes: &[u8]) -> io::Result<()> {
    let count = count_losses(rt.alloc(), bytes)?;
    match losses_line(rt.alloc(), count, path)? {
        Some(line) => eprintln!(rt; "{line}"),
        None => Ok(()),
    }
}

// Tells of the quote that is open at the end of a file.
fn tell_quote(rt: &HostRuntime, path: &str, bytes: &[u8]) -> io::Result<()> {
    match open_quote(bytes) {
        Some(line) => {
            let line = quote_line(rt.alloc(), line, path)?;
            eprintln!(rt; "{line}")
        }
        None => Ok(()),
    }
}

// The table of a name.
fn table_of<'a>(tables: &'a [NamedSchema], name: &str) -> Option<&'a NamedSchema> {
    for table in tables {
        if table.name.as_str() == name {
            return Some(table);
        }
    }
    None
}

// Whether a table has a dynamic column.
fn has_dynamic(table: &NamedSchema) -> bool {
    for column in table.schema.columns() {
        if column.kind == Kind::Dynamic {
            return true;
        }
    }
    false
}
