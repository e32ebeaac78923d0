//! Rows.

/// What a row asks for.
#[derive(Clone, Copy)]
pub(crate) enum Asked {
    Query { code: u32, line: u32, column: u32 },
    File { code: u32, row: u64, column: u64 },
}

/// A row: what it asks for, as it is written too, of which query or file, and what is told.
#[derive(Clone, Copy)]
pub(crate) struct Row<'a> {
    pub(crate) head: &'a str,
    pub(crate) asked: Asked,
    pub(crate) text: &'a str,
    pub(crate) told: &'a str,
}

// A code and a place, `404 at 1:2`.
fn place_of(text: &str) -> Option<(u32, u64, u64)> {
    let (code, place) = text.split_once(" at ")?;
    let (first, second) = place.split_once(':')?;
    Some((
        code.parse::<u32>().ok()?,
        first.parse::<u64>().ok()?,
        second.parse::<u64>().ok()?,
    ))
}

// What the first part of a row asks for.
fn asked_of(head: &str) -> Option<Asked> {
    if let Some(rest) = head.strip_prefix("file ") {
        let (code, row, column) = place_of(rest)?;
        return Some(Asked::File { code, row, column });
    }
    let (code, line, column) = place_of(head)?;
    Some(Asked::Query {
        code,
        line: u32::try_from(line).ok()?,
        column: u32::try_from(column).ok()?,
    })
}

impl<'a> Row<'a> {
    /// The row that a line writes.
    pub(crate) fn read(line: &'a str) -> Option<Row<'a>> {
        let (head, rest) = line.split_once('\t')?;
        let (text, told) = rest.split_once('\t')?;
        Some(Row {
            head,
            asked: asked_of(head)?,
            text,
            told,
        })
    }
}
