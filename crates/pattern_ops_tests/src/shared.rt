//! A column of texts, and what patterns answer to it as one text.

use kql_values::{CellRef, Kind, Vector};
use pattern_ops::Pattern;
use std::alloc::{AllocError, Global};

// What is made, or want of memory. Calls that take this have few values to let go of, and cost little to prove.
pub(crate) type Made<T> = Result<T, AllocError>;

// A pattern, the group that is asked for, and what is answered to each text, with a bar behind each; `-` where no
// pattern is made.
pub(crate) type Row = (&'static str, Option<u32>, &'static str);

const TEXTS: [CellRef<'static>; 8] = [
    CellRef::Text("user id=42 ok"),
    CellRef::Text("nothing"),
    CellRef::Text(""),
    CellRef::Null,
    CellRef::Text("id=7 id=8"),
    CellRef::Text("ü id=9ü"),
    CellRef::Text("€uro 😀"),
    CellRef::Text("abcdefghij"),
];

// Texts with letters of one to four bytes, an empty one, and a cell that shows none.
pub(crate) fn texts(alloc: Global) -> Made<Vector> {
    let mut cells = Vector::new(alloc, Kind::Text);
    for text in TEXTS {
        cells.push_cell(text)?;
    }
    Ok(cells)
}

// Cells as one text, with a bar behind each.
pub(crate) fn shown(alloc: Global, cells: &Vector) -> Made<String> {
    let mut all = String::new(alloc);
    for i in 0..cells.len() {
        all.push_str(word(cells.cell(i)))?;
        all.push_str("|")?;
    }
    Ok(all)
}

fn word<'a>(cell: CellRef<'a>) -> &'a str {
    match cell {
        CellRef::Bool(true) => "true",
        CellRef::Bool(false) => "false",
        CellRef::Text(text) => text,
        _ => "?",
    }
}

// What a pattern answers to all cells.
pub(crate) fn answered<P: Pattern>(
    alloc: Global,
    made: &P,
    cells: &Vector,
    group: Option<u32>,
) -> Made<String> {
    let answers = made.answers(alloc, cells, 0, cells.len(), group)?;
    shown(alloc, &answers)
}
