//! Cells as constants, and vectors, schemas and columns of them.

use kql_values::{CellRef, Column, KText, Kind, Schema, Vector};
use std::alloc::{AllocError, Global};

// What is made, or want of memory. Calls that take this have few values to let go of, and cost little to prove.
pub(crate) type Made<T> = Result<T, AllocError>;

// Two things that are made.
pub(crate) fn both<A: Drop, B: Drop>(a: Made<A>, b: Made<B>) -> Made<(A, B)> {
    let a = a?;
    let b = b?;
    Ok((a, b))
}

// A cell that a constant can hold.
#[derive(Clone, Copy)]
pub(crate) enum Shown {
    Null,
    Bool(bool),
    Long(i64),
    Moment(i64),
    Span(i64),
    Text(&'static str),
}

pub(crate) fn cell(shown: Shown) -> CellRef<'static> {
    match shown {
        Shown::Null => CellRef::Null,
        Shown::Bool(b) => CellRef::Bool(b),
        Shown::Long(n) => CellRef::Long(n),
        Shown::Moment(n) => CellRef::Moment(n),
        Shown::Span(n) => CellRef::Span(n),
        Shown::Text(t) => CellRef::Text(t),
    }
}

// Four cells for each store, with nulls at both ends; the last two rows turn a typed vector into a mixed one.
pub(crate) const STORES: &[(Kind, &[Shown])] = &[
    (
        Kind::Bool,
        &[
            Shown::Null,
            Shown::Bool(true),
            Shown::Bool(false),
            Shown::Null,
        ],
    ),
    (
        Kind::Long,
        &[
            Shown::Null,
            Shown::Long(-7),
            Shown::Long(i64::MAX),
            Shown::Null,
        ],
    ),
    (
        Kind::Moment,
        &[Shown::Null, Shown::Moment(0), Shown::Moment(9), Shown::Null],
    ),
    (
        Kind::Span,
        &[Shown::Null, Shown::Span(-1), Shown::Span(1), Shown::Null],
    ),
    (
        Kind::Text,
        &[
            Shown::Text(""),
            Shown::Text("ab"),
            Shown::Text("é"),
            Shown::Text(""),
        ],
    ),
    (
        Kind::Dynamic,
        &[Shown::Null, Shown::Long(1), Shown::Text("x"), Shown::Null],
    ),
    (
        Kind::Text,
        &[
            Shown::Text("a"),
            Shown::Text("bc"),
            Shown::Null,
            Shown::Text("d"),
        ],
    ),
    (
        Kind::Long,
        &[
            Shown::Long(3),
            Shown::Null,
            Shown::Text("y"),
            Shown::Bool(true),
        ],
    ),
];

// A vector of these cells.
pub(crate) fn vector_of(alloc: Global, kind: Kind, cells: &[Shown]) -> Made<Vector> {
    with_cells(Ok(Vector::new(alloc, kind)), cells)
}

// A vector and these cells.
pub(crate) fn with_cells(vector: Made<Vector>, cells: &[Shown]) -> Made<Vector> {
    let mut vector = vector?;
    push_all(&mut vector, cells)?;
    Ok(vector)
}

// Adds these cells.
fn push_all(vector: &mut Vector, cells: &[Shown]) -> Made<()> {
    for shown in cells {
        vector.push_cell(cell(*shown))?;
    }
    Ok(())
}

// Whether a vector has these cells.
pub(crate) fn has(vector: &Vector, cells: &[Shown]) -> bool {
    if vector.len() != cells.len() {
        return false;
    }
    for i in 0..cells.len() {
        if i < vector.len() && !vector.cell(i).is_same(cell(cells[i])) {
            return false;
        }
    }
    true
}

// A column.
pub(crate) fn column(alloc: Global, name: &str, kind: Kind) -> Made<Column> {
    Ok(Column {
        name: KText::from_str(alloc, name)?,
        kind,
    })
}

// A schema and a column more, where it has none of that name.
pub(crate) fn with_column(schema: Made<Schema>, column: Made<Column>) -> Made<Schema> {
    let (mut schema, column) = both(schema, column)?;
    if schema.find(column.name.as_str()).is_none() {
        schema.push(column)?;
    }
    Ok(schema)
}
