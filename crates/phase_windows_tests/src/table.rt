//! A table of longs and truths.

use kql_cells::{CellRef, Column, KText, Kind, Schema};
use kql_values::{Table, TableBuilder};
use std::alloc::{AllocError, Global};

// What is made, or want of memory.
pub(crate) type Made<T> = Result<T, AllocError>;

/// A number, and whether a run begins.
pub(crate) type Line = (Option<i64>, bool);

fn push_column(schema: &mut Schema, name: Made<KText>, kind: Kind) -> Made<()> {
    let name = name?;
    if schema.find(name.as_str()).is_none() {
        schema.push(Column { name, kind })?;
    }
    Ok(())
}

fn schema(alloc: Global) -> Made<Schema> {
    let mut schema = Schema::new(alloc);
    push_column(&mut schema, KText::from_str(alloc, "n"), Kind::Long)?;
    push_column(&mut schema, KText::from_str(alloc, "b"), Kind::Bool)?;
    Ok(schema)
}

// Adds what a cell shows, where it fits the next column.
fn put(builder: &mut TableBuilder, cell: CellRef<'_>) -> Made<()> {
    if builder.fits_next(cell) {
        builder.push_cell(cell)?;
    }
    Ok(())
}

fn long(n: Option<i64>) -> CellRef<'static> {
    match n {
        Some(n) => CellRef::Long(n),
        None => CellRef::Null,
    }
}

fn put_line(builder: &mut TableBuilder, line: &Line) -> Made<()> {
    put(builder, long(line.0))?;
    put(builder, CellRef::Bool(line.1))?;
    if builder.filled() == builder.schema().len() {
        builder.end_row()?;
    }
    Ok(())
}

/// The table of these rows, with the columns `n` and `b`.
pub(crate) fn table_of(alloc: Global, lines: &[Line]) -> Made<Table> {
    let mut builder = TableBuilder::new(alloc, schema(alloc)?)?;
    for line in lines {
        put_line(&mut builder, line)?;
    }
    if builder.filled() == 0 {
        Ok(builder.finish())
    } else {
        Table::empty(alloc, Schema::new(alloc))
    }
}

/// Whether two tables show the same.
pub(crate) fn are_same(a: &Table, b: &Table) -> bool {
    if a.len() != b.len() || a.schema().len() != b.schema().len() {
        return false;
    }
    for i in 0..a.len() {
        for j in 0..a.schema().len() {
            if !a.cell(i, j).is_same(b.cell(i, j)) {
                return false;
            }
        }
    }
    true
}
