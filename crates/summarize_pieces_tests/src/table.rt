//! Tables of keys, numbers, labels and texts.

use kql_cells::{CellRef, Column, KText, Kind, Schema};
use kql_values::{Table, TableBuilder};
use std::alloc::{AllocError, Global};

// What is made, or want of memory.
pub(crate) type Made<T> = Result<T, AllocError>;

/// A key, a number that may be null, a label, and a text.
pub(crate) type Line = (i64, Option<i64>, i64, &'static str);

/// The longs of a row, of which some may be null.
pub(crate) type Longs = &'static [Option<i64>];

fn push_column(schema: &mut Schema, name: Made<KText>, kind: Kind) -> Made<()> {
    let name = name?;
    if schema.find(name.as_str()).is_none() {
        schema.push(Column { name, kind })?;
    }
    Ok(())
}

fn schema(alloc: Global) -> Made<Schema> {
    let mut schema = Schema::new(alloc);
    push_column(&mut schema, KText::from_str(alloc, "k"), Kind::Long)?;
    push_column(&mut schema, KText::from_str(alloc, "x"), Kind::Long)?;
    push_column(&mut schema, KText::from_str(alloc, "y"), Kind::Long)?;
    push_column(&mut schema, KText::from_str(alloc, "z"), Kind::Text)?;
    Ok(schema)
}

// Adds what a cell shows, where it fits the next column.
fn put(builder: &mut TableBuilder, cell: CellRef<'_>) -> Made<()> {
    if builder.fits_next(cell) {
        builder.push_cell(cell)?;
    }
    Ok(())
}

fn long(n: Option<i64>) -> CellRef<'static> {
    match n {
        Some(n) => CellRef::Long(n),
        None => CellRef::Null,
    }
}

fn put_line(builder: &mut TableBuilder, line: &Line) -> Made<()> {
    put(builder, CellRef::Long(line.0))?;
    put(builder, long(line.1))?;
    put(builder, CellRef::Long(line.2))?;
    put(builder, CellRef::Text(line.3))?;
    if builder.filled() == builder.schema().len() {
        builder.end_row()?;
    }
    Ok(())
}

/// The table of these rows, with the columns `k`, `x`, `y` and `z`.
pub(crate) fn table_of(alloc: Global, lines: &[Line]) -> Made<Table> {
    let mut builder = TableBuilder::new(alloc, schema(alloc)?)?;
    for line in lines {
        put_line(&mut builder, line)?;
    }
    if builder.filled() == 0 {
        Ok(builder.finish())
    } else {
        Table::empty(alloc, Schema::new(alloc))
    }
}

// Whether a row shows these longs.
fn shows_row(t: &Table, i: usize, want: Longs) -> bool {
    if i >= t.len() || t.schema().len() != want.len() {
        return false;
    }
    for j in 0..want.len() {
        if !t.cell(i, j).is_same(long(want[j])) {
            return false;
        }
    }
    true
}

/// Whether a table shows these longs.
pub(crate) fn shows(t: &Table, want: &[Longs]) -> bool {
    if t.len() != want.len() {
        return false;
    }
    for i in 0..want.len() {
        if !shows_row(t, i, want[i]) {
            return false;
        }
    }
    true
}
