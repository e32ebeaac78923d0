//! Tables of one column of longs.

use kql_cells::{CellRef, Column, KText, Kind, Schema};
use kql_values::{Table, TableBuilder};
use std::alloc::{AllocError, Global};

// What is made, or want of memory.
pub(crate) type Made<T> = Result<T, AllocError>;

fn push_column(schema: &mut Schema, name: Made<KText>) -> Made<()> {
    let name = name?;
    if schema.find(name.as_str()).is_none() {
        schema.push(Column {
            name,
            kind: Kind::Long,
        })?;
    }
    Ok(())
}

fn schema(alloc: Global) -> Made<Schema> {
    let mut schema = Schema::new(alloc);
    push_column(&mut schema, KText::from_str(alloc, "n"))?;
    Ok(schema)
}

// Adds a row of a number, where it fits the next column.
fn put_row(builder: &mut TableBuilder, n: i64) -> Made<()> {
    if builder.fits_next(CellRef::Long(n)) {
        builder.push_cell(CellRef::Long(n))?;
    }
    if builder.filled() == builder.schema().len() {
        builder.end_row()?;
    }
    Ok(())
}

/// The table of these rows.
pub(crate) fn table_of(alloc: Global, numbers: &[i64]) -> Made<Table> {
    let mut builder = TableBuilder::new(alloc, schema(alloc)?)?;
    for n in numbers {
        put_row(&mut builder, *n)?;
    }
    if builder.filled() == 0 {
        Ok(builder.finish())
    } else {
        Table::empty(alloc, Schema::new(alloc))
    }
}

/// Whether a table has these rows.
pub(crate) fn shows(t: &Table, want: &[i64]) -> bool {
    if t.len() != want.len() || t.schema().len() != 1 {
        return false;
    }
    for i in 0..want.len() {
        if i < t.len() && 0 < t.schema().len() && !t.cell(i, 0).is_same(CellRef::Long(want[i])) {
            return false;
        }
    }
    true
}
