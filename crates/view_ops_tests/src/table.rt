//! Tables of a label, a key and a number, of which the last two may be null.

use kql_cells::{CellRef, Column, KText, Kind, Schema};
use kql_values::{Table, TableBuilder};
use std::alloc::{AllocError, Global};

// What is made, or want of memory.
pub(crate) type Made<T> = Result<T, AllocError>;

/// A label, a key, and a number.
pub(crate) type Line = (&'static str, Option<i64>, Option<i64>);

fn push_column(schema: &mut Schema, name: Made<KText>, kind: Kind) -> Made<()> {
    let name = name?;
    if schema.find(name.as_str()).is_none() {
        schema.push(Column { name, kind })?;
    }
    Ok(())
}

/// `g:string,k:long,x:long`
pub(crate) fn schema(alloc: Global) -> Made<Schema> {
    let mut schema = Schema::new(alloc);
    push_column(&mut schema, KText::from_str(alloc, "g"), Kind::Text)?;
    push_column(&mut schema, KText::from_str(alloc, "k"), Kind::Long)?;
    push_column(&mut schema, KText::from_str(alloc, "x"), Kind::Long)?;
    Ok(schema)
}

// Adds what a cell shows, where it fits the next column.
fn put(builder: &mut TableBuilder, cell: CellRef<'_>) -> Made<()> {
    if builder.fits_next(cell) {
        builder.push_cell(cell)?;
    }
    Ok(())
}

fn long(n: Option<i64>) -> CellRef<'static> {
    match n {
        Some(n) => CellRef::Long(n),
        None => CellRef::Null,
    }
}

fn put_line(builder: &mut TableBuilder, line: &Line) -> Made<()> {
    put(builder, CellRef::Text(line.0))?;
    put(builder, long(line.1))?;
    put(builder, long(line.2))?;
    if builder.filled() == builder.schema().len() {
        builder.end_row()?;
    }
    Ok(())
}

pub(crate) fn table_of(alloc: Global, lines: &[Line]) -> Made<Table> {
    let mut builder = TableBuilder::new(alloc, schema(alloc)?)?;
    for line in lines {
        put_line(&mut builder, line)?;
    }
    if builder.filled() == 0 {
        Ok(builder.finish())
    } else {
        Table::empty(alloc, Schema::new(alloc))
    }
}

/// A table of so many rows: the key of row i is the last digit of i, and its number the rest of i by 1,000.
pub(crate) fn numbered(alloc: Global, rows: u32) -> Made<Table> {
    let mut builder = TableBuilder::new(alloc, schema(alloc)?)?;
    for i in 0..rows {
        let line = ("a", Some((i % 10) as i64), Some((i % 1_000) as i64));
        put_line(&mut builder, &line)?;
    }
    if builder.filled() == 0 {
        Ok(builder.finish())
    } else {
        Table::empty(alloc, Schema::new(alloc))
    }
}
