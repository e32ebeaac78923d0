//! Tables of two longs.

use kql_cells::{CellRef, Column, KText, Kind, Schema};
use kql_values::{Catalogue, Named, Table, TableBuilder};
use std::alloc::{AllocError, Global};

// What is made, or want of memory.
pub(crate) type Made<T> = Result<T, AllocError>;

/// Two longs.
pub(crate) type Line = (i64, i64);

fn push_column(schema: &mut Schema, name: Made<KText>) -> Made<()> {
    let name = name?;
    if schema.find(name.as_str()).is_none() {
        schema.push(Column {
            name,
            kind: Kind::Long,
        })?;
    }
    Ok(())
}

fn schema(alloc: Global) -> Made<Schema> {
    let mut schema = Schema::new(alloc);
    push_column(&mut schema, KText::from_str(alloc, "k"))?;
    push_column(&mut schema, KText::from_str(alloc, "x"))?;
    Ok(schema)
}

// Adds a long, where it fits the next column.
fn put(builder: &mut TableBuilder, n: i64) -> Made<()> {
    let cell = CellRef::Long(n);
    if builder.fits_next(cell) {
        builder.push_cell(cell)?;
    }
    Ok(())
}

fn put_line(builder: &mut TableBuilder, line: Line) -> Made<()> {
    put(builder, line.0)?;
    put(builder, line.1)?;
    if builder.filled() == builder.schema().len() {
        builder.end_row()?;
    }
    Ok(())
}

// The table of these rows, with the columns `k` and `x`.
fn table_of(alloc: Global, lines: &[Line]) -> Made<Table> {
    let mut builder = TableBuilder::new(alloc, schema(alloc)?)?;
    for line in lines {
        put_line(&mut builder, *line)?;
    }
    if builder.filled() == 0 {
        Ok(builder.finish())
    } else {
        Table::empty(alloc, Schema::new(alloc))
    }
}

/// A catalogue of a table `T` of these rows, with the columns `k` and `x`.
pub(crate) fn catalogue_of(alloc: Global, lines: &[Line]) -> Made<Catalogue> {
    let name = KText::from_str(alloc, "T");
    let table = table_of(alloc, lines);
    let mut catalogue = Catalogue::new(alloc);
    catalogue.push(Named {
        name: name?,
        table: table?,
    })?;
    Ok(catalogue)
}

/// Whether two tables show the same.
pub(crate) fn are_same(a: &Table, b: &Table) -> bool {
    if a.len() != b.len() || a.schema().len() != b.schema().len() {
        return false;
    }
    for i in 0..a.len() {
        for j in 0..a.schema().len() {
            if !a.cell(i, j).is_same(b.cell(i, j)) {
                return false;
            }
        }
    }
    true
}
