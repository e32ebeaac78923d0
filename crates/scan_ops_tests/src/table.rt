//! Tables of events: a number, what happened, whose it was, and a declared column at its default.

use kql_cells::{CellRef, Column, KText, Kind, Schema};
use kql_values::{Rows, Table, TableBuilder};
use std::alloc::{AllocError, Global};

// What is made, or want of memory.
pub(crate) type Made<T> = Result<T, AllocError>;

/// The default of the declared column.
pub(crate) const DEFAULT: i64 = 10;

/// What happened, or null, and whose it was. The events are numbered from 1.
pub(crate) type Event = (Option<i64>, i64);

/// A row that is emitted: the number of an event, the declared column, and the match id.
pub(crate) type Emitted = (i64, Option<i64>, i64);

fn column(alloc: Global, name: &str) -> Made<Column> {
    Ok(Column {
        name: KText::from_str(alloc, name)?,
        kind: Kind::Long,
    })
}

fn push_column(schema: &mut Schema, column: Made<Column>) -> Made<()> {
    let column = column?;
    if schema.find(column.name.as_str()).is_none() {
        schema.push(column)?;
    }
    Ok(())
}

fn schema(alloc: Global, names: &[&str]) -> Made<Schema> {
    let mut schema = Schema::new(alloc);
    for name in names {
        push_column(&mut schema, column(alloc, name))?;
    }
    Ok(schema)
}

fn long(n: Option<i64>) -> CellRef<'static> {
    match n {
        Some(n) => CellRef::Long(n),
        None => CellRef::Null,
    }
}

// Adds what a cell shows, where it fits the next column.
fn put(builder: &mut TableBuilder, cell: CellRef<'_>) -> Made<()> {
    if builder.fits_next(cell) {
        builder.push_cell(cell)?;
    }
    Ok(())
}

fn put_event(builder: &mut TableBuilder, id: i64, event: &Event) -> Made<()> {
    put(builder, CellRef::Long(id))?;
    put(builder, long(event.0))?;
    put(builder, CellRef::Long(event.1))?;
    put(builder, CellRef::Long(DEFAULT))?;
    if builder.filled() == builder.schema().len() {
        builder.end_row()?;
    }
    Ok(())
}

// The table of a builder, or of no rows where a row is not whole.
fn finished(alloc: Global, builder: TableBuilder) -> Made<Table> {
    if builder.filled() == 0 {
        Ok(builder.finish())
    } else {
        Table::empty(alloc, Schema::new(alloc))
    }
}

/// The table of these events.
pub(crate) fn table_of(alloc: Global, events: &[Event]) -> Made<Table> {
    let mut builder = TableBuilder::new(alloc, schema(alloc, &["id", "e", "k", "d"])?)?;
    let mut id = 1i64;
    for event in events {
        put_event(&mut builder, id, event)?;
        id = id.saturating_add(1);
    }
    finished(alloc, builder)
}

fn has(rows: &Rows, i: usize, j: usize, want: CellRef<'_>) -> bool {
    if i < rows.len() && j < rows.width(i) {
        rows.cell(i, j).is_same(want)
    } else {
        false
    }
}

/// Whether these rows were emitted.
pub(crate) fn shows(rows: &Rows, want: &[Emitted]) -> bool {
    if rows.len() != want.len() {
        return false;
    }
    for i in 0..want.len() {
        let (id, d, m) = want[i];
        if !has(rows, i, 0, CellRef::Long(id))
            || !has(rows, i, 3, long(d))
            || !has(rows, i, 4, CellRef::Long(m))
        {
            return false;
        }
    }
    true
}
