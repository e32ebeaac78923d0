//! Live tables of one column of longs.
ghost use Rattle.std.specs.Prelude.{◌≡◌, ◌<◌, ◌^◌, IfOk};
ghost use Rattle.live_tables.specs.Growing.{row_count};

use kql_cells::{CellRef, Column, KText, Kind, Schema};
use kql_values::{Table, TableBuilder};
use live_catalogue::{Appender, Grows, LiveReader};
use live_tables::LiveTable;
use std::alloc::{AllocError, Global};

// No test has more rows or batches.
const MANY: u64 = 1_000_000;

// What is made, or want of memory.
pub(crate) type Made<T> = Result<T, AllocError>;

fn schema(alloc: Global, column: &str) -> Made<Schema> {
    let mut schema = Schema::new(alloc);
    if schema.find(column).is_none() {
        let name = KText::from_str(alloc, column)?;
        schema.push(Column {
            name,
            kind: Kind::Long,
        })?;
    }
    Ok(schema)
}

// Adds a row of a number, where it fits the next column.
fn put_row(builder: &mut TableBuilder, n: i64) -> Made<()> {
    if builder.fits_next(CellRef::Long(n)) {
        builder.push_cell(CellRef::Long(n))?;
    }
    if builder.filled() == builder.schema().len() {
        builder.end_row()?;
    }
    Ok(())
}

/// The table of one column of this name, with these rows.
pub(crate) fn named_table(alloc: Global, column: &str, rows: &[i64]) -> Made<Table> {
    let mut builder = TableBuilder::new(alloc, schema(alloc, column)?)?;
    for n in rows {
        put_row(&mut builder, *n)?;
    }
    if builder.filled() == 0 {
        Ok(builder.finish())
    } else {
        Table::empty(alloc, Schema::new(alloc))
    }
}

/// The table of the column `n` with these rows.
pub(crate) fn batch(alloc: Global, rows: &[i64]) -> Made<Table> {
    named_table(alloc, "n", rows)
}

/// The same as a table that grows.
pub(crate) fn opening(alloc: Global, rows: &[i64]) -> Made<LiveTable>
    ensures rows { IfOk result (λ t. row_count t < 2 ^ 63) }
{
    let table = batch(alloc, rows)?;
    let _rows = table.len();
    Ok(LiveTable::new(alloc, table))
}

/// Whether the column of a table has these numbers.
pub(crate) fn shows(t: &Table, want: &[i64]) -> bool {
    if t.len() != want.len() || t.schema().len() != 1 {
        return false;
    }
    for i in 0..want.len() {
        if i < t.len() && 0 < t.schema().len() && !t.cell(i, 0).is_same(CellRef::Long(want[i])) {
            return false;
        }
    }
    true
}

/// Stages a batch, where the appender takes it and all is small enough.
pub(crate) fn stage<V: Grows>(appender: &mut Appender<V>, batch: Table) -> bool
    ensures open { appender.new.closed ≡ appender.old.closed }
{
    let fits = appender.rows() < MANY && appender.staged() < MANY && (batch.len() as u64) < MANY;
    fits && appender.takes(&batch) && appender.stage(batch).is_ok()
}

/// Whether the next snapshot has so many batches, and these rows.
pub(crate) fn sees(reader: &mut LiveReader<LiveTable>, batches: u64, rows: &[i64]) -> bool {
    match reader.snapshot() {
        Ok(seen) => seen.batches == batches && shows(seen.value.table(), rows),
        Err(_) => false,
    }
}
