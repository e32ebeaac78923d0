//! The rows of an entry's files.
ghost use Rattle.std.specs.Prelude.{◌≡◌, ◌≤◌, ◌+◌, Err, IfOk, IfSome, OnOk, length};
ghost use Rattle.kql_outside.specs.Causes.{Rose};
ghost use Rattle.kql_words.specs.Options.{AreWorkers};
ghost use Rattle.kql_words.specs.Sizes.{size_top};
ghost use Rattle.csv_io.specs.TypedLoad.{loaded_typed};
ghost use Rattle.catalogue_tables.specs.Computes.{Computes, Gives, StopsAtRead};
ghost use Rattle.catalogue_tables.specs.Tables.{AddsRows, file_rows, files_rows, loaded_as, no_rows, with_rows};
ghost use Rattle.catalogue_tables.specs.declared.stop.CatalogueStop.TheVariants as stop;

use crate::files::read_within;
use crate::stop::CatalogueStop;
use catalogue_file::Entry;
use csv_io::DataFault;
use csv_workers::load_typed_by_workers;
use kql_cells::Schema;
use kql_outside::{OpenGate, Shelf};
use kql_values::Table;
use std::alloc::{AllocError, Global};
use std::thread::Threads;

/// The table of an entry, and how many bytes the table files behind its own may have. The first of its files has this number.
pub(crate) fn read_rows<R: Threads + Sync, F: Shelf>(
    rt: &R,
    alloc: Global,
    shelf: &mut F,
    entry: &Entry,
    first: u32,
    room: usize,
    workers: u32,
) -> Result<(Table, usize), CatalogueStop>
    requires workers { AreWorkers workers }
    requires numbers { first + length entry.now.files ≤ 1000 }
    requires few { room ≤ size_top }
    ensures files { F.files shelf.new ≡ F.files shelf.old }
    ensures later { F.faults shelf.old ≤ F.faults shelf.new }
    ensures failed { result ≡ Err stop.ReadFault → Rose (F.faults shelf.old) (F.faults shelf.new) }
    ensures stops { StopsAtRead (F.calls shelf.old) (F.calls shelf.new) result }
    ensures few { IfOk result (λ read. read.1 ≤ size_top) }
    ensures rows { IfSome (F.files shelf.old) (λ files. Computes (files_rows files first room (no_rows entry.now.schema) entry.now.files) result) }
{
    let schema = entry.schema.copy(alloc)?;
    let mut table = Table::empty(alloc, schema)?;
    let mut room = room;
    let mut number = first;
    let mut left = entry.files.as_slice();
    'files: while let Some((path, more)) = left.split_first() {
        room = add_rows(
            rt,
            alloc,
            shelf,
            path.as_str(),
            number,
            room,
            workers,
            &mut table,
        )?;
        number += 1;
        left = more;
    }
    Ok((table, room))
}

// Adds the rows of a file to a table; answers how many bytes the files behind it may have.
fn add_rows<R: Threads + Sync, F: Shelf>(
    rt: &R,
    alloc: Global,
    shelf: &mut F,
    path: &str,
    number: u32,
    room: usize,
    workers: u32,
    table: &mut Table,
) -> Result<usize, CatalogueStop>
    requires workers { AreWorkers workers }
    requires few { room ≤ size_top }
    ensures files { F.files shelf.new ≡ F.files shelf.old }
    ensures later { F.faults shelf.old ≤ F.faults shelf.new }
    ensures failed { result ≡ Err stop.ReadFault → Rose (F.faults shelf.old) (F.faults shelf.new) }
    ensures stops { StopsAtRead (F.calls shelf.old) (F.calls shelf.new) result }
    ensures few { IfOk result (λ left. left ≤ size_top) }
    ensures rows { IfSome (F.files shelf.old) (λ files. AddsRows files number room path.now table.old table.new result) }
{
    let schema = table.schema();
    let (more, left) = read_file(rt, alloc, shelf, path, number, room, schema, workers)?;
    append(table, more)?;
    Ok(left)
}

// Adds the rows of a table of the same columns.
fn append(table: &mut Table, more: Table) -> Result<(), AllocError>
    requires columns { more.columns ≡ table.old.columns }
    ensures added { OnOk result (table.new ≡ with_rows table.old more) }
{
    if table.len() == 0 {
        *table = more;
        return Ok(());
    }
    table.append(more)
}

// The rows of a file of these columns, and how many bytes the files behind it may have; one byte more than it may have is 308.
fn read_file<R: Threads + Sync, F: Shelf>(
    rt: &R,
    alloc: Global,
    shelf: &mut F,
    path: &str,
    number: u32,
    room: usize,
    schema: &Schema,
    workers: u32,
) -> Result<(Table, usize), CatalogueStop>
    requires workers { AreWorkers workers }
    requires few { room ≤ size_top }
    ensures files { F.files shelf.new ≡ F.files shelf.old }
    ensures later { F.faults shelf.old ≤ F.faults shelf.new }
    ensures failed { result ≡ Err stop.ReadFault → Rose (F.faults shelf.old) (F.faults shelf.new) }
    ensures stops { StopsAtRead (F.calls shelf.old) (F.calls shelf.new) result }
    ensures few { IfOk result (λ read. read.1 ≤ size_top) }
    ensures columns { IfOk result (λ read. read.0.columns ≡ schema.now) }
    ensures rows { IfSome (F.files shelf.old) (λ files. Computes (file_rows files number room schema.now path.now) result) }
{
    let bytes = read_within(alloc, shelf, path, number, 308, room)?;
    let table = load_rows(rt, alloc, number, bytes.as_slice(), schema, workers)?;
    Ok((table, room - bytes.len()))
}

fn load_rows<R: Threads + Sync>(
    rt: &R,
    alloc: Global,
    number: u32,
    bytes: &[u8],
    schema: &Schema,
    workers: u32,
) -> Result<Table, CatalogueStop>
    requires workers { AreWorkers workers }
    ensures table { Gives (loaded_as number (loaded_typed schema.now bytes.now)) result }
    ensures columns { IfOk result (λ t. t.columns ≡ schema.now) }
{
    match load_typed_by_workers(rt, &OpenGate, alloc, workers, bytes, schema) {
        Ok(table) => Ok(table),
        Err(DataFault::Refused { code, row, column }) => Err(CatalogueStop::Refused {
            file: number,
            code,
            row,
            column,
        }),
        Err(DataFault::OutOfMemory) => Err(CatalogueStop::OutOfMemory),
    }
}
