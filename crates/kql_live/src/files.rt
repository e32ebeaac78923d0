//! The files of the paths: the opening table, and then the batches.
ghost use Rattle.std.specs.Prelude.{◌≡◌, ◌≤◌, ◌<◌, ◌+◌, All, Err, IfOk, IfSome, length, map, string_bytes, true};
ghost use Rattle.kql_outside.specs.Causes.{Rose};
ghost use Rattle.kql_program.specs.Calls.{StopsAtRead};
ghost use Rattle.kql_program.specs.Outcomes.{RefusesNoWord};
ghost use Rattle.kql_program.specs.Refusals.{Computes, Gives};
ghost use Rattle.kql_program.specs.declared.refusal.Stop.TheVariants as stop;
ghost use Rattle.kql_words.specs.Command.{texts};
ghost use Rattle.kql_words.specs.Options.{limit_ungiven};
ghost use Rattle.kql_words.specs.Sizes.{size_top};
ghost use Rattle.live_tables.specs.Growing.{has_columns_of};
ghost use Rattle.kql_live.specs.LiveFiles.{ReadsBatch, alike, live_batches, live_tables};

use crate::bound::LiveTables;
use kql_cells::Column;
use kql_items::Items;
use kql_outside::Shelf;
use kql_program::{Stop, read_table};
use kql_values::Table;
use kql_words::Refusal;
use live_tables::first_difference;
use std::alloc::Global;
use std::thread::Threads;

/// How many bytes the files of the paths may have together.
const LIMIT: usize = 67_108_864;

/// How many workers share a file: the readers come later, and the files of a live table are mostly small.
const WORKERS: u32 = 1;

/// The opening table of a path, and the batches of the further paths. Each file is started, read, loaded and compared before the next.
pub(crate) fn read_live_tables<R: Threads + Sync, F: Shelf>(
    rt: &R,
    alloc: Global,
    shelf: &mut F,
    path: &str,
    paths: &[String],
) -> Result<LiveTables, Stop>
    requires few { length paths.now ≤ 63 }
    ensures files { F.files shelf.new ≡ F.files shelf.old }
    ensures later { F.faults shelf.old ≤ F.faults shelf.new }
    ensures failed { result ≡ Err stop.ReadFault → Rose (F.faults shelf.old) (F.faults shelf.new) }
    ensures stops { StopsAtRead (F.calls shelf.old) (F.calls shelf.new) result }
    ensures tables { IfSome (F.files shelf.old) (λ files. Computes (live_tables files limit_ungiven path.now (texts paths.now)) result) }
    ensures columns { IfOk result (λ t. All (has_columns_of t.opening) t.batches) }
    ensures count { IfOk result (λ t. length t.batches ≡ length paths.now) }
    ensures words { RefusesNoWord result }
{
    let (opening, room) = read_table(rt, alloc, shelf, path, 1, LIMIT, WORKERS)?;
    let batches = read_batches(rt, alloc, shelf, paths, &opening, room)?;
    Ok(LiveTables { opening, batches })
}

// The batches in the files of these paths, which may have so many bytes together.
fn read_batches<R: Threads + Sync, F: Shelf>(
    rt: &R,
    alloc: Global,
    shelf: &mut F,
    paths: &[String],
    opening: &Table,
    room: usize,
) -> Result<Items<Table>, Stop>
    requires few { length paths.now ≤ 63 }
    requires room { room ≤ size_top }
    ensures files { F.files shelf.new ≡ F.files shelf.old }
    ensures later { F.faults shelf.old ≤ F.faults shelf.new }
    ensures failed { result ≡ Err stop.ReadFault → Rose (F.faults shelf.old) (F.faults shelf.new) }
    ensures stops { StopsAtRead (F.calls shelf.old) (F.calls shelf.new) result }
    ensures batches { IfSome (F.files shelf.old) (λ files. Computes (live_batches files opening.now.columns 2 room (texts paths.now)) result) }
    ensures columns { IfOk result (λ bs. All (has_columns_of opening.now) bs) }
    ensures count { IfOk result (λ bs. length bs ≡ length paths.now) }
    ensures words { RefusesNoWord result }
{
    let mut batches = Items::new(alloc);
    let mut number = 2u32;
    let mut spare = room;
    let mut left = paths;
    'files: while let Some((path, more)) = left.split_first() {
        let (batch, less) = read_batch(rt, alloc, shelf, path.as_str(), opening, number, spare)?;
        batches.push(batch)?;
        number += 1;
        spare = less;
        left = more;
    }
    Ok(batches)
}

// The batch in a file of so many bytes at the most, and how many the files behind it may have.
fn read_batch<R: Threads + Sync, F: Shelf>(
    rt: &R,
    alloc: Global,
    shelf: &mut F,
    path: &str,
    opening: &Table,
    number: u32,
    room: usize,
) -> Result<(Table, usize), Stop>
    requires room { room ≤ size_top }
    ensures files { F.files shelf.new ≡ F.files shelf.old }
    ensures later { F.faults shelf.old ≤ F.faults shelf.new }
    ensures failed { result ≡ Err stop.ReadFault → Rose (F.faults shelf.old) (F.faults shelf.new) }
    ensures stops { StopsAtRead (F.calls shelf.old) (F.calls shelf.new) result }
    ensures room { IfOk result (λ read. read.1 ≤ size_top) }
    ensures batch { IfSome (F.files shelf.old) (λ files. ReadsBatch files opening.now.columns number room path.now result) }
    ensures columns { IfOk result (λ read. has_columns_of opening.now read.0) }
    ensures words { RefusesNoWord result }
{
    let (table, left) = read_table(rt, alloc, shelf, path, number, room, WORKERS)?;
    let batch = alike(number, opening, table)?;
    Ok((batch, left))
}

// A table of the columns of the opening one; else 315 at the first column that differs.
#[tactic(auto, unfolding(crate::specs::LiveFiles::alike))]
fn alike(number: u32, opening: &Table, table: Table) -> Result<Table, Refusal>
    ensures alike { result ≡ alike number opening.now.columns table }
    ensures columns { IfOk result (λ t. has_columns_of opening.now t) }
{
    let columns = opening.schema().columns();
    match first_difference(columns, table.schema().columns()) {
        Some(place) => Err(Refusal::Data {
            file: number,
            code: 315,
            row: 0,
            column: column_at(columns, place),
        }),
        None => Ok(table),
    }
}

// The number of the column of a place, from 1; the place may be that behind the last.
fn column_at(columns: &[Column], place: usize) -> u64
    requires within { place ≤ length columns.now }
    ensures number { result ≡ place + 1 }
{
    place as u64 + 1
}
