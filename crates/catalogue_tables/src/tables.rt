ghost use Rattle.std.specs.Prelude.{◌≡◌, ◌≤◌, ◌++◌, ◌∷◌, [], Err, IfOk, IfSome, None, OnOk, length, map};
ghost use Rattle.kql_cells.specs.Catalogues.{table_name};
ghost use Rattle.kql_outside.specs.Calls.{one_more};
ghost use Rattle.kql_outside.specs.Causes.{Rose};
ghost use Rattle.kql_words.specs.Options.{AreWorkers};
ghost use Rattle.kql_words.specs.Sizes.{size_top};
ghost use Rattle.catalogue_tables.specs.Computes.{Computes, IsRefused, StopsAtRead};
ghost use Rattle.catalogue_tables.specs.Entries.{AreClean, entries_taken, entry_code};
ghost use Rattle.catalogue_tables.specs.Tables.{AddsEntry, after, catalogue_tables, entries_tables};
ghost use Rattle.catalogue_tables.specs.declared.stop.CatalogueStop.TheVariants as stop;

use crate::entries::{check_entries, names_of, read_entries};
use crate::rows::read_rows;
use crate::stop::CatalogueStop;
use catalogue_file::Entry;
use kql_outside::Shelf;
use kql_values::{Catalogue, Named};
use std::alloc::Global;
use std::thread::Threads;

/// These tables, each of which is of one file, and then those of the catalogue file of a path, whose files may have so many bytes together. The workers
/// share a large file.
///
/// The refusals, in the order in which they are looked for: of the catalogue file 307 there is none, 314 it has more than 1,048,576 bytes, and
/// those of `read_catalogue`; entry by entry 311 the name is no word that a query can call a table, or another table has it, and 313
/// it is the 65th table, or one of its files is the 257th table file; then file by file 307, 308 there are more bytes than the files may
/// have, and those of `load_typed`. The catalogue file has the number behind that of the last table before it, and its entries' files
/// have the next ones.
pub fn catalogue_tables<R: Threads + Sync, F: Shelf>(
    rt: &R,
    alloc: Global,
    shelf: &mut F,
    path: &str,
    room: usize,
    workers: u32,
    tables: Catalogue,
) -> Result<Catalogue, CatalogueStop>
    requires workers { AreWorkers workers }
    requires few { length tables ≤ 64 }
    requires room { room ≤ size_top }
    ensures files { F.files shelf.new ≡ F.files shelf.old }
    ensures later { F.faults shelf.old ≤ F.faults shelf.new }
    ensures failed { result ≡ Err stop.ReadFault → Rose (F.faults shelf.old) (F.faults shelf.new) }
    ensures stops { StopsAtRead (F.calls shelf.old) (F.calls shelf.new) result }

    // No file of an entry is started where the catalogue file or one of its entries is refused.
    ensures starts { IfSome (F.files shelf.old) (λ files. IsRefused (entries_taken files (map table_name tables) path.now) → F.starts shelf.new ≡ one_more (F.starts shelf.old)) }

    ensures tables { IfSome (F.files shelf.old) (λ files. Computes (after tables (catalogue_tables files (map table_name tables) room path.now)) result) }
{
    let count = tables.tables().len();
    let number = count as u32 + 1;
    let entries = read_entries(alloc, shelf, path, number)?;
    let names = names_of(alloc, tables.tables())?;
    check_entries(alloc, names, entries.as_slice(), number)?;
    add_entries(
        rt,
        alloc,
        shelf,
        entries.as_slice(),
        count,
        room,
        workers,
        tables,
    )
}

// These tables and then those of entries without a fault, behind so many table files.
fn add_entries<R: Threads + Sync, F: Shelf>(
    rt: &R,
    alloc: Global,
    shelf: &mut F,
    entries: &[Entry],
    count: usize,
    room: usize,
    workers: u32,
    tables: Catalogue,
) -> Result<Catalogue, CatalogueStop>
    requires workers { AreWorkers workers }
    requires clean { AreClean (map table_name tables) count entries.now }
    requires few { count ≤ 256 }
    requires room { room ≤ size_top }
    ensures files { F.files shelf.new ≡ F.files shelf.old }
    ensures later { F.faults shelf.old ≤ F.faults shelf.new }
    ensures failed { result ≡ Err stop.ReadFault → Rose (F.faults shelf.old) (F.faults shelf.new) }
    ensures stops { StopsAtRead (F.calls shelf.old) (F.calls shelf.new) result }
    ensures tables { IfSome (F.files shelf.old) (λ files. Computes (after tables (entries_tables files count room entries.now)) result) }
{
    let mut tables = tables;
    let mut count = count;
    let mut room = room;
    let mut left = entries;
    'entries: while let Some((entry, more)) = left.split_first() {
        room = add_entry(rt, alloc, shelf, entry, count, room, workers, &mut tables)?;
        count += entry.files.len();
        left = more;
    }
    Ok(tables)
}

// Adds the table of an entry; answers how many bytes the files behind its own may have.
fn add_entry<R: Threads + Sync, F: Shelf>(
    rt: &R,
    alloc: Global,
    shelf: &mut F,
    entry: &Entry,
    count: usize,
    room: usize,
    workers: u32,
    tables: &mut Catalogue,
) -> Result<usize, CatalogueStop>
    requires workers { AreWorkers workers }
    requires clean { entry_code (map table_name tables.old) count entry.now ≡ None }
    requires room { room ≤ size_top }
    ensures files { F.files shelf.new ≡ F.files shelf.old }
    ensures later { F.faults shelf.old ≤ F.faults shelf.new }
    ensures failed { result ≡ Err stop.ReadFault → Rose (F.faults shelf.old) (F.faults shelf.new) }
    ensures stops { StopsAtRead (F.calls shelf.old) (F.calls shelf.new) result }
    ensures room { IfOk result (λ left. left ≤ size_top) }
    ensures names { OnOk result (map table_name tables.new ≡ map table_name tables.old ++ entry.now.name ∷ []) }
    ensures table { IfSome (F.files shelf.old) (λ files. AddsEntry files count room entry.now tables.old tables.new result) }
{
    let first = count as u32 + 2;
    let (table, left) = read_rows(rt, alloc, shelf, entry, first, room, workers)?;
    let name = entry.name.copy(alloc)?;
    tables.push(Named { name, table })?;
    Ok(left)
}
