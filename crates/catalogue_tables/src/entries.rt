//! The entries of a catalogue file.
ghost use Rattle.std.specs.Prelude.{◌≡◌, ◌≤◌, Err, IfOk, IfSome, OnOk, length, map};
ghost use Rattle.kql_cells.specs.Catalogues.{table_name};
ghost use Rattle.kql_outside.specs.Calls.{one_more};
ghost use Rattle.kql_outside.specs.Causes.{Rose};
ghost use Rattle.kql_values.specs.Kept.{all_named};
ghost use Rattle.catalogue_file.specs.Catalogue.{catalogue_of};
ghost use Rattle.catalogue_tables.specs.Computes.{Computes, Gives, StopsAtRead};
ghost use Rattle.catalogue_tables.specs.Entries.{AreClean, entries_checked, entries_read, entry_code, has_name, is_table_name, read_as};
ghost use Rattle.catalogue_tables.specs.declared.stop.CatalogueStop.TheVariants as stop;

use crate::files::read_within;
use crate::stop::CatalogueStop;
use catalogue_file::{CatalogueFault, Entry, read_catalogue};
use kql_cells::KText;
use kql_items::Items;
use kql_lexer::{is_reserved, is_word};
use kql_outside::Shelf;
use kql_values::Named;
use std::alloc::{AllocError, Global};

// How many bytes a catalogue file may have.
const BYTES_TOP: usize = 1_048_576;

// How many tables a command may have.
const TABLES_TOP: usize = 64;

// How many table files a command may have.
const FILES_TOP: usize = 256;

/// The entries of the catalogue file of a path, which has this number.
pub(crate) fn read_entries<F: Shelf>(
    alloc: Global,
    shelf: &mut F,
    path: &str,
    number: u32,
) -> Result<Items<Entry>, CatalogueStop>
    ensures files { F.files shelf.new ≡ F.files shelf.old }
    ensures later { F.faults shelf.old ≤ F.faults shelf.new }
    ensures failed { result ≡ Err stop.ReadFault → Rose (F.faults shelf.old) (F.faults shelf.new) }
    ensures stops { StopsAtRead (F.calls shelf.old) (F.calls shelf.new) result }
    ensures starts { F.starts shelf.new ≡ one_more (F.starts shelf.old) }
    ensures entries { IfSome (F.files shelf.old) (λ files. Computes (entries_read files number path.now) result) }
{
    let bytes = read_within(alloc, shelf, path, number, 314, BYTES_TOP)?;
    entries_in(alloc, number, bytes.as_slice())
}

// The entries in the bytes of a catalogue file of this number.
fn entries_in(alloc: Global, number: u32, bytes: &[u8]) -> Result<Items<Entry>, CatalogueStop>
    ensures entries { Gives (read_as number (catalogue_of bytes.now)) result }
{
    match read_catalogue(alloc, bytes) {
        Ok(file) => Ok(file.tables),
        Err(CatalogueFault::Refused { code, row, column }) => Err(CatalogueStop::Refused {
            file: number,
            code,
            row,
            column,
        }),
        Err(CatalogueFault::OutOfMemory) => Err(CatalogueStop::OutOfMemory),
    }
}

/// The names of tables.
pub(crate) fn names_of(alloc: Global, tables: &[Named]) -> Result<Items<KText>, AllocError>
    ensures names { IfOk result (λ names. names ≡ map table_name (all_named tables.now)) }
{
    let mut names = Items::with_capacity(alloc, tables.len())?;
    for named in tables {
        let name = named.name.copy(alloc)?;
        names.push(name)?;
    }
    Ok(names)
}

/// Whether the entries of the catalogue file of this number have no fault behind tables with these names, each of one file.
pub(crate) fn check_entries(
    alloc: Global,
    names: Items<KText>,
    entries: &[Entry],
    number: u32,
) -> Result<(), CatalogueStop>
    requires few { length names ≤ 64 }
    ensures checked { Gives (entries_checked number 1 names (length names) entries.now) result }
    ensures clean { OnOk result (AreClean names (length names) entries.now) }
{
    let mut names = names;
    let mut count = names.len();
    let mut at = 1u64;
    let mut left = entries;
    'entries: while let Some((entry, more)) = left.split_first() {
        if let Some(code) = entry_code(&names, count, entry) {
            return Err(CatalogueStop::Refused {
                file: number,
                code,
                row: at,
                column: 0,
            });
        }
        names.push(entry.name.copy(alloc)?)?;
        count += entry.files.len();
        at += 1;
        left = more;
    }
    Ok(())
}

// The code of an entry's fault behind tables with these names and so many files.
#[tactic(auto, unfolding(crate::specs::Entries::entry_code))]
fn entry_code(names: &Items<KText>, count: usize, entry: &Entry) -> Option<u32>
    requires few { count ≤ 256 }
    ensures code { result ≡ entry_code names.now count entry.now }
{
    let name = entry.name.as_str();
    let files = entry.files.as_slice();
    if !is_table_name(name) {
        Some(311)
    } else if has_name(names.as_slice(), name) {
        Some(311)
    } else if names.len() >= TABLES_TOP {
        Some(313)
    } else if count + files.len() > FILES_TOP {
        Some(313)
    } else {
        None
    }
}

// Whether a query can call a table so.
fn is_table_name(name: &str) -> bool
    ensures name { result ≡ is_table_name name.now }
{
    is_word(name) && !is_reserved(name)
}

// Whether one of these is the name.
fn has_name(names: &[KText], name: &str) -> bool
    ensures found { result ≡ has_name names.now name.now }
{
    names.iter().any(|other| other.as_str() == name)
}
