ghost use Rattle.std.specs.Prelude.{◌≡◌, ◌≤◌, ◌+◌, ◌++◌, ◌∷◌, [], Err, IfOk, IfSome, OnOk, length, map, option_map, true};
ghost use Rattle.kql_outside.specs.Calls.{one_more};
ghost use Rattle.kql_outside.specs.Causes.{Rose};
ghost use Rattle.kql_cells.specs.Named.{IsAbsent};
ghost use Rattle.kql_cells.specs.Catalogues.{table_name};
ghost use Rattle.kql_words.specs.Command.{AreTables, name_in, names_table, texts};
ghost use Rattle.kql_words.specs.Options.{AreWorkers};
ghost use Rattle.kql_words.specs.Sizes.{size_top};
ghost use Rattle.kql_program.specs.Calls.{StartsTables, StopsAtRead};
ghost use Rattle.catalogue_tables.specs.Files.{file_bytes};
ghost use Rattle.kql_program.specs.Files.{AddsTable, ReadsFront, ReadsTable, file_tokens, loaded_as, query_tokens, tables_of};
ghost use Rattle.kql_program.specs.Outcomes.{RefusesNoPattern, RefusesNoWord};
ghost use Rattle.kql_program.specs.Refusals.{Computes, Gives};
ghost use Rattle.csv_io.specs.Load.{loaded};
ghost use Rattle.kql_program.specs.declared.refusal.Stop.TheVariants as stop;

use crate::refusal::Stop;
use catalogue_tables::catalogue_tables;
use csv_io::DataFault;
use csv_workers::load_by_workers;
use kql_cells::{Bytes, KText};
use kql_items::Items;
use kql_lexer::{MAX_BYTES, Tokens, lex};
use kql_outside::{OpenGate, Shelf, read_up_to};
use kql_values::{Catalogue, Named, Table};
use kql_words::{Refusal, table_parts};
use std::alloc::Global;
use std::thread::Threads;

// Reads a file's first bytes, at most so many; a path without a file is 307.
fn read_file<F: Shelf>(
    alloc: Global,
    shelf: &mut F,
    path: &str,
    number: u32,
    limit: usize,
) -> Result<Bytes, Stop>
    ensures files { F.files shelf.new ≡ F.files shelf.old }
    ensures later { F.faults shelf.old ≤ F.faults shelf.new }
    ensures failed { result ≡ Err stop.ReadFault → Rose (F.faults shelf.old) (F.faults shelf.new) }
    ensures stops { StopsAtRead (F.calls shelf.old) (F.calls shelf.new) result }
    ensures starts { F.starts shelf.new ≡ one_more (F.starts shelf.old) }
    ensures within { IfOk result (λ bytes. length bytes ≤ limit) }
    ensures front { IfSome (F.files shelf.old) (λ files. ReadsFront limit (file_bytes number files path.now) result) }
    ensures words { RefusesNoWord result }
    ensures patterns { RefusesNoPattern result }
{
    if shelf.start(path)? {
        Ok(Items::from_vec(read_up_to(alloc, shelf, limit)?))
    } else {
        Err(Stop::Refused(Refusal::Data {
            file: number,
            code: 307,
            row: 0,
            column: 0,
        }))
    }
}

/// The tokens of the query file of this path, or the first fault: 307 there is no such file, and then those of the tokens. No more than
/// 262,145 bytes are read. The query file is file 0.
pub fn read_query<F: Shelf>(alloc: Global, shelf: &mut F, path: &str) -> Result<Tokens, Stop>
    ensures files { F.files shelf.new ≡ F.files shelf.old }
    ensures later { F.faults shelf.old ≤ F.faults shelf.new }
    ensures failed { result ≡ Err stop.ReadFault → Rose (F.faults shelf.old) (F.faults shelf.new) }
    ensures stops { StopsAtRead (F.calls shelf.old) (F.calls shelf.new) result }
    ensures starts { F.starts shelf.new ≡ one_more (F.starts shelf.old) }
    ensures tokens { IfSome (F.files shelf.old) (λ files. Computes (file_tokens files path.now) result) }
    ensures words { RefusesNoWord result }
    ensures patterns { RefusesNoPattern result }
{
    let bytes = read_file(alloc, shelf, path, 0, MAX_BYTES + 1)?;
    read_tokens(alloc, bytes.as_slice())
}

/// The tokens of a text.
pub(crate) fn read_tokens(alloc: Global, text: &[u8]) -> Result<Tokens, Stop>
    ensures tokens { Gives (query_tokens text.now) result }
{
    Ok(lex(alloc, text)?)
}

/// The tables of the words NAME=PATH, each file started, read and loaded before the next, and then those of the catalogue file of a path. The table files
/// may have `limit` bytes together.
pub(crate) fn read_tables<R: Threads + Sync, F: Shelf>(
    rt: &R,
    alloc: Global,
    shelf: &mut F,
    words: &[String],
    catalogue: Option<&str>,
    limit: u64,
    workers: u32,
) -> Result<Catalogue, Stop>
    requires workers { AreWorkers workers }
    requires tables { AreTables (texts words.now) }
    requires limit { limit ≤ size_top }
    ensures files { F.files shelf.new ≡ F.files shelf.old }
    ensures later { F.faults shelf.old ≤ F.faults shelf.new }
    ensures failed { result ≡ Err stop.ReadFault → Rose (F.faults shelf.old) (F.faults shelf.new) }
    ensures stops { StopsAtRead (F.calls shelf.old) (F.calls shelf.new) result }
    ensures starts { IfSome (F.files shelf.old) (λ files. StartsTables files limit (option_map (λ path. path.now) catalogue.entry) (texts words.now) (F.starts shelf.old) (F.starts shelf.new)) }
    ensures tables { IfSome (F.files shelf.old) (λ files. Computes (tables_of files limit (option_map (λ path. path.now) catalogue.entry) (texts words.now)) result) }
    ensures words { RefusesNoWord result }
    ensures patterns { RefusesNoPattern result }
{
    let mut tables = Catalogue::new(alloc);
    let mut room = limit as usize;
    for i in 0..words.len() {
        let number = i as u32 + 1;
        room = add_table(
            rt,
            alloc,
            shelf,
            words[i].as_str(),
            number,
            room,
            workers,
            &mut tables,
        )?;
    }
    match catalogue {
        Some(path) => Ok(catalogue_tables(rt, alloc, shelf, path, room, workers, tables)?),
        None => Ok(tables),
    }
}

// Adds the table of a word, whose file may have so many bytes; answers how many those behind it may have.
fn add_table<R: Threads + Sync, F: Shelf>(
    rt: &R,
    alloc: Global,
    shelf: &mut F,
    word: &str,
    number: u32,
    room: usize,
    workers: u32,
    catalogue: &mut Catalogue,
) -> Result<usize, Stop>
    requires workers { AreWorkers workers }
    requires names { names_table word.now ≡ true }
    requires fresh { IsAbsent table_name (name_in word.now) catalogue.old }
    requires few { room ≤ size_top }
    ensures files { F.files shelf.new ≡ F.files shelf.old }
    ensures later { F.faults shelf.old ≤ F.faults shelf.new }
    ensures failed { result ≡ Err stop.ReadFault → Rose (F.faults shelf.old) (F.faults shelf.new) }
    ensures stops { StopsAtRead (F.calls shelf.old) (F.calls shelf.new) result }
    ensures starts { F.starts shelf.new ≡ one_more (F.starts shelf.old) }
    ensures few { IfOk result (λ left. left ≤ size_top) }
    ensures names { OnOk result (map table_name catalogue.new ≡ map table_name catalogue.old ++ name_in word.now ∷ []) }
    ensures table { IfSome (F.files shelf.old) (λ files. AddsTable files number room word.now catalogue.old catalogue.new result) }
    ensures words { RefusesNoWord result }
    ensures patterns { RefusesNoPattern result }
{
    let (name, path) = table_parts(word).unwrap();
    let (table, left) = read_table(rt, alloc, shelf, path, number, room, workers)?;
    let name = KText::from_str(alloc, name)?;
    catalogue.push(Named { name, table })?;
    Ok(left)
}

/// The table of a file of so many bytes at the most, and how many the files behind it may have. The first fault: 307 there is no such
/// file, 308 there is a byte more, and then those of `csv_io`'s `load`. The workers share a large file. `number` is the file's place among those of the command,
/// from 1; a refusal tells it.
pub fn read_table<R: Threads + Sync, F: Shelf>(
    rt: &R,
    alloc: Global,
    shelf: &mut F,
    path: &str,
    number: u32,
    room: usize,
    workers: u32,
) -> Result<(Table, usize), Stop>
    requires workers { AreWorkers workers }
    requires few { room ≤ size_top }
    ensures files { F.files shelf.new ≡ F.files shelf.old }
    ensures later { F.faults shelf.old ≤ F.faults shelf.new }
    ensures failed { result ≡ Err stop.ReadFault → Rose (F.faults shelf.old) (F.faults shelf.new) }
    ensures stops { StopsAtRead (F.calls shelf.old) (F.calls shelf.new) result }
    ensures starts { F.starts shelf.new ≡ one_more (F.starts shelf.old) }
    ensures few { IfOk result (λ read. read.1 ≤ size_top) }
    ensures table { IfSome (F.files shelf.old) (λ files. ReadsTable files number room path.now result) }
    ensures words { RefusesNoWord result }
    ensures patterns { RefusesNoPattern result }
{
    let bytes = read_file(alloc, shelf, path, number, room + 1)?;
    if bytes.len() > room {
        return Err(Stop::Refused(Refusal::Data {
            file: number,
            code: 308,
            row: 0,
            column: 0,
        }));
    }
    let left = room - bytes.len();
    let table = load_table(rt, alloc, number, bytes.as_slice(), workers)?;
    Ok((table, left))
}

fn load_table<R: Threads + Sync>(
    rt: &R,
    alloc: Global,
    number: u32,
    bytes: &[u8],
    workers: u32,
) -> Result<Table, Stop>
    requires workers { AreWorkers workers }
    ensures table { Gives (loaded_as number (loaded bytes.now)) result }
{
    match load_by_workers(rt, &OpenGate, alloc, workers, bytes) {
        Ok(table) => Ok(table),
        Err(DataFault::Refused { code, row, column }) => Err(Stop::Refused(Refusal::Data {
            file: number,
            code,
            row,
            column,
        })),
        Err(DataFault::OutOfMemory) => Err(Stop::OutOfMemory),
    }
}
