//! One file of a shelf.
ghost use Rattle.std.specs.Prelude.{◌≡◌, ◌≤◌, Err, IfOk, IfSome, length};
ghost use Rattle.kql_outside.specs.Calls.{one_more};
ghost use Rattle.kql_outside.specs.Causes.{Rose};
ghost use Rattle.kql_words.specs.Sizes.{size_top};
ghost use Rattle.catalogue_tables.specs.Computes.{Computes, ReadsFront, StopsAtRead};
ghost use Rattle.catalogue_tables.specs.Files.{file_bytes, file_within};
ghost use Rattle.catalogue_tables.specs.declared.stop.CatalogueStop.TheVariants as stop;

use crate::stop::CatalogueStop;
use kql_cells::Bytes;
use kql_items::Items;
use kql_outside::{Shelf, read_up_to};
use std::alloc::Global;

/// The bytes of a file, which may have so many: a path without a file is 307, and one byte more has this code. At most one byte more is read.
pub(crate) fn read_within<F: Shelf>(
    alloc: Global,
    shelf: &mut F,
    path: &str,
    number: u32,
    code: u32,
    top: usize,
) -> Result<Bytes, CatalogueStop>
    requires few { top ≤ size_top }
    ensures files { F.files shelf.new ≡ F.files shelf.old }
    ensures later { F.faults shelf.old ≤ F.faults shelf.new }
    ensures failed { result ≡ Err stop.ReadFault → Rose (F.faults shelf.old) (F.faults shelf.new) }
    ensures stops { StopsAtRead (F.calls shelf.old) (F.calls shelf.new) result }
    ensures starts { F.starts shelf.new ≡ one_more (F.starts shelf.old) }
    ensures within { IfOk result (λ bytes. length bytes ≤ top) }
    ensures bytes { IfSome (F.files shelf.old) (λ files. Computes (file_within files number code top path.now) result) }
{
    let bytes = read_front(alloc, shelf, path, number, top + 1)?;
    if bytes.len() > top {
        return Err(CatalogueStop::Refused {
            file: number,
            code,
            row: 0,
            column: 0,
        });
    }
    Ok(bytes)
}

// A file's first bytes, at most so many; a path without a file is 307.
fn read_front<F: Shelf>(
    alloc: Global,
    shelf: &mut F,
    path: &str,
    number: u32,
    limit: usize,
) -> Result<Bytes, CatalogueStop>
    ensures files { F.files shelf.new ≡ F.files shelf.old }
    ensures later { F.faults shelf.old ≤ F.faults shelf.new }
    ensures failed { result ≡ Err stop.ReadFault → Rose (F.faults shelf.old) (F.faults shelf.new) }
    ensures stops { StopsAtRead (F.calls shelf.old) (F.calls shelf.new) result }
    ensures starts { F.starts shelf.new ≡ one_more (F.starts shelf.old) }
    ensures front { IfSome (F.files shelf.old) (λ files. ReadsFront limit (file_bytes number files path.now) result) }
{
    if shelf.start(path)? {
        Ok(Items::from_vec(read_up_to(alloc, shelf, limit)?))
    } else {
        Err(CatalogueStop::Refused {
            file: number,
            code: 307,
            row: 0,
            column: 0,
        })
    }
}
