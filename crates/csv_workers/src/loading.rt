//! Loading by many workers.
ghost use Rattle.std.specs.Prelude.{◌≡◌, ◌<◌, ◌≤◌, Ok, IfErr, IfOk};
ghost use Rattle.csv_io.specs.Faults.{IsFaultOf};
ghost use Rattle.csv_io.specs.Load.{loaded};
ghost use Rattle.csv_io.specs.Parts.{loaded_rows};
ghost use Rattle.csv_io.specs.TypedLoad.{loaded_typed};

use crate::checked::check_by_workers;
use crate::joining::put_together;
use csv_io::{DataFault, Head, Piece, load, load_typed};
use kql_cells::Schema;
use kql_outside::Gate;
use kql_values::Table;
use std::alloc::{AllocError, Global};
use std::str;
use std::thread::Threads;
use worker_board::{Work, run_pieces};

// A file of fewer bytes is read by the calling thread.
const SMALL_FILE: usize = 262_144;

// The least that a range has where a file is cut for workers.
const LEAST_RANGE: usize = 65_536;

// The ranges of a text.
#[derive(Clone, Copy)]
struct Reading<'a, 'b> {
    alloc: Global,
    head: &'b Head<'a>,
    range: usize,
    count: u32,
}

impl<'a, 'b> Work<Piece<'a>> for Reading<'a, 'b> {
    ghost count = { λ r. r.count };

    ghost answer = { λ r _. r.head.now };

    fn pieces(&self) -> u32 {
        self.count
    }

    fn run(&self, piece: u32) -> Result<Piece<'a>, AllocError> {
        self.head.piece(self.alloc, piece, self.range)
    }
}

/// What `load` answers, by so many workers. A small file is read by the calling thread.
pub fn load_by_workers<R: Threads + Sync, G: Gate + Sync>(
    rt: &R,
    gate: &G,
    alloc: Global,
    workers: u32,
    bytes: &[u8],
) -> Result<Table, DataFault>
    requires workers { (0 < workers) × (workers ≤ 64) }
    ensures table { IfOk result (λ t. loaded bytes.now ≡ Ok t) }
    ensures fault { IfErr result (IsFaultOf (loaded bytes.now)) }
{
    if workers == 1 || bytes.len() < SMALL_FILE {
        return load(alloc, bytes);
    }
    load_by_ranges(rt, gate, alloc, workers, range_for(workers, bytes), bytes)
}

/// What `load_typed` answers, by so many workers. A small file is read by the calling thread.
pub fn load_typed_by_workers<R: Threads + Sync, G: Gate + Sync>(
    rt: &R,
    gate: &G,
    alloc: Global,
    workers: u32,
    bytes: &[u8],
    schema: &Schema,
) -> Result<Table, DataFault>
    requires workers { (0 < workers) × (workers ≤ 64) }
    ensures table { IfOk result (λ t. loaded_typed schema.now bytes.now ≡ Ok t) }
    ensures columns { IfOk result (λ t. t.columns ≡ schema.now) }
    ensures fault { IfErr result (IsFaultOf (loaded_typed schema.now bytes.now)) }
{
    if workers == 1 || bytes.len() < SMALL_FILE {
        return load_typed(alloc, bytes, schema);
    }
    load_typed_by_ranges(
        rt,
        gate,
        alloc,
        workers,
        range_for(workers, bytes),
        bytes,
        schema,
    )
}

// Two ranges for each worker.
fn range_for(workers: u32, bytes: &[u8]) -> usize {
    let ranges = (workers as usize).saturating_mul(2).max(1);
    (bytes.len() / ranges).max(LEAST_RANGE).saturating_add(1)
}

/// What `load` answers, by so many workers and in ranges of so many bytes.
pub fn load_by_ranges<R: Threads + Sync, G: Gate + Sync>(
    rt: &R,
    gate: &G,
    alloc: Global,
    workers: u32,
    range: usize,
    bytes: &[u8],
) -> Result<Table, DataFault>
    requires workers { (0 < workers) × (workers ≤ 64) }
    ensures table { IfOk result (λ t. loaded bytes.now ≡ Ok t) }
    ensures fault { IfErr result (IsFaultOf (loaded bytes.now)) }
{
    if !check_by_workers(rt, gate, alloc, workers, range, bytes)? {
        return load(alloc, bytes);
    }
    let text = unsafe { str::from_utf8_unchecked(bytes) };
    let head = Head::read(alloc, text)?;
    rows_by_workers(rt, gate, alloc, workers, range, head)
}

/// What `load_typed` answers, by so many workers and in ranges of so many bytes.
pub fn load_typed_by_ranges<R: Threads + Sync, G: Gate + Sync>(
    rt: &R,
    gate: &G,
    alloc: Global,
    workers: u32,
    range: usize,
    bytes: &[u8],
    schema: &Schema,
) -> Result<Table, DataFault>
    requires workers { (0 < workers) × (workers ≤ 64) }
    ensures table { IfOk result (λ t. loaded_typed schema.now bytes.now ≡ Ok t) }
    ensures columns { IfOk result (λ t. t.columns ≡ schema.now) }
    ensures fault { IfErr result (IsFaultOf (loaded_typed schema.now bytes.now)) }
{
    if !check_by_workers(rt, gate, alloc, workers, range, bytes)? {
        return load_typed(alloc, bytes, schema);
    }
    let text = unsafe { str::from_utf8_unchecked(bytes) };
    let head = Head::read_typed(alloc, text, schema)?;
    rows_by_workers(rt, gate, alloc, workers, range, head)
}

// The table of the rows of a text, or the first fault in them, by so many workers and in ranges of so many bytes.
fn rows_by_workers<R: Threads + Sync, G: Gate + Sync>(
    rt: &R,
    gate: &G,
    alloc: Global,
    workers: u32,
    range: usize,
    head: Head<'_>,
) -> Result<Table, DataFault>
    requires workers { (0 < workers) × (workers ≤ 64) }
    ensures table { IfOk result (λ t. loaded_rows head.entry.columns head.entry.text ≡ Ok t) }
    ensures columns { IfOk result (λ t. t.columns ≡ head.entry.columns) }
    ensures fault { IfErr result (IsFaultOf (loaded_rows head.entry.columns head.entry.text)) }
{
    let work = Reading {
        alloc,
        head: &head,
        range,
        count: head.ranges(range),
    };
    let read = run_pieces(rt, alloc, workers, 1, &work, gate)?.results;
    let stack = head.stack(alloc, read)?;
    let table = put_together(rt, alloc, workers, stack)?;
    Ok(table)
}
