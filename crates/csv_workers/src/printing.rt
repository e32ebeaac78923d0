//! Printing by many workers.
ghost use Rattle.std.specs.Prelude.{◌≡◌, ◌<◌, ◌≤◌, All, IfOk, Ok};
ghost use Rattle.csv_io.specs.Load.{loaded};
ghost use Rattle.csv_io.specs.Reload.{IsLoadable, typed_text, with_kinds};
ghost use Rattle.csv_io.specs.Text.{table_text};

use crate::checked::ranges_of;
use csv_io::{Printed, join_text, join_typed_text, table_text, typed_text};
use kql_cells::Bytes;
use kql_items::Items;
use kql_outside::Gate;
use kql_values::Table;
use std::alloc::{AllocError, Global};
use std::thread::Threads;
use worker_board::{Work, run_pieces};

// A table of fewer cells is printed by the calling thread.
const SMALL_TABLE: usize = 32_768;

// The ranges of the rows of a table.
#[derive(Clone, Copy)]
struct Printing<'a> {
    alloc: Global,
    table: &'a Table,
    rows: usize,
    count: u32,
}

impl<'a> Work<Printed<'a>> for Printing<'a> {
    ghost count = { λ p. p.count };

    ghost answer = { λ p _. p.table.now };

    fn pieces(&self) -> u32 {
        self.count
    }

    fn run(&self, piece: u32) -> Result<Printed<'a>, AllocError> {
        let from = self.rows.saturating_mul(piece as usize);
        Printed::print(self.alloc, self.table, from, self.rows)
    }
}

/// What `table_text` answers, by so many workers. A small table is printed by the calling thread.
pub fn text_by_workers<R: Threads + Sync, G: Gate + Sync>(
    rt: &R,
    gate: &G,
    alloc: Global,
    workers: u32,
    t: &Table,
) -> Result<Bytes, AllocError>
    requires workers { (0 < workers) × (workers ≤ 64) }
    ensures text { IfOk result (λ b. b ≡ table_text t.now) }
    ensures loads { IfOk result (λ b. IsLoadable t.now.columns → loaded (with_kinds t.now.columns b) ≡ Ok t.now) }
{
    if workers == 1 || cells_of(t) < SMALL_TABLE {
        return table_text(alloc, t);
    }
    text_by_ranges(rt, gate, alloc, workers, rows_for(workers, t), t)
}

/// What `typed_text` answers, by so many workers. A small table is printed by the calling thread.
pub fn typed_text_by_workers<R: Threads + Sync, G: Gate + Sync>(
    rt: &R,
    gate: &G,
    alloc: Global,
    workers: u32,
    t: &Table,
) -> Result<Bytes, AllocError>
    requires workers { (0 < workers) × (workers ≤ 64) }
    ensures text { IfOk result (λ b. b ≡ typed_text t.now) }
    ensures loads { IfOk result (λ b. IsLoadable t.now.columns → loaded b ≡ Ok t.now) }
{
    if workers == 1 || cells_of(t) < SMALL_TABLE {
        return typed_text(alloc, t);
    }
    typed_text_by_ranges(rt, gate, alloc, workers, rows_for(workers, t), t)
}

// How many cells a table has.
fn cells_of(t: &Table) -> usize {
    t.len().saturating_mul(t.schema().len())
}

// Two ranges for each worker.
fn rows_for(workers: u32, t: &Table) -> usize {
    let ranges = (workers as usize).saturating_mul(2).max(1);
    (t.len() / ranges).saturating_add(1)
}

/// What `table_text` answers, by so many workers and in ranges of so many rows.
pub fn text_by_ranges<R: Threads + Sync, G: Gate + Sync>(
    rt: &R,
    gate: &G,
    alloc: Global,
    workers: u32,
    rows: usize,
    t: &Table,
) -> Result<Bytes, AllocError>
    requires workers { (0 < workers) × (workers ≤ 64) }
    ensures text { IfOk result (λ b. b ≡ table_text t.now) }
    ensures loads { IfOk result (λ b. IsLoadable t.now.columns → loaded (with_kinds t.now.columns b) ≡ Ok t.now) }
{
    let printed = print_by_workers(rt, gate, alloc, workers, rows, t)?;
    join_text(alloc, t, printed)
}

/// What `typed_text` answers, by so many workers and in ranges of so many rows.
pub fn typed_text_by_ranges<R: Threads + Sync, G: Gate + Sync>(
    rt: &R,
    gate: &G,
    alloc: Global,
    workers: u32,
    rows: usize,
    t: &Table,
) -> Result<Bytes, AllocError>
    requires workers { (0 < workers) × (workers ≤ 64) }
    ensures text { IfOk result (λ b. b ≡ typed_text t.now) }
    ensures loads { IfOk result (λ b. IsLoadable t.now.columns → loaded b ≡ Ok t.now) }
{
    let printed = print_by_workers(rt, gate, alloc, workers, rows, t)?;
    join_typed_text(alloc, t, printed)
}

// The texts of ranges of so many rows of a table, by so many workers.
fn print_by_workers<'a, R: Threads + Sync, G: Gate + Sync>(
    rt: &R,
    gate: &G,
    alloc: Global,
    workers: u32,
    rows: usize,
    t: &'a Table,
) -> Result<Items<Printed<'a>>, AllocError>
    requires workers { (0 < workers) × (workers ≤ 64) }
    ensures of_table { IfOk result (λ printed. All (λ p. p ≡ t.now) printed) }
{
    let work = Printing {
        alloc,
        table: t,
        rows,
        count: ranges_of(t.len(), rows),
    };
    let printed = run_pieces(rt, alloc, workers, 2, &work, gate)?.results;
    Ok(printed)
}
