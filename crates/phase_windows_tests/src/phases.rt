//! What many workers give for items, beside what one thread gives.
ghost use Rattle.std.specs.Prelude.{◌<◌, IfOk, IsTrue};
ghost use Rattle.kql_cells.specs.Named.{HasDistinctNames, column_name};
ghost use Rattle.kql_meaning.specs.Extend.{extend_columns};
ghost use Rattle.kql_meaning.specs.Items.{items_columns};

use crate::items::{columns_alone, columns_in_front, plain_items, window_items};
use crate::table::{Line, Made, are_same, table_of};
use kql_bound::{BItem, BItems};
use kql_cells::Column;
use kql_columns::{extend_columns, items_columns, names_of};
use kql_fits::{are_distinct, items_fit};
use kql_meaning::Position;
use kql_outside::OpenGate;
use kql_values::Table;
use phase_pieces::Sizes;
use phase_windows::{run_extend, run_items, run_project};
use std::alloc::Global;
use std::test::Fail;
use std::thread::Threads;
use window_ops::{extend_rows, window_rows};
use worker_board::Gathered;

// A run begins at the rows 2 and 3; row 1 has no number.
const LINES: &[Line] = &[
    (Some(i64::MAX), false),
    (None, false),
    (Some(5), true),
    (Some(-9), true),
    (Some(i64::MIN), false),
    (Some(1), false),
    (Some(2), false),
];

// Workers, and rows of a piece.
const ROWS: &[(u32, u32)] = &[
    (1, 1),
    (1, 2),
    (1, 3),
    (1, 7),
    (2, 1),
    (2, 2),
    (2, 3),
    (3, 1),
    (3, 2),
    (3, 3),
    (64, 1),
    (64, 2),
    (64, 3),
];

// How many pieces of so many rows hold them all.
fn pieces_of(count: u32, rows: u32) -> u32 {
    let rows = rows.max(1);
    let more = if count % rows == 0 { 0 } else { 1 };
    (count / rows).saturating_add(more)
}

fn is_round(gathered: &Gathered, pieces: u32, workers: u32) -> bool {
    gathered.workers() == workers && gathered.pieces() == pieces
}

// Whether there were so many rounds, each of so many pieces.
fn are_rounds(rounds: &[Gathered], count: usize, pieces: u32, workers: u32) -> bool {
    for round in rounds {
        if !is_round(round, pieces, workers) {
            return false;
        }
    }
    rounds.len() == count
}

// Whether the columns of `extend` have different names.
#[tactic(auto, using(crate::proofs::NameSteps::name_steps))]
fn extends(alloc: Global, items: &[BItem], columns: &[Column]) -> Made<bool>
    ensures names { IfOk result (λ b. IsTrue b → HasDistinctNames column_name (extend_columns items.now columns.now)) }
{
    let columns = extend_columns(alloc, items, columns)?;
    let names = names_of(alloc, columns.as_slice())?;
    Ok(are_distinct(names.as_slice()))
}

// The same of `project`.
#[tactic(auto, using(crate::proofs::NameSteps::name_steps))]
fn projects(alloc: Global, items: &[BItem], columns: &[Column]) -> Made<bool>
    ensures names { IfOk result (λ b. IsTrue b → HasDistinctNames column_name (items_columns items.now columns.now)) }
{
    let columns = items_columns(alloc, items, columns)?;
    let names = names_of(alloc, columns.as_slice())?;
    Ok(are_distinct(names.as_slice()))
}

fn sizes_of(rows: u32) -> Sizes
    ensures some { 0 < result.piece_rows }
{
    Sizes {
        piece_rows: rows.max(1),
    }
}

// Whether `extend` by so many workers gives what it gives on one thread, in so many rounds.
fn extends_the_same<R: Threads + Sync>(
    rt: &R,
    alloc: Global,
    items: &[BItem],
    row: (u32, u32),
    rounds: usize,
) -> Made<bool> {
    let table = table_of(alloc, LINES)?;
    if !items_fit(alloc, items, table.schema().columns(), Position::Window)? {
        return Ok(false);
    }
    if !extends(alloc, items, table.schema().columns())? {
        return Ok(false);
    }
    let workers = row.0.clamp(1, 64);
    let same = table.copy(alloc)?;
    let want = extend_rows(alloc, same, items)?;
    let made = run_extend(
        rt,
        &OpenGate,
        alloc,
        workers,
        0,
        items,
        table,
        sizes_of(row.1),
    )?;
    let pieces = pieces_of(7, row.1);
    Ok(
        are_same(&made.table, &want)
            && are_rounds(made.gathered.as_slice(), rounds, pieces, workers),
    )
}

// The same of `project`.
fn projects_the_same<R: Threads + Sync>(
    rt: &R,
    alloc: Global,
    items: &[BItem],
    row: (u32, u32),
    rounds: usize,
) -> Made<bool> {
    let table = table_of(alloc, LINES)?;
    if !items_fit(alloc, items, table.schema().columns(), Position::Window)? {
        return Ok(false);
    }
    if !projects(alloc, items, table.schema().columns())? {
        return Ok(false);
    }
    let workers = row.0.clamp(1, 64);
    let want = window_rows(alloc, &table, items)?;
    let sizes = sizes_of(row.1);
    let pieces = pieces_of(7, row.1);
    let read = run_items(rt, &OpenGate, alloc, workers, 0, items, &table, sizes)?;
    let reads = are_same(&read.table, &want)
        && are_rounds(read.gathered.as_slice(), rounds, pieces, workers);
    let made = run_project(rt, &OpenGate, alloc, workers, 0, items, table, sizes)?;
    Ok(
        reads
            && are_same(&made.table, &want)
            && are_rounds(made.gathered.as_slice(), rounds, pieces, workers),
    )
}

// The first row at which workers give another answer.
fn first_wrong<R: Threads + Sync>(
    rt: &R,
    alloc: Global,
    items: Made<BItems>,
    rounds: usize,
) -> Made<Option<(u32, u32)>> {
    let items = items?;
    for row in ROWS {
        if !extends_the_same(rt, alloc, items.as_slice(), *row, rounds)? {
            return Ok(Some(*row));
        }
        if !projects_the_same(rt, alloc, items.as_slice(), *row, rounds)? {
            return Ok(Some(*row));
        }
    }
    Ok(None)
}

#[test]
fn items_by_many_workers(rt: HostRuntime) -> Result<(), Fail> {
    assert_eq!(rt;
        first_wrong(&rt, rt.alloc(), plain_items(rt.alloc()), 1)?,
        None
    );
    assert_eq!(rt;
        first_wrong(&rt, rt.alloc(), window_items(rt.alloc()), 2)?,
        None
    );
    assert_eq!(rt;
        first_wrong(&rt, rt.alloc(), columns_in_front(rt.alloc()), 2)?,
        None
    );
    assert_eq!(rt;
        first_wrong(&rt, rt.alloc(), columns_alone(rt.alloc()), 1)?,
        None
    );
    Ok(())
}
