//! `extend` and `project`.
ghost use Rattle.std.specs.Prelude.{◌≡◌, ◌<◌, ◌≤◌, [], All, IfOk, IsTrue, length, take};
ghost use Rattle.kql_cells.specs.Named.{HasDistinctNames, column_name};
ghost use Rattle.kql_meaning.specs.declared.position.Position.TheVariants as position;
ghost use Rattle.kql_meaning.specs.Extend.{extend_columns, extend_table};
ghost use Rattle.kql_meaning.specs.FittingOperators.{items_fit};
ghost use Rattle.kql_meaning.specs.Items.{items_columns};
ghost use Rattle.kql_meaning.specs.Project.{project_table};
ghost use Rattle.phase_pieces.specs.Reports.{IsCutFor};
ghost use Rattle.phase_windows.specs.Rounds.{AreRounds};
ghost use Rattle.window_ops.specs.Calls.{calls_of, calls_of_items};

use crate::fills::run_fills;
use crate::rounds::Rounds;
use crate::sums::{Summed, run_sums};
use kql_bound::{BExpr, BItem};
use kql_columns::items_names;
use kql_outside::Gate;
use kql_values::Table;
use phase_pieces::{Ran, Sizes, cut_rows};
use row_ops::{places_without, project_rows};
use std::alloc::{AllocError, Global};
use std::thread::Threads;

/// `extend`, and `serialize` with items, by so many workers: every item is computed over the input row, range by range, and its column
/// added at the end; an input column of an item's name goes. The other columns are not copied. Without memory the table is dropped.
#[tactic(auto, using(row_ops::proofs::ExtendFacts::extend_facts))]
pub fn run_extend<R: Threads + Sync, G: Gate + Sync>(
    rt: &R,
    gate: &G,
    alloc: Global,
    workers: u32,
    phase: u32,
    items: &[BItem],
    table: Table,
    sizes: Sizes,
) -> Result<Rounds, AllocError>
    requires workers { (0 < workers) × (workers ≤ 64) }
    requires sizes { 0 < sizes.piece_rows }
    requires fits { IsTrue (items_fit items.now table.columns position.Window) }
    requires names { HasDistinctNames column_name (extend_columns items.now table.columns) }
    ensures table { IfOk result (λ r. r.table ≡ extend_table items.now table) }
    ensures rounds { IfOk result (λ r. AreRounds workers items.now r.gathered) }
    ensures pieces { IfOk result (λ r. All (IsCutFor (length table.lines) sizes.piece_rows) r.gathered) }
{
    let Rounds {
        table: added,
        gathered,
    } = run_items(rt, gate, alloc, workers, phase, items, &table, sizes)?;
    let names = items_names(alloc, items)?;
    let places = places_without(alloc, names.as_slice(), table.schema().columns())?;
    let kept = table.select(places.as_slice())?;
    let extended = kept.beside(added)?;
    Ok(Rounds {
        table: extended,
        gathered,
    })
}

/// `project` by so many workers. Columns of the table that stand in front of all other items are moved, where none is there twice; the
/// other items are computed, range by range, and a column among them copied. Without memory the table is dropped.
#[tactic(auto, using(crate::proofs::ProjectSteps::project_steps))]
pub fn run_project<R: Threads + Sync, G: Gate + Sync>(
    rt: &R,
    gate: &G,
    alloc: Global,
    workers: u32,
    phase: u32,
    items: &[BItem],
    table: Table,
    sizes: Sizes,
) -> Result<Rounds, AllocError>
    requires workers { (0 < workers) × (workers ≤ 64) }
    requires sizes { 0 < sizes.piece_rows }
    requires fits { IsTrue (items_fit items.now table.columns position.Window) }
    requires names { HasDistinctNames column_name (items_columns items.now table.columns) }
    ensures table { IfOk result (λ r. r.table ≡ project_table items.now table) }
    ensures rounds { IfOk result (λ r. AreRounds workers items.now r.gathered) }
    ensures pieces { IfOk result (λ r. All (IsCutFor (length table.lines) sizes.piece_rows) r.gathered) }
{
    let (front, others) = items.split_at(columns_in_front(items));
    let Rounds {
        table: computed,
        gathered,
    } = run_items(rt, gate, alloc, workers, phase, others, &table, sizes)?;
    let moved = project_rows(alloc, table, front)?;
    let projected = moved.beside(computed)?;
    Ok(Rounds {
        table: projected,
        gathered,
    })
}

// How many items in front of all others are columns.
#[tactic(auto, using(crate::proofs::ProjectSteps::front_steps))]
fn columns_in_front(items: &[BItem]) -> usize
    ensures within { result ≤ length items.now }
    ensures calls { calls_of_items (take result items.now) ≡ [] }
{
    let mut count = 0;
    'items: for item in items {
        if !is_column(&item.expr) {
            return count;
        }
        count += 1;
    }
    count
}

// Whether an expression is a column, in which no call stands.
#[tactic(auto, using(crate::proofs::ProjectSteps::column_steps))]
fn is_column(e: &BExpr) -> bool
    ensures calls { IsTrue result → calls_of e.now ≡ [] }
{
    match e {
        BExpr::Column(_) => true,
        _ => false,
    }
}

/// `project` of a table that is read where it stands, by so many workers: every item is computed, range by range, and one that is a
/// column of the table copied.
#[tactic(auto, using(crate::proofs::ItemSteps::item_steps))]
pub fn run_items<R: Threads + Sync, G: Gate + Sync>(
    rt: &R,
    gate: &G,
    alloc: Global,
    workers: u32,
    phase: u32,
    items: &[BItem],
    table: &Table,
    sizes: Sizes,
) -> Result<Rounds, AllocError>
    requires workers { (0 < workers) × (workers ≤ 64) }
    requires sizes { 0 < sizes.piece_rows }
    requires fits { IsTrue (items_fit items.now table.now.columns position.Window) }
    requires names { HasDistinctNames column_name (items_columns items.now table.now.columns) }
    ensures table { IfOk result (λ r. r.table ≡ project_table items.now table.now) }
    ensures rounds { IfOk result (λ r. AreRounds workers items.now r.gathered) }
    ensures pieces { IfOk result (λ r. All (IsCutFor (length table.now.lines) sizes.piece_rows) r.gathered) }
{
    let cut = cut_rows(table.len(), sizes.piece_rows);
    let Summed {
        before,
        mut gathered,
    } = run_sums(rt, gate, alloc, workers, phase, items, table, cut)?;
    let last = number_behind(phase, gathered.len());
    let Ran {
        table: made,
        gathered: claims,
    } = run_fills(
        rt,
        gate,
        alloc,
        workers,
        last,
        items,
        table,
        before.as_slice(),
        cut,
    )?;
    gathered.push(claims)?;
    Ok(Rounds {
        table: made,
        gathered,
    })
}

// The number of the phase behind so many more.
fn number_behind(phase: u32, more: usize) -> u32 {
    phase.saturating_add(more.min(u32::MAX as usize) as u32)
}
