//! `summarize` and `distinct`.
ghost use Rattle.std.specs.Prelude.{◌≡◌, ◌<◌, ◌≤◌, ◌∷◌, [], IfOk, IsTrue, is_some, length};
ghost use Rattle.kql_meaning.specs.FittingOperators.{answer_if, summarize_fits};
ghost use Rattle.kql_meaning.specs.Summarize.{group_columns, summarize_table};
ghost use Rattle.summarize_pieces.specs.Pieces.{piece_of};
ghost use Rattle.phase_pieces.specs.Reports.{IsCutFor, IsWholeFor};
ghost use Rattle.phase_groups.specs.Shares.{AreCutBy, rows_wanted};
ghost use Rattle.phase_groups.specs.Works.{IsGroupRun, all_read, run_over};

use crate::joined::all_joined;
use crate::sizes::rows_of_piece;
use crate::works::{GroupRun, ReadRun, WholeRun};
use kql_bound::GroupPlan;
use kql_items::Items;
use kql_outside::Gate;
use kql_values::Table;
use phase_pieces::{Cut, Ran, Sizes, cut_rows};
use std::alloc::{AllocError, Global};
use std::thread::Threads;
use summarize_pieces::{PieceRows, finish_groups, piece_rows};
use worker_board::{Outcome, run_pieces};

/// `summarize` of a table, and with it `distinct`, which has keys alone, piece by piece, by so many workers.
///
/// In a first round the values of the keys and of the arguments are read at the rows of each piece, in a second one each piece's groups are
/// made. Who claimed the pieces is told of the first. Where keys hardly repeat there is one piece alone.
#[tactic(auto, using(crate::proofs::ShareSteps::cut_steps))]
pub fn run_groups<R: Threads + Sync, G: Gate + Sync>(
    rt: &R,
    gate: &G,
    alloc: Global,
    workers: u32,
    phase: u32,
    plan: &GroupPlan,
    table: &Table,
    sizes: Sizes,
) -> Result<Ran, AllocError>
    requires workers { (0 < workers) × (workers ≤ 64) }
    requires sizes { 0 < sizes.piece_rows }
    requires fits { IsTrue (is_some (answer_if (summarize_fits plan.now table.now.columns) (group_columns plan.now table.now.columns))) }
    ensures table { IfOk result (λ r. r.table ≡ summarize_table plan.now table.now) }
    ensures whole { IfOk result (λ r. IsWholeFor workers r.gathered) }
    ensures pieces { IfOk result (λ r. AreCutBy (rows_wanted workers sizes.piece_rows plan.now table.now) (length table.now.lines) r.gathered) }
{
    match rows_of_piece(alloc, plan, table, workers, sizes)? {
        Some(rows) => {
            let ran = run_ranges(rt, gate, alloc, workers, phase, plan, table, rows)?;
            Ok(ran)
        }
        None => {
            let ran = run_whole(rt, gate, alloc, workers, phase, plan, table)?;
            Ok(ran)
        }
    }
}

// All rows as one piece.
#[tactic(auto)]
fn run_whole<R: Threads + Sync, G: Gate + Sync>(
    rt: &R,
    gate: &G,
    alloc: Global,
    workers: u32,
    phase: u32,
    plan: &GroupPlan,
    table: &Table,
) -> Result<Ran, AllocError>
    requires workers { (0 < workers) × (workers ≤ 64) }
    requires fits { IsTrue (is_some (answer_if (summarize_fits plan.now table.now.columns) (group_columns plan.now table.now.columns))) }
    ensures table { IfOk result (λ r. r.table ≡ summarize_table plan.now table.now) }
    ensures whole { IfOk result (λ r. IsWholeFor workers r.gathered) }
    ensures pieces { IfOk result (λ r. r.gathered.size.pieces ≡ 1) }
{
    let work = WholeRun { alloc, table, plan };
    let Outcome { results, gathered } = run_pieces(rt, alloc, workers, phase, &work, gate)?;
    let made = only_one(table, plan, results);
    Ok(Ran {
        table: made,
        gathered,
    })
}

// The table of the one piece.
fn only_one(table: &Table, plan: &GroupPlan, results: Items<Table>) -> Table
    requires one { results ≡ summarize_table plan.now table.now ∷ [] }
    ensures table { result ≡ summarize_table plan.now table.now }
{
    let mut results = results;
    match results.pop() {
        Some(made) => made,
        None => unreachable!(),
    }
}

// Piece by piece, each of so many rows.
#[tactic(auto, using(crate::proofs::RunSteps::run_steps))]
fn run_ranges<R: Threads + Sync, G: Gate + Sync>(
    rt: &R,
    gate: &G,
    alloc: Global,
    workers: u32,
    phase: u32,
    plan: &GroupPlan,
    table: &Table,
    rows: u32,
) -> Result<Ran, AllocError>
    requires workers { (0 < workers) × (workers ≤ 64) }
    requires some { 0 < rows }
    requires fits { IsTrue (is_some (answer_if (summarize_fits plan.now table.now.columns) (group_columns plan.now table.now.columns))) }
    ensures table { IfOk result (λ r. r.table ≡ summarize_table plan.now table.now) }
    ensures whole { IfOk result (λ r. IsWholeFor workers r.gathered) }
    ensures pieces { IfOk result (λ r. IsCutFor (length table.now.lines) rows r.gathered) }
{
    let _columns = table.schema().columns();
    let cut = cut_rows(table.len(), rows);
    let none = piece_rows(alloc, table, plan, 0, 0)?;
    let work = ReadRun {
        alloc,
        table,
        plan,
        cut,
    };
    let Outcome { results, gathered } = run_pieces(rt, alloc, workers, phase, &work, gate)?;
    let read = results.as_slice();
    let made = grouped(
        rt, gate, alloc, workers, phase, plan, table, cut, &none, read,
    )?;
    Ok(Ran {
        table: made,
        gathered,
    })
}

// The table of the groups of what was read of all pieces. Where there is none they are those of what was read of no rows.
#[tactic(auto, using(crate::proofs::RunSteps::group_steps))]
fn grouped<'a, R: Threads + Sync, G: Gate + Sync>(
    rt: &R,
    gate: &G,
    alloc: Global,
    workers: u32,
    phase: u32,
    plan: &'a GroupPlan,
    table: &'a Table,
    cut: Cut,
    none: &'a PieceRows,
    read: &'a [PieceRows],
) -> Result<Table, AllocError>
    requires workers { (0 < workers) × (workers ≤ 64) }
    requires run { IsGroupRun (run_over plan.now table.now cut) }
    requires none { none.now ≡ piece_of plan.now table.now 0 0 }
    requires read { read.now ≡ all_read (run_over plan.now table.now cut) }
    ensures table { IfOk result (λ t. t ≡ summarize_table plan.now table.now) }
{
    let work = GroupRun {
        alloc,
        table,
        plan,
        cut,
        read,
    };
    let Outcome {
        results,
        gathered: _,
    } = run_pieces(rt, alloc, workers, phase, &work, gate)?;
    let all = all_joined(alloc, plan, table, cut, none, results)?;
    let made = finish_groups(alloc, all, plan, table.schema())?;
    Ok(made)
}
