//! The partition of one scan.
ghost use Rattle.std.specs.Prelude.{◌≡◌, ◌<◌, ◌≤◌, ◌*◌, ◌+◌, ◌^◌, All, IfOk, IsTrue, is_some, length};
ghost use Rattle.kql_cells.specs.Named.{column_name, place_of};
ghost use Rattle.kql_meaning.specs.Partition.{partition_table};
ghost use Rattle.kql_meaning.specs.Scan.{scan_columns, scan_table, with_declared};
ghost use Rattle.phase_pieces.specs.Reports.{IsCutFor, IsWholeFor};
ghost use Rattle.phase_scans.specs.Keys.{keys_of_piece};
ghost use Rattle.phase_scans.specs.Works.{scanned_piece};
ghost use Rattle.scan_ops.specs.Scans.{rows_by_key, scans_of};
ghost use Rattle.scan_ops.specs.Steps.{scan_answers};

use crate::lists::{cut_keys, rows_by_key};
use kql_bound::ScanPlan;
use kql_keys::PlaceLists;
use kql_outside::Gate;
use kql_values::Table;
use phase_pieces::{Cut, Ran, Sizes, bounds_of, put_together};
use scan_ops::{scan_lists, with_declared};
use std::alloc::{AllocError, Global};
use std::marker::Model;
use std::thread::Threads;
use worker_board::{Outcome, Work, run_pieces};

// The work of the phase.
#[derive(Drop)]
struct ScanRun<'a> {
    alloc: Global,
    scan: &'a ScanPlan,
    table: &'a Table,
    extended: &'a Table,
    lists: &'a PlaceLists,
    cut: Cut,
}

impl<'a> Model for ScanRun<'a> {
    ghost use Rattle.std.specs.Coded.{codes};
    ghost use Rattle.kql_cells.specs.contracts.dynamic.Dyn as dynamic;
    ghost use Rattle.kql_bound.specs.contracts.expr.BExpr as bexpr;
    ghost use Rattle.phase_scans.specs.Works.{IsScanRun, ScansSeen};

    ghost Value = { ScansSeen };

    ghost coded = { Prim.hlevel (codes, bexpr.the_row.coded, dynamic.the_row.coded) };

    ghost view = { λ r. record { scan = r.scan.now; table = r.table.now; extended = r.extended.now; lists = r.lists.now; cut = r.cut } };

    ghost invariant = { λ r. IsScanRun (record { scan = r.scan.now; table = r.table.now; extended = r.extended.now; lists = r.lists.now; cut = r.cut }) };
}

impl<'a> Work<Table> for ScanRun<'a> {
    ghost use Rattle.phase_scans.specs.Works.{scanned_piece};

    ghost count = { λ r. r.cut.pieces };

    ghost answer = { λ r piece. scanned_piece r.scan r.table r.extended r.lists r.cut.rows piece };

    fn pieces(&self) -> u32 {
        self.cut.pieces
    }

    #[tactic(auto, using(phase_pieces::proofs::CutLaws::begins))]
    fn run(&self, piece: u32) -> Result<Table, AllocError> {
        scan_of_piece(
            self.alloc,
            self.scan,
            self.table,
            self.extended,
            self.lists,
            self.cut.rows,
            piece,
        )
    }
}

// The scans of the rows of the keys of a piece.
#[tactic(auto, using(crate::proofs::ScanSteps::piece_steps))]
fn scan_of_piece(
    alloc: Global,
    scan: &ScanPlan,
    table: &Table,
    extended: &Table,
    lists: &PlaceLists,
    keys: usize,
    piece: u32,
) -> Result<Table, AllocError>
    requires fits { IsTrue (scan_answers scan.now table.now.columns) }
    requires extended { extended.now ≡ with_declared scan.now table.now }
    requires within { All (All (λ i. i < length table.now.lines)) lists.now }
    requires begins { piece * keys ≤ length lists.now }
    requires small { (length lists.now < 2 ^ 63) × (keys < 2 ^ 63) }
    ensures table { IfOk result (λ t. t ≡ scanned_piece scan.now table.now extended.now lists.now keys piece) }
{
    let bounds = bounds_of(lists.len(), keys, piece);
    let made = scan_lists(alloc, table, scan, extended, lists, bounds.from, bounds.to)?;
    Ok(made)
}

/// The partition of one scan by the keys of a column, by so many workers, in ranges of keys. The results come one key after another, keys
/// in order of first occurrence, and match ids begin at 0 for each. Null is a key.
#[tactic(auto, using(crate::proofs::ScanSteps::scan_steps, crate::proofs::KeySteps::told_steps, scan_ops::proofs::KeyedFacts::keyed_facts))]
pub fn run_keyed_scan<R: Threads + Sync, G: Gate + Sync>(
    rt: &R,
    gate: &G,
    alloc: Global,
    workers: u32,
    phase: u32,
    key: &str,
    scan: &ScanPlan,
    table: &Table,
    sizes: Sizes,
) -> Result<Ran, AllocError>
    requires workers { (0 < workers) × (workers ≤ 64) }
    requires sizes { 0 < sizes.piece_rows }
    requires column { IsTrue (is_some (place_of column_name key.now table.now.columns)) }
    requires fits { IsTrue (scan_answers scan.now table.now.columns) }
    ensures table { IfOk result (λ r. r.table ≡ partition_table key.now (scan_table scan.now) table.now) }
    ensures whole { IfOk result (λ r. IsWholeFor workers r.gathered) }
    ensures pieces { IfOk result (λ r. IsCutFor (length (rows_by_key key.now table.now)) (keys_of_piece (length (rows_by_key key.now table.now)) (length table.now.lines) sizes.piece_rows) r.gathered) }
{
    let lists = rows_by_key(alloc, table, key)?;
    if scan.declared.is_empty() {
        let plain = run_lists(
            rt, gate, alloc, workers, phase, scan, table, table, &lists, sizes,
        )?;
        return Ok(plain);
    }
    let extended = with_declared(alloc, scan, table)?;
    let made = run_lists(
        rt, gate, alloc, workers, phase, scan, table, &extended, &lists, sizes,
    )?;
    Ok(made)
}

// The scans of these lists of rows, of a table with the declared columns.
#[tactic(auto, using(crate::proofs::ScanSteps::list_steps))]
fn run_lists<R: Threads + Sync, G: Gate + Sync>(
    rt: &R,
    gate: &G,
    alloc: Global,
    workers: u32,
    phase: u32,
    scan: &ScanPlan,
    table: &Table,
    extended: &Table,
    lists: &PlaceLists,
    sizes: Sizes,
) -> Result<Ran, AllocError>
    requires workers { (0 < workers) × (workers ≤ 64) }
    requires fits { IsTrue (scan_answers scan.now table.now.columns) }
    requires extended { extended.now ≡ with_declared scan.now table.now }
    requires within { All (All (λ i. i < length table.now.lines)) lists.now }
    requires few { length lists.now < 2 ^ 63 }
    ensures table { IfOk result (λ r. r.table ≡ record { columns = scan_columns scan.now table.now.columns; lines = scans_of scan.now extended.now lists.now }) }
    ensures whole { IfOk result (λ r. IsWholeFor workers r.gathered) }
    ensures pieces { IfOk result (λ r. IsCutFor (length lists.now) (keys_of_piece (length lists.now) (length table.now.lines) sizes.piece_rows) r.gathered) }
{
    let cut = cut_keys(lists.len(), table.len(), sizes);
    let first = scan_lists(alloc, table, scan, extended, lists, 0, 0)?;
    let work = ScanRun {
        alloc,
        scan,
        table,
        extended,
        lists,
        cut,
    };
    let Outcome { results, gathered } = run_pieces(rt, alloc, workers, phase, &work, gate)?;
    let made = put_together(first, results)?;
    Ok(Ran {
        table: made,
        gathered,
    })
}
