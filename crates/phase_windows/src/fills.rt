//! The round that computes items, range by range.
ghost use Rattle.std.specs.Prelude.{◌≡◌, ◌<◌, ◌≤◌, ◌*◌, ◌+◌, ◌^◌, [], IfOk, IsTrue, length, slice_index_or};
ghost use Rattle.kql_cells.specs.Named.{HasDistinctNames, column_name};
ghost use Rattle.kql_meaning.specs.declared.position.Position.TheVariants as position;
ghost use Rattle.kql_meaning.specs.FittingOperators.{items_fit};
ghost use Rattle.kql_meaning.specs.Items.{items_columns};
ghost use Rattle.kql_meaning.specs.Project.{project_table};
ghost use Rattle.phase_laws.specs.Pieces.{piece_of};
ghost use Rattle.phase_pieces.specs.Reports.{IsWholeFor};
ghost use Rattle.phase_windows.specs.Works.{AreBeforePieces, carries_before};

use kql_bound::BItem;
use kql_cells::Schema;
use kql_columns::items_columns;
use kql_outside::Gate;
use kql_values::Table;
use phase_pieces::{Cut, Ran, bounds_of, put_together};
use std::alloc::{AllocError, Global};
use std::marker::Model;
use std::thread::Threads;
use window_ops::{Carries, Carry, fill_piece};
use worker_board::{Outcome, Work, run_pieces};

// The work of the round.
#[derive(Drop)]
struct FillRun<'a> {
    alloc: Global,
    table: &'a Table,
    items: &'a [BItem],
    before: &'a [Carries],
    cut: Cut,
}

impl<'a> Model for FillRun<'a> {
    ghost use Rattle.std.specs.Coded.{codes};
    ghost use Rattle.kql_cells.specs.contracts.dynamic.Dyn as dynamic;
    ghost use Rattle.kql_bound.specs.contracts.expr.BExpr as bexpr;
    ghost use Rattle.phase_windows.specs.Works.{FillsSeen, IsFillRun};

    ghost Value = { FillsSeen };

    ghost coded = { Prim.hlevel (codes, bexpr.the_row.coded, dynamic.the_row.coded) };

    ghost view = { λ r. record { items = r.items.now; table = r.table.now; before = r.before.now; cut = r.cut } };

    ghost invariant = { λ r. IsFillRun (record { items = r.items.now; table = r.table.now; before = r.before.now; cut = r.cut }) };
}

impl<'a> Work<Table> for FillRun<'a> {
    ghost use Rattle.kql_meaning.specs.Project.{project_table};
    ghost use Rattle.phase_laws.specs.Pieces.{piece_of};

    ghost count = { λ r. r.cut.pieces };

    ghost answer = { λ r piece. piece_of r.cut.rows (project_table r.items r.table) piece };

    fn pieces(&self) -> u32 {
        self.cut.pieces
    }

    #[tactic(auto, using(phase_pieces::proofs::CutLaws::begins, crate::proofs::FillSteps::run_steps))]
    fn run(&self, piece: u32) -> Result<Table, AllocError> {
        let before = carries_at(self.before, piece as usize);
        filled_piece(
            self.alloc,
            self.table,
            self.items,
            before,
            self.cut.rows,
            piece,
        )
    }
}

// The carries at a place, and none where there are none.
fn carries_at(lists: &[Carries], at: usize) -> &[Carry]
    ensures carries { result.now ≡ slice_index_or lists.now at [] }
{
    match lists.get(at) {
        Some(carries) => carries.as_slice(),
        None => &[],
    }
}

// The rows of a piece of what the items give.
#[tactic(auto, using(crate::proofs::FillSteps::piece_steps))]
fn filled_piece(
    alloc: Global,
    table: &Table,
    items: &[BItem],
    before: &[Carry],
    rows: usize,
    piece: u32,
) -> Result<Table, AllocError>
    requires fits { IsTrue (items_fit items.now table.now.columns position.Window) }
    requires names { HasDistinctNames column_name (items_columns items.now table.now.columns) }
    requires begins { piece * rows ≤ length table.now.lines }
    requires rows { rows < 2 ^ 63 }
    requires before { before.now ≡ carries_before items.now table.now rows piece }
    ensures piece { IfOk result (λ t. t ≡ piece_of rows (project_table items.now table.now) piece) }
{
    let bounds = bounds_of(table.len(), rows, piece);
    let columns = items_columns(alloc, items, table.schema().columns())?;
    let filled = fill_piece(alloc, table, bounds.from, bounds.to, items, before)?;
    let made = Table::new(alloc, Schema::from_items(columns), filled)?;
    Ok(made)
}

/// What items give at the rows of a table, piece by piece, by so many workers, from the carries of the rows before each piece.
#[tactic(auto, using(crate::proofs::FillSteps::round_steps))]
pub(crate) fn run_fills<R: Threads + Sync, G: Gate + Sync>(
    rt: &R,
    gate: &G,
    alloc: Global,
    workers: u32,
    phase: u32,
    items: &[BItem],
    table: &Table,
    before: &[Carries],
    cut: Cut,
) -> Result<Ran, AllocError>
    requires workers { (0 < workers) × (workers ≤ 64) }
    requires fits { IsTrue (items_fit items.now table.now.columns position.Window) }
    requires names { HasDistinctNames column_name (items_columns items.now table.now.columns) }
    requires before { AreBeforePieces items.now table.now cut.rows cut.pieces before.now }
    requires all { length table.now.lines ≤ cut.pieces * cut.rows }
    requires each { cut.pieces * cut.rows < length table.now.lines + cut.rows }
    requires rows { cut.rows < 2 ^ 63 }
    ensures table { IfOk result (λ r. r.table ≡ project_table items.now table.now) }
    ensures whole { IfOk result (λ r. IsWholeFor workers r.gathered) }
    ensures pieces { IfOk result (λ r. r.gathered.size.pieces ≡ cut.pieces) }
{
    let columns = items_columns(alloc, items, table.schema().columns())?;
    let first = Table::empty(alloc, Schema::from_items(columns))?;
    let work = FillRun {
        alloc,
        table,
        items,
        before,
        cut,
    };
    let Outcome { results, gathered } = run_pieces(rt, alloc, workers, phase, &work, gate)?;
    let made = put_together(first, results)?;
    Ok(Ran {
        table: made,
        gathered,
    })
}
