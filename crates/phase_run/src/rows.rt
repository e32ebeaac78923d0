//! A run of operators that read one row at a time, by ranges of rows.
ghost use Rattle.std.specs.Prelude.{◌≡◌, ◌<◌, ◌≤◌, ◌*◌, ◌^◌, ◌∷◌, IfOk, IfSome, IsTrue, length};
ghost use Rattle.kql_bound.specs.declared.plan.Op.TheVariants as operator;
ghost use Rattle.kql_meaning.specs.FittingOperators.{where_fits};
ghost use Rattle.kql_meaning.specs.RowByRow.{is_plain};
ghost use Rattle.kql_meaning.specs.Where.{where_table};
ghost use Rattle.kql_plain.specs.AtHand.{OpsFit, world_of};
ghost use Rattle.phase_laws.specs.Pieces.{piece_of};
ghost use Rattle.phase_laws.specs.Runs.{are_by_row, made_of};
ghost use Rattle.phase_pieces.specs.Reports.{IsCutFor, IsWholeFor};

use kql_bound::{BExpr, Op};
use kql_meaning::law_of_rows;
use kql_outside::Gate;
use kql_plain::{Input, emptied, ops_input};
use kql_scalar::Located;
use kql_values::{Catalogue, Table};
use phase_laws::law_of_row_runs;
use phase_pieces::{Cut, Ran, Sizes, bounds_of, cut_rows, piece_table, put_together};
use std::alloc::{AllocError, Global};
use std::marker::Model;
use std::thread::Threads;
use worker_board::{Outcome, Work, run_pieces};

// The work of such a run.
#[derive(Drop)]
struct RowRun<'a> {
    alloc: Global,
    table: &'a Table,
    ops: &'a [Op],
    catalogue: &'a Catalogue,
    lets: &'a [Table],
    cut: Cut,
}

impl<'a> Model for RowRun<'a> {
    ghost use Rattle.std.specs.Coded.{codes};
    ghost use Rattle.kql_cells.specs.contracts.dynamic.Dyn as dynamic;
    ghost use Rattle.kql_bound.specs.contracts.plan.Op as op;
    ghost use Rattle.kql_plain.specs.AtHand.{world_of};
    ghost use Rattle.phase_run.specs.Works.{IsRowRun, RowsSeen};

    ghost Value = { RowsSeen };

    ghost coded = { Prim.hlevel (codes, op.the_row.coded, dynamic.the_row.coded) };

    ghost view = { λ r. record { ops = r.ops.now; world = world_of r.catalogue.now r.lets.now; table = r.table.now; cut = r.cut } };

    ghost invariant = { λ r. IsRowRun (record { ops = r.ops.now; world = world_of r.catalogue.now r.lets.now; table = r.table.now; cut = r.cut }) };
}

impl<'a> Work<Table> for RowRun<'a> {
    ghost use Rattle.phase_laws.specs.Pieces.{piece_of};
    ghost use Rattle.phase_laws.specs.Runs.{made_of};

    ghost count = { λ r. r.cut.pieces };

    ghost answer = { λ r piece. made_of r.ops r.world (piece_of r.cut.rows r.table piece) };

    fn pieces(&self) -> u32 {
        self.cut.pieces
    }

    #[tactic(auto, using(phase_pieces::proofs::CutLaws::begins))]
    fn run(&self, piece: u32) -> Result<Table, AllocError> {
        made_of_piece(
            self.alloc,
            self.ops,
            self.catalogue,
            self.lets,
            self.table,
            self.cut.rows,
            piece,
        )
    }
}

// What operators that read one row at a time make of a piece. A filter that comes first reads its rows where they stand.
#[tactic(auto, using(crate::proofs::RowSteps::part_steps))]
fn made_of_piece(
    alloc: Global,
    ops: &[Op],
    catalogue: &Catalogue,
    lets: &[Table],
    table: &Table,
    rows: usize,
    piece: u32,
) -> Result<Table, AllocError>
    requires fits { OpsFit ops.now (world_of catalogue.now lets.now) table.now }
    requires by_row { IsTrue (are_by_row ops.now) }
    requires begins { piece * rows ≤ length table.now.lines }
    requires rows { rows < 2 ^ 63 }
    ensures table { IfOk result (λ t. t ≡ made_of ops.now (world_of catalogue.now lets.now) (piece_of rows table.now piece)) }
{
    match filter_first(ops) {
        Some((e, behind)) => {
            let kept = filtered_piece(alloc, e, table, rows, piece)?;
            let made = made_of_part(alloc, behind, catalogue, lets, kept)?;
            Ok(made)
        }
        None => {
            let part = piece_table(alloc, table, rows, piece)?;
            let made = made_of_part(alloc, ops, catalogue, lets, part)?;
            Ok(made)
        }
    }
}

// The filter that comes first, and the operators behind it.
fn filter_first(ops: &[Op]) -> Option<(&BExpr, &[Op])>
    ensures first { IfSome result (λ f. ops.now ≡ operator.Where f.0.now ∷ f.1.now) }
{
    match ops.split_first() {
        Some((op, behind)) => match filter_of(op) {
            Some(e) => Some((e, behind)),
            None => None,
        },
        None => None,
    }
}

// The predicate of a filter.
fn filter_of(op: &Op) -> Option<&BExpr>
    ensures filter { IfSome result (λ e. op.now ≡ operator.Where e.now) }
{
    match op {
        Op::Where(e) => Some(e),
        _ => None,
    }
}

// The rows of a piece that pass a filter.
#[tactic(auto, using(crate::proofs::FilterSteps::filter_steps))]
fn filtered_piece(
    alloc: Global,
    e: &BExpr,
    table: &Table,
    rows: usize,
    piece: u32,
) -> Result<Table, AllocError>
    requires fits { IsTrue (where_fits e.now table.now.columns) }
    requires plain { IsTrue (is_plain e.now) }
    requires begins { piece * rows ≤ length table.now.lines }
    requires rows { rows < 2 ^ 63 }
    ensures table { IfOk result (λ t. t ≡ where_table e.now (piece_of rows table.now piece)) }
{
    law_of_rows();
    let bounds = bounds_of(table.len(), rows, piece);
    let located = Located::new(alloc, e, table.schema())?;
    let places = located.places_where(alloc, table, bounds.from, bounds.to)?;
    let kept = table.gather(alloc, places.as_slice())?;
    Ok(kept)
}

// What operators make of rows.
#[tactic(auto)]
fn made_of_part(
    alloc: Global,
    ops: &[Op],
    catalogue: &Catalogue,
    lets: &[Table],
    part: Table,
) -> Result<Table, AllocError>
    requires fits { OpsFit ops.now (world_of catalogue.now lets.now) part }
    ensures table { IfOk result (λ t. t ≡ made_of ops.now (world_of catalogue.now lets.now) part) }
{
    let made = ops_input(alloc, ops, catalogue, lets, Input::Owned(part))?;
    let table = made.into_table(alloc)?;
    Ok(table)
}

/// What operators that read one row at a time make of a table, piece by piece, by so many workers.
#[tactic(auto, using(crate::proofs::RowSteps::run_steps))]
pub(crate) fn run_rows<R: Threads + Sync, G: Gate + Sync>(
    rt: &R,
    gate: &G,
    alloc: Global,
    workers: u32,
    phase: u32,
    ops: &[Op],
    catalogue: &Catalogue,
    lets: &[Table],
    table: &Table,
    sizes: Sizes,
) -> Result<Ran, AllocError>
    requires workers { (0 < workers) × (workers ≤ 64) }
    requires sizes { 0 < sizes.piece_rows }
    requires fits { OpsFit ops.now (world_of catalogue.now lets.now) table.now }
    requires by_row { IsTrue (are_by_row ops.now) }
    ensures table { IfOk result (λ r. r.table ≡ made_of ops.now (world_of catalogue.now lets.now) table.now) }
    ensures whole { IfOk result (λ r. IsWholeFor workers r.gathered) }
    ensures pieces { IfOk result (λ r. IsCutFor (length table.now.lines) sizes.piece_rows r.gathered) }
{
    law_of_row_runs();
    let cut = cut_rows(table.len(), sizes.piece_rows);
    let none = emptied(alloc, table)?;
    let first = made_of_part(alloc, ops, catalogue, lets, none)?;
    let work = RowRun {
        alloc,
        table,
        ops,
        catalogue,
        lets,
        cut,
    };
    let Outcome { results, gathered } = run_pieces(rt, alloc, workers, phase, &work, gate)?;
    let made = put_together(first, results)?;
    Ok(Ran {
        table: made,
        gathered,
    })
}
