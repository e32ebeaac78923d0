//! The round that sums up ranges of rows, and the carries of the rows before each.
ghost use Rattle.std.specs.Prelude.{◌≡◌, ◌<◌, ◌≤◌, ◌*◌, ◌+◌, ◌^◌, IfOk, IsTrue, length};
ghost use Rattle.kql_meaning.specs.declared.position.Position.TheVariants as position;
ghost use Rattle.kql_meaning.specs.FittingOperators.{items_fit};
ghost use Rattle.phase_windows.specs.Rounds.{AreRoundsBefore, HavePieces};
ghost use Rattle.phase_windows.specs.Works.{AreBeforePieces, carries_before, carries_of_piece, end_of, sums_before_pieces, sums_of_pieces};
ghost use Rattle.window_ops.specs.Calls.{calls_of_items, carries_of};

use kql_bound::BItem;
use kql_items::Items;
use kql_outside::Gate;
use kql_values::Table;
use phase_pieces::{Cut, bounds_of};
use std::alloc::{AllocError, Global};
use std::marker::Model;
use std::thread::Threads;
use window_ops::{Carries, Carry, carry, sum_pieces};
use worker_board::{Gathered, Outcome, Work, run_pieces};

// The work of the round.
#[derive(Drop)]
struct SumRun<'a> {
    alloc: Global,
    table: &'a Table,
    items: &'a [BItem],
    cut: Cut,
}

impl<'a> Model for SumRun<'a> {
    ghost use Rattle.std.specs.Coded.{codes};
    ghost use Rattle.kql_cells.specs.contracts.dynamic.Dyn as dynamic;
    ghost use Rattle.kql_bound.specs.contracts.expr.BExpr as bexpr;
    ghost use Rattle.phase_windows.specs.Works.{IsSumRun, SumsSeen};

    ghost Value = { SumsSeen };

    ghost coded = { Prim.hlevel (codes, bexpr.the_row.coded, dynamic.the_row.coded) };

    ghost view = { λ r. record { items = r.items.now; table = r.table.now; cut = r.cut } };

    ghost invariant = { λ r. IsSumRun (record { items = r.items.now; table = r.table.now; cut = r.cut }) };
}

impl<'a> Work<Carries> for SumRun<'a> {
    ghost use Rattle.phase_windows.specs.Works.{carries_of_piece};

    ghost count = { λ r. r.cut.pieces };

    ghost answer = { λ r piece. carries_of_piece r.items r.table r.cut.rows piece };

    fn pieces(&self) -> u32 {
        self.cut.pieces
    }

    #[tactic(auto, using(phase_pieces::proofs::CutLaws::begins))]
    fn run(&self, piece: u32) -> Result<Carries, AllocError> {
        sums_of_piece(self.alloc, self.table, self.items, self.cut.rows, piece)
    }
}

// The carries of a piece.
#[tactic(auto, using(crate::proofs::SumSteps::piece_steps))]
fn sums_of_piece(
    alloc: Global,
    table: &Table,
    items: &[BItem],
    rows: usize,
    piece: u32,
) -> Result<Carries, AllocError>
    requires fits { IsTrue (items_fit items.now table.now.columns position.Window) }
    requires begins { piece * rows ≤ length table.now.lines }
    requires rows { rows < 2 ^ 63 }
    ensures carries { IfOk result (λ cs. cs ≡ carries_of_piece items.now table.now rows piece) }
{
    let bounds = bounds_of(table.len(), rows, piece);
    let sums = sum_pieces(alloc, table, bounds.from, bounds.to, items)?;
    Ok(sums)
}

/// The carries of the rows before each piece, and the round that summed up, where there was one.
#[derive(Drop)]
pub(crate) struct Summed {
    pub(crate) before: Items<Carries>,
    pub(crate) gathered: Items<Gathered>,
}

/// Sums up each piece, by so many workers. Where there is no call of `row_cumsum` or `row_number`, there is nothing to sum up.
#[tactic(auto, using(crate::proofs::SumSteps::round_steps))]
pub(crate) fn run_sums<R: Threads + Sync, G: Gate + Sync>(
    rt: &R,
    gate: &G,
    alloc: Global,
    workers: u32,
    phase: u32,
    items: &[BItem],
    table: &Table,
    cut: Cut,
) -> Result<Summed, AllocError>
    requires workers { (0 < workers) × (workers ≤ 64) }
    requires fits { IsTrue (items_fit items.now table.now.columns position.Window) }
    requires each { cut.pieces * cut.rows < length table.now.lines + cut.rows }
    requires rows { cut.rows < 2 ^ 63 }
    ensures before { IfOk result (λ s. AreBeforePieces items.now table.now cut.rows cut.pieces s.before) }
    ensures rounds { IfOk result (λ s. AreRoundsBefore workers items.now s.gathered) }
    ensures pieces { IfOk result (λ s. HavePieces cut.pieces s.gathered) }
{
    let first = sum_pieces(alloc, table, 0, 0, items)?;
    let mut gathered = Items::new(alloc);
    if first.is_empty() {
        return Ok(Summed {
            before: Items::new(alloc),
            gathered,
        });
    }
    let work = SumRun {
        alloc,
        table,
        items,
        cut,
    };
    let Outcome {
        results,
        gathered: claims,
    } = run_pieces(rt, alloc, workers, phase, &work, gate)?;
    let before = sums_before(alloc, first, results.as_slice(), items, table, cut)?;
    gathered.push(claims)?;
    Ok(Summed { before, gathered })
}

// The carries of the rows before each piece, from those of no rows and those of the pieces.
#[tactic(auto, using(crate::proofs::SumSteps::walk_steps))]
fn sums_before(
    alloc: Global,
    first: Carries,
    sums: &[Carries],
    items: &[BItem],
    table: &Table,
    cut: Cut,
) -> Result<Items<Carries>, AllocError>
    requires first { first ≡ carries_of (calls_of_items items.now) table.now 0 0 }
    requires sums { sums.now ≡ sums_of_pieces items.now table.now cut.rows cut.pieces }
    requires each { cut.pieces * cut.rows < length table.now.lines + cut.rows }
    ensures before { IfOk result (λ cs. cs ≡ sums_before_pieces items.now table.now cut.rows cut.pieces) }
{
    let mut before = Items::with_capacity(alloc, sums.len())?;
    let mut so_far = first;
    'pieces: for piece in 0..sums.len() {
        let sum = sums[piece].as_slice();
        let next = with_piece(alloc, so_far.as_slice(), sum, items, table, cut.rows, piece)?;
        before.push(so_far)?;
        so_far = next;
    }
    Ok(before)
}

// The carries of the rows before a piece joined with those of the piece, call by call. The contract alone needs the items, the table
// and the piece: whose carries they are.
#[tactic(auto, using(crate::proofs::SumSteps::join_steps))]
fn with_piece(
    alloc: Global,
    before: &[Carry],
    sums: &[Carry],
    _items: &[BItem],
    table: &Table,
    _rows: usize,
    _piece: usize,
) -> Result<Carries, AllocError>
    requires begins { _piece * _rows ≤ length table.now.lines }
    requires before { before.now ≡ carries_before _items.now table.now _rows _piece }
    requires sums { sums.now ≡ carries_of_piece _items.now table.now _rows _piece }
    ensures joined { IfOk result (λ cs. cs ≡ carries_of (calls_of_items _items.now) table.now 0 (end_of (length table.now.lines) _rows _piece)) }
{
    let _count = table.len();
    let mut joined = Carries::with_capacity(alloc, before.len())?;
    'calls: for i in 0..before.len() {
        joined.push(carry(&before[i], &sums[i]))?;
    }
    Ok(joined)
}
