//! What is read of the rows of a piece before they are grouped.
ghost use Rattle.std.specs.Prelude.{◌≡◌, ◌≤◌, IfOk, IsTrue, is_some, length, map, take};
ghost use Rattle.kql_meaning.specs.FittingOperators.{answer_if, summarize_fits};
ghost use Rattle.kql_meaning.specs.Summarize.{group_columns};
ghost use Rattle.summarize_op.specs.Calls.{IsCall};
ghost use Rattle.summarize_pieces.specs.Calls.{AreCalls};
ghost use Rattle.summarize_pieces.specs.Pieces.{called, piece_of};

use crate::calls::{Found, calls_of, further_args};
use crate::columns::{columns_along, keys_along};
use agg_folds::{FoldCall, fold_call, needs};
use kql_bound::{BExpr, GroupPlan};
use kql_functions::Aggregate;
use kql_values::{Rows, Table, Vector};
use std::alloc::{AllocError, Global};
use std::marker::Model;

/// What the arguments of a call and its further columns are at the rows of a piece.
#[derive(Drop)]
pub(crate) struct CallRows {
    pub(crate) call: FoldCall,
    pub(crate) columns: Vec<Vector>,
    pub(crate) further: Vec<Vector>,
}

impl Model for CallRows {
    ghost use Rattle.std.specs.Coded.{codes};
    ghost use Rattle.kql_cells.specs.contracts.dynamic.Dyn as dynamic;
    ghost use Rattle.summarize_pieces.specs.Pieces.{Called};

    ghost Value = { Called };

    ghost coded = { Prim.hlevel (codes, dynamic.the_row.coded) };

    ghost view = { λ c. record { call = c.call; columns = c.columns.items; further = c.further.items } };
}

/// What the keys and the arguments of the calls are at the rows of a piece. Groups lend these values, so they live until the table of the
/// groups is made; no row of the table is looked at after they are read.
#[derive(Drop)]
pub struct PieceRows {
    pub(crate) width: usize,
    pub(crate) keys: Rows,
    pub(crate) calls: Vec<CallRows>,
}

impl Model for PieceRows {
    ghost use Rattle.std.specs.Coded.{codes};
    ghost use Rattle.kql_cells.specs.contracts.dynamic.Dyn as dynamic;
    ghost use Rattle.summarize_pieces.specs.Pieces.{IsRead, Piece};

    ghost Value = { Piece };

    ghost coded = { Prim.hlevel (codes, dynamic.the_row.coded) };

    ghost view = { λ p. record { width = p.width; keys = p.keys; calls = p.calls.items } };

    ghost invariant = { λ p. IsRead (record { width = p.width; keys = p.keys; calls = p.calls.items }) };
}

/// Reads the rows from one on and before another of a table, for the groups of a plan.
#[tactic(auto, using(crate::proofs::PlanSteps::plan_steps))]
pub fn piece_rows(
    alloc: Global,
    t: &Table,
    g: &GroupPlan,
    from: usize,
    to: usize,
) -> Result<PieceRows, AllocError>
    requires fits { IsTrue (is_some (answer_if (summarize_fits g.now t.now.columns) (group_columns g.now t.now.columns))) }
    requires order { from ≤ to }
    requires range { to ≤ length t.now.lines }
    ensures rows { IfOk result (λ p. p ≡ piece_of g.now t.now from to) }
{
    let _count = t.len();
    let _columns = t.schema().columns();
    let columns = keys_along(alloc, t, g.keys.as_slice(), from, to)?;
    let keys = Rows::from_columns(alloc, to - from, columns);
    let found = calls_of(alloc, g.items.as_slice())?;
    let calls = call_rows(alloc, t, found.as_slice(), from, to)?;
    Ok(PieceRows {
        width: g.keys.len(),
        keys,
        calls,
    })
}

// What these calls take of the rows.
#[tactic(auto, using(crate::proofs::PlanSteps::call_steps))]
fn call_rows(
    alloc: Global,
    t: &Table,
    found: &[Found<'_>],
    from: usize,
    to: usize,
) -> Result<Vec<CallRows>, AllocError>
    requires fits { AreCalls t.now.columns found.now }
    requires order { from ≤ to }
    requires range { to ≤ length t.now.lines }
    ensures calls { IfOk result (λ cs. cs.items ≡ map (called t.now from to) found.now) }
{
    let mut calls = Vec::with_capacity(alloc, found.len())?;
    'calls: for call in found {
        let one = one_call(alloc, t, call.aggregate(), call.arguments(), from, to)?;
        calls.push(one)?;
    }
    Ok(calls)
}

#[tactic(auto, using(crate::proofs::PlanSteps::one_steps), unfolding(crate::specs::Pieces::called))]
fn one_call(
    alloc: Global,
    t: &Table,
    f: Aggregate,
    args: &[BExpr],
    from: usize,
    to: usize,
) -> Result<CallRows, AllocError>
    requires call { IsCall t.now.columns f args.now }
    requires order { from ≤ to }
    requires range { to ≤ length t.now.lines }
    ensures call { IfOk result (λ c. c ≡ called t.now from to (f, args.now)) }
{
    let call = fold_call(alloc, f, args, t.schema().columns())?;
    let columns = columns_along(alloc, t, first_args(args, needs(f)), from, to)?;
    let further = columns_along(alloc, t, further_args(f, args), from, to)?;
    Ok(CallRows {
        call,
        columns,
        further,
    })
}

// The first of these, up to a number.
#[tactic(auto, using(crate::proofs::ColumnSteps::first_steps))]
fn first_args(args: &[BExpr], n: usize) -> &[BExpr]
    ensures first { result.now ≡ take n args.now }
{
    if n < args.len() { &args[..n] } else { args }
}
