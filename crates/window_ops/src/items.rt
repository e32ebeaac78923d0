//! The values of items at so many rows of a table from one on.
ghost use Rattle.std.specs.Prelude.{◌≡◌, ◌≤◌, ◌+◌, IfOk, IsTrue, length};
ghost use Rattle.kql_meaning.specs.declared.position.Position.TheVariants as position;
ghost use Rattle.kql_meaning.specs.FittingOperators.{items_fit};
ghost use Rattle.row_ops.specs.ItemColumns.{item_columns, values_down};
ghost use Rattle.window_ops.specs.Calls.{AreBefore, calls_of_items};
ghost use Rattle.window_ops.specs.Columns.{columns_of_items};
ghost use Rattle.window_ops.specs.Fitting.{FitsRows};

use crate::calls::{carries_behind, is_running};
use crate::carries::Carry;
use crate::columns::column;
use kql_bound::{BExpr, BItem};
use kql_values::{Table, Vector};
use std::alloc::{AllocError, Global};

/// The values of each item at so many rows from one on, from the carries of the calls in the items, in the order in which they stand.
#[tactic(auto, using(crate::proofs::ItemSteps::item_steps))]
pub(crate) fn values_of_items(
    alloc: Global,
    t: &Table,
    items: &[BItem],
    from: usize,
    count: usize,
    carries: &[Carry],
) -> Result<Vec<Vector>, AllocError>
    requires fits { IsTrue (items_fit items.now t.now.columns position.Window) }
    requires range { from + count ≤ length t.now.lines }
    requires carries { AreBefore (calls_of_items items.now) t.now from carries.now }
    ensures values { IfOk result (λ vs. vs.items ≡ columns_of_items items.now t.now from count) }
{
    let mut vectors = Vec::new(alloc);
    let mut rest = carries;
    'items: for item in items {
        let vector = column(alloc, &item.expr, t, from, count, rest)?;
        vectors.push(vector)?;
        let next = carries_behind(&item.expr, rest);
        rest = next;
    }
    Ok(vectors)
}

/// The values of each item at all rows.
#[tactic(auto, using(crate::proofs::ItemSteps::whole_steps))]
pub(crate) fn values_at_all_rows(
    alloc: Global,
    t: &Table,
    items: &[BItem],
) -> Result<Vec<Vector>, AllocError>
    requires fits { IsTrue (items_fit items.now t.now.columns position.Window) }
    ensures values { IfOk result (λ vs. vs.items ≡ item_columns items.now t.now) }
{
    values_of_items(alloc, t, items, 0, t.len(), &[])
}

/// The values of an expression at all rows.
#[tactic(auto, using(crate::proofs::ItemSteps::whole_steps))]
pub(crate) fn values_at_each_row(alloc: Global, e: &BExpr, t: &Table) -> Result<Vector, AllocError>
    requires fits { FitsRows t.now.columns e.now }
    ensures values { IfOk result (λ v. v ≡ values_down e.now t.now) }
{
    column(alloc, e, t, 0, t.len(), &[])
}

/// Whether a `row_cumsum` or a `row_number` stands in one of them.
pub(crate) fn have_running(items: &[BItem]) -> bool {
    for item in items {
        if is_running(&item.expr) {
            return true;
        }
    }
    false
}
