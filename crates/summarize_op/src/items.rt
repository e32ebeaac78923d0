//! Items over groups.
ghost use Rattle.std.specs.Prelude.{◌≡◌, ◌∷◌, [], false, IfOk, IsTrue};
ghost use Rattle.std.specs.List.{list_all};
ghost use Rattle.kql_meaning.specs.FittingExpressions.{call_or_expr_fits, is_aggregate_call, scope_of};
ghost use Rattle.kql_meaning.specs.FittingOperators.{group_item_fits};
ghost use Rattle.kql_meaning.specs.Items.{items_values};
ghost use Rattle.kql_meaning.specs.Results.{results};
ghost use Rattle.kql_meaning.specs.declared.position.Position.TheVariants as position;
ghost use Rattle.summarize_op.specs.Columns.{AreColumns};
ghost use Rattle.summarize_op.specs.Grouped.{AreNumbers};
ghost use Rattle.summarize_op.specs.Groups.{group_at};

use crate::calls::call_vectors;
use crate::values::values_of;
use kql_bound::{BExpr, BItem};
use kql_cells::Kind;
use kql_meaning::kind_of;
use kql_values::{Table, Vector};
use std::alloc::{AllocError, Global};

/// The values of items, one item after another: each vector has a value for each group.
#[tactic(auto, using(crate::proofs::ItemSteps::item_steps))]
pub(crate) fn columns_of_items(
    alloc: Global,
    t: &Table,
    items: &[BItem],
    numbers: &[usize],
    count: usize,
) -> Result<Vec<Vector>, AllocError>
    requires fits { IsTrue (list_all (group_item_fits t.now.columns) items.now) }
    requires numbers { AreNumbers t.now numbers.now count }
    ensures values { IfOk result (λ vs. AreColumns count (λ g. items_values items.now (group_at t.now numbers.now g) 0) vs.items) }
{
    let mut vectors = Vec::new(alloc);
    'items: for item in items {
        let mut more = columns_of_item(alloc, t, item, numbers, count)?;
        vectors.append(&mut more)?;
    }
    Ok(vectors)
}

// The values of an item, one vector for each of its result columns.
#[tactic(auto, using(crate::proofs::ItemSteps::part_steps, kql_meaning::proofs::ExpressionFitLaws::is_call_steps))]
fn columns_of_item(
    alloc: Global,
    t: &Table,
    item: &BItem,
    numbers: &[usize],
    count: usize,
) -> Result<Vec<Vector>, AllocError>
    requires fits { IsTrue (group_item_fits t.now.columns item.now) }
    requires numbers { AreNumbers t.now numbers.now count }
    ensures values { IfOk result (λ vs. AreColumns count (λ g. results item.now.expr (group_at t.now numbers.now g) 0 []) vs.items) }
{
    match &item.expr {
        BExpr::Literal(_) => expression_column(alloc, t, &item.expr, numbers, count),
        BExpr::Column(_) => expression_column(alloc, t, &item.expr, numbers, count),
        BExpr::Step(_) => expression_column(alloc, t, &item.expr, numbers, count),
        BExpr::Call(_, _) => expression_column(alloc, t, &item.expr, numbers, count),
        BExpr::Chain(_, _) => expression_column(alloc, t, &item.expr, numbers, count),
        BExpr::Path(_, _) => expression_column(alloc, t, &item.expr, numbers, count),
        BExpr::Window(_, _) => expression_column(alloc, t, &item.expr, numbers, count),
        BExpr::Aggregate(f, args) => { call_vectors(alloc, *f, args.as_slice(), t, numbers, count) }
    }
}

// The values of an expression that is no call of an aggregate.
#[tactic(auto, using(crate::proofs::ItemSteps::expression_steps))]
fn expression_column(
    alloc: Global,
    t: &Table,
    e: &BExpr,
    numbers: &[usize],
    count: usize,
) -> Result<Vec<Vector>, AllocError>
    requires fits { IsTrue (call_or_expr_fits e.now (scope_of t.now.columns) position.Group) }
    requires other { is_aggregate_call e.now ≡ false }
    requires numbers { AreNumbers t.now numbers.now count }
    ensures values { IfOk result (λ vs. AreColumns count (λ g. results e.now (group_at t.now numbers.now g) 0 []) vs.items) }
{
    let kind = kind_of(alloc, e, t.schema().columns())?.unwrap_or(Kind::Dynamic);
    let vector = values_of(alloc, e, kind, t, numbers, count)?;
    let mut vectors = Vec::new(alloc);
    vectors.push(vector)?;
    Ok(vectors)
}
