//! The values of items at all rows, item by item.
ghost use Rattle.std.specs.Prelude.{◌≡◌, IfOk, IsTrue};
ghost use Rattle.kql_meaning.specs.declared.position.Position.TheVariants as position;
ghost use Rattle.kql_meaning.specs.FittingExpressions.{scope_of};
ghost use Rattle.kql_meaning.specs.FittingOperators.{item_fits, items_fit};
ghost use Rattle.row_ops.specs.ItemColumns.{item_columns, values_down};

use kql_bound::BItem;
use kql_scalar::Located;
use kql_values::{Table, Vector};
use std::alloc::{AllocError, Global};

/// The values of each item at all rows.
#[tactic(auto, using(crate::proofs::ValueSteps::value_steps))]
pub(crate) fn values_of_items(
    alloc: Global,
    t: &Table,
    items: &[BItem],
) -> Result<Vec<Vector>, AllocError>
    requires fits { IsTrue (items_fit items.now t.now.columns position.Window) }
    ensures values { IfOk result (λ vs. vs.items ≡ item_columns items.now t.now) }
{
    let mut vectors = Vec::new(alloc);
    'items: for item in items {
        let vector = values_of_item(alloc, t, item)?;
        vectors.push(vector)?;
    }
    Ok(vectors)
}

#[tactic(auto, using(crate::proofs::ScalarSteps::scalar_steps))]
fn values_of_item(alloc: Global, t: &Table, item: &BItem) -> Result<Vector, AllocError>
    requires fits { IsTrue (item_fits (scope_of t.now.columns) position.Window item.now) }
    ensures values { IfOk result (λ v. v ≡ values_down item.now.expr t.now) }
{
    let located = Located::new(alloc, &item.expr, t.schema())?;
    located.column_of(alloc, t, 0, t.len())
}
