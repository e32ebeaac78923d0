//! Items that are columns of the table, which are moved.
ghost use Rattle.std.specs.Prelude.{◌≡◌, IfOk, IfSome, IsTrue};
ghost use Rattle.kql_cells.specs.Named.{HasDistinctNames, column_name};
ghost use Rattle.kql_meaning.specs.declared.position.Position.TheVariants as position;
ghost use Rattle.kql_meaning.specs.FittingOperators.{items_fit};
ghost use Rattle.kql_meaning.specs.Items.{items_columns};
ghost use Rattle.kql_meaning.specs.Project.{project_table};
ghost use Rattle.row_ops.specs.MovedColumns.{AreMoved, IsColumnAt};

use kql_bound::{BExpr, BItem};
use kql_cells::{Places, Schema};
use kql_columns::items_columns;
use kql_items::Items;
use kql_values::Table;
use std::alloc::{AllocError, Global};

/// The places of the columns that the items are, where each is a column of the table and none is there twice.
#[tactic(auto, using(crate::proofs::MovedFacts::moved_steps))]
pub(crate) fn moved_places(
    alloc: Global,
    items: &[BItem],
    schema: &Schema,
) -> Result<Option<Places>, AllocError>
    ensures moved { IfOk result (λ o. IfSome o (AreMoved schema.now items.now)) }
{
    let mut places = Items::new(alloc);
    'items: for item in items {
        let Some(place) = column_place(item, schema) else {
            return Ok(None);
        };
        if places.as_slice().contains(&place) {
            return Ok(None);
        }
        places.push(place)?;
    }
    Ok(Some(places))
}

// The place of the column that an item is.
fn column_place(item: &BItem, schema: &Schema) -> Option<usize>
    ensures place { IfSome result (IsColumnAt schema.now item.now) }
{
    match &item.expr {
        BExpr::Column(name) => schema.find(name.as_str()),
        _ => None,
    }
}

/// The columns at the places of the items, under the items' names.
#[tactic(auto, using(crate::proofs::MovedFacts::moved_facts))]
pub(crate) fn move_columns(
    alloc: Global,
    t: Table,
    items: &[BItem],
    places: &[usize],
) -> Result<Table, AllocError>
    requires fits { IsTrue (items_fit items.now t.columns position.Window) }
    requires names { HasDistinctNames column_name (items_columns items.now t.columns) }
    requires moved { AreMoved t.columns items.now places.now }
    ensures rows { IfOk result (λ r. r ≡ project_table items.now t) }
{
    let columns = items_columns(alloc, items, t.schema().columns())?;
    let kept = t.select(places)?;
    let renamed = kept.with_schema(Schema::from_items(columns));
    Ok(renamed)
}
