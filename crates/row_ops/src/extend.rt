//! `project` and `extend`.
ghost use Rattle.std.specs.Prelude.{◌≡◌, IfOk, IsTrue};
ghost use Rattle.kql_cells.specs.Named.{HasDistinctNames, column_name};
ghost use Rattle.kql_meaning.specs.declared.position.Position.TheVariants as position;
ghost use Rattle.kql_meaning.specs.Extend.{extend_columns, extend_table};
ghost use Rattle.kql_meaning.specs.FittingOperators.{items_fit};
ghost use Rattle.kql_meaning.specs.Items.{items_columns};
ghost use Rattle.kql_meaning.specs.Project.{project_table};

use crate::columns::places_without;
use crate::moved::{move_columns, moved_places};
use crate::values::values_of_items;
use kql_bound::BItem;
use kql_cells::Schema;
use kql_columns::{items_columns, items_names};
use kql_values::{Rows, Table};
use std::alloc::{AllocError, Global};

/// `project`, and with it `project-away`, `project-keep` and `project-rename`: the items in order, of each row.
///
/// Where all items are columns of the table, none twice, these are moved and nothing is copied. Without memory the table is
/// dropped.
pub fn project_rows(alloc: Global, t: Table, items: &[BItem]) -> Result<Table, AllocError>
    requires fits { IsTrue (items_fit items.now t.columns position.Window) }
    requires names { HasDistinctNames column_name (items_columns items.now t.columns) }
    ensures rows { IfOk result (λ r. r ≡ project_table items.now t) }
{
    let moved = moved_places(alloc, items, t.schema())?;
    match moved {
        Some(places) => move_columns(alloc, t, items, places.as_slice()),
        None => computed_rows(alloc, &t, items),
    }
}

/// `project` of a table that is read where it stands: every item is computed, and one that is a column of the table copied.
#[tactic(auto, using(crate::proofs::ExtendFacts::project_facts))]
pub fn computed_rows(alloc: Global, t: &Table, items: &[BItem]) -> Result<Table, AllocError>
    requires fits { IsTrue (items_fit items.now t.now.columns position.Window) }
    requires names { HasDistinctNames column_name (items_columns items.now t.now.columns) }
    ensures rows { IfOk result (λ r. r ≡ project_table items.now t.now) }
{
    let columns = items_columns(alloc, items, t.schema().columns())?;
    let vectors = values_of_items(alloc, t, items)?;
    let rows = Rows::from_columns(alloc, t.len(), vectors);
    let made = Table::new(alloc, Schema::from_items(columns), rows)?;
    Ok(made)
}

/// `extend`, and `serialize` with items: every item is computed over the input row, and its column added at the end; an input
/// column of an item's name goes. The other columns are not copied. Without memory the table is dropped.
#[tactic(auto, using(crate::proofs::ExtendFacts::extend_facts))]
pub fn extend_rows(alloc: Global, t: Table, items: &[BItem]) -> Result<Table, AllocError>
    requires fits { IsTrue (items_fit items.now t.columns position.Window) }
    requires names { HasDistinctNames column_name (extend_columns items.now t.columns) }
    ensures rows { IfOk result (λ r. r ≡ extend_table items.now t) }
{
    let added = computed_rows(alloc, &t, items)?;
    let names = items_names(alloc, items)?;
    let places = places_without(alloc, names.as_slice(), t.schema().columns())?;
    let kept = t.select(places.as_slice())?;
    let extended = kept.beside(added)?;
    Ok(extended)
}
