//! `where`, `extend` and `project`.
ghost use Rattle.std.specs.Prelude.{◌≡◌, IfOk, IsTrue};
ghost use Rattle.kql_cells.specs.Named.{HasDistinctNames, column_name};
ghost use Rattle.kql_meaning.specs.declared.position.Position.TheVariants as position;
ghost use Rattle.kql_meaning.specs.Extend.{extend_columns, extend_table};
ghost use Rattle.kql_meaning.specs.FittingOperators.{items_fit, where_fits};
ghost use Rattle.kql_meaning.specs.Items.{items_columns};
ghost use Rattle.kql_meaning.specs.Project.{project_table};
ghost use Rattle.kql_meaning.specs.Where.{where_table};

use crate::calls::is_running;
use crate::items::{have_running, values_at_all_rows, values_at_each_row};
use crate::kept::places_true;
use kql_bound::{BExpr, BItem};
use kql_cells::Schema;
use kql_columns::{items_columns, items_names};
use kql_values::{Rows, Table};
use row_ops::places_without;
use std::alloc::{AllocError, Global};

/// `project` of a table that is read where it stands: every item is computed, and one that is a column of the table copied.
#[tactic(auto, using(row_ops::proofs::ExtendFacts::project_facts))]
pub fn window_rows(alloc: Global, t: &Table, items: &[BItem]) -> Result<Table, AllocError>
    requires fits { IsTrue (items_fit items.now t.now.columns position.Window) }
    requires names { HasDistinctNames column_name (items_columns items.now t.now.columns) }
    ensures rows { IfOk result (λ r. r ≡ project_table items.now t.now) }
{
    let columns = items_columns(alloc, items, t.schema().columns())?;
    let vectors = values_at_all_rows(alloc, t, items)?;
    let rows = Rows::from_columns(alloc, t.len(), vectors);
    let made = Table::new(alloc, Schema::from_items(columns), rows)?;
    Ok(made)
}

/// `project`, and with it `project-away`, `project-keep` and `project-rename`: the items in order, of each row.
///
/// Where all items are columns of the table, none twice, these are moved and nothing is copied. Without memory the table is
/// dropped.
pub fn project_rows(alloc: Global, t: Table, items: &[BItem]) -> Result<Table, AllocError>
    requires fits { IsTrue (items_fit items.now t.columns position.Window) }
    requires names { HasDistinctNames column_name (items_columns items.now t.columns) }
    ensures rows { IfOk result (λ r. r ≡ project_table items.now t) }
{
    if have_running(items) {
        window_rows(alloc, &t, items)
    } else {
        row_ops::project_rows(alloc, t, items)
    }
}

/// `extend`, and `serialize` with items: every item is computed over the input row, and its column added at the end; an input
/// column of an item's name goes. The other columns are not copied. Without memory the table is dropped.
#[tactic(auto, using(row_ops::proofs::ExtendFacts::extend_facts))]
pub fn extend_rows(alloc: Global, t: Table, items: &[BItem]) -> Result<Table, AllocError>
    requires fits { IsTrue (items_fit items.now t.columns position.Window) }
    requires names { HasDistinctNames column_name (extend_columns items.now t.columns) }
    ensures rows { IfOk result (λ r. r ≡ extend_table items.now t) }
{
    let added = window_rows(alloc, &t, items)?;
    let names = items_names(alloc, items)?;
    let places = places_without(alloc, names.as_slice(), t.schema().columns())?;
    let kept = t.select(places.as_slice())?;
    let extended = kept.beside(added)?;
    Ok(extended)
}

/// `where`: copies of the rows at which the predicate is true, in order.
pub fn where_rows(alloc: Global, t: &Table, predicate: &BExpr) -> Result<Table, AllocError>
    requires fits { IsTrue (where_fits predicate.now t.now.columns) }
    ensures rows { IfOk result (λ r. r ≡ where_table predicate.now t.now) }
{
    if is_running(predicate) {
        rows_where_column(alloc, t, predicate)
    } else {
        row_ops::where_rows(alloc, t, predicate)
    }
}

// The same by a column of the predicate.
#[tactic(auto, using(crate::proofs::KeptSteps::where_steps))]
fn rows_where_column(alloc: Global, t: &Table, predicate: &BExpr) -> Result<Table, AllocError>
    requires fits { IsTrue (where_fits predicate.now t.now.columns) }
    ensures rows { IfOk result (λ r. r ≡ where_table predicate.now t.now) }
{
    let values = values_at_each_row(alloc, predicate, t)?;
    let places = places_true(alloc, &values)?;
    t.gather(alloc, places.as_slice())
}
