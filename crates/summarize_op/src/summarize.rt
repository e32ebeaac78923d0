//! `summarize` and `distinct`.
ghost use Rattle.std.specs.Prelude.{◌≡◌, IfOk, IsTrue, is_some};
ghost use Rattle.kql_meaning.specs.FittingOperators.{answer_if, summarize_fits};
ghost use Rattle.kql_meaning.specs.Summarize.{group_columns, summarize_table};

use crate::groups::{Groups, groups_of};
use crate::items::columns_of_items;
use kql_bound::GroupPlan;
use kql_cells::Schema;
use kql_columns::group_columns;
use kql_values::{Rows, Table};
use std::alloc::{AllocError, Global};

/// `summarize`, and with it `distinct`, which has keys alone: for each group of rows with the same keys one row, with the keys and then
/// the items over these rows, in order of the group's first row. Without keys all rows are one group, also where there is none.
#[tactic(auto, using(crate::proofs::TableSteps::table_steps))]
pub fn summarize_rows(alloc: Global, t: &Table, g: &GroupPlan) -> Result<Table, AllocError>
    requires fits { IsTrue (is_some (answer_if (summarize_fits g.now t.now.columns) (group_columns g.now t.now.columns))) }
    ensures rows { IfOk result (λ r. r ≡ summarize_table g.now t.now) }
{
    let Groups {
        mut columns,
        numbers,
        count,
    } = groups_of(alloc, t, g.keys.as_slice())?;
    let mut items = columns_of_items(alloc, t, g.items.as_slice(), numbers.as_slice(), count)?;
    columns.append(&mut items)?;
    let named = group_columns(alloc, g, t.schema().columns())?;
    let rows = Rows::from_columns(alloc, count, columns);
    let made = Table::new(alloc, Schema::from_items(named), rows)?;
    Ok(made)
}
