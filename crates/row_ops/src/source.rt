//! The sources `print` and `range`.
ghost use Rattle.std.specs.Prelude.{◌≡◌, [], IfOk, IsTrue};
ghost use Rattle.kql_cells.specs.Named.{HasDistinctNames, column_name};
ghost use Rattle.kql_meaning.specs.declared.position.Position.TheVariants as position;
ghost use Rattle.kql_meaning.specs.FittingOperators.{items_fit, range_fits};
ghost use Rattle.kql_meaning.specs.Items.{items_columns};
ghost use Rattle.kql_meaning.specs.Sources.{print_table, range_table};

use crate::extend::computed_rows;
use crate::terms::{number_in, terms};
use kql_bound::{BItem, Lit};
use kql_cells::{KText, Schema};
use kql_columns::range_columns;
use kql_items::Items;
use kql_values::{Rows, Table};
use std::alloc::{AllocError, Global};

/// `print`: one row of items, which read no column.
#[tactic(auto, using(crate::proofs::SourceSteps::print_steps))]
pub fn print_rows(alloc: Global, items: &[BItem]) -> Result<Table, AllocError>
    requires fits { IsTrue (items_fit items.now [] position.Plain) }
    requires names { HasDistinctNames column_name (items_columns items.now []) }
    ensures rows { IfOk result (λ r. r ≡ print_table items.now) }
{
    let one_row = Table::from_columns(
        alloc,
        Schema::from_items(Items::new(alloc)),
        1,
        Vec::new(alloc),
    );
    let printed = computed_rows(alloc, &one_row, items)?;
    Ok(printed)
}

/// `range`: one column, of the type of the first literal, with the numbers from it on, by the step, that are not above the second.
#[tactic(auto, using(crate::proofs::SourceSteps::range_steps))]
pub fn range_rows(
    alloc: Global,
    column: &KText,
    from: &Lit,
    to: &Lit,
    step: &Lit,
) -> Result<Table, AllocError>
    requires fits { IsTrue (range_fits from.now to.now step.now) }
    ensures rows { IfOk result (λ r. r ≡ range_table column.now from.now to.now step.now) }
{
    let columns = range_columns(alloc, column, from)?;
    let numbers = terms(
        alloc,
        from.kind,
        number_in(from),
        number_in(to),
        number_in(step),
    )?;
    let count = numbers.len();
    let mut vectors = Vec::new(alloc);
    vectors.push(numbers)?;
    let rows = Rows::from_columns(alloc, count, vectors);
    let made = Table::new(alloc, Schema::from_items(columns), rows)?;
    Ok(made)
}
