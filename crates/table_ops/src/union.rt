//! `union`.
ghost use Rattle.std.specs.Prelude.{◌≡◌, ◌∷◌, IfOk, IsTrue};
ghost use Rattle.std.specs.List.{flat_map, list_all};
ghost use Rattle.kql_cells.specs.Named.{HasDistinctNames, column_name};
ghost use Rattle.kql_cells.specs.Table.{Grid};
ghost use Rattle.kql_meaning.specs.FittingOperators.{union_fits};
ghost use Rattle.kql_meaning.specs.Union.{rows_in_columns, union_columns, union_table};
ghost use Rattle.table_ops.specs.InColumns.{are_of_type_in, columns_of, tables_lent};

use crate::in_columns::in_columns;
use kql_cells::{Column, copy_columns};
use kql_columns::union_columns;
use kql_items::Items;
use kql_values::Table;
use std::alloc::{AllocError, Global};

/// `union`: the rows of the first table and then those of each other, in order. Where `inner` is true the columns are those that all
/// tables have, in the order of the first; else every column stands in the order in which it appears first, and where a table
/// lacks it there is the empty text in a string column, and null in any other.
///
/// The columns are copied whole.
#[tactic(auto, using(crate::proofs::UnionFacts::union_facts))]
pub fn union_tables(
    alloc: Global,
    inner: bool,
    first: &Table,
    others: &[&Table],
) -> Result<Table, AllocError>
    requires fits { IsTrue (union_fits (union_columns inner first.now.columns (columns_of (tables_lent others.now))) (first.now.columns ∷ columns_of (tables_lent others.now))) }
    requires names { HasDistinctNames column_name (union_columns inner first.now.columns (columns_of (tables_lent others.now))) }
    ensures table { IfOk result (λ r. r ≡ union_table inner first.now (tables_lent others.now)) }
{
    let schemas = columns_of(alloc, others)?;
    let columns = union_columns(alloc, inner, first.schema().columns(), schemas.as_slice())?;
    tables_in(alloc, columns.as_slice(), first, others)
}

// The rows of tables in these columns, one table after another.
#[tactic(auto, using(crate::proofs::UnionFacts::table_steps))]
fn tables_in(
    alloc: Global,
    columns: &[Column],
    first: &Table,
    others: &[&Table],
) -> Result<Table, AllocError>
    requires names { HasDistinctNames column_name columns.now }
    requires first { IsTrue (are_of_type_in columns.now first.now.columns) }
    requires others { IsTrue (list_all (λ (t : Grid). are_of_type_in columns.now t.columns) (tables_lent others.now)) }
    ensures table { IfOk result (λ r. r ≡ record { columns = columns.now; lines = flat_map (rows_in_columns columns.now) (first.now ∷ tables_lent others.now) }) }
{
    let mut made = in_columns(alloc, first, columns)?;
    'tables: for other in others {
        let more = in_columns(alloc, *other, columns)?;
        made.append(more)?;
    }
    Ok(made)
}

// The columns of each table.
#[tactic(auto, unfolding(crate::specs::InColumns::columns_of))]
fn columns_of(alloc: Global, tables: &[&Table]) -> Result<Items<Items<Column>>, AllocError>
    ensures columns { IfOk result (λ cs. cs ≡ columns_of (tables_lent tables.now)) }
{
    let mut all = Items::with_capacity(alloc, tables.len())?;
    for table in tables {
        let columns = copy_columns(alloc, table.schema().columns())?;
        all.push(columns)?;
    }
    Ok(all)
}
