//! A table in other columns, some of which it may lack.
ghost use Rattle.std.specs.Prelude.{◌≡◌, map, IfOk, IsTrue};
ghost use Rattle.kql_cells.specs.Named.{HasDistinctNames, column_name};
ghost use Rattle.kql_meaning.specs.Union.{rows_in_columns};
ghost use Rattle.table_ops.specs.InColumns.{are_of_type_in, column_in};

use kql_cells::{Column, Schema, copy_columns};
use kql_values::{Rows, Table, Vector};
use std::alloc::{AllocError, Global};

/// The rows of a table in these columns: a copy of each column that it has, and absent cells in each that it lacks.
#[tactic(auto, using(crate::proofs::InColumnFacts::in_column_facts))]
pub(crate) fn in_columns(alloc: Global, t: &Table, columns: &[Column]) -> Result<Table, AllocError>
    requires typed { IsTrue (are_of_type_in columns.now t.now.columns) }
    requires names { HasDistinctNames column_name columns.now }
    ensures table { IfOk result (λ r. r ≡ record { columns = columns.now; lines = rows_in_columns columns.now t.now }) }
{
    let _fits = t.schema();
    let named = copy_columns(alloc, columns)?;
    let vectors = vectors_in(alloc, t, columns)?;
    let rows = Rows::from_columns(alloc, t.len(), vectors);
    let made = Table::new(alloc, Schema::from_items(named), rows)?;
    Ok(made)
}

fn vectors_in(alloc: Global, t: &Table, columns: &[Column]) -> Result<Vec<Vector>, AllocError>
    ensures cells { IfOk result (λ vs. vs.items ≡ map (column_in t.now) columns.now) }
{
    let mut vectors = Vec::new(alloc);
    for column in columns {
        let vector = vector_in(alloc, t, column)?;
        vectors.push(vector)?;
    }
    Ok(vectors)
}

#[tactic(auto, using(crate::proofs::InColumnFacts::column_steps))]
fn vector_in(alloc: Global, t: &Table, column: &Column) -> Result<Vector, AllocError>
    ensures cells { IfOk result (λ v. v ≡ column_in t.now column.now) }
{
    match t.schema().find(column.name.as_str()) {
        Some(place) => t.column(place).copy(alloc),
        None => Vector::repeated(alloc, column.kind, column.kind.absent(), t.len()),
    }
}
