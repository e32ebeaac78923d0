//! `mv-expand`.
ghost use Rattle.std.specs.Prelude.{◌≡◌, ◌<◌, bytes_eq, length, map, IfOk, IsTrue};
ghost use Rattle.std.specs.List.{position};
ghost use Rattle.kql_bound.specs.declared.parts.ExpandItem.{ExpandItem};
ghost use Rattle.kql_cells.specs.Named.{HasDistinctNames, column_name};
ghost use Rattle.kql_meaning.specs.FittingOperators.{expand_fits};
ghost use Rattle.kql_meaning.specs.MvExpand.{expand_columns, expand_table, new_items};
ghost use Rattle.kql_values.specs.Moves.{column_of};
ghost use Rattle.table_ops.specs.Parts.{ArePartsOf, expanded_cells, input_cells, item_cells};

use crate::down::parts_down;
use crate::parts::{Parts, parts_of_items};
use kql_bound::{Expand, ExpandItem};
use kql_cells::Schema;
use kql_columns::{expand_columns, has_column};
use kql_items::Items;
use kql_values::{Rows, Table, Vector};
use std::alloc::{AllocError, Global};

/// `mv-expand`: each row as often as the longest list of parts that its items have is long, with one part of each item, or null
/// behind its last, converted to the item's type. An input column of an item's name is replaced where it stands, and the other
/// items' columns are added at the end.
#[tactic(auto, using(crate::proofs::ExpandFacts::expand_facts))]
pub fn expand_rows(alloc: Global, t: &Table, x: &Expand) -> Result<Table, AllocError>
    requires fits { IsTrue (expand_fits x.now t.now.columns) }
    requires names { HasDistinctNames column_name (expand_columns x.now t.now.columns) }
    ensures table { IfOk result (λ r. r ≡ expand_table x.now t.now) }
{
    let columns = expand_columns(alloc, x, t.schema().columns())?;
    let parts = parts_of_items(alloc, t, x)?;
    let vectors = expanded_vectors(alloc, t, x, &parts)?;
    let rows = Rows::from_columns(alloc, parts.places.len(), vectors.into_vec());
    let made = Table::new(alloc, Schema::from_items(columns), rows)?;
    Ok(made)
}

#[tactic(auto, using(crate::proofs::ExpandFacts::vector_facts))]
fn expanded_vectors(
    alloc: Global,
    t: &Table,
    x: &Expand,
    parts: &Parts,
) -> Result<Items<Vector>, AllocError>
    requires fits { IsTrue (expand_fits x.now t.now.columns) }
    requires parts { ArePartsOf x.now t.now parts.now }
    ensures cells { IfOk result (λ vs. vs ≡ expanded_cells x.now t.now) }
{
    let mut vectors = input_vectors(alloc, t, x, parts)?;
    let added = new_vectors(alloc, t, x, parts)?;
    vectors.append(added)?;
    Ok(vectors)
}

// The input columns, each replaced where an item has its name.
#[tactic(auto, using(crate::proofs::ExpandFacts::input_steps))]
fn input_vectors(
    alloc: Global,
    t: &Table,
    x: &Expand,
    parts: &Parts,
) -> Result<Items<Vector>, AllocError>
    requires fits { IsTrue (expand_fits x.now t.now.columns) }
    requires parts { ArePartsOf x.now t.now parts.now }
    ensures cells { IfOk result (λ vs. vs ≡ map (input_cells x.now t.now) t.now.columns) }
{
    let mut vectors = Items::new(alloc);
    for j in 0..t.schema().len() {
        let vector = input_vector(alloc, t, x, parts, j)?;
        vectors.push(vector)?;
    }
    Ok(vectors)
}

#[tactic(auto, using(crate::proofs::ExpandFacts::column_steps))]
fn input_vector(
    alloc: Global,
    t: &Table,
    x: &Expand,
    parts: &Parts,
    j: usize,
) -> Result<Vector, AllocError>
    requires column { j < length t.now.columns }
    requires fits { IsTrue (expand_fits x.now t.now.columns) }
    requires parts { ArePartsOf x.now t.now parts.now }
    ensures cells { IfOk result (λ v. v ≡ input_cells x.now t.now (column_of t.now.columns j)) }
{
    let column = &t.schema().columns()[j];
    match item_place(x.items.as_slice(), column.name.as_str()) {
        Some(at) => {
            let values = &parts.values.as_slice()[at];
            let item = &x.items.as_slice()[at];
            parts_down(alloc, x.array, item.to, values, parts.counts.as_slice())
        }
        None => t.column(j).gather(alloc, parts.places.as_slice()),
    }
}

// The place of the item of a name.
fn item_place(items: &[ExpandItem], name: &str) -> Option<usize>
    ensures place { result ≡ position (λ (item : ExpandItem). bytes_eq item.name name.now) items.now }
{
    items.iter().position(|item| item.name.as_str() == name)
}

// The columns of the items whose names no input column has.
#[tactic(auto, using(crate::proofs::ExpandFacts::new_steps))]
fn new_vectors(
    alloc: Global,
    t: &Table,
    x: &Expand,
    parts: &Parts,
) -> Result<Items<Vector>, AllocError>
    requires fits { IsTrue (expand_fits x.now t.now.columns) }
    requires parts { ArePartsOf x.now t.now parts.now }
    ensures cells { IfOk result (λ vs. vs ≡ map (item_cells x.now t.now) (new_items x.now.items t.now.columns)) }
{
    let mut vectors = Items::new(alloc);
    'items: for at in 0..x.items.len() {
        let item = &x.items.as_slice()[at];
        if !has_column(item.name.as_str(), t.schema().columns()) {
            let values = &parts.values.as_slice()[at];
            let vector = parts_down(alloc, x.array, item.to, values, parts.counts.as_slice())?;
            vectors.push(vector)?;
        }
    }
    Ok(vectors)
}
