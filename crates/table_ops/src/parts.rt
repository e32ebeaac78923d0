//! The values of items at all rows, and how many rows each row gives.
ghost use Rattle.std.specs.Prelude.{◌≡◌, ◌<◌, ◌++◌, length, map, replicate, All, IfOk, IsTrue, OnOk};
ghost use Rattle.std.specs.List.{list_all};
ghost use Rattle.kql_meaning.specs.FittingOperators.{expand_fits, expand_item_fits};
ghost use Rattle.kql_meaning.specs.Tables.{places_below};
ghost use Rattle.kql_values.specs.Grids.{HaveLength};
ghost use Rattle.table_ops.specs.Parts.{ArePartsOf, item_values, most_parts, times_below, values_down};

use crate::part::part_count;
use kql_bound::{Expand, ExpandItem};
use kql_cells::Places;
use kql_items::Items;
use kql_scalar::Located;
use kql_values::{Table, Vector};
use std::alloc::{AllocError, Global};

/// The values of each item, how many rows each row gives, and the row that each row of the answer is from.
#[derive(Drop)]
pub(crate) struct Parts {
    pub(crate) values: Items<Vector>,
    pub(crate) counts: Items<usize>,
    pub(crate) places: Places,
}

/// The parts of the items of a table.
#[tactic(auto, using(crate::proofs::CountFacts::part_facts))]
pub(crate) fn parts_of_items(alloc: Global, t: &Table, x: &Expand) -> Result<Parts, AllocError>
    requires fits { IsTrue (expand_fits x.now t.now.columns) }
    ensures parts { IfOk result (λ p. ArePartsOf x.now t.now p) }
{
    let values = values_of_items(alloc, t, x.items.as_slice())?;
    let counts = counts_given(alloc, values.as_slice(), t.len())?;
    let places = places_given(alloc, counts.as_slice())?;
    Ok(Parts {
        values,
        counts,
        places,
    })
}

#[tactic(auto, using(crate::proofs::ValueFacts::value_steps))]
fn values_of_items(
    alloc: Global,
    t: &Table,
    items: &[ExpandItem],
) -> Result<Items<Vector>, AllocError>
    requires fits { IsTrue (list_all (expand_item_fits t.now.columns) items.now) }
    ensures values { IfOk result (λ vs. vs ≡ item_values items.now t.now) }
{
    let mut vectors = Items::with_capacity(alloc, items.len())?;
    for item in items {
        let vector = values_of_item(alloc, t, item)?;
        vectors.push(vector)?;
    }
    Ok(vectors)
}

#[tactic(auto, using(crate::proofs::ValueFacts::value_facts))]
fn values_of_item(alloc: Global, t: &Table, item: &ExpandItem) -> Result<Vector, AllocError>
    requires fits { IsTrue (expand_item_fits t.now.columns item.now) }
    ensures values { IfOk result (λ v. v ≡ values_down item.now.expr t.now) }
{
    let located = Located::new(alloc, &item.expr, t.schema())?;
    located.column_of(alloc, t, 0, t.len())
}

// How many rows each of so many rows gives.
#[tactic(auto, using(crate::proofs::CountFacts::count_steps))]
fn counts_given(alloc: Global, columns: &[Vector], count: usize) -> Result<Items<usize>, AllocError>
    requires long { HaveLength count columns.now }
    ensures counts { IfOk result (λ ns. ns ≡ map (most_parts columns.now) (places_below count)) }
{
    let mut counts = Items::with_capacity(alloc, count)?;
    for i in 0..count {
        counts.push(most_parts(columns, i))?;
    }
    Ok(counts)
}

// The most parts that columns have at a row.
#[tactic(auto, using(crate::proofs::CountFacts::most_steps))]
fn most_parts(columns: &[Vector], i: usize) -> usize
    requires inside { All (λ vs. i < length vs) columns.now }
    ensures most { result ≡ most_parts columns.now i }
{
    let mut most = 0;
    for column in columns {
        most = part_count(column.cell(i)).max(most);
    }
    most
}

// Each row as often as it gives rows.
#[tactic(auto, using(crate::proofs::CountFacts::place_steps))]
fn places_given(alloc: Global, counts: &[usize]) -> Result<Places, AllocError>
    ensures places { IfOk result (λ ps. ps ≡ map (λ p. p.0) (times_below counts.now (length counts.now))) }
{
    let mut places = Items::with_capacity(alloc, counts.len())?;
    for i in 0..counts.len() {
        push_times(&mut places, i, counts[i])?;
    }
    Ok(places)
}

fn push_times(places: &mut Places, i: usize, count: usize) -> Result<(), AllocError>
    ensures added { OnOk result (places.new ≡ places.old ++ replicate count i) }
{
    for _k in 0..count {
        places.push(i)?;
    }
    Ok(())
}
