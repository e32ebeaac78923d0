//! The right columns that a join shows.
ghost use Rattle.std.specs.Prelude.{◌≡◌, ◌<◌, All, IfOk, IfSome, Some, length, map};
ghost use Rattle.kql_cells.specs.Named.{HasDistinctNames, column_name};
ghost use Rattle.kql_meaning.specs.Join.{both_columns};
ghost use Rattle.kql_values.specs.Moves.{IsWithin, beside, column_of};
ghost use Rattle.join_op.specs.Shown.{is_right_key, is_shown, shown_at, shown_cell, shown_cells};

use crate::rows::places_there;
use kql_bound::{JoinPlan, OnPair};
use kql_cells::{Column, Places, Schema};
use kql_columns::both_columns;
use kql_values::{Rows, Table, Vector};
use std::alloc::{AllocError, Global};

/// The rows of a left table, each followed by what is shown of the right row at its place, or by absent cells where a place is none.
#[tactic(auto, using(crate::proofs::ShownSteps::table_steps))]
pub(crate) fn with_right(
    alloc: Global,
    left: Table,
    right: &Table,
    j: &JoinPlan,
    places: &[Option<usize>],
) -> Result<Table, AllocError>
    requires count { length left.lines ≡ length places.now }
    requires within { All (IsWithin (length right.now.lines)) places.now }
    requires names { HasDistinctNames column_name (both_columns j.now left.columns right.now.columns) }
    ensures rows { IfOk result (λ t. t ≡ record { columns = both_columns j.now left.columns right.now.columns; lines = beside left.lines (map (shown_at j.now right.now) places.now) }) }
{
    let columns = both_columns(alloc, j, left.schema().columns(), right.schema().columns())?;
    let mut shown = shown_vectors(alloc, right, j, places)?;
    let (_, count, mut vectors) = left.into_columns();
    vectors.append(&mut shown)?;
    let rows = Rows::from_columns(alloc, count, vectors);
    let made = Table::new(alloc, Schema::from_items(columns), rows)?;
    Ok(made)
}

// The columns that are shown, at these places.
#[tactic(auto, using(crate::proofs::ShownSteps::vector_steps))]
fn shown_vectors(
    alloc: Global,
    right: &Table,
    j: &JoinPlan,
    places: &[Option<usize>],
) -> Result<Vec<Vector>, AllocError>
    requires within { All (IsWithin (length right.now.lines)) places.now }
    ensures cells { IfOk result (λ vs. vs.items ≡ shown_cells j.now right.now places.now right.now.columns) }
{
    let columns = right.schema().columns();
    let found = places_there(alloc, places)?;
    let there = &found;
    let mut shown = Vec::new(alloc);
    for p in 0..columns.len() {
        if is_shown(j, &columns[p]) {
            let vector = shown_vector(alloc, right, p, places, there)?;
            shown.push(vector)?;
        }
    }
    Ok(shown)
}

// A column at these places; where none of them is none, they are given once more without that case.
#[tactic(auto, using(crate::proofs::ShownSteps::there_steps))]
fn shown_vector(
    alloc: Global,
    right: &Table,
    p: usize,
    places: &[Option<usize>],
    there: &Option<Places>,
) -> Result<Vector, AllocError>
    requires column { p < length right.now.columns }
    requires within { All (IsWithin (length right.now.lines)) places.now }
    requires there { IfSome there.now (λ ps. places.now ≡ map (λ i. Some i) ps) }
    ensures cells { IfOk result (λ v. v ≡ map (shown_cell right.now (column_of right.now.columns p)) places.now) }
{
    match there {
        Some(rows) => {
            let vector = vector_at(alloc, right, p, rows.as_slice())?;
            Ok(vector)
        }
        None => {
            let vector = vector_or_absent(alloc, right, p, places)?;
            Ok(vector)
        }
    }
}

// A column at these places.
#[tactic(auto, using(crate::proofs::ShownSteps::cell_steps))]
fn vector_at(alloc: Global, right: &Table, p: usize, rows: &[usize]) -> Result<Vector, AllocError>
    requires column { p < length right.now.columns }
    requires within { All (λ i. i < length right.now.lines) rows.now }
    ensures cells { IfOk result (λ v. v ≡ map (shown_cell right.now (column_of right.now.columns p)) (map (λ i. Some i) rows.now)) }
{
    let _known = right.schema().columns();
    let vector = right.column(p).gather(alloc, rows)?;
    Ok(vector)
}

// A column at these places, and absent cells where a place is none.
#[tactic(auto, using(crate::proofs::ShownSteps::cell_steps))]
fn vector_or_absent(
    alloc: Global,
    right: &Table,
    p: usize,
    places: &[Option<usize>],
) -> Result<Vector, AllocError>
    requires column { p < length right.now.columns }
    requires within { All (IsWithin (length right.now.lines)) places.now }
    ensures cells { IfOk result (λ v. v ≡ map (shown_cell right.now (column_of right.now.columns p)) places.now) }
{
    let absent = right.schema().columns()[p].kind.absent();
    let vector = right.column(p).gather_or_absent(alloc, places, absent)?;
    Ok(vector)
}

#[tactic(auto, unfolding(crate::specs::Shown::is_shown))]
fn is_shown(j: &JoinPlan, column: &Column) -> bool
    ensures shown { result ≡ is_shown j.now column.now }
{
    !(j.lookup && is_right_key(j.on.as_slice(), column.name.as_str()))
}

#[tactic(auto, unfolding(crate::specs::Shown::is_right_key, kql_meaning::specs::Tables::is_name_among))]
fn is_right_key(on: &[OnPair], name: &str) -> bool
    ensures key { result ≡ is_right_key on.now name.now }
{
    let mut left = on;
    'pairs: while let Some((pair, more)) = left.split_first() {
        if pair.right.as_str() == name {
            return true;
        }
        left = more;
    }
    false
}
