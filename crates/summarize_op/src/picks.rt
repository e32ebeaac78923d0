//! Columns at one row of each group: the further result columns of `arg_max` and `arg_min`, and those of `take_any`.
ghost use Rattle.std.specs.Prelude.{◌≡◌, ◌<◌, true, All, IfOk, IsTrue, List, map, length, slice_get};
ghost use Rattle.std.specs.List.{list_all};
ghost use Rattle.kql_values.specs.Moves.{IsWithin};
ghost use Rattle.kql_bound.specs.declared.expr.BExpr.TheVariants.{Column as column_named};
ghost use Rattle.kql_meaning.specs.FittingExpressions.{is_plain_column};
ghost use Rattle.kql_meaning.specs.Tables.{has_column};
ghost use Rattle.agg_folds.specs.declared.call.FoldCall.{FoldCall};
ghost use Rattle.summarize_op.specs.Passes.{folds_of};
ghost use Rattle.summarize_op.specs.Picks.{all_picked, chosen_over, picked, picked_rows};

use agg_folds::{Fold, FoldCall};
use kql_bound::BExpr;
use kql_items::Items;
use kql_keys::places_by_number;
use kql_values::{Table, Vector};
use std::alloc::{AllocError, Global};

/// The row of each group at a place among its rows, where there is such a row.
#[tactic(auto, using(crate::proofs::PickSteps::row_steps))]
pub(crate) fn picked_rows(
    alloc: Global,
    numbers: &[usize],
    count: usize,
    places: &[usize],
) -> Result<Vec<Option<usize>>, AllocError>
    requires within { All (λ n. n < count) numbers.now }
    requires places { length places.now ≡ count }
    ensures rows { IfOk result (λ rs. rs.items ≡ picked_rows numbers.now count places.now) }
{
    let lists = places_by_number(alloc, numbers, count)?;
    let mut rows = Vec::with_capacity(alloc, count)?;
    'groups: for g in 0..count {
        let row = place_in(lists.get(g), places[g]);
        rows.push(row)?;
    }
    Ok(rows)
}

// The place at a place, where there is one.
fn place_in(places: &[usize], at: usize) -> Option<usize>
    ensures place { result ≡ slice_get places.now at }
{
    places.get(at).copied()
}

/// The place that each fold chose among the rows of its group.
#[tactic(auto, using(crate::proofs::PickSteps::chosen_steps))]
pub(crate) fn chosen_places(
    alloc: Global,
    folds: &[Fold<'_>],
    _call: FoldCall,
    _columns: &[Vector],
    _numbers: &[usize],
) -> Result<Items<usize>, AllocError>
    requires { folds.now ≡ folds_of _call _columns.now _numbers.now (length folds.now) }
    ensures places { IfOk result (λ ps. ps ≡ chosen_over _call _columns.now _numbers.now (length folds.now)) }
{
    let mut places = Items::with_capacity(alloc, folds.len())?;
    'groups: for fold in folds {
        let place = fold.chosen();
        places.push(place)?;
    }
    Ok(places)
}

/// Columns of the table at these rows, absent where a row is none.
#[tactic(auto, using(crate::proofs::PickSteps::column_steps))]
pub(crate) fn picked_columns(
    alloc: Global,
    t: &Table,
    columns: &[BExpr],
    rows: &[Option<usize>],
) -> Result<Vec<Vector>, AllocError>
    requires columns { IsTrue (list_all (is_plain_column t.now.columns) columns.now) }
    requires within { All (IsWithin (length t.now.lines)) rows.now }
    ensures values { IfOk result (λ vs. vs.items ≡ all_picked columns.now t.now rows.now) }
{
    let mut vectors = Vec::with_capacity(alloc, columns.len())?;
    'columns: for column in columns {
        let vector = picked_column(alloc, t, column, rows)?;
        vectors.push(vector)?;
    }
    Ok(vectors)
}

/// A column of the table at these rows, absent where a row is none.
#[tactic(auto, using(crate::proofs::PickSteps::one_steps))]
pub(crate) fn picked_column(
    alloc: Global,
    t: &Table,
    column: &BExpr,
    rows: &[Option<usize>],
) -> Result<Vector, AllocError>
    requires column { IsTrue (is_plain_column t.now.columns column.now) }
    requires within { All (IsWithin (length t.now.lines)) rows.now }
    ensures values { IfOk result (λ v. v ≡ picked column.now t.now rows.now) }
{
    match column {
        BExpr::Column(name) => named_column(alloc, t, name.as_str(), rows),
        _ => unreachable!(),
    }
}

#[tactic(auto, using(crate::proofs::PickSteps::named_steps))]
fn named_column(
    alloc: Global,
    t: &Table,
    name: &str,
    rows: &[Option<usize>],
) -> Result<Vector, AllocError>
    requires there { IsTrue (has_column name.now t.now.columns) }
    requires within { All (IsWithin (length t.now.lines)) rows.now }
    ensures values { IfOk result (λ v. v ≡ picked (column_named name.now) t.now rows.now) }
{
    match t.schema().find(name) {
        Some(place) => {
            let absent = t.schema().columns()[place].kind.absent();
            t.column(place).gather_or_absent(alloc, rows, absent)
        }
        None => unreachable!(),
    }
}
