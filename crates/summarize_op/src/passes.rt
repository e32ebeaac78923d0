//! One pass over the rows, with a fold for each group.
ghost use Rattle.std.specs.Prelude.{◌≡◌, ◌<◌, ◌^◌, ◌++◌, ◌∷◌, [], All, IfOk, List, OnOk, length, map, get_or, slice_set};
ghost use Rattle.std.specs.List.{range_with_len};
ghost use Rattle.kql_cells.specs.Seen.{seen};
ghost use Rattle.kql_cells.specs.declared.value.Value.{Value as Cell};
ghost use Rattle.kql_values.specs.Grids.{HaveLength, row_of};
ghost use Rattle.kql_scalar_fns.specs.Arguments.{AreWellFormed};
ghost use Rattle.agg_folds.specs.States.{Kept, fold_of};
ghost use Rattle.agg_folds.specs.declared.call.FoldCall.{FoldCall};
ghost use Rattle.summarize_op.specs.Grouped.{AreFormed};
ghost use Rattle.summarize_op.specs.Passes.{folded_over, folds_of};

use crate::applied::cells_at;
use agg_folds::{Fold, FoldCall};
use kql_cells::{CellRef, Kind};
use kql_values::Vector;
use std::alloc::{AllocError, Global};

/// A fold for each group of what the arguments are at its rows.
#[tactic(auto, using(crate::proofs::PassSteps::pass_steps))]
pub(crate) fn fold_groups<'a>(
    alloc: Global,
    call: FoldCall,
    columns: &'a [Vector],
    numbers: &[usize],
    count: usize,
) -> Result<Vec<Fold<'a>>, AllocError>
    requires within { All (λ n. n < count) numbers.now }
    requires long { HaveLength (length numbers.now) columns.now }
    requires form { AreFormed columns.now }
    ensures folds { IfOk result (λ fs. fs.items ≡ folds_of call columns.now numbers.now count) }
{
    let mut folds = new_folds(alloc, call, count)?;
    'rows: for i in 0..numbers.len() {
        let g = numbers[i];
        step_group(alloc, &mut folds, g, columns, i)?;
    }
    Ok(folds)
}

// A fold of no rows for each group.
#[tactic(auto, using(crate::proofs::PassSteps::new_steps))]
fn new_folds<'a>(alloc: Global, call: FoldCall, count: usize) -> Result<Vec<Fold<'a>>, AllocError>
    ensures none { IfOk result (λ fs. fs.items ≡ map (λ g. fold_of call []) (range_with_len 0 count)) }
{
    let mut folds = Vec::with_capacity(alloc, count)?;
    for g in 0..count {
        let fold = Fold::new(alloc, call);
        folds.push(fold)?;
    }
    Ok(folds)
}

// One row more for the fold of its group, by what the columns have at it.
#[tactic(auto, using(crate::proofs::PassSteps::row_steps))]
fn step_group<'a>(
    alloc: Global,
    folds: &mut Vec<Fold<'a>>,
    g: usize,
    columns: &'a [Vector],
    i: usize,
) -> Result<(), AllocError>
    requires group { g < length folds.old.items }
    requires room { (d : Kept) → (get_or folds.old.items g d).count < 2 ^ 63 }
    requires place { All (λ v. i < length v) columns.now }
    requires form { AreFormed columns.now }
    ensures row { (call : FoldCall) (rows : List (List Cell)) → get_or folds.old.items g (fold_of call rows) ≡ fold_of call rows → OnOk result (folds.new.items ≡ slice_set folds.old.items g (fold_of call (rows ++ row_of columns.now i ∷ []))) }
{
    match columns {
        [] => step_at(folds, g, &[]),
        [a] => step_at(folds, g, &[a.cell(i)]),
        [a, b] => step_at(folds, g, &[a.cell(i), b.cell(i)]),
        _ => {
            let cells = cells_at(alloc, columns, i)?;
            step_at(folds, g, cells.as_slice())
        }
    }
}

// One row more for a fold.
fn step_at<'a>(folds: &mut Vec<Fold<'a>>, g: usize, cells: &[CellRef<'a>]) -> Result<(), AllocError>
    requires group { g < length folds.old.items }
    requires room { (d : Kept) → (get_or folds.old.items g d).count < 2 ^ 63 }
    requires form { AreWellFormed (map seen cells.now) }
    ensures row { (call : FoldCall) (rows : List (List Cell)) → get_or folds.old.items g (fold_of call rows) ≡ fold_of call rows → OnOk result (folds.new.items ≡ slice_set folds.old.items g (fold_of call (rows ++ map seen cells.now ∷ []))) }
{
    folds[g].step(cells)?;
    Ok(())
}

/// The values of folds, stored as values of a type.
#[tactic(auto, using(crate::proofs::PassSteps::finish_steps))]
pub(crate) fn finish_all(
    alloc: Global,
    kind: Kind,
    folds: &[Fold<'_>],
    _call: FoldCall,
    _columns: &[Vector],
    _numbers: &[usize],
) -> Result<Vector, AllocError>
    requires { folds.now ≡ folds_of _call _columns.now _numbers.now (length folds.now) }
    ensures values { IfOk result (λ v. v ≡ folded_over _call _columns.now _numbers.now (length folds.now)) }
{
    let mut made = Vector::new(alloc, kind);
    'groups: for fold in folds {
        let value = fold.finish(alloc)?;
        made.push(value)?;
    }
    Ok(made)
}
