//! One pass over the rows of a piece, with a fold for each group.
ghost use Rattle.std.specs.Prelude.{◌≡◌, ◌<◌, ◌^◌, ◌++◌, ◌∷◌, [], ℤ, All, FitsSigned, IfOk, IfSome, List, OnOk, length, map, get_or, slice_set};
ghost use Rattle.std.specs.Int.{w64};
ghost use Rattle.std.specs.List.{range_with_len};
ghost use Rattle.kql_cells.specs.Seen.{seen};
ghost use Rattle.kql_cells.specs.declared.value.Value.{Value as Cell};
ghost use Rattle.kql_values.specs.Grids.{HaveLength, row_of};
ghost use Rattle.kql_scalar_fns.specs.Arguments.{AreWellFormed, argument};
ghost use Rattle.kql_meaning.specs.Values.{number_of};
ghost use Rattle.agg_folds.specs.States.{Kept, fold_of};
ghost use Rattle.agg_folds.specs.declared.call.FoldCall.{FoldCall};
ghost use Rattle.summarize_op.specs.Grouped.{AreFormed};
ghost use Rattle.summarize_op.specs.Passes.{folds_of};
ghost use Rattle.summarize_pieces.specs.Pieces.{ColumnsStored};

use agg_folds::{Fold, FoldCall};
use kql_cells::CellRef;
use kql_values::Vector;
use std::alloc::{AllocError, Global};

/// A fold for each group of what the arguments are at its rows.
#[tactic(auto, using(crate::proofs::PassSteps::pass_steps))]
pub(crate) fn fold_groups<'a>(
    alloc: Global,
    call: FoldCall,
    columns: &'a [Vector],
    numbers: &[usize],
    count: usize,
) -> Result<Vec<Fold<'a>>, AllocError>
    requires within { All (λ n. n < count) numbers.now }
    requires long { HaveLength (length numbers.now) columns.now }
    requires form { AreFormed columns.now }
    ensures folds { IfOk result (λ fs. fs.items ≡ folds_of call columns.now numbers.now count) }
    ensures stored { OnOk result (ColumnsStored (length numbers.now) columns.now) }
{
    let mut folds = new_folds(alloc, call, count)?;
    'rows: for i in 0..numbers.len() {
        let g = numbers[i];
        step_group(alloc, &mut folds, g, columns, i)?;
    }
    Ok(folds)
}

// A fold of no rows for each group.
#[tactic(auto, using(crate::proofs::PassSteps::new_steps))]
fn new_folds<'a>(alloc: Global, call: FoldCall, count: usize) -> Result<Vec<Fold<'a>>, AllocError>
    ensures none { IfOk result (λ fs. fs.items ≡ map (λ g. fold_of call []) (range_with_len 0 count)) }
{
    let mut folds = Vec::with_capacity(alloc, count)?;
    for g in 0..count {
        let fold = Fold::new(alloc, call);
        folds.push(fold)?;
    }
    Ok(folds)
}

// One row more for the fold of its group, by what the columns have at it.
#[tactic(auto, using(crate::proofs::PassSteps::row_steps))]
fn step_group<'a>(
    alloc: Global,
    folds: &mut Vec<Fold<'a>>,
    g: usize,
    columns: &'a [Vector],
    i: usize,
) -> Result<(), AllocError>
    requires group { g < length folds.old.items }
    requires room { (d : Kept) → (get_or folds.old.items g d).count < 2 ^ 63 }
    requires place { All (λ v. i < length v) columns.now }
    requires form { AreFormed columns.now }
    ensures row { (call : FoldCall) (rows : List (List Cell)) → get_or folds.old.items g (fold_of call rows) ≡ fold_of call rows → OnOk result (folds.new.items ≡ slice_set folds.old.items g (fold_of call (rows ++ row_of columns.now i ∷ []))) }
    ensures number { OnOk result ((n : ℤ) → number_of (argument (row_of columns.now i) 0) ≡ Some n → FitsSigned w64 n) }
{
    match columns {
        [] => step_at(folds, g, &[]),
        [a] => step_at(folds, g, &[a.cell(i)]),
        [a, b] => step_at(folds, g, &[a.cell(i), b.cell(i)]),
        _ => {
            let cells = cells_at(alloc, columns, i)?;
            step_at(folds, g, cells.as_slice())
        }
    }
}

// One row more for a fold.
fn step_at<'a>(folds: &mut Vec<Fold<'a>>, g: usize, cells: &[CellRef<'a>]) -> Result<(), AllocError>
    requires group { g < length folds.old.items }
    requires room { (d : Kept) → (get_or folds.old.items g d).count < 2 ^ 63 }
    requires form { AreWellFormed (map seen cells.now) }
    ensures row { (call : FoldCall) (rows : List (List Cell)) → get_or folds.old.items g (fold_of call rows) ≡ fold_of call rows → OnOk result (folds.new.items ≡ slice_set folds.old.items g (fold_of call (rows ++ map seen cells.now ∷ []))) }
    ensures number { (n : ℤ) → number_of (argument (map seen cells.now) 0) ≡ Some n → FitsSigned w64 n }
{
    let _number = first_number(cells);
    folds[g].step(cells)?;
    Ok(())
}

/// What vectors have at a place.
#[tactic(auto, using(crate::proofs::PassSteps::cell_steps))]
pub(crate) fn cells_at<'a>(
    alloc: Global,
    vectors: &'a [Vector],
    g: usize,
) -> Result<Vec<CellRef<'a>>, AllocError>
    requires within { All (λ v. g < length v) vectors.now }
    ensures cells { IfOk result (λ cs. map seen cs.items ≡ row_of vectors.now g) }
{
    let mut cells = Vec::with_capacity(alloc, vectors.len())?;
    for vector in vectors {
        cells.push(vector.cell(g))?;
    }
    Ok(cells)
}

// The number that the first argument is. It has 64 bits.
fn first_number(args: &[CellRef<'_>]) -> Option<i64>
    ensures value { result ≡ number_of (argument (map seen args.now) 0) }
    ensures fits { IfSome result (λ n. FitsSigned w64 n) }
{
    match number_of(first_argument(args)) {
        None => None,
        Some(n) => Some(n),
    }
}

#[tactic(auto, unfolding(kql_scalar_fns::specs::Arguments::argument))]
fn first_argument<'a>(args: &[CellRef<'a>]) -> CellRef<'a>
    ensures value { seen result ≡ argument (map seen args.now) 0 }
{
    if args.len() > 0 {
        args[0]
    } else {
        CellRef::Null
    }
}

#[tactic(auto, unfolding(kql_meaning::specs::Values::number_of))]
fn number_of(cell: CellRef<'_>) -> Option<i64>
    ensures { result ≡ number_of (seen cell.entry) }
{
    match cell {
        CellRef::Long(n) => Some(n),
        CellRef::Moment(n) => Some(n),
        CellRef::Span(n) => Some(n),
        _ => None,
    }
}
