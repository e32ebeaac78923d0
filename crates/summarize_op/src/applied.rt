//! Functions of the values that columns have at each place.
ghost use Rattle.std.specs.Prelude.{◌≡◌, ◌<◌, All, IfOk, length, map};
ghost use Rattle.kql_cells.specs.Seen.{seen};
ghost use Rattle.kql_values.specs.Grids.{HaveLength, row_of};
ghost use Rattle.kql_scalar_fns.specs.Arguments.{AreWellFormed};
ghost use Rattle.summarize_op.specs.Grouped.{AreFormed, applied_over, applied_to_both};

use kql_cells::{CellRef, Kind};
use kql_scalar_fns::{Func, apply_cells};
use kql_values::Vector;
use std::alloc::{AllocError, Global};

/// What a function gives for the values at each place of some vectors.
#[tactic(auto, using(crate::proofs::AppliedSteps::applied_steps))]
pub(crate) fn apply_over(
    alloc: Global,
    f: Func,
    kind: Kind,
    vectors: &[Vector],
    count: usize,
) -> Result<Vector, AllocError>
    requires long { HaveLength count vectors.now }
    requires form { AreFormed vectors.now }
    ensures values { IfOk result (λ v. v ≡ applied_over f vectors.now count) }
    ensures form { IfOk result AreWellFormed }
{
    let mut made = Vector::new(alloc, kind);
    for g in 0..count {
        let cells = cells_at(alloc, vectors, g)?;
        let value = apply_cells(alloc, f, cells.as_slice())?;
        made.push(value)?;
    }
    Ok(made)
}

/// What vectors have at a place.
#[tactic(auto, using(crate::proofs::AppliedSteps::cell_steps))]
pub(crate) fn cells_at<'a>(
    alloc: Global,
    vectors: &'a [Vector],
    g: usize,
) -> Result<Vec<CellRef<'a>>, AllocError>
    requires within { All (λ v. g < length v) vectors.now }
    ensures cells { IfOk result (λ cs. map seen cs.items ≡ row_of vectors.now g) }
{
    let mut cells = Vec::with_capacity(alloc, vectors.len())?;
    for vector in vectors {
        cells.push(vector.cell(g))?;
    }
    Ok(cells)
}

/// What a function gives for the values at each place of two vectors.
#[tactic(auto, using(crate::proofs::AppliedSteps::both_steps))]
pub(crate) fn apply_to_both(
    alloc: Global,
    f: Func,
    kind: Kind,
    left: &Vector,
    right: &Vector,
    count: usize,
) -> Result<Vector, AllocError>
    requires left { length left.now ≡ count }
    requires right { length right.now ≡ count }
    requires left_form { AreWellFormed left.now }
    requires right_form { AreWellFormed right.now }
    ensures values { IfOk result (λ v. v ≡ applied_to_both f left.now right.now count) }
    ensures form { IfOk result AreWellFormed }
{
    let mut made = Vector::new(alloc, kind);
    for g in 0..count {
        let a = left.cell(g);
        let b = right.cell(g);
        let value = apply_cells(alloc, f, &[a, b])?;
        made.push(value)?;
    }
    Ok(made)
}
