//! Functions of columns, row by row.
ghost use Rattle.std.specs.Prelude.{◌≡◌, ◌<◌, ◌∷◌, [], IfOk, map};
ghost use Rattle.kql_cells.specs.Seen.{seen};
ghost use Rattle.kql_cells.specs.Values.{IsWellFormed};
ghost use Rattle.kql_scalar_fns.specs.Applied.{applied};
ghost use Rattle.kql_scalar_fns.specs.Arguments.{AreWellFormed};
ghost use Rattle.kql_values.specs.Grids.{row_of};
ghost use Rattle.window_ops.specs.Columns.{AreColumns, applied_down};

use kql_cells::{CellRef, Kind, Value};
use kql_functions::Func;
use kql_scalar_fns::apply_cells;
use kql_values::Vector;
use std::alloc::{AllocError, Global};

/// What a function gives at each row for the values of columns there, stored as values of a type.
#[tactic(auto, using(crate::proofs::AppliedSteps::loop_steps))]
pub(crate) fn applied_rows(
    alloc: Global,
    f: Func,
    kind: Kind,
    args: &[Vector],
    count: usize,
) -> Result<Vector, AllocError>
    requires columns { AreColumns count args.now }
    ensures values { IfOk result (λ v. v ≡ applied_down f count args.now) }
    ensures form { IfOk result AreWellFormed }
{
    let mut values = Vector::new(alloc, kind);
    'rows: for i in 0..count {
        let value = applied_at(alloc, f, args, i, count)?;
        values.push(value)?;
    }
    Ok(values)
}

// What a function gives at a row.
#[tactic(auto, using(crate::proofs::AppliedSteps::row_steps))]
fn applied_at(
    alloc: Global,
    f: Func,
    args: &[Vector],
    i: usize,
    _count: usize,
) -> Result<Value, AllocError>
    requires columns { AreColumns _count args.now }
    requires row { i < _count }
    ensures value { IfOk result (λ v. v ≡ applied f (row_of args.now i)) }
    ensures form { IfOk result IsWellFormed }
{
    match args {
        [a] => apply_cells(alloc, f, &[a.cell(i)]),
        [a, b] => apply_cells(alloc, f, &[a.cell(i), b.cell(i)]),
        [a, b, c] => apply_cells(alloc, f, &[a.cell(i), b.cell(i), c.cell(i)]),
        _ => {
            let cells = cells_at(alloc, args, i, _count)?;
            apply_cells(alloc, f, cells.as_slice())
        }
    }
}

// The cells of a row.
#[tactic(auto, using(crate::proofs::AppliedSteps::cell_steps))]
fn cells_at<'a>(
    alloc: Global,
    columns: &'a [Vector],
    i: usize,
    _count: usize,
) -> Result<Vec<CellRef<'a>>, AllocError>
    requires columns { AreColumns _count columns.now }
    requires row { i < _count }
    ensures cells { IfOk result (λ v. map seen v.items ≡ row_of columns.now i) }
{
    let mut cells = Vec::with_capacity(alloc, columns.len())?;
    'columns: for column in columns {
        cells.push(column.cell(i))?;
    }
    Ok(cells)
}

/// Two columns.
pub(crate) fn pair(alloc: Global, a: Vector, b: Vector) -> Result<Vec<Vector>, AllocError>
    ensures pair { IfOk result (λ v. v.items ≡ a ∷ b ∷ []) }
{
    let mut both = Vec::with_capacity(alloc, 2)?;
    both.push(a)?;
    both.push(b)?;
    Ok(both)
}
