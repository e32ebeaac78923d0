//! The parts of a column, row after row.
ghost use Rattle.std.specs.Prelude.{◌≡◌, ◌++◌, length, map, All, IfOk, OnOk};
ghost use Rattle.kql_cells.specs.Seen.{seen};
ghost use Rattle.kql_cells.specs.Values.{IsWellFormed};
ghost use Rattle.kql_meaning.specs.MvExpand.{part_as};
ghost use Rattle.kql_meaning.specs.Tables.{places_below};
ghost use Rattle.table_ops.specs.Parts.{part_or_null, parts_below};

use crate::part::push_part;
use kql_cells::{CellRef, Kind};
use kql_values::Vector;
use std::alloc::{AllocError, Global};

/// The parts of each value, as many as is counted for it, converted to a type; behind its last part null, converted.
#[tactic(auto, using(crate::proofs::DownFacts::down_steps))]
pub(crate) fn parts_down(
    alloc: Global,
    array: bool,
    to: Kind,
    values: &Vector,
    counts: &[usize],
) -> Result<Vector, AllocError>
    requires count { length counts.now ≡ length values.now }
    requires form { All IsWellFormed values.now }
    ensures parts { IfOk result (λ v. v ≡ parts_below array to values.now counts.now (length counts.now)) }
{
    let mut out = Vector::new(alloc, to);
    for i in 0..counts.len() {
        push_parts(alloc, &mut out, array, to, values.cell(i), counts[i])?;
    }
    Ok(out)
}

#[tactic(auto, using(crate::proofs::DownFacts::part_steps))]
fn push_parts(
    alloc: Global,
    out: &mut Vector,
    array: bool,
    to: Kind,
    cell: CellRef<'_>,
    count: usize,
) -> Result<(), AllocError>
    requires form { IsWellFormed (seen cell) }
    ensures added { OnOk result (out.new ≡ out.old ++ map (λ k. part_as to (part_or_null array (seen cell.entry) k)) (places_below count)) }
{
    for k in 0..count {
        push_part(alloc, out, array, to, cell, k)?;
    }
    Ok(())
}
