//! The arrays of the items.
ghost use Rattle.std.specs.Prelude.{◌≡◌, ◌<◌, All, IfOk, length, map};
ghost use Rattle.kql_cells.specs.Seen.{seen};
ghost use Rattle.kql_cells.specs.Values.{IsWellFormed};
ghost use Rattle.kql_scalar_fns.specs.Arguments.{AreWellFormed};
ghost use Rattle.kql_scalar_fns.specs.Dynamic.{element};
ghost use Rattle.kql_values.specs.Grids.{HaveLength};
ghost use Rattle.series_op.specs.Arrays.{AreForms, all_arrays, arrays_over, parts_over};

use crate::numbers::element;
use crate::slots::slots_of;
use kql_bound::SeriesItem;
use kql_cells::{CellRef, Dyn, DynList, Kind, Value};
use kql_items::Items;
use kql_keys::PlaceLists;
use kql_values::Vector;
use std::alloc::{AllocError, Global};

/// The arrays of the items, one vector for each item, which has an array for each group.
#[tactic(auto, using(crate::proofs::ArraySteps::all_steps))]
pub(crate) fn item_arrays(
    alloc: Global,
    columns: &[Vector],
    items: &[SeriesItem],
    groups: &PlaceLists,
    places: &[Option<usize>],
    count: usize,
) -> Result<Vec<Vector>, AllocError>
    requires many { length columns.now ≡ length items.now }
    requires long { HaveLength (length places.now) columns.now }
    requires rows { All (λ rs. All (λ r. r < length places.now) rs) groups.now }
    requires form { AreForms columns.now items.now }
    ensures arrays { IfOk result (λ vs. vs.items ≡ all_arrays columns.now items.now groups.now places.now count) }
{
    let mut vectors = Vec::with_capacity(alloc, items.len())?;
    'items: for i in 0..items.len() {
        let column = &columns[i];
        let default = items[i].default.value.as_cell();
        let vector = arrays(alloc, column, default, groups, places, count)?;
        vectors.push(vector)?;
    }
    Ok(vectors)
}

// The arrays of an item, one for each group.
#[tactic(auto, using(crate::proofs::ArraySteps::group_steps))]
fn arrays(
    alloc: Global,
    column: &Vector,
    default: CellRef<'_>,
    groups: &PlaceLists,
    places: &[Option<usize>],
    count: usize,
) -> Result<Vector, AllocError>
    requires long { length column.now ≡ length places.now }
    requires rows { All (λ rs. All (λ r. r < length places.now) rs) groups.now }
    requires form { AreWellFormed column.now }
    requires default { IsWellFormed (seen default) }
    ensures arrays { IfOk result (λ v. v ≡ arrays_over column.now (seen default.entry) groups.now places.now count) }
{
    let mut made = Vector::new(alloc, Kind::Dynamic);
    'groups: for g in 0..groups.len() {
        let rows = groups.get(g);
        let parts = array_parts(alloc, column, default, rows, places, count)?;
        made.push(Value::Dynamic(Dyn::Array(parts)))?;
    }
    Ok(made)
}

// The elements of the array of a group.
#[tactic(auto, using(crate::proofs::ArraySteps::part_steps))]
fn array_parts(
    alloc: Global,
    column: &Vector,
    default: CellRef<'_>,
    rows: &[usize],
    places: &[Option<usize>],
    count: usize,
) -> Result<DynList, AllocError>
    requires long { length column.now ≡ length places.now }
    requires rows { All (λ r. r < length places.now) rows.now }
    requires form { AreWellFormed column.now }
    requires default { IsWellFormed (seen default) }
    ensures parts { IfOk result (λ ds. ds ≡ parts_over column.now (seen default.entry) places.now count rows.now) }
{
    let slots = slots_of(alloc, count, places, rows)?;
    let cells = column.gather_or_absent(alloc, slots.as_slice(), default)?;
    elements(alloc, &cells)
}

// Cells as elements.
#[tactic(auto, using(crate::proofs::ArraySteps::element_steps))]
fn elements(alloc: Global, cells: &Vector) -> Result<DynList, AllocError>
    requires form { AreWellFormed cells.now }
    ensures parts { IfOk result (λ ds. ds ≡ map element cells.now) }
{
    let mut parts = Items::with_capacity(alloc, cells.len())?;
    'cells: for i in 0..cells.len() {
        parts.push(element(alloc, cells.cell(i))?)?;
    }
    Ok(parts)
}
