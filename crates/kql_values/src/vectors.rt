ghost use Rattle.std.specs.Prelude.{◌≡◌, ◌<◌, ◌≤◌, ◌+◌, ◌^◌, [], length, take, map, slice_range, slice_index_or, All, IfOk, OnErr, OnOk};
ghost use Rattle.std.specs.Prelude.{◌≢◌};
ghost use Rattle.std.specs.List.{AllPairs};
ghost use Rattle.kql_values.specs.Grids.{ColumnsFit, HaveLength, joined, or_absent, row_of, singletons};
ghost use Rattle.kql_values.specs.Moves.{IsWithin, column_of};
ghost use Rattle.kql_cells.specs.Seen.{seen, value_at};

use crate::vector::Vector;
use kql_cells::{CellRef, Column, Kind, Row, Value};
use kql_items::Items;
use std::alloc::{AllocError, Global};
use std::mem::replace;

// The count of rows and so many more.
pub(crate) fn grown(count: usize, more: usize) -> Result<usize, AllocError>
    requires low { count < 2 ^ 63 }
    requires few { more < 2 ^ 63 }
    ensures sum { IfOk result (λ n. (n ≡ count + more) × (n < 2 ^ 63)) }
{
    let sum = count + more;
    if sum < 0x8000_0000_0000_0000 {
        Ok(sum)
    } else {
        Err(AllocError)
    }
}

// Cuts each column off.
pub(crate) fn truncate_each(columns: &mut Vec<Vector>, count: usize)
    ensures { columns.new.items ≡ map (take count) columns.old.items }
{
    for column in columns.iter_mut() {
        column.truncate(count);
    }
}

// Adds what each cell shows to the column at its place, or nothing.
pub(crate) fn push_to_each(
    columns: &mut Vec<Vector>,
    count: usize,
    row: &[CellRef<'_>],
) -> Result<(), AllocError>
    requires long { HaveLength count columns.old.items }
    requires width { length columns.old.items ≡ length row.now }
    ensures added { OnOk result (columns.new.items ≡ joined columns.old.items (singletons (map seen row.now))) }
    ensures kept { OnErr result (columns.new.items ≡ columns.old.items) }
{
    for j in 0..row.len() {
        let column = &mut columns[j];
        if let Err(e) = column.push_cell(row[j]) {
            truncate_each(columns, count);
            return Err(e);
        }
    }
    Ok(())
}

// Moves the cells of each column to the end of the column at its place, or nothing.
pub(crate) fn append_to_each(
    columns: &mut Vec<Vector>,
    count: usize,
    more: Vec<Vector>,
) -> Result<(), AllocError>
    requires long { HaveLength count columns.old.items }
    requires width { length columns.old.items ≡ length more.items }
    ensures added { OnOk result (columns.new.items ≡ joined columns.old.items more.items) }
    ensures kept { OnErr result (columns.new.items ≡ columns.old.items) }
{
    let mut j = 0;
    for vector in more {
        let column = &mut columns[j];
        if let Err(e) = column.append(vector) {
            truncate_each(columns, count);
            return Err(e);
        }
        j += 1;
    }
    Ok(())
}

// The cells of values.
pub(crate) fn cells_of_values(alloc: Global, row: &[Value]) -> Result<Vec<CellRef<'_>>, AllocError>
    ensures { IfOk result (λ v. map seen v.items ≡ row.now) }
{
    let mut cells = Vec::with_capacity(alloc, row.len())?;
    for value in row {
        cells.push(value.as_cell())?;
    }
    Ok(cells)
}

// The cells at a place of columns.
#[tactic(auto, using(crate::proofs::GridLaws::row_steps))]
pub(crate) fn cells_of_columns(
    alloc: Global,
    columns: &Vec<Vector>,
    i: usize,
) -> Result<Vec<CellRef<'_>>, AllocError>
    requires { All (λ c. i < length c) columns.now.items }
    ensures { IfOk result (λ v. map seen v.items ≡ row_of columns.now.items i) }
{
    let mut cells = Vec::with_capacity(alloc, columns.len())?;
    for column in columns {
        cells.push(column.cell(i))?;
    }
    Ok(cells)
}

// The values at a place of columns.
#[tactic(auto, using(crate::proofs::GridLaws::row_steps))]
pub(crate) fn copy_row_of(alloc: Global, columns: &Vec<Vector>, i: usize) -> Result<Row, AllocError>
    requires { All (λ c. i < length c) columns.now.items }
    ensures { IfOk result (λ r. r ≡ row_of columns.now.items i) }
{
    let mut row = Items::with_capacity(alloc, columns.len())?;
    for column in columns {
        row.push(column.cell(i).to_value(alloc)?)?;
    }
    Ok(row)
}

// Each column at these places.
pub(crate) fn gather_columns(
    alloc: Global,
    columns: &Vec<Vector>,
    places: &[usize],
) -> Result<Vec<Vector>, AllocError>
    requires { All (λ c. All (λ i. i < length c) places.now) columns.now.items }
    ensures { IfOk result (λ v. v.items ≡ map (λ c. map (value_at c) places.now) columns.now.items) }
{
    let mut gathered = Vec::with_capacity(alloc, columns.len())?;
    for column in columns {
        gathered.push(column.gather(alloc, places)?)?;
    }
    Ok(gathered)
}

// Each column from a place to another.
pub(crate) fn slice_columns(
    alloc: Global,
    columns: &Vec<Vector>,
    from: usize,
    to: usize,
) -> Result<Vec<Vector>, AllocError>
    requires order { from ≤ to }
    requires within { All (λ c. to ≤ length c) columns.now.items }
    ensures { IfOk result (λ v. v.items ≡ map (λ c. slice_range c from to) columns.now.items) }
{
    let mut parts = Vec::with_capacity(alloc, columns.len())?;
    for column in columns {
        parts.push(column.slice(alloc, from, to)?)?;
    }
    Ok(parts)
}

// Each column once more.
pub(crate) fn copy_columns(alloc: Global, columns: &Vec<Vector>) -> Result<Vec<Vector>, AllocError>
    ensures { IfOk result (λ v. v.items ≡ columns.now.items) }
{
    let mut copies = Vec::with_capacity(alloc, columns.len())?;
    for column in columns {
        copies.push(column.copy(alloc)?)?;
    }
    Ok(copies)
}

// An empty vector for each column.
#[tactic(auto, using(crate::proofs::TableLaws::column_facts))]
pub(crate) fn empty_columns(alloc: Global, schema: &[Column]) -> Result<Vec<Vector>, AllocError>
    ensures { IfOk result (λ v. ColumnsFit schema.now 0 v.items) }
{
    let mut columns = Vec::with_capacity(alloc, schema.len())?;
    for column in schema {
        columns.push(Vector::new(alloc, column.kind))?;
    }
    Ok(columns)
}

// Each column at these places, with absent cells where a place is none.
pub(crate) fn gather_or_absent_columns(
    alloc: Global,
    schema: &[Column],
    columns: &Vec<Vector>,
    places: &[Option<usize>],
) -> Result<Vec<Vector>, AllocError>
    requires width { length columns.now.items ≡ length schema.now }
    requires within { All (λ c. All (IsWithin (length c)) places.now) columns.now.items }
    ensures { IfOk result (λ v. v.items ≡ or_absent schema.now columns.now.items places.now) }
{
    let mut gathered = Vec::with_capacity(alloc, columns.len())?;
    for j in 0..columns.len() {
        let absent = schema[j].kind.absent();
        gathered.push(columns[j].gather_or_absent(alloc, places, absent)?)?;
    }
    Ok(gathered)
}

// The columns at these places, moved out.
pub(crate) fn pick_columns(
    alloc: Global,
    columns: Vec<Vector>,
    places: &[usize],
) -> Result<Vec<Vector>, AllocError>
    requires within { All (λ j. j < length columns.items) places.now }
    requires distinct { AllPairs (λ i j. i ≢ j) places.now }
    ensures { IfOk result (λ v. v.items ≡ map (λ j. slice_index_or columns.items j []) places.now) }
{
    let mut rest = columns;
    let mut picked = Vec::with_capacity(alloc, places.len())?;
    for k in 0..places.len() {
        let place = places[k];
        let column = replace(&mut rest[place], Vector::new(alloc, Kind::Dynamic));
        picked.push(column)?;
    }
    Ok(picked)
}

// Copies of the columns of a schema at these places.
pub(crate) fn pick_schema(
    alloc: Global,
    schema: &[Column],
    places: &[usize],
) -> Result<Items<Column>, AllocError>
    requires { All (λ j. j < length schema.now) places.now }
    ensures { IfOk result (λ cs. cs ≡ map (column_of schema.now) places.now) }
{
    let mut picked = Items::with_capacity(alloc, places.len())?;
    for place in places {
        picked.push(schema[*place].copy(alloc)?)?;
    }
    Ok(picked)
}
