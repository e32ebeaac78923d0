ghost use Rattle.std.specs.Prelude.{◌≡◌, ◌<◌, ◌≤◌, ◌^◌, ◌++◌, ◌∷◌, ◌↔◌, [], length, map, slice_range, All, IfOk, IsTrue, OnErr, OnOk};
ghost use Rattle.kql_values.specs.Grids.{HaveLength, rows_of};
ghost use Rattle.kql_cells.specs.Seen.{cell_at, row_at, seen};

use crate::vector::{Vector, kind_of};
use crate::vectors::{
    append_to_each, cells_of_columns, cells_of_values, copy_columns, copy_row_of, gather_columns,
    grown, push_to_each, slice_columns,
};
use kql_cells::{CellRef, Row, Value};
use std::alloc::{AllocError, Global};
use std::marker::Model;

/// Rows of one width, which contracts see as a list of lists of values.
///
/// They are stored by columns: a cell is lent as a `CellRef`, and a column as a `Vector`.
#[derive(Debug, Drop)]
pub struct Rows {
    alloc: Global,
    columns: Vec<Vector>,
    count: usize,
}

impl Model for Rows {
    ghost use Rattle.std.specs.Prelude.{List, ◌<◌, ◌^◌};
    ghost use Rattle.std.specs.Coded.{codes};
    ghost use Rattle.kql_cells.specs.contracts.dynamic.Dyn as dynamic;
    ghost use Rattle.kql_cells.specs.declared.value.Value.{Value as Cell};
    ghost use Rattle.kql_values.specs.Grids.{HaveLength, rows_of};

    ghost Value = { List (List Cell) };

    ghost coded = { Prim.hlevel (codes, dynamic.the_row.coded) };

    ghost view = { λ r. rows_of r.count r.columns.items };

    ghost invariant = { λ r. HaveLength r.count r.columns.items × (r.count < 2 ^ 63) };
}

#[tactic(auto, using(crate::proofs::GridLaws::grid_reads))]
impl Rows {
    /// No rows, which takes no memory. The first row says how wide they are.
    pub fn new(alloc: Global) -> Rows
        ensures empty { result ≡ [] }
    {
        Rows {
            alloc,
            columns: Vec::new(alloc),
            count: 0,
        }
    }

    /// The rows of columns that are each so long.
    pub fn from_columns(alloc: Global, count: usize, columns: Vec<Vector>) -> Rows
        requires long { HaveLength count columns.items }
        requires small { count < 2 ^ 63 }
        ensures rows { result ≡ rows_of count columns.items }
    {
        Rows {
            alloc,
            columns,
            count,
        }
    }

    /// How many rows there are.
    pub fn len(&self) -> usize
        ensures count { result ≡ length self.now }
        ensures small { result < 2 ^ 63 }
    {
        self.count
    }

    /// Whether there is no row.
    pub fn is_empty(&self) -> bool
        ensures empty { IsTrue result ↔ (length self.now ≡ 0) }
    {
        self.count == 0
    }

    /// How many cells a row has.
    pub fn width(&self, i: usize) -> usize
        requires { i < length self.now }
        ensures cells { result ≡ length (row_at self.now i) }
        ensures all { HaveLength result self.now }
    {
        self.columns.len()
    }

    /// A cell.
    pub fn cell(&self, i: usize, j: usize) -> CellRef<'_>
        requires row { i < length self.now }
        requires column { j < length (row_at self.now i) }
        ensures same { seen result ≡ cell_at self.now i j }
    {
        self.columns[j].cell(i)
    }

    /// The columns.
    pub fn columns(&self) -> &[Vector]
        ensures rows { rows_of (length self.now) result.now ≡ self.now }
        ensures long { HaveLength (length self.now) result.now }
    {
        self.columns.as_slice()
    }

    /// The columns, moved out, and how many rows they hold.
    pub fn into_columns(self) -> (usize, Vec<Vector>)
        ensures rows { rows_of result.0 result.1.items ≡ self }
        ensures long { HaveLength result.0 result.1.items }
        ensures small { result.0 < 2 ^ 63 }
    {
        let Rows {
            alloc: _,
            columns,
            count,
        } = self;
        (count, columns)
    }

    /// A copy of a row.
    pub fn copy_row(&self, alloc: Global, i: usize) -> Result<Row, AllocError>
        requires { i < length self.now }
        ensures same { IfOk result (λ r. r ≡ row_at self.now i) }
    {
        copy_row_of(alloc, &self.columns, i)
    }

    /// Adds a row of what these cells show at the end, as wide as the rows before it.
    pub fn push_cells(&mut self, row: &[CellRef<'_>]) -> Result<(), AllocError>
        requires { HaveLength (length row.now) self.old }
        ensures added { OnOk result (self.new ≡ self.old ++ map seen row.now ∷ []) }
        ensures kept { OnErr result (self.new ≡ self.old) }
    {
        let count = grown(self.count, 1)?;
        fit_columns(self.alloc, &mut self.columns, self.count, row)?;
        push_to_each(&mut self.columns, self.count, row)?;
        self.count = count;
        Ok(())
    }

    /// Adds a row at the end, as wide as the rows before it. Without memory it is dropped.
    pub fn push_row(&mut self, row: Row) -> Result<(), AllocError>
        requires { HaveLength (length row) self.old }
        ensures added { OnOk result (self.new ≡ self.old ++ row ∷ []) }
        ensures kept { OnErr result (self.new ≡ self.old) }
    {
        self.push_values(row.as_slice())
    }

    /// Adds the values of a row at the end, as wide as the rows before it, and leaves `row` empty to be filled again.
    pub fn push_drained(&mut self, row: &mut Row) -> Result<(), AllocError>
        requires { HaveLength (length row.old) self.old }
        ensures added { OnOk result (self.new ≡ self.old ++ row.old ∷ []) }
        ensures drained { OnOk result (row.new ≡ []) }
        ensures kept { OnErr result ((self.new ≡ self.old) × (row.new ≡ row.old)) }
    {
        self.push_values(row.as_slice())?;
        row.truncate(0);
        Ok(())
    }

    // Adds a copy of values at the end.
    fn push_values(&mut self, row: &[Value]) -> Result<(), AllocError>
        requires { HaveLength (length row.now) self.old }
        ensures added { OnOk result (self.new ≡ self.old ++ row.now ∷ []) }
        ensures kept { OnErr result (self.new ≡ self.old) }
    {
        let cells = cells_of_values(self.alloc, row)?;
        self.push_cells(cells.as_slice())
    }

    /// Adds a copy of a row of other rows at the end, as wide as the rows before it.
    pub fn push_from(&mut self, other: &Rows, i: usize) -> Result<(), AllocError>
        requires within { i < length other.now }
        requires width { HaveLength (length (row_at other.now i)) self.old }
        ensures added { OnOk result (self.new ≡ self.old ++ row_at other.now i ∷ []) }
        ensures kept { OnErr result (self.new ≡ self.old) }
    {
        let cells = cells_of_columns(self.alloc, &other.columns, i)?;
        self.push_cells(cells.as_slice())
    }

    /// Moves other rows of the same width to the end. Without memory they are dropped.
    pub fn append(&mut self, more: Rows) -> Result<(), AllocError>
        requires { All (λ row. HaveLength (length row) self.old) more }
        ensures added { OnOk result (self.new ≡ self.old ++ more) }
        ensures kept { OnErr result (self.new ≡ self.old) }
    {
        if more.count == 0 {
            return Ok(());
        }
        if self.count == 0 {
            *self = more;
            return Ok(());
        }
        let Rows {
            alloc: _,
            columns,
            count: more_count,
        } = more;
        let count = grown(self.count, more_count)?;
        append_to_each(&mut self.columns, self.count, columns)?;
        self.count = count;
        Ok(())
    }

    /// Copies of the rows at these places, in this order.
    pub fn gather(&self, alloc: Global, places: &[usize]) -> Result<Rows, AllocError>
        requires { All (λ i. i < length self.now) places.now }
        ensures rows { IfOk result (λ r. r ≡ map (row_at self.now) places.now) }
    {
        let columns = gather_columns(alloc, &self.columns, places)?;
        Ok(Rows {
            alloc,
            columns,
            count: places.len(),
        })
    }

    /// Copies of the rows from a place to another.
    pub fn slice(&self, alloc: Global, from: usize, to: usize) -> Result<Rows, AllocError>
        requires order { from ≤ to }
        requires within { to ≤ length self.now }
        ensures part { IfOk result (λ r. r ≡ slice_range self.now from to) }
    {
        let columns = slice_columns(alloc, &self.columns, from, to)?;
        Ok(Rows {
            alloc,
            columns,
            count: to - from,
        })
    }

    /// The same rows once more.
    pub fn copy(&self, alloc: Global) -> Result<Rows, AllocError>
        ensures same { IfOk result (λ r. r ≡ self.now) }
    {
        let columns = copy_columns(alloc, &self.columns)?;
        Ok(Rows {
            alloc,
            columns,
            count: self.count,
        })
    }
}

// Makes columns for a first row, where there are not so many yet.
#[tactic(auto, using(crate::proofs::GridLaws::grid_fits))]
fn fit_columns(
    alloc: Global,
    columns: &mut Vec<Vector>,
    count: usize,
    row: &[CellRef<'_>],
) -> Result<(), AllocError>
    requires long { HaveLength count columns.old.items }
    requires width { HaveLength (length row.now) (rows_of count columns.old.items) }
    ensures long { HaveLength count columns.new.items }
    ensures rows { rows_of count columns.new.items ≡ rows_of count columns.old.items }
    ensures width { OnOk result (length columns.new.items ≡ length row.now) }
{
    if count == 0 && columns.len() != row.len() {
        *columns = fresh_columns(alloc, row)?;
    }
    Ok(())
}

// An empty column for each cell.
#[tactic(auto, using(crate::proofs::GridLaws::grid_fits))]
fn fresh_columns(alloc: Global, row: &[CellRef<'_>]) -> Result<Vec<Vector>, AllocError>
    ensures long { IfOk result (λ v. HaveLength 0 v.items) }
    ensures width { IfOk result (λ v. length v.items ≡ length row.now) }
{
    let mut columns = Vec::with_capacity(alloc, row.len())?;
    for cell in row {
        columns.push(Vector::new(alloc, kind_of(*cell)))?;
    }
    Ok(columns)
}
