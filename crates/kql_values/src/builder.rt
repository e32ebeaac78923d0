ghost use Rattle.std.specs.Prelude.{◌≡◌, ◌<◌, ◌^◌, ◌++◌, ◌∷◌, ◌↔◌, [], IfOk, IsTrue, OnErr, OnOk, length, slice_index_or, slice_set};
ghost use Rattle.kql_cells.specs.Seen.{seen};
ghost use Rattle.kql_values.specs.Growing.{FitsNext, closed, started, with_cell};

use crate::fitting::cell_fits;
use crate::table::Table;
use crate::vector::Vector;
use crate::vectors::empty_columns;
use kql_cells::{CellRef, Schema, Value};
use std::alloc::{AllocError, Global};
use std::marker::Model;

/// A table that grows cell by cell, each of which goes straight into its column.
///
/// Contracts see it as the table of its whole rows, and the cells of the row that is open. A call that fails leaves it as
/// it was.
#[derive(Debug, Drop)]
pub struct TableBuilder {
    alloc: Global,
    schema: Schema,
    columns: Vec<Vector>,
    count: usize,
    filled: usize,
}

impl Model for TableBuilder {
    ghost use Rattle.std.specs.Prelude.{take};
    ghost use Rattle.std.specs.Coded.{codes};
    ghost use Rattle.kql_cells.specs.contracts.dynamic.Dyn as dynamic;
    ghost use Rattle.kql_values.specs.Grids.{row_of, rows_of};
    ghost use Rattle.kql_values.specs.Growing.{Growing, IsStored};

    ghost Value = { Growing };

    ghost coded = { Prim.hlevel (codes, dynamic.the_row.coded) };

    ghost view = { λ b. record { grid = record { columns = b.schema; lines = rows_of b.count b.columns.items }; row = row_of (take b.filled b.columns.items) b.count } };

    ghost invariant = { λ b. IsStored b.schema b.columns.items b.count b.filled };
}

#[tactic(auto, using(crate::proofs::BuilderFacts::builder_facts))]
impl TableBuilder {
    /// A table of these columns with no row.
    pub fn new(alloc: Global, schema: Schema) -> Result<TableBuilder, AllocError>
        ensures empty { IfOk result (λ b. b ≡ started schema) }
    {
        let columns = empty_columns(alloc, schema.columns())?;
        Ok(TableBuilder {
            alloc,
            schema,
            columns,
            count: 0,
            filled: 0,
        })
    }

    /// The columns.
    pub fn schema(&self) -> &Schema
        ensures columns { result.now ≡ self.now.grid.columns }
    {
        &self.schema
    }

    /// How many whole rows there are.
    pub fn len(&self) -> usize
        ensures count { result ≡ length self.now.grid.lines }
        ensures small { result < 2 ^ 63 }
    {
        self.count
    }

    /// How many cells the row that is open has.
    pub fn filled(&self) -> usize
        ensures count { result ≡ length self.now.row }
    {
        self.filled
    }

    /// Whether there is a column for one cell more, which this cell fits.
    pub fn fits_next(&self, cell: CellRef<'_>) -> bool
        ensures fits { IsTrue result ↔ FitsNext self.now (seen cell.entry) }
    {
        match self.schema().columns().get(self.filled()) {
            None => false,
            Some(column) => cell_fits(column, cell),
        }
    }

    /// Adds what a cell shows to the row that is open.
    pub fn push_cell(&mut self, cell: CellRef<'_>) -> Result<(), AllocError>
        requires { FitsNext self.old (seen cell) }
        ensures added { OnOk result (self.new ≡ with_cell self.old (seen cell.entry)) }
        ensures kept { OnErr result (self.new ≡ self.old) }
    {
        push_cell_at(&mut self.columns, self.filled, cell)?;
        self.filled += 1;
        Ok(())
    }

    /// Moves a value to the row that is open. Without memory it is dropped.
    pub fn push_value(&mut self, value: Value) -> Result<(), AllocError>
        requires { FitsNext self.old value }
        ensures added { OnOk result (self.new ≡ with_cell self.old value) }
        ensures kept { OnErr result (self.new ≡ self.old) }
    {
        push_value_at(&mut self.columns, self.filled, value)?;
        self.filled += 1;
        Ok(())
    }

    /// Ends the row that is open, which has a cell for each column.
    pub fn end_row(&mut self) -> Result<(), AllocError>
        requires { length self.old.row ≡ length self.old.grid.columns }
        ensures ended { OnOk result (self.new ≡ closed self.old) }
        ensures kept { OnErr result (self.new ≡ self.old) }
    {
        if self.count >= 0x7fff_ffff_ffff_ffff {
            return Err(AllocError);
        }
        self.count += 1;
        self.filled = 0;
        Ok(())
    }

    /// The table of the rows, where no row is open.
    pub fn finish(self) -> Table
        requires { self.row ≡ [] }
        ensures table { result ≡ self.grid }
    {
        let TableBuilder {
            alloc,
            schema,
            columns,
            count,
            filled: _,
        } = self;
        Table::from_columns(alloc, schema, count, columns)
    }
}

// Adds what a cell shows to the column at a place.
fn push_cell_at(columns: &mut Vec<Vector>, k: usize, cell: CellRef<'_>) -> Result<(), AllocError>
    requires { k < length columns.old.items }
    ensures added { OnOk result (columns.new.items ≡ slice_set columns.old.items k (slice_index_or columns.old.items k [] ++ seen cell.entry ∷ [])) }
    ensures kept { OnErr result (columns.new.items ≡ columns.old.items) }
{
    columns[k].push_cell(cell)?;
    Ok(())
}

// Moves a value to the column at a place.
fn push_value_at(columns: &mut Vec<Vector>, k: usize, value: Value) -> Result<(), AllocError>
    requires { k < length columns.old.items }
    ensures added { OnOk result (columns.new.items ≡ slice_set columns.old.items k (slice_index_or columns.old.items k [] ++ value ∷ [])) }
    ensures kept { OnErr result (columns.new.items ≡ columns.old.items) }
{
    columns[k].push(value)?;
    Ok(())
}
