//! Tables one behind another, of which the columns are put together later, each by itself.
ghost use Rattle.std.specs.Prelude.{◌≡◌, ◌+◌, ◌<◌, ◌^◌, ◌++◌, [], All, IfOk, OnOk, length};
ghost use Rattle.csv_io.specs.Stacks.{cells_in, lines_of};
ghost use Rattle.kql_cells.specs.Table.{Grid};
ghost use Rattle.kql_values.specs.Grids.{ColumnsFit, joined, rows_of};

use kql_cells::Schema;
use kql_items::Items;
use kql_values::{Table, Vector};
use std::alloc::{AllocError, Global};
use std::marker::Model;

/// A column in parts. Contracts see its cells.
#[derive(Drop)]
pub struct Parts {
    first: Vector,
    more: Items<Vector>,
}

impl Model for Parts {
    ghost use Rattle.std.specs.Prelude.{List};
    ghost use Rattle.std.specs.Coded.{codes};
    ghost use Rattle.kql_cells.specs.contracts.dynamic.Dyn as dynamic;
    ghost use Rattle.kql_cells.specs.declared.value.Value.{Value as Cell};
    ghost use Rattle.csv_io.specs.Stacks.{cells_in};

    ghost Value = { List Cell };

    ghost coded = { Prim.hlevel (codes, dynamic.the_row.coded) };

    ghost view = { λ p. cells_in p.first p.more };
}

#[tactic(auto, using(crate::proofs::StackFacts::part_steps))]
impl Parts {
    // A column in one part.
    fn new(alloc: Global, first: Vector) -> Parts
        ensures { result ≡ first }
    {
        Parts {
            first,
            more: Items::new(alloc),
        }
    }

    // Adds a part at the end.
    fn push(&mut self, part: Vector) -> Result<(), AllocError>
        ensures added { OnOk result (self.new ≡ self.old ++ part) }
    {
        self.more.push(part)
    }

    /// Puts the parts together. Without memory some are lost.
    pub fn settle(&mut self) -> Result<(), AllocError>
        ensures same { OnOk result (self.new ≡ self.old) }
    {
        append_all(&mut self.first, &mut self.more)?;
        Ok(())
    }

    // The parts, put together.
    fn into_vector(self) -> Result<Vector, AllocError>
        ensures same { IfOk result (λ v. v ≡ self) }
    {
        let Parts {
            mut first,
            mut more,
        } = self;
        append_all(&mut first, &mut more)?;
        Ok(first)
    }
}

// Moves vectors to the end of one.
fn append_all(first: &mut Vector, more: &mut Items<Vector>) -> Result<(), AllocError>
    ensures cells { OnOk result (first.new ≡ cells_in first.old more.old) }
    ensures none { OnOk result (more.new ≡ []) }
{
    more.reverse();
    'parts: while let Some(next) = more.pop() {
        first.append(next)?;
    }
    Ok(())
}

/// Tables of the same columns, one behind another. Contracts see the table that they are together.
#[derive(Drop)]
pub struct Stack {
    first: Table,
    more: Items<Table>,
    count: usize,
}

impl Model for Stack {
    ghost use Rattle.std.specs.Coded.{codes};
    ghost use Rattle.kql_cells.specs.Table.{Grid};
    ghost use Rattle.kql_cells.specs.contracts.dynamic.Dyn as dynamic;
    ghost use Rattle.csv_io.specs.Stacks.{IsStack, stacked};

    ghost Value = { Grid };

    ghost coded = { Prim.hlevel (codes, dynamic.the_row.coded) };

    ghost view = { λ s. stacked s.first s.more };

    ghost invariant = { λ s. IsStack s.first s.more s.count };
}

impl Stack {
    // One table.
    pub(crate) fn new(alloc: Global, first: Table) -> Stack
        ensures same { result ≡ first }
    {
        let count = first.len();
        Stack {
            first,
            more: Items::new(alloc),
            count,
        }
    }

    // How many lines there are.
    pub(crate) fn len(&self) -> usize
        ensures count { result ≡ length self.now.lines }
        ensures small { result < 2 ^ 63 }
    {
        self.count
    }

    // Puts a table behind the others.
    pub(crate) fn append(&mut self, more: Table) -> Result<(), AllocError>
        requires alike { more.columns ≡ self.old.columns }
        ensures columns { OnOk result (self.new.columns ≡ self.old.columns) }
        ensures lines { OnOk result (self.new.lines ≡ self.old.lines ++ more.lines) }
    {
        let count = sum_of(self.count, more.len())?;
        self.more.push(more)?;
        self.count = count;
        Ok(())
    }

    /// The columns in parts, with the schema and how many rows there are.
    pub fn into_parts(self, alloc: Global) -> Result<(Schema, usize, Vec<Parts>), AllocError>
        ensures grid { IfOk result (λ (schema, count, parts). record { columns = schema; lines = rows_of count parts.items } ≡ self) }
        ensures fits { IfOk result (λ (schema, count, parts). ColumnsFit schema count parts.items) }
        ensures small { IfOk result (λ (schema, count, parts). count < 2 ^ 63) }
    {
        let Stack {
            first,
            more,
            count: _,
        } = self;
        let (schema, rows, columns) = first.into_columns();
        let mut parts = parts_of(alloc, columns)?;
        let count = push_tables(&schema, &mut parts, rows, more)?;
        Ok((schema, count, parts))
    }

    // The table.
    pub(crate) fn into_table(self, alloc: Global) -> Result<Table, AllocError>
        ensures same { IfOk result (λ t. t ≡ self) }
    {
        let (schema, count, parts) = self.into_parts(alloc)?;
        let table = table_of(alloc, schema, count, parts)?;
        Ok(table)
    }
}

// So many and so many more.
fn sum_of(count: usize, more: usize) -> Result<usize, AllocError>
    requires low { count < 2 ^ 63 }
    requires few { more < 2 ^ 63 }
    ensures sum { IfOk result (λ n. n ≡ count + more) }
    ensures small { IfOk result (λ n. n < 2 ^ 63) }
{
    let sum = count + more;
    if sum < 0x8000_0000_0000_0000 {
        Ok(sum)
    } else {
        Err(AllocError)
    }
}

// Puts the columns of tables behind those of so many rows, and answers how many rows they have then.
fn push_tables(
    schema: &Schema,
    parts: &mut Vec<Parts>,
    count: usize,
    mut more: Items<Table>,
) -> Result<usize, AllocError>
    requires columns { All (λ (t : Grid). t.columns ≡ schema.now) more }
    requires fits { ColumnsFit schema.now count parts.old.items }
    requires small { count < 2 ^ 63 }
    ensures fits { IfOk result (λ n. ColumnsFit schema.now n parts.new.items) }
    ensures lines { IfOk result (λ n. rows_of n parts.new.items ≡ rows_of count parts.old.items ++ lines_of more) }
    ensures small { IfOk result (λ n. n < 2 ^ 63) }
{
    let mut rows = count;
    more.reverse();
    'tables: while let Some(next) = more.pop() {
        rows = push_table(schema, parts, rows, next)?;
    }
    Ok(rows)
}

// Puts the columns of a table behind those of so many rows, and answers how many rows they have then.
fn push_table(
    schema: &Schema,
    parts: &mut Vec<Parts>,
    count: usize,
    more: Table,
) -> Result<usize, AllocError>
    requires columns { more.columns ≡ schema.now }
    requires fits { ColumnsFit schema.now count parts.old.items }
    requires small { count < 2 ^ 63 }
    ensures fits { IfOk result (λ n. ColumnsFit schema.now n parts.new.items) }
    ensures lines { IfOk result (λ n. rows_of n parts.new.items ≡ rows_of count parts.old.items ++ more.lines) }
    ensures small { IfOk result (λ n. n < 2 ^ 63) }
{
    let _schema = schema;
    let (_, rows, columns) = more.into_columns();
    let sum = sum_of(count, rows)?;
    push_to_each(parts, columns)?;
    Ok(sum)
}

// A column in one part of each vector.
fn parts_of(alloc: Global, columns: Vec<Vector>) -> Result<Vec<Parts>, AllocError>
    ensures { IfOk result (λ parts. parts.items ≡ columns.items) }
{
    let mut parts = Vec::with_capacity(alloc, columns.len())?;
    for column in columns {
        parts.push(Parts::new(alloc, column))?;
    }
    Ok(parts)
}

// Adds a part to each column.
fn push_to_each(parts: &mut Vec<Parts>, more: Vec<Vector>) -> Result<(), AllocError>
    requires width { length parts.old.items ≡ length more.items }
    ensures added { OnOk result (parts.new.items ≡ joined parts.old.items more.items) }
{
    let mut j = 0;
    for vector in more {
        let column = &mut parts[j];
        column.push(vector)?;
        j += 1;
    }
    Ok(())
}

/// The table of columns in parts.
pub fn table_of(
    alloc: Global,
    schema: Schema,
    count: usize,
    parts: Vec<Parts>,
) -> Result<Table, AllocError>
    requires fits { ColumnsFit schema count parts.items }
    requires small { count < 2 ^ 63 }
    ensures table { IfOk result (λ t. t ≡ record { columns = schema; lines = rows_of count parts.items }) }
{
    let mut columns = Vec::with_capacity(alloc, parts.len())?;
    for part in parts {
        columns.push(part.into_vector()?)?;
    }
    Ok(Table::from_columns(alloc, schema, count, columns))
}
