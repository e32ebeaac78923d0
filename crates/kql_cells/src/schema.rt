ghost use Rattle.std.specs.Prelude.{◌≡◌, ◌++◌, ◌∷◌, ◌↔◌, [], length, map, All, None, IfOk, IsTrue, OnOk, OnErr};
ghost use Rattle.kql_cells.specs.Named.{HasDistinctNames, IsAbsent, place_of};

use crate::text::KText;
use crate::value::Kind;
use kql_items::Items;
use std::alloc::{AllocError, Global};
use std::marker::Model;

/// A column's name and type.
#[derive(Debug, Drop)]
pub struct Column {
    pub name: KText,
    pub kind: Kind,
}

impl Column {
    /// An equal column.
    pub fn copy(&self, alloc: Global) -> Result<Column, AllocError>
        ensures same { IfOk result (λ c. c ≡ self.now) }
    {
        Ok(Column {
            name: self.name.copy(alloc)?,
            kind: self.kind,
        })
    }
}

/// Columns of distinct names, which contracts see as the list of them.
#[derive(Debug, Drop)]
pub struct Schema {
    columns: Items<Column>,
}

impl Model for Schema {
    ghost use Rattle.std.specs.Prelude.{List};
    ghost use Rattle.kql_cells.specs.declared.schema.Column.{Column};
    ghost use Rattle.kql_cells.specs.Named.{HasDistinctNames, column_name};

    ghost Value = { List Column };

    ghost view = { λ s. s.columns };

    ghost invariant = { λ s. HasDistinctNames column_name s.columns };
}

impl Schema {
    ghost use Rattle.kql_cells.specs.Named.{column_name};
    ghost use Rattle.kql_cells.specs.Table.{RowFits};

    /// No columns, which takes no memory.
    pub fn new(alloc: Global) -> Schema
        ensures empty { result ≡ [] }
    {
        Schema {
            columns: Items::new(alloc),
        }
    }

    /// Columns of distinct names, in order.
    pub fn from_items(columns: Items<Column>) -> Schema
        requires { HasDistinctNames column_name columns }
        ensures columns { result ≡ columns }
    {
        Schema { columns }
    }

    /// The columns, moved out.
    pub fn into_columns(self) -> Items<Column>
        ensures columns { result ≡ self }
        ensures distinct { HasDistinctNames column_name self }
    {
        let Schema { columns } = self;
        columns
    }

    /// The columns, in order.
    pub fn columns(&self) -> &[Column]
        ensures columns { result.now ≡ self.now }
        ensures distinct { HasDistinctNames column_name self.now }
    {
        self.columns.as_slice()
    }

    /// How many columns there are.
    pub fn len(&self) -> usize
        ensures count { result ≡ length self.now }
    {
        self.columns.len()
    }

    /// The place of the column of a name, from 0, or none.
    pub fn find(&self, name: &str) -> Option<usize>
        ensures place { result ≡ place_of column_name name.now self.now }
        ensures absent { (result ≡ None) ↔ IsAbsent column_name name.now self.now }
    {
        self.columns
            .as_slice()
            .iter()
            .position(|column| column.name.as_str() == name)
    }

    /// Adds a column of another name at the end. Without memory the column is dropped.
    pub fn push(&mut self, column: Column) -> Result<(), AllocError>
        requires { IsAbsent column_name column.name self.old }
        ensures added { OnOk result (self.new ≡ self.old ++ column ∷ []) }
        ensures kept { OnErr result (self.new ≡ self.old) }
    {
        self.columns.push(column)
    }

    /// An equal schema.
    pub fn copy(&self, alloc: Global) -> Result<Schema, AllocError>
        ensures same { IfOk result (λ s. s ≡ self.now) }
    {
        Ok(Schema {
            columns: copy_columns(alloc, self.columns.as_slice())?,
        })
    }
}

/// Equal columns.
pub fn copy_columns(alloc: Global, columns: &[Column]) -> Result<Items<Column>, AllocError>
    ensures same { IfOk result (λ cs. cs ≡ columns.now) }
{
    let mut copies = Items::with_capacity(alloc, columns.len())?;
    for column in columns {
        let copy = column.copy(alloc)?;
        copies.push(copy)?;
    }
    Ok(copies)
}
