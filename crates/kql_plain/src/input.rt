//! The table that an operator takes.
ghost use Rattle.std.specs.Prelude.{◌≡◌, IfOk, map};
ghost use Rattle.kql_meaning.specs.TakeAndCount.{take_table};
ghost use Rattle.table_ops.specs.InColumns.{tables_lent};
ghost use Rattle.kql_plain.specs.Inputs.{input_table};

use kql_values::Table;
use row_ops::take_rows;
use std::alloc::{AllocError, Global};

/// A table that an operator takes: one of the catalogue or of a let, which is read where it stands, or one that was made on the way
/// and is the operator's own.
#[derive(Drop)]
pub enum Input<'a> {
    Lent(&'a Table),
    Owned(Table),
}

impl<'a> Input<'a> {
    /// The table, read where it stands.
    pub fn as_table(&self) -> &Table
        ensures table { result.now ≡ input_table self.now }
    {
        match self {
            Input::Lent(t) => t,
            Input::Owned(t) => t,
        }
    }

    /// The table, or a copy of one that is lent.
    pub fn into_table(self, alloc: Global) -> Result<Table, AllocError>
        ensures table { IfOk result (λ t. t ≡ input_table self.entry) }
    {
        match self {
            Input::Lent(t) => t.copy(alloc),
            Input::Owned(t) => Ok(t),
        }
    }

    /// Its first n rows. Of a table that is lent no more than these are copied.
    pub fn into_first(self, alloc: Global, n: u64) -> Result<Table, AllocError>
        ensures rows { IfOk result (λ t. t ≡ take_table n (input_table self.entry)) }
    {
        match self {
            Input::Lent(t) => copy_first(alloc, t, n),
            Input::Owned(t) => Ok(take_rows(t, n)),
        }
    }
}

#[tactic(auto, unfolding(kql_meaning::specs::TakeAndCount::take_table))]
fn copy_first(alloc: Global, t: &Table, n: u64) -> Result<Table, AllocError>
    ensures rows { IfOk result (λ r. r ≡ take_table n t.now) }
{
    if n < t.len() as u64 {
        t.slice(alloc, 0, n as usize)
    } else {
        t.copy(alloc)
    }
}

/// Tables that were taken, each lent.
pub fn lent_tables<'a>(alloc: Global, inputs: &'a [Input<'_>]) -> Result<Vec<&'a Table>, AllocError>
    ensures tables { IfOk result (λ ts. tables_lent ts.items ≡ map input_table inputs.now) }
{
    let mut tables = Vec::with_capacity(alloc, inputs.len())?;
    for k in 0..inputs.len() {
        let table = inputs[k].as_table();
        tables.push(table)?;
    }
    Ok(tables)
}
