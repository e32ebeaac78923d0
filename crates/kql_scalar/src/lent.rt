ghost use Rattle.std.specs.Prelude.{◌≡◌, IfOk};
ghost use Rattle.kql_cells.specs.Seen.{seen};
ghost use Rattle.kql_scalar.specs.Shown.{shown};

use kql_items::Boxed;
use kql_values::{CellRef, Dyn, KText, Value, clone_dyn};
use std::alloc::{AllocError, Global};

/// The value of an expression at a row: a cell that a table or a literal lends, or what a function made.
///
/// Only a text and a dynamic value are owned; all else is a cell, and letting it go costs nothing.
#[derive(Drop)]
pub enum Lent<'a> {
    Cell(CellRef<'a>),
    Text(KText),
    Dynamic(Boxed<Dyn>),
}

impl<'a> Lent<'a> {
    /// A value that a function made.
    pub fn of(alloc: Global, value: Value) -> Result<Lent<'a>, AllocError>
        ensures value { IfOk result (λ l. shown l ≡ value) }
    {
        match value {
            Value::Null => Ok(Lent::Cell(CellRef::Null)),
            Value::Bool(b) => Ok(Lent::Cell(CellRef::Bool(b))),
            Value::Long(n) => Ok(Lent::Cell(CellRef::Long(n))),
            Value::Text(t) => Ok(Lent::Text(t)),
            Value::Moment(n) => Ok(Lent::Cell(CellRef::Moment(n))),
            Value::Span(n) => Ok(Lent::Cell(CellRef::Span(n))),
            Value::Dynamic(d) => Ok(Lent::Dynamic(Boxed::new(alloc, d)?)),
        }
    }

    /// The value as a cell.
    pub fn as_cell(&self) -> CellRef<'_>
        ensures value { seen result ≡ shown self.now }
    {
        match self {
            Lent::Cell(cell) => *cell,
            Lent::Text(t) => CellRef::Text(t.as_str()),
            Lent::Dynamic(d) => CellRef::Dynamic(d.get()),
        }
    }

    /// The value, owned.
    pub fn into_value(self, alloc: Global) -> Result<Value, AllocError>
        ensures value { IfOk result (λ v. v ≡ shown self.entry) }
    {
        match self {
            Lent::Cell(cell) => cell.to_value(alloc),
            Lent::Text(t) => Ok(Value::Text(t)),
            Lent::Dynamic(d) => Ok(Value::Dynamic(d.into_inner())),
        }
    }
}
