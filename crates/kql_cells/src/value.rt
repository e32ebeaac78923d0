ghost use Rattle.std.specs.Prelude.{◌≡◌, ◌↔◌, IfOk, IsTrue};
ghost use Rattle.kql_cells.specs.Seen.{seen};
ghost use Rattle.kql_cells.specs.Values.{IsOfKind, IsWellFormed};

use crate::cell::CellRef;
use crate::dynamic::Dyn;
use crate::text::KText;
use kql_items::Items;
use std::alloc::{AllocError, Global};

/// The greatest datetime, 9999-12-31T23:59:59.9999999, in ticks of 100 ns from 0001-01-01T00:00:00.
pub const MOMENT_TOP: i64 = 3_155_378_975_999_999_999;

/// The type of a column.
#[derive(Clone, Copy, Debug, PartialEq, Eq)]
pub enum Kind {
    Bool,
    Long,
    Text,
    Moment,
    Span,
    Dynamic,
}

impl Kind {
    ghost use Rattle.kql_cells.specs.Keys.{absent};

    /// What stands in a column of this type where there is no value: null, and the empty text in one of strings.
    /// It takes no memory.
    #[tactic(auto, unfolding(crate::specs::Keys::absent))]
    pub fn absent(self) -> CellRef<'static>
        ensures value { seen result ≡ absent self }
    {
        match self {
            Kind::Text => CellRef::Text(""),
            _ => CellRef::Null,
        }
    }
}

/// The values of one row.
pub type Row = Items<Value>;

/// A value: null, or of one of the six types.
///
/// A moment is a datetime in ticks of 100 ns from 0001-01-01, a span a timespan in ticks. A text is never null,
/// and a dynamic null is `Null`.
#[derive(Debug, Drop)]
pub enum Value {
    Null,
    Bool(bool),
    Long(i64),
    Text(KText),
    Moment(i64),
    Span(i64),
    Dynamic(Dyn),
}

impl Value {
    /// The value as a cell that lends it.
    pub fn as_cell(&self) -> CellRef<'_>
        ensures same { seen result ≡ self.now }
    {
        match self {
            Value::Null => CellRef::Null,
            Value::Bool(b) => CellRef::Bool(*b),
            Value::Long(n) => CellRef::Long(*n),
            Value::Text(t) => CellRef::Text(t.as_str()),
            Value::Moment(n) => CellRef::Moment(*n),
            Value::Span(n) => CellRef::Span(*n),
            Value::Dynamic(d) => CellRef::Dynamic(d),
        }
    }

    /// Whether it is null, or of this type.
    pub fn is_of_kind(&self, kind: Kind) -> bool
        ensures fits { IsTrue result ↔ IsOfKind kind self.now }
    {
        self.as_cell().is_of_kind(kind)
    }
}

/// An equal value.
pub fn clone_value(alloc: Global, v: &Value) -> Result<Value, AllocError>
    ensures same { IfOk result (λ c. c ≡ v.now) }
{
    v.as_cell().to_value(alloc)
}

/// Whether two values have the same key: they are identical. Two nulls have the same key.
pub fn same_key(a: &Value, b: &Value) -> bool
    ensures same { IsTrue result ↔ (a.now ≡ b.now) }
{
    a.as_cell().is_same(b.as_cell())
}

/// Whether a value is well formed: a moment is in the range of datetimes, and a dynamic value is not null
/// itself, has bags whose keys are distinct and ascend by bytes, and has at most 127 levels.
pub fn is_well_formed(v: &Value) -> bool
    ensures form { IsTrue result ↔ IsWellFormed v.now }
{
    v.as_cell().is_well_formed()
}
