ghost use Rattle.std.specs.Prelude.{◌≡◌, ◌↔◌, IfOk, IsTrue};
ghost use Rattle.kql_cells.specs.Keys.{is_null};
ghost use Rattle.kql_cells.specs.Seen.{seen};
ghost use Rattle.kql_cells.specs.Values.{IsOfKind, IsWellFormed};

use crate::dynamic::{Dyn, LEVELS_TOP, clone_dyn, has_form, has_levels_within, is_null, same_dyn};
use crate::text::KText;
use crate::value::{Kind, MOMENT_TOP, Value};
use std::alloc::{AllocError, Global};

/// A value that is lent: what a table shows of a cell, with no copy of a text.
#[derive(Clone, Copy)]
pub enum CellRef<'a> {
    Null,
    Bool(bool),
    Long(i64),
    Text(&'a str),
    Moment(i64),
    Span(i64),
    Dynamic(&'a Dyn),
}

impl CellRef<'_> {
    /// Whether it shows null.
    #[tactic(auto, unfolding(crate::specs::Keys::is_null))]
    pub fn is_null(self) -> bool
        ensures null { result ≡ is_null (seen self.entry) }
    {
        matches!(self, CellRef::Null)
    }

    /// Whether it shows null, or a value of this type.
    pub fn is_of_kind(self, kind: Kind) -> bool
        ensures fits { IsTrue result ↔ IsOfKind kind (seen self.entry) }
    {
        match (kind, self) {
            (Kind::Text, CellRef::Text(_)) => true,
            (Kind::Text, _) => false,
            (_, CellRef::Null) => true,
            (Kind::Bool, CellRef::Bool(_)) => true,
            (Kind::Long, CellRef::Long(_)) => true,
            (Kind::Moment, CellRef::Moment(_)) => true,
            (Kind::Span, CellRef::Span(_)) => true,
            (Kind::Dynamic, CellRef::Dynamic(_)) => true,
            _ => false,
        }
    }

    /// Whether it shows a well-formed value: a moment is in the range of datetimes, and a dynamic value is not null
    /// itself, has bags whose keys are distinct and ascend by bytes, and has at most 127 levels.
    pub fn is_well_formed(self) -> bool
        ensures form { IsTrue result ↔ IsWellFormed (seen self.entry) }
    {
        match self {
            CellRef::Moment(n) => 0 <= n && n <= MOMENT_TOP,
            CellRef::Dynamic(d) => !is_null(d) && has_form(d) && has_levels_within(d, LEVELS_TOP),
            _ => true,
        }
    }

    /// A value of its own, as the cell shows it.
    pub fn to_value(self, alloc: Global) -> Result<Value, AllocError>
        ensures same { IfOk result (λ v. v ≡ seen self.entry) }
    {
        match self {
            CellRef::Null => Ok(Value::Null),
            CellRef::Bool(b) => Ok(Value::Bool(b)),
            CellRef::Long(n) => Ok(Value::Long(n)),
            CellRef::Text(t) => Ok(Value::Text(KText::from_str(alloc, t)?)),
            CellRef::Moment(n) => Ok(Value::Moment(n)),
            CellRef::Span(n) => Ok(Value::Span(n)),
            CellRef::Dynamic(d) => Ok(Value::Dynamic(clone_dyn(alloc, d)?)),
        }
    }

    /// Whether two cells show the same value.
    pub fn is_same(self, other: CellRef<'_>) -> bool
        ensures same { IsTrue result ↔ (seen self.entry ≡ seen other.entry) }
    {
        match (self, other) {
            (CellRef::Null, CellRef::Null) => true,
            (CellRef::Bool(x), CellRef::Bool(y)) => x == y,
            (CellRef::Long(x), CellRef::Long(y)) => x == y,
            (CellRef::Text(x), CellRef::Text(y)) => x == y,
            (CellRef::Moment(x), CellRef::Moment(y)) => x == y,
            (CellRef::Span(x), CellRef::Span(y)) => x == y,
            (CellRef::Dynamic(x), CellRef::Dynamic(y)) => same_dyn(x, y),
            _ => false,
        }
    }
}
