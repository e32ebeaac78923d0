//! Where an expression stands: what its names can be, and which functions may be called.

use kql_cells::{KText, Kind, Names, Schema, Value, Values};
use kql_items::Items;
use kql_meaning::Position;

/// The constant of a `let`: its name, its type and its value, which is null or of that type.
#[derive(Debug, Drop)]
pub struct Const {
    pub name: KText,
    pub kind: Kind,
    pub value: Value,
}

/// Constants of `let` statements, the ones of each name once.
pub type Consts = Items<Const>;

/// The steps of a scan, whose records an expression may read as `step.column`.
#[derive(Debug, Drop)]
pub struct StepNames {
    /// The steps' names, in order.
    pub names: Names,
    /// The columns of the extended record: the input's, and then the declared ones.
    pub columns: Schema,
    /// What an absent record gives for each of these columns: null or a value of the column's type.
    pub defaults: Values,
}

/// Where an expression stands.
#[derive(Debug, Drop)]
pub struct Scope {
    /// The columns that a name alone can be.
    pub schema: Schema,
    /// Whether the rows are serialised, as window functions want.
    pub serial: bool,
    /// Which functions may stand in the expression.
    pub position: Position,
    /// The steps of a scan; outside of one there are none.
    pub steps: StepNames,
    /// The constants that a name can be where no column has it.
    pub consts: Consts,
    /// In position `Group` the columns that are keys, which a `*` leaves out; elsewhere none.
    pub keys: Names,
    /// In a pattern prefix the columns of the table itself, which no `extend` of the prefix has set so far, and in which a pattern may be
    /// searched for; elsewhere none.
    pub own: Names,
    /// The moment that `now` stands for, in ticks in the range of datetimes, or none.
    pub moment: Option<i64>,
}

/// Where a part of an expression stands.
#[derive(Clone, Copy, Debug, PartialEq, Eq)]
pub(crate) struct Spot {
    pub(crate) position: Position,
    /// Whether the part is the whole expression, so that a call in it may have several result columns.
    pub(crate) alone: bool,
}
