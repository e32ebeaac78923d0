use kql_cells::{Names, Schema};

/// What an operator sees of the rows before it: their columns, whether they are serialised, and what they still are of a table.
#[derive(Debug, Drop)]
pub struct Shape {
    pub columns: Schema,
    pub serial: bool,
    /// In a pattern prefix, `where` and `extend` directly behind a table's name: the columns of the table itself, which no `extend` has set
    /// so far. Elsewhere none.
    pub own: Names,
}
