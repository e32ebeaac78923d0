//! The values of an expression at all rows.
ghost use Rattle.std.specs.Prelude.{◌≡◌};
ghost use Rattle.kql_scalar.specs.Held.{held};

use kql_values::Vector;

/// The values of an expression at all rows of a table: the table's own vector, or one that was made.
#[derive(Drop)]
pub enum LentColumn<'a> {
    Lent(&'a Vector),
    Made(Vector),
}

impl<'a> LentColumn<'a> {
    /// The vector, read where it stands.
    pub fn as_vector(&self) -> &Vector
        ensures values { result.now ≡ held self.now }
    {
        match self {
            LentColumn::Lent(vector) => vector,
            LentColumn::Made(vector) => vector,
        }
    }
}
