//! What the steps of an answer hand on.
use crate::ended::Ended;
use kql_bound::Program;
use kql_cells::Bytes;
use kql_items::Boxed;
use kql_values::Catalogue;

/// A query that is bound: its program, and the tables that this fits.
#[derive(Drop)]
pub(crate) struct BoundQuery {
    pub program: Boxed<Program>,
    pub catalogue: Catalogue,
}

/// The text that a command asks for, and the ending after it was written.
#[derive(Drop)]
pub(crate) struct Done {
    pub text: Bytes,
    pub ended: Ended,
}
