use kql_values::Table;
use live_run::Query;
use std::alloc::{AllocError, Global};

/// Asks for the table itself.
pub struct Whole;

impl Query for Whole {
    ghost takes = { λ _ _. Unit {0} };

    ghost answer = { λ _ table. table };

    fn ask(&self, _alloc: Global, table: Table) -> Result<Table, AllocError> {
        Ok(table)
    }
}
