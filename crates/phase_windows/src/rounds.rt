//! What a phase in rounds leaves.
use kql_items::Items;
use kql_values::Table;
use worker_board::Gathered;

/// What a phase made, and who claimed the pieces of each of its rounds, in the order in which they ran.
#[derive(Drop)]
pub struct Rounds {
    pub table: Table,
    pub gathered: Items<Gathered>,
}
