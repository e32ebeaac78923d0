//! What a phase in pieces leaves.
use kql_values::Table;
use worker_board::Gathered;

/// What a phase made, and who claimed its pieces.
#[derive(Drop)]
pub struct Ran {
    pub table: Table,
    pub gathered: Gathered,
}
