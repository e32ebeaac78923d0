//! What the steps of an answer hand on.
use kql_cells::Bytes;
use kql_items::Items;
use kql_values::Table;
use live_query::LiveQuery;
use live_run::SeenLists;

/// The opening table, and the batches.
#[derive(Drop)]
pub(crate) struct LiveTables {
    pub opening: Table,
    pub batches: Items<Table>,
}

/// A query that is bound to the opening table, and the batches by which this grows.
#[derive(Drop)]
pub(crate) struct LiveBound {
    pub query: LiveQuery,
    pub opening: Table,
    pub batches: Items<Table>,
}

/// The text of a command, and what each reader saw.
#[derive(Drop)]
pub(crate) struct LiveDone {
    pub text: Bytes,
    pub seen: SeenLists,
}
