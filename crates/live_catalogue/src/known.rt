use kql_values::Table;
use std::collections::LinkedList;

/// What a seat knows, which contracts speak of. No value of it is made.
pub struct Known<V> {
    /// The opening value; `None` where the seat knows nothing.
    pub opening: Option<V>,
    /// The first batches that were published, in order.
    pub batches: LinkedList<Table>,
    /// Whether it is the appender's.
    pub appends: bool,
    /// Whether it has the closing mark: then no batch follows these.
    pub closed: bool,
}
