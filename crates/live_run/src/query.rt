ghost use Rattle.std.specs.Prelude.{◌≡◌, ◌≤◌, ℕ, List, length, fold, IfOk, IfSome, IsSomeAnd, true, OnErr};
ghost use Rattle.kql_cells.specs.Table.{Grid};
ghost use Rattle.kql_cells.specs.declared.schema.Column.{Column};
ghost use Rattle.live_catalogue.specs.Rule.{StartsWith};
ghost use Rattle.live_tables.specs.Growing.{with_rows};

use crate::question::query_value;
use kql_values::Table;
use live_catalogue::{LiveReader, Promise};
use live_tables::LiveTable;
use std::alloc::{AllocError, Global};

/// What is asked of one table.
pub trait Query {
    // the columns of the tables that it may be asked of
    ghost takes: { Self → List Column → Type 0 };

    // what it answers
    ghost answer: { Self → Grid → Grid };

    /// The answer over a table. Only memory may be wanting.
    fn ask(&self, alloc: Global, table: Table) -> Result<Table, AllocError>
        requires takes { takes self.now table.columns }
        ensures answer { IfOk result (λ t. t ≡ answer self.now table) };
}

/// The answer over a table as it was after the first `batches` batches.
#[derive(Drop)]
pub struct LiveAnswer {
    pub batches: u64,
    pub table: Table,
}

/// The answer over the table as it is published now: it is the opening table, grown by the reader's batches.
pub fn query_live<K: Promise<LiveTable>, Q: Query>(
    alloc: Global,
    reader: &mut LiveReader<LiveTable, K>,
    query: &Q,
) -> Result<LiveAnswer, AllocError>
    requires takes { IsSomeAnd reader.old.opening (λ o. Q.takes query.now o.columns) }
    ensures same { (reader.new.opening ≡ reader.old.opening) × (reader.new.closed ≡ reader.old.closed) }
    ensures later { StartsWith reader.new.batches reader.old.batches }
    ensures last { reader.old.closed ≡ true → reader.new.batches ≡ reader.old.batches }
    ensures batches { IfOk result (λ a. a.batches ≡ length reader.new.batches) }
    ensures answer { IfOk result (λ a. IfSome reader.new.opening (λ o. a.table ≡ Q.answer query.now (fold with_rows o reader.new.batches))) }
    ensures promise { IfOk result (λ a. IfSome reader.new.opening (λ o. K.promised o reader.new.batches)) }
    ensures least { IfOk result (λ a. (reader.old.least ≤ a.batches) × (reader.new.least ≡ a.batches)) }
    ensures err { OnErr result (reader.old.least ≤ reader.new.least) }
{
    query_value(alloc, reader, query)
}
