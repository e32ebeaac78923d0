ghost use Rattle.std.specs.Prelude.{◌≡◌, ◌≤◌, List, length, fold, IfOk, IfSome, IsSomeAnd, true, OnErr};
ghost use Rattle.kql_cells.specs.Table.{Grid};
ghost use Rattle.live_catalogue.specs.Rule.{StartsWith};
ghost use Rattle.live_tables.specs.Growing.{with_rows};

use crate::query::{LiveAnswer, Query};
use kql_values::Table;
use live_catalogue::{Grows, LiveReader, Promise, Snapshot};
use live_tables::LiveTable;
use std::alloc::{AllocError, Global};

/// What is asked of a value that grows as a table does, and stands for one: for a table itself, or for what is kept of its rows.
pub trait Question<V: Grows> {
    // the value stands for this table, of which this may be asked
    ghost stands: { Self → Grid → V → Type 0 };

    // this batch may come behind such a table
    ghost follows: { Self → Grid → Grid → Type 0 };

    // what is answered over a table
    ghost answer: { Self → Grid → Grid };

    /// The answer over the table that a value stands for. Only memory may be wanting.
    fn ask_value(&self, alloc: Global, value: V) -> Result<Table, AllocError>
        requires stands { (table : Grid) × stands self.now table value }
        ensures answer { (table : Grid) → stands self.now table value → IfOk result (λ t. t ≡ answer self.now table) };

    // What has grown by a batch stands for the table with its rows, and the same batches may come behind that.
    ghost grows: { (q : Self) (table batch : Grid) (v : V) → stands q table v → follows q table batch → stands q (with_rows table batch) (V.grown v batch) };

    ghost follows_on: { (q : Self) (table batch next : Grid) → follows q table next → follows q (with_rows table batch) next };
}

/// A query of one table is a question to a table that grows.
impl<Q: Query> Question<LiveTable> for Q {
    ghost use Rattle.std.specs.Prelude.{◌≡◌};
    ghost use Rattle.std.proofs.Common.{ap};
    ghost use Rattle.kql_cells.specs.Table.{Grid};
    ghost use Rattle.live_tables.specs.Growing.{with_rows};

    ghost stands = { λ q table t. (t ≡ table) × Q.takes q table.columns };

    ghost follows = { λ _ _ _. Unit {0} };

    ghost answer = { Q.answer };

    fn ask_value(&self, alloc: Global, value: LiveTable) -> Result<Table, AllocError> {
        self.ask(alloc, value.into_table())
    }

    ghost grows = { λ q table batch t h _. (ap (λ (g : Grid). with_rows g batch) h.0, h.1) };

    ghost follows_on = { λ _ _ _ _ _. tt };
}

/// The answer over what is published now: the value that opened, grown by the reader's batches, stands for a table as long as these are promised.
pub fn query_value<V: Grows, K: Promise<V>, Q: Question<V>>(
    alloc: Global,
    reader: &mut LiveReader<V, K>,
    query: &Q,
) -> Result<LiveAnswer, AllocError>
    requires asked { IsSomeAnd reader.old.opening (λ o. (batches : List Grid) → K.promised o batches → (table : Grid) × Q.stands query.now table (fold V.grown o batches)) }
    ensures same { (reader.new.opening ≡ reader.old.opening) × (reader.new.closed ≡ reader.old.closed) }
    ensures later { StartsWith reader.new.batches reader.old.batches }
    ensures last { reader.old.closed ≡ true → reader.new.batches ≡ reader.old.batches }
    ensures batches { IfOk result (λ a. a.batches ≡ length reader.new.batches) }
    ensures answer { IfOk result (λ a. IfSome reader.new.opening (λ o. (table : Grid) → Q.stands query.now table (fold V.grown o reader.new.batches) → a.table ≡ Q.answer query.now table)) }
    ensures promise { IfOk result (λ a. IfSome reader.new.opening (λ o. K.promised o reader.new.batches)) }
    ensures least { IfOk result (λ a. (reader.old.least ≤ a.batches) × (reader.new.least ≡ a.batches)) }
    ensures err { OnErr result (reader.old.least ≤ reader.new.least) }
{
    let Snapshot { batches, value } = reader.snapshot()?;
    let table = query.ask_value(alloc, value)?;
    Ok(LiveAnswer { batches, table })
}
