ghost use Rattle.std.specs.Prelude.{◌≡◌, ◌<◌, ◌≤◌, All, IfOk, fold, length};
ghost use Rattle.live_run.specs.Sights.{IsSeenList};
ghost use Rattle.live_tables.specs.Growing.{has_columns_of, with_rows};
ghost use Rattle.live_query.specs.LiveMeaning.{FitsColumns, live_means};

use crate::query::LiveQuery;
use kql_outside::Gate;
use kql_values::Table;
use live_run::{Outcome, run_live};
use std::alloc::{AllocError, Global};
use std::sync::Wait;
use std::thread::Threads;

/// A live table that opens so and grows by the batches, one after another, and beside that so many readers that ask the query: what each
/// saw, and the answer over all batches.
///
/// It may wait: the appender for readers.
pub fn run_query<R: Threads + Wait + Sync, G: Gate + Sync>(
    rt: &R,
    alloc: Global,
    query: &LiveQuery,
    opening: Table,
    batches: &[Table],
    readers: u32,
    gate: &G,
) -> Result<Outcome, AllocError>
    requires readers { (0 < readers) × (readers ≤ 8) }
    requires columns { All (has_columns_of opening) batches.now }
    requires fits { FitsColumns query.now opening.columns }
    ensures count { IfOk result (λ o. length o.seen ≡ readers) }
    ensures seen { IfOk result (λ o. All (IsSeenList (live_means query.now) opening batches.now) o.seen) }
    ensures table { IfOk result (λ o. o.table ≡ live_means query.now (fold with_rows opening batches.now)) }
{
    run_live(rt, alloc, opening, batches, readers, query, gate)
}
