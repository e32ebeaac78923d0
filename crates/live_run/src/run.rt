ghost use Rattle.std.specs.Prelude.{◌≡◌, ◌<◌, ◌≤◌, ◌+◌, ◌^◌, [], All, IfOk, IfSome, IsSomeAnd, OnOk, fold, length, vec_len};
ghost use Rattle.std.specs.Thread.{IsSend, IsSync};
ghost use Rattle.live_tables.specs.Growing.{has_columns_of, with_rows};
ghost use Rattle.live_run.specs.Runs.{HasWatched, IsFresh, IsOfFresh, IsOpen, IsWaiting};
ghost use Rattle.live_run.specs.Sights.{IsSeenList};

use crate::append::{LIMIT, ScriptAppender, append_each};
use crate::query::Query;
use crate::question::Question;
use crate::script::{Script, Scripted};
use crate::watch::{ScriptWatcher, SeenLists, Watcher, look_last, watch};
use kql_items::Items;
use kql_outside::Gate;
use kql_values::Table;
use live_catalogue::{Grows, Readers, live};
use live_tables::LiveTable;
use std::alloc::{AllocError, Global};
use std::marker::Brand;
use std::sync::Wait;
use std::thread;
use std::thread::{Threads, join_mut};

/// What came of a run: what each reader saw, and the answer over all batches.
#[derive(Drop)]
pub struct Outcome {
    pub seen: SeenLists,
    pub table: Table,
}

// A watcher for each reader.
fn watchers_of<V: Grows, B: Script>(
    alloc: Global,
    readers: Readers<V, Scripted<B>>,
) -> Result<Vec<ScriptWatcher<V, B>>, AllocError>
    requires few { vec_len readers ≤ 8 }
    ensures fresh { (first : V) → All (IsFresh first) readers.items → IfOk result (λ ws. All (IsOfFresh first) ws.items) }
    ensures count { IfOk result (λ ws. vec_len ws ≡ vec_len readers) }
{
    let mut readers = readers;
    let mut watchers = Vec::with_capacity(alloc, readers.len())?;
    'readers: while let Some(reader) = readers.pop() {
        watchers.push(Watcher {
            number: readers.len() as u32,
            reader,
            seen: None,
        })?;
    }
    Ok(watchers)
}

// A type may be sent to other threads, and be shared by them. The search for what a thread may take finds it here.
fn know_crossing<T: Send + Sync>()
    ensures send { IsSend T.row }
    ensures sync { IsSync T.row }
{}

// Every reader asks, each in a thread of its own.
fn watch_all<
    R: Threads + Sync,
    V: Grows + Send + Sync,
    B: Script + Send + Sync,
    Q: Question<V> + Sync,
    G: Gate + Sync,
>(rt: &R, alloc: Global, query: &Q, times: usize, gate: &G, watchers: &mut Vec<ScriptWatcher<V, B>>)
    requires some { 0 < vec_len watchers.old }
    requires waiting { All (IsWaiting (Q.stands query.now B.opening)) watchers.old.items }
    requires follows { All (Q.follows query.now B.opening) B.batches }
    ensures watched { All (HasWatched (Q.stands query.now B.opening) (Q.answer query.now) B.opening B.batches times) watchers.new.items }
    ensures count { vec_len watchers.new ≡ vec_len watchers.old }
{
    know_crossing::<V>();
    let count = watchers.len();
    let one = |_: usize, watcher: &mut ScriptWatcher<V, B>|
        requires { IsWaiting (Q.stands query.now B.opening) watcher.now × All (Q.follows query.now B.opening) B.batches }
        ensures { HasWatched (Q.stands query.entry.now B.opening) (Q.answer query.entry.now) B.opening B.batches times watcher.exit.now }
    { watch(alloc, watcher, query, times, gate) };
    thread::for_each_mut(rt, watchers.as_mut_slice(), count, &one);
}

// The appender publishes, and beside it every reader asks. What the two have of types stands apart, since the borrow checker covers no two closures
// that lend over one type.
fn run_beside<
    R: Threads + Wait + Sync,
    V: Grows + Send + Sync,
    W: Grows + Send + Sync,
    B: Script + Send + Sync,
    C: Script + Send + Sync,
    Q: Question<W> + Sync,
    G: Gate + Sync,
>(
    rt: &R,
    alloc: Global,
    appender: &mut ScriptAppender<V, B>,
    watchers: &mut Vec<ScriptWatcher<W, C>>,
    batches: &[Table],
    query: &Q,
    times: usize,
    gate: &G,
) -> Result<(), AllocError>
    requires open { IsOpen appender.old }
    requires none { appender.old.published ≡ [] }
    requires script { batches.now ≡ B.batches }
    requires takes { All (V.can_take appender.old.value) batches.now }
    requires some { 0 < vec_len watchers.old }
    requires waiting { All (IsWaiting (Q.stands query.now C.opening)) watchers.old.items }
    requires follows { All (Q.follows query.now C.opening) C.batches }
    ensures open { OnOk result (IsOpen appender.new) }
    ensures published { OnOk result (appender.new.published ≡ B.batches) }
    ensures opening { OnOk result (appender.new.opening ≡ appender.old.opening) }
    ensures watched { All (HasWatched (Q.stands query.now C.opening) (Q.answer query.now) C.opening C.batches times) watchers.new.items }
    ensures count { vec_len watchers.new ≡ vec_len watchers.old }
{
    know_crossing::<V>();
    know_crossing::<W>();
    // the borrow checker does not cover two closures that lend one `alloc`
    let reading = alloc;
    let ((), appended) = join_mut(
        rt,
        &mut || -> ()
            requires { IsSync R.row × IsSend C.row × IsSync C.row × IsSync Q.row × IsSync G.row × (0 < vec_len watchers.now) × All (IsWaiting (Q.stands query.now C.opening)) watchers.now.items × All (Q.follows query.now C.opening) C.batches }
            ensures { All (HasWatched (Q.stands query.entry.now C.opening) (Q.answer query.entry.now) C.opening C.batches times) watchers.exit.now.items × (vec_len watchers.exit.now ≡ vec_len watchers.entry.now) }
        { watch_all(rt, reading, query, times, gate, watchers) },
        &mut || -> Result<(), AllocError>
            requires { IsOpen appender.now × (appender.now.published ≡ []) × (batches.now ≡ B.batches) × All (V.can_take appender.now.value) batches.now }
            ensures { OnOk result (IsOpen appender.exit.now × (appender.exit.now.published ≡ B.batches) × (appender.exit.now.opening ≡ appender.entry.now.opening)) }
        { append_each(rt, alloc, batches, appender) },
    );
    appended
}

// Tells each reader that all batches are published, and lets it ask once more.
fn gather<V: Grows, B: Script, Q: Question<V>>(
    alloc: Global,
    appender: &mut ScriptAppender<V, B>,
    watchers: Vec<ScriptWatcher<V, B>>,
    query: &Q,
    times: usize,
) -> Result<Outcome, AllocError>
    requires watched { All (HasWatched (Q.stands query.now B.opening) (Q.answer query.now) B.opening B.batches times) watchers.items }
    requires times { times ≡ length B.batches + 1 }
    requires follows { All (Q.follows query.now B.opening) B.batches }
    requires opened { IsSomeAnd appender.old.opening (Q.stands query.now B.opening) }
    requires published { appender.old.published ≡ B.batches }
    ensures count { IfOk result (λ o. length o.seen ≡ vec_len watchers) }
    ensures seen { IfOk result (λ o. All (IsSeenList (Q.answer query.now) B.opening B.batches) o.seen) }
    ensures table { IfOk result (λ o. o.table ≡ Q.answer query.now (fold with_rows B.opening B.batches)) }
{
    let mut watchers = watchers;
    let Some(first) = watchers.pop() else {
        return Err(AllocError);
    };
    let (list, table) = look_last(alloc, appender, first, query, times)?;
    let mut seen = Items::new(alloc);
    seen.push(list)?;
    'watchers: while let Some(watcher) = watchers.pop() {
        let (list, _table) = look_last(alloc, appender, watcher, query, times)?;
        seen.push(list)?;
    }
    Ok(Outcome { seen, table })
}

fn run_script<
    R: Threads + Wait + Sync,
    V: Grows + Send + Sync,
    B: Script + Send + Sync,
    Q: Question<V> + Sync,
    G: Gate + Sync,
>(
    rt: &R,
    alloc: Global,
    appender: &mut ScriptAppender<V, B>,
    readers: Readers<V, Scripted<B>>,
    batches: &[Table],
    query: &Q,
    gate: &G,
) -> Result<Outcome, AllocError>
    requires open { IsOpen appender.old }
    requires none { appender.old.published ≡ [] }
    requires script { batches.now ≡ B.batches }
    requires takes { All (V.can_take appender.old.value) batches.now }
    requires some { (0 < vec_len readers) × (vec_len readers ≤ 8) }
    requires opened { IsSomeAnd appender.old.opening (Q.stands query.now B.opening) }
    requires fresh { IfSome appender.old.opening (λ first. All (IsFresh first) readers.items) }
    requires follows { All (Q.follows query.now B.opening) B.batches }
    ensures count { IfOk result (λ o. length o.seen ≡ vec_len readers) }
    ensures seen { IfOk result (λ o. All (IsSeenList (Q.answer query.now) B.opening B.batches) o.seen) }
    ensures table { IfOk result (λ o. o.table ≡ Q.answer query.now (fold with_rows B.opening B.batches)) }
{
    let times = batches.len() + 1;
    let mut watchers = watchers_of(alloc, readers)?;
    run_beside(
        rt,
        alloc,
        appender,
        &mut watchers,
        batches,
        query,
        times,
        gate,
    )?;
    gather(alloc, appender, watchers, query, times)
}

/// Opens a value that grows, and publishes the batches one after another. Beside that each reader enters the gate with its number, from 0, and asks
/// once more than there are batches. At last each learns that all are published, and asks once more. The script names the table that the
/// opening value stands for.
///
/// It may wait: the appender for readers.
pub fn run_value<
    R: Threads + Wait + Sync,
    V: Grows + Send + Sync,
    B: Script + Send + Sync,
    Q: Question<V> + Sync,
    G: Gate + Sync,
>(
    rt: &R,
    alloc: Global,
    first: V,
    batches: &[Table],
    readers: u32,
    query: &Q,
    gate: &G,
) -> Result<Outcome, AllocError>
    requires script { batches.now ≡ B.batches }
    requires readers { (0 < readers) × (readers ≤ 8) }
    requires takes { All (V.can_take first) batches.now }
    requires stands { Q.stands query.now B.opening first }
    requires follows { All (Q.follows query.now B.opening) B.batches }
    ensures count { IfOk result (λ o. length o.seen ≡ readers) }
    ensures seen { IfOk result (λ o. All (IsSeenList (Q.answer query.now) B.opening B.batches) o.seen) }
    ensures table { IfOk result (λ o. o.table ≡ Q.answer query.now (fold with_rows B.opening B.batches)) }
{
    // No value has as many rows.
    if first.rows() >= LIMIT {
        return Err(AllocError);
    }
    let (mut appender, readers) = live::<V, Scripted<B>, R>(rt, alloc, first, readers)?;
    let outcome = run_script(rt, alloc, &mut appender, readers, batches, query, gate);
    appender.end(rt);
    outcome
}

/// Opens a live table with the first table, and publishes the batches one after another. Beside that each reader enters the gate with its
/// number, from 0, and asks the query once more than there are batches. At last each learns that all are published, and asks once more.
///
/// It may wait: the appender for readers.
pub fn run_live<R: Threads + Wait + Sync, Q: Query + Sync, G: Gate + Sync>(
    rt: &R,
    alloc: Global,
    opening: Table,
    batches: &[Table],
    readers: u32,
    query: &Q,
    gate: &G,
) -> Result<Outcome, AllocError>
    requires readers { (0 < readers) × (readers ≤ 8) }
    requires columns { All (has_columns_of opening) batches.now }
    requires takes { Q.takes query.now opening.columns }
    ensures count { IfOk result (λ o. length o.seen ≡ readers) }
    ensures seen { IfOk result (λ o. All (IsSeenList (Q.answer query.now) opening batches.now) o.seen) }
    ensures table { IfOk result (λ o. o.table ≡ Q.answer query.now (fold with_rows opening batches.now)) }
{
    let first = LiveTable::new(alloc, opening);
    run_value::<R, LiveTable, Brand, Q, G>(rt, alloc, first, batches, readers, query, gate)
}
