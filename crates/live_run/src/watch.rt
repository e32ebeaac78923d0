ghost use Rattle.std.specs.Prelude.{◌≡◌, ◌≤◌, ◌+◌, All, IfOk, IsSomeAnd, OnOk, fold, length, true};
ghost use Rattle.live_tables.specs.Growing.{with_rows};
ghost use Rattle.live_run.specs.Runs.{HasWatched, IsReading, IsWaiting};
ghost use Rattle.live_run.specs.Sights.{HasSeen, IsSeenList, IsSight};

use crate::append::ScriptAppender;
use crate::query::LiveAnswer;
use crate::question::{Question, query_value};
use crate::script::{Script, Scripted};
use kql_items::Items;
use kql_outside::Gate;
use kql_values::Table;
use live_catalogue::{Grows, LiveReader};
use std::alloc::{AllocError, Global};

/// What a reader saw once: after how many batches, and how many rows the answer had then.
#[derive(Clone, Copy, Debug, PartialEq, Eq)]
pub struct Seen {
    pub batches: u64,
    pub rows: u64,
}

/// What one reader saw, from the first time to the last.
pub type SeenList = Items<Seen>;

/// What each reader saw, in their order.
pub type SeenLists = Items<SeenList>;

pub(crate) type ScriptReader<V, B> = LiveReader<V, Scripted<B>>;

/// A reader, its number, and what it has seen: nothing where it wanted memory.
#[derive(Drop)]
pub(crate) struct Watcher<T> {
    pub(crate) number: u32,
    pub(crate) reader: T,
    pub(crate) seen: Option<SeenList>,
}

pub(crate) type ScriptWatcher<V, B> = Watcher<ScriptReader<V, B>>;

// Asks the query once.
fn look<V: Grows, B: Script, Q: Question<V>>(
    alloc: Global,
    reader: &mut ScriptReader<V, B>,
    query: &Q,
) -> Result<(Seen, Table), AllocError>
    requires opened { IsSomeAnd reader.old.opening (Q.stands query.now B.opening) }
    requires follows { All (Q.follows query.now B.opening) B.batches }
    ensures same { (reader.new.opening ≡ reader.old.opening) × (reader.new.closed ≡ reader.old.closed) }
    ensures last { reader.old.closed ≡ true → reader.new.batches ≡ reader.old.batches }
    ensures sight { IfOk result (λ r. IsSight (Q.answer query.now) B.opening B.batches r.0) }
    ensures least { IfOk result (λ r. (reader.old.least ≤ r.0.batches) × (reader.new.least ≡ r.0.batches)) }
    ensures batches { IfOk result (λ r. r.0.batches ≡ length reader.new.batches) }
    ensures table { IfOk result (λ r. r.1 ≡ Q.answer query.now (fold with_rows B.opening reader.new.batches)) }
{
    let LiveAnswer { batches, table } = query_value(alloc, reader, query)?;
    let rows = table.len() as u64;
    Ok((Seen { batches, rows }, table))
}

// Asks the query so many times.
fn look_often<V: Grows, B: Script, Q: Question<V>>(
    alloc: Global,
    reader: &mut ScriptReader<V, B>,
    query: &Q,
    times: usize,
) -> Result<SeenList, AllocError>
    requires reading { IsReading (Q.stands query.now B.opening) reader.old }
    requires follows { All (Q.follows query.now B.opening) B.batches }
    ensures reading { OnOk result (IsReading (Q.stands query.now B.opening) reader.new) }
    ensures seen { IfOk result (λ seen. HasSeen (Q.answer query.now) B.opening B.batches reader.old.least seen reader.new.least) }
    ensures count { IfOk result (λ seen. length seen ≡ times) }
{
    let mut seen = Items::new(alloc);
    for _ in 0..times {
        let (sight, _table) = look(alloc, reader, query)?;
        seen.push(sight)?;
    }
    Ok(seen)
}

/// Enters the gate, and asks the query so many times.
pub(crate) fn watch<V: Grows, B: Script, Q: Question<V>, G: Gate>(
    alloc: Global,
    watcher: &mut ScriptWatcher<V, B>,
    query: &Q,
    times: usize,
    gate: &G,
)
    requires waiting { IsWaiting (Q.stands query.now B.opening) watcher.old }
    requires follows { All (Q.follows query.now B.opening) B.batches }
    ensures watched { HasWatched (Q.stands query.now B.opening) (Q.answer query.now) B.opening B.batches times watcher.new }
{
    gate.enter(0, watcher.number);
    watcher.seen = match look_often(alloc, &mut watcher.reader, query, times) {
        Ok(seen) => Some(seen),
        Err(_) => None,
    };
}

/// Tells the reader that all batches are published, and asks the query once more.
pub(crate) fn look_last<V: Grows, B: Script, Q: Question<V>>(
    alloc: Global,
    appender: &mut ScriptAppender<V, B>,
    watcher: ScriptWatcher<V, B>,
    query: &Q,
    times: usize,
) -> Result<(SeenList, Table), AllocError>
    requires watched { HasWatched (Q.stands query.now B.opening) (Q.answer query.now) B.opening B.batches times watcher }
    requires times { times ≡ length B.batches + 1 }
    requires follows { All (Q.follows query.now B.opening) B.batches }
    requires opened { IsSomeAnd appender.old.opening (Q.stands query.now B.opening) }
    requires published { appender.old.published ≡ B.batches }
    ensures opened { appender.new.opening ≡ appender.old.opening }
    ensures published { appender.new.published ≡ appender.old.published }
    ensures list { IfOk result (λ r. IsSeenList (Q.answer query.now) B.opening B.batches r.0) }
    ensures table { IfOk result (λ r. r.1 ≡ Q.answer query.now (fold with_rows B.opening B.batches)) }
{
    let Watcher {
        number: _,
        mut reader,
        seen,
    } = watcher;
    let Some(mut seen) = seen else {
        return Err(AllocError);
    };
    reader.learn(appender.last_note()?);
    let (sight, table) = look(alloc, &mut reader, query)?;
    seen.push(sight)?;
    Ok((seen, table))
}
