//! A bound query over its live table, in threads.
ghost use Rattle.std.specs.Prelude.{◌≡◌, All, IfOk, fold, length, true};
ghost use Rattle.live_query.specs.LiveMeaning.{FitsColumns, live_means};
ghost use Rattle.live_query.specs.ViewForm.{is_view};
ghost use Rattle.live_run.specs.Sights.{IsSeenList};
ghost use Rattle.live_tables.specs.Growing.{has_columns_of, with_rows};
ghost use Rattle.live_words.specs.LiveReaders.{AreReaders};
ghost use Rattle.csv_io.specs.Text.{table_text};
ghost use Rattle.kql_live.specs.LiveAnswer.{SeeBound, live_text, live_watched, shown_or};

use crate::bound::{LiveBound, LiveDone};
use csv_io::table_text;
use kql_cells::Bytes;
use kql_outside::Gate;
use kql_values::Table;
use live_query::{LiveQuery, run_query, run_view, watch_text};
use live_run::Outcome;
use live_words::LiveOptions;
use std::alloc::{AllocError, Global};
use std::sync::Wait;
use std::thread::Threads;

/// The text of a query over its live table, and what each reader saw.
pub(crate) fn live_done<R: Threads + Wait + Sync, G: Gate + Sync>(
    rt: &R,
    alloc: Global,
    bound: LiveBound,
    options: LiveOptions,
    gate: &G,
) -> Result<LiveDone, AllocError>
    requires readers { AreReaders options.readers }
    requires view { options.view ≡ true → is_view bound.query.program ≡ true }
    requires fits { FitsColumns bound.query bound.opening.columns }
    requires columns { All (has_columns_of bound.opening) bound.batches }
    ensures text { IfOk result (λ done. done.text ≡ live_text options.watch bound) }
    ensures seen { IfOk result (λ done. SeeBound bound options.readers done.seen) }
{
    let watched = watched_text(alloc, &bound, options.watch)?;
    let LiveBound {
        query,
        opening,
        batches,
    } = bound;
    let Outcome { seen, table } = outcome_of(
        rt,
        alloc,
        &query,
        opening,
        batches.as_slice(),
        options,
        gate,
    )?;
    let text = shown_or(alloc, watched, &table)?;
    Ok(LiveDone { text, seen })
}

// What came of the query's run: over a view, where that is asked for, or else over the table.
fn outcome_of<R: Threads + Wait + Sync, G: Gate + Sync>(
    rt: &R,
    alloc: Global,
    query: &LiveQuery,
    opening: Table,
    batches: &[Table],
    options: LiveOptions,
    gate: &G,
) -> Result<Outcome, AllocError>
    requires readers { AreReaders options.readers }
    requires view { options.view ≡ true → is_view query.now.program ≡ true }
    requires fits { FitsColumns query.now opening.columns }
    requires columns { All (has_columns_of opening) batches.now }
    ensures count { IfOk result (λ o. length o.seen ≡ options.readers) }
    ensures seen { IfOk result (λ o. All (IsSeenList (live_means query.now) opening batches.now) o.seen) }
    ensures table { IfOk result (λ o. o.table ≡ live_means query.now (fold with_rows opening batches.now)) }
{
    let readers = options.readers;
    if options.view {
        run_view(rt, alloc, query, opening, batches, readers, gate)
    } else {
        run_query(rt, alloc, query, opening, batches, readers, gate)
    }
}

// What is shown, or else the text of a table.
fn shown_or(alloc: Global, watched: Option<Bytes>, table: &Table) -> Result<Bytes, AllocError>
    ensures text { IfOk result (λ text. text ≡ shown_or watched (table_text table.now)) }
{
    match watched {
        Some(text) => Ok(text),
        None => {
            let text = table_text(alloc, table)?;
            Ok(text)
        }
    }
}

// What is shown as the table grows, where that is asked for.
fn watched_text(alloc: Global, bound: &LiveBound, watch: bool) -> Result<Option<Bytes>, AllocError>
    requires fits { FitsColumns bound.now.query bound.now.opening.columns }
    requires columns { All (has_columns_of bound.now.opening) bound.now.batches }
    ensures watched { IfOk result (λ text. text ≡ live_watched watch bound.now) }
{
    if !watch {
        return Ok(None);
    }
    let text = watch_text(
        alloc,
        &bound.query,
        &bound.opening,
        bound.batches.as_slice(),
    )?;
    Ok(Some(text))
}
