//! What is asked of a value with one reader, and of a whole run.
ghost use Rattle.std.specs.Prelude.{◌≡◌, ◌<◌, ◌≤◌, ◌^◌, IfOk, IsSome, false};

use crate::tally::{Bare, Tally};
use crate::whole::Whole;
use kql_outside::Gate;
use kql_values::Table;
use live_catalogue::{Appender, Grows, LiveReader, live};
use live_run::{LiveAnswer, Outcome, query_live, query_value, run_value};
use live_tables::LiveTable;
use std::alloc::{AllocError, Global};
use std::marker::Brand;
use std::sync::Wait;
use std::thread::Threads;

/// The appender of a value, and its one reader.
pub(crate) fn one_reader<V: Grows, R: Wait>(
    rt: &R,
    alloc: Global,
    first: V,
) -> Result<(Appender<V>, LiveReader<V>), AllocError>
    requires rows { V.row_count first < 2 ^ 63 }
    ensures open { IfOk result (λ (a, r). a.closed ≡ false) }
    ensures opened { IfOk result (λ (a, r). IsSome r.opening) }
{
    let (appender, mut readers) = live(rt, alloc, first, 1)?;
    let Some(reader) = readers.pop() else {
        appender.end(rt);
        return Err(AllocError);
    };
    Ok((appender, reader))
}

/// The table as it is published now.
pub(crate) fn whole_answer(
    alloc: Global,
    reader: &mut LiveReader<LiveTable>,
) -> Result<LiveAnswer, AllocError>
    requires opened { IsSome reader.old.opening }
    ensures opened { IsSome reader.new.opening }
{
    query_live(alloc, reader, &Whole)
}

/// As many rows without columns as are published now.
pub(crate) fn bare_answer(
    alloc: Global,
    reader: &mut LiveReader<Tally>,
) -> Result<LiveAnswer, AllocError>
    requires opened { IsSome reader.old.opening }
    ensures opened { IsSome reader.new.opening }
{
    query_value(alloc, reader, &Bare)
}

/// A run in which the rows alone are counted.
pub(crate) fn run_tally<R: Threads + Wait + Sync, G: Gate + Sync>(
    rt: &R,
    alloc: Global,
    opening: &Table,
    batches: &[Table],
    readers: u32,
    gate: &G,
) -> Result<Outcome, AllocError>
    requires readers { (0 < readers) × (readers ≤ 8) }
{
    let first = Tally::of(opening);
    run_value::<R, Tally, Brand, Bare, G>(rt, alloc, first, batches, readers, &Bare, gate)
}
