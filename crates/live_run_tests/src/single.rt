//! One reader that asks before a batch and behind it.
ghost use Rattle.std.specs.Prelude.{◌≡◌, IsSome, false};

use crate::asks::{bare_answer, one_reader, whole_answer};
use crate::table::{Made, batch, opening, shows, stage};
use crate::tally::Tally;
use live_catalogue::{Appender, LiveReader};
use live_tables::LiveTable;
use std::alloc::Global;
use std::sync::Wait;
use std::test::Fail;

// Whether the answer is after so many batches, and has these rows.
fn is_whole(
    alloc: Global,
    reader: &mut LiveReader<LiveTable>,
    batches: u64,
    rows: &[i64],
) -> Made<bool>
    requires opened { IsSome reader.old.opening }
    ensures opened { IsSome reader.new.opening }
{
    let answer = whole_answer(alloc, reader)?;
    Ok(answer.batches == batches && shows(&answer.table, rows))
}

fn grows_whole<R: Wait>(
    rt: &R,
    alloc: Global,
    appender: &mut Appender<LiveTable>,
    reader: &mut LiveReader<LiveTable>,
) -> Made<bool>
    requires open { appender.old.closed ≡ false }
    requires opened { IsSome reader.old.opening }
{
    let begun = is_whole(alloc, reader, 0, &[7])?;
    let staged = stage(appender, batch(alloc, &[1, 2])?);
    appender.publish(rt)?;
    let grown = is_whole(alloc, reader, 1, &[7, 1, 2])?;
    Ok(begun && staged && grown)
}

#[test]
fn a_query_sees_the_batch(rt: HostRuntime) -> Result<(), Fail> {
    let first = opening(rt.alloc(), &[7])?;
    let (mut appender, mut reader) = one_reader(&rt, rt.alloc(), first)?;
    let fine = grows_whole(&rt, rt.alloc(), &mut appender, &mut reader);
    appender.end(&rt);
    assert!(rt; fine?);
    Ok(())
}

// Whether the answer is after so many batches, and has so many rows and no column.
fn is_bare(alloc: Global, reader: &mut LiveReader<Tally>, batches: u64, rows: usize) -> Made<bool>
    requires opened { IsSome reader.old.opening }
    ensures opened { IsSome reader.new.opening }
{
    let answer = bare_answer(alloc, reader)?;
    let bare = answer.table.schema().len() == 0;
    Ok(bare && answer.batches == batches && answer.table.len() == rows)
}

fn grows_bare<R: Wait>(
    rt: &R,
    alloc: Global,
    appender: &mut Appender<Tally>,
    reader: &mut LiveReader<Tally>,
) -> Made<bool>
    requires open { appender.old.closed ≡ false }
    requires opened { IsSome reader.old.opening }
{
    let begun = is_bare(alloc, reader, 0, 1)?;
    let staged = stage(appender, batch(alloc, &[1, 2])?);
    appender.publish(rt)?;
    let grown = is_bare(alloc, reader, 1, 3)?;
    Ok(begun && staged && grown)
}

#[test]
fn a_question_sees_the_batch(rt: HostRuntime) -> Result<(), Fail> {
    let table = batch(rt.alloc(), &[7])?;
    let first = Tally::of(&table);
    let (mut appender, mut reader) = one_reader(&rt, rt.alloc(), first)?;
    let fine = grows_bare(&rt, rt.alloc(), &mut appender, &mut reader);
    appender.end(&rt);
    assert!(rt; fine?);
    Ok(())
}
