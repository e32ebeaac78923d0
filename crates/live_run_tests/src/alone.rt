//! All calls, in one thread.
ghost use Rattle.std.specs.Prelude.{◌≡◌, false};

use crate::table::{Made, batch, named_table, opening, sees, stage};
use live_catalogue::{Appender, NoPromise, Readers, every_live_value_is_lawful, live};
use live_tables::LiveTable;
use std::alloc::Global;
use std::sync::Wait;
use std::test::Fail;

fn some_batches<R: Wait>(
    rt: &R,
    alloc: Global,
    appender: &mut Appender<LiveTable>,
    readers: &mut Readers<LiveTable>,
) -> Made<bool>
    requires open { appender.old.closed ≡ false }
{
    let (Some(mut second), Some(mut first)) = (readers.pop(), readers.pop()) else {
        return Ok(false);
    };
    every_live_value_is_lawful::<LiveTable, NoPromise>();
    let begun = sees(&mut first, 0, &[7]);
    if !stage(appender, batch(alloc, &[1, 2])?) || !stage(appender, batch(alloc, &[3])?) {
        return Ok(false);
    }
    let pending = appender.rows() == 4 && appender.staged() == 2 && sees(&mut first, 0, &[7]);
    let two = appender.publish(rt)?;
    let published = two == 2 && sees(&mut first, 2, &[7, 1, 2, 3]);
    let note = appender.note()?;
    let told = note.number() == 2;
    second.learn(note);
    let learnt = sees(&mut second, 2, &[7, 1, 2, 3]);
    let (one, other) = (appender.last_note()?, appender.last_note()?);
    first.learn(one);
    second.learn(other);
    let last = sees(&mut first, 2, &[7, 1, 2, 3]) && sees(&mut second, 2, &[7, 1, 2, 3]);
    readers.push(first)?;
    Ok(begun && pending && published && told && learnt && last && appender.is_closed())
}

#[test]
fn batches_are_seen_as_published(rt: HostRuntime) -> Result<(), Fail> {
    let first = opening(rt.alloc(), &[7])?;
    let (mut appender, mut readers) = live(&rt, rt.alloc(), first, 2)?;
    let fine = some_batches(&rt, rt.alloc(), &mut appender, &mut readers);
    appender.end(&rt);
    let mut reader = readers.pop().expect(&rt, "a reader is left");
    assert!(rt; reader.snapshot().is_err());
    assert!(rt; fine?);
    Ok(())
}

// An opening table without rows, batches without rows, and one of another column.
fn odd_batches<R: Wait>(
    rt: &R,
    alloc: Global,
    appender: &mut Appender<LiveTable>,
    readers: &mut Readers<LiveTable>,
) -> Made<bool>
    requires open { appender.old.closed ≡ false }
{
    let Some(mut reader) = readers.pop() else {
        return Ok(false);
    };
    let other = appender.takes(&named_table(alloc, "m", &[1])?);
    let begun = sees(&mut reader, 0, &[]);
    let none = appender.publish(rt)? == 0 && sees(&mut reader, 0, &[]);
    let empty = stage(appender, batch(alloc, &[])?) && stage(appender, batch(alloc, &[])?);
    if appender.is_closed() {
        return Ok(false);
    }
    let two = appender.publish(rt)? == 2 && sees(&mut reader, 2, &[]);
    Ok(!other && begun && none && empty && two && appender.rows() == 0)
}

#[test]
fn batches_without_rows_count(rt: HostRuntime) -> Result<(), Fail> {
    let first = opening(rt.alloc(), &[])?;
    let (mut appender, mut readers) = live(&rt, rt.alloc(), first, 1)?;
    let fine = odd_batches(&rt, rt.alloc(), &mut appender, &mut readers);
    appender.end(&rt);
    assert!(rt; fine?);
    Ok(())
}
