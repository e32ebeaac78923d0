//! Eight readers, and notes that are not learnt.
use crate::table::{Made, batch, opening, sees, stage};
use live_catalogue::{Appender, Note, Readers, live};
use live_tables::LiveTable;
use std::alloc::Global;
use std::sync::Wait;
use std::test::Fail;

// How many readers see the batch after it was published.
fn published_to<R: Wait>(
    rt: &R,
    alloc: Global,
    appender: &mut Appender<LiveTable>,
    readers: &mut Readers<LiveTable>,
) -> Made<u32> {
    if !stage(appender, batch(alloc, &[5])?) || appender.is_closed() {
        return Ok(0);
    }
    appender.publish(rt)?;
    let mut count = 0u32;
    for reader in readers.iter_mut() {
        if sees(reader, 1, &[4, 5]) {
            count = count.saturating_add(1);
        }
    }
    Ok(count)
}

#[test]
fn eight_readers_see_a_batch(rt: HostRuntime) -> Result<(), Fail> {
    let first = opening(rt.alloc(), &[4])?;
    let (mut appender, mut readers) = live(&rt, rt.alloc(), first, 8)?;
    let count = published_to(&rt, rt.alloc(), &mut appender, &mut readers);
    appender.end(&rt);
    assert_eq!(rt; count?, 8);
    Ok(())
}

// How many notes are out before one is refused.
fn notes_out(alloc: Global, appender: &mut Appender<LiveTable>) -> Made<usize> {
    let mut notes: Vec<Note<LiveTable>> = Vec::new(alloc);
    for _ in 0..100 {
        match appender.note() {
            Ok(note) => notes.push(note)?,
            Err(_) => break,
        }
    }
    Ok(notes.len())
}

#[test]
fn the_thirty_third_note_is_refused(rt: HostRuntime) -> Result<(), Fail> {
    let first = opening(rt.alloc(), &[4])?;
    let (mut appender, readers) = live(&rt, rt.alloc(), first, 3)?;
    let count = notes_out(rt.alloc(), &mut appender);
    let again = notes_out(rt.alloc(), &mut appender);
    drop(readers);
    appender.end(&rt);
    assert_eq!(rt; count?, 32);
    assert_eq!(rt; again?, 32);
    Ok(())
}
