//! How a live value begins.
ghost use Rattle.std.specs.Prelude.{◌≡◌, ◌^◌, ◌<◌, ◌≤◌, [], replicate, drop, IfOk};
ghost use Rattle.std.specs.Prelude.{false};
ghost use Rattle.left_right.specs.Sides.{view};
ghost use Rattle.live_catalogue.specs.Moves.{nothing};
ghost use Rattle.live_catalogue.specs.Views.{begun, beginner, knowing};

use crate::appender::{Appender, Inner};
use crate::grows::Grows;
use crate::note::Note;
use crate::reader::{LiveReader, Readers};
use crate::rule::{Begin, Promise};
use crate::value::{Change, Live};
use left_right::writer::Writer;
use std::alloc::{AllocError, Global};
use std::sync::Wait;

// So many notes can be out at once.
const NOTES: usize = 32;

fn new_writer<V: Grows, K: Promise<V>>(
    alloc: Global,
    first: V,
    readers: u32,
) -> Result<Inner<V, K>, AllocError>
    requires readers { readers ≤ 8 }
    requires promise { K.promised first [] }
    ensures first { IfOk result (λ w. (w.desk.shown.value ≡ record { value = first; batches = 0; begun = false }) × (view w.desk.place ≡ nothing) × (drop w.behind w.log.items ≡ [])) }
{
    let second = Live {
        value: first.copy()?,
        batches: 0,
        begun: false,
    };
    let first = Live {
        value: first,
        batches: 0,
        begun: false,
    };
    Writer::new(alloc, first, second, readers as usize + NOTES)
}

// Makes the writer's seat the appender's.
fn begin<V: Grows, K: Promise<V>, R: Wait>(
    rt: &R,
    writer: Inner<V, K>,
) -> Result<Appender<V, K>, AllocError>
    requires new { (writer.desk.shown.value.batches ≡ 0) × (writer.desk.shown.value.begun ≡ false) × (view writer.desk.place ≡ nothing) × (drop writer.behind writer.log.items ≡ []) }
    requires rows { V.row_count writer.desk.shown.value.value < 2 ^ 63 }
    ensures begun { IfOk result (λ a. a ≡ begun writer.desk.shown.value.value) }
{
    let mut writer = writer;
    let Ok(()) = writer.append(Change::Begin) else {
        drop(writer.take(rt));
        return Err(AllocError);
    };
    let (writer, published) = writer.publish_as::<Begin, R>(rt);
    if published.is_err() {
        drop(writer.take(rt));
        return Err(AllocError);
    }
    let rows = writer.published().value.rows();
    Ok(Appender {
        writer,
        rows,
        staged: 0,
        closed: false,
    })
}

fn readers_of<V: Grows, K: Promise<V>>(
    alloc: Global,
    appender: &mut Appender<V, K>,
    readers: u32,
) -> Result<Readers<V, K>, AllocError>
    ensures same { appender.new ≡ appender.old }
    ensures readers { IfOk result (λ r. r.items ≡ replicate readers (beginner appender.old)) }
{
    let mut all = Vec::with_capacity(alloc, readers as usize)?;
    for _ in 0..readers {
        all.push(reader_of(appender.note()?))?;
    }
    Ok(all)
}

fn reader_of<V: Grows, K: Promise<V>>(note: Note<V, K>) -> LiveReader<V, K>
    ensures reader { result ≡ knowing note }
{
    let Note {
        reader,
        number,
        closed,
    } = note;
    LiveReader {
        reader,
        number,
        closed,
        least: number,
    }
}

/// An appender of the value, with no batch, and its readers.
pub fn live<V: Grows, K: Promise<V>, R: Wait>(
    rt: &R,
    alloc: Global,
    first: V,
    readers: u32,
) -> Result<(Appender<V, K>, Readers<V, K>), AllocError>
    requires readers { (0 < readers) × (readers ≤ 8) }
    requires rows { V.row_count first < 2 ^ 63 }
    requires promise { K.promised first [] }
    ensures appender { IfOk result (λ (a, r). a ≡ begun first) }
    ensures readers { IfOk result (λ (a, r). r.items ≡ replicate readers (beginner (begun first))) }
{
    let mut appender = begin(rt, new_writer(alloc, first, readers)?)?;
    match readers_of(alloc, &mut appender, readers) {
        Ok(all) => Ok((appender, all)),
        Err(_) => {
            appender.end(rt);
            Err(AllocError)
        }
    }
}
