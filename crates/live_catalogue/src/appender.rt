//! The appender.
ghost use Rattle.std.specs.Prelude.{◌≡◌, ◌+◌, ◌^◌, ◌<◌, ◌↔◌, [], ◌∷◌, ◌++◌, length, drop, IsTrue, IfOk, IfSome, IfErr, OnOk, OnErr, MatchResult, true, false};
ghost use Rattle.left_right.specs.Sides.{view};
ghost use Rattle.live_catalogue.specs.Changes.{batches_of};
ghost use Rattle.live_catalogue.specs.Inside.{CanPublish, IsShown, IsUnchanged};
ghost use Rattle.live_catalogue.specs.Views.{all_rows, note_of, all_published};

use crate::grows::Grows;
use crate::known::Known;
use crate::note::Note;
use crate::rule::{Batches, Carry, LiveRule, MakeLastNote, MakeNote, NoPromise, Promise, Publish};
use crate::value::{Change, Live};
use core::mem::replace_with;
use kql_values::Table;
use left_right::Absorb;
use left_right::writer::Writer;
use std::alloc::AllocError;
use std::marker::{Brand, Model};
use std::sync::Wait;

pub(crate) type Inner<V, K> = Writer<Live<V>, Change, Known<V>, LiveRule<K>>;

/// Publishes batches. It is not dropped by itself: call `end`.
pub struct Appender<V: Grows, K: Promise<V> = NoPromise>
where
    Live<V>: Absorb<Change, State = Live<V>>,
{
    pub(crate) writer: Inner<V, K>,
    pub(crate) rows: u64,
    pub(crate) staged: u64,
    pub(crate) closed: bool,
}

impl<V: Grows, K: Promise<V>> Model for Appender<V, K>
where
    Live<V>: Absorb<Change, State = Live<V>>,
{
    ghost use Rattle.std.specs.Coded.{codes};
    ghost use Rattle.kql_cells.specs.contracts.dynamic.Dyn as dynamic;
    ghost use Rattle.std.specs.Prelude.{drop};
    ghost use Rattle.left_right.specs.Sides.{view as view_of};
    ghost use Rattle.live_catalogue.specs.Changes.{batches_of as batches_in};
    ghost use Rattle.live_catalogue.specs.Views.{AppenderView};

    ghost Value = { AppenderView V };

    ghost coded = { Prim.hlevel (codes, dynamic.the_row.coded) };

    ghost view = { λ a. record {
      opening = (view_of a.writer.desk.place).opening;
      published = (view_of a.writer.desk.place).batches;
      pending = batches_in (drop a.writer.behind a.writer.log.items);
      value = a.writer.desk.shown.value.value;
      closed = a.closed;
    } };

    ghost use Rattle.live_catalogue.specs.Inside.{AppenderKept};

    ghost invariant = { λ a. AppenderKept V.can_take V.row_count (view_of a.writer.desk.place) a.writer.desk.shown.value (batches_in (drop a.writer.behind a.writer.log.items)) a.rows a.staged a.closed };
}

impl Batches for Brand {
    ghost use Rattle.std.specs.Prelude.{[]};

    ghost batches = { [] };
}

// Publishes the batches that B names.
fn publish_these<V: Grows, K: Promise<V>, B: Batches, R: Wait>(
    writer: Inner<V, K>,
    rt: &R,
) -> (Inner<V, K>, Result<(), AllocError>)
    requires these { B.batches ≡ batches_of (drop writer.behind writer.log.items) }
    requires appends { CanPublish (view writer.desk.place) writer.desk.shown.value }
    requires promise { IfSome (view writer.desk.place).opening (λ o. K.promised o ((view writer.desk.place).batches ++ batches_of (drop writer.behind writer.log.items))) }
    ensures published { MatchResult result.1 (λ _. IsShown V.grown (view writer.desk.place) writer.desk.shown.value (batches_of (drop writer.behind writer.log.items)) (view result.0.desk.place) result.0.desk.shown.value (batches_of (drop result.0.behind result.0.log.items))) (λ _. IsUnchanged (view writer.desk.place) writer.desk.shown.value (batches_of (drop writer.behind writer.log.items)) (view result.0.desk.place) result.0.desk.shown.value (batches_of (drop result.0.behind result.0.log.items))) }
{
    writer.publish_as::<Publish<B>, R>(rt)
}

fn publish_all<V: Grows, K: Promise<V>, R: Wait>(
    writer: Inner<V, K>,
    rt: &R,
) -> (Inner<V, K>, Result<(), AllocError>)
    requires appends { CanPublish (view writer.desk.place) writer.desk.shown.value }
    requires promise { IfSome (view writer.desk.place).opening (λ o. K.promised o ((view writer.desk.place).batches ++ batches_of (drop writer.behind writer.log.items))) }
    ensures published { MatchResult result.1 (λ _. IsShown V.grown (view writer.desk.place) writer.desk.shown.value (batches_of (drop writer.behind writer.log.items)) (view result.0.desk.place) result.0.desk.shown.value (batches_of (drop result.0.behind result.0.log.items))) (λ _. IsUnchanged (view writer.desk.place) writer.desk.shown.value (batches_of (drop writer.behind writer.log.items)) (view result.0.desk.place) result.0.desk.shown.value (batches_of (drop result.0.behind result.0.log.items))) }
{
    publish_these::<V, K, Brand, R>(writer, rt)
}

impl<V: Grows, K: Promise<V>> Appender<V, K> {
    /// The rows of the published value and of the pending batches together.
    pub fn rows(&self) -> u64
        ensures rows { result ≡ V.row_count self.now.value + all_rows self.now.pending }
    {
        self.rows
    }

    /// How many batches are published and pending together.
    pub fn staged(&self) -> u64
        ensures staged { result ≡ length self.now.published + length self.now.pending }
    {
        self.staged
    }

    /// Whether a last note was made.
    pub fn is_closed(&self) -> bool
        ensures closed { result ≡ self.now.closed }
    {
        self.closed
    }

    /// Whether the value takes the batch.
    pub fn takes(&self, batch: &Table) -> bool
        ensures takes { IsTrue result ↔ V.can_take self.now.value batch.now }
    {
        self.writer.published().value.takes(batch)
    }

    /// Adds a pending batch. It comes back where there is no memory.
    pub fn stage(&mut self, batch: Table) -> Result<(), Table>
        requires takes { V.can_take self.old.value batch }
        requires rows { V.row_count self.old.value + all_rows self.old.pending + length batch.lines < 2 ^ 63 }
        requires staged { length self.old.published + length self.old.pending < 2 ^ 63 }
        ensures staged { OnOk result (self.new ≡ record self.old { pending = self.old.pending ++ batch ∷ [] }) }
        ensures refused { IfErr result (λ b. (b ≡ batch) × (self.new ≡ self.old)) }
    {
        let rows = batch.len() as u64;
        match self.writer.append(Change::Grow(batch)) {
            Ok(()) => {
                self.rows += rows;
                self.staged += 1;
                Ok(())
            }
            Err(Change::Grow(batch)) => Err(batch),
            Err(Change::Begin) => unreachable!(),
        }
    }

    /// Publishes all pending batches, by one step, and answers how many are published then. It may wait for readers.
    pub fn publish<R: Wait>(&mut self, rt: &R) -> Result<u64, AllocError>
        requires open { self.old.closed ≡ false }
        requires promise { IfSome self.old.opening (λ o. K.promised o (self.old.published ++ self.old.pending)) }
        ensures number { IfOk result (λ n. n ≡ length self.new.published) }
        ensures published { OnOk result (self.new ≡ all_published V.grown self.old) }
        ensures refused { OnErr result (self.new ≡ self.old) }
    {
        replace_with(&mut self.writer, rt, |writer, rt| publish_all(writer, rt))?;
        Ok(self.writer.published().batches)
    }

    /// A note of what is published. `AllocError` where memory runs out, or too many notes are out.
    pub fn note(&mut self) -> Result<Note<V, K>, AllocError>
        ensures note { IfOk result (λ n. n ≡ note_of self.old) }
        ensures same { self.new ≡ self.old }
    {
        let mut reader = self.writer.factory().reader()?;
        reader.learn::<Carry>(self.writer.tell::<MakeNote>());
        Ok(Note {
            reader,
            number: self.writer.published().batches,
            closed: self.closed,
        })
    }

    /// A note of what is published, with the closing mark, which the appender has from then on.
    pub fn last_note(&mut self) -> Result<Note<V, K>, AllocError>
        ensures note { IfOk result (λ n. n ≡ note_of self.new) }
        ensures closed { OnOk result (self.new ≡ record self.old { closed = true }) }
        ensures refused { OnErr result (self.new ≡ self.old) }
    {
        let mut reader = self.writer.factory().reader()?;
        reader.learn::<Carry>(self.writer.tell::<MakeLastNote>());
        self.closed = true;
        Ok(Note {
            reader,
            number: self.writer.published().batches,
            closed: true,
        })
    }

    /// Ends the appender. It may wait for readers, whose snapshots answer `AllocError` from then on.
    pub fn end<R: Wait>(self, rt: &R) {
        let Appender {
            writer,
            rows: _,
            staged: _,
            closed: _,
        } = self;
        drop(writer.take(rt));
    }
}
