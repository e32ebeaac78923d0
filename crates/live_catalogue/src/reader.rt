//! Readers, which take snapshots.
ghost use Rattle.std.specs.Prelude.{◌≡◌, ◌≤◌, length, fold, IfOk, OnErr, IfSome, MatchOption, true};
ghost use Rattle.left_right.specs.Sides.{view};
ghost use Rattle.live_catalogue.specs.Rule.{StartsWith};
ghost use Rattle.live_catalogue.specs.Views.{learnt};
ghost use Rattle.live_catalogue.specs.Inside.{IsLater};

use crate::grows::Grows;
use crate::known::Known;
use crate::note::Note;
use crate::rule::{Enter, LiveRule, NoPromise, Promise};
use crate::value::Live;
use core::mem::replace_with;
use left_right::reader::Reader;
use std::alloc::AllocError;
use std::marker::Model;

/// A value as it was after the first `batches` batches.
#[derive(Drop)]
pub struct Snapshot<V: Drop> {
    pub batches: u64,
    pub value: V,
}

/// Takes snapshots, in one thread at a time.
#[derive(Drop)]
pub struct LiveReader<V: Grows, K: Promise<V> = NoPromise> {
    pub(crate) reader: Reader<Live<V>, Known<V>, LiveRule<K>>,
    pub(crate) number: u64,
    pub(crate) closed: bool,
    pub(crate) least: u64,
}

/// Readers of one live value.
pub type Readers<V, K = NoPromise> = Vec<LiveReader<V, K>>;

impl<V: Grows, K: Promise<V>> Model for LiveReader<V, K> {
    ghost use Rattle.std.specs.Coded.{codes};
    ghost use Rattle.kql_cells.specs.contracts.dynamic.Dyn as dynamic;
    ghost use Rattle.left_right.specs.Sides.{view as view_of};
    ghost use Rattle.live_catalogue.specs.Views.{ReaderView};

    ghost Value = { ReaderView V };

    ghost coded = { Prim.hlevel (codes, dynamic.the_row.coded) };

    ghost view = { λ r. record { opening = (view_of r.reader.place).opening; batches = (view_of r.reader.place).batches; closed = r.closed; least = r.least } };

    ghost use Rattle.live_catalogue.specs.Inside.{NoteKept};

    ghost invariant = { λ r. NoteKept (view_of r.reader.place) r.number r.closed };
}

type Inner<V, K> = Reader<Live<V>, Known<V>, LiveRule<K>>;

// What is published now, and a copy of it. `None` where the appender has ended.
fn look<V: Grows, K: Promise<V>>(
    reader: Inner<V, K>,
) -> (Inner<V, K>, Option<(u64, Result<V, AllocError>)>)
    ensures none { MatchOption result.1 (view result.0.place ≡ view reader.place) (λ r. IsLater (view reader.place) (view result.0.place) r.0) }
    ensures promise { IfSome result.1 (λ r. IfSome (view result.0.place).opening (λ o. K.promised o (view result.0.place).batches)) }
    ensures value { IfSome result.1 (λ r. IfOk r.1 (λ v. IfSome (view result.0.place).opening (λ o. v ≡ fold V.grown o (view result.0.place).batches))) }
{
    match reader.enter_as::<Enter<K>>() {
        Ok(reading) => {
            let live = reading.get();
            let batches = live.batches;
            let value = live.value.copy();
            (reading.leave(), Some((batches, value)))
        }
        Err(reader) => (reader, None),
    }
}

impl<V: Grows, K: Promise<V>> LiveReader<V, K> {
    /// The value as it is published now, by one step. `AllocError` where memory runs out, or the appender has ended.
    pub fn snapshot(&mut self) -> Result<Snapshot<V>, AllocError>
        ensures same { (self.new.opening ≡ self.old.opening) × (self.new.closed ≡ self.old.closed) }
        ensures later { StartsWith self.new.batches self.old.batches }
        ensures last { self.old.closed ≡ true → self.new.batches ≡ self.old.batches }
        ensures batches { IfOk result (λ s. s.batches ≡ length self.new.batches) }
        ensures value { IfOk result (λ s. IfSome self.new.opening (λ o. s.value ≡ fold V.grown o self.new.batches)) }
        ensures promise { IfOk result (λ s. IfSome self.new.opening (λ o. K.promised o self.new.batches)) }
        ensures least { IfOk result (λ s. (self.old.least ≤ s.batches) × (self.new.least ≡ s.batches)) }
        ensures err { OnErr result (self.new.least ≡ self.old.least) }
    {
        let found = replace_with(&mut self.reader, (), |reader, _| look(reader));
        let Some((batches, value)) = found else {
            return Err(AllocError);
        };
        self.number = batches;
        if batches < self.least {
            return Err(AllocError);
        }
        let value = value?;
        self.least = batches;
        Ok(Snapshot { batches, value })
    }

    /// Takes over what the note carries, unless the reader knows more.
    pub fn learn(&mut self, note: Note<V, K>)
        ensures learnt { self.new ≡ learnt self.old note }
    {
        let Note {
            reader,
            number,
            closed,
        } = note;
        self.least = self.least.max(number);
        if !self.closed && (closed || self.number <= number) {
            self.reader = reader;
            self.number = number;
            self.closed = closed;
        }
    }
}
