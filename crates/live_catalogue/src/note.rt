//! What an appender tells a reader.
ghost use Rattle.std.specs.Prelude.{◌≡◌, length};

use crate::grows::Grows;
use crate::known::Known;
use crate::rule::{LiveRule, NoPromise, Promise};
use crate::value::Live;
use left_right::reader::Reader;
use std::marker::Model;

/// Carries the batches that were published when it was made. It has a reader's place until it is learnt or dropped.
#[derive(Drop)]
pub struct Note<V: Grows, K: Promise<V> = NoPromise> {
    pub(crate) reader: Reader<Live<V>, Known<V>, LiveRule<K>>,
    pub(crate) number: u64,
    pub(crate) closed: bool,
}

impl<V: Grows, K: Promise<V>> Model for Note<V, K> {
    ghost use Rattle.std.specs.Coded.{codes};
    ghost use Rattle.kql_cells.specs.contracts.dynamic.Dyn as dynamic;
    ghost use Rattle.left_right.specs.Sides.{view as view_of};
    ghost use Rattle.live_catalogue.specs.Views.{NoteView};

    ghost Value = { NoteView V };

    ghost coded = { Prim.hlevel (codes, dynamic.the_row.coded) };

    ghost view = { λ n. record { opening = (view_of n.reader.place).opening; batches = (view_of n.reader.place).batches; closed = n.closed } };

    ghost use Rattle.live_catalogue.specs.Inside.{NoteKept};

    ghost invariant = { λ n. NoteKept (view_of n.reader.place) n.number n.closed };
}

impl<V: Grows, K: Promise<V>> Note<V, K> {
    /// How many batches were published.
    pub fn number(&self) -> u64
        ensures number { result ≡ length self.now.batches }
    {
        self.number
    }
}
