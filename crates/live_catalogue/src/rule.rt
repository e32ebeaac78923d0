//! The rule of a live value, and what each step tells.
ghost use Rattle.live_catalogue.specs.Moves.{nothing, noted, closed_at, with_last_note, told};
ghost use Rattle.live_catalogue.specs.Rule.{Kept, Begins, Publishes, Enters};

use crate::grows::Grows;
use crate::known::Known;
use crate::value::Live;
use atomic_table::{Join, Split};
use crossbeam_utils::rule::{Outcome, Protocol};
use std::marker::PhantomData;

/// What an appender promises of the opening value and of the batches that it publishes: it holds of each list that is published, and each
/// reader may rely on it.
pub trait Promise<V> {
    ghost use Rattle.std.specs.Prelude.{List};
    ghost use Rattle.kql_cells.specs.Table.{Grid};

    ghost promised: { V → List Grid → Type 0 };
}

/// Promises nothing: any batches may be published.
pub struct NoPromise;

impl<V> Promise<V> for NoPromise {
    ghost promised = { λ _ _. Unit {0} };
}

/// The rule under a promise.
pub struct LiveRule<K> {
    promise: PhantomData<K>,
}

impl<V: Grows, K: Promise<V>> Protocol<Live<V>, Known<V>> for LiveRule<K> {
    ghost holds = { Kept V.grown K.promised };

    ghost first = { nothing };
}

/// The seat becomes the appender's.
pub(crate) struct Begin;

impl<V: Grows> Outcome<Live<V>, Known<V>> for Begin {
    ghost then = { Begins };
}

/// The batches that one publish shows. A clause alone reads them.
pub(crate) trait Batches {
    ghost use Rattle.std.specs.Prelude.{List};
    ghost use Rattle.kql_cells.specs.Table.{Grid};

    ghost batches: { List Grid };
}

/// The seat knows these batches too.
pub(crate) struct Publish<B> {
    batches: PhantomData<B>,
}

impl<V: Grows, B: Batches> Outcome<Live<V>, Known<V>> for Publish<B> {
    ghost then = { Publishes B.batches };
}

/// The seat knows all batches that are published.
pub(crate) struct Enter<K> {
    promise: PhantomData<K>,
}

impl<V: Grows, K: Promise<V>> Outcome<Live<V>, Known<V>> for Enter<K> {
    ghost then = { Enters V.grown K.promised };
}

/// Cuts off what the appender knows.
pub(crate) struct MakeNote;

impl<V> Split<Known<V>> for MakeNote {
    ghost left = { λ v. v };

    ghost right = { noted };
}

/// The same, with the closing mark on both.
pub(crate) struct MakeLastNote;

impl<V> Split<Known<V>> for MakeLastNote {
    ghost left = { closed_at };

    ghost right = { with_last_note };
}

/// A seat that knows nothing takes over what it is told.
pub(crate) struct Carry;

impl<V> Join<Known<V>> for Carry {
    ghost both = { told };

    ghost spent = { nothing };
}
