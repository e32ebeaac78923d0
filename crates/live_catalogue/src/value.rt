//! What readers take, and what changes it.
ghost use Rattle.std.specs.Prelude.{◌≡◌, ◌^◌, ◌<◌};
ghost use Rattle.live_catalogue.specs.Changes.{changed};

use crate::grows::Grows;
use kql_values::Table;
use left_right::Absorb;
use std::alloc::AllocError;

/// Rows and batches stay below it.
pub(crate) const LIMIT: u64 = 1 << 63;

/// The value, and how many batches it has taken since it was opened.
#[derive(Drop)]
pub struct Live<V: Drop> {
    pub value: V,
    pub batches: u64,
    /// Whether there is an appender.
    pub begun: bool,
}

/// `Begin` is the first change: by it one seat becomes the appender's.
#[derive(Drop)]
pub enum Change {
    Begin,
    Grow(Table),
}

impl<V: Grows> Absorb<Change> for Live<V> {
    type State = Live<V>;

    ghost state = { λ live. live };

    ghost applied = { changed V.grown };

    fn absorb_first(&mut self, operation: &Change, _other: &Live<V>) -> Result<(), AllocError> {
        match operation {
            Change::Begin => {
                self.begun = true;
                Ok(())
            }
            Change::Grow(batch) => {
                // The appender tests each of these when it stages the batch.
                let (had, rows) = (self.value.rows(), batch.len() as u64);
                let fits = had < LIMIT && rows < LIMIT - had && self.batches < LIMIT;
                if !fits || !self.value.takes(batch) {
                    return Err(AllocError);
                }
                self.value.grow(batch)?;
                self.batches += 1;
                Ok(())
            }
        }
    }
}
