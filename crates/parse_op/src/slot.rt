//! What the search for a cut keeps of an item.
ghost use Rattle.std.specs.Prelude.{◌≡◌, ◌<◌, ◌≤◌, ◌⊎◌, ℕ, true, false, slice_index_or, IsTrue};
ghost use Rattle.parse_op.specs.Search.{NoneBehind, is_place};

use crate::pieces::{ends_between, takes_any_from};
use kql_bound::PatItem;
use std::alloc::{AllocError, Global};

/// The piece of an item, and places from which there is no cut.
#[derive(Drop)]
pub(crate) struct Slot {
    /// Where the piece starts.
    pub(crate) start: usize,
    /// Where the piece ends, or the first end that is not tried yet.
    pub(crate) end: usize,
    /// No end from this place on is tried.
    pub(crate) beyond: usize,
    /// From this place on the items behind have no cut.
    pub(crate) fails_from: usize,
    /// Whether the item and those behind it are known to have no cut, for the first places.
    pub(crate) failed: Vec<bool>,
}

impl Slot {
    ghost use Rattle.parse_op.specs.Search.{IsFresh, IsOpen, IsRemembered};

    /// A slot in which nothing is remembered of the empty text.
    pub(crate) fn new(alloc: Global) -> Slot {
        Slot {
            start: 0,
            end: 0,
            beyond: 0,
            fails_from: 1,
            failed: Vec::new(alloc),
        }
    }

    /// Forgets all places, before a text of so many bytes.
    #[tactic(auto, unfolding(crate::specs::Search::IsFresh))]
    pub(crate) fn forget(&mut self, size: usize)
        requires { size < 9223372036854775808 }
        ensures fresh { IsFresh size self.new }
    {
        self.fails_from = size + 1;
        self.failed.clear();
    }

    /// Opens the slot for a piece that starts at a place: no end is tried yet.
    #[tactic(auto, using(crate::proofs::SlotSteps::open_steps))]
    pub(crate) fn begin(
        &mut self,
        relaxed: bool,
        item: &PatItem,
        later: &[PatItem],
        text: &str,
        start: usize,
    )
        requires place { IsTrue (is_place text.now start) }
        requires remembered { IsRemembered relaxed item.now later.now text.now self.old }
        ensures at { self.new.start ≡ start }
        ensures held { IsOpen relaxed item.now later.now text.now self.new }
        ensures remembered { IsRemembered relaxed item.now later.now text.now self.new }
    {
        let (first, last) = ends_between(relaxed, item, later, text, start);
        self.start = start;
        self.end = first.min(text.len() + 1);
        self.beyond = last.min(self.fails_from);
    }

    /// Whether the item and those behind it are known to have no cut from a place on.
    pub(crate) fn has_failed(&self, start: usize) -> bool
        ensures { result ≡ slice_index_or self.now.failed.items start false }
    {
        match self.failed.get(start) {
            Some(failed) => *failed,
            None => false,
        }
    }

    /// Remembers that the item and those behind it have no cut from the start of the piece on.
    ///
    /// Where the item takes any piece, those behind it have none from there on. A literal has one end alone, and is not worth it.
    #[tactic(auto, using(crate::proofs::SlotSteps::slot_steps))]
    pub(crate) fn remember(
        &mut self,
        relaxed: bool,
        item: &PatItem,
        later: &[PatItem],
        text: &str,
    ) -> Result<(), AllocError>
        requires place { IsTrue (is_place text.now self.old.start) }
        requires none { NoneBehind relaxed item.now later.now text.now self.old.start 0 }
        requires remembered { IsRemembered relaxed item.now later.now text.now self.old }
        ensures remembered { IsRemembered relaxed item.now later.now text.now self.new }
    {
        if let Some(place) = takes_any_from(relaxed, item, later, text, self.start) {
            self.fails_from = self.fails_from.min(place);
            return Ok(());
        }
        match item {
            PatItem::Literal(_) => Ok(()),
            PatItem::Star | PatItem::Column { .. } => self.mark(self.start, text.len()),
        }
    }

    // Marks a place of a text of so many bytes.
    #[tactic(auto, using(crate::proofs::SlotSteps::mark_steps))]
    fn mark(&mut self, start: usize, size: usize) -> Result<(), AllocError>
        requires within { start ≤ size }
        requires small { size < 9223372036854775808 }
        ensures kept { self.new.fails_from ≡ self.old.fails_from }
        ensures marked { (i : ℕ) → slice_index_or self.new.failed.items i false ≡ true → (i ≡ start) ⊎ (slice_index_or self.old.failed.items i false ≡ true) }
    {
        if self.failed.len() <= start {
            self.failed.resize(size + 1, false)?;
        }
        self.failed[start] = true;
        Ok(())
    }
}
