//! The first cut of a whole text.
ghost use Rattle.std.specs.Prelude.{◌≡◌, ◌<◌, length, IfOk};
ghost use Rattle.kql_meaning.specs.Cuts.{cut};
ghost use Rattle.parse_op.specs.Search.{AreFresh, Answers, ends_in};

use crate::search::search;
use crate::slot::Slot;
use kql_bound::PatItem;
use kql_cells::Places;
use kql_items::Items;
use std::alloc::{AllocError, Global};

/// The first cut of a text by a pattern, in kind relaxed or simple: the end of each item's piece, in bytes. None where there is none.
///
/// Of all cuts it is the one with the least ends, compared from the left. A place from which the later items have failed is not
/// tried again.
#[tactic(auto, using(crate::proofs::SlotSteps::cut_steps))]
pub fn cut(
    alloc: Global,
    pattern: &[PatItem],
    relaxed: bool,
    text: &str,
) -> Result<Option<Places>, AllocError>
    ensures cut { IfOk result (λ o. o ≡ cut relaxed pattern.now text.now) }
{
    let mut slots = slots_of(alloc, pattern.len())?;
    let found = cut_with(alloc, relaxed, pattern, text, &mut slots)?;
    Ok(found)
}

// The same, with a slot for each item.
#[tactic(auto, using(crate::proofs::SlotSteps::cut_steps))]
fn cut_with(
    alloc: Global,
    relaxed: bool,
    pattern: &[PatItem],
    text: &str,
    slots: &mut [Slot],
) -> Result<Option<Places>, AllocError>
    requires count { length slots.old ≡ length pattern.now }
    ensures cut { IfOk result (λ o. o ≡ cut relaxed pattern.now text.now) }
{
    let is_cut = cut_into(relaxed, pattern, text, slots)?;
    if !is_cut {
        return Ok(None);
    }
    let ends = ends_of(alloc, slots)?;
    Ok(Some(ends))
}

/// A slot for each of so many items.
pub(crate) fn slots_of(alloc: Global, count: usize) -> Result<Vec<Slot>, AllocError>
    ensures count { IfOk result (λ v. length v.items ≡ count) }
{
    let mut slots = Vec::with_capacity(alloc, count)?;
    'each: for _k in 0..count {
        slots.push(Slot::new(alloc))?;
    }
    Ok(slots)
}

/// Cuts a whole text: where there is a cut, the slots have its ends.
#[tactic(auto, using(crate::proofs::SlotSteps::cut_steps))]
pub(crate) fn cut_into(
    relaxed: bool,
    pattern: &[PatItem],
    text: &str,
    slots: &mut [Slot],
) -> Result<bool, AllocError>
    requires count { length slots.old ≡ length pattern.now }
    ensures count { length slots.new ≡ length pattern.now }
    ensures found { IfOk result (λ b. Answers b (cut relaxed pattern.now text.now) (ends_in slots.new)) }
{
    forget(slots, text.len());
    search(relaxed, pattern, text, slots)
}

// Forgets what was remembered of another text.
#[tactic(auto, using(crate::proofs::SlotSteps::fresh_steps))]
fn forget(slots: &mut [Slot], size: usize)
    requires { size < 9223372036854775808 }
    ensures count { length slots.new ≡ length slots.old }
    ensures fresh { AreFresh size slots.new }
{
    'slots: for k in 0..slots.len() {
        let slot = &mut slots[k];
        slot.forget(size);
    }
}

// The ends of the pieces.
fn ends_of(alloc: Global, slots: &[Slot]) -> Result<Places, AllocError>
    ensures ends { IfOk result (λ ends. ends ≡ ends_in slots.now) }
{
    let mut ends = Items::with_capacity(alloc, slots.len())?;
    let mut left = slots;
    'ends: while let Some((slot, more)) = left.split_first() {
        ends.push(slot.end)?;
        left = more;
    }
    Ok(ends)
}
