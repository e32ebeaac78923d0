//! The search for the first cut.
ghost use Rattle.std.specs.Prelude.{◌≡◌, ◌≢◌, ◌<◌, ◌≤◌, ◌++◌, drop, length, take, IfOk, IsTrue, MatchOption};
ghost use Rattle.parse_op.specs.Search.{Answers, AreRemembered, IsChosen, IsNextEnd, IsOpen, MayEnd, NoneBefore, NoneBehind, Stands, Turned, TurnedAt, cut_from, ends_in, failed_at, first_end, first_start, is_place, passed};

use crate::pieces::{allows, may_begin};
use crate::slot::Slot;
use kql_bound::PatItem;
use std::alloc::AllocError;

/// What a turn of the search has come to.
#[derive(Drop)]
pub(crate) enum Turn {
    /// The slots have the ends of a cut.
    Found,
    /// The item has an end, and the slot of the next one is open.
    Deeper,
    /// The item has no end with which there is a cut.
    Failed,
}

/// The first cut of a text: where there is one, the slots have its ends.
///
/// The slots are the stack of the search: those of the items up to the last that has been reached are open.
#[tactic(auto, using(crate::proofs::TurnSteps::search_steps))]
pub(crate) fn search(
    relaxed: bool,
    items: &[PatItem],
    text: &str,
    slots: &mut [Slot],
) -> Result<bool, AllocError>
    requires count { length slots.old ≡ length items.now }
    requires remembered { AreRemembered relaxed items.now text.now slots.old }
    ensures count { length slots.new ≡ length items.now }
    ensures found { IfOk result (λ b. Answers b (cut_from relaxed items.now text.now 0) (ends_in slots.new)) }
{
    if items.is_empty() {
        return Ok(text.is_empty());
    }
    begin(relaxed, items, text, slots);
    turns(relaxed, items, text, slots)
}

// Opens the slot of the first item at the start of the text.
#[tactic(auto, using(crate::proofs::TurnSteps::begin_steps))]
fn begin(relaxed: bool, items: &[PatItem], text: &str, slots: &mut [Slot])
    requires some { length items.now ≢ 0 }
    requires count { length slots.old ≡ length items.now }
    requires remembered { AreRemembered relaxed items.now text.now slots.old }
    ensures count { length slots.new ≡ length slots.old }
    ensures stands { Stands relaxed items.now text.now 0 slots.new 0 }
{
    let Some((item, later)) = items.split_first() else {
        return;
    };
    let Some((slot, _behind)) = slots.split_first_mut() else {
        return;
    };
    slot.begin(relaxed, item, later, text, 0);
}

// Searches from open slots on.
#[tactic(auto, using(crate::proofs::TurnSteps::turns_steps))]
fn turns(
    relaxed: bool,
    items: &[PatItem],
    text: &str,
    slots: &mut [Slot],
) -> Result<bool, AllocError>
    requires count { length slots.old ≡ length items.now }
    requires stands { Stands relaxed items.now text.now 0 slots.old 0 }
    ensures count { length slots.new ≡ length items.now }
    ensures found { IfOk result (λ b. Answers b (cut_from relaxed items.now text.now 0) (ends_in slots.new)) }
{
    let mut at = 0;
    'turns: loop {
        let step = take_turn_at(relaxed, items, text, slots, at)?;
        match step {
            Turn::Found => return Ok(true),
            Turn::Deeper => at += 1,
            Turn::Failed => {
                if at == 0 {
                    return Ok(false);
                }
                at -= 1;
                pass_at(slots, at);
            }
        }
    }
}

// A turn at the slot of a place, the last that is open.
#[tactic(auto, using(crate::proofs::TurnSteps::turn_at_steps))]
fn take_turn_at(
    relaxed: bool,
    items: &[PatItem],
    text: &str,
    slots: &mut [Slot],
    at: usize,
) -> Result<Turn, AllocError>
    requires count { length slots.old ≡ length items.now }
    requires stands { Stands relaxed items.now text.now 0 slots.old at }
    ensures count { length slots.new ≡ length slots.old }
    ensures turned { IfOk result (λ turn. TurnedAt relaxed items.now text.now slots.old at slots.new turn) }
{
    let step = take_turn(relaxed, &items[at..], text, &mut slots[at..])?;
    Ok(step)
}

// Goes on to the next end of the slot of a place.
#[tactic(auto, using(crate::proofs::TurnSteps::pass_steps))]
fn pass_at(slots: &mut [Slot], at: usize)
    requires within { at < length slots.old }
    requires small { first_end (drop at slots.old) < 9223372036854775808 }
    ensures passed { slots.new ≡ take at slots.old ++ passed (drop at slots.old) }
{
    pass(&mut slots[at..]);
}

// Goes on to the next end of the first slot.
#[tactic(auto, using(crate::proofs::TurnSteps::pass_steps))]
fn pass(slots: &mut [Slot])
    requires small { first_end slots.old < 9223372036854775808 }
    ensures count { length slots.new ≡ length slots.old }
    ensures passed { slots.new ≡ passed slots.old }
{
    let Some((slot, _behind)) = slots.split_first_mut() else {
        return;
    };
    slot.end += 1;
}

// Looks for the next end of the first item, whose slot is open, and opens the slot behind it.
#[tactic(auto, using(crate::proofs::TurnSteps::turn_steps))]
fn take_turn(
    relaxed: bool,
    items: &[PatItem],
    text: &str,
    slots: &mut [Slot],
) -> Result<Turn, AllocError>
    requires count { length slots.old ≡ length items.now }
    requires stands { Stands relaxed items.now text.now (first_start slots.old) slots.old 0 }
    ensures count { length slots.new ≡ length slots.old }
    ensures turned { IfOk result (λ turn. Turned relaxed items.now text.now slots.old slots.new turn) }
{
    let Some((item, later)) = items.split_first() else {
        return Ok(Turn::Failed);
    };
    let Some((slot, behind)) = slots.split_first_mut() else {
        return Ok(Turn::Failed);
    };
    if !choose(relaxed, item, later, text, slot, behind) {
        slot.remember(relaxed, item, later, text)?;
        return Ok(Turn::Failed);
    }
    let Some((next, last)) = later.split_first() else {
        return Ok(Turn::Found);
    };
    let Some((next_slot, _others)) = behind.split_first_mut() else {
        return Ok(Turn::Failed);
    };
    next_slot.begin(relaxed, next, last, text, slot.end);
    Ok(Turn::Deeper)
}

// Goes on to the next end that an item allows, or answers that there is none.
#[tactic(auto, using(crate::proofs::TurnSteps::choose_steps))]
fn choose(
    relaxed: bool,
    item: &PatItem,
    later: &[PatItem],
    text: &str,
    slot: &mut Slot,
    behind: &[Slot],
) -> bool
    requires count { length behind.now ≡ length later.now }
    requires held { IsOpen relaxed item.now later.now text.now slot.old }
    requires remembered { AreRemembered relaxed later.now text.now behind.now }
    ensures kept { slot.new ≡ record slot.old { end = slot.new.end } }
    ensures chosen { IsChosen relaxed item.now later.now text.now slot.old slot.new result }
{
    match next_end(
        relaxed,
        item,
        later,
        text,
        slot.start,
        slot.end,
        slot.beyond,
        behind,
    ) {
        Some(end) => {
            slot.end = end;
            true
        }
        None => false,
    }
}

// The first end from a place on that an item allows, and behind which the later items are not known to have no cut. From another
// place on there is none.
#[tactic(auto, using(crate::proofs::TurnSteps::end_steps))]
fn next_end(
    relaxed: bool,
    item: &PatItem,
    later: &[PatItem],
    text: &str,
    start: usize,
    first: usize,
    beyond: usize,
    behind: &[Slot],
) -> Option<usize>
    requires count { length behind.now ≡ length later.now }
    requires place { IsTrue (is_place text.now start) }
    requires order { start ≤ first }
    requires remembered { AreRemembered relaxed later.now text.now behind.now }
    requires before { NoneBefore relaxed item.now later.now text.now start first }
    requires behind { NoneBehind relaxed item.now later.now text.now start beyond }
    ensures found { MatchOption result (NoneBehind relaxed item.now later.now text.now start 0) (λ end. IsNextEnd relaxed item.now later.now text.now start first end) }
{
    'ends: for end in first..beyond {
        if may_end(relaxed, item, later, text, start, end, behind) {
            return Some(end);
        }
    }
    None
}

// Whether an item allows the end of a piece, and the later items are not known to have no cut from there on. What is cheap is asked
// first, and the piece is read last.
#[tactic(auto, using(crate::proofs::TurnSteps::end_steps))]
fn may_end(
    relaxed: bool,
    item: &PatItem,
    later: &[PatItem],
    text: &str,
    start: usize,
    end: usize,
    behind: &[Slot],
) -> bool
    requires count { length behind.now ≡ length later.now }
    requires place { IsTrue (is_place text.now start) }
    requires order { start ≤ end }
    requires remembered { AreRemembered relaxed later.now text.now behind.now }
    ensures known { MayEnd relaxed item.now later.now text.now start end result }
{
    if !may_begin(later, text, end) {
        return false;
    }
    if has_failed(behind, end) {
        return false;
    }
    if !text.is_char_boundary(end) {
        return false;
    }
    allows(relaxed, item, later, &text[start..end], &text[start..])
}

// Whether the items of these slots are known to have no cut from a place on.
#[tactic(auto, unfolding(crate::specs::Search::failed_at))]
fn has_failed(slots: &[Slot], place: usize) -> bool
    ensures { result ≡ failed_at slots.now place }
{
    match slots.split_first() {
        Some((slot, _)) => slot.has_failed(place),
        None => false,
    }
}
