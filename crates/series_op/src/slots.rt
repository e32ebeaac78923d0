//! The bins of one group.
ghost use Rattle.std.specs.Prelude.{◌≡◌, ◌<◌, All, IfOk, None, length, replicate};
ghost use Rattle.series_op.specs.Slots.{put, slots_of};

use std::alloc::{AllocError, Global};

/// For each bin the last of these rows whose place is that of the bin, where one is.
#[tactic(auto, using(crate::proofs::SlotSteps::slot_steps))]
pub(crate) fn slots_of(
    alloc: Global,
    count: usize,
    places: &[Option<usize>],
    rows: &[usize],
) -> Result<Vec<Option<usize>>, AllocError>
    requires rows { All (λ r. r < length places.now) rows.now }
    ensures slots { IfOk result (λ s. s.items ≡ slots_of places.now count rows.now) }
{
    let mut slots = no_slots(alloc, count)?;
    'rows: for row in rows {
        put(&mut slots, places[*row], *row);
    }
    Ok(slots)
}

// A row into the slot at a place, where there is one.
#[tactic(auto, using(crate::proofs::SlotSteps::put_steps), unfolding(crate::specs::Slots::put))]
fn put(slots: &mut Vec<Option<usize>>, place: Option<usize>, row: usize)
    ensures put { slots.new.items ≡ put place slots.old.items row }
{
    if let Some(k) = place {
        if k < slots.len() {
            slots[k] = Some(row);
        }
    }
}

// So many bins without a row.
#[tactic(auto, using(crate::proofs::SlotSteps::none_steps))]
fn no_slots(alloc: Global, count: usize) -> Result<Vec<Option<usize>>, AllocError>
    ensures none { IfOk result (λ s. s.items ≡ replicate count None) }
{
    let mut slots = Vec::with_capacity(alloc, count)?;
    for k in 0..count {
        slots.push(None)?;
    }
    Ok(slots)
}
