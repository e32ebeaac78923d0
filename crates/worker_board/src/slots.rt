ghost use Rattle.std.specs.Prelude.{◌≡◌, ◌<◌, All, IsSome, map, length, IfOk, Some, None, replicate, slice_set};
ghost use Rattle.worker_board.specs.Results.{IsRight, IsNamedBelow, NamesAll, filled, answers};

use crate::work::{PieceResult, Work};
use kql_items::Items;
use std::alloc::{AllocError, Global};

fn empty_slots<T: Drop>(alloc: Global, pieces: u32) -> Result<Vec<Option<T>>, AllocError>
    ensures empty { IfOk result (λ slots. slots.items ≡ replicate pieces None) }
{
    let mut slots = Vec::with_capacity(alloc, pieces as usize)?;
    for _ in 0..pieces {
        slots.push(None)?;
    }
    Ok(slots)
}

fn fill<T: Drop>(slots: &mut Vec<Option<T>>, made: PieceResult<T>)
    requires known { made.piece < length slots.old.items }
    ensures filled { slots.new.items ≡ slice_set slots.old.items made.piece (Some made.value) }
{
    let PieceResult { piece, value } = made;
    slots[piece as usize] = Some(value);
}

// Each result, in the slot of its piece. The contract alone needs the work: whose answers the results are.
fn fill_all<T: Drop, W: Work<T>>(
    alloc: Global,
    pieces: u32,
    work: &W,
    mut results: Vec<PieceResult<T>>,
) -> Result<Vec<Option<T>>, AllocError>
    requires all { NamesAll pieces results.items }
    requires below { All (IsNamedBelow pieces) results.items }
    requires right { All (IsRight (W.answer work.now)) results.items }
    ensures filled { IfOk result (λ slots. slots.items ≡ filled (W.answer work.now) pieces) }
{
    let _work = work;
    let mut slots = empty_slots(alloc, pieces)?;
    while let Some(made) = results.pop() {
        fill(&mut slots, made);
    }
    Ok(slots)
}

// What the slots hold, where each is filled.
fn contents_of<T: Drop>(alloc: Global, mut slots: Vec<Option<T>>) -> Result<Items<T>, AllocError>
    requires filled { All IsSome slots.items }
    ensures values { IfOk result (λ values. map Some values ≡ slots.items) }
{
    let mut values = Items::with_capacity(alloc, slots.len())?;
    while let Some(slot) = slots.pop() {
        values.push(slot.unwrap())?;
    }
    values.reverse();
    Ok(values)
}

/// The values of the results, in the order of their pieces.
pub(crate) fn in_order<T: Drop, W: Work<T>>(
    alloc: Global,
    pieces: u32,
    work: &W,
    results: Vec<PieceResult<T>>,
) -> Result<Items<T>, AllocError>
    requires all { NamesAll pieces results.items }
    requires below { All (IsNamedBelow pieces) results.items }
    requires right { All (IsRight (W.answer work.now)) results.items }
    ensures answers { IfOk result (λ values. values ≡ answers (W.answer work.now) pieces) }
{
    let slots = fill_all(alloc, pieces, work, results)?;
    contents_of(alloc, slots)
}
