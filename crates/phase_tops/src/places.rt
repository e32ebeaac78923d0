//! Places of rows, in pieces and together.
ghost use Rattle.std.specs.Prelude.{◌≡◌, ◌<◌, ◌+◌, ◌^◌, IfOk, flat_map};
ghost use Rattle.std.specs.List.{range_with_len};

use kql_cells::Places;
use kql_items::Items;
use std::alloc::{AllocError, Global};

/// So many places from one on.
#[tactic(auto, using(crate::proofs::PlaceSteps::range_steps))]
pub(crate) fn places_from(alloc: Global, from: usize, count: usize) -> Result<Places, AllocError>
    requires within { from + count < 2 ^ 63 }
    ensures places { IfOk result (λ ps. ps ≡ range_with_len from count) }
{
    let mut places = Items::with_capacity(alloc, count)?;
    for i in 0..count {
        places.push(from + i)?;
    }
    Ok(places)
}

/// The places of several lists, one list after another.
pub(crate) fn one_list(alloc: Global, lists: Items<Places>) -> Result<Places, AllocError>
    ensures places { IfOk result (λ ps. ps ≡ flat_map (λ is. is) lists) }
{
    let mut places = Items::new(alloc);
    let mut left = lists;
    left.reverse();
    'lists: while let Some(next) = left.pop() {
        places.append(next)?;
    }
    Ok(places)
}
