//! Rows of a table at places.
ghost use Rattle.std.specs.Prelude.{◌≡◌, ◌<◌, All, IfOk, IfSome, IsTrue, Some, length, map};
ghost use Rattle.std.specs.List.{range_with_len};
ghost use Rattle.kql_cells.specs.Table.{gathered};
ghost use Rattle.kql_values.specs.Moves.{IsWithin, gathered_or_absent};

use kql_cells::Places;
use kql_items::Items;
use kql_values::Table;
use std::alloc::{AllocError, Global};

/// Copies of the rows at these places, in this order. Where these are all rows as they stand, whole columns are copied.
#[tactic(auto, using(crate::proofs::PlaceSteps::whole_steps))]
pub(crate) fn rows_at(alloc: Global, t: &Table, places: &[usize]) -> Result<Table, AllocError>
    requires within { All (λ i. i < length t.now.lines) places.now }
    ensures rows { IfOk result (λ r. r ≡ gathered t.now places.now) }
{
    if are_all_rows(places, t.len()) {
        let whole = t.copy(alloc)?;
        Ok(whole)
    } else {
        let some = t.gather(alloc, places)?;
        Ok(some)
    }
}

/// The same of places that may be none: there a row of absent cells stands.
#[tactic(auto, using(crate::proofs::PlaceSteps::there_steps))]
pub(crate) fn rows_or_absent(
    alloc: Global,
    t: &Table,
    places: &[Option<usize>],
) -> Result<Table, AllocError>
    requires within { All (IsWithin (length t.now.lines)) places.now }
    ensures rows { IfOk result (λ r. r ≡ gathered_or_absent t.now places.now) }
{
    match places_there(alloc, places)? {
        Some(rows) => {
            let all = rows_at(alloc, t, rows.as_slice())?;
            Ok(all)
        }
        None => {
            let some = t.gather_or_absent(alloc, places)?;
            Ok(some)
        }
    }
}

// Whether these places are those of all rows, in order.
#[tactic(auto, using(crate::proofs::PlaceSteps::range_steps))]
fn are_all_rows(places: &[usize], count: usize) -> bool
    ensures all { IsTrue result → places.now ≡ range_with_len 0 count }
{
    if places.len() != count {
        return false;
    }
    for i in 0..count {
        if places[i] != i {
            return false;
        }
    }
    true
}

/// These places, where none of them is none.
#[tactic(auto, using(crate::proofs::PlaceSteps::some_steps))]
pub(crate) fn places_there(
    alloc: Global,
    places: &[Option<usize>],
) -> Result<Option<Places>, AllocError>
    ensures places { IfOk result (λ o. IfSome o (λ ps. places.now ≡ map (λ i. Some i) ps)) }
{
    let mut there = Items::with_capacity(alloc, places.len())?;
    for k in 0..places.len() {
        match places[k] {
            Some(row) => there.push(row)?,
            None => return Ok(None),
        }
    }
    Ok(Some(there))
}
