ghost use Rattle.std.specs.Prelude.{◌≡◌, ◌+◌, ◌<◌, All, length, vec_len, OnOk, IfOk};
ghost use Rattle.worker_board.specs.Results.{Leaves, LeavesAlone};

use crate::board::Board;
use crate::work::{Desk, Work};
use std::alloc::AllocError;

// Gives a seat back, and moves its results behind the others. The contract alone needs the work: whose answers the
// results are.
fn take_in<T: Drop, W: Work<T>>(
    board: &Board,
    _work: &W,
    all: &mut Desk<T>,
    next: Desk<T>,
) -> Result<(), AllocError>
    requires all { Leaves (W.answer _work.now) board.now all.old }
    requires next { Leaves (W.answer _work.now) board.now next }
    ensures left { OnOk result (Leaves (W.answer _work.now) board.now all.new) }
    ensures numbers { OnOk result (length all.new.seat.known.numbers
        ≡ length all.old.seat.known.numbers + length next.seat.known.numbers) }
{
    let Desk { seat, mut results } = next;
    board.give_back(&mut all.seat, seat);
    all.results.append(&mut results)
}

/// All that the workers left, at one desk.
pub(crate) fn gather<T: Drop, W: Work<T>>(
    board: &Board,
    work: &W,
    mut desks: Vec<Desk<T>>,
) -> Result<Desk<T>, AllocError>
    requires some { 0 < vec_len desks }
    requires each { All (LeavesAlone (W.answer work.now) board.now) desks.items }
    ensures left { IfOk result (λ desk. Leaves (W.answer work.now) board.now desk) }
    ensures numbers { IfOk result (λ desk. length desk.seat.known.numbers ≡ vec_len desks) }
{
    let mut all = desks.pop().unwrap();
    while let Some(next) = desks.pop() {
        take_in(board, work, &mut all, next)?;
    }
    Ok(all)
}
