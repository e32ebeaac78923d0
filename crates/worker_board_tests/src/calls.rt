//! The calls of a board, of which the tests know only that a seat stays one of the board's.
ghost use Rattle.worker_board.specs.Views.{IsOf};

use worker_board::{Board, Gathered, WorkerSeat};

/// Draws, where the seat is not done.
pub fn draw(board: &Board, seat: &mut WorkerSeat) -> Option<u32>
    requires of_board { IsOf board.now seat.old }
    ensures of_board { IsOf board.now seat.new }
{
    if seat.is_done() {
        return None;
    }
    board.claim(seat)
}

/// Draws two numbers.
pub fn drawn_twice(board: &Board, seat: &mut WorkerSeat)
    requires of_board { IsOf board.now seat.old }
    ensures of_board { IsOf board.now seat.new }
{
    draw(board, seat);
    draw(board, seat);
}

/// Stops all.
pub fn halt(board: &Board, seat: &mut WorkerSeat)
    requires of_board { IsOf board.now seat.old }
    ensures of_board { IsOf board.now seat.new }
{
    board.stop(seat);
}

/// Whether the seat is told to stop.
pub fn is_told(board: &Board, seat: &mut WorkerSeat) -> bool
    requires of_board { IsOf board.now seat.old }
    ensures of_board { IsOf board.now seat.new }
{
    board.is_stopped(seat)
}

/// Gives a seat back into another.
pub fn join(board: &Board, into: &mut WorkerSeat, seat: WorkerSeat)
    requires into { IsOf board.now into.old }
    requires seat { IsOf board.now seat }
    ensures of_board { IsOf board.now into.new }
{
    board.give_back(into, seat);
}

/// The claims, where the seat is whole.
pub fn closed(board: Board, seat: WorkerSeat) -> Option<Gathered>
    requires of_board { IsOf board seat }
{
    if !board.is_whole(&seat) {
        return None;
    }
    Some(board.close(seat))
}
