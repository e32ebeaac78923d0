ghost use Rattle.std.specs.Prelude.{◌≡◌, ◌<◌, ◌-◌, ◌⊎◌, true, false, length};
ghost use Rattle.worker_board.specs.Views.{IsOf, IsDone, HasStopped};
ghost use Rattle.worker_board.specs.Results.{results_of, IsWaiting, LeavesAlone};

use crate::board::Board;
use crate::seat::WorkerSeat;
use crate::work::{Desk, PieceResult, Work};
use kql_outside::Gate;

// Claims one piece and keeps its result. `false` where the worker is to leave.
fn turn<T: Drop, W: Work<T>, G: Gate>(
    board: &Board,
    seat: &mut WorkerSeat,
    results: &mut Vec<PieceResult<T>>,
    phase: u32,
    work: &W,
    gate: &G,
) -> bool
    requires of_board { IsOf board.now seat.old }
    requires not_done { IsDone seat.old → ⊥ }
    requires pieces { board.now.size.pieces ≡ W.count work.now }
    requires so_far { results.old.items ≡ results_of (W.answer work.now) seat.old.known.claims }
    ensures seat { IsOf board.now seat.new × (seat.new.known.numbers ≡ seat.old.known.numbers) }
    ensures on { result ≡ true → (IsDone seat.new → ⊥)
        × (results.new.items ≡ results_of (W.answer work.now) seat.new.known.claims)
        × (board.now.size.pieces - length seat.new.known.claims
        < board.now.size.pieces - length seat.old.known.claims) }
    ensures off { result ≡ false → HasStopped seat.new
        ⊎ (IsDone seat.new × (results.new.items ≡ results_of (W.answer work.now) seat.new.known.claims)) }
{
    if board.is_stopped(seat) {
        return false;
    }
    let Some(piece) = board.claim(seat) else {
        return false;
    };
    gate.enter(phase, piece);
    let Ok(value) = work.run(piece) else {
        board.stop(seat);
        return false;
    };
    if results.push(PieceResult { piece, value }).is_err() {
        board.stop(seat);
        return false;
    }
    true
}

/// Claims until no piece is left, or some worker has stopped for want of memory. Then the worker lets its results go.
pub(crate) fn work_on<T: Drop, W: Work<T>, G: Gate>(
    board: &Board,
    desk: &mut Desk<T>,
    phase: u32,
    work: &W,
    gate: &G,
)
    requires waiting { IsWaiting board.now desk.old }
    requires pieces { board.now.size.pieces ≡ W.count work.now }
    ensures left { LeavesAlone (W.answer work.now) board.now desk.new }
{
    while turn(board, &mut desk.seat, &mut desk.results, phase, work, gate) {}
    if desk.seat.has_stopped() {
        desk.results.clear();
    }
}
