ghost use Rattle.std.specs.Prelude.{◌≡◌, ◌<◌, ◌≤◌, All, IfOk, length, vec_len};
ghost use Rattle.worker_board.specs.Results.{IsReady, LeavesAlone, IsWaiting, answers};
ghost use Rattle.worker_board.specs.Views.{NamesEach};

use crate::board::{Board, Seats};
use crate::joined::gather;
use crate::slots::in_order;
use crate::work::{Desk, Outcome, Work};
use crate::worker::work_on;
use kql_outside::Gate;
use std::alloc::{AllocError, Global};
use std::thread;
use std::thread::Threads;

// A desk for each seat, without results. The contract alone needs the board: whose seats they are.
fn desks_of<T: Drop>(alloc: Global, board: &Board, seats: Seats) -> Result<Vec<Desk<T>>, AllocError>
    requires ready { All (IsReady board.now) seats }
    ensures each { IfOk result (λ desks. All (IsWaiting board.now) desks.items) }
    ensures count { IfOk result (λ desks. vec_len desks ≡ length seats) }
{
    let _board = board;
    let mut seats = seats.into_vec();
    let mut desks = Vec::with_capacity(alloc, seats.len())?;
    while let Some(seat) = seats.pop() {
        desks.push(Desk {
            seat,
            results: Vec::new(alloc),
        })?;
    }
    Ok(desks)
}

// Every worker works, and all are joined. It takes no memory, and cannot fail.
fn fork<R: Threads + Sync, T: Send + Drop, W: Work<T> + Sync, G: Gate + Sync>(
    rt: &R,
    board: &Board,
    desks: &mut Vec<Desk<T>>,
    phase: u32,
    work: &W,
    gate: &G,
)
    requires some { 0 < vec_len desks.old }
    requires waiting { All (IsWaiting board.now) desks.old.items }
    requires pieces { board.now.size.pieces ≡ W.count work.now }
    ensures each { All (LeavesAlone (W.answer work.now) board.now) desks.new.items }
    ensures count { vec_len desks.new ≡ vec_len desks.old }
{
    let workers = desks.len();
    let worker = |_: usize, desk: &mut Desk<T>|
        requires { IsWaiting board.now desk.now × (board.now.size.pieces ≡ W.count work.now) }
        ensures { LeavesAlone (W.answer work.entry.now) board.entry.now desk.exit.now }
    { work_on(board, desk, phase, work, gate) };
    thread::for_each_mut(rt, desks.as_mut_slice(), workers, &worker);
}

/// All pieces of the work, by so many workers. Whatever the schedule, the results are those of the pieces, in their
/// order.
///
/// Each worker draws a piece from the board, enters the gate with it, and works on it, until no piece is left. A worker
/// that wants memory stops the others, and then the answer is want of memory.
pub fn run_pieces<R: Threads + Sync, T: Send + Drop, W: Work<T> + Sync, G: Gate + Sync>(
    rt: &R,
    alloc: Global,
    workers: u32,
    phase: u32,
    work: &W,
    gate: &G,
) -> Result<Outcome<T>, AllocError>
    requires workers { (0 < workers) × (workers ≤ 64) }
    ensures results { IfOk result (λ o. o.results ≡ answers (W.answer work.now) (W.count work.now)) }
    ensures size { IfOk result (λ o. (o.gathered.size.pieces ≡ W.count work.now)
        × (o.gathered.size.workers ≡ workers)) }
    ensures claims { IfOk result (λ o. NamesEach o.gathered.size o.gathered.claims) }
{
    let pieces = work.pieces();
    let (board, seats) = Board::new(alloc, pieces, workers)?;
    let mut desks = desks_of(alloc, &board, seats)?;
    fork(rt, &board, &mut desks, phase, work, gate);
    let Desk { seat, results } = gather(&board, work, desks)?;
    if seat.has_stopped() {
        return Err(AllocError);
    }
    let gathered = board.close(seat);
    let results = in_order(alloc, pieces, work, results)?;
    Ok(Outcome { results, gathered })
}
