ghost use Rattle.std.specs.Prelude.{◌≡◌, ◌<◌, ◌≤◌, ◌↔◌, [], length, IsTrue, IsNone, IfOk, IfSome, MatchOption, false};
ghost use Rattle.worker_board.specs.Moves.{everyone, only, with_claim, told_end, together, with_stop};
ghost use Rattle.worker_board.specs.Views.{IsOf, IsDone, IsWhole, HasStopped, HoldsEach, NamesEach, Replays, seats_of};

mod gathered;

use crate::known::{Known, Size};
use crate::rule::{BoardRule, Deal, Draw, ReadStop, SetStop, TakeOver, Weigh};
use crate::seat::WorkerSeat;
use atomic_table::{Seat, Table};
use board_core::{Claim, claims_are_replayed};
pub use gathered::Gathered;
use kql_items::Items;
use std::alloc::{AllocError, Global};
use std::marker::Model;

/// The counter from which workers draw pieces, and the word by which one stops the others.
///
/// All calls but `new` take no memory, and none waits.
#[derive(Drop)]
pub struct Board {
    table: Table<(), Known, Size, BoardRule, Global>,
    size: Size,
}

impl Model for Board {
    ghost use Rattle.worker_board.specs.Views.{BoardView};

    ghost Value = { BoardView };

    ghost view = { λ b. record { id = b.table.shared.table_id; size = b.size } };

    ghost use Rattle.worker_board.specs.InsideBoard.{IsTabled};

    ghost invariant = { IsTabled };
}

/// The seats of workers, in the order of their numbers.
pub type Seats = Items<WorkerSeat>;

// The seat of this one worker, with room for every piece.
fn seated(
    alloc: Global,
    place: Seat<(), Known>,
    size: Size,
    worker: u32,
) -> Result<WorkerSeat, AllocError>
    requires alone { (place.me.1 ≡ []) × (place.me.0 ≡ only place.me.0.size worker) }
    requires size { size ≡ place.me.0.size }
    requires worker { worker < size.workers }
    ensures seat { IfOk result (λ s. (s.board ≡ place.table_id) × (s.known ≡ only place.me.0.size worker)) }
{
    let claims = Vec::with_capacity(alloc, size.pieces as usize)?;
    Ok(WorkerSeat {
        place,
        claims,
        pieces: size.pieces,
        workers: size.workers,
        first: worker,
        held: 1,
        done: false,
        stopped: false,
    })
}

impl Board {
    /// A board, and a seat at it for each worker.
    pub fn new(alloc: Global, pieces: u32, workers: u32) -> Result<(Board, Seats), AllocError>
        requires workers { (0 < workers) × (workers ≤ 64) }
        ensures size { IfOk result (λ (board, _). (board.size.pieces ≡ pieces) × (board.size.workers ≡ workers)) }
        ensures seats { IfOk result (λ (board, seats). seats ≡ seats_of board workers) }
    {
        let size = Size { pieces, workers };
        let (table, place) = Table::of_words(alloc, &[0, 0], &size)?;
        let board = Board { table, size };
        let seats = board.deal(alloc, place)?;
        Ok((board, Items::from_vec(seats)))
    }

    // Deals the first seat, which holds every number, out to the workers.
    fn deal(&self, alloc: Global, mut place: Seat<(), Known>) -> Result<Vec<WorkerSeat>, AllocError>
        requires first { (place.table_id ≡ self.now.id) × (place.me ≡ (everyone self.now.size, [])) }
        requires workers { (0 < self.now.size.workers) × (self.now.size.workers ≤ 64) }
        ensures seats { IfOk result (λ seats. seats.items ≡ seats_of self.now self.now.size.workers) }
    {
        let size = self.size;
        let workers = size.workers;
        let mut seats = Vec::with_capacity(alloc, workers as usize)?;
        for w in 0..workers - 1 {
            let one = self.table.shared.split_seat::<Deal>(&mut place);
            seats.push(seated(alloc, one, size, w)?)?;
        }
        seats.push(seated(alloc, place, size, workers - 1)?)?;
        Ok(seats)
    }

    /// Draws the next number, by one fetch-add. `None` where it is no piece: then the seat is done.
    pub fn claim(&self, seat: &mut WorkerSeat) -> Option<u32>
        requires of_board { IsOf self.now seat.old }
        requires not_done { IsDone seat.old → ⊥ }
        ensures board { seat.new.board ≡ seat.old.board }
        ensures drawn { MatchOption result (seat.new.known ≡ told_end seat.old.known)
            (λ piece. (piece < self.now.size.pieces) × (seat.new.known ≡ with_claim seat.old.known piece)) }
        ensures done { IsNone result ↔ IsDone seat.new }

        // So a seat claims at most as often as there are pieces, and once more.
        ensures ends { IfSome result (λ _. length seat.old.known.claims < self.now.size.pieces) }
    {
        let drawn = self.table.shared.fetch_add::<Draw>(&mut seat.place, 0, 1);
        if drawn >= u64::from(seat.pieces) {
            seat.done = true;
            return None;
        }
        let piece = drawn as u32;
        seat.claims.push_reserved(Claim {
            piece,
            worker: seat.first,
        });
        Some(piece)
    }

    /// Joins a seat into another, which takes over its numbers, claims and marks.
    pub fn give_back(&self, into: &mut WorkerSeat, seat: WorkerSeat)
        requires into { IsOf self.now into.old }
        requires seat { IsOf self.now seat }
        ensures board { into.new.board ≡ into.old.board }
        ensures known { into.new.known ≡ together into.old.known seat.known }
    {
        let WorkerSeat {
            place,
            mut claims,
            pieces: _,
            workers: _,
            first,
            held,
            done,
            stopped,
        } = seat;
        let shared = &self.table.shared;
        shared.join_seat::<TakeOver>(&mut into.place, place);

        // The number that this finds is not used: the step tells that the claims of both fit into the room of one, and
        // that no worker's number is held twice.
        shared.load::<Weigh>(&mut into.place, 0);
        into.claims.append(&mut claims).unwrap();
        into.first = into.first.min(first);
        into.held += held;
        into.done |= done;
        into.stopped |= stopped;
    }

    /// Whether the seat holds every worker's number, and is done.
    pub fn is_whole(&self, seat: &WorkerSeat) -> bool
        requires of_board { IsOf self.now seat.now }
        ensures whole { IsTrue result ↔ IsWhole self.now seat.now }
        ensures each { IsTrue result ↔ (HoldsEach self.now seat.now × IsDone seat.now) }
    {
        seat.held == self.size.workers && seat.done
    }

    /// The claims of all workers, from the seat into which all others were joined.
    pub fn close(self, seat: WorkerSeat) -> Gathered
        requires of_board { IsOf self seat }
        requires whole { IsWhole self seat }
        ensures size { result.size ≡ self.size }
        ensures claims { result.claims ≡ seat.known.claims }
        ensures each { NamesEach result.size result.claims }
        ensures count { length result.claims ≡ result.size.pieces }
        ensures core { Replays result.size result.claims }
    {
        let Board { table, size } = self;
        let WorkerSeat {
            place,
            claims,
            pieces: _,
            workers: _,
            first: _,
            held: _,
            done: _,
            stopped: _,
        } = seat;
        claims_are_replayed();
        table.close_with(place).free();
        Gathered { size, claims }
    }

    /// Tells all seats to stop, by one fetch-or. The seat gets the stop mark.
    pub fn stop(&self, seat: &mut WorkerSeat)
        requires of_board { IsOf self.now seat.old }
        ensures board { seat.new.board ≡ seat.old.board }
        ensures known { seat.new.known ≡ with_stop seat.old.known }
    {
        self.table.shared.fetch_or::<SetStop>(&mut seat.place, 1, 1);
        seat.stopped = true;
    }

    /// Whether some seat was told to stop, by one load. If so, this one gets the stop mark. A seat that has the mark is
    /// always told so.
    pub fn is_stopped(&self, seat: &mut WorkerSeat) -> bool
        requires of_board { IsOf self.now seat.old }
        ensures board { seat.new.board ≡ seat.old.board }
        ensures stopped { IsTrue result → seat.new.known ≡ with_stop seat.old.known }
        ensures unstopped { result ≡ false → (seat.new.known ≡ seat.old.known) × (HasStopped seat.old → ⊥) }

        // With every worker's number, the seat itself knows.
        ensures last { length seat.old.known.numbers ≡ self.now.size.workers → IsTrue result → HasStopped seat.old }
    {
        let found = self.table.shared.load::<ReadStop>(&mut seat.place, 1);
        if found == 0 {
            return false;
        }
        seat.stopped = true;
        true
    }
}
