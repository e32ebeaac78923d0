ghost use Rattle.std.specs.Prelude.{◌↔◌, IsTrue};
ghost use Rattle.worker_board.specs.Views.{IsDone, HasStopped};

use crate::known::Known;
use atomic_table::Seat;
use board_core::Claim;
use std::marker::Model;

/// The seat of one worker at a board, or of several whose seats were joined, with what they have claimed.
///
/// It has room for a claim of every piece.
#[derive(Drop)]
pub struct WorkerSeat {
    pub(crate) place: Seat<(), Known>,
    pub(crate) claims: Vec<Claim>,
    pub(crate) pieces: u32,
    pub(crate) workers: u32,
    // the least worker's number, and how many numbers there are
    pub(crate) first: u32,
    pub(crate) held: u32,
    pub(crate) done: bool,
    pub(crate) stopped: bool,
}

impl Model for WorkerSeat {
    ghost use Rattle.std.specs.Prelude.{◌≡◌, ◌<◌, ◌≤◌, ◌↔◌, IsTrue, length, vec_capacity, []};
    ghost use Rattle.std.specs.Coded.{codes};
    ghost use Rattle.atomic_table.specs.Seated.{table_id_coded};
    ghost use Rattle.worker_board.specs.Views.{SeatView};

    ghost Value = { SeatView };

    ghost view = { λ s. record { board = s.place.table_id; known = s.place.me.0 } };

    ghost use Rattle.worker_board.specs.Inside.{IsSeated};

    ghost invariant = { IsSeated };
}

impl WorkerSeat {
    /// Whether this seat, or one that was joined into it, was told the end.
    pub fn is_done(&self) -> bool
        ensures done { IsTrue result ↔ IsDone self.now }
    {
        self.done
    }

    /// Whether this seat, or one that was joined into it, has the stop mark.
    pub fn has_stopped(&self) -> bool
        ensures stopped { IsTrue result ↔ HasStopped self.now }
    {
        self.stopped
    }
}
