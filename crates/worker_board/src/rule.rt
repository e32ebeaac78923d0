use crate::known::{Known, Size};
use atomic_table::{Join, Play, Split, TableRule};

/// What holds of a board between any two steps of its workers.
pub struct BoardRule;

impl TableRule<(), Known, Size> for BoardRule {
    ghost use Rattle.worker_board.specs.Rule.{Keeps};
    ghost use Rattle.worker_board.specs.Moves.{everyone};

    ghost holds = { Keeps };

    ghost first = { everyone };
}

/// Cuts off the first worker's number.
pub(crate) struct Deal;

impl Split<Known> for Deal {
    ghost use Rattle.worker_board.specs.Moves.{all_but_first, first_alone};

    ghost left = { all_but_first };

    ghost right = { first_alone };
}

/// Takes over another seat's numbers, claims and marks.
pub(crate) struct TakeOver;

impl Join<Known> for TakeOver {
    ghost use Rattle.worker_board.specs.Moves.{together, spent};

    ghost both = { together };

    ghost spent = { spent };
}

/// Draws the next number.
pub(crate) struct Draw;

impl Play<(), Known> for Draw {
    ghost use Rattle.worker_board.specs.Plays.{Draws};

    ghost then = { Draws };
}

/// Tells how much a seat can hold.
pub(crate) struct Weigh;

impl Play<(), Known> for Weigh {
    ghost use Rattle.worker_board.specs.Plays.{Weighs};

    ghost then = { Weighs };
}

/// Sets the stop word.
pub(crate) struct SetStop;

impl Play<(), Known> for SetStop {
    ghost use Rattle.worker_board.specs.Plays.{SetsStop};

    ghost then = { SetsStop };
}

/// Reads the stop word.
pub(crate) struct ReadStop;

impl Play<(), Known> for ReadStop {
    ghost use Rattle.worker_board.specs.Plays.{SeesStop};

    ghost then = { SeesStop };
}
