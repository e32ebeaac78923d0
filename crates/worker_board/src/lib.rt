//! The board from which the workers of a phase draw its pieces, and a run of all pieces by many workers.
//!
//! A board is one counter that many threads draw from without waiting. Each worker has a seat at it, and its seat keeps
//! what it has claimed. After the work the seats are given back into one, and the board is closed: its claims name
//! each piece once. `run_pieces` does all of it.
#![tactic(auto)]

mod board;
mod joined;
mod known;
mod laws;
mod phase;
mod rule;
mod seat;
mod slots;
mod work;
mod worker;

pub use board::{Board, Gathered, Seats};
pub use known::{Known, Size};
pub use laws::every_board_is_lawful;
pub use phase::run_pieces;
pub use rule::BoardRule;
pub use seat::WorkerSeat;
pub use work::{Outcome, Work};
