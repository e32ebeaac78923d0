//! Tables in pieces: how many rows a piece has, the rows of one, and tables put together again.
#![tactic(auto)]

mod cut;
mod ran;
mod together;

pub use cut::{Bounds, Cut, Sizes, bounds_of, cut_rows, piece_table};
pub use ran::Ran;
pub use together::put_together;
