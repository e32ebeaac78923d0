//! `summarize` by pieces: the groups of a range of rows, what two neighbouring ranges have together, and the table of all.
//!
//! A piece is read first: the values of the keys and of the calls' arguments at its rows. Then each group keeps for each call what the fold
//! of its rows keeps. Groups of neighbouring ranges are joined in the order of the rows, without looking at a row again. At the end an item is
//! computed for each group from what its calls give. Groups that are to outlive their rows own their values.
#![tactic(auto)]

mod calls;
mod columns;
mod finish;
mod folds;
mod groups;
mod join;
mod kept;
mod own;
mod piece;
mod values;

pub use finish::finish_groups;
pub use groups::{Groups, group_piece};
pub use join::join_groups;
pub use own::OwnGroups;
pub use piece::{PieceRows, piece_rows};
