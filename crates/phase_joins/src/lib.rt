//! `join` and `lookup` by ranges of the rows that lead, by many workers.
//!
//! The keys of the other side are found once, and every piece finds its matches among them.
#![tactic(auto)]

mod join;
mod led;

pub use join::run_join;
