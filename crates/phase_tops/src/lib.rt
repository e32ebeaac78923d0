//! `top` by ranges of rows, by many workers.
//!
//! A piece gives the places of its first rows. The first of these are the first of all, and only their rows are copied.
#![tactic(auto)]

mod places;
mod tops;

pub use tops::run_top;
