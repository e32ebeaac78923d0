//! `partition` of one scan by many workers: the rows of each key of a column where they stand, in ranges of keys.
//!
//! The lists of the rows of each key, and how they are cut, are public for partitions of other operators.
#![tactic(auto)]

mod lists;
mod scans;

pub use lists::{cut_keys, rows_by_key};
pub use scans::run_keyed_scan;
