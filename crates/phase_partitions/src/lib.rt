//! `partition` by many workers: what operators make of the rows of each key of a column, keys one after another, in ranges of keys.
#![tactic(auto)]

mod keyed;

pub use keyed::run_partition;
