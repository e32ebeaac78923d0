//! `summarize` and `distinct` by ranges of rows, by many workers: the rows of each range are read, then its groups are made, and groups of
//! neighbouring ranges are joined in the order of the rows.
#![tactic(auto)]

mod groups;
mod joined;
mod ranges;
mod sizes;
mod works;

pub use groups::run_groups;
