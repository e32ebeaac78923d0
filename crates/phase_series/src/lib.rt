//! `make-series` by ranges of rows, by many workers: the rows inside are summarized by bin and keys in pieces, and the bins of each group are
//! filled from that table.
#![tactic(auto)]

mod series;

pub use series::run_series;
