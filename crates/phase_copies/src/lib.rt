//! Copies of tables by many workers, column by column: for operators that take a table of their own, where it is lent.
#![tactic(auto)]

mod copies;

pub use copies::run_copy;
