//! What expressions give over some rows of a table, as the rows of a group, a bin or a partition: each law is the contract of a
//! function that does nothing.
#![tactic(auto)]

mod laws;

pub use laws::{law_of_arguments, law_of_gathered_rows};
