//! A whole program, operator by operator: the table that it means.
//!
//! Each source and operator is a call of the crate that has its body. The parts of the walk through a program are public, for whoever
//! walks with more hands: the tables that are lent or owned, sources, and which plan reads a let last.
#![tactic(auto)]

mod input;
mod keys;
mod lets;
mod plans;
mod programs;
mod readings;
mod sources;

pub use input::{Input, lent_tables};
pub use keys::emptied;
pub use lets::next_flag;
pub use plans::{changes, moved_let, ops_input};
pub use programs::{know_tables, plain};
pub use readings::last_readings;
pub use sources::source_table;
