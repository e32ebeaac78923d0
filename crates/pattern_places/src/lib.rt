//! Whether a bound program can be lifted: its calls of patterns stand where they may, and at places that differ.
#![tactic(auto)]

mod expressions;
mod marks;
mod operators;
mod plans;
mod program;

pub use marks::tables_are_unmarked;
pub use program::can_lift;
