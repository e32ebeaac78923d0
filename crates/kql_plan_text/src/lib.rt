//! The text of a bound program.
//!
//! `specs/Plans.antt` says what it is.
#![tactic(auto)]

mod laws;
mod words;
mod write_exprs;
mod write_literals;
mod write_operators;
mod write_parts;
mod write_plans;

pub use laws::names_and_strings_read_back;
pub use write_plans::plan_text;
