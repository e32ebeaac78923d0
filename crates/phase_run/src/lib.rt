//! The phases of a plan by many workers: the table that the plan means, whatever their number and whoever takes which piece.
//!
//! A run of operators that read one row at a time goes by ranges of rows; every other operator runs on the thread that asks, which
//! moves its table into it.
#![tactic(auto)]

mod alone;
mod joins;
mod lets;
mod phases;
mod plans;
mod programs;
mod report;
mod rows;

pub use phase_pieces::Sizes;
pub use programs::{Answer, run_plan};
pub use report::{PhaseReport, Report};
