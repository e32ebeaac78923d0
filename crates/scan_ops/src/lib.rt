//! `scan`: a machine that takes the rows of a table one after another through its steps, and the table of the rows that it emits.
//!
//! Conditions and assignments are located once. A row that no step takes is looked at and not copied; one that a step takes is held as a
//! record, and its state moves from step to step. What is emitted is stored by columns.
//!
//! A scan of each key takes the rows of a key where they stand; the rows of each key are found by a call of their own.
#![tactic(auto)]

mod emit;
mod extended;
mod keyed;
mod keys;
mod machine;
mod run;
mod scans;
mod state;
mod step;

pub use extended::with_declared;
pub use keyed::{scan_keyed, scan_lists};
pub use keys::rows_by_key;
pub use machine::ScanMachine;
pub use scans::{scan_owned, scan_rows};
pub use step::are_steps_scalar;
