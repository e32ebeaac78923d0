//! Tables from CSV and back by many workers, with the same answers as by one.
//!
//! A file is cut into ranges of bytes, a table into ranges of rows. Where the cuts are changes no answer. The pieces enter
//! the gate as phases 0 (is it a text), 1 (reading) and 2 (printing), which are no phases of an evaluation: who counts those
//! hands a gate of its own.
#![tactic(auto)]

mod checked;
mod joining;
mod loading;
mod printing;

pub use loading::{load_by_ranges, load_by_workers, load_typed_by_ranges, load_typed_by_workers};
pub use printing::{text_by_ranges, text_by_workers, typed_text_by_ranges, typed_text_by_workers};
