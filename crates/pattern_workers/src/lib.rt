//! What patterns answer to a column of texts, by many workers.
#![tactic(auto)]

mod answers;

pub use answers::{answers_by_ranges, answers_by_workers};
