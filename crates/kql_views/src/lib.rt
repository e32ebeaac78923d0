//! Tables to look at, and tables as JSON.
#![tactic(auto)]

mod cells;
mod fitted;
mod json;
mod look;
mod widths;

pub use json::{json_lines, json_text};
pub use look::{Look, table_view};
