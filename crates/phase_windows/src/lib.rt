//! `extend` and `project` by many workers, in ranges of rows, with window functions or without.
//!
//! Items are computed over the table where it stands, and the columns that stay are moved. Where a `row_cumsum` or a
//! `row_number` stands in an item, a round before sums up each range, and each range is then computed from the sum of those before it.
#![tactic(auto)]

mod fills;
mod items;
mod rounds;
mod sums;

pub use items::{run_extend, run_items, run_project};
pub use rounds::Rounds;
