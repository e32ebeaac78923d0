//! Tables as values that grow, and where the columns of two tables differ.
#![tactic(auto)]

mod columns;
mod live_table;

pub use columns::{first_difference, have_columns_of, have_equal_columns};
pub use live_table::LiveTable;
