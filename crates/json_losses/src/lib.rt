//! How many numbers of JSON in a table file are no whole numbers of the language, so that the table has null for them.
#![tactic(auto)]

mod fields;
mod header;
mod json;
mod laws;
mod lines;
mod records;
mod rows;

pub use laws::counted_numbers;
pub use lines::losses_line;
pub use rows::count_losses;
