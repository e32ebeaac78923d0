//! Where a file of CSV ends inside a quoted cell, so that all behind the quote is one cell.
#![tactic(auto)]

mod laws;
mod lines;
mod place;
mod quotes;
#[cfg(test)]
mod tests;

pub use laws::{behind_it_is_one_cell, one_open_quote};
pub use lines::quote_line;
pub use quotes::open_quote;
