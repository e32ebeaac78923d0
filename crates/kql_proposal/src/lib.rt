//! Headers: the columns of tables as a table, and the header with types that the cells of a file call for.
#![tactic(auto)]

mod header;
mod kinds;
mod listing;
mod record;
mod rows;
mod typed;

pub use listing::schema_table;
pub use typed::{Proposal, propose};
