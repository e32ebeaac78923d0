//! `parse`: the first cut of a text by a pattern, and the table whose columns are its pieces.
//!
//! The search takes the items from the left, the least end first, and remembers where it has failed: from a place on, where an
//! item takes any piece, and else place by place.
#![tactic(auto)]

mod columns;
mod fill;
mod parse;
mod pieces;
mod search;
mod slot;
mod whole;

pub use parse::parse_rows;
pub use whole::cut;
