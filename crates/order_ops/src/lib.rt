//! `sort` and `top`: each gives the table that the meaning of its name has.
//!
//! Each key is computed once for every row. Places are sorted by the keys and then by themselves, so that rows of the same keys
//! keep their order, and the rows are gathered once. For `sort`, numbers that tell most values of the first two keys apart stand
//! beside each place, so that comparisons seldom read a column.
#![tactic(auto)]

mod keys;
mod leads;
mod least;
mod marks;
mod sort;

pub use keys::{KeyColumn, key_columns};
pub use least::{law_of_tops, least_of, top_rows};
pub use sort::sort_rows;
