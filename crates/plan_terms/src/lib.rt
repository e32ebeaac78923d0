//! What expressions read: whether an expression is plain, and whether each column that it reads passes a test.
#![tactic(auto)]

mod plain;
mod reads;
mod renames;
mod rights;

pub use plain::{are_plain, is_plain};
pub use reads::{names_read, reads_among, reads_left_keys, reads_none, reads_others};
pub use renames::{column_of, inner_names, with_names};
pub use rights::right_names;
