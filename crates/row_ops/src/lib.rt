//! `where`, `extend`, `project`, `take` and `count`, and the sources `print` and `range`: each gives the table that the meaning of
//! its name has.
//!
//! They compute values and places; moving cells is the table's own.
#![tactic(auto)]

mod columns;
mod extend;
mod filter;
mod moved;
mod source;
mod terms;
mod values;

pub use columns::places_without;
pub use extend::{computed_rows, extend_rows, project_rows};
pub use filter::{count_rows, take_rows, where_rows};
pub use source::{print_rows, range_rows};
