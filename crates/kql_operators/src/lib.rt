//! The readers of operators that hold no pipe, and of what operators are made of.
#![tactic(auto)]

mod joins;
mod leaf;
mod look;
mod ops;
mod parts;
mod scans;

pub use joins::{join_kind, on_keys};
pub use look::name_end;
pub use ops::{column_op, group_op, row_op};
pub use parts::{hints, items, name_after, range, union_kind_option};
pub use scans::scan;
