//! The rules by which two neighbours change places, and what an operator is, where a rule asks for one of a kind.
//!
//! Whether a rule fires is told without a copy, so that who holds both operators moves them. The table of these rules is in `Swaps.antt` in the
//! specs.
#![tactic(auto)]

mod swapping;
mod views;

pub use swapping::{asks_columns, swaps};
pub use views::{
    expand_of, extend_of, filter_of, group_of_op, is_count, is_serialize, keeps_count, parse_of,
    project_of, sort_of, take_of,
};
