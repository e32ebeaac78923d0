//! The rules on one operator, and those by which two neighbours become other operators, which a rewriter of plans uses wherever they fire.
//!
//! The table of all rules on one operator and on two neighbours is in `Table.antt` in the specs; it has every such rule of `plan_rules`. Those by
//! which two neighbours change places are in `plan_swaps`.
#![tactic(auto)]

mod filters;
mod inner;
mod right;
mod rules;

pub use rules::{change_rule, single_rule};
