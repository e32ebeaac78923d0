//! The columns of what fits: those that a source, an operator or a plan makes of the columns before it, without asking again whether
//! it fits.
//!
//! The definitions are in `Made.antt` in the specs. Where something fits, they are the columns that it has there.
#![tactic(auto)]

mod columns;

pub use columns::{op_makes, plan_makes, source_makes};
