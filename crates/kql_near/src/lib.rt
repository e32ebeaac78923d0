//! Which of some names a word may have meant.
#![tactic(auto)]

mod near;

pub use near::{nearest, nearest_name};
