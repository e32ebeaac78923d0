//! What the parser counts as the operators of a query are the operators of its tree, and each `parse` of a query that it reads has a pattern.
#![tactic(auto)]

mod laws;

pub use laws::{counted_operators_are_those_of_the_tree, law_of_patterns};
