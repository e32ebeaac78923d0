//! The rule on the nodes of expressions: a node that is a constant becomes the literal of its value, anywhere in a program.
//!
//! What an expression becomes is `Folding.antt` of the specs of `plan_rules`, what a program becomes `FoldedPlans.antt`, and what that
//! keeps is the contract of `plan_rules::law_of_constants`.
#![tactic(auto)]

mod calls;
mod chains;
mod exprs;
mod parts;
mod plans;

pub use exprs::folded_expr;
pub use plans::fold_constants;
