//! The rewriter of plans: it settles a program, which is to apply rules to it until none applies. A walk over operators uses a rule
//! wherever it fires, and a loop over the walk folds constants.
//!
//! The table of the rules on one operator and on two neighbours is that of `plan_neighbours`; it has every such rule of `plan_rules`.
//! The rule on the nodes of expressions, by which a constant becomes the literal of its value, is that of `plan_constants`. When a
//! program is settled says `Settled.antt`: no rule of the table fires anywhere in it, its lets or its subplans, and no node of an
//! expression in it is a constant, but for literals.
#![tactic(auto)]

mod driver;
mod walk;

pub use driver::settle;
