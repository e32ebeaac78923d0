//! The rules of the rewriter, and what each of them keeps: each law is the contract of a function that does nothing.
//!
//! A rule is a function of one operator or of two neighbours, and of the columns before them: `Rules.antt` in the specs. Where it fires,
//! the operators become others that have the same columns over everything that these fit, mean the same over every table of the
//! columns before them, and are lighter: `Becomes.antt`, `Weight.antt` and `Improves.antt`.
//!
//! One rule is on the nodes of expressions: a constant becomes the literal of its value, `Folding.antt` and `FoldedPlans.antt`.
#![tactic(auto)]

mod laws;

pub use laws::{law_of_constants, law_of_filters, law_of_shortening, law_of_takes};
