//! How the phases of a plan go: which operators the next one takes, and which phases a program has.
#![tactic(auto)]

mod ahead;
mod held;

pub use ahead::{Ahead, Form, look_ahead};
pub use held::holds_plan;
