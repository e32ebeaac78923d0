//! What binding an expression promises: it has its type and fits where it stands, or is refused at a place of its own; each the contract of a
//! function that does nothing.
#![tactic(auto)]

mod laws;

pub use laws::{law_of_binding, law_of_places};
