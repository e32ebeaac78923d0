//! What binding a query promises, each the contract of a function that does nothing: the program fits the schemas that it was bound to, where
//! these and the moment are sound, and a refusal is told at a place of the query.
#![tactic(auto)]

mod laws;

pub use laws::{law_of_binding_queries, law_of_places_of_queries};
