//! The parser of queries: let statements, sources, and the operators that may hold pipes.
#![tactic(auto)]

mod bodies;
mod count;
mod laws;
mod lets;
mod limits;
mod look;
mod parser;
mod pipes;

pub use laws::queries_are_one;
pub use parser::parse;
