//! Queries bound to the schemas of their tables: a program, or the first fault with its place.
//!
//! The definitions are in `specs/`: `Bound.antt` for a whole query, and one file for each operator that holds queries or statements of
//! its own. The other operators are those of `bind_operators` and `bind_groups`.
#![tactic(auto)]

mod bound;
mod join;
mod laws;
mod lets;
mod operators;
mod ops;
mod partition;
mod pipes;
mod query;
mod scan;
mod scan_faults;
mod scan_records;
mod tables_read;
mod union;

pub use bound::{BoundOps, BoundStatements};
pub use laws::law_of_codes;
pub use query::bind;
