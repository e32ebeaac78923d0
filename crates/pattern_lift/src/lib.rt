//! Lifting: the pattern calls of a bound program, and the program that reads columns of derived tables in their places.
#![tactic(auto)]

mod calls;
mod copies;
mod expressions;
mod lent;
mod marks;
mod names;
mod pattern_calls;
mod plans;
mod prefixes;
mod tables;

pub use calls::{Derived, DerivedTables, PatternCall, PatternCalls};
pub use copies::copy_calls;
pub use lent::calls_are_lent;
pub use marks::marks_beyond;
pub use names::call_name;
pub use pattern_calls::calls_of;
pub use plans::lifted_program;
pub use prefixes::{behind, joins, left_of, names_set, sets};
pub use tables::{columns_of_table, derived_columns, derived_tables};
