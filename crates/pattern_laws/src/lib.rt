//! What programs with pattern calls mean, and that lifting keeps it: each law is the contract of a function that does nothing.
#![tactic(auto)]

mod laws;

pub use laws::{
    law_of_added_columns, law_of_lifted_expressions, law_of_lifted_programs, law_of_lifting,
    law_of_marks, law_of_the_test,
};
