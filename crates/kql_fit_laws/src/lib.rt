//! What fitting promises: of the calls, expressions, items, operators, plans and programs that `laws` names, each the contract of a
//! function that does nothing.
#![tactic(auto)]

mod laws;

pub use laws::{
    law_of_calls, law_of_expressions, law_of_fitting_programs, law_of_group_rows, law_of_items,
    law_of_operators, law_of_programs, law_of_rows,
};
