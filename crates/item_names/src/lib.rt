//! The names of the columns that the items of operators give where the query gives none: `count_`, `sum_x`, `Column1`, `print_0`.
//!
//! `specs/ItemNames.antt` says what they are.
#![tactic(auto)]

mod laws;
mod names;
mod paths;

pub use laws::law_of_item_names;
pub use names::{item_names, print_name, takes_number};
