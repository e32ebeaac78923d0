//! What a bound program means, operator by operator, over lists of rows, and when it fits the schemas of its tables.
//!
//! The definitions are in `specs/`: `Expressions.antt` for the value of an expression, one file for each operator, and `Plans.antt`
//! for a program. The functions `law_of_..` carry laws of them; `kql_meaning_examples` shows what they make of small tables.
#![tactic(auto)]

mod kinds;
mod laws;
mod position;

pub use kinds::{column_kind, kind_along, kind_down, kind_of, kind_of_call};
pub use laws::{
    law_of_bins, law_of_cuts, law_of_expansion, law_of_greatest_and_least, law_of_groups,
    law_of_inner_join, law_of_innerunique_join, law_of_join_names, law_of_keys,
    law_of_leftouter_join, law_of_matches, law_of_nothing, law_of_outer_joins, law_of_partition,
    law_of_rows, law_of_runs, law_of_scan, law_of_semi_joins, law_of_sort, law_of_summarize,
    law_of_terms, law_of_union,
};
pub use position::Position;
