//! Worked examples of what bound programs mean: what the definitions of `kql_meaning` make of small tables.
#![tactic(auto)]

mod examples;

pub use examples::{
    example_of_expansion, example_of_joins, example_of_next_and_row_number, example_of_parse,
    example_of_partition, example_of_range, example_of_scan, example_of_scan_outputs,
    example_of_series, example_of_sort, example_of_summarize, example_of_union, example_of_where,
    example_of_windows,
};
