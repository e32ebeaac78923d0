//! Worked examples of binding: what the definitions of `bind_query` make of operators and statements over small tables.
#![tactic(auto)]

mod examples;

pub use examples::{
    example_of_columns, example_of_counts, example_of_joins, example_of_partitions,
    example_of_steps, example_of_tables, example_of_unions,
};
