//! The columns of each operator's answer.
//!
//! The definitions are those of `kql_meaning`, in the file of each operator.
#![tactic(auto)]

mod columns;

pub use columns::{
    both_columns, count_columns, declared_columns, expand_columns, extend_columns, free_name,
    group_columns, has_column, is_name_among, items_columns, items_names, join_columns, names_of,
    parse_columns, pattern_columns, range_columns, result_kinds, scan_columns, series_columns,
    union_columns,
};
