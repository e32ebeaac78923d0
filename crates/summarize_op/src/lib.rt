//! `summarize` and `distinct`: for each group of rows one row, with the keys and then each item over the rows of the group.
//!
//! First the number of each row's group, then each call of an aggregate by one pass over the rows, which gives one vector for each of its
//! result columns.
#![tactic(auto)]

mod applied;
mod arguments;
mod calls;
mod groups;
mod items;
mod passes;
mod picks;
mod summarize;
mod values;

pub use summarize::summarize_rows;
