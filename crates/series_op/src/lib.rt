//! `make-series`: for each group with a row inside one row, with the keys, for each aggregate an array over the bins, and the bins.
//!
//! The rows inside are summarized by their bin and the keys: one fold for each group and bin that has a row. What comes of it has a row
//! for each of these, and the bins of a group are filled from its rows, with the default where there is none.
#![tactic(auto)]

mod arrays;
mod bins;
mod groups;
mod inside;
mod numbers;
mod plan;
mod series;
mod slots;

pub use series::{SeriesParts, series_of_summary, series_parts, series_rows};
