//! `join` of nine kinds, and `lookup`.
//!
//! One side leads: its rows, one after another, find their matches in an index of the other side's keys. What is computed are
//! places; the cells move once, into the answer.
#![tactic(auto)]

mod join;
mod keys;
mod led;
mod pairs;
mod rows;
mod shown;
mod sides;

pub use join::{Joined, join_places, join_tables};
pub use keys::{key_column, key_columns};
pub use led::{law_of_leads, leading_rows, other_rows, side_table, table_of_leads};
pub use pairs::{has_lead, shows_both};
pub use sides::{Side, lead_side, opposite};
