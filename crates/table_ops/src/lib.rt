//! `union` and `mv-expand`: each gives the table that the meaning of its name has.
//!
//! They compute vectors and places, column by column; moving cells is the table's own.
#![tactic(auto)]

mod down;
mod expand;
mod in_columns;
mod part;
mod parts;
mod union;

pub use expand::expand_rows;
pub use union::union_tables;
