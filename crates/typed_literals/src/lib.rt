//! Literals written with a type, as `datetime(2024-02-01)` or `long(0x1F)`: the values that the texts between their brackets read as.
//!
//! `specs/Reading.antt` says which text reads as which value.
#![tactic(auto)]

mod reading;

pub use reading::{kind_of_word, trimmed, value_or_null};
