//! Keys of rows, and rows by the number of their key: what groups, joins and partitions stand on.
//!
//! A key is lent by the columns that it stands in: none is copied. Keys are the same where their cells show the same values.
#![tactic(auto)]

mod key;
mod number_key;
mod numbering;
mod places;
mod probe;
mod text_key;

pub use key::KeyRef;
pub use numbering::{KeyIndex, Numbered, index_keys, number_keys};
pub use places::{PlaceLists, places_by_number};
pub use probe::{Pairs, Probe, matching_pairs};
