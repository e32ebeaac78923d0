//! Texts: searches with case and without, places of characters, pieces and letters.
//!
//! A character is a Unicode scalar value.
#![tactic(auto)]

mod folding;
mod letters;
mod pieces;
mod places;
mod search;
mod terms;

pub use folding::Fold;
pub use letters::{compare, reverse_chars, to_lower, to_upper};
pub use pieces::{replace, split_by};
pub use places::{char_count, index_of, sub_text};
pub use search::{begins, ends, holds, same};
pub use terms::has_term;
