//! Searches for patterns, one text after another: regular expressions, and texts that stand for themselves.
#![tactic(auto)]

mod literals;
mod regexes;
mod search;
mod span;

pub use literals::LiteralSearch;
pub use regexes::{RegexPattern, RegexSearch};
pub use search::Search;
pub use span::Span;
