//! Columns of what patterns answer to a column of texts, and the makers of patterns.
#![tactic(auto)]

mod column;
mod laws;
mod literal_maker;
mod pattern;
mod regex_maker;

pub use column::{answer_kind, answers_by};
pub use laws::law_of_ranges;
pub use literal_maker::{LiteralMaker, LiteralPattern};
pub use pattern::{MakeFault, Pattern, PatternMaker};
pub use pattern_search::{RegexPattern, Span};
pub use regex_maker::RegexMaker;
