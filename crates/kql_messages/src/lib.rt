//! What a terminal is told of a refusal under its line: what is meant by what stands there, what there is in its place, and what to write.
#![tactic(auto)]

mod arguments;
mod before;
mod calls;
mod cells;
mod file;
mod kinds;
mod literals;
mod mistakes;
mod names;
mod operands;
mod patterns;
mod pieces;
mod query;
mod records;
mod seen;
mod sentence;
mod sides;
mod signs;
mod syntax;
mod types;
mod values;
mod words;

pub use before::queries_before;
pub use file::{RefusedFile, Sizes, file_message, sizes_message};
pub use query::{KnownColumn, RefusedQuery, query_message};
pub use records::header_end;
