//! The words around the proved call: a query on the command line or in several files, tables by their files alone, and
//! the form of the answer.
#![tactic(auto)]

mod call_words;
mod marks;
mod names;
mod parts;
mod reader;
mod request;

pub use call_words::{RunWords, run_words};
pub use names::table_word;
pub use parts::add_part;
pub use reader::read_request;
pub use request::{Form, Part, Request, Stop, Verb};
