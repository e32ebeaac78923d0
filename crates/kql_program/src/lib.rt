//! The top call: words and files in, the text of a table or one refusal out.
#![tactic(auto)]

mod bound;
mod crew;
mod ended;
mod evaluate;
mod files;
mod lines;
mod memory;
mod refusal;
mod steps;
mod top;
mod trial;

pub use ended::{Ended, Reports, status};
pub use evaluate::program_of;
pub use files::{read_query, read_table};
pub use kql_words::Refusal;
pub use lines::line_of;
pub use memory::kql_in_memory;
pub use phase_run::{PhaseReport, Report, Sizes};
pub use refusal::Stop;
pub use top::{kql, kql_in_pieces};
