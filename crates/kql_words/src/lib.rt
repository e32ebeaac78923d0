//! The words of the command: what they ask for, or their first fault.
#![tactic(auto)]

mod command;
mod options;
mod refusal;
mod size;
mod trial;

pub use command::{Asked, Command, read_command, table_parts};
pub use options::Options;
pub use refusal::Refusal;
pub use trial::{ROWS_TOP, Trial};
