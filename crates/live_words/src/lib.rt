//! The words of the command `live`: what they ask for, or their first fault.
#![tactic(auto)]

mod command;
mod options;
mod paths;

pub use command::{LiveAsked, read_live};
pub use options::LiveOptions;
