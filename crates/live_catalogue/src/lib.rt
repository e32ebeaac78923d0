//! Live values: one appender publishes batches, and readers take snapshots without waiting.
#![tactic(auto)]

mod appender;
mod grows;
mod known;
mod laws;
mod note;
mod opened;
mod reader;
mod rule;
mod value;

pub use appender::Appender;
pub use grows::Grows;
pub use known::Known;
pub use laws::every_live_value_is_lawful;
pub use note::Note;
pub use opened::live;
pub use reader::{LiveReader, Readers, Snapshot};
pub use rule::{LiveRule, NoPromise, Promise};
pub use value::{Change, Live};
