//! A query over a live value: an appender publishes batches, and beside it readers answer the query over what they see.
#![tactic(auto)]

mod append;
mod query;
mod question;
mod run;
mod script;
mod watch;

pub use query::{LiveAnswer, Query, query_live};
pub use question::{Question, query_value};
pub use run::{Outcome, run_live, run_value};
pub use script::{Script, Scripted};
pub use watch::{Seen, SeenList, SeenLists};
