//! The command `live`: a table grows while several readers ask a query of it.
#![tactic(auto)]

mod bound;
mod ended;
mod files;
mod run;
mod steps;
mod top;

pub use ended::{LiveEnded, live_status};
pub use top::kql_live;
