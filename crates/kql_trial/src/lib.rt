//! The trial: a log that a seed makes up, and the queries that are asked of it.
#![tactic(auto)]

mod log;
mod queries;

pub use log::log_catalogue;
pub use queries::{STORED_QUERIES, stored_query};
