//! A query of the language over a live table: what its readers see, and what is shown as the table grows.
#![tactic(auto)]

mod form;
mod query;
mod run;
mod view;
mod watch;

pub use form::is_view;
pub use query::LiveQuery;
pub use run::run_query;
pub use view::run_view;
pub use watch::watch_text;
