//! Views: a `summarize` that is kept as its groups. A view takes rows without those that it took before, and gives the table of all of them.
#![tactic(auto)]

mod grows;
mod laws;
mod view;

pub use laws::views_stand_for_what_they_took;
pub use view::View;
