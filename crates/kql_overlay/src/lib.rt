//! What the shell puts around the proved call's outside: a shelf of files in memory above those of another shelf, and a sink
//! that keeps what is written to it.
#![tactic(auto)]

mod course;
mod kept;
mod overlay;

pub use kept::KeptSink;
pub use overlay::Overlay;
