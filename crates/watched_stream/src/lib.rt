//! A stream that keeps why a write to it failed.
#![tactic(auto)]

#[cfg(test)]
mod tests;
mod watched;

pub use watched::WatchedStream;
