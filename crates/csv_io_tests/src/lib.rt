//! Tests of csv_io, on its public calls.
#![tactic(auto)]

#[cfg(test)]
mod tests;
