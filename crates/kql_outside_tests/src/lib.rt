//! Tests of kql_outside, on its public calls.
#![tactic(auto)]

#[cfg(test)]
mod tests;
