//! Tests of kql_ticks, on its public calls.
#![tactic(auto)]

#[cfg(test)]
mod tests;
