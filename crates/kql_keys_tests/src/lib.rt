//! Tests of kql_keys, on its public calls.
#![tactic(auto)]

#[cfg(test)]
mod tests;
