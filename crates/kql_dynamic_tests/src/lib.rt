//! Tests of kql_dynamic, on its public calls.
#![tactic(auto)]

#[cfg(test)]
mod tests;
