//! Tests of kql_functions, on its public calls.
#![tactic(auto)]

#[cfg(test)]
mod tests;
