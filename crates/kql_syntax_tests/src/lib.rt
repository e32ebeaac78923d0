//! Tests of kql_syntax, on its public calls.
#![tactic(auto)]

#[cfg(test)]
mod tests;
