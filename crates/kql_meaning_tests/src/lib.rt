//! Tests of kql_meaning, on its public calls, and calls of its laws and examples.
#![tactic(auto)]

#[cfg(test)]
mod tests;
