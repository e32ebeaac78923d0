//! Tests of kql_texts, on its public calls.
#![tactic(auto)]

#[cfg(test)]
mod tests;
