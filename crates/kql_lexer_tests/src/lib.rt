//! Tests of kql_lexer, on its public calls.
#![tactic(auto)]

#[cfg(test)]
mod tests;
