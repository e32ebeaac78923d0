//! Tests of kql_parser, on its public calls.
#![tactic(auto)]

#[cfg(test)]
mod tests;
