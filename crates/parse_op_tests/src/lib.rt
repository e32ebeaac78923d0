//! Tests of parse_op, on its public calls.
#![tactic(auto)]

#[cfg(test)]
mod tests;
