//! Tests of board_core, on its public calls.
#![tactic(auto)]

#[cfg(test)]
mod tests;
