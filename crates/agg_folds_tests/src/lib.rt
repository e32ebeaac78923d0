//! Tests of agg_folds that no query reaches: folds in pieces.
#![tactic(auto)]

#[cfg(test)]
mod tests;
