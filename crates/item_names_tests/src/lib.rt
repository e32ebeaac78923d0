//! Tests of item_names, on its public calls.
#![tactic(auto)]

#[cfg(test)]
mod tests;
