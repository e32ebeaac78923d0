//! Tests of json_losses, on its public calls.
#![tactic(auto)]

#[cfg(test)]
mod tests;
