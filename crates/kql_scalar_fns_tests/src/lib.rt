//! Tests of kql_scalar_fns, on its public calls.
#![tactic(auto)]

#[cfg(test)]
mod rows;
#[cfg(test)]
mod tests;
