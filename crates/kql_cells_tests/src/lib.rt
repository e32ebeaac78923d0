//! Tests of kql_cells, on its public calls.
#![tactic(auto)]

#[cfg(test)]
mod tests;
