//! Tests of kql_plan_text, on its public calls.
#![tactic(auto)]

#[cfg(test)]
mod tests;
