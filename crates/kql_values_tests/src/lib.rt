//! Tests of kql_values, on its public calls.
#![tactic(auto)]

#[cfg(test)]
mod columns;
#[cfg(test)]
mod shown;
#[cfg(test)]
mod tables;
#[cfg(test)]
mod vectors;
