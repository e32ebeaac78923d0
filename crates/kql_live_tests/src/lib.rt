//! Tests of kql_live, on its public call.
#![tactic(auto)]

#[cfg(test)]
mod calls;
#[cfg(test)]
mod faults;
#[cfg(test)]
mod lists;
#[cfg(test)]
mod rows;
