//! Tests of phase_run, on its public calls: a plan of every kind of phase, by many workers and in pieces of few rows.
#![tactic(auto)]

#[cfg(test)]
mod forms;
#[cfg(test)]
mod phases;
#[cfg(test)]
mod queries;
#[cfg(test)]
mod sizes;
#[cfg(test)]
mod tables;
