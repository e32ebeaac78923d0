//! Tests of phase_windows, on its public calls: items of each kind, by many workers and in pieces of few rows.
#![tactic(auto)]

#[cfg(test)]
mod items;
#[cfg(test)]
mod phases;
#[cfg(test)]
mod table;
