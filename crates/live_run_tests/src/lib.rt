//! Tests of live values over tables, and of runs of them in threads, on the public calls.
#![tactic(auto)]

#[cfg(test)]
mod alone;
mod asks;
#[cfg(test)]
mod many;
#[cfg(test)]
mod runs;
#[cfg(test)]
mod single;
#[cfg(test)]
mod table;
mod tally;
mod whole;
