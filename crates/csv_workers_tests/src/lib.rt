//! Tests of csv_workers, on its public calls: each answer is the one of one worker, wherever the cuts are.
#![tactic(auto)]

#[cfg(test)]
mod loads;
#[cfg(test)]
mod prints;
