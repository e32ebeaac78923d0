//! Tests of scan_ops, on its public calls.
#![tactic(auto)]

#[cfg(test)]
mod scans;
#[cfg(test)]
mod table;
#[cfg(test)]
mod tests;
