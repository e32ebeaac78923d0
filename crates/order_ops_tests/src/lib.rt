//! A test of order_ops, on its public calls: without keys, which no query can ask for.
#![tactic(auto)]

#[cfg(test)]
mod table;
#[cfg(test)]
mod tests;
