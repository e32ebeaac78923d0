//! Groups that come in two pieces, wherever the rows are cut, and what each plan gives with ample memory.
#![tactic(auto)]

#[cfg(test)]
mod fitting;
mod pieces;
#[cfg(test)]
mod plans;
#[cfg(test)]
mod table;
#[cfg(test)]
mod tests;
