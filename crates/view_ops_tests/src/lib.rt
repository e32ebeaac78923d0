//! Views that take rows table by table, and the table of all of them.
#![tactic(auto)]

#[cfg(test)]
mod fitting;
#[cfg(test)]
mod plans;
#[cfg(test)]
mod table;
#[cfg(test)]
mod tests;
#[cfg(test)]
mod thousand;
