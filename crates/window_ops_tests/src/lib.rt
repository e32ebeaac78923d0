//! Tests of window_ops by ranges of rows, on its public calls: no query of one thread asks for them.
#![tactic(auto)]

#[cfg(test)]
mod calls;
#[cfg(test)]
mod fills;
#[cfg(test)]
mod items;
#[cfg(test)]
mod table;
#[cfg(test)]
mod tests;
