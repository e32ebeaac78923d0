//! The list and the box of the workspace: owners that contracts see as what they hold.
//!
//! `Items<T>` is a `Vec<T>` seen as the list of its items, and `Boxed<T>` a `Box<T>` seen as its value. A type
//! that leads back to itself through them is plain data in every clause: a copy equals what it copies.
#![tactic(auto)]

mod boxed;
mod items;

pub use boxed::Boxed;
pub use items::Items;
