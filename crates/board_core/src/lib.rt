//! The core of the board from which workers draw pieces of work, as a pure machine.
//!
//! Workers claim the pieces 0, 1, 2 and so on from one counter, and fill a slot for each piece that they
//! claimed. Any list of events is an order in which the calls of the workers may come, so what holds of the
//! core after every list of events holds in every order.
#![tactic(auto)]

mod events;
mod laws;
mod lists;
mod machine;

pub use events::{Claim, Claims, Event, Stepped};
pub use laws::{claims_are_replayed, every_order_is_lawful, first_claims_are_replayed};
pub use machine::{Core, run_all};
