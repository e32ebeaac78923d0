//! Where the engine meets the world: files that are read, streams that are written, and the gate of its workers.
//!
//! The engine is generic over `Shelf`, `Sink` and `Gate`. What a call of theirs means is said in their clauses,
//! over the files and bytes that an implementation tells, and over a count of faults: a call that fails has
//! raised the count of its own object.
#![tactic(auto)]

mod clean;
mod counts;
mod failing;
mod gates;
mod host;
mod outside;
mod transfers;

pub use clean::{CleanShelf, CleanSink};
pub use failing::{MemShelf, MemSink};
pub use gates::{HoldGate, OpenGate};
pub use host::{DirShelf, StreamSink};
pub use outside::{Failed, Gate, Shelf, Sink};
pub use transfers::{ReadError, read_up_to, write_all};
