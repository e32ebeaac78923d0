ghost use Rattle.std.specs.Prelude.{◌≡◌, ◌<◌, ℕ, IfOk};

use crate::board::Gathered;
use crate::seat::WorkerSeat;
use kql_items::Items;
use std::alloc::AllocError;

/// Work in pieces, which are counted from 0. What a piece gives is a function of its number alone.
pub trait Work<T> {
    // how many pieces there are
    ghost count: { Self → ℕ };

    // what each of them gives
    ghost answer: { Self → ℕ → T };

    /// How many pieces there are.
    fn pieces(&self) -> u32
        ensures count { result ≡ count self.now };

    /// What this piece gives. Only memory may be wanting.
    fn run(&self, piece: u32) -> Result<T, AllocError>
        requires { piece < count self.now }
        ensures answer { IfOk result (λ value. value ≡ answer self.now piece) };
}

/// What all pieces gave, in their order, and who claimed them.
#[derive(Drop)]
pub struct Outcome<T> {
    pub results: Items<T>,
    pub gathered: Gathered,
}

/// What a piece gave.
#[derive(Drop)]
pub(crate) struct PieceResult<T> {
    pub(crate) piece: u32,
    pub(crate) value: T,
}

/// A worker's seat, and the results of the pieces that it claimed.
#[derive(Drop)]
pub(crate) struct Desk<T> {
    pub(crate) seat: WorkerSeat,
    pub(crate) results: Vec<PieceResult<T>>,
}
