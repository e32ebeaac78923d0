use kql_items::Items;

/// What a worker does. Workers are numbered from 0.
#[derive(Clone, Copy, Debug, PartialEq, Eq)]
pub enum Event {
    /// This worker asks for the next piece.
    Claim(u32),
    /// This worker fills the slot of the piece that it has open.
    Fill(u32),
}

/// What a core answers to an event.
#[derive(Clone, Copy, Debug, PartialEq, Eq)]
pub enum Stepped {
    /// The worker has claimed this piece.
    Claimed(u32),
    /// The slot of this piece is filled.
    Filled(u32),
    /// No piece is left, and the worker has been told so.
    Done,
    /// The event is out of turn, and nothing has changed.
    Ignored,
}

/// Which worker has claimed a piece. Pieces and workers are numbered from 0.
#[derive(Clone, Copy, Debug, PartialEq, Eq)]
pub struct Claim {
    pub piece: u32,
    pub worker: u32,
}

/// A list of claims.
pub type Claims = Items<Claim>;
