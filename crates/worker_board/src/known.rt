use board_core::Claim;
use std::collections::LinkedList;

/// For how many pieces and workers a board was made.
#[derive(Clone, Copy, Debug, PartialEq, Eq)]
pub struct Size {
    pub pieces: u32,
    pub workers: u32,
}

/// What a seat knows, which contracts speak of. No value of it is made.
pub struct Known {
    /// The size of its board.
    pub size: Size,
    /// The numbers of the workers whose seat it is.
    pub numbers: LinkedList<u32>,
    /// What they have claimed.
    pub claims: LinkedList<Claim>,
    /// The numbers of those that were told the end.
    pub ended: LinkedList<u32>,
    /// How many stop marks it has.
    pub stops: u64,
}
