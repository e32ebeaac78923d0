//! Works whose results are known.
ghost use Rattle.std.specs.Prelude.{◌≡◌, ◌*◌, [], ◌∷◌, IfOk};

use crate::gates::Entries;
use kql_items::Items;
use std::alloc::{AllocError, Global};
use std::hint::spin_loop;
use worker_board::Work;

/// The square of each number.
#[derive(Clone, Copy)]
pub struct Squares {
    pub pieces: u32,
}

impl Work<u64> for Squares {
    ghost count = { λ s. s.pieces };

    ghost answer = { λ _ piece. piece * piece };

    fn pieces(&self) -> u32 {
        self.pieces
    }

    fn run(&self, piece: u32) -> Result<u64, AllocError> {
        Ok(u64::from(piece) * u64::from(piece))
    }
}

/// Each number in a list, for which one piece wants memory.
#[derive(Clone, Copy)]
pub struct Lists {
    pub alloc: Global,
    pub pieces: u32,
    pub failing: u32,
}

impl Work<Items<u32>> for Lists {
    ghost count = { λ s. s.pieces };

    ghost answer = { λ _ piece. piece ∷ [] };

    fn pieces(&self) -> u32 {
        self.pieces
    }

    fn run(&self, piece: u32) -> Result<Items<u32>, AllocError> {
        if piece == self.failing {
            return Err(AllocError);
        }
        let mut list = Items::new(self.alloc);
        list.push(piece)?;
        Ok(list)
    }
}

/// Each number, of which one wants memory. Those behind it take a while.
#[derive(Clone, Copy)]
pub struct Stopping {
    pub pieces: u32,
    pub failing: u32,
}

// How often a piece behind the one that wants memory turns.
const TURNS: u32 = 20_000;

impl Work<u32> for Stopping {
    ghost count = { λ s. s.pieces };

    ghost answer = { λ _ piece. piece };

    fn pieces(&self) -> u32 {
        self.pieces
    }

    fn run(&self, piece: u32) -> Result<u32, AllocError> {
        if piece == self.failing {
            return Err(AllocError);
        }
        if piece > self.failing {
            for _ in 0..TURNS {
                spin_loop();
            }
        }
        Ok(piece)
    }
}

/// Each number, which wants memory unless its worker has entered the gate with it, and once.
#[derive(Clone, Copy)]
pub struct Watched<'a> {
    pub pieces: u32,
    pub entries: &'a Entries,
}

impl<'a> Work<u32> for Watched<'a> {
    ghost count = { λ w. w.pieces };

    ghost answer = { λ _ piece. piece };

    fn pieces(&self) -> u32 {
        self.pieces
    }

    fn run(&self, piece: u32) -> Result<u32, AllocError> {
        if self.entries.of_piece(piece) != 1 {
            return Err(AllocError);
        }
        Ok(piece)
    }
}
