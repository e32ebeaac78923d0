ghost use Rattle.std.specs.Prelude.{◌≡◌, length};
ghost use Rattle.worker_board.specs.Views.{NamesEach, Replays};

use crate::known::Size;
use board_core::{Claim, claims_are_replayed};
use std::marker::Model;

/// The claims of a whole phase. `Board::close` alone makes one.
#[derive(Debug, Drop)]
pub struct Gathered {
    pub(super) size: Size,
    pub(super) claims: Vec<Claim>,
}

impl Model for Gathered {
    ghost use Rattle.std.specs.Prelude.{◌≡◌, length};
    ghost use Rattle.worker_board.specs.Views.{WholeClaims, NamesEach};

    ghost Value = { WholeClaims };

    ghost view = { λ g. record { size = g.size; claims = g.claims.items } };

    ghost invariant = { λ g. NamesEach g.size g.claims.items × (length g.claims.items ≡ g.size.pieces) };
}

impl Gathered {
    /// For how many pieces the board was made.
    pub fn pieces(&self) -> u32
        ensures pieces { result ≡ self.now.size.pieces }
    {
        self.size.pieces
    }

    /// For how many workers the board was made.
    pub fn workers(&self) -> u32
        ensures workers { result ≡ self.now.size.workers }
    {
        self.size.workers
    }

    /// Who claimed which piece.
    pub fn claims(&self) -> &[Claim]
        ensures claims { result.now ≡ self.now.claims }
        ensures each { NamesEach self.now.size self.now.claims }
        ensures count { length result.now ≡ self.now.size.pieces }
        ensures core { Replays self.now.size self.now.claims }
    {
        claims_are_replayed();
        self.claims.as_slice()
    }
}
