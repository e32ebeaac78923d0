//! How a table's rows are cut into pieces.
ghost use Rattle.std.specs.Prelude.{◌≡◌, ◌<◌, ◌≤◌, ◌*◌, ◌+◌, ◌^◌, IfOk, length, min};
ghost use Rattle.phase_laws.specs.Pieces.{piece_of};
ghost use Rattle.phase_pieces.specs.Sizes.{ArePieces, IsPieceSize};

use kql_values::Table;
use std::alloc::{AllocError, Global};

/// How large pieces are.
#[derive(Clone, Copy, Debug, PartialEq, Eq)]
pub struct Sizes {
    /// How many rows of a table make a piece: at least one. A table of so many rows that there were more than 2,147,483,647
    /// pieces has pieces of twice as many rows, and so on.
    pub piece_rows: u32,
}

impl Sizes {
    /// Pieces that stay in a processor's cache.
    pub fn usual() -> Sizes
        ensures rows { result.piece_rows ≡ 4096 }
    {
        Sizes { piece_rows: 4_096 }
    }
}

/// How many rows a piece has, and how many pieces hold all rows.
#[derive(Clone, Copy, Debug, PartialEq, Eq)]
pub struct Cut {
    pub rows: usize,
    pub pieces: u32,
}

// There are no more pieces than this.
const MOST_PIECES: usize = 2_147_483_647;

/// Pieces of so many rows, or of twice as many, and so on, until there are few enough of them.
#[tactic(auto, using(crate::proofs::CutLaws::cut_steps))]
pub fn cut_rows(count: usize, piece_rows: u32) -> Cut
    requires some { 0 < piece_rows }
    requires small { count < 2 ^ 63 }
    ensures all { count ≤ result.pieces * result.rows }
    ensures each { result.pieces * result.rows < count + result.rows }
    ensures rows { (0 < result.rows) × (result.rows < 2 ^ 63) }
    ensures size { IsPieceSize count piece_rows result.rows }
    ensures pieces { ArePieces count piece_rows result.pieces }
{
    let least = (count + (MOST_PIECES - 1)) / MOST_PIECES;
    let mut rows = piece_rows as usize;
    'fewer: while rows < least {
        rows *= 2;
    }
    Cut {
        rows,
        pieces: pieces_of(count, rows),
    }
}

// How many pieces of so many rows hold all.
#[tactic(auto, using(crate::proofs::CutLaws::piece_steps))]
fn pieces_of(count: usize, rows: usize) -> u32
    requires some { 0 < rows }
    requires few { count ≤ 2147483647 * rows }
    ensures all { count ≤ result * rows }
    ensures each { result * rows < count + rows }
{
    let whole = count / rows;
    if count % rows == 0 {
        whole as u32
    } else {
        (whole + 1) as u32
    }
}

/// Where a piece begins, and where it ends.
#[derive(Clone, Copy)]
pub struct Bounds {
    pub from: usize,
    pub to: usize,
}

/// The bounds of a piece.
#[tactic(auto, using(crate::proofs::CutLaws::bound_steps))]
pub fn bounds_of(count: usize, rows: usize, piece: u32) -> Bounds
    requires begins { piece * rows ≤ count }
    requires small { (count < 2 ^ 63) × (rows < 2 ^ 63) }
    ensures from { result.from ≡ piece * rows }
    ensures to { result.to ≡ min count (piece * rows + rows) }
    ensures order { result.from ≤ result.to }
    ensures within { result.to ≤ count }
{
    let from = piece as usize * rows;
    let to = count.min(from + rows);
    Bounds { from, to }
}

/// The rows of a piece.
#[tactic(auto, using(crate::proofs::CutLaws::table_steps))]
pub fn piece_table(alloc: Global, t: &Table, rows: usize, piece: u32) -> Result<Table, AllocError>
    requires begins { piece * rows ≤ length t.now.lines }
    requires rows { rows < 2 ^ 63 }
    ensures rows { IfOk result (λ r. r ≡ piece_of rows t.now piece) }
{
    let bounds = bounds_of(t.len(), rows, piece);
    let part = t.slice(alloc, bounds.from, bounds.to)?;
    Ok(part)
}
