//! The rows of each key, cut into ranges of keys.
ghost use Rattle.std.specs.Prelude.{◌≡◌, ◌<◌, ◌≤◌, ◌*◌, ◌+◌, ◌^◌, All, IfOk, IsTrue, is_some, length};
ghost use Rattle.kql_cells.specs.Named.{column_name, place_of};
ghost use Rattle.phase_pieces.specs.Sizes.{ArePieces};
ghost use Rattle.phase_scans.specs.Keys.{keys_of_piece};
ghost use Rattle.scan_ops.specs.Scans.{rows_by_key};

use kql_keys::PlaceLists;
use kql_values::Table;
use phase_pieces::{Cut, Sizes, cut_rows};
use scan_ops::rows_by_key as rows_by_place;
use std::alloc::{AllocError, Global};

/// The places of the rows of each key of a column: keys in order of first occurrence, places rising. Null is a key.
#[tactic(auto, using(crate::proofs::KeySteps::key_steps))]
pub fn rows_by_key(alloc: Global, t: &Table, key: &str) -> Result<PlaceLists, AllocError>
    requires column { IsTrue (is_some (place_of column_name key.now t.now.columns)) }
    ensures rows { IfOk result (λ lists. lists ≡ rows_by_key key.now t.now) }
    ensures within { IfOk result (λ lists. All (All (λ i. i < length t.now.lines)) lists) }
    ensures few { IfOk result (λ lists. length lists < 2 ^ 63) }
{
    let _count = t.len();
    match t.schema().find(key) {
        Some(place) => {
            let lists = rows_by_place(alloc, t, place)?;
            Ok(lists)
        }
        None => unreachable!(),
    }
}

/// Pieces of so many keys that a piece has about as many rows as pieces of rows have.
pub fn cut_keys(keys: usize, rows: usize, sizes: Sizes) -> Cut
    requires small { keys < 2 ^ 63 }
    ensures all { keys ≤ result.pieces * result.rows }
    ensures each { result.pieces * result.rows < keys + result.rows }
    ensures rows { (0 < result.rows) × (result.rows < 2 ^ 63) }
    ensures pieces { ArePieces keys (keys_of_piece keys rows sizes.piece_rows) result.pieces }
{
    cut_rows(keys, keys_of_piece(keys, rows, sizes.piece_rows))
}

// How many keys have so many rows, where each has as many as the others; at least one.
#[tactic(auto, unfolding(crate::specs::Keys::keys_of_piece))]
fn keys_of_piece(keys: usize, rows: usize, piece_rows: u32) -> u32
    ensures some { 0 < result }
    ensures keys { result ≡ keys_of_piece keys rows piece_rows }
{
    let many = keys as u128 * piece_rows as u128 / (rows as u128).max(1);
    many.min(u32::MAX as u128).max(1) as u32
}
