//! The rows of each key of a column.
ghost use Rattle.std.specs.Prelude.{◌≡◌, ◌<◌, All, IfOk, List, Some, length, ℕ};
ghost use Rattle.kql_cells.specs.Named.{column_name, place_of};
ghost use Rattle.scan_ops.specs.Scans.{column_cells, name_at, rows_by_key};

use kql_keys::{Numbered, PlaceLists, number_keys, places_by_number};
use kql_values::{Table, Vector};
use std::alloc::{AllocError, Global};

/// The places of the rows of each key of the column at a place: keys in order of first occurrence, places rising. Null is a key.
///
/// They are found in one pass, and no key is copied.
#[tactic(auto, using(crate::proofs::KeySteps::key_steps))]
pub fn rows_by_key(alloc: Global, t: &Table, key: usize) -> Result<PlaceLists, AllocError>
    requires column { key < length t.now.columns }
    ensures rows { IfOk result (λ lists. lists ≡ rows_by_key (name_at key t.now.columns) t.now) }
    ensures named { IfOk result (λ lists. (c : List ℕ) → place_of column_name c t.now.columns ≡ Some key → lists ≡ rows_by_key c t.now) }
    ensures within { IfOk result (λ lists. All (All (λ i. i < length t.now.lines)) lists) }
{
    let columns = [key_column(t, key)];
    let Numbered { numbers, firsts } = number_keys(alloc, &columns, t.len())?;
    places_by_number(alloc, numbers.as_slice(), firsts.len())
}

// The column at a place.
#[tactic(auto, using(crate::proofs::KeySteps::column_steps))]
fn key_column(t: &Table, key: usize) -> &Vector
    requires column { key < length t.now.columns }
    ensures cells { result.now ≡ column_cells t.now (name_at key t.now.columns) }
    ensures count { length result.now ≡ length t.now.lines }
{
    let _columns = t.schema().columns();
    t.column(key)
}
