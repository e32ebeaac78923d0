//! The rows of each key of a column.
ghost use Rattle.std.specs.Prelude.{◌≡◌, IfOk, IsTrue, is_some};
ghost use Rattle.kql_cells.specs.Named.{column_name, place_of};
ghost use Rattle.kql_meaning.specs.Tables.{emptied};
ghost use Rattle.scan_ops.specs.Scans.{rows_by_key};

use kql_keys::PlaceLists;
use kql_values::Table;
use scan_ops::rows_by_key as rows_by_place;
use std::alloc::{AllocError, Global};

/// The places of the rows of each key of a column, in one pass: keys in order of first occurrence, places rising. Null is a key.
pub(crate) fn rows_by_key(alloc: Global, t: &Table, key: &str) -> Result<PlaceLists, AllocError>
    requires column { IsTrue (is_some (place_of column_name key.now t.now.columns)) }
    ensures rows { IfOk result (λ lists. lists ≡ rows_by_key key.now t.now) }
{
    match t.schema().find(key) {
        Some(place) => rows_by_place(alloc, t, place),
        None => unreachable!(),
    }
}

/// The columns of a table, without rows.
#[tactic(auto, unfolding(kql_meaning::specs::Tables::emptied))]
pub fn emptied(alloc: Global, t: &Table) -> Result<Table, AllocError>
    ensures rows { IfOk result (λ r. r ≡ emptied t.now) }
{
    t.slice(alloc, 0, 0)
}
