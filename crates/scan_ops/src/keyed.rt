//! Scans of the rows of each key.
ghost use Rattle.std.specs.Prelude.{◌≡◌, ◌<◌, ◌≤◌, [], length, slice_range, All, IfOk, IsTrue, List, Some, ℕ};
ghost use Rattle.kql_cells.specs.Named.{column_name, place_of};
ghost use Rattle.kql_meaning.specs.Partition.{partition_table};
ghost use Rattle.kql_meaning.specs.Scan.{scan_columns, scan_table, with_declared};
ghost use Rattle.scan_ops.specs.Scans.{name_at, scans_of};
ghost use Rattle.scan_ops.specs.Steps.{AreStepsScalar, scan_answers};

use crate::extended::with_declared;
use crate::keys::rows_by_key;
use crate::scans::{empty_answer, scan_at};
use crate::step::located_steps;
use kql_bound::ScanPlan;
use kql_keys::PlaceLists;
use kql_values::{Rows, Table};
use std::alloc::{AllocError, Global};

/// A scan of the rows of each key of a column: the partition by that column of the scan. The results come one key after another, keys in order
/// of first occurrence, and match ids begin at 0 for each. Null is a key.
///
/// The rows of each key are found in one pass, and each is taken once through the machine of its key, where it stands.
#[tactic(auto, using(crate::proofs::KeyedFacts::keyed_facts))]
pub fn scan_keyed(alloc: Global, t: &Table, key: usize, s: &ScanPlan) -> Result<Table, AllocError>
    requires key { key < length t.now.columns }
    requires fits { IsTrue (scan_answers s.now t.now.columns) }
    ensures table { IfOk result (λ r. r ≡ partition_table (name_at key t.now.columns) (scan_table s.now) t.now) }
    ensures named { IfOk result (λ r. (c : List ℕ) → place_of column_name c t.now.columns ≡ Some key → r ≡ partition_table c (scan_table s.now) t.now) }
{
    let keyed = rows_by_key(alloc, t, key)?;
    if s.declared.is_empty() {
        let plain = keyed_answer(alloc, t, s, t, &keyed)?;
        return Ok(plain);
    }
    let extended = with_declared(alloc, s, t)?;
    let made = keyed_answer(alloc, t, s, &extended, &keyed)?;
    Ok(made)
}

// The table of the scans of all lists of rows, of a table with the declared columns.
#[tactic(auto, using(crate::proofs::KeyedFacts::all_facts))]
fn keyed_answer(
    alloc: Global,
    t: &Table,
    s: &ScanPlan,
    extended: &Table,
    lists: &PlaceLists,
) -> Result<Table, AllocError>
    requires fits { IsTrue (scan_answers s.now t.now.columns) }
    requires extended { extended.now ≡ with_declared s.now t.now }
    requires within { All (All (λ i. i < length t.now.lines)) lists.now }
    ensures table { IfOk result (λ r. r ≡ record { columns = scan_columns s.now t.now.columns; lines = scans_of s.now extended.now lists.now }) }
{
    let count = lists.len();
    let made = scan_lists(alloc, t, s, extended, lists, 0, count)?;
    Ok(made)
}

/// The table of the scans of some lists of rows, from one list to another, one scan after another: what stands in a partition for the
/// keys whose rows these are. `extended` is the table with the declared columns, as `with_declared` gives it, or the table itself where
/// none is declared.
#[tactic(auto, using(crate::proofs::KeyedFacts::answer_facts))]
pub fn scan_lists(
    alloc: Global,
    t: &Table,
    s: &ScanPlan,
    extended: &Table,
    lists: &PlaceLists,
    from: usize,
    to: usize,
) -> Result<Table, AllocError>
    requires fits { IsTrue (scan_answers s.now t.now.columns) }
    requires extended { extended.now ≡ with_declared s.now t.now }
    requires within { All (All (λ i. i < length t.now.lines)) lists.now }
    requires order { from ≤ to }
    requires range { to ≤ length lists.now }
    ensures table { IfOk result (λ r. r ≡ record { columns = scan_columns s.now t.now.columns; lines = scans_of s.now extended.now (slice_range lists.now from to) }) }
{
    let none = empty_answer(alloc, t, s)?;
    let (schema, out) = none.into_parts();
    let rows = keyed_rows(alloc, s, extended, lists, from, to, out)?;
    let made = Table::new(alloc, schema, rows)?;
    Ok(made)
}

// The rows that the scans of these lists of rows emit, one list after another, behind none.
#[tactic(auto, using(crate::proofs::KeyedFacts::list_facts))]
fn keyed_rows(
    alloc: Global,
    s: &ScanPlan,
    t: &Table,
    lists: &PlaceLists,
    from: usize,
    to: usize,
    out: Rows,
) -> Result<Rows, AllocError>
    requires scalar { AreStepsScalar s.now.steps }
    requires within { All (All (λ i. i < length t.now.lines)) lists.now }
    requires order { from ≤ to }
    requires range { to ≤ length lists.now }
    requires none { out ≡ [] }
    ensures rows { IfOk result (λ r. r ≡ scans_of s.now t.now (slice_range lists.now from to)) }
{
    let steps = located_steps(alloc, s.steps.as_slice(), t.schema())?;
    let mut rows = out;
    'each: for number in from..to {
        let places = lists.get(number);
        let more = scan_at(alloc, s, t, steps.as_slice(), places, rows)?;
        rows = more;
    }
    Ok(rows)
}
