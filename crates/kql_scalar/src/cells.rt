//! Cells of tables and of step records, and places of rows.
ghost use Rattle.std.specs.Prelude.{◌≡◌, ◌+◌, ◌-◌, ◌^◌, ◌<◌, ◌≤◌, IfSome, Some, length, pos};
ghost use Rattle.kql_cells.specs.Seen.{seen};
ghost use Rattle.kql_cells.specs.Values.{IsWellFormed};
ghost use Rattle.kql_scalar_fns.specs.Arguments.{AreWellFormed};
ghost use Rattle.kql_meaning.specs.Expressions.{recorded, step_value};
ghost use Rattle.kql_meaning.specs.Tables.{cell_in};
ghost use Rattle.kql_meaning.specs.Values.{absent_as};
ghost use Rattle.kql_scalar.specs.Evaluated.{AreSound, row_after, row_before};

use kql_bound::StepColumn;
use kql_values::{CellRef, Kind, Row, Table};

/// What stands where a value of a type is absent.
#[tactic(auto, using(crate::proofs::FormFacts::absent_forms), unfolding(kql_meaning::specs::Values::absent_as))]
pub(crate) fn absent_as<'a>(kind: Option<Kind>) -> CellRef<'a>
    ensures value { seen result ≡ absent_as kind }
    ensures form { IsWellFormed (seen result) }
{
    match kind {
        Some(kind) => kind.absent(),
        None => CellRef::Null,
    }
}

/// The cell in the column at a place.
#[tactic(auto, using(crate::proofs::FormFacts::cell_facts))]
pub(crate) fn cell_in(t: &Table, i: usize, place: usize) -> CellRef<'_>
    requires row { i < length t.now.lines }
    requires column { place < length t.now.columns }
    ensures value { seen result ≡ cell_in t.now i (Some place) }
    ensures form { IsWellFormed (seen result) }
{
    let _schema = t.schema();
    t.cell(i, place)
}

// The value at a place of a record; the default where no record is held.
#[tactic(auto, unfolding(kql_meaning::specs::Expressions::recorded))]
fn recorded<'a>(held: &'a Option<Row>, place: usize, default: CellRef<'a>) -> CellRef<'a>
    requires held { IfSome held.now AreWellFormed }
    requires default { IsWellFormed (seen default) }
    ensures value { seen result ≡ recorded held.now place (seen default.entry) }
    ensures form { IsWellFormed (seen result) }
{
    let Some(row) = held else {
        return default;
    };
    let values = row.as_slice();
    if place < values.len() {
        values[place].as_cell()
    } else {
        default
    }
}

/// A column of the record that is held for a step; its default where none is held.
pub(crate) fn step_cell<'a>(column: &'a StepColumn, s: &'a [Option<Row>]) -> CellRef<'a>
    requires default { IsWellFormed column.now.default.value }
    requires sound { AreSound s.now }
    ensures value { seen result ≡ step_value column.now s.now }
    ensures form { IsWellFormed (seen result) }
{
    let step = column.number.saturating_sub(1);
    if step < s.len() {
        recorded(&s[step], column.place, column.default.value.as_cell())
    } else {
        column.default.value.as_cell()
    }
}

/// The row so many before a row, where there is one.
#[tactic(auto, unfolding(crate::specs::Evaluated::row_before))]
pub(crate) fn row_before(_t: &Table, i: usize, k: usize) -> Option<usize>
    requires row { i < length _t.now.lines }
    ensures row { result ≡ row_before i k }
    ensures within { IfSome result (λ j. j < length _t.now.lines) }
{
    if k <= i { Some(i - k) } else { None }
}

/// The row so many after a row, where there is one.
#[tactic(auto, unfolding(crate::specs::Evaluated::row_after))]
pub(crate) fn row_after(t: &Table, i: usize, k: usize) -> Option<usize>
    requires row { i < length t.now.lines }
    ensures row { result ≡ row_after t.now i k }
    ensures within { IfSome result (λ j. j < length t.now.lines) }
{
    if k < t.len() - i { Some(i + k) } else { None }
}

/// The row so many before a row, which is there.
pub(crate) fn row_back(_t: &Table, i: usize, k: usize) -> usize
    requires row { i < length _t.now.lines }
    requires back { k ≤ i }
    ensures value { result ≡ i - k }
    ensures within { result < length _t.now.lines }
{
    i - k
}

/// A row that is not behind another.
pub(crate) fn row_up_to(_t: &Table, i: usize, j: usize) -> usize
    requires row { i < length _t.now.lines }
    requires order { j ≤ i }
    ensures value { result ≡ j }
    ensures within { result < length _t.now.lines }
{
    j
}

/// The row behind a row, or the end.
pub(crate) fn row_end(t: &Table, i: usize) -> usize
    requires row { i < length t.now.lines }
    ensures value { result ≡ i + 1 }
    ensures within { result ≤ length t.now.lines }
    ensures small { result < 2 ^ 63 }
{
    let _count = t.len();
    i + 1
}

/// How many rows there are from one to another.
pub(crate) fn rows_between(t: &Table, from: usize, i: usize) -> i64
    requires row { i < length t.now.lines }
    requires order { from ≤ i }
    ensures value { result ≡ pos (i - from) }
{
    let _count = t.len();
    (i - from) as i64
}
