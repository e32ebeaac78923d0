ghost use Rattle.std.specs.Prelude.{◌≡◌, ◌↔◌, All, IsTrue};
ghost use Rattle.live_tables.specs.Columns.{difference_from};
ghost use Rattle.live_tables.specs.Growing.{has_columns_of};

use kql_cells::Column;
use kql_functions::same_kind;
use kql_values::Table;

/// The place, from 0, of the first column at which two lists differ: by the name, by the type, or because one of them ends there. None where
/// they are equal.
#[tactic(auto, unfolding(crate::specs::Columns::difference_from))]
pub fn first_difference(columns: &[Column], others: &[Column]) -> Option<usize>
    ensures place { result ≡ difference_from 0 columns.now others.now }
{
    let mut place = 0;
    let mut left = columns;
    let mut right = others;
    'columns: while let Some((column, more)) = left.split_first() {
        let Some((other, rest)) = right.split_first() else {
            return Some(place);
        };
        if column.name.as_str() != other.name.as_str() {
            return Some(place);
        }
        if !same_kind(column.kind, other.kind) {
            return Some(place);
        }
        place += 1;
        left = more;
        right = rest;
    }
    match right {
        [] => None,
        [_, ..] => Some(place),
    }
}

/// Whether two lists of columns are equal.
pub fn have_equal_columns(columns: &[Column], others: &[Column]) -> bool
    ensures equal { IsTrue result ↔ (columns.now ≡ others.now) }
{
    first_difference(columns, others).is_none()
}

/// Whether all these tables have the columns of a table, so that it may grow by them.
pub fn have_columns_of(table: &Table, batches: &[Table]) -> bool
    ensures all { IsTrue result ↔ All (has_columns_of table.now) batches.now }
{
    let mut left = batches;
    'batches: while let Some((batch, more)) = left.split_first() {
        if !have_equal_columns(table.schema().columns(), batch.schema().columns()) {
            return false;
        }
        left = more;
    }
    true
}
