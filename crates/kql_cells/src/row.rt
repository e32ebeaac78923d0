ghost use Rattle.std.specs.Prelude.{◌↔◌, IsTrue};
ghost use Rattle.kql_cells.specs.Table.{RowFits};

use crate::schema::Column;
use crate::value::{Value, is_well_formed};

/// Whether a row has one well-formed value of each column's type, or null: what a row of a table must be.
#[tactic(auto, unfolding(crate::specs::Table::RowFits))]
pub fn row_fits(columns: &[Column], row: &[Value]) -> bool
    ensures fits { IsTrue result ↔ RowFits columns.now row.now }
{
    let mut columns_left = columns;
    let mut left = row;
    'cells: while let Some((column, columns_more)) = columns_left.split_first() {
        let Some((value, more)) = left.split_first() else {
            return false;
        };
        if !value.is_of_kind(column.kind) || !is_well_formed(value) {
            return false;
        }
        columns_left = columns_more;
        left = more;
    }
    left.is_empty()
}
