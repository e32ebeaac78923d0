ghost use Rattle.std.specs.Prelude.{◌≡◌, ◌↔◌, ◌++◌, IsTrue, length, map};
ghost use Rattle.kql_cells.specs.Named.{HasDistinctNames, IsAbsent, column_name};
ghost use Rattle.kql_cells.specs.Seen.{seen};
ghost use Rattle.kql_cells.specs.Table.{CellFits, RowFits};
ghost use Rattle.kql_values.specs.Grids.{ColumnsFit};
ghost use Rattle.kql_values.specs.Moves.{kinds_of};

use crate::vector::Vector;
use kql_cells::{CellRef, Column};

/// Whether a cell shows a well-formed value of a column's type, or null.
pub fn cell_fits(column: &Column, cell: CellRef<'_>) -> bool
    ensures fits { IsTrue result ↔ CellFits column.now (seen cell.entry) }
{
    cell.is_of_kind(column.kind) && cell.is_well_formed()
}

/// Whether a row of cells has one for each column, which fits it.
#[tactic(auto, unfolding(kql_cells::specs::Table::RowFits))]
pub fn cells_fit(columns: &[Column], row: &[CellRef<'_>]) -> bool
    ensures fits { IsTrue result ↔ RowFits columns.now (map seen row.now) }
{
    let mut columns_left = columns;
    let mut left = row;
    'cells: while let Some((column, columns_more)) = columns_left.split_first() {
        let [cell, more @ ..] = left else {
            return false;
        };
        if !cell_fits(column, *cell) {
            return false;
        }
        columns_left = columns_more;
        left = more;
    }
    left.is_empty()
}

/// Whether there is one vector for each column, of so many cells, which fit it: what a table is made of.
#[tactic(auto, unfolding(crate::specs::Grids::ColumnsFit))]
pub fn columns_fit(columns: &[Column], count: usize, vectors: &[Vector]) -> bool
    ensures fits { IsTrue result ↔ ColumnsFit columns.now count vectors.now }
{
    let mut columns_left = columns;
    let mut left = vectors;
    'vectors: while let Some((column, columns_more)) = columns_left.split_first() {
        let Some((vector, more)) = left.split_first() else {
            return false;
        };
        if vector.len() != count || !vector.fits(column) {
            return false;
        }
        columns_left = columns_more;
        left = more;
    }
    left.is_empty()
}

/// Whether columns have the same types as others, one by one.
pub fn have_same_kinds(columns: &[Column], others: &[Column]) -> bool
    ensures same { IsTrue result ↔ (kinds_of columns.now ≡ kinds_of others.now) }
{
    let mut left = columns;
    let mut others_left = others;
    'columns: while let Some((column, more)) = left.split_first() {
        let Some((other, others_more)) = others_left.split_first() else {
            return false;
        };
        if column.kind != other.kind {
            return false;
        }
        left = more;
        others_left = others_more;
    }
    others_left.is_empty()
}

// Whether columns of distinct names and others have distinct names together.
pub(crate) fn share_no_name(columns: &[Column], others: &[Column]) -> bool
    requires columns { HasDistinctNames column_name columns.now }
    requires others { HasDistinctNames column_name others.now }
    ensures { IsTrue result ↔ HasDistinctNames column_name (columns.now ++ others.now) }
{
    for other in others {
        if !lacks(columns, other.name.as_str()) {
            return false;
        }
    }
    true
}

// Whether no column has this name.
fn lacks(columns: &[Column], name: &str) -> bool
    ensures { IsTrue result ↔ IsAbsent column_name name.now columns.now }
{
    columns
        .iter()
        .position(|column| column.name.as_str() == name)
        .is_none()
}
