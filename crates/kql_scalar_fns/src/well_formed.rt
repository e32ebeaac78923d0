ghost use Rattle.std.specs.Prelude.{◌≡◌, ◌↔◌, IsTrue, map};
ghost use Rattle.kql_cells.specs.Dynamic.{is_null};
ghost use Rattle.kql_cells.specs.Seen.{seen};
ghost use Rattle.kql_cells.specs.Values.{IsWellFormed};
ghost use Rattle.kql_scalar_fns.specs.Arguments.{AreWellFormed};

use kql_cells::{CellRef, Dyn, LEVELS_TOP, MOMENT_TOP, has_form, has_levels_within};

/// Whether what these cells show is well formed, which `apply_cells` asks of its arguments. The cells of a table are.
pub fn are_well_formed(cells: &[CellRef<'_>]) -> bool
    ensures form { IsTrue result ↔ AreWellFormed (map seen cells.now) }
{
    let mut left = cells;
    'cells: while let [cell, more @ ..] = left {
        if !is_well_formed(*cell) {
            return false;
        }
        left = more;
    }
    true
}

fn is_well_formed(cell: CellRef<'_>) -> bool
    ensures { IsTrue result ↔ IsWellFormed (seen cell.entry) }
{
    match cell {
        CellRef::Moment(n) => 0 <= n && n <= MOMENT_TOP,
        CellRef::Dynamic(d) => !is_null(d) && has_form(d) && has_levels_within(d, LEVELS_TOP),
        _ => true,
    }
}

fn is_null(d: &Dyn) -> bool
    ensures { result ≡ is_null d.now }
{
    match d {
        Dyn::Null => true,
        _ => false,
    }
}
