//! What a catalogue's tables tell of themselves.
ghost use Rattle.kql_values.specs.Kept.{all_named};
ghost use Rattle.pattern_run.specs.LawOfPatterns.{AreGrids};

use kql_values::Named;

/// Each row of each table has a value for each column, which fits it: so tables are made.
pub(crate) fn know_grids(tables: &[Named])
    ensures grids { AreGrids (all_named tables.now) }
{
    let mut left = tables;
    'tables: while let Some((named, more)) = left.split_first() {
        named.table.schema();
        left = more;
    }
}
