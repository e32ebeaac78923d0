//! That a file has one such quote at most, and that all behind it is one cell.
ghost use Rattle.open_quotes.specs.Laws.{OneCell, OneLine};

/// The line of an open quote is one.
pub fn one_open_quote()
    ensures line { OneLine }
{}

/// What stands behind an open quote is the last field of the last record that `csv` reads.
pub fn behind_it_is_one_cell()
    ensures cell { OneCell }
{}
