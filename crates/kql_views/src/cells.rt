//! The text that shows a cell.

ghost use Rattle.std.specs.Prelude.{◌≡◌, ◌<◌, length};
ghost use Rattle.kql_cells.specs.Seen.{cell_at, seen};
ghost use Rattle.kql_cells.specs.Values.{IsMoment, IsWellFormed};

use itoa::Buffer;
use kql_cells::CellRef;
use kql_dynamic::print_json;
use kql_ticks::{print_moment, print_span};
use kql_values::Table;
use std::alloc::{AllocError, Global};

// What stands for null.
pub(crate) const NULL: &str = "-";

// The end of a datetime of whole seconds, which is shown as `Z` alone.
const WHOLE_SECONDS: &str = ".0000000Z";

/// A cell of a table, which is well formed.
pub(crate) fn cell_of(table: &Table, i: usize, j: usize) -> CellRef<'_>
    requires row { i < length table.now.lines }
    requires column { j < length table.now.columns }
    ensures same { seen result ≡ cell_at table.now.lines i j }
    ensures form { IsWellFormed (seen result) }
{
    table.cell(i, j)
}

/// The text that shows a cell in one line: a control character is a blank.
pub(crate) fn shown_cell(alloc: Global, cell: CellRef<'_>) -> Result<String, AllocError>
    requires { IsWellFormed (seen cell) }
{
    match cell {
        CellRef::Null => String::from_str(alloc, NULL),
        CellRef::Bool(true) => String::from_str(alloc, "true"),
        CellRef::Bool(false) => String::from_str(alloc, "false"),
        CellRef::Long(n) => String::from_str(alloc, Buffer::new().format(n)),
        CellRef::Text(text) => one_line(alloc, text),
        CellRef::Moment(x) => shown_moment(alloc, x),
        CellRef::Span(x) => String::from_str(alloc, print_span(alloc, x)?.as_str()),
        CellRef::Dynamic(d) => one_line(alloc, print_json(alloc, d)?.as_str()),
    }
}

/// A text without control characters: a blank stands for each.
pub(crate) fn one_line(alloc: Global, text: &str) -> Result<String, AllocError> {
    let mut line = String::with_capacity(alloc, text.len())?;
    for c in text.chars() {
        line.push(if c.is_control() { ' ' } else { c })?;
    }
    Ok(line)
}

// A datetime, without the decimals of whole seconds.
fn shown_moment(alloc: Global, x: i64) -> Result<String, AllocError>
    requires { IsMoment x }
{
    let text = print_moment(alloc, x)?;
    match text.as_str().strip_suffix(WHOLE_SECONDS) {
        Some(front) => {
            let mut line = String::from_str(alloc, front)?;
            line.push('Z')?;
            Ok(line)
        }
        None => String::from_str(alloc, text.as_str()),
    }
}
