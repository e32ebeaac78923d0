//! Rows of expressions and the values that they have at the rows of a table, checked through `kql_scalar`.
//!
//! A line is a row: an expression, a tab, and what it has at each row of the table of `values/table.rt`, as the printed texts of cells with `;`
//! between them, or one text that it has at all. Null is no text. A line that begins with `# ` is a heading: it names where the rows under it
//! stand, and tells what they show.

mod cells;
mod checked;
mod columns;
mod scopes;
mod table;

use crate::counts::{Counts, tell_no_row};
use crate::values::checked::{Seat, wrong_row};
use crate::values::scopes::{At, at_named, scope};
use crate::values::table::{records, table};
use std::io;

// Where the rows stand under a heading, if the line is one.
fn heading(line: &str) -> Option<At> {
    let (at, _told) = line.strip_prefix("# ")?.split_once('\t')?;
    at_named(at)
}

// Whether a row is wrong, which is told.
fn is_wrong<R: Print + AllocGlobal>(
    rt: &R,
    seat: &Seat,
    text: &str,
    wanted: &str,
) -> io::Result<bool> {
    match wrong_row(rt.alloc(), seat, text, wanted)? {
        None => Ok(false),
        Some(told) => {
            println!(rt; "{text}: {told}")?;
            Ok(true)
        }
    }
}

// Where rows stand.
fn seat_at<R: AllocGlobal>(rt: &R, at: At) -> io::Result<Seat> {
    let table = table(rt.alloc())?;
    let scope = scope(rt.alloc(), at, table.schema())?;
    let records = records(rt.alloc(), at, &table)?;
    Ok(Seat {
        table,
        scope,
        records,
    })
}

/// Checks the rows of a text.
pub(crate) fn check_all<R: Print + AllocGlobal>(rt: &R, text: &str) -> io::Result<Counts> {
    let mut seat = seat_at(rt, At::Plain)?;
    let mut counts = Counts::new();
    for line in text.lines() {
        if let Some(named) = heading(line) {
            seat = seat_at(rt, named)?;
        } else if let Some((text, wanted)) = line.split_once('\t') {
            counts = counts.with_row(is_wrong(rt, &seat, text, wanted)?);
        } else {
            tell_no_row(rt, line)?;
        }
    }
    Ok(counts)
}
