//! Columns of values, and the places where they are true.
ghost use Rattle.std.specs.Prelude.{◌≡◌, ◌≤◌, length};

use crate::values::cells::{cell_text, text_at};
use kql_cells::Kind;
use kql_scalar::Located;
use kql_values::{Table, Vector};
use std::alloc::{AllocError, Global};

/// The first cell of a column, whose first row is `from`, that is not as said.
pub(crate) fn wrong_cell(
    alloc: Global,
    column: &Vector,
    kind: Kind,
    texts: &str,
    from: usize,
) -> Result<Option<String>, AllocError> {
    for k in 0..column.len() {
        let found = cell_text(alloc, column.cell(k), kind)?;
        let wanted = text_at(texts, from.saturating_add(k));
        let found = found.as_str();
        if found != wanted {
            let told = format!(in alloc; "{found} at {k} of the column from {from}, not {wanted}")?;
            return Ok(Some(told));
        }
    }
    Ok(None)
}

// Whether places are those from one on and before another where the text is `true`.
fn are_places(places: &[usize], texts: &str, from: usize, to: usize) -> bool {
    let mut left = places;
    for i in from..to {
        if text_at(texts, i) == "true" {
            match left {
                [place, more @ ..] if *place == i => {
                    left = more;
                }
                _ => {
                    return false;
                }
            }
        }
    }
    left.is_empty()
}

// What is wrong with the places where it is true.
fn wrong_places(
    alloc: Global,
    located: &Located,
    t: &Table,
    texts: &str,
    from: usize,
    to: usize,
) -> Result<Option<String>, AllocError>
    requires columns { t.now.columns ≡ located.now.columns }
    requires order { from ≤ to }
    requires range { to ≤ length t.now.lines }
{
    let places = located.places_where(alloc, t, from, to)?;
    if are_places(places.as_slice(), texts, from, to) {
        return Ok(None);
    }
    let told = format!(in alloc; "other places are true from {from} to {to}")?;
    Ok(Some(told))
}

/// What is wrong with the values, and the places where they are true, from a row on and before another.
pub(crate) fn wrong_range(
    alloc: Global,
    located: &Located,
    kind: Kind,
    t: &Table,
    texts: &str,
    from: usize,
    to: usize,
) -> Result<Option<String>, AllocError>
    requires columns { t.now.columns ≡ located.now.columns }
    requires order { from ≤ to }
    requires range { to ≤ length t.now.lines }
{
    let column = located.column_of(alloc, t, from, to)?;
    let told = wrong_cell(alloc, &column, kind, texts, from)?;
    if told.is_some() {
        return Ok(told);
    }
    // What is no bool is true nowhere.
    let truths = if kind == Kind::Bool { texts } else { "" };
    wrong_places(alloc, located, t, truths, from, to)
}
