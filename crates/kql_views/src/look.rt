//! A table to look at: aligned columns under their names, and the number of rows.

ghost use Rattle.std.specs.Prelude.{◌≡◌, ◌<◌, ◌≤◌, ◌++◌, IfOk, OnOk, length, min, string_bytes};
ghost use Rattle.kql_views.specs.Look.{EndsWith, count_line};

use crate::cells::{cell_of, one_line, shown_cell};
use crate::fitted::fitted;
use crate::widths::{GAP, Need, widths_within};
use kql_cells::Kind;
use kql_values::Table;
use std::alloc::{AllocError, Global};
use unicode_width::UnicodeWidthStr;

// How a null and the names of columns are shown where colours are.
const DIM: &str = "\u{1b}[2m";

const BOLD: &str = "\u{1b}[1m";

const PLAIN: &str = "\u{1b}[0m";

/// How a table is shown.
#[derive(Clone, Copy, Debug)]
pub struct Look {
    /// How many columns the terminal has.
    pub width: usize,
    /// How many rows are shown at most.
    pub rows: usize,
    /// Whether there are colours.
    pub has_colours: bool,
}

/// The text that shows a table: the names of the columns, a line, the first rows, and how many rows there are. Numbers stand to
/// the right, a null is `-`, and a cell that is too wide ends with an ellipsis.
pub fn table_view(alloc: Global, table: &Table, look: Look) -> Result<String, AllocError>
    ensures count { IfOk result (λ text. EndsWith (string_bytes text) (count_line (length table.now.lines) (min (length table.now.lines) look.rows))) }
{
    let shown = table.len().min(look.rows);
    let needs = needs_of(alloc, table, shown)?;
    let widths = widths_within(alloc, needs.as_slice(), look.width)?;
    let mut out = String::new(alloc);
    push_names(alloc, &mut out, table, widths.as_slice(), look)?;
    push_rule(&mut out, widths.as_slice())?;
    for i in 0..shown {
        push_row(alloc, &mut out, table, i, widths.as_slice(), look)?;
    }
    push_count(alloc, &mut out, table.len(), shown)?;
    Ok(out)
}

// How wide each column would be in the first rows.
fn needs_of(alloc: Global, table: &Table, rows: usize) -> Result<Vec<Need>, AllocError>
    requires { rows ≤ length table.now.lines }
{
    let mut needs = Vec::new(alloc);
    for j in 0..table.schema().len() {
        let column = &table.schema().columns()[j];
        let mut width = one_line(alloc, column.name.as_str())?.as_str().width();
        for i in 0..rows {
            let cell = shown_cell(alloc, cell_of(table, i, j))?;
            width = width.max(cell.as_str().width());
        }
        needs.push(Need {
            width,
            gives: column.kind == Kind::Text || column.kind == Kind::Dynamic,
        })?;
    }
    Ok(needs)
}

// The line of the names.
fn push_names(
    alloc: Global,
    out: &mut String,
    table: &Table,
    widths: &[usize],
    look: Look,
) -> Result<(), AllocError> {
    for j in 0..table.schema().len() {
        let column = &table.schema().columns()[j];
        let text = one_line(alloc, column.name.as_str())?;
        let place = Place {
            width: widths.get(j).copied().unwrap_or(0),
            is_right: column.kind == Kind::Long,
            is_last: j + 1 == table.schema().len(),
        };
        let colour = if look.has_colours { BOLD } else { "" };
        push_piece(alloc, out, text.as_str(), place, colour)?;
    }
    out.push('\n')
}

// The line under the names.
fn push_rule(out: &mut String, widths: &[usize]) -> Result<(), AllocError> {
    for j in 0..widths.len() {
        if j > 0 {
            push_blanks(out, GAP)?;
        }
        for _ in 0..widths[j] {
            out.push('─')?;
        }
    }
    out.push('\n')
}

// The line of a row.
fn push_row(
    alloc: Global,
    out: &mut String,
    table: &Table,
    i: usize,
    widths: &[usize],
    look: Look,
) -> Result<(), AllocError>
    requires { i < length table.now.lines }
{
    let width = table.schema().len();
    for j in 0..width {
        let cell = cell_of(table, i, j);
        let text = shown_cell(alloc, cell)?;
        let place = Place {
            width: widths.get(j).copied().unwrap_or(0),
            is_right: table.schema().columns()[j].kind == Kind::Long,
            is_last: j + 1 == width,
        };
        let colour = if look.has_colours && cell.is_null() {
            DIM
        } else {
            ""
        };
        push_piece(alloc, out, text.as_str(), place, colour)?;
    }
    out.push('\n')
}

// Where a piece of a line stands.
#[derive(Clone, Copy)]
struct Place {
    width: usize,
    is_right: bool,
    is_last: bool,
}

// A piece of a line, cut to its width, and blanks beside it. None stand at the end of a line.
fn push_piece(
    alloc: Global,
    out: &mut String,
    text: &str,
    place: Place,
    colour: &str,
) -> Result<(), AllocError> {
    let text = fitted(alloc, text, place.width)?;
    let blanks = place.width.saturating_sub(text.as_str().width());
    if place.is_right {
        push_blanks(out, blanks)?;
    }
    push_coloured(out, text.as_str(), colour)?;
    if !place.is_last {
        if !place.is_right {
            push_blanks(out, blanks)?;
        }
        push_blanks(out, GAP)?;
    }
    Ok(())
}

fn push_coloured(out: &mut String, text: &str, colour: &str) -> Result<(), AllocError> {
    if colour.is_empty() {
        return out.push_str(text);
    }
    out.push_str(colour)?;
    out.push_str(text)?;
    out.push_str(PLAIN)
}

fn push_blanks(out: &mut String, count: usize) -> Result<(), AllocError> {
    for _ in 0..count {
        out.push(' ')?;
    }
    Ok(())
}

// Adds the line that tells how many rows there are.
fn push_count(alloc: Global, out: &mut String, rows: usize, shown: usize) -> Result<(), AllocError>
    ensures { OnOk result (string_bytes out.new ≡ string_bytes out.old ++ count_line rows shown) }
{
    let line = count_line(alloc, rows, shown)?;
    out.push_str(line.as_str())
}

fn count_line(alloc: Global, rows: usize, shown: usize) -> Result<String, AllocError>
    ensures { IfOk result (λ line. string_bytes line ≡ count_line rows shown) }
{
    if shown < rows {
        format!(in alloc; "({rows} rows, of which the first {shown} are shown; --all shows all)\n")
    } else if rows == 1 {
        String::from_str(alloc, "(1 row)\n")
    } else {
        format!(in alloc; "({rows} rows)\n")
    }
}
