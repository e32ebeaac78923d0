//! What is known of the terminal.

use kql_views::Look;
use std::env;
use std::io::IsTerminal;

// How many columns a terminal has that does not tell, and how many are believed.
const COLUMNS: usize = 80;

const COLUMNS_LEAST: usize = 20;

const COLUMNS_TOP: usize = 10_000;

// How many rows are shown where not all are asked for.
const ROWS_TOP: usize = 1_000;

/// How a table is shown here.
pub(crate) fn look(rt: &HostRuntime, shows_all: bool) -> Look {
    Look {
        width: width(rt),
        rows: if shows_all { usize::MAX } else { ROWS_TOP },
        has_colours: rt.stdout().is_terminal() && !is_set(rt, "NO_COLOR"),
    }
}

// How many columns the terminal has, as COLUMNS tells.
fn width(rt: &HostRuntime) -> usize {
    let Ok(text) = env::var(rt, "COLUMNS") else {
        return COLUMNS;
    };
    match text.as_str().parse::<usize>() {
        Ok(columns) => columns.max(COLUMNS_LEAST).min(COLUMNS_TOP),
        Err(_) => COLUMNS,
    }
}

// Whether a variable of the environment is there and not empty.
fn is_set(rt: &HostRuntime, name: &str) -> bool {
    match env::var(rt, name) {
        Ok(text) => !text.as_str().is_empty(),
        Err(_) => false,
    }
}
