//! Rows of queries and what each is bound to, checked by `bind`.
//!
//! A line is a row: a query, a tab, and its plan text, or the code of its first fault and the place. `⏎` stands for the end of a line in
//! both. A line that begins with `# ` is a heading: it names the tables over which the queries under it stand, and tells what they show. Of a
//! query that parses each start that ends before a token parses too, or is refused at its end.

mod cuts;
mod shown;
mod tables;

use crate::counts::{Counts, tell, tell_no_row};
use crate::queries::cuts::first_wrong_cut;
use crate::queries::shown::shown;
use crate::queries::tables::{At, at_named};
use std::io;

// The tables of the heading that a line is, if it is one of tables that there are.
fn heading(line: &str) -> Option<At> {
    let (at, _told) = line.strip_prefix("# ")?.split_once('\t')?;
    at_named(at)
}

// Whether a row is wrong, which is told.
fn is_wrong<R: Print + AllocGlobal>(rt: &R, at: At, text: &str, wanted: &str) -> io::Result<bool> {
    let query = text.replace(rt.alloc(), "⏎", "\n")?;
    let found = shown(rt.alloc(), query.as_str(), at)?;
    let cut = first_wrong_cut(rt.alloc(), query.as_str())?;
    if found.as_str() == wanted && cut.is_none() {
        return Ok(false);
    }
    tell(rt, text, found.as_str(), wanted)?;
    if let Some(end) = cut {
        println!(rt; "and its first {end} bytes are refused before their end")?;
    }
    Ok(true)
}

/// Checks the rows of a text.
pub(crate) fn check_all<R: Print + AllocGlobal>(rt: &R, text: &str) -> io::Result<Counts> {
    let mut at = At::Plain;
    let mut counts = Counts::new();
    for line in text.lines() {
        if let Some(named) = heading(line) {
            at = named;
        } else if let Some((text, wanted)) = line.split_once('\t') {
            counts = counts.with_row(is_wrong(rt, at, text, wanted)?);
        } else {
            tell_no_row(rt, line)?;
        }
    }
    Ok(counts)
}
