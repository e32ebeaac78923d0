//! Rows of expressions and what each is bound to, checked by `bind_expr`.
//!
//! A line is a row: an expression, a tab, and its type and plan text, or the code of its first fault and the place. `⏎` stands for the end of
//! a line in an expression. A line that begins with `# ` is a heading: it names the scope in which the rows under it stand, and tells what they
//! show.

mod scopes;
mod shown;

use crate::counts::{Counts, tell, tell_no_row};
use crate::expressions::scopes::{At, at_named, scope};
use crate::expressions::shown::shown;
use bind_expr::Scope;
use std::io;

// The scope of the heading that a line is, if it is one of a scope that there is.
fn heading(line: &str) -> Option<At> {
    let (at, _told) = line.strip_prefix("# ")?.split_once('\t')?;
    at_named(at)
}

// Whether a row is wrong, which is told.
fn is_wrong<R: Print + AllocGlobal>(
    rt: &R,
    scope: &Scope,
    text: &str,
    wanted: &str,
) -> io::Result<bool> {
    let text = text.replace(rt.alloc(), "⏎", "\n")?;
    let found = shown(rt.alloc(), text.as_str(), scope)?;
    if found.as_str() == wanted {
        return Ok(false);
    }
    tell(rt, text.as_str(), found.as_str(), wanted)?;
    Ok(true)
}

/// Checks the rows of a text.
pub(crate) fn check_all<R: Print + AllocGlobal>(rt: &R, text: &str) -> io::Result<Counts> {
    let mut at = scope(rt.alloc(), At::Plain)?;
    let mut counts = Counts::new();
    for line in text.lines() {
        if let Some(named) = heading(line) {
            at = scope(rt.alloc(), named)?;
        } else if let Some((text, wanted)) = line.split_once('\t') {
            counts = counts.with_row(is_wrong(rt, &at, text, wanted)?);
        } else {
            tell_no_row(rt, line)?;
        }
    }
    Ok(counts)
}
