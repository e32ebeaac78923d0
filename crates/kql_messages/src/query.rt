//! What is told of a query that is refused.

use crate::calls::{call_forms, needs_order, unsupported};
use crate::literals::bad_literal;
use crate::names::{
    unknown_column, unknown_function, unknown_table, write_alike, write_columns, write_tables,
};
use crate::patterns::pattern_here;
use crate::pieces::pieces_of;
use crate::seen::Seen;
use crate::sentence::{Advice, Sentence};
use crate::signs::{bad_character, bad_number};
use crate::syntax::unexpected;
use crate::types::wrong_type;
use kql_cells::Kind;
use std::alloc::{AllocError, Global};

/// A column, and its type where that is known.
#[derive(Clone, Copy, Debug)]
pub struct KnownColumn<'a> {
    pub name: &'a str,
    pub kind: Option<Kind>,
}

/// A query that is refused, and what is known of it.
#[derive(Clone, Copy)]
pub struct RefusedQuery<'a> {
    pub code: u32,
    /// The byte at which it is refused, from 0.
    pub byte: usize,
    pub text: &'a str,
    /// The names of the tables of the command.
    pub tables: &'a [&'a str],
    /// The columns of the rows at the place, where they are known.
    pub columns: &'a [KnownColumn<'a>],
}

const OPEN_TEXT: &str =
    "What begins here is not closed: end a text on its line with the quote it began with, datetime( and the like with )";

const NO_MOMENT: &str =
    "Say which moment now() is: put --now 2024-03-01T10:00 in front of the query";

// The sentences by a code.
fn advice_for<'a>(alloc: Global, seen: &Seen<'a>) -> Result<Advice<'a>, AllocError> {
    let told = match seen.refused.code {
        101 => bad_character(seen),
        102 => Some(Sentence::plain(OPEN_TEXT)),
        103 => bad_number(seen),
        201 => unexpected(alloc, seen)?,
        401 => return unknown_column(alloc, seen),
        402 => Some(unknown_function(alloc, seen)?),
        403 => call_forms(seen),
        404 => return wrong_type(alloc, seen),
        405 | 406 => Some(unsupported(seen)),
        407 => Some(needs_order(seen)),
        409 => Some(Sentence::plain(NO_MOMENT)),
        410 => return unknown_table(alloc, seen),
        418 => bad_literal(seen),
        420 => Some(pattern_here(seen)),
        _ => None,
    };
    Ok(Advice::of(told))
}

/// The sentences for a refused query, each in a line, without an end of the last; none where nothing more is known than its code tells.
pub fn query_message(alloc: Global, refused: &RefusedQuery<'_>) -> Result<String, AllocError> {
    let pieces = pieces_of(alloc, refused.text)?;
    let seen = Seen::new(*refused, pieces.as_slice());
    let mut out = String::new(alloc);
    advice_for(alloc, &seen)?.write(&mut out)?;
    match refused.code {
        401 => write_columns(refused.columns, &mut out)?,
        402 => write_alike(&seen, &mut out)?,
        410 => write_tables(refused.tables, &mut out)?,
        _ => {}
    }
    Ok(out)
}
