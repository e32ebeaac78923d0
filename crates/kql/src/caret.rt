//! What a terminal shows of a refused query: its line, and a caret under the place; and what a code means.

use kql_help::topic_text;
use std::alloc::{AllocError, Global};
use std::rt::Files;
use std::{fs, io};

// A longer file has no line that is shown.
const BYTES_TOP: u64 = 262_144;

// How many characters of a line are shown, and how many of them stand before the caret at most.
const SHOWN: u32 = 72;

const BEFORE: u32 = 60;

/// Shows the place of a refusal in the query's file, counted from 1. Only a plain file is read again.
pub(crate) fn show<R: Files + Eprint + AllocGlobal>(
    rt: &R,
    path: &str,
    line: u32,
    column: u32,
) -> io::Result<()> {
    match text_of(rt, path) {
        Some(text) => show_line(rt, text.as_str(), line, column),
        None => Ok(()),
    }
}

/// Tells what a code means.
pub(crate) fn tell<R: Eprint + AllocGlobal>(rt: &R, code: u32) -> io::Result<()> {
    let topic = format!(in rt.alloc(); "{code}")?;
    let meaning = sentence(topic.as_str());
    eprintln!(rt; "{meaning} More: kql help {code}")
}

// The sentence that says what a code means, which is the second part of its text.
fn sentence(topic: &str) -> &'static str {
    let Some(text) = topic_text(topic) else {
        return "";
    };
    match text.split("\n\n").nth(1) {
        Some(sentence) => sentence,
        None => "",
    }
}

/// The text of a plain file that is no longer than a query.
pub(crate) fn text_of<R: Files + AllocGlobal>(rt: &R, path: &str) -> Option<String> {
    let about = fs::metadata(rt, path).ok()?;
    if !about.is_file() || about.len() > BYTES_TOP {
        return None;
    }
    let bytes = fs::read(rt, path).ok()?;
    String::from_utf8_lossy(rt.alloc(), bytes.as_slice()).ok()
}

/// Shows a line of a text, counted from 1, with a caret under a column.
pub(crate) fn show_line<R: Eprint + AllocGlobal>(
    rt: &R,
    text: &str,
    line: u32,
    column: u32,
) -> io::Result<()> {
    let Some(line) = text.split('\n').nth(line.saturating_sub(1) as usize) else {
        return Ok(());
    };
    if line.is_empty() {
        return eprintln!(rt; "    (the end of the query)");
    }
    let (shown, blanks) = pointed(rt.alloc(), line, column)?;
    eprintln!(rt; "    {shown}")?;
    eprintln!(rt; "    {blanks}^")
}

// The part of a line that is shown, and the blanks before the caret under it.
fn pointed(alloc: Global, line: &str, column: u32) -> Result<(String, String), AllocError> {
    let first = first_shown(column);
    let mut shown = String::new(alloc);
    let mut blanks = String::new(alloc);
    let mut at = 1u32;
    for c in line.chars() {
        if first <= at && at - first < SHOWN {
            shown.push(shown_as(c))?;
            if at < column {
                blanks.push(blank_under(c))?;
            }
        }
        at = at.saturating_add(1);
    }
    Ok((shown, blanks))
}

// The column from which on a line is shown.
fn first_shown(column: u32) -> u32 {
    if column <= BEFORE { 1 } else { column - BEFORE }
}

// A control character is shown as a blank, so that none reaches the terminal.
fn shown_as(c: char) -> char {
    if c.is_control() { blank_under(c) } else { c }
}

// A tab stands under a tab, so that the caret stands under its column.
fn blank_under(c: char) -> char {
    if c == '\t' { '\t' } else { ' ' }
}
