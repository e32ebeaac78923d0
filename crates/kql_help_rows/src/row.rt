//! What is looked for.
use std::alloc::{AllocError, Global};

/// How a text holds something: as a line of it, in a line, or as a word.
#[derive(Clone, Copy, Debug, PartialEq, Eq)]
pub(crate) enum As {
    Line,
    Part,
    Word,
}

/// A row: the topic, and what its text has to hold.
#[derive(Clone, Copy)]
pub(crate) struct Row<'a> {
    pub(crate) topic: &'a str,
    pub(crate) held_as: As,
    pub(crate) held: &'a str,
}

impl<'a> Row<'a> {
    /// The row that a line writes.
    pub(crate) fn read(line: &'a str) -> Option<Row<'a>> {
        let (topic, rest) = line.split_once('\t')?;
        let (way, held) = rest.split_once('\t')?;
        let held_as = match way {
            "line" => As::Line,
            "part" => As::Part,
            "word" => As::Word,
            _ => return None,
        };
        Some(Row {
            topic,
            held_as,
            held,
        })
    }
}

// A line with one blank in place of several, and none at its ends.
fn single_blanks(alloc: Global, line: &str) -> Result<String, AllocError> {
    let mut single = String::new(alloc);
    for word in line.split_whitespace() {
        if !single.is_empty() {
            single.push(' ')?;
        }
        single.push_str(word)?;
    }
    Ok(single)
}

// Whether a line, of single blanks, has a word.
fn has_word(line: &str, held: &str) -> bool {
    line.split(' ')
        .any(|word| word.trim_end_matches([',', ';', '.', ':']) == held)
}

/// Whether a text holds what a row looks for.
pub(crate) fn holds(alloc: Global, text: &str, row: &Row) -> Result<bool, AllocError> {
    for line in text.lines() {
        let line = single_blanks(alloc, line)?;
        let line = line.as_str();
        let found = match row.held_as {
            As::Line => line == row.held,
            As::Part => line.contains(row.held),
            As::Word => has_word(line, row.held),
        };
        if found {
            return Ok(true);
        }
    }
    Ok(false)
}
