//! The query of the words of the shell: its parts, one behind another.

use kql_lexer::MAX_BYTES;
use kql_outside::{DirShelf, ReadError, Shelf, read_up_to};
use kql_shell::{Part, Request, add_part};
use std::alloc::AllocError;
use std::rt::Files;

/// The text of a query, or why there is none.
#[derive(Debug, Drop)]
pub(crate) enum Query {
    Text(Vec<u8>),
    /// The word of this number is the path of no file.
    Missing(usize),
    /// A part cannot be read.
    Fault,
}

/// The query of a request that these words are.
pub(crate) fn query_of<R: Files + AllocGlobal>(
    rt: &R,
    words: &[String],
    request: &Request,
) -> Result<Query, AllocError> {
    let mut text = Vec::new(rt.alloc());
    for part in request.parts.as_slice() {
        match part {
            Part::Text(number) => add_part(&mut text, word_at(words, *number).as_bytes())?,
            Part::File(number) => match read_file(rt, path_of(word_at(words, *number)), MAX_BYTES) {
                Read::Bytes(more) => add_part(&mut text, more.as_slice())?,
                Read::Missing => return Ok(Query::Missing(*number)),
                Read::Fault => return Ok(Query::Fault),
                Read::OutOfMemory => return Err(AllocError),
            },
        }
    }
    Ok(Query::Text(text))
}

/// The word of a number.
pub(crate) fn word_at(words: &[String], number: usize) -> &str {
    match words.get(number) {
        Some(word) => word.as_str(),
        None => "",
    }
}

/// The path that a word gives: `-` is the standard input.
pub(crate) fn path_of(word: &str) -> &str {
    if word == "-" { "/dev/stdin" } else { word }
}

/// What is read of a file.
#[derive(Debug, Drop)]
pub(crate) enum Read {
    Bytes(Vec<u8>),
    Missing,
    Fault,
    OutOfMemory,
}

/// The bytes of a file, of a longer one as many as this and one more.
pub(crate) fn read_file<R: Files + AllocGlobal>(rt: &R, path: &str, most: usize) -> Read {
    let mut shelf = DirShelf::new(rt);
    match shelf.start(path) {
        Ok(true) => match read_up_to(rt.alloc(), &mut shelf, most.saturating_add(1)) {
            Ok(bytes) => Read::Bytes(bytes),
            Err(ReadError::Failed) => Read::Fault,
            Err(ReadError::OutOfMemory) => Read::OutOfMemory,
        },
        Ok(false) => Read::Missing,
        Err(_) => Read::Fault,
    }
}
