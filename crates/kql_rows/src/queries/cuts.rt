//! Starts of queries.
use crate::queries::shown::parsed;
use kql_lexer::lex;
use kql_syntax::SyntaxFault;
use std::alloc::{AllocError, Global};

/// Whether a text parses.
fn parses(alloc: Global, text: &str) -> Result<bool, AllocError> {
    match parsed(alloc, text) {
        Ok(query) => {
            drop(query);
            Ok(true)
        }
        Err(SyntaxFault::Refused { .. }) => Ok(false),
        Err(SyntaxFault::OutOfMemory) => Err(AllocError),
    }
}

/// Whether a text parses, or lacks something at its end.
fn goes_on(alloc: Global, text: &str) -> Result<bool, AllocError> {
    match parsed(alloc, text) {
        Ok(query) => {
            drop(query);
            Ok(true)
        }
        Err(SyntaxFault::Refused { code: 201, place }) => Ok(place.byte as usize == text.len()),
        Err(SyntaxFault::Refused { .. }) => Ok(false),
        Err(SyntaxFault::OutOfMemory) => Err(AllocError),
    }
}

/// Of a text that parses, the first end before one of its tokens where it neither parses nor lacks something.
pub(crate) fn first_wrong_cut(alloc: Global, text: &str) -> Result<Option<usize>, AllocError> {
    if !parses(alloc, text)? {
        return Ok(None);
    }
    let Ok(tokens) = lex(alloc, text.as_bytes()) else {
        return Ok(None);
    };
    for token in tokens.as_slice() {
        let end = token.place.byte as usize;
        let start = text.get(..end).unwrap_or("(");
        if !goes_on(alloc, start)? {
            return Ok(Some(end));
        }
    }
    Ok(None)
}
