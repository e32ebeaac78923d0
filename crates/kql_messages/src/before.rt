//! Queries whose columns are those at a place of another query.

use crate::pieces::{Piece, piece_before, pieces_of};
use std::alloc::{AllocError, Global};

// A pipe in which a place stands: where it begins, and its last bar before the place.
#[derive(Clone, Copy)]
struct Level {
    start: usize,
    bar: Option<usize>,
}

// The pipes in which a place stands, and where its statement begins.
#[derive(Drop)]
struct Levels {
    statement: usize,
    outer: Vec<Level>,
    inner: Level,
}

impl Levels {
    // Goes on behind a piece, which may give a name to what a `let` has.
    fn pass(&mut self, piece: Piece<'_>, is_named: bool) -> Result<(), AllocError> {
        let behind = piece.byte.saturating_add(1);
        let fresh = Level {
            start: behind,
            bar: None,
        };
        match piece.text {
            "(" | "[" => {
                self.outer.push(self.inner)?;
                self.inner = fresh;
            }
            ")" | "]" => {
                if let Some(outer) = self.outer.pop() {
                    self.inner = outer;
                }
            }
            "|" => self.inner.bar = Some(piece.byte),
            ";" if self.outer.is_empty() => {
                self.statement = behind;
                self.inner = fresh;
            }
            "=" if is_named && self.outer.is_empty() => self.inner = fresh,
            _ => {}
        }
        Ok(())
    }
}

// The pipes in which a place stands, the innermost last, and where its statement begins.
fn levels_at(
    alloc: Global,
    pieces: &[Piece<'_>],
    byte: usize,
) -> Result<(usize, Vec<Level>), AllocError> {
    let mut levels = Levels {
        statement: 0,
        outer: Vec::new(alloc),
        inner: Level {
            start: 0,
            bar: None,
        },
    };
    for at in 0..pieces.len() {
        let piece = pieces[at];
        if piece.byte >= byte {
            break;
        }
        levels.pass(piece, piece_before(pieces, at, 2).text == "let")?;
    }
    let Levels {
        statement,
        mut outer,
        inner,
    } = levels;
    outer.push(inner)?;
    Ok((statement, outer))
}

// The operators of a pipe before its last bar.
fn before_bar<'a>(text: &'a str, level: &Level) -> Option<&'a str> {
    text.get(level.start..level.bar?)
}

// A query of the statements before a place and a pipe.
fn query_of(alloc: Global, lets: &str, outer: &str, pipe: &str) -> Result<String, AllocError> {
    if outer.is_empty() {
        format!(in alloc; "{lets}\n{pipe}\n")
    } else {
        format!(in alloc; "{lets}\n{outer}\n| {pipe}\n")
    }
}

/// Queries of which the first that can be answered has the columns that the rows have at a place of a query, which is a byte of its text. A query
/// ends with a line feed, so that more operators can stand behind it.
pub fn queries_before(alloc: Global, text: &str, byte: usize) -> Result<Vec<String>, AllocError> {
    let pieces = pieces_of(alloc, text)?;
    let (statement, levels) = levels_at(alloc, pieces.as_slice(), byte)?;
    let lets = text.get(..statement).unwrap_or("");
    let mut queries = Vec::new(alloc);
    for at in (0..levels.len()).rev() {
        let Some(pipe) = before_bar(text, &levels[at]) else {
            continue;
        };
        queries.push(query_of(alloc, lets, "", pipe)?)?;
        for outer in &levels.as_slice()[..at] {
            if let Some(front) = before_bar(text, outer) {
                queries.push(query_of(alloc, lets, front, pipe)?)?;
            }
        }
    }
    Ok(queries)
}
