//! What is seen at the place of a refusal.

use crate::kinds::kind_among;
use crate::pieces::{NOTHING, Piece, Sort, piece_before};
use crate::query::RefusedQuery;
use crate::sides::Part;
use kql_cells::Kind;
use std::alloc::{AllocError, Global};

/// A refused query, its pieces, and the one at the place.
#[derive(Clone, Copy)]
pub(crate) struct Seen<'a> {
    pub(crate) refused: RefusedQuery<'a>,
    pieces: &'a [Piece<'a>],
    at: usize,
}

impl<'a> Seen<'a> {
    /// What is seen at the first piece that begins no earlier than the place.
    pub(crate) fn new(refused: RefusedQuery<'a>, pieces: &'a [Piece<'a>]) -> Seen<'a> {
        for at in 0..pieces.len() {
            if pieces[at].byte >= refused.byte {
                return Seen {
                    refused,
                    pieces,
                    at,
                };
            }
        }
        Seen {
            refused,
            pieces,
            at: pieces.len(),
        }
    }

    /// The piece at the place.
    pub(crate) fn here(&self) -> Piece<'a> {
        self.after(0)
    }

    /// The piece so many behind the place.
    pub(crate) fn after(&self, count: usize) -> Piece<'a> {
        let place = self.at.saturating_add(count);
        self.pieces.get(place).copied().unwrap_or(NOTHING)
    }

    /// The piece so many before the place.
    pub(crate) fn before(&self, count: usize) -> Piece<'a> {
        piece_before(self.pieces, self.at, count)
    }

    /// Where the place is among the pieces, how many there are, and the one that stands at a place or before it.
    pub(crate) fn at(&self) -> usize {
        self.at
    }

    pub(crate) fn count(&self) -> usize {
        self.pieces.len()
    }

    pub(crate) fn piece(&self, at: usize) -> Piece<'a> {
        self.pieces.get(at).copied().unwrap_or(NOTHING)
    }

    pub(crate) fn piece_before(&self, at: usize) -> Piece<'a> {
        piece_before(self.pieces, at, 1)
    }

    /// The text of these pieces, as it is written.
    pub(crate) fn text_of(&self, part: Part) -> &'a str {
        let last = self.piece_before(part.to);
        let end = last.byte.saturating_add(last.text.len());
        self.refused
            .text
            .get(self.piece(part.from).byte..end)
            .unwrap_or("")
    }

    /// How many pieces stand before the place.
    pub(crate) fn count_before(&self) -> usize {
        self.at.min(self.pieces.len())
    }

    /// The text of the query from a byte on.
    pub(crate) fn text_from(&self, byte: usize) -> &'a str {
        self.refused.text.get(byte..).unwrap_or("")
    }

    /// The name at the place: a word, or a text in square brackets.
    pub(crate) fn name(&self) -> &'a str {
        let here = self.here().text;
        if here == "[" {
            return bare(self.after(1).text);
        }
        here
    }

    /// The first piece of the operator or statement in which the place stands, without regard to brackets.
    pub(crate) fn opening(&self) -> Piece<'a> {
        let mut found = self.here();
        for count in 1..self.count_before().saturating_add(1) {
            let piece = self.before(count);
            if piece.text == "|" || piece.text == ";" {
                return found;
            }
            found = piece;
        }
        found
    }

    /// Whether the first operator or statement of the query holds the place.
    pub(crate) fn is_in_first(&self) -> bool {
        self.opening().byte
            == piece_before(self.pieces, self.count_before(), self.count_before()).byte
    }

    /// The innermost bracket that is open at the place, and how many pieces before it.
    pub(crate) fn open_bracket(&self) -> Option<(Piece<'a>, usize)> {
        let mut closed = 0usize;
        for count in 1..self.count_before().saturating_add(1) {
            let piece = self.before(count);
            if piece.text == ")" || piece.text == "]" {
                closed = closed.saturating_add(1);
            } else if piece.text == "(" || piece.text == "[" {
                if closed == 0 {
                    return Some((piece, count));
                }
                closed = closed.saturating_sub(1);
            }
        }
        None
    }

    /// Where the place is in the list of an `in`, the piece before that word.
    pub(crate) fn listed_for(&self) -> Option<Piece<'a>> {
        let (_, count) = self.open_bracket()?;
        match self.before(count.saturating_add(1)).text {
            "in" | "!in" | "in~" | "!in~" => Some(self.before(count.saturating_add(2))),
            _ => None,
        }
    }

    /// Whether a name is that of a table: one of the command, or of a `let` before the place.
    pub(crate) fn is_table(&self, name: &str) -> bool {
        for table in self.refused.tables {
            if *table == name {
                return true;
            }
        }
        for count in 2..self.count_before().saturating_add(1) {
            if self.before(count).text == "let" && self.before(count - 1).text == name {
                return true;
            }
        }
        false
    }

    /// The names of the `let`s before the place.
    pub(crate) fn lets(&self, alloc: Global) -> Result<Vec<&'a str>, AllocError> {
        let mut names: Vec<&'a str> = Vec::new(alloc);
        for count in 2..self.count_before().saturating_add(1) {
            if self.before(count).text == "let" {
                names.push(self.before(count - 1).text)?;
            }
        }
        Ok(names)
    }

    /// Whether an item before the place, in the same operator, makes a column of a name.
    pub(crate) fn is_made_here(&self, name: &str) -> bool {
        for count in 2..self.count_before().saturating_add(1) {
            let piece = self.before(count);
            if piece.text == "|" || piece.text == ";" {
                return false;
            }
            if piece.text == name && self.before(count - 1).text == "=" {
                return true;
            }
        }
        false
    }

    /// Whether an operator of this name, before the place, has a piece of this text.
    fn has_in(&self, operator: &str, text: &str) -> bool {
        let mut is_there = false;
        for count in 1..self.count_before().saturating_add(1) {
            let piece = self.before(count);
            if piece.text == "|" || piece.text == ";" {
                is_there = false;
            } else if piece.text == text && piece.sort == Sort::Word {
                is_there = true;
            } else if piece.text == operator && is_there {
                return true;
            }
        }
        false
    }

    /// Whether a `parse` before the place makes a column of a name.
    pub(crate) fn is_parsed_before(&self, name: &str) -> bool {
        self.has_in("parse", name)
    }

    // Whether a piece before the place is this word.
    fn stands_before(&self, word: &str) -> bool {
        for count in 1..self.count_before().saturating_add(1) {
            if self.before(count).text == word {
                return true;
            }
        }
        false
    }

    // Whether the query gives a column its name before the place by a `=`.
    fn is_named_before(&self, name: &str) -> bool {
        for count in 2..self.count_before().saturating_add(1) {
            if self.before(count).text == name && self.before(count - 1).text == "=" {
                return true;
            }
        }
        false
    }

    /// Whether the query makes a column of a name before the place, so that it may stand in no header.
    pub(crate) fn is_made_before(&self, name: &str) -> bool {
        let is_grouped = self.stands_before("summarize") || self.stands_before("make-series");
        let is_joined = self.stands_before("join") || self.stands_before("lookup");
        self.is_named_before(name)
            || self.has_in("mv-expand", name)
            || is_grouped && self.opening().text != "summarize" && !self.stands_before(name)
            || is_joined && name.ends_with('1')
    }

    /// The type of a column, where it is known.
    pub(crate) fn kind_of_column(&self, name: &str) -> Option<Kind> {
        kind_among(self.refused.columns, name)
    }
}

/// A text without its quotes.
pub(crate) fn bare(text: &str) -> &str {
    text.trim_start_matches('@')
        .trim_matches('"')
        .trim_matches('\'')
}

/// Whether a value may end with a piece.
pub(crate) fn ends_value(piece: Piece<'_>) -> bool {
    match piece.sort {
        Sort::Number | Sort::Span | Sort::Text | Sort::Typed => true,
        Sort::Word => !piece.reserved,
        Sort::Sign => piece.text == ")" || piece.text == "]",
        Sort::End => false,
    }
}
