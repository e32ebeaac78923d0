//! The text of a query in pieces.

use kql_items::Items;
use kql_lexer::{LexFault, Token, TokenForm, lex};
use std::alloc::{AllocError, Global};

/// What a piece of a query is.
#[derive(Clone, Copy, PartialEq)]
pub(crate) enum Sort {
    End,
    Word,
    Number,
    Span,
    Text,
    Typed,
    Sign,
}

/// A piece of a query, as it is written.
#[derive(Clone, Copy)]
pub(crate) struct Piece<'a> {
    pub(crate) byte: usize,
    pub(crate) text: &'a str,
    pub(crate) sort: Sort,
    /// Whether it is a word that is no name.
    pub(crate) reserved: bool,
}

/// No piece.
pub(crate) const NOTHING: Piece<'static> = Piece {
    byte: 0,
    text: "",
    sort: Sort::End,
    reserved: false,
};

fn sort_of(form: &TokenForm) -> Sort {
    match form {
        TokenForm::End => Sort::End,
        TokenForm::Word(_, _) | TokenForm::Negated(_) => Sort::Word,
        TokenForm::Number(_) => Sort::Number,
        TokenForm::Span(_) => Sort::Span,
        TokenForm::Text(_) => Sort::Text,
        TokenForm::Typed(_, _) => Sort::Typed,
        _ => Sort::Sign,
    }
}

fn is_reserved(form: &TokenForm) -> bool {
    match form {
        TokenForm::Word(keyword, _) => keyword.is_reserved(),
        TokenForm::Negated(_) => true,
        _ => false,
    }
}

// The text from one byte to another, without the blanks and the comment behind a word, a number or a sign.
fn written(text: &str, from: usize, to: usize, sort: Sort) -> &str {
    let part = text.get(from..to).unwrap_or("");
    if sort == Sort::Text || sort == Sort::Typed {
        return part.trim_end();
    }
    let part = match part.split_once("//") {
        Some((front, _)) => front,
        None => part,
    };
    part.split_whitespace().next().unwrap_or("")
}

fn piece_at<'a>(text: &'a str, tokens: &[Token], at: usize) -> Option<Piece<'a>> {
    let token = tokens.get(at)?;
    let from = token.place.byte as usize;
    let to = match tokens.get(at.saturating_add(1)) {
        Some(next) => next.place.byte as usize,
        None => text.len(),
    };
    let sort = sort_of(&token.form);
    Some(Piece {
        byte: from,
        text: written(text, from, to, sort),
        sort,
        reserved: is_reserved(&token.form),
    })
}

/// The pieces of a query; none where its text has no tokens.
pub(crate) fn pieces_of<'a>(alloc: Global, text: &'a str) -> Result<Vec<Piece<'a>>, AllocError> {
    let tokens: Items<Token> = match lex(alloc, text.as_bytes()) {
        Ok(tokens) => tokens,
        Err(LexFault::OutOfMemory) => return Err(AllocError),
        Err(LexFault::Refused { .. }) => Items::new(alloc),
    };
    let tokens = tokens.as_slice();
    let mut pieces = Vec::new(alloc);
    for at in 0..tokens.len() {
        if let Some(piece) = piece_at(text, tokens, at) {
            pieces.push(piece)?;
        }
    }
    Ok(pieces)
}

/// The piece that stands so many before another one.
pub(crate) fn piece_before<'a>(pieces: &[Piece<'a>], at: usize, count: usize) -> Piece<'a> {
    match at.checked_sub(count) {
        Some(place) => pieces.get(place).copied().unwrap_or(NOTHING),
        None => NOTHING,
    }
}
