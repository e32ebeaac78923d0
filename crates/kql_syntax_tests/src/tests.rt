//! Expressions: where each text ends or is refused. What tree a text has is seen by the rows of queries, in the plan that each is
//! bound to.
//!
//! A tree is let go of by `drop`: its own drop in each function would take most of the proof's time.

mod words;

use kql_cells::KText;
use kql_items::Items;
use kql_lexer::{Keyword, Place, Token, TokenForm, Tokens, keyword_of};
use kql_syntax::{SyntaxFault, parse_expr};
use std::alloc::{AllocError, Global};
use std::test::Fail;

/// The sign that a piece is.
fn sign_of(piece: &str) -> Option<TokenForm> {
    Some(match piece {
        "|" => TokenForm::Bar,
        "(" => TokenForm::Open,
        ")" => TokenForm::Close,
        "[" => TokenForm::OpenSquare,
        "]" => TokenForm::CloseSquare,
        "," => TokenForm::Comma,
        ";" => TokenForm::Semicolon,
        ":" => TokenForm::Colon,
        "." => TokenForm::Dot,
        ".." => TokenForm::DotDot,
        "=" => TokenForm::Assign,
        "==" => TokenForm::Equal,
        "!=" => TokenForm::NotEqual,
        "=~" => TokenForm::Alike,
        "!~" => TokenForm::NotAlike,
        "<" => TokenForm::Less,
        "<=" => TokenForm::LessEqual,
        ">" => TokenForm::Greater,
        ">=" => TokenForm::GreaterEqual,
        "=>" => TokenForm::Arrow,
        "+" => TokenForm::Plus,
        "-" => TokenForm::Minus,
        "*" => TokenForm::Star,
        "/" => TokenForm::Slash,
        "%" => TokenForm::Percent,
        _ => return None,
    })
}

/// The token that a piece without blanks is: a sign, `"text"`, `!word`, `#number`, `~ticks`, `@raw` for a dynamic
/// literal, or a word.
fn form_of(alloc: Global, piece: &str) -> Result<TokenForm, AllocError> {
    if let Some(form) = sign_of(piece) {
        return Ok(form);
    }
    if let Some(word) = piece.strip_prefix("!") {
        return Ok(TokenForm::Negated(keyword_of(word)));
    }
    if let Some(digits) = piece.strip_prefix("#") {
        return Ok(TokenForm::Number(digits.parse::<i64>().unwrap_or(0)));
    }
    if let Some(digits) = piece.strip_prefix("~") {
        return Ok(TokenForm::Span(digits.parse::<i64>().unwrap_or(0)));
    }
    if let Some(raw) = piece.strip_prefix("@") {
        return Ok(TokenForm::Typed(Keyword::Dynamic, KText::from_str(alloc, raw)?));
    }
    if let Some(text) = piece.strip_prefix("'") {
        return Ok(TokenForm::Text(KText::from_str(alloc, text)?));
    }
    Ok(TokenForm::Word(keyword_of(piece), KText::from_str(alloc, piece)?))
}

/// Tokens without places but their number from 1, and the end mark.
fn push_form(all: &mut Tokens, form: TokenForm) -> Result<(), AllocError> {
    let column = u32::try_from(all.len()).unwrap_or(0).saturating_add(1);
    let place = Place {
        line: 1,
        column,
        byte: 0,
    };
    all.push(Token { place, form })
}

/// So many brackets, a number, and as many that close them.
fn nested(alloc: Global, depth: usize) -> Result<Tokens, AllocError> {
    let mut all = Items::new(alloc);
    for _ in 0..depth {
        push_form(&mut all, TokenForm::Open)?;
    }
    push_form(&mut all, TokenForm::Number(1))?;
    for _ in 0..depth {
        push_form(&mut all, TokenForm::Close)?;
    }
    push_form(&mut all, TokenForm::End)?;
    Ok(all)
}

/// Pieces with one blank between them, or none at all.
fn push_pieces(alloc: Global, all: &mut Tokens, text: &str) -> Result<(), AllocError> {
    for piece in text.split(' ') {
        if !piece.is_empty() {
            push_form(all, form_of(alloc, piece)?)?;
        }
    }
    Ok(())
}

/// The tokens of a text, so many brackets, and the tokens of another text.
fn with_brackets(
    alloc: Global,
    before: &str,
    depth: usize,
    after: &str,
) -> Result<Tokens, AllocError> {
    let mut all = Items::new(alloc);
    push_pieces(alloc, &mut all, before)?;
    for _ in 0..depth {
        push_form(&mut all, TokenForm::Open)?;
    }
    push_pieces(alloc, &mut all, after)?;
    push_form(&mut all, TokenForm::End)?;
    Ok(all)
}

/// 0 and the index of the token after the expression that stands here, or the code and the number of the token that is
/// refused.
fn outcome(alloc: Global, ts: &Tokens, at: usize) -> (u32, usize) {
    if at >= ts.len() {
        return (1, 0);
    }
    match parse_expr(alloc, ts, at) {
        Ok((tree, end)) => {
            let found = (0, end);
            drop(tree);
            found
        }
        Err(SyntaxFault::Refused { code, place }) => (code, place.column as usize),
        Err(SyntaxFault::OutOfMemory) => (1, 0),
    }
}

/// What is answered on a text.
fn end_of(alloc: Global, text: &str) -> (u32, usize) {
    match with_brackets(alloc, text, 0, "") {
        Ok(ts) => outcome(alloc, &ts, 0),
        Err(_) => (1, 0),
    }
}

#[test]
fn refusals(rt: HostRuntime) {
    let rows = [
        ("+ a", 1),
        ("by", 1),
        ("a ==", 3),
        ("a == ) b", 3),
        ("a !has", 3),
        ("a or or b", 3),
        ("- - a", 2),
        ("( a", 3),
        ("( a , b )", 3),
        ("a between ( #1 #2 )", 5),
        ("a between ( #1 .. #2", 7),
        ("x in ( )", 4),
        ("x in ( #1 , )", 6),
        ("x in ( * )", 4),
        ("f (", 3),
        ("f ( , )", 3),
        ("f ( a , )", 5),
        ("f ( a b )", 4),
        ("a . #5", 3),
        ("a [ ]", 3),
        ("[ a ]", 2),
        ("[ 'a", 3),
        ("f ( * + a )", 4),
        ("( a ]", 3),
        ("a between ( b == c .. d )", 5),
        ("a matches", 3),
        ("a matches b", 3),
        ("a matches regex", 4),
        ("a matches regex ( 'b", 6),
        ("matches regex 'b", 1),
    ];
    for (text, column) in rows {
        assert_eq!(rt; end_of(rt.alloc(), text), (201, column), "at {text}");
    }
}

#[test]
fn ends(rt: HostRuntime) {
    let rows = [
        ("a b", 1),
        ("a = b", 1),
        ("a == b == c", 3),
        ("a matches regex 'b", 4),
        ("regex matches regex regex", 4),
        ("a matches regex b + c and d", 8),
        ("a matches regex 'b matches regex 'c", 4),
        ("a !matches regex 'b", 1),
        ("true ( )", 1),
        ("f ( a ) ( b )", 4),
        ("( a or b ) [ #1 ] )", 8),
        ("[ 'f ] ( )", 3),
    ];
    for (text, end) in rows {
        assert_eq!(rt; end_of(rt.alloc(), text), (0, end), "at {text}");
    }
}

#[test]
fn brackets(rt: HostRuntime) -> Result<(), Fail> {
    let alloc = rt.alloc();
    let rows = [
        (64, (0, 129)),
        (65, (202, 65)),
        (80, (202, 65)),
        (65_000, (202, 65)),
    ];
    for (depth, want) in rows {
        let ts = nested(alloc, depth)?;
        assert_eq!(rt; outcome(alloc, &ts, 0), want);
    }
    let rows = [
        ("", 64, "a (", 0, (202, 66)),
        ("", 64, "a [", 0, (202, 66)),
        ("", 64, "[", 0, (202, 65)),
        ("", 64, "#1 (", 0, (201, 66)),
        ("", 64, ")", 0, (201, 65)),
        ("", 64, "#1 ) + (", 0, (201, 69)),
        ("", 64, "#1 ) + ( (", 0, (202, 69)),
        ("", 64, "a . b [ [ 'c ] ]", 0, (202, 68)),
        ("", 65, "#1 )", 64, (0, 67)),
        ("", 66, "#1 )", 1, (202, 66)),
        ("( ) a +", 65, "#1 )", 2, (202, 69)),
        ("a b", 65, "", 0, (0, 1)),
        ("a == )", 65, "", 0, (201, 3)),
    ];
    for (before, depth, after, at, want) in rows {
        let ts = with_brackets(alloc, before, depth, after)?;
        assert_eq!(rt; outcome(alloc, &ts, at), want, "at {before} {after}");
    }
    Ok(())
}

/// A text, 60,000 times a piece with another piece between them, and a text.
fn chain(
    alloc: Global,
    before: &str,
    item: &str,
    between: &str,
    after: &str,
) -> Result<Tokens, AllocError> {
    let mut all = Items::new(alloc);
    push_pieces(alloc, &mut all, before)?;
    push_pieces(alloc, &mut all, item)?;
    for _ in 1..60_000 {
        push_pieces(alloc, &mut all, between)?;
        push_pieces(alloc, &mut all, item)?;
    }
    push_pieces(alloc, &mut all, after)?;
    push_form(&mut all, TokenForm::End)?;
    Ok(all)
}

/// What is answered on such a text.
fn chained(alloc: Global, before: &str, item: &str, between: &str, after: &str) -> (u32, usize) {
    match chain(alloc, before, item, between, after) {
        Ok(ts) => outcome(alloc, &ts, 0),
        Err(_) => (1, 0),
    }
}

#[test]
fn chains(rt: HostRuntime) {
    let alloc = rt.alloc();
    assert_eq!(rt; chained(alloc, "", "#1", "or", ""), (0, 119_999));
    assert_eq!(rt; chained(alloc, "", "#1", "and", ""), (0, 119_999));
    assert_eq!(rt; chained(alloc, "", "( #1 )", "+", ""), (0, 239_999));
    assert_eq!(rt; chained(alloc, "", "#1", "*", ""), (0, 119_999));
    assert_eq!(rt; chained(alloc, "a .", "x", ".", ""), (0, 120_001));
    assert_eq!(rt; chained(alloc, "a in (", "#1", ",", ")"), (0, 120_003));
    assert_eq!(rt; chained(alloc, "f (", "#1", ",", ")"), (0, 120_002));
}

#[test]
fn no_end_mark(rt: HostRuntime) -> Result<(), Fail> {
    let alloc = rt.alloc();
    let mut ts = Items::new(alloc);
    push_pieces(alloc, &mut ts, "( #1")?;
    assert_eq!(rt; outcome(alloc, &ts, 0), (201, 2));
    Ok(())
}
