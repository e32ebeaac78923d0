//! The longest piece that some bytes begin with.

ghost use Rattle.std.specs.Prelude.{◌≡◌, ◌<◌, length, drop, slice_index, None};
ghost use Rattle.kql_lexer.specs.Bytes.{class_of};
ghost use Rattle.kql_lexer.specs.Pieces.{bang_sign, double_sign, sign};
ghost use Rattle.kql_lexer.specs.Words.{joined_words, word_before};
ghost use Rattle.kql_lexer.specs.Shapes.{IsFront, IsPlain, bang_before, double_front};

use crate::classes::{Class, blank_len, class_of, line_len, word_len};
use crate::forms::ascii;
use crate::keyword::{JOINED_WORDS, NEGATED_WORDS, SIDE_WORDS, keyword_of, word_before};
use crate::literals::{literal_at, literal_front};
use crate::numbers::number_front;
use crate::strings::{at_front, string_front};
use crate::token::{Front, Shape, TokenForm};

/// Blanks.
#[tactic(auto, using(crate::proofs::FrontFacts::gap_fronts))]
fn blank_front(rest: &[u8]) -> Front
    requires some { 0 < length rest.now }
    requires class { class_of (slice_index rest.now 0) ≡ Class.Blank }
    ensures { IsFront rest.now result }
{
    Front {
        size: blank_len(rest),
        shape: Shape::Gap,
    }
}

/// The longest word or typed literal.
fn letter_front(rest: &[u8], plain: &mut bool) -> Front
    requires some { 0 < length rest.now }
    requires class { class_of (slice_index rest.now 0) ≡ Class.Letter }
    requires plain { IsPlain plain.old rest.now }
    ensures front { IsFront rest.now result }
    ensures plain { IsPlain plain.new (drop result.size rest.now) }
{
    match word_before(&JOINED_WORDS, rest) {
        Some(keyword) => Front {
            size: keyword.text().len(),
            shape: Shape::Word(keyword),
        },
        None => word_front(rest, plain),
    }
}

/// The longest word or typed literal that begins with word characters alone.
#[tactic(auto, using(crate::proofs::WordFronts::word_steps))]
fn word_front(rest: &[u8], plain: &mut bool) -> Front
    requires some { 0 < length rest.now }
    requires class { class_of (slice_index rest.now 0) ≡ Class.Letter }
    requires joined { word_before joined_words rest.now ≡ None }
    requires plain { IsPlain plain.old rest.now }
    ensures front { IsFront rest.now result }
    ensures plain { IsPlain plain.new (drop result.size rest.now) }
{
    let size = word_len(rest);
    let keyword = keyword_of(ascii(&rest[..size]));
    match literal_at(rest, size, keyword) {
        Some(at) => literal_front(rest, keyword, at, plain),
        None => Front {
            size,
            shape: Shape::Word(keyword),
        },
    }
}

/// `$left` or `$right`, or `$` alone.
fn dollar_front(rest: &[u8]) -> Front
    requires some { 0 < length rest.now }
    requires class { class_of (slice_index rest.now 0) ≡ Class.Dollar }
    ensures { IsFront rest.now result }
{
    match word_before(&SIDE_WORDS, rest) {
        Some(keyword) => Front {
            size: keyword.text().len(),
            shape: Shape::Word(keyword),
        },
        None => Front {
            size: 1,
            shape: Shape::Flaw(101),
        },
    }
}

/// The signs of two bytes that begin with `!`.
fn bang_sign(byte: u8) -> Option<TokenForm>
    ensures { result ≡ bang_sign byte }
{
    match byte {
        b'=' => Some(TokenForm::NotEqual),
        b'~' => Some(TokenForm::NotAlike),
        _ => None,
    }
}

/// The sign that `!` and the byte behind it are.
#[tactic(auto, unfolding(crate::specs::Shapes::bang_before))]
fn bang_before(rest: &[u8]) -> Option<TokenForm>
    ensures { result ≡ bang_before rest.now }
{
    match rest {
        [_, second, ..] => bang_sign(*second),
        _ => None,
    }
}

/// `!=`, `!~` or a negated word, or `!` alone.
#[tactic(auto, using(crate::proofs::SignFronts::bang_fronts))]
fn bang_front(rest: &[u8]) -> Front
    requires some { 0 < length rest.now }
    requires class { class_of (slice_index rest.now 0) ≡ Class.Bang }
    ensures { IsFront rest.now result }
{
    match bang_before(rest) {
        Some(form) => Front {
            size: 2,
            shape: Shape::Plain(form),
        },
        None => negated_front(rest),
    }
}

/// A negated word, or `!` alone.
fn negated_front(rest: &[u8]) -> Front
    requires some { 0 < length rest.now }
    requires class { class_of (slice_index rest.now 0) ≡ Class.Bang }
    requires no_sign { bang_before rest.now ≡ None }
    ensures { IsFront rest.now result }
{
    match word_before(&NEGATED_WORDS, &rest[1..]) {
        Some(keyword) => Front {
            size: 1 + keyword.text().len(),
            shape: Shape::Plain(TokenForm::Negated(keyword)),
        },
        None => Front {
            size: 1,
            shape: Shape::Flaw(101),
        },
    }
}

/// A comment, or `/`.
#[tactic(auto, using(crate::proofs::FrontFacts::slash_fronts))]
fn slash_front(rest: &[u8]) -> Front
    requires some { 0 < length rest.now }
    requires class { class_of (slice_index rest.now 0) ≡ Class.Slash }
    ensures { IsFront rest.now result }
{
    if rest.len() > 1 && rest[1] == b'/' {
        return Front {
            size: line_len(rest),
            shape: Shape::Gap,
        };
    }
    Front {
        size: 1,
        shape: Shape::Plain(TokenForm::Slash),
    }
}

/// The sign of one byte.
#[tactic(auto, unfolding(crate::specs::Pieces::sign))]
fn sign(byte: u8) -> Option<TokenForm>
    ensures { result ≡ sign byte }
{
    match byte {
        b'|' => Some(TokenForm::Bar),
        b'(' => Some(TokenForm::Open),
        b')' => Some(TokenForm::Close),
        b'[' => Some(TokenForm::OpenSquare),
        b']' => Some(TokenForm::CloseSquare),
        b',' => Some(TokenForm::Comma),
        b';' => Some(TokenForm::Semicolon),
        b':' => Some(TokenForm::Colon),
        b'.' => Some(TokenForm::Dot),
        b'=' => Some(TokenForm::Assign),
        b'<' => Some(TokenForm::Less),
        b'>' => Some(TokenForm::Greater),
        b'+' => Some(TokenForm::Plus),
        b'-' => Some(TokenForm::Minus),
        b'*' => Some(TokenForm::Star),
        b'%' => Some(TokenForm::Percent),
        _ => None,
    }
}

/// The sign of two bytes.
#[tactic(auto, unfolding(crate::specs::Pieces::double_sign))]
fn double_sign(first: u8, second: u8) -> Option<TokenForm>
    ensures { result ≡ double_sign first second }
{
    match (first, second) {
        (b'.', b'.') => Some(TokenForm::DotDot),
        (b'=', b'=') => Some(TokenForm::Equal),
        (b'=', b'~') => Some(TokenForm::Alike),
        (b'=', b'>') => Some(TokenForm::Arrow),
        (b'<', b'=') => Some(TokenForm::LessEqual),
        (b'>', b'=') => Some(TokenForm::GreaterEqual),
        _ => None,
    }
}

/// The sign of two bytes that the bytes begin with.
#[tactic(auto, unfolding(crate::specs::Shapes::double_front))]
fn double_front(rest: &[u8]) -> Option<TokenForm>
    ensures { result ≡ double_front rest.now }
{
    match rest {
        [first, second, ..] => double_sign(*first, *second),
        _ => None,
    }
}

/// The longest other sign, or the byte alone.
#[tactic(auto, using(crate::proofs::SignFronts::sign_fronts))]
fn sign_front(rest: &[u8]) -> Front
    requires some { 0 < length rest.now }
    requires class { class_of (slice_index rest.now 0) ≡ Class.Other }
    ensures { IsFront rest.now result }
{
    if let Some(form) = double_front(rest) {
        return Front {
            size: 2,
            shape: Shape::Plain(form),
        };
    }
    match sign(rest[0]) {
        Some(form) => Front {
            size: 1,
            shape: Shape::Plain(form),
        },
        None => Front {
            size: 1,
            shape: Shape::Flaw(101),
        },
    }
}

/// The longest piece that the bytes begin with. `plain` says that no double quote in them is followed by one that
/// would close it, and then the same of the bytes behind the piece.
#[tactic(auto, using(crate::proofs::FrontFacts::plain_steps))]
pub(crate) fn front(rest: &[u8], plain: &mut bool) -> Front
    requires some { 0 < length rest.now }
    requires plain { IsPlain plain.old rest.now }
    ensures front { IsFront rest.now result }
    ensures plain { IsPlain plain.new (drop result.size rest.now) }
{
    match class_of(rest[0]) {
        Class::Blank => blank_front(rest),
        Class::Letter => letter_front(rest, plain),
        Class::Digit => number_front(rest),
        Class::Quote => string_front(rest),
        Class::At => at_front(rest),
        Class::Dollar => dollar_front(rest),
        Class::Bang => bang_front(rest),
        Class::Slash => slash_front(rest),
        Class::Other => sign_front(rest),
    }
}
