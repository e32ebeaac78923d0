ghost use Rattle.std.specs.Prelude.{◌≡◌, ◌+◌, ◌^◌, ◌++◌, ◌∷◌, ◌≤◌, ◌<◌, [], None, option_to_list, Ok, OnOk, IfOk, IfErr, List, ℕ, length, take, drop};
ghost use Rattle.std.specs.Str.{IsUtf8};
ghost use Rattle.std.specs.Str.Lossy.{utf8_valid_len};
ghost use Rattle.kql_lexer.specs.Answers.{IsFaultAt, IsFirstFault};
ghost use Rattle.kql_lexer.specs.Lexing.{IsReading, lexed, pieces, token_as, told_by};
ghost use Rattle.kql_lexer.specs.Pieces.{Piece};
ghost use Rattle.kql_lexer.specs.Places.{place_at};
ghost use Rattle.kql_lexer.specs.StringItems.{ItemsAreRead, StringsAreItems};
ghost use Rattle.kql_lexer.specs.Shapes.{Fits, IsFront, Reads, front_piece, halted, halted_as, piece_as, token_halt};

use crate::forms::form;
use crate::fronts::front;
use crate::place::{MAX_BYTES, Place};
use crate::token::{Front, Shape, Token, TokenForm, Tokens};
use kql_items::Items;
use std::alloc::{AllocError, Global};
use std::str::from_utf8;
use thiserror::Error;

/// The greatest number of tokens, the end mark not counted.
const MAX_TOKENS: usize = 65_536;

/// Why a text has no tokens.
#[derive(Clone, Copy, Debug, PartialEq, Eq, Error)]
pub enum LexFault {
    /// The text is refused: with 104 at its start where it is longer than `MAX_BYTES`, else with the code of the
    /// leftmost fault, at its place. 101 is a byte that begins no token or is not UTF-8, 102 a string or a typed
    /// literal that is not closed, 103 a bad number or an unknown escape, and 105 the 65,537th token.
    #[error("{code} at line {}, column {}", .place.line, .place.column)]
    Refused { code: u32, place: Place },
    #[error("out of memory")]
    OutOfMemory,
}

impl From<AllocError> for LexFault {
    ghost use Rattle.std.specs.Prelude.{◌≡◌};
    ghost use Rattle.kql_lexer.specs.declared.lexer.LexFault.TheVariants.{OutOfMemory};

    ghost from_gives = { λ _ e. e ≡ OutOfMemory };

    fn from(_error: AllocError) -> LexFault {
        LexFault::OutOfMemory
    }
}

/// How many bytes a text's longest front has that is UTF-8.
#[tactic(auto, using(crate::proofs::LexFacts::valid_steps))]
fn valid_len(text: &[u8]) -> usize
    ensures len { result ≡ utf8_valid_len text.now }
    ensures utf8 { IsUtf8 (take result text.now) }
    ensures within { result ≤ length text.now }
{
    match from_utf8(text) {
        Ok(text) => text.len(),
        Err(error) => error.valid_up_to(),
    }
}

/// The fault of a text whose longest front in UTF-8 has `valid` bytes.
fn bad_byte(text: &[u8], valid: usize) -> LexFault
    requires short { length text.now ≤ MAX_BYTES }
    requires within { valid ≤ length text.now }
    ensures { result ≡ LexFault.Refused 101 (place_at text.now valid) }
{
    let place = Place::start(text).past(text, 0, valid);
    LexFault::Refused { code: 101, place }
}

/// The fault that a piece tells, by its byte and its code: its own flaw, one token too many, or a byte in a token
/// that is not UTF-8.
fn halt(shape: &Shape, valid: usize, count: usize, at: usize, size: usize) -> Option<(usize, u32)>
    requires { at + size < 2 ^ 64 }
    ensures { result ≡ halted_as valid count at size shape.now }
{
    match shape {
        Shape::Gap => None,
        Shape::Flaw(code) => Some((at, *code)),
        _ => token_halt(valid, count, at, size),
    }
}

fn token_halt(valid: usize, count: usize, at: usize, size: usize) -> Option<(usize, u32)>
    requires { at + size < 2 ^ 64 }
    ensures { result ≡ token_halt valid count at size }
{
    if count == MAX_TOKENS {
        Some((at, 105))
    } else if valid < at + size {
        Some((valid, 101))
    } else {
        None
    }
}

/// Adds the token that a piece is.
fn push_form(
    alloc: Global,
    bytes: &[u8],
    shape: Shape,
    place: Place,
    tokens: &mut Tokens,
) -> Result<(), LexFault>
    requires fits { Fits shape bytes.now }
    requires reads { Reads shape bytes.now }
    ensures added { OnOk result (tokens.new ≡ tokens.old ++ option_to_list (token_as place (piece_as shape bytes.now))) }
    ensures memory { IfErr result (λ e. e ≡ LexFault.OutOfMemory) }
{
    match form(alloc, bytes, shape)? {
        Some(form) => {
            tokens.push(Token { place, form })?;
            Ok(())
        }
        None => Ok(()),
    }
}

/// Adds the token that a piece is, or answers the fault that it tells.
fn add(
    alloc: Global,
    text: &[u8],
    valid: usize,
    place: Place,
    at: usize,
    front: Front,
    tokens: &mut Tokens,
) -> Result<(), LexFault>
    requires short { length text.now ≤ MAX_BYTES }
    requires here { place ≡ place_at text.now at }
    requires utf8 { IsUtf8 (take valid text.now) }
    requires before { at ≤ valid }
    requires within { valid ≤ length text.now }
    requires front { IsFront (drop at text.now) front }
    ensures added { OnOk result (tokens.new ≡ tokens.old ++ option_to_list (token_as place (front_piece text.now at front))) }
    ensures sound { OnOk result (halted valid (length tokens.old) at front.size (front_piece text.now at front) ≡ None) }
    ensures fault { IfErr result (λ e. IsFaultAt text.now e (halted valid (length tokens.old) at front.size (front_piece text.now at front))) }
{
    let Front { size, shape } = front;
    match halt(&shape, valid, tokens.len(), at, size) {
        Some((byte, code)) => {
            let place = place.past(text, at, byte - at);
            Err(LexFault::Refused { code, place })
        }
        None => push_form(alloc, &text[at..at + size], shape, place, tokens),
    }
}

/// The tokens of a text, with the end mark last.
///
/// The text is read once, in time that grows with its length alone.
#[tactic(auto, using(crate::proofs::LexFacts::reading_steps))]
pub fn lex(alloc: Global, text: &[u8]) -> Result<Tokens, LexFault>
    ensures tokens { IfOk result (λ tokens. lexed text.now ≡ Ok tokens) }
    ensures refused { IfErr result (λ e. IsFirstFault e (lexed text.now)) }
{
    let mut place = Place::start(text);
    if text.len() > MAX_BYTES {
        return Err(LexFault::Refused { code: 104, place });
    }
    let valid = valid_len(text);
    let mut tokens = Items::new(alloc);
    let mut plain = false;
    let mut at = 0;
    while at < text.len() {
        if valid <= at {
            return Err(bad_byte(text, valid));
        }
        let found = front(&text[at..], &mut plain);
        let size = found.size;
        add(alloc, text, valid, place, at, found, &mut tokens)?;
        place = place.past(text, at, size);
        at += size;
    }
    if valid < text.len() {
        return Err(bad_byte(text, valid));
    }
    let form = TokenForm::End;
    tokens.push(Token { place, form })?;
    Ok(tokens)
}

/// The law of the definition: the longest pieces make up a text in exactly one way, and `lex` answers what that way
/// tells; and a string is its sign, items that are bytes or escapes, and its sign again. It calls `lex`.
#[tactic(auto, using(crate::proofs::ReadingFacts::has_reading, crate::proofs::ReadingFacts::one_way))]
pub fn one_reading(alloc: Global, text: &[u8]) -> Result<Tokens, LexFault>
    ensures covers { IsReading 0 text.now (pieces text.now) }
    ensures unique { (xs ys : List (ℕ × Piece)) → IsReading 0 text.now xs → IsReading 0 text.now ys → xs ≡ ys }
    ensures tokens { (parts : List (ℕ × Piece)) → IsReading 0 text.now parts → length text.now ≤ 262144 → IfOk result (λ tokens. told_by text.now parts ≡ Ok tokens) }
    ensures refused { (parts : List (ℕ × Piece)) → IsReading 0 text.now parts → length text.now ≤ 262144 → IfErr result (λ e. IsFirstFault e (told_by text.now parts)) }
    ensures items { ItemsAreRead }
    ensures strings { StringsAreItems }
{
    lex(alloc, text)
}
