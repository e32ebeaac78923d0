//! Numbers and spans.

ghost use Rattle.std.specs.Prelude.{◌≡◌, ◌+◌, ◌<◌, ◌≤◌, true, if◌then◌else◌, length, slice_index};
ghost use Rattle.std.specs.List.{list_all};
ghost use Rattle.std.specs.Str.{IsAscii};
ghost use Rattle.kql_lexer.specs.Bytes.{class_of};
ghost use Rattle.kql_lexer.specs.Numbers.{decimal_of, hexadecimal, hexadecimal_of, hex_value, in_long, is_hex_digit, has_fraction, number_form, number_len};
ghost use Rattle.kql_lexer.specs.Pieces.{or_flaw};
ghost use Rattle.kql_lexer.specs.Shapes.{Fits, IsFront, piece_as};
ghost use Rattle.kql_lexer.specs.declared.classes.Class.TheVariants as class;

use crate::classes::{digit_len, is_digit, word_len};
use crate::forms::ascii;
use crate::token::{Front, Shape, TokenForm};
use kql_ticks::read_span;

/// A number within a long's range.
fn in_long(value: u64) -> Option<i64>
    ensures { result ≡ in_long value }
{
    if value <= i64::MAX as u64 {
        Some(value as i64)
    } else {
        None
    }
}

/// The value of decimal digits within a long's range.
#[tactic(auto, using(crate::proofs::NumberFacts::decimal_steps))]
fn decimal(bytes: &[u8]) -> Option<i64>
    ensures { result ≡ decimal_of bytes.now }
{
    let mut value: u64 = 0;
    for byte in bytes {
        if !is_digit(*byte) {
            return None;
        }
        value = value
            .saturating_mul(10)
            .saturating_add(u64::from(*byte - b'0'));
    }
    in_long(value)
}

#[tactic(auto, unfolding(crate::specs::Numbers::is_hex_digit))]
fn is_hex_digit(byte: u8) -> bool
    ensures { result ≡ is_hex_digit byte }
{
    is_digit(byte) || (b'A' <= byte && byte <= b'F') || (b'a' <= byte && byte <= b'f')
}

/// The value of a hexadecimal digit.
#[tactic(auto, unfolding(crate::specs::Numbers::hex_value))]
fn hex_value(byte: u8) -> u8
    requires { 48 ≤ byte }
    ensures { result ≡ hex_value byte }
{
    if b'a' <= byte {
        byte - 87
    } else if b'A' <= byte {
        byte - 55
    } else {
        byte - 48
    }
}

/// The value of hexadecimal digits within a long's range.
#[tactic(auto, using(crate::proofs::NumberFacts::hexadecimal_steps))]
fn hexadecimal_digits(bytes: &[u8]) -> Option<i64>
    ensures { result ≡ (if list_all is_hex_digit bytes.now then in_long (hexadecimal bytes.now) else None) }
{
    let mut value: u64 = 0;
    for byte in bytes {
        if !is_hex_digit(*byte) {
            return None;
        }
        value = value
            .saturating_mul(16)
            .saturating_add(u64::from(hex_value(*byte)));
    }
    in_long(value)
}

/// The value of `0x` and hexadecimal digits within a long's range.
#[tactic(auto, unfolding(crate::specs::Numbers::hexadecimal_of))]
fn hexadecimal(bytes: &[u8]) -> Option<i64>
    ensures { result ≡ hexadecimal_of bytes.now }
{
    if bytes.len() < 3 || bytes[0] != b'0' || bytes[1] != b'x' {
        return None;
    }
    hexadecimal_digits(&bytes[2..])
}

/// The number or the span that bytes are.
#[tactic(auto, unfolding(crate::specs::Numbers::number_form))]
fn number_form(bytes: &[u8]) -> Option<TokenForm>
    requires { IsAscii bytes.now }
    ensures { result ≡ number_form bytes.now }
{
    if let Some(value) = decimal(bytes) {
        return Some(TokenForm::Number(value));
    }
    if let Some(value) = hexadecimal(bytes) {
        return Some(TokenForm::Number(value));
    }
    match read_span(ascii(bytes)) {
        Some(ticks) => Some(TokenForm::Span(ticks)),
        None => None,
    }
}

/// A number or a span, or the flaw that stands for it.
fn number_or_flaw(bytes: &[u8]) -> Shape
    requires { IsAscii bytes.now }
    ensures shape { piece_as result bytes.now ≡ or_flaw 103 (number_form bytes.now) }
    ensures fits { Fits result bytes.now }
{
    match number_form(bytes) {
        Some(form) => Shape::Plain(form),
        None => Shape::Flaw(103),
    }
}

/// Whether a point and a digit stand at `at`.
#[tactic(auto, using(crate::proofs::NumberFacts::fraction_steps), unfolding(crate::specs::Numbers::has_fraction))]
fn has_fraction(rest: &[u8], at: usize) -> bool
    requires { at ≤ length rest.now }
    ensures value { result ≡ has_fraction rest.now at }
    ensures within { result ≡ true → at + 1 < length rest.now }
{
    if rest.len() - at < 2 {
        return false;
    }
    rest[at] == b'.' && is_digit(rest[at + 1])
}

/// How many bytes a number takes: all word characters that stand there, and a point where a digit follows.
#[tactic(auto, using(crate::proofs::NumberFronts::number_fronts, crate::proofs::NumberFacts::number_steps), unfolding(crate::specs::Numbers::number_len))]
fn number_len(rest: &[u8]) -> usize
    ensures len { result ≡ number_len rest.now }
    ensures within { result ≤ length rest.now }
{
    let digits = digit_len(rest);
    if has_fraction(rest, digits) {
        digits + 1 + word_len(&rest[digits + 1..])
    } else {
        word_len(rest)
    }
}

/// The longest number.
#[tactic(auto, using(crate::proofs::NumberFronts::number_fronts))]
pub(crate) fn number_front(rest: &[u8]) -> Front
    requires some { 0 < length rest.now }
    requires class { class_of (slice_index rest.now 0) ≡ class.Digit }
    ensures { IsFront rest.now result }
{
    let size = number_len(rest);
    Front {
        size,
        shape: number_or_flaw(&rest[..size]),
    }
}
