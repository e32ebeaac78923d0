ghost use Rattle.std.specs.Prelude.{◌≡◌, ◌≤◌, ◌-◌, ◌^◌, None, Some, IfOk, if◌then◌else◌, is_some, min, neg_ℤ, option_and_then, option_map, pos, reverse};
ghost use Rattle.std.specs.List.{list_all};
ghost use Rattle.typed_literals.specs.Reading.{begins_blank, behind_blanks, bool_read, hexadecimal_number, hexadecimal_read, json_read, kind_of_word, long_read, trimmed, value_or_null, value_read};
ghost use Rattle.kql_lexer.specs.Bytes.{is_blank, is_digit};
ghost use Rattle.kql_lexer.specs.Numbers.{hex_value, hexadecimal, is_hex_digit};
ghost use Rattle.kql_ticks.specs.Ranges.{fit};
ghost use Rattle.serde_json.specs.Read.{read as read_text};

use kql_cells::{Kind, Value, read_long};
use kql_dynamic::parse_json;
use kql_lexer::Keyword;
use kql_ticks::{read_moment, read_span};
use serde_json::Value as Json;
use std::alloc::{AllocError, Global};

/// The type of a type word; none of a word of a type that the language leaves out.
#[tactic(auto, unfolding(crate::specs::Reading::kind_of_word))]
pub fn kind_of_word(word: Keyword) -> Option<Kind>
    ensures kind { result ≡ kind_of_word word }
{
    match word {
        Keyword::Bool => Some(Kind::Bool),
        Keyword::Long => Some(Kind::Long),
        Keyword::Datetime => Some(Kind::Moment),
        Keyword::Timespan => Some(Kind::Span),
        Keyword::Time => Some(Kind::Span),
        Keyword::Dynamic => Some(Kind::Dynamic),
        _ => None,
    }
}

#[tactic(auto, unfolding(kql_lexer::specs::Bytes::is_blank))]
fn is_blank(byte: u8) -> bool
    ensures { result ≡ is_blank byte }
{
    byte == b' ' || byte == b'\t' || byte == b'\r' || byte == b'\n'
}

/// Whether a text begins with a blank.
#[tactic(auto, unfolding(crate::specs::Reading::begins_blank))]
fn begins_blank(text: &str) -> bool
    ensures { result ≡ begins_blank text.now }
{
    match text.as_bytes() {
        [] => false,
        [byte, ..] => is_blank(*byte),
    }
}

/// Whether a text ends with a blank.
#[tactic(auto, using(crate::proofs::BlankSteps::last_steps))]
fn ends_blank(text: &str) -> bool
    ensures { result ≡ begins_blank (reverse text.now) }
{
    match text.as_bytes() {
        [] => false,
        [.., byte] => is_blank(*byte),
    }
}

#[tactic(auto, using(crate::proofs::BlankSteps::front_steps))]
fn behind_blanks(text: &str) -> &str
    ensures { result.now ≡ behind_blanks text.now }
{
    let mut left = text;
    'blanks: while begins_blank(left) {
        left = &left[1..];
    }
    left
}

#[tactic(auto, using(crate::proofs::BlankSteps::back_steps))]
fn before_blanks(text: &str) -> &str
    ensures { result.now ≡ reverse (behind_blanks (reverse text.now)) }
{
    let mut left = text;
    'blanks: while ends_blank(left) {
        left = &left[..left.len() - 1];
    }
    left
}

/// A text without the blanks at its ends: spaces, tabs, carriage returns and line feeds.
#[tactic(auto, unfolding(crate::specs::Reading::trimmed))]
pub fn trimmed(text: &str) -> &str
    ensures trimmed { result.now ≡ trimmed text.now }
{
    before_blanks(behind_blanks(text))
}

#[tactic(auto, unfolding(crate::specs::Reading::bool_read))]
fn bool_read(text: &str) -> Option<bool>
    ensures { result ≡ bool_read text.now }
{
    if text == "true" {
        Some(true)
    } else if text == "false" {
        Some(false)
    } else {
        None
    }
}

#[tactic(auto, unfolding(kql_lexer::specs::Numbers::is_hex_digit, kql_lexer::specs::Bytes::is_digit))]
fn is_hex_digit(byte: u8) -> bool
    ensures { result ≡ is_hex_digit byte }
{
    (b'0' <= byte && byte <= b'9')
        || (b'A' <= byte && byte <= b'F')
        || (b'a' <= byte && byte <= b'f')
}

/// The value of a hexadecimal digit.
#[tactic(auto, unfolding(kql_lexer::specs::Numbers::hex_value))]
fn hex_value(byte: u8) -> u8
    requires { 48 ≤ byte }
    ensures { result ≡ hex_value byte }
{
    if b'a' <= byte {
        byte - 87
    } else if b'A' <= byte {
        byte - 55
    } else {
        byte - 48
    }
}

/// The number that hexadecimal digits spell, at most the greatest of 64 bits; none where one is no digit.
#[tactic(auto, using(crate::proofs::HexSteps::digit_steps))]
fn hexadecimal_digits(bytes: &[u8]) -> Option<u64>
    ensures { result ≡ (if list_all is_hex_digit bytes.now then Some (min (hexadecimal bytes.now) (2 ^ 64 - 1)) else None) }
{
    let mut value: u64 = 0;
    'digits: for byte in bytes {
        if !is_hex_digit(*byte) {
            return None;
        }
        value = value
            .saturating_mul(16)
            .saturating_add(u64::from(hex_value(*byte)));
    }
    Some(value)
}

#[tactic(auto, unfolding(crate::specs::Reading::hexadecimal_number))]
fn hexadecimal_number(bytes: &[u8]) -> Option<u64>
    ensures { result ≡ option_map (λ n. min n (2 ^ 64 - 1)) (hexadecimal_number bytes.now) }
{
    if bytes.len() < 3 || bytes[0] != b'0' || bytes[1] != b'x' {
        return None;
    }
    hexadecimal_digits(&bytes[2..])
}

#[tactic(auto, unfolding(kql_ticks::specs::Ranges::fit))]
fn fit(x: i128) -> Option<i64>
    ensures { result ≡ fit x }
{
    if x < i64::MIN as i128 || x > i64::MAX as i128 {
        return None;
    }
    Some(x as i64)
}

#[tactic(auto, using(crate::proofs::HexSteps::sign_steps))]
fn positive_read(bytes: &[u8]) -> Option<i64>
    ensures { result ≡ option_and_then (λ n. fit (pos n)) (hexadecimal_number bytes.now) }
{
    match hexadecimal_number(bytes) {
        Some(n) => fit(n as i128),
        None => None,
    }
}

#[tactic(auto, using(crate::proofs::HexSteps::sign_steps))]
fn negative_read(bytes: &[u8]) -> Option<i64>
    ensures { result ≡ option_and_then (λ n. fit (neg_ℤ (pos n))) (hexadecimal_number bytes.now) }
{
    match hexadecimal_number(bytes) {
        Some(n) => fit(-(n as i128)),
        None => None,
    }
}

// A hexadecimal number, with a minus before it or none, in a long's range.
#[tactic(auto, using(crate::proofs::HexSteps::read_steps), unfolding(crate::specs::Reading::hexadecimal_read))]
fn hexadecimal_read(bytes: &[u8]) -> Option<i64>
    ensures { result ≡ hexadecimal_read bytes.now }
{
    if bytes.is_empty() {
        return None;
    }
    if bytes[0] == b'-' {
        negative_read(&bytes[1..])
    } else {
        positive_read(bytes)
    }
}

#[tactic(auto, unfolding(crate::specs::Reading::long_read))]
fn long_read(text: &str) -> Option<i64>
    ensures { result ≡ long_read text.now }
{
    match read_long(text) {
        Some(n) => Some(n),
        None => hexadecimal_read(text.as_bytes()),
    }
}

/// Whether `serde_json` reads a text.
fn is_json(alloc: Global, text: &str) -> Result<bool, AllocError>
    ensures reads { IfOk result (λ b. b ≡ is_some (read_text text.now)) }
{
    match Json::from_str(alloc, text) {
        Ok(json) => {
            drop(json);
            Ok(true)
        }
        Err(e) => {
            if e.is_memory() {
                Err(AllocError)
            } else {
                Ok(false)
            }
        }
    }
}

#[tactic(auto, using(crate::proofs::HexSteps::json_steps))]
fn json_read(alloc: Global, text: &str) -> Result<Option<Value>, AllocError>
    ensures value { IfOk result (λ v. v ≡ json_read text.now) }
{
    if !is_json(alloc, text)? {
        return Ok(None);
    }
    let value = parse_json(alloc, text)?;
    Ok(Some(value))
}

// The value that a text without blanks at its ends is, of this type.
#[tactic(auto, unfolding(crate::specs::Reading::value_read))]
fn value_read(alloc: Global, kind: Kind, text: &str) -> Result<Option<Value>, AllocError>
    ensures value { IfOk result (λ v. v ≡ value_read kind text.now) }
{
    match kind {
        Kind::Bool => Ok(bool_read(text).map(Value::Bool)),
        Kind::Long => Ok(long_read(text).map(Value::Long)),
        Kind::Text => Ok(None),
        Kind::Moment => Ok(read_moment(text).map(Value::Moment)),
        Kind::Span => Ok(read_span(text).map(Value::Span)),
        Kind::Dynamic => json_read(alloc, text),
    }
}

/// The value that a text without blanks at its ends is, of this type, or null; none where it does not read. Only a dynamic value wants memory.
#[tactic(auto, unfolding(crate::specs::Reading::value_or_null))]
pub fn value_or_null(alloc: Global, kind: Kind, text: &str) -> Result<Option<Value>, AllocError>
    ensures value { IfOk result (λ v. v ≡ value_or_null kind text.now) }
{
    if text == "null" {
        return Ok(Some(Value::Null));
    }
    value_read(alloc, kind, text)
}
