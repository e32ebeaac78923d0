//! Strings: how far they go, and the texts that they hold.

ghost use Rattle.std.specs.Prelude.{◌≡◌, ◌+◌, ◌<◌, ◌≤◌, false, true, length, take, slice_index, Some, None, is_some, IsSome, IfOk};
ghost use Rattle.std.specs.Str.{IsUtf8};
ghost use Rattle.kql_lexer.specs.Bytes.{class_of, is_quote};
ghost use Rattle.kql_lexer.specs.Shapes.{AddsByte, AddsHalf, IsFront, kept_after};
ghost use Rattle.kql_lexer.specs.declared.classes.Class.TheVariants as class;
ghost use Rattle.kql_lexer.specs.Strings.{escape, halved, in_either, in_string, in_verbatim, leaves, unescaped};

use crate::classes::is_quote;
use crate::token::{Front, Shape};
use kql_cells::KText;
use std::alloc::{AllocError, Global};

/// How some of a string's bytes leave it.
#[derive(Clone, Copy, Debug, PartialEq, Eq)]
pub(crate) enum Inside {
    /// It goes on.
    Open,
    /// It goes on, with a byte behind a backslash.
    Kept,
    /// Its last sign was read; of a verbatim string, unless the same sign follows.
    Closed,
}

#[tactic(auto, unfolding(crate::specs::Strings::in_string))]
fn in_string(sign: u8, inside: Inside, byte: u8) -> Option<Inside>
    ensures { result ≡ in_string sign inside byte }
{
    match inside {
        Inside::Open => match byte {
            b'\n' => None,
            b'\\' => Some(Inside::Kept),
            _ if byte == sign => Some(Inside::Closed),
            _ => Some(Inside::Open),
        },
        Inside::Kept => match byte {
            b'\n' => None,
            _ => Some(Inside::Open),
        },
        Inside::Closed => None,
    }
}

#[tactic(auto, unfolding(crate::specs::Strings::in_verbatim))]
fn in_verbatim(sign: u8, inside: Inside, byte: u8) -> Option<Inside>
    ensures { result ≡ in_verbatim sign inside byte }
{
    match inside {
        Inside::Open => match byte {
            b'\n' => None,
            _ if byte == sign => Some(Inside::Closed),
            _ => Some(Inside::Open),
        },
        Inside::Kept => None,
        Inside::Closed => {
            if byte == sign {
                Some(Inside::Open)
            } else {
                None
            }
        }
    }
}

fn in_either(verbatim: bool, sign: u8, inside: Inside, byte: u8) -> Option<Inside>
    ensures { result ≡ in_either verbatim sign inside byte }
{
    if verbatim {
        in_verbatim(sign, inside, byte)
    } else {
        in_string(sign, inside, byte)
    }
}

/// How many bytes belong to a string, and how they leave it.
#[derive(Drop)]
struct Run {
    len: usize,
    inside: Inside,
}

/// How far a string goes, of its bytes behind its first sign.
#[tactic(auto, using(crate::proofs::StringFacts::run_steps))]
fn string_run(verbatim: bool, sign: u8, bytes: &[u8]) -> Run
    ensures within { result.len ≤ length bytes.now }
    ensures ran { leaves (in_either verbatim sign) Inside.Open (take result.len bytes.now) ≡ Some result.inside }
    ensures stopped { result.len < length bytes.now → in_either verbatim sign result.inside (slice_index bytes.now result.len) ≡ None }
{
    let mut inside = Inside::Open;
    for (i, byte) in bytes.iter().enumerate() {
        match in_either(verbatim, sign, inside, *byte) {
            Some(next) => inside = next,
            None => return Run { len: i, inside },
        }
    }
    Run {
        len: bytes.len(),
        inside,
    }
}

/// What a backslash and a byte stand for.
#[tactic(auto, unfolding(crate::specs::Strings::escape))]
fn escape(byte: u8) -> Option<u8>
    ensures { result ≡ escape byte }
{
    match byte {
        b'\\' => Some(b'\\'),
        b'"' => Some(b'"'),
        b'\'' => Some(b'\''),
        b'n' => Some(b'\n'),
        b'r' => Some(b'\r'),
        b't' => Some(b'\t'),
        _ => None,
    }
}

/// Whether a backslash stands before the next byte, or nothing behind an unknown escape.
#[tactic(auto, unfolding(crate::specs::Shapes::kept_after))]
fn kept_after(kept: bool, byte: u8) -> Option<bool>
    ensures { result ≡ kept_after kept byte }
{
    if kept {
        match escape(byte) {
            Some(_) => Some(false),
            None => None,
        }
    } else {
        Some(byte == b'\\')
    }
}

/// Whether each escape in a string's bytes stands for something.
#[tactic(auto, using(crate::proofs::TextFacts::known_steps))]
fn has_known_escapes(bytes: &[u8]) -> bool
    ensures { result ≡ is_some (unescaped false bytes.now) }
{
    let mut kept = false;
    for byte in bytes {
        match kept_after(kept, *byte) {
            Some(next) => kept = next,
            None => return false,
        }
    }
    !kept
}

/// The longest string, or its flaw.
pub(crate) fn string_front(rest: &[u8]) -> Front
    requires some { 0 < length rest.now }
    requires class { class_of (slice_index rest.now 0) ≡ class.Quote }
    ensures { IsFront rest.now result }
{
    let run = string_run(false, rest[0], &rest[1..]);
    let size = 1 + run.len;
    match run.inside {
        Inside::Open => Front {
            size,
            shape: Shape::Flaw(102),
        },
        Inside::Kept => Front {
            size,
            shape: Shape::Flaw(102),
        },
        Inside::Closed => {
            if has_known_escapes(&rest[1..size - 1]) {
                Front {
                    size,
                    shape: Shape::Quoted,
                }
            } else {
                Front {
                    size,
                    shape: Shape::Flaw(103),
                }
            }
        }
    }
}

/// The longest verbatim string, its flaw, or `@` alone.
pub(crate) fn at_front(rest: &[u8]) -> Front
    requires some { 0 < length rest.now }
    requires class { class_of (slice_index rest.now 0) ≡ class.At }
    ensures { IsFront rest.now result }
{
    if rest.len() < 2 {
        return Front {
            size: 1,
            shape: Shape::Flaw(101),
        };
    }
    if !is_quote(rest[1]) {
        return Front {
            size: 1,
            shape: Shape::Flaw(101),
        };
    }
    verbatim_front(rest)
}

/// The longest verbatim string, or its flaw.
fn verbatim_front(rest: &[u8]) -> Front
    requires some { 1 < length rest.now }
    requires class { class_of (slice_index rest.now 0) ≡ class.At }
    requires sign { is_quote (slice_index rest.now 1) ≡ true }
    ensures { IsFront rest.now result }
{
    let run = string_run(true, rest[1], &rest[2..]);
    let size = 2 + run.len;
    match run.inside {
        Inside::Open => Front {
            size,
            shape: Shape::Flaw(102),
        },
        Inside::Kept => Front {
            size,
            shape: Shape::Flaw(102),
        },
        Inside::Closed => Front {
            size,
            shape: Shape::Verbatim,
        },
    }
}

/// Adds what one more byte of a string tells, and says whether a backslash stands before the next.
#[tactic(auto, using(crate::proofs::TextFacts::adds_byte))]
fn push_meant(text: &mut Vec<u8>, kept: bool, byte: u8) -> Result<bool, AllocError>
    ensures added { IfOk result (λ next. AddsByte text.old.items text.new.items kept byte next) }
{
    if kept {
        match escape(byte) {
            Some(meant) => {
                text.push(meant)?;
                Ok(false)
            }
            None => Ok(false),
        }
    } else if byte == b'\\' {
        Ok(true)
    } else {
        text.push(byte)?;
        Ok(false)
    }
}

/// The text of a string's bytes.
pub(crate) fn unescape(alloc: Global, bytes: &[u8]) -> Result<KText, AllocError>
    requires utf8 { IsUtf8 bytes.now }
    requires known { IsSome (unescaped false bytes.now) }
    ensures text { IfOk result (λ text. unescaped false bytes.now ≡ Some text) }
{
    let mut text = Vec::with_capacity(alloc, bytes.len())?;
    let mut kept = false;
    for byte in bytes {
        kept = push_meant(&mut text, kept, *byte)?;
    }
    Ok(text_of(text))
}

/// Adds what one more byte of a verbatim string tells, and says whether it is the first of two signs.
#[tactic(auto, using(crate::proofs::TextFacts::adds_half))]
fn push_half(text: &mut Vec<u8>, sign: u8, half: bool, byte: u8) -> Result<bool, AllocError>
    ensures added { IfOk result (λ next. AddsHalf text.old.items text.new.items sign half byte next) }
{
    if half {
        if byte == sign {
            Ok(false)
        } else {
            text.push(byte)?;
            Ok(false)
        }
    } else {
        text.push(byte)?;
        Ok(byte == sign)
    }
}

/// The text of a verbatim string's bytes.
pub(crate) fn halve(alloc: Global, sign: u8, bytes: &[u8]) -> Result<KText, AllocError>
    requires utf8 { IsUtf8 bytes.now }
    requires sign { sign < 128 }
    ensures text { IfOk result (λ text. text ≡ halved sign false bytes.now) }
{
    let mut text = Vec::with_capacity(alloc, bytes.len())?;
    let mut half = false;
    for byte in bytes {
        half = push_half(&mut text, sign, half, *byte)?;
    }
    Ok(text_of(text))
}

/// Bytes as a text.
fn text_of(bytes: Vec<u8>) -> KText
    requires { IsUtf8 bytes.items }
    ensures { result ≡ bytes.items }
{
    match String::from_utf8(bytes) {
        Ok(text) => KText::from_string(text),
        Err(_) => unreachable!(),
    }
}
