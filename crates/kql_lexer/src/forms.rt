//! The tokens of pieces whose shapes are known, with their texts.

ghost use Rattle.std.specs.Prelude.{◌≡◌, ◌+◌, ◌<◌, length, IfOk};
ghost use Rattle.std.specs.Str.{IsAscii, IsUtf8};
ghost use Rattle.kql_lexer.specs.Shapes.{Fits, HasEnds, Reads, piece_as, token_of};
ghost use Rattle.kql_lexer.specs.Strings.{between};

use crate::strings::{halve, unescape};
use crate::token::{Shape, TokenForm};
use kql_cells::KText;
use std::alloc::{AllocError, Global};
use std::str::from_utf8;

/// ASCII bytes as a text.
#[tactic(auto, using(crate::proofs::FrontFacts::ascii_text))]
pub(crate) fn ascii(bytes: &[u8]) -> &str
    requires { IsAscii bytes.now }
    ensures { result.now ≡ bytes.now }
{
    match from_utf8(bytes) {
        Ok(text) => text,
        Err(_) => unreachable!(),
    }
}

/// The bytes between byte `k` and the last byte.
fn between(bytes: &[u8], k: usize) -> &[u8]
    requires { k + 1 < length bytes.now }
    ensures { result.now ≡ between k bytes.now }
{
    &bytes[k + 1..bytes.len() - 1]
}

/// A copy of the bytes between byte `k` and the last byte.
#[tactic(auto, using(crate::proofs::TextFacts::between_utf8))]
fn raw_text(alloc: Global, bytes: &[u8], k: usize) -> Result<KText, AllocError>
    requires ends { HasEnds k bytes.now }
    requires utf8 { IsUtf8 bytes.now }
    ensures text { IfOk result (λ text. text ≡ between k bytes.now) }
{
    match from_utf8(between(bytes, k)) {
        Ok(text) => KText::from_str(alloc, text),
        Err(_) => unreachable!(),
    }
}

/// The token of a piece that is one.
#[tactic(auto, using(crate::proofs::TextFacts::between_utf8))]
pub(crate) fn form(
    alloc: Global,
    bytes: &[u8],
    shape: Shape,
) -> Result<Option<TokenForm>, AllocError>
    requires fits { Fits shape bytes.now }
    requires reads { Reads shape bytes.now }
    ensures form { IfOk result (λ form. form ≡ token_of (piece_as shape bytes.now)) }
{
    match shape {
        Shape::Gap => Ok(None),
        Shape::Flaw(_) => Ok(None),
        Shape::Plain(form) => Ok(Some(form)),
        Shape::Word(keyword) => {
            let text = KText::from_str(alloc, ascii(bytes))?;
            Ok(Some(TokenForm::Word(keyword, text)))
        }
        Shape::Quoted => {
            let text = unescape(alloc, between(bytes, 0))?;
            Ok(Some(TokenForm::Text(text)))
        }
        Shape::Verbatim => {
            let text = halve(alloc, bytes[1], between(bytes, 1))?;
            Ok(Some(TokenForm::Text(text)))
        }
        Shape::Typed(keyword, at) => {
            let text = raw_text(alloc, bytes, at)?;
            Ok(Some(TokenForm::Typed(keyword, text)))
        }
    }
}
