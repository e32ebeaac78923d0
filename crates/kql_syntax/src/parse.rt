//! Expressions read from a list of tokens: where one ends, or where and why none stands there.

ghost use Rattle.std.specs.Prelude.{◌≡◌, ◌+◌, ◌^◌, ◌<◌, ◌≤◌, length, IfSome};
ghost use Rattle.kql_syntax.specs.Levels.{Level};
ghost use Rattle.kql_syntax.specs.Forms.{level};
ghost use Rattle.kql_syntax.specs.Parsing.{too_deep, place_of, Parses};

use crate::class::{Class, has};
use crate::reader::{Fault, expr};
use crate::tree::Expr;
use kql_lexer::{Place, Token, Tokens};
use std::alloc::Global;
use thiserror::Error;

/// How many brackets may be open.
const DEPTH_TOP: usize = 64;

/// Why tokens are refused.
#[derive(Clone, Copy, Debug, PartialEq, Eq, Error)]
pub enum SyntaxFault {
    /// 201 at the token that follows the longest beginning of what was to be read, 202 at the 65th bracket that is open, and of a
    /// query 203 at the name of the 257th operator.
    #[error("{code} at line {}, column {}", .place.line, .place.column)]
    Refused { code: u32, place: Place },
    #[error("out of memory")]
    OutOfMemory,
}

/// The index of the first bracket that opens where 64 are open, in tokens that begin at index `at`.
#[tactic(auto, unfolding(crate::specs::Parsing::too_deep))]
pub fn too_deep(ts: &[Token], at: usize) -> Option<usize>
    requires { at + length ts.now < 2 ^ 64 }
    ensures deep { result ≡ too_deep at 0 ts.now }
    ensures within { IfSome result (λ w. (at ≤ w) × (w < at + length ts.now)) }
{
    let mut left = ts;
    let mut next = at;
    let mut unclosed = 0;
    'left: while let Some((token, rest)) = left.split_first() {
        if has(&[Class::Open, Class::OpenSquare], &token.form) {
            if unclosed >= DEPTH_TOP {
                return Some(next);
            }
            unclosed += 1;
        } else if has(&[Class::Close, Class::CloseSquare], &token.form) {
            unclosed = usize::saturating_sub(unclosed, 1);
        }
        next += 1;
        left = rest;
    }
    None
}

/// The place of the token with this index, or of the last token where there is none; of no tokens the start of a text.
pub fn place_of(ts: &[Token], at: usize) -> Place
    ensures place { result ≡ place_of ts.now at }
{
    match ts.get(usize::min(at, ts.len().saturating_sub(1))) {
        Some(token) => token.place,
        None => Place {
            line: 1,
            column: 1,
            byte: 0,
        },
    }
}

/// Reads the longest expression from a token on.
fn parse_from(alloc: Global, ts: &[Token], at: usize) -> Result<(Expr, usize), SyntaxFault>
    requires { at < length ts.now }
    ensures { Parses (level Level.Expr) ts.now at result }
{
    match too_deep(&ts[at..], at) {
        None => match expr(alloc, ts, at) {
            Ok(read) => Ok(read),
            Err(Fault::Refused(end)) => Err(SyntaxFault::Refused {
                code: 201,
                place: place_of(ts, end),
            }),
            Err(Fault::OutOfMemory) => Err(SyntaxFault::OutOfMemory),
        },
        Some(deep) => match expr(alloc, &ts[..deep + 1], at) {
            Ok(read) => Ok(read),
            Err(Fault::Refused(end)) => {
                if end <= deep {
                    return Err(SyntaxFault::Refused {
                        code: 201,
                        place: place_of(ts, end),
                    });
                }
                Err(SyntaxFault::Refused {
                    code: 202,
                    place: place_of(ts, deep),
                })
            }
            Err(Fault::OutOfMemory) => Err(SyntaxFault::OutOfMemory),
        },
    }
}

/// Reads the longest expression from a token on, and gives its tree and the index of the token after it.
///
/// It is refused with 201 at the token after the longest tokens that begin an expression, where these are none, and with
/// 202 at the 65th bracket that is open, counted from `at`; at one token 201 goes before 202. Where the tokens end before
/// the expression does, 201 stands at the last one.
pub fn parse_expr(alloc: Global, t: &Tokens, at: usize) -> Result<(Expr, usize), SyntaxFault>
    requires { at < length t.now }
    ensures parsed { Parses (level Level.Expr) t.now at result }
{
    parse_from(alloc, t.as_slice(), at)
}
