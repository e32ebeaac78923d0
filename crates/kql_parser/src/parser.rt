ghost use Rattle.kql_parser.specs.Limits.{Limited, Unlimited};
ghost use Rattle.kql_parser.specs.Parsing.{Parses};

use crate::lets::query;
use crate::limits::limit;
use kql_lexer::{Token, Tokens};
use kql_syntax::reader::Fault;
use kql_syntax::{Query, SyntaxFault, place_of};
use std::alloc::Global;

/// Reads tokens of which none is too much.
fn parse_within(alloc: Global, ts: &[Token]) -> Result<Query, SyntaxFault>
    requires { Unlimited ts.now }
    ensures { Parses ts.now result }
{
    match query(alloc, ts, 0) {
        Ok(read) => {
            let (tree, end) = read;
            let size = ts.len();
            if end == size {
                return Ok(tree);
            }
            Err(SyntaxFault::Refused {
                code: 201,
                place: place_of(ts, end),
            })
        }
        Err(Fault::Refused(end)) => Err(SyntaxFault::Refused {
            code: 201,
            place: place_of(ts, end),
        }),
        Err(Fault::OutOfMemory) => Err(SyntaxFault::OutOfMemory),
    }
}

/// Refuses tokens of which one is too much: there, or before.
fn parse_beyond(alloc: Global, ts: &[Token], top: usize, code: u32) -> Result<Query, SyntaxFault>
    requires { Limited ts.now top code }
    ensures { Parses ts.now result }
{
    match query(alloc, &ts[..top + 1], 0) {
        Ok(read) => Err(SyntaxFault::Refused {
            code: 201,
            place: place_of(ts, read.1),
        }),
        Err(Fault::Refused(end)) => {
            if end <= top {
                return Err(SyntaxFault::Refused {
                    code: 201,
                    place: place_of(ts, end),
                });
            }
            Err(SyntaxFault::Refused {
                code,
                place: place_of(ts, top),
            })
        }
        Err(Fault::OutOfMemory) => Err(SyntaxFault::OutOfMemory),
    }
}

/// Reads a query: all tokens, with the end mark.
///
/// It is refused with 201 at the token after the longest tokens that begin a query, with 202 at the 65th bracket that is
/// open, and with 203 at the 257th operator's name; the words `range`, `print` and `union` of sources count too. The
/// earliest token counts, and at one token 201 goes before 202 and 203. Where the tokens end before the query does, 201
/// stands at the last one.
pub fn parse(alloc: Global, tokens: &Tokens) -> Result<Query, SyntaxFault>
    ensures parsed { Parses tokens.now result }
{
    let ts = tokens.as_slice();
    match limit(ts) {
        None => parse_within(alloc, ts),
        Some((top, code)) => parse_beyond(alloc, ts, top, code),
    }
}
