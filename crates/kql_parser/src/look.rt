//! Whether a pipe stands at a place, and no expression.

ghost use Rattle.std.specs.Bool.{OnTrue, OnFalse};
ghost use Rattle.kql_parser.specs.Piped.{Piped, Unpiped};

use kql_lexer::{Keyword, Token};
use kql_operators::name_end;
use kql_syntax::Class;
use kql_syntax::reader::take;

/// Whether the word of a source stands here, or a name with a bar behind it: then a pipe stands here, and no expression.
pub(crate) fn is_piped(ts: &[Token], at: usize) -> bool
    ensures yes { OnTrue result (Piped ts.now at) }
    ensures no { OnFalse result (Unpiped ts.now at) }
{
    if let Some(_word) = take(
        ts,
        at,
        &[
            Class::Key(Keyword::Range),
            Class::Key(Keyword::Print),
            Class::Key(Keyword::Union),
        ],
    ) {
        return true;
    }
    match name_end(ts, at) {
        Some(end) => match take(ts, end, &[Class::Bar]) {
            Some(_bar) => true,
            None => false,
        },
        None => false,
    }
}
