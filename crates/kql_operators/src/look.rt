//! What stands at a place: a name, or a name and an `=`.

ghost use Rattle.std.specs.Prelude.{IfSome, IfNone};
ghost use Rattle.std.specs.Bool.{OnTrue, OnFalse};
ghost use Rattle.kql_operators.specs.Named.{NameEnds, NoName, Named, Nameless};

use kql_lexer::Token;
use kql_syntax::Class;
use kql_syntax::reader::{take, token_at};

/// The index of the token after the name that stands here.
pub fn name_end(ts: &[Token], at: usize) -> Option<usize>
    ensures some { IfSome result (λ end. NameEnds ts.now at end) }
    ensures none { IfNone result (NoName ts.now at) }
{
    if let Some(_word) = token_at(ts, at, &[Class::Name]) {
        return Some(at + 1);
    }
    let _open = take(ts, at, &[Class::OpenSquare])?;
    let _text = token_at(ts, at + 1, &[Class::Text])?;
    let _close = take(ts, at + 1 + 1, &[Class::CloseSquare])?;
    Some(at + 1 + 1 + 1)
}

/// Whether a name and an `=` stand here.
pub(crate) fn is_named(ts: &[Token], at: usize) -> bool
    ensures yes { OnTrue result (Named ts.now at) }
    ensures no { OnFalse result (Nameless ts.now at) }
{
    match name_end(ts, at) {
        Some(end) => match take(ts, end, &[Class::Assign]) {
            Some(_sign) => true,
            None => false,
        },
        None => false,
    }
}
