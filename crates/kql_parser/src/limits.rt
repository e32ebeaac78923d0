//! Where a query has too much: the 65th bracket that is open, or the 257th operator.

ghost use Rattle.std.specs.Prelude.{IfSome, IfNone};
ghost use Rattle.kql_parser.specs.Limits.{Limited, Unlimited};

use crate::count::one_too_many;
use kql_lexer::Token;
use kql_syntax::too_deep;

/// The code of the refusal of a bracket that opens too deep.
const TOO_DEEP: u32 = 202;

/// The code of the refusal of an operator that is one too many.
const TOO_MANY: u32 = 203;

/// The index of the first token that is too much, with the code of its refusal.
pub(crate) fn limit(ts: &[Token]) -> Option<(usize, u32)>
    ensures some { IfSome result (λ l. Limited ts.now l.0 l.1) }
    ensures none { IfNone result (Unlimited ts.now) }
{
    match too_deep(ts, 0) {
        None => match one_too_many(ts) {
            None => None,
            Some(many) => Some((many, TOO_MANY)),
        },
        Some(deep) => match one_too_many(ts) {
            None => Some((deep, TOO_DEEP)),
            Some(many) => {
                if many < deep {
                    return Some((many, TOO_MANY));
                }
                Some((deep, TOO_DEEP))
            }
        },
    }
}
