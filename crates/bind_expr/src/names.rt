//! Names: columns, and constants where no column has the name.
ghost use Rattle.std.specs.Prelude.{◌≡◌, Ok};
ghost use Rattle.bind_expr.specs.Outcome.{Answers};
ghost use Rattle.bind_expr.specs.Names.{const_named, const_or_fault, name_bound, text_of, word_bound};

use crate::fault::BindFault;
use crate::literals::literal;
use crate::scope::{Const, Scope};
use crate::typed::{Typed, with_kind};
use kql_bound::BExpr;
use kql_cells::{KText, clone_value};
use kql_lexer::Place;
use kql_meaning::column_kind;
use kql_syntax::Name;
use std::alloc::Global;

#[tactic(auto, using(crate::proofs::AnswerFacts::answer_steps), unfolding(crate::specs::Names::const_named))]
fn bind_const(alloc: Global, place: Place, consts: &[Const], name: &str) -> Result<Typed, BindFault>
    ensures exact { Answers result (const_or_fault place (const_named name.now consts.now)) }
{
    let mut left = consts;
    'consts: while let [c, more @ ..] = left {
        if c.name.as_str() == name {
            return match clone_value(alloc, &c.value) {
                Ok(value) => literal(alloc, c.kind, value),
                Err(_) => Err(BindFault::OutOfMemory),
            };
        }
        left = more;
    }
    Err(BindFault::Refused { code: 401, place })
}

#[tactic(auto, using(crate::proofs::AnswerFacts::answer_steps), unfolding(crate::specs::Names::word_bound))]
fn bind_word(alloc: Global, place: Place, name: &KText, scope: &Scope) -> Result<Typed, BindFault>
    ensures exact { Answers result (word_bound place name.now scope.now) }
{
    match column_kind(name.as_str(), scope.schema.columns()) {
        Some(kind) => match name.copy(alloc) {
            Ok(name) => with_kind(alloc, BExpr::Column(name), kind),
            Err(_) => Err(BindFault::OutOfMemory),
        },
        None => bind_const(alloc, place, scope.consts.as_slice(), name.as_str()),
    }
}

/// A column, a constant, or 401.
#[tactic(auto, using(crate::proofs::AnswerFacts::answer_steps), unfolding(crate::specs::Names::name_bound))]
pub fn bind_name(alloc: Global, n: &Name, scope: &Scope) -> Result<Typed, BindFault>
    ensures exact { Answers result (name_bound n.now scope.now) }
{
    match n {
        Name::Bare(word) => bind_word(alloc, word.place, &word.text, scope),
        Name::Quoted(place, name) => bind_word(alloc, *place, name, scope),
    }
}

/// The text of a name.
#[tactic(auto, unfolding(crate::specs::Names::text_of))]
pub(crate) fn text_of(n: &Name) -> &str
    ensures { result.now ≡ text_of n.now }
{
    match n {
        Name::Bare(word) => word.text.as_str(),
        Name::Quoted(_, name) => name.as_str(),
    }
}
