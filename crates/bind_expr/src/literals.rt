//! Literals.
ghost use Rattle.std.specs.Prelude.{◌≡◌, Ok};
ghost use Rattle.bind_expr.specs.Bound.{entry_key};
ghost use Rattle.bind_expr.specs.Outcome.{Answers};
ghost use Rattle.bind_expr.specs.Literals.{literal_bound, literal_of, read_or_fault, typed_literal};
ghost use Rattle.typed_literals.specs.Reading.{value_or_null};

use crate::fault::BindFault;
use crate::typed::{Typed, with_kind};
use kql_bound::{BExpr, Lit};
use kql_cells::{KText, Kind, Value};
use kql_lexer::{Keyword, Place};
use kql_syntax::{Literal, Word};
use std::alloc::Global;
use typed_literals::{kind_of_word, trimmed, value_or_null};

/// A literal of a type.
#[tactic(auto, using(crate::proofs::AnswerFacts::answer_steps))]
pub(crate) fn literal(alloc: Global, kind: Kind, value: Value) -> Result<Typed, BindFault>
    ensures exact { Answers result (Ok (literal_of kind value)) }
{
    with_kind(alloc, BExpr::Literal(Lit { kind, value }), kind)
}

#[tactic(auto, using(crate::proofs::AnswerFacts::answer_steps))]
fn read_or_fault(alloc: Global, place: Place, kind: Kind, text: &str) -> Result<Typed, BindFault>
    ensures exact { Answers result (read_or_fault place kind (value_or_null kind text.now)) }
{
    match value_or_null(alloc, kind, text) {
        Ok(read) => match read {
            Some(value) => literal(alloc, kind, value),
            None => Err(BindFault::Refused { code: 418, place }),
        },
        Err(_) => Err(BindFault::OutOfMemory),
    }
}

/// A typed literal: 405 where the language leaves out its type, and 418 where its text does not read.
#[tactic(auto, using(crate::proofs::AnswerFacts::answer_steps), unfolding(crate::specs::Literals::typed_literal))]
fn typed_literal(
    alloc: Global,
    place: Place,
    word: Keyword,
    text: &KText,
) -> Result<Typed, BindFault>
    ensures exact { Answers result (typed_literal place word text.now) }
{
    match kind_of_word(word) {
        Some(kind) => read_or_fault(alloc, place, kind, trimmed(text.as_str())),
        None => Err(BindFault::Refused { code: 405, place }),
    }
}

/// A literal as it is written.
#[tactic(auto, using(crate::proofs::AnswerFacts::answer_steps), unfolding(crate::specs::Literals::literal_bound))]
pub(crate) fn bind_literal(alloc: Global, l: &Literal) -> Result<Typed, BindFault>
    ensures exact { Answers result (literal_bound l.now) }
{
    match l {
        Literal::Number(_, n) => literal(alloc, Kind::Long, Value::Long(*n)),
        Literal::Span(_, n) => literal(alloc, Kind::Span, Value::Span(*n)),
        Literal::Text(_, text) => match text.copy(alloc) {
            Ok(text) => literal(alloc, Kind::Text, Value::Text(text)),
            Err(_) => Err(BindFault::OutOfMemory),
        },
        Literal::True(_) => literal(alloc, Kind::Bool, Value::Bool(true)),
        Literal::False(_) => literal(alloc, Kind::Bool, Value::Bool(false)),
        Literal::Typed(place, word, text) => typed_literal(alloc, *place, *word, text),
    }
}

/// What an entry of a dynamic value is looked for by: its name.
#[tactic(auto, using(crate::proofs::AnswerFacts::answer_steps))]
pub(crate) fn entry_key(alloc: Global, word: &Word) -> Result<Typed, BindFault>
    ensures exact { Answers result (Ok (entry_key word.now)) }
{
    match word.text.copy(alloc) {
        Ok(text) => literal(alloc, Kind::Text, Value::Text(text)),
        Err(_) => Err(BindFault::OutOfMemory),
    }
}
