//! What trees keep of single tokens.

ghost use Rattle.std.specs.Prelude.{◌≡◌, [], ◌∷◌, true, Some, IfOk};
ghost use Rattle.kql_syntax.specs.Classes.{has};
ghost use Rattle.kql_syntax.specs.Leaves.{text_in, word_of, literal_at, literal_of, word_op, negated_op, compare_op, compare_sign, in_op, in_sign, between_op, between_sign, sum_op, sum_sign, prod_op, prod_sign};
ghost use Rattle.kql_syntax.specs.Levels.{literals, comparisons, memberships, betweens};

use crate::class::Class;
use crate::tree::{
    BetweenOp, BetweenSign, CompareOp, CompareSign, InOp, InSign, Literal, ProdOp, ProdSign, SumOp,
    SumSign, Word,
};
use kql_cells::KText;
use kql_lexer::{Keyword, Token, TokenForm};
use std::alloc::{AllocError, Global};

/// The text of a word or a string; of any other token it is empty.
#[tactic(auto, unfolding(crate::specs::Leaves::text_in))]
pub fn text_in(alloc: Global, token: &Token) -> Result<KText, AllocError>
    ensures text { IfOk result (λ t. t ≡ text_in token.now.form) }
{
    match &token.form {
        TokenForm::Word(_, text) => text.copy(alloc),
        TokenForm::Text(text) => text.copy(alloc),
        _ => Ok(KText::new(alloc)),
    }
}

/// A word with its place.
pub(crate) fn word_of(alloc: Global, token: &Token) -> Result<Word, AllocError>
    ensures word { IfOk result (λ w. w ≡ word_of token.now) }
{
    let text = text_in(alloc, token)?;
    Ok(Word {
        place: token.place,
        text,
    })
}

/// A literal with its place.
#[tactic(auto, unfolding(crate::specs::Leaves::literal_at))]
pub(crate) fn literal_of(alloc: Global, token: &Token) -> Result<Literal, AllocError>
    ensures literal { IfOk result (λ l. l ≡ literal_of token.now) }
    ensures named { IfOk result (λ l. has literals token.now.form ≡ true → literal_at token.now.place token.now.form ≡ Some l) }
{
    let place = token.place;
    Ok(match &token.form {
        TokenForm::Number(value) => Literal::Number(place, *value),
        TokenForm::Span(ticks) => Literal::Span(place, *ticks),
        TokenForm::Text(text) => Literal::Text(place, text.copy(alloc)?),
        TokenForm::Typed(word, text) => Literal::Typed(place, *word, text.copy(alloc)?),
        TokenForm::Word(Keyword::False, _) => Literal::False(place),
        _ => Literal::True(place),
    })
}

/// What a word of comparison does.
#[tactic(auto, unfolding(crate::specs::Leaves::word_op))]
fn word_op(keyword: Keyword) -> Option<CompareOp>
    ensures { result ≡ word_op keyword }
{
    match keyword {
        Keyword::Contains => Some(CompareOp::Contains),
        Keyword::ContainsCs => Some(CompareOp::ContainsCs),
        Keyword::Startswith => Some(CompareOp::Startswith),
        Keyword::StartswithCs => Some(CompareOp::StartswithCs),
        Keyword::Endswith => Some(CompareOp::Endswith),
        Keyword::EndswithCs => Some(CompareOp::EndswithCs),
        Keyword::Has => Some(CompareOp::Has),
        Keyword::HasCs => Some(CompareOp::HasCs),
        _ => None,
    }
}

/// What `!` and a word of comparison do.
#[tactic(auto, unfolding(crate::specs::Leaves::negated_op))]
fn negated_op(keyword: Keyword) -> Option<CompareOp>
    ensures { result ≡ negated_op keyword }
{
    match keyword {
        Keyword::Contains => Some(CompareOp::NotContains),
        Keyword::ContainsCs => Some(CompareOp::NotContainsCs),
        Keyword::Startswith => Some(CompareOp::NotStartswith),
        Keyword::StartswithCs => Some(CompareOp::NotStartswithCs),
        Keyword::Endswith => Some(CompareOp::NotEndswith),
        Keyword::EndswithCs => Some(CompareOp::NotEndswithCs),
        Keyword::Has => Some(CompareOp::NotHas),
        Keyword::HasCs => Some(CompareOp::NotHasCs),
        _ => None,
    }
}

/// What a sign or word of comparison does.
#[tactic(auto, unfolding(crate::specs::Leaves::compare_op))]
fn compare_op(form: &TokenForm) -> Option<CompareOp>
    ensures { result ≡ compare_op form.now }
{
    match form {
        TokenForm::Equal => Some(CompareOp::Equal),
        TokenForm::NotEqual => Some(CompareOp::NotEqual),
        TokenForm::Alike => Some(CompareOp::Alike),
        TokenForm::NotAlike => Some(CompareOp::NotAlike),
        TokenForm::Less => Some(CompareOp::Less),
        TokenForm::LessEqual => Some(CompareOp::LessEqual),
        TokenForm::Greater => Some(CompareOp::Greater),
        TokenForm::GreaterEqual => Some(CompareOp::GreaterEqual),
        TokenForm::Word(keyword, _) => word_op(*keyword),
        TokenForm::Negated(keyword) => negated_op(*keyword),
        _ => None,
    }
}

/// A sign or word of comparison with its place.
pub(crate) fn compare_sign(token: &Token) -> CompareSign
    ensures sign { result ≡ compare_sign token.now }
    ensures named { has comparisons token.now.form ≡ true → compare_op token.now.form ≡ Some result.op }
{
    CompareSign {
        place: token.place,
        op: compare_op(&token.form).unwrap_or(CompareOp::Equal),
    }
}

#[tactic(auto, unfolding(crate::specs::Leaves::in_op))]
fn in_op(form: &TokenForm) -> Option<InOp>
    ensures { result ≡ in_op form.now }
{
    match form {
        TokenForm::Word(Keyword::In, _) => Some(InOp::In),
        TokenForm::Word(Keyword::InTilde, _) => Some(InOp::InTilde),
        TokenForm::Negated(Keyword::In) => Some(InOp::NotIn),
        TokenForm::Negated(Keyword::InTilde) => Some(InOp::NotInTilde),
        _ => None,
    }
}

/// `in` or its like with its place.
pub(crate) fn in_sign(token: &Token) -> InSign
    ensures sign { result ≡ in_sign token.now }
    ensures named { has memberships token.now.form ≡ true → in_op token.now.form ≡ Some result.op }
{
    InSign {
        place: token.place,
        op: in_op(&token.form).unwrap_or(InOp::In),
    }
}

#[tactic(auto, unfolding(crate::specs::Leaves::between_op))]
fn between_op(form: &TokenForm) -> Option<BetweenOp>
    ensures { result ≡ between_op form.now }
{
    match form {
        TokenForm::Word(Keyword::Between, _) => Some(BetweenOp::Between),
        TokenForm::Negated(Keyword::Between) => Some(BetweenOp::NotBetween),
        _ => None,
    }
}

/// `between` or `!between` with its place.
pub(crate) fn between_sign(token: &Token) -> BetweenSign
    ensures sign { result ≡ between_sign token.now }
    ensures named { has betweens token.now.form ≡ true → between_op token.now.form ≡ Some result.op }
{
    BetweenSign {
        place: token.place,
        op: between_op(&token.form).unwrap_or(BetweenOp::Between),
    }
}

#[tactic(auto, unfolding(crate::specs::Leaves::sum_op))]
fn sum_op(form: &TokenForm) -> Option<SumOp>
    ensures { result ≡ sum_op form.now }
{
    match form {
        TokenForm::Plus => Some(SumOp::Plus),
        TokenForm::Minus => Some(SumOp::Minus),
        _ => None,
    }
}

/// `+` or `-` with its place.
pub(crate) fn sum_sign(token: &Token) -> SumSign
    ensures sign { result ≡ sum_sign token.now }
    ensures named { has (Class.Plus ∷ Class.Minus ∷ []) token.now.form ≡ true → sum_op token.now.form ≡ Some result.op }
{
    SumSign {
        place: token.place,
        op: sum_op(&token.form).unwrap_or(SumOp::Plus),
    }
}

#[tactic(auto, unfolding(crate::specs::Leaves::prod_op))]
fn prod_op(form: &TokenForm) -> Option<ProdOp>
    ensures { result ≡ prod_op form.now }
{
    match form {
        TokenForm::Star => Some(ProdOp::Times),
        TokenForm::Slash => Some(ProdOp::Over),
        TokenForm::Percent => Some(ProdOp::Modulo),
        _ => None,
    }
}

/// `*`, `/` or `%` with its place.
pub(crate) fn prod_sign(token: &Token) -> ProdSign
    ensures sign { result ≡ prod_sign token.now }
    ensures named { has (Class.Star ∷ Class.Slash ∷ Class.Percent ∷ []) token.now.form ≡ true → prod_op token.now.form ≡ Some result.op }
{
    ProdSign {
        place: token.place,
        op: prod_op(&token.form).unwrap_or(ProdOp::Times),
    }
}
