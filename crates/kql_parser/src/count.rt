//! Which tokens are operators' names.

ghost use Rattle.std.specs.Prelude.{◌≡◌, ◌<◌, ◌^◌, length, IfSome};
ghost use Rattle.kql_parser.specs.Operators.{after_free, after_operator, after_hint, after_typeof, after_head, after_token, is_source_word, is_word, is_operator, one_too_many};

use kql_lexer::{Keyword, Token, TokenForm};

/// What the tokens before tell of the next one.
#[derive(Clone, Copy)]
pub(crate) enum Next {
    /// Nothing.
    Free,
    /// It is an operator's name.
    Operator,
    /// It is any word.
    AnyWord,
    /// A hint goes on as far as its `=`, and after that any word stands.
    HintSign,
    /// The bracket of a `typeof` opens, and after that any word stands.
    TypeBracket,
    /// The head of a partition goes on as far as its bracket, and after that an operator's name stands.
    PartBracket,
}

/// How many operators a query may have.
const OPERATORS_TOP: usize = 256;

#[tactic(auto, unfolding(crate::specs::Operators::after_free))]
fn after_free(form: &TokenForm) -> Next
    ensures { result ≡ after_free form.now }
{
    match form {
        TokenForm::Bar => Next::Operator,
        TokenForm::Dot | TokenForm::Colon => Next::AnyWord,
        TokenForm::Word(Keyword::Hint, _) => Next::HintSign,
        TokenForm::Word(Keyword::Typeof, _) => Next::TypeBracket,
        _ => Next::Free,
    }
}

#[tactic(auto, unfolding(crate::specs::Operators::after_operator))]
fn after_operator(form: &TokenForm) -> Next
    ensures { result ≡ after_operator form.now }
{
    match form {
        TokenForm::Word(Keyword::Partition, _) => Next::PartBracket,
        _ => Next::Free,
    }
}

#[tactic(auto, unfolding(crate::specs::Operators::after_hint))]
fn after_hint(form: &TokenForm) -> Next
    ensures { result ≡ after_hint form.now }
{
    match form {
        TokenForm::Assign => Next::AnyWord,
        _ => Next::HintSign,
    }
}

#[tactic(auto, unfolding(crate::specs::Operators::after_typeof))]
fn after_typeof(form: &TokenForm) -> Next
    ensures { result ≡ after_typeof form.now }
{
    match form {
        TokenForm::Open => Next::AnyWord,
        _ => Next::TypeBracket,
    }
}

#[tactic(auto, unfolding(crate::specs::Operators::after_head))]
fn after_head(form: &TokenForm) -> Next
    ensures { result ≡ after_head form.now }
{
    match form {
        TokenForm::Open => Next::Operator,
        _ => Next::PartBracket,
    }
}

/// What is known of the token after this one.
#[tactic(auto, unfolding(crate::specs::Operators::after_token))]
fn after_token(next: Next, form: &TokenForm) -> Next
    ensures { result ≡ after_token next form.now }
{
    match next {
        Next::Free => after_free(form),
        Next::Operator => after_operator(form),
        Next::AnyWord => Next::Free,
        Next::HintSign => after_hint(form),
        Next::TypeBracket => after_typeof(form),
        Next::PartBracket => after_head(form),
    }
}

#[tactic(auto, unfolding(crate::specs::Operators::is_source_word))]
fn is_source_word(form: &TokenForm) -> bool
    ensures { result ≡ is_source_word form.now }
{
    match form {
        TokenForm::Word(Keyword::Range, _) => true,
        TokenForm::Word(Keyword::Print, _) => true,
        TokenForm::Word(Keyword::Union, _) => true,
        _ => false,
    }
}

#[tactic(auto, unfolding(crate::specs::Operators::is_word))]
fn is_word(form: &TokenForm) -> bool
    ensures { result ≡ is_word form.now }
{
    match form {
        TokenForm::Word(_, _) => true,
        _ => false,
    }
}

/// Whether a token of which this is known is an operator's name.
#[tactic(auto, unfolding(crate::specs::Operators::is_operator))]
fn is_operator(next: Next, form: &TokenForm) -> bool
    ensures { result ≡ is_operator next form.now }
{
    match next {
        Next::Free => is_source_word(form),
        Next::Operator => is_word(form),
        Next::AnyWord => false,
        Next::HintSign => false,
        Next::TypeBracket => false,
        Next::PartBracket => false,
    }
}

/// The first operator's name that has 256 before it.
#[tactic(auto, unfolding(crate::specs::Operators::one_too_many))]
pub(crate) fn one_too_many(ts: &[Token]) -> Option<usize>
    ensures many { result ≡ one_too_many 0 0 Next.Free ts.now }
    ensures within { IfSome result (λ w. w < length ts.now) }
{
    let mut left = ts;
    let mut at = 0;
    let mut named = 0;
    let mut next = Next::Free;
    'left: while let Some((token, rest)) = left.split_first() {
        if is_operator(next, &token.form) {
            if named >= OPERATORS_TOP {
                return Some(at);
            }
            named += 1;
        }
        next = after_token(next, &token.form);
        at += 1;
        left = rest;
    }
    None
}
