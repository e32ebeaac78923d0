//! The words of queries of which there is a choice.

ghost use Rattle.std.specs.Prelude.{◌≡◌, ◌<◌, ◌≤◌, ◌+◌, [], ◌∷◌, length, IfOk, OnSome};
ghost use Rattle.kql_syntax.specs.Leaves.{sort_order_of, nulls_end_of, expand_kind_of, parse_kind_of, union_kind_of, output_of, join_kind_of, join_sign_of, hint_value_of};
ghost use Rattle.kql_syntax.specs.Forms.{option};
ghost use Rattle.kql_syntax.specs.Grammar.{sort_order, nulls_end, expand_kind, parse_kind, union_kind, output_word, join_sign, hint_value};
ghost use Rattle.kql_syntax.specs.Reading.{Reads};

use kql_lexer::{Keyword, Token, TokenForm};
use kql_syntax::reader::{Fault, token_at};
use kql_syntax::{
    Class, ExpandKind, HintValue, JoinKind, JoinSign, NullsEnd, Output, ParseKind, SortOrder,
    UnionKind, Word, text_in,
};
use std::alloc::{AllocError, Global};

/// What `asc` or `desc` says, with its place.
#[tactic(auto, unfolding(kql_syntax::specs::Leaves::sort_order_at))]
fn sort_order_of(token: &Token) -> SortOrder
    ensures { result ≡ sort_order_of token.now }
{
    let place = token.place;
    match token.form {
        TokenForm::Word(Keyword::Desc, _) => SortOrder::Desc(place),
        _ => SortOrder::Asc(place),
    }
}

/// Reads `asc` or `desc`, if one stands here.
pub(crate) fn sort_order(ts: &[Token], at: usize) -> Result<(Option<SortOrder>, usize), Fault>
    requires { at ≤ length ts.now }
    ensures within { IfOk result (λ r. (at ≤ r.1) × (r.1 ≤ length ts.now)) }
    ensures read { Reads (option sort_order) ts.now at result }
{
    match token_at(
        ts,
        at,
        &[Class::Key(Keyword::Asc), Class::Key(Keyword::Desc)],
    ) {
        Some(token) => Ok((Some(sort_order_of(token)), at + 1)),
        None => Ok((None, at)),
    }
}

/// What `first` or `last` says, with its place.
#[tactic(auto, unfolding(kql_syntax::specs::Leaves::nulls_end_at))]
fn nulls_end_of(token: &Token) -> NullsEnd
    ensures { result ≡ nulls_end_of token.now }
{
    let place = token.place;
    match token.form {
        TokenForm::Word(Keyword::Last, _) => NullsEnd::Last(place),
        _ => NullsEnd::First(place),
    }
}

/// Reads `first` or `last`.
pub(crate) fn nulls_end(ts: &[Token], at: usize) -> Result<(NullsEnd, usize), Fault>
    ensures within { IfOk result (λ r. (at < r.1) × (r.1 ≤ length ts.now)) }
    ensures read { Reads nulls_end ts.now at result }
{
    match token_at(
        ts,
        at,
        &[Class::Key(Keyword::First), Class::Key(Keyword::Last)],
    ) {
        Some(token) => Ok((nulls_end_of(token), at + 1)),
        None => Err(Fault::Refused(at)),
    }
}

/// What `bag` or `array` says, with its place.
#[tactic(auto, unfolding(kql_syntax::specs::Leaves::expand_kind_at))]
fn expand_kind_of(token: &Token) -> ExpandKind
    ensures { result ≡ expand_kind_of token.now }
{
    let place = token.place;
    match token.form {
        TokenForm::Word(Keyword::Array, _) => ExpandKind::Array(place),
        _ => ExpandKind::Bag(place),
    }
}

/// Reads `bag` or `array`.
pub(crate) fn expand_kind(ts: &[Token], at: usize) -> Result<(ExpandKind, usize), Fault>
    ensures within { IfOk result (λ r. (at < r.1) × (r.1 ≤ length ts.now)) }
    ensures read { Reads expand_kind ts.now at result }
{
    match token_at(
        ts,
        at,
        &[Class::Key(Keyword::Bag), Class::Key(Keyword::Array)],
    ) {
        Some(token) => Ok((expand_kind_of(token), at + 1)),
        None => Err(Fault::Refused(at)),
    }
}

/// What `simple` or `relaxed` says, with its place.
#[tactic(auto, unfolding(kql_syntax::specs::Leaves::parse_kind_at))]
fn parse_kind_of(token: &Token) -> ParseKind
    ensures { result ≡ parse_kind_of token.now }
{
    let place = token.place;
    match token.form {
        TokenForm::Word(Keyword::Relaxed, _) => ParseKind::Relaxed(place),
        _ => ParseKind::Simple(place),
    }
}

/// Reads `simple` or `relaxed`.
pub(crate) fn parse_kind(ts: &[Token], at: usize) -> Result<(ParseKind, usize), Fault>
    ensures within { IfOk result (λ r. (at < r.1) × (r.1 ≤ length ts.now)) }
    ensures read { Reads parse_kind ts.now at result }
{
    match token_at(
        ts,
        at,
        &[Class::Key(Keyword::Simple), Class::Key(Keyword::Relaxed)],
    ) {
        Some(token) => Ok((parse_kind_of(token), at + 1)),
        None => Err(Fault::Refused(at)),
    }
}

/// What `outer` or `inner` says, with its place.
#[tactic(auto, unfolding(kql_syntax::specs::Leaves::union_kind_at))]
fn union_kind_of(token: &Token) -> UnionKind
    ensures { result ≡ union_kind_of token.now }
{
    let place = token.place;
    match token.form {
        TokenForm::Word(Keyword::Inner, _) => UnionKind::Inner(place),
        _ => UnionKind::Outer(place),
    }
}

/// Reads `outer` or `inner`.
pub(crate) fn union_kind(ts: &[Token], at: usize) -> Result<(UnionKind, usize), Fault>
    ensures within { IfOk result (λ r. (at < r.1) × (r.1 ≤ length ts.now)) }
    ensures read { Reads union_kind ts.now at result }
{
    match token_at(
        ts,
        at,
        &[Class::Key(Keyword::Outer), Class::Key(Keyword::Inner)],
    ) {
        Some(token) => Ok((union_kind_of(token), at + 1)),
        None => Err(Fault::Refused(at)),
    }
}

/// What `all`, `last` or `none` says, with its place.
#[tactic(auto, unfolding(kql_syntax::specs::Leaves::output_at))]
fn output_of(token: &Token) -> Output
    ensures { result ≡ output_of token.now }
{
    let place = token.place;
    match token.form {
        TokenForm::Word(Keyword::Last, _) => Output::Last(place),
        TokenForm::Word(Keyword::None, _) => Output::Nothing(place),
        _ => Output::All(place),
    }
}

/// Reads `all`, `last` or `none`.
pub(crate) fn output_word(ts: &[Token], at: usize) -> Result<(Output, usize), Fault>
    ensures within { IfOk result (λ r. (at < r.1) × (r.1 ≤ length ts.now)) }
    ensures read { Reads output_word ts.now at result }
{
    match token_at(
        ts,
        at,
        &[
            Class::Key(Keyword::All),
            Class::Key(Keyword::Last),
            Class::Key(Keyword::None),
        ],
    ) {
        Some(token) => Ok((output_of(token), at + 1)),
        None => Err(Fault::Refused(at)),
    }
}

/// The kind of a join that its word says.
#[tactic(auto, unfolding(kql_syntax::specs::Leaves::join_kind_of))]
fn join_kind_of(form: &TokenForm) -> JoinKind
    ensures { result ≡ join_kind_of form.now }
{
    match form {
        TokenForm::Word(Keyword::Inner, _) => JoinKind::Inner,
        TokenForm::Word(Keyword::Leftouter, _) => JoinKind::LeftOuter,
        TokenForm::Word(Keyword::Rightouter, _) => JoinKind::RightOuter,
        TokenForm::Word(Keyword::Fullouter, _) => JoinKind::FullOuter,
        TokenForm::Word(Keyword::Leftsemi, _) => JoinKind::LeftSemi,
        TokenForm::Word(Keyword::Rightsemi, _) => JoinKind::RightSemi,
        TokenForm::Word(Keyword::Leftanti, _) => JoinKind::LeftAnti,
        TokenForm::Word(Keyword::Rightanti, _) => JoinKind::RightAnti,
        _ => JoinKind::InnerUnique,
    }
}

/// The kind of a join with its place.
fn join_sign_of(token: &Token) -> JoinSign
    ensures { result ≡ join_sign_of token.now }
{
    JoinSign {
        place: token.place,
        kind: join_kind_of(&token.form),
    }
}

/// Reads the kind of a join, which is to be one of these.
pub(crate) fn join_sign(
    ts: &[Token],
    at: usize,
    kinds: &[Class],
) -> Result<(JoinSign, usize), Fault>
    ensures within { IfOk result (λ r. (at < r.1) × (r.1 ≤ length ts.now)) }
    ensures read { Reads (join_sign kinds.now) ts.now at result }
{
    match token_at(ts, at, kinds) {
        Some(token) => Ok((join_sign_of(token), at + 1)),
        None => Err(Fault::Refused(at)),
    }
}

/// The value of a hint.
#[tactic(auto, unfolding(kql_syntax::specs::Leaves::hint_value_at))]
fn hint_value_of(alloc: Global, token: &Token) -> Result<HintValue, AllocError>
    ensures value { IfOk result (λ v. v ≡ hint_value_of token.now) }
{
    let place = token.place;
    if let TokenForm::Number(value) = token.form {
        return Ok(HintValue::Number(place, value));
    }
    let text = text_in(alloc, token)?;
    Ok(HintValue::Word(Word { place, text }))
}

/// Reads the value of a hint.
pub(crate) fn hint_value(
    alloc: Global,
    ts: &[Token],
    at: usize,
) -> Result<(HintValue, usize), Fault>
    ensures within { IfOk result (λ r. (at < r.1) × (r.1 ≤ length ts.now)) }
    ensures read { Reads hint_value ts.now at result }
{
    match token_at(ts, at, &[Class::Word, Class::Number]) {
        Some(token) => {
            let value = hint_value_of(alloc, token)?;
            Ok((value, at + 1))
        }
        None => Err(Fault::Refused(at)),
    }
}
