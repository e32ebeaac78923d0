//! Calls of patterns: `c matches regex "p"` and `extract("p", n, c)`. Their parts are looked at as they are written, and not bound.
ghost use Rattle.std.specs.Prelude.{◌≡◌, ℕ, ◌∷◌, [], Option, None, Ok};
ghost use Rattle.std.specs.Option.{option_copied};
ghost use Rattle.kql_bound.specs.declared.expr.BExpr.TheVariants as bexpr;
ghost use Rattle.kql_cells.specs.declared.value.Kind.TheVariants as kind;
ghost use Rattle.kql_cells.specs.declared.value.Value.TheVariants as value;
ghost use Rattle.bind_expr.specs.Outcome.{Answers};
ghost use Rattle.bind_expr.specs.Patterns.{arg_literal, arg_name, extract_bound, extract_of, group_at, group_if, group_of, is_extract, is_searchable, is_text, match_bound, refused_here, search_of, search_or_refuse, searched, sum_literal, sum_name};
ghost use Rattle.bind_expr.specs.Names.{text_of};

use crate::alone::{arg_term, sum_term, term_literal, term_name};
use crate::arguments::is_among;
use crate::fault::BindFault;
use crate::names::text_of;
use crate::operands::typed_call;
use crate::scope::Scope;
use crate::typed::Typed;
use kql_bound::{BExpr, Exprs, Lit};
use kql_cells::{KText, Kind, Value};
use kql_functions::{Found, Func, PatternFunc};
use kql_items::Items;
use kql_lexer::Place;
use kql_meaning::column_kind;
use kql_syntax::{Arg, Literal, Name, Sum};
use std::alloc::Global;

/// Whether a call is one of `extract`.
pub(crate) fn is_extract(found: Found) -> bool
    ensures { result ≡ is_extract found }
{
    match found {
        Found::Scalar(_) => false,
        Found::Window(_) => false,
        Found::Aggregate(_) => false,
        Found::Pattern => true,
        Found::Refused => false,
        Found::Unknown => false,
    }
}

#[tactic(auto, unfolding(crate::specs::Patterns::refused_here))]
fn refused_here(word: Place) -> Result<Typed, BindFault>
    ensures same { result ≡ refused_here word }
{
    Err(BindFault::Refused {
        code: 420,
        place: word,
    })
}

fn is_text(kind: Option<Kind>) -> bool
    ensures { result ≡ is_text kind }
{
    match kind {
        Some(Kind::Text) => true,
        _ => false,
    }
}

/// Whether a pattern may be searched for in the column of a name.
#[tactic(auto, unfolding(crate::specs::Patterns::is_searchable))]
fn is_searchable(scope: &Scope, name: &str) -> bool
    ensures { result ≡ is_searchable scope.now name.now }
{
    is_text(column_kind(name, scope.schema.columns())) && is_among(scope.own.as_slice(), name)
}

/// A column and a string as the arguments of a call.
#[tactic(auto, using(crate::proofs::AnswerFacts::answer_steps))]
fn parts_of(alloc: Global, column: &str, text: &KText) -> Result<Exprs, BindFault>
    ensures exact { Answers result (Ok (bexpr.Column column.now ∷ bexpr.Literal (record { kind = kind.Text; value = value.Text text.now }) ∷ [])) }
{
    let mut args = Items::new(alloc);
    match KText::from_str(alloc, column) {
        Ok(name) => match args.push(BExpr::Column(name)) {
            Ok(_) => match text.copy(alloc) {
                Ok(text) => {
                    let lit = Lit {
                        kind: Kind::Text,
                        value: Value::Text(text),
                    };
                    match args.push(BExpr::Literal(lit)) {
                        Ok(_) => Ok(args),
                        Err(_) => Err(BindFault::OutOfMemory),
                    }
                }
                Err(_) => Err(BindFault::OutOfMemory),
            },
            Err(_) => Err(BindFault::OutOfMemory),
        },
        Err(_) => Err(BindFault::OutOfMemory),
    }
}

/// The call, where a pattern may be searched for in the column.
#[tactic(auto, using(crate::proofs::AnswerFacts::answer_steps, crate::proofs::PatternSteps::here_steps))]
fn search_or_refuse(
    alloc: Global,
    func: PatternFunc,
    column: &str,
    text: &KText,
    searchable: bool,
) -> Result<Typed, BindFault>
    ensures exact { Answers result (search_or_refuse func.word func.group column.now func.literal text.now searchable) }
{
    if searchable {
        match parts_of(alloc, column, text) {
            Ok(args) => typed_call(
                alloc,
                func.word,
                Func::Pattern(func),
                args,
                &[Kind::Text, Kind::Text],
            ),
            Err(fault) => Err(fault),
        }
    } else {
        refused_here(func.word)
    }
}

/// A search in the column of a name, where the pattern is this literal.
#[tactic(auto, using(crate::proofs::AnswerFacts::answer_steps, crate::proofs::PatternSteps::here_steps), unfolding(crate::specs::Patterns::searched))]
fn searched(
    alloc: Global,
    word: Place,
    group: Option<u32>,
    scope: &Scope,
    column: &str,
    pattern: &Literal,
) -> Result<Typed, BindFault>
    ensures exact { Answers result (searched word group scope.now column.now pattern.now) }
{
    match pattern {
        Literal::Text(place, text) => {
            let func = PatternFunc {
                group,
                word,
                literal: *place,
            };
            search_or_refuse(alloc, func, column, text, is_searchable(scope, column))
        }
        Literal::Number(_, _) => refused_here(word),
        Literal::Span(_, _) => refused_here(word),
        Literal::True(_) => refused_here(word),
        Literal::False(_) => refused_here(word),
        Literal::Typed(_, _, _) => refused_here(word),
    }
}

#[tactic(auto, using(crate::proofs::PatternSteps::sum_name_steps))]
fn sum_name(s: &Sum) -> Option<&Name>
    ensures { option_copied result ≡ sum_name s.now }
{
    match sum_term(s) {
        None => None,
        Some(t) => term_name(t),
    }
}

#[tactic(auto, using(crate::proofs::PatternSteps::sum_literal_steps))]
fn sum_literal(s: &Sum) -> Option<&Literal>
    ensures { option_copied result ≡ sum_literal s.now }
{
    match sum_term(s) {
        None => None,
        Some(t) => term_literal(t),
    }
}

#[tactic(auto, using(crate::proofs::PatternSteps::arg_name_steps))]
fn arg_name(a: &Arg) -> Option<&Name>
    ensures { option_copied result ≡ arg_name a.now }
{
    match arg_term(a) {
        None => None,
        Some(t) => term_name(t),
    }
}

#[tactic(auto, using(crate::proofs::PatternSteps::arg_literal_steps))]
fn arg_literal(a: &Arg) -> Option<&Literal>
    ensures { option_copied result ≡ arg_literal a.now }
{
    match arg_term(a) {
        None => None,
        Some(t) => term_literal(t),
    }
}

/// `matches regex`.
#[tactic(auto, using(crate::proofs::PatternSteps::match_steps))]
pub(crate) fn bind_match(
    alloc: Global,
    word: Place,
    scope: &Scope,
    column: &Sum,
    pattern: &Sum,
) -> Result<Typed, BindFault>
    ensures exact { Answers result (match_bound word scope.now column.now pattern.now) }
{
    match sum_name(column) {
        None => refused_here(word),
        Some(name) => match sum_literal(pattern) {
            None => refused_here(word),
            Some(literal) => searched(alloc, word, None, scope, text_of(name), literal),
        },
    }
}

/// The number of a group.
fn group_at(n: i64) -> Option<u32>
    ensures { result ≡ group_at n }
{
    if 0 <= n && n <= 4_294_967_295 {
        Some(n.unsigned_abs() as u32)
    } else {
        None
    }
}

#[tactic(auto, unfolding(crate::specs::Patterns::group_of))]
fn group_of(l: &Literal) -> Option<u32>
    ensures { result ≡ group_of l.now }
{
    match l {
        Literal::Number(_, n) => group_at(*n),
        Literal::Span(_, _) => None,
        Literal::Text(_, _) => None,
        Literal::True(_) => None,
        Literal::False(_) => None,
        Literal::Typed(_, _, _) => None,
    }
}

#[tactic(auto, using(crate::proofs::PatternSteps::group_steps))]
fn arg_group(a: &Arg) -> Option<u32>
    ensures { result ≡ group_if (arg_literal a.now) }
{
    match arg_literal(a) {
        None => None,
        Some(l) => group_of(l),
    }
}

/// `extract` of three arguments.
#[tactic(auto, using(crate::proofs::PatternSteps::extract_steps))]
fn bind_extract_of(
    alloc: Global,
    word: Place,
    scope: &Scope,
    pattern: &Arg,
    group: &Arg,
    column: &Arg,
) -> Result<Typed, BindFault>
    ensures exact { Answers result (extract_of word scope.now (arg_literal pattern.now) (group_if (arg_literal group.now)) (arg_name column.now)) }
{
    match arg_group(group) {
        None => refused_here(word),
        Some(g) => match arg_name(column) {
            None => refused_here(word),
            Some(name) => match arg_literal(pattern) {
                None => refused_here(word),
                Some(literal) => searched(alloc, word, Some(g), scope, text_of(name), literal),
            },
        },
    }
}

/// `extract`.
#[tactic(auto, using(crate::proofs::PatternSteps::count_steps))]
pub(crate) fn bind_extract(
    alloc: Global,
    word: Place,
    scope: &Scope,
    args: &[Arg],
) -> Result<Typed, BindFault>
    ensures exact { Answers result (extract_bound word scope.now args.now) }
{
    match args {
        [pattern, group, column] => bind_extract_of(alloc, word, scope, pattern, group, column),
        _ => refused_here(word),
    }
}
