//! The node of a call, once its arguments are bound.
ghost use Rattle.std.specs.Prelude.{◌≡◌, Ok, is_some};
ghost use Rattle.bind_expr.specs.Outcome.{Answers};
ghost use Rattle.bind_expr.specs.Bound.{call_node, found_call};
ghost use Rattle.bind_expr.specs.Calls.{from_moment, has_part, is_part, is_part_value, moment_call, moment_call_as, moment_sign, plain_call, scalar_call, takes_args};
ghost use Rattle.kql_scalar_fns.specs.Time.{field_named, period_named};

use crate::aggregates::aggregate_call;
use crate::arguments::Args;
use crate::counts::{count_of, is_count};
use crate::fault::BindFault;
use crate::forms::literal_of;
use crate::literals::literal;
use crate::operands::typed_call;
use crate::scope::{Scope, Spot};
use crate::typed::{Typed, with_kind};
use crate::windows::window_call;
use kql_bound::{BExpr, ChainSign, Exprs, Lit};
use kql_cells::{Kind, Value};
use kql_functions::{Found, Func, TimeFunc, result_kind};
use kql_items::Items;
use kql_lexer::Place;
use kql_scalar_fns::{field_named, period_named};
use kql_syntax::Word;
use std::alloc::Global;

fn is_period_value(value: &Value) -> bool
    ensures { result ≡ is_part_value period_named value.now }
{
    match value {
        Value::Text(word) => period_named(word.as_str()).is_some(),
        _ => true,
    }
}

fn is_field_value(value: &Value) -> bool
    ensures { result ≡ is_part_value field_named value.now }
{
    match value {
        Value::Text(word) => field_named(word.as_str()).is_some(),
        _ => true,
    }
}

fn is_period(exprs: &[BExpr]) -> bool
    ensures { result ≡ is_part period_named exprs.now }
{
    match exprs {
        [] => false,
        [first, ..] => match literal_of(first) {
            None => false,
            Some(lit) => is_period_value(&lit.value),
        },
    }
}

fn is_field(exprs: &[BExpr]) -> bool
    ensures { result ≡ is_part field_named exprs.now }
{
    match exprs {
        [] => false,
        [first, ..] => match literal_of(first) {
            None => false,
            Some(lit) => is_field_value(&lit.value),
        },
    }
}

/// Whether the part of a function that takes one may be one.
#[tactic(auto, unfolding(crate::specs::Calls::has_part))]
fn has_part(f: Func, exprs: &[BExpr]) -> bool
    ensures { result ≡ has_part f exprs.now }
{
    match f {
        Func::Time(TimeFunc::DatetimeAdd) => is_period(exprs),
        Func::Time(TimeFunc::DatetimeDiff) => is_period(exprs),
        Func::Time(TimeFunc::DatetimePart) => is_field(exprs),
        _ => true,
    }
}

/// Whether a function takes so many arguments and this part.
#[tactic(auto, unfolding(crate::specs::Calls::takes_args))]
fn takes_args(f: Func, args: &Args) -> bool
    ensures { result ≡ takes_args f args.now }
{
    !args.has_stray && is_count(count_of(f), args.kinds.len()) && has_part(f, args.exprs.as_slice())
}

#[tactic(auto, using(crate::proofs::AnswerFacts::answer_steps), unfolding(crate::specs::Calls::plain_call))]
fn plain_call(alloc: Global, place: Place, f: Func, args: Args) -> Result<Typed, BindFault>
    ensures exact { Answers result (plain_call place f args) }
{
    if takes_args(f, &args) {
        let Args { exprs, kinds, .. } = args;
        typed_call(alloc, place, f, exprs, kinds.as_slice())
    } else {
        drop(args);
        Err(BindFault::Refused { code: 403, place })
    }
}

/// The moment, alone or with a timespan added or taken away.
#[tactic(auto, using(crate::proofs::AnswerFacts::answer_steps, crate::proofs::CallSteps::moment_steps))]
fn from_moment(
    alloc: Global,
    sign: ChainSign,
    moment: i64,
    mut exprs: Exprs,
    kind: Kind,
) -> Result<Typed, BindFault>
    ensures exact { Answers result (Ok (record { expr = from_moment sign moment exprs; kind = kind })) }
{
    if exprs.is_empty() {
        let literal = BExpr::Literal(Lit {
            kind: Kind::Moment,
            value: Value::Moment(moment),
        });
        return with_kind(alloc, literal, kind);
    }
    match literal(alloc, Kind::Moment, Value::Moment(moment)) {
        Ok(t) => {
            let Typed { expr: first, .. } = t;
            let mut links = Items::new(alloc);
            match links.push((sign, exprs.remove(0))) {
                Ok(_) => with_kind(alloc, BExpr::Chain(first, links), kind),
                Err(_) => Err(BindFault::OutOfMemory),
            }
        }
        Err(fault) => Err(fault),
    }
}

/// A call of `now` or `ago` at a moment: 403, 404.
#[tactic(auto, using(crate::proofs::AnswerFacts::answer_steps))]
fn moment_call_at(
    alloc: Global,
    place: Place,
    f: Func,
    sign: ChainSign,
    moment: i64,
    args: Args,
) -> Result<Typed, BindFault>
    ensures exact { Answers result (moment_call_as place f sign moment args (takes_args f args)) }
{
    if takes_args(f, &args) {
        let Args { exprs, kinds, .. } = args;
        match result_kind(f, kinds.as_slice()) {
            Some(kind) => from_moment(alloc, sign, moment, exprs, kind),
            None => {
                drop(exprs);
                Err(BindFault::Refused { code: 404, place })
            }
        }
    } else {
        drop(args);
        Err(BindFault::Refused { code: 403, place })
    }
}

/// A call of `now` or `ago`: 409, 403, 404.
#[tactic(auto, using(crate::proofs::AnswerFacts::answer_steps))]
fn moment_call(
    alloc: Global,
    place: Place,
    f: Func,
    sign: ChainSign,
    args: Args,
    moment: Option<i64>,
) -> Result<Typed, BindFault>
    ensures exact { Answers result (moment_call place f sign args moment) }
{
    match moment {
        Some(moment) => moment_call_at(alloc, place, f, sign, moment, args),
        None => {
            drop(args);
            Err(BindFault::Refused { code: 409, place })
        }
    }
}

/// The sign before the timespan of `now` and `ago`.
#[tactic(auto, unfolding(crate::specs::Calls::moment_sign))]
fn moment_sign(f: Func) -> Option<ChainSign>
    ensures { result ≡ moment_sign f }
{
    match f {
        Func::Time(TimeFunc::Now) => Some(ChainSign::Add),
        Func::Time(TimeFunc::Ago) => Some(ChainSign::Subtract),
        _ => None,
    }
}

#[tactic(auto, using(crate::proofs::AnswerFacts::answer_steps), unfolding(crate::specs::Calls::scalar_call))]
fn scalar_call(
    alloc: Global,
    place: Place,
    f: Func,
    args: Args,
    moment: Option<i64>,
) -> Result<Typed, BindFault>
    ensures exact { Answers result (scalar_call place f args moment) }
{
    match moment_sign(f) {
        Some(sign) => moment_call(alloc, place, f, sign, args, moment),
        None => plain_call(alloc, place, f, args),
    }
}

/// The node of a call: 402 or 406, 408, 407, 409, 403, 404.
#[tactic(auto, using(crate::proofs::AnswerFacts::answer_steps), unfolding(crate::specs::Bound::found_call))]
fn found_call(
    alloc: Global,
    word: &Word,
    found: Found,
    scope: &Scope,
    spot: Spot,
    args: Args,
) -> Result<Typed, BindFault>
    ensures exact { Answers result (found_call word.now scope.now spot args found) }
{
    match found {
        Found::Scalar(f) => scalar_call(alloc, word.place, f, args, scope.moment),
        Found::Window(f) => window_call(alloc, word.place, f, args, scope, spot.position),
        Found::Aggregate(f) => aggregate_call(alloc, word.place, f, args, spot),
        Found::Pattern => {
            drop(args);
            Err(BindFault::Refused {
                code: 420,
                place: word.place,
            })
        }
        Found::Refused => {
            drop(args);
            Err(BindFault::Refused {
                code: 406,
                place: word.place,
            })
        }
        Found::Unknown => {
            drop(args);
            Err(BindFault::Refused {
                code: 402,
                place: word.place,
            })
        }
    }
}

/// A call, or the first fault of its arguments.
#[tactic(auto, using(crate::proofs::AnswerFacts::answer_steps))]
pub(crate) fn call_node(
    alloc: Global,
    word: &Word,
    found: Found,
    scope: &Scope,
    spot: Spot,
    args: Result<Args, BindFault>,
) -> Result<Typed, BindFault>
    ensures exact { Answers result (call_node word.now scope.now spot found args) }
{
    match args {
        Ok(args) => found_call(alloc, word, found, scope, spot, args),
        Err(fault) => Err(fault),
    }
}
