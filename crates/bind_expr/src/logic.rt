//! Terms joined by `and` or by `or`.
ghost use Rattle.std.specs.Prelude.{◌≡◌, Ok, [], ◌∷◌};
ghost use Rattle.bind_expr.specs.Outcome.{Answers};
ghost use Rattle.bind_expr.specs.Bound.{and_link, or_link};
ghost use Rattle.bind_expr.specs.Logic.{with_term, joined_as, term_link, terms_closed, terms_opened};
ghost use Rattle.kql_functions.specs.Kinds.{result_kind};
ghost use Rattle.kql_functions.specs.declared.func.Func.TheVariants as func;
ghost use Rattle.kql_bound.specs.declared.expr.BExpr.TheVariants as bexpr;

use crate::fault::BindFault;
use crate::operands::beside;
use crate::typed::{Typed, with_kind};
use kql_bound::{BExpr, Exprs};
use kql_cells::Kind;
use kql_functions::{Func, LogicFunc, result_kind};
use kql_items::{Boxed, Items};
use kql_lexer::Place;
use std::alloc::Global;

/// Joined terms so far, and their type.
#[derive(Debug, Drop)]
pub(crate) struct Joined {
    pub(crate) first: Boxed<BExpr>,
    pub(crate) others: Exprs,
    pub(crate) kind: Kind,
}

#[tactic(auto, using(crate::proofs::AnswerFacts::answer_steps), unfolding(crate::specs::Logic::terms_opened, crate::specs::Logic::joined_from))]
pub(crate) fn terms_opened(
    alloc: Global,
    first: Result<Typed, BindFault>,
) -> Result<Joined, BindFault>
    ensures exact { result ≡ terms_opened first }
{
    match first {
        Ok(t) => {
            let Typed { expr, kind } = t;
            Ok(Joined {
                first: expr,
                others: Items::new(alloc),
                kind,
            })
        }
        Err(fault) => Err(fault),
    }
}

/// The call that holds the first term and those behind it.
#[tactic(auto, using(crate::proofs::AnswerFacts::answer_steps))]
fn logic_call(
    alloc: Global,
    f: LogicFunc,
    first: Boxed<BExpr>,
    others: Exprs,
    kind: Kind,
) -> Result<Typed, BindFault>
    ensures exact { Answers result (Ok (record { expr = bexpr.Call (func.Logic f) (first ∷ others); kind = kind })) }
{
    let mut args = Items::new(alloc);
    match args.push(first.into_inner()) {
        Ok(_) => match args.append(others) {
            Ok(_) => with_kind(alloc, BExpr::Call(Func::Logic(f), args), kind),
            Err(_) => Err(BindFault::OutOfMemory),
        },
        Err(_) => {
            drop(others);
            Err(BindFault::OutOfMemory)
        }
    }
}

#[tactic(auto, using(crate::proofs::AnswerFacts::answer_steps), unfolding(crate::specs::Logic::terms_closed, crate::specs::Logic::terms_whole))]
pub(crate) fn terms_closed(
    alloc: Global,
    f: LogicFunc,
    terms: Result<Joined, BindFault>,
) -> Result<Typed, BindFault>
    ensures exact { Answers result (terms_closed f terms) }
{
    match terms {
        Ok(j) => {
            let Joined {
                first,
                others,
                kind,
            } = j;
            if others.is_empty() {
                Ok(Typed { expr: first, kind })
            } else {
                logic_call(alloc, f, first, others, kind)
            }
        }
        Err(fault) => Err(fault),
    }
}

#[tactic(auto, using(crate::proofs::AnswerFacts::answer_steps))]
fn joined_as(
    f: LogicFunc,
    place: Place,
    l: Typed,
    mut others: Exprs,
    r: Typed,
) -> Result<Joined, BindFault>
    ensures exact { Answers result (joined_as place l.expr others r.expr (result_kind (func.Logic f) (l.kind ∷ r.kind ∷ []))) }
{
    let Typed {
        expr: first,
        kind: left_kind,
    } = l;
    let Typed {
        expr: right,
        kind: right_kind,
    } = r;
    match result_kind(Func::Logic(f), &[left_kind, right_kind]) {
        Some(kind) => match others.push(right.into_inner()) {
            Ok(_) => Ok(Joined {
                first,
                others,
                kind,
            }),
            Err(_) => Err(BindFault::OutOfMemory),
        },
        None => Err(BindFault::Refused { code: 404, place }),
    }
}

/// One term more, or 404 at its word.
#[tactic(auto, using(crate::proofs::AnswerFacts::answer_steps), unfolding(crate::specs::Logic::with_term))]
fn with_term(
    alloc: Global,
    f: LogicFunc,
    place: Place,
    left: Joined,
    right: Typed,
) -> Result<Joined, BindFault>
    ensures exact { Answers result (with_term f place left right) }
{
    let Joined {
        first,
        others,
        kind,
    } = left;
    let right_kind = right.kind;
    match beside(alloc, Typed { expr: first, kind }, right_kind) {
        Ok(l) => match beside(alloc, right, kind) {
            Ok(r) => joined_as(f, place, l, others, r),
            Err(fault) => {
                drop(l);
                drop(others);
                Err(fault)
            }
        },
        Err(fault) => {
            drop(right);
            drop(others);
            Err(fault)
        }
    }
}

#[tactic(auto, using(crate::proofs::AnswerFacts::answer_steps))]
fn next_term(
    alloc: Global,
    f: LogicFunc,
    left: Result<Joined, BindFault>,
    place: Place,
    right: Result<Typed, BindFault>,
) -> Result<Joined, BindFault>
    ensures exact { Answers result (term_link f left place right) }
{
    match left {
        Ok(left) => match right {
            Ok(right) => with_term(alloc, f, place, left, right),
            Err(fault) => {
                drop(left);
                Err(fault)
            }
        },
        Err(fault) => {
            drop(right);
            Err(fault)
        }
    }
}

/// The terms with one more behind an `or`, or the first fault.
#[tactic(auto, using(crate::proofs::AnswerFacts::answer_steps))]
pub(crate) fn next_or(
    alloc: Global,
    left: Result<Joined, BindFault>,
    place: Place,
    right: Result<Typed, BindFault>,
) -> Result<Joined, BindFault>
    ensures exact { Answers result (or_link left place right) }
{
    next_term(alloc, LogicFunc::Or, left, place, right)
}

/// The terms with one more behind an `and`, or the first fault.
#[tactic(auto, using(crate::proofs::AnswerFacts::answer_steps))]
pub(crate) fn next_and(
    alloc: Global,
    left: Result<Joined, BindFault>,
    place: Place,
    right: Result<Typed, BindFault>,
) -> Result<Joined, BindFault>
    ensures exact { Answers result (and_link left place right) }
{
    next_term(alloc, LogicFunc::And, left, place, right)
}
