//! Chains of `+ - * / %`.
ghost use Rattle.std.specs.Prelude.{◌≡◌, Ok, [], ◌∷◌};
ghost use Rattle.bind_expr.specs.Outcome.{Answers};
ghost use Rattle.bind_expr.specs.Chains.{chain_link, closed, linked, linked_as, opened};
ghost use Rattle.kql_bound.specs.Signs.{sign_func};
ghost use Rattle.kql_functions.specs.Kinds.{result_kind};

use crate::fault::BindFault;
use crate::operands::beside;
use crate::typed::{Typed, with_kind};
use kql_bound::{BExpr, ChainSign, Links};
use kql_cells::Kind;
use kql_functions::result_kind;
use kql_items::{Boxed, Items};
use kql_lexer::Place;
use std::alloc::Global;

/// A chain so far, and its type.
#[derive(Debug, Drop)]
pub(crate) struct Chained {
    pub(crate) first: Boxed<BExpr>,
    pub(crate) links: Links,
    pub(crate) kind: Kind,
}

#[tactic(auto, using(crate::proofs::AnswerFacts::answer_steps), unfolding(crate::specs::Chains::opened, crate::specs::Chains::chained_from))]
pub(crate) fn opened(alloc: Global, first: Result<Typed, BindFault>) -> Result<Chained, BindFault>
    ensures exact { result ≡ opened first }
{
    match first {
        Ok(t) => {
            let Typed { expr, kind } = t;
            Ok(Chained {
                first: expr,
                links: Items::new(alloc),
                kind,
            })
        }
        Err(fault) => Err(fault),
    }
}

#[tactic(auto, using(crate::proofs::AnswerFacts::answer_steps), unfolding(crate::specs::Chains::closed, crate::specs::Chains::chain_whole))]
pub(crate) fn closed(alloc: Global, chain: Result<Chained, BindFault>) -> Result<Typed, BindFault>
    ensures exact { Answers result (closed chain) }
{
    match chain {
        Ok(c) => {
            let Chained { first, links, kind } = c;
            if links.is_empty() {
                Ok(Typed { expr: first, kind })
            } else {
                with_kind(alloc, BExpr::Chain(first, links), kind)
            }
        }
        Err(fault) => Err(fault),
    }
}

#[tactic(auto, using(crate::proofs::AnswerFacts::answer_steps))]
fn joined(
    sign: ChainSign,
    place: Place,
    l: Typed,
    mut links: Links,
    r: Typed,
) -> Result<Chained, BindFault>
    ensures exact { Answers result (linked_as sign place l.expr links r.expr (result_kind (sign_func sign) (l.kind ∷ r.kind ∷ []))) }
{
    let Typed {
        expr: first,
        kind: left_kind,
    } = l;
    let Typed {
        expr: right,
        kind: right_kind,
    } = r;
    match result_kind(sign.func(), &[left_kind, right_kind]) {
        Some(kind) => match links.push((sign, right.into_inner())) {
            Ok(_) => Ok(Chained { first, links, kind }),
            Err(_) => Err(BindFault::OutOfMemory),
        },
        None => Err(BindFault::Refused { code: 404, place }),
    }
}

/// One link more, or 404 at its sign.
#[tactic(auto, using(crate::proofs::AnswerFacts::answer_steps), unfolding(crate::specs::Chains::linked))]
fn link(
    alloc: Global,
    sign: ChainSign,
    place: Place,
    left: Chained,
    right: Typed,
) -> Result<Chained, BindFault>
    ensures exact { Answers result (linked sign place left right) }
{
    let Chained { first, links, kind } = left;
    let right_kind = right.kind;
    match beside(alloc, Typed { expr: first, kind }, right_kind) {
        Ok(l) => match beside(alloc, right, kind) {
            Ok(r) => joined(sign, place, l, links, r),
            Err(fault) => {
                drop(l);
                drop(links);
                Err(fault)
            }
        },
        Err(fault) => {
            drop(right);
            drop(links);
            Err(fault)
        }
    }
}

#[tactic(auto, using(crate::proofs::AnswerFacts::answer_steps))]
pub(crate) fn linked(
    alloc: Global,
    sign: ChainSign,
    place: Place,
    left: Result<Chained, BindFault>,
    right: Result<Typed, BindFault>,
) -> Result<Chained, BindFault>
    ensures exact { Answers result (chain_link sign place left right) }
{
    match left {
        Ok(left) => match right {
            Ok(right) => link(alloc, sign, place, left, right),
            Err(fault) => {
                drop(left);
                Err(fault)
            }
        },
        Err(fault) => {
            drop(right);
            Err(fault)
        }
    }
}
