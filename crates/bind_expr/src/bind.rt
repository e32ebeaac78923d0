//! Expressions, level by level.
ghost use Rattle.std.specs.Prelude.{◌≡◌, ◌<◌, ℕ, Err, IfSome, length, true};
ghost use Rattle.kql_lexer.specs.declared.place.Place.{Place};
ghost use Rattle.bind_expr.specs.Laws.{is_bind_code};
ghost use Rattle.bind_expr.specs.Outcome.{Answers};
ghost use Rattle.bind_expr.specs.declared.fault.BindFault.TheVariants as fault;
ghost use Rattle.bind_expr.specs.Bound.{access_key, access_place, and_bound, ands_to, arg_bound, args_to, bound_expr, cmp_bound, expr_bound, factors_to, first_spot, inside, links_to, looks_to, operands_to, ors_to, path_to, post_bound, prod_bound, prod_link, prod_sign, sign_bound, sum_bound, sum_link, sum_sign, term_bound, term_name};
ghost use Rattle.bind_expr.specs.Paths.{step_named};

use crate::arguments::{
    Args, Slot, first_arg, first_slot, next_arg, next_slot, no_args, plain_arg,
};
use crate::calls::call_node;
use crate::chain::{Chained, closed, linked, opened};
use crate::compare::{
    between_node, compare_func, compare_node, first_operand, in_node, minus_node, next_operand,
};
use crate::fault::BindFault;
use crate::literals::{bind_literal, entry_key};
use crate::logic::{Joined, next_and, next_or, terms_closed, terms_opened};
use crate::names::{bind_name, text_of};
use crate::path::{Looked, next_look, path_closed, path_opened};
use crate::patterns::{bind_extract, bind_match, is_extract};
use crate::scope::{Scope, Spot, StepNames};
use crate::steps::{bind_step, step_named};
use crate::typed::{Operands, Typed};
use kql_bound::ChainSign;
use kql_functions::{LogicFunc, find};
use kql_lexer::Place;
use kql_meaning::Position;
use kql_syntax::{
    Access, And, Arg, Cmp, Expr, Post, Prod, ProdOp, ProdSign, Sign, Sum, SumOp, SumSign, Term,
};
use std::alloc::Global;

/// An expression bound in a scope, or its first fault.
///
/// The arguments of a node are bound from left to right, and then the node; an answer may be want of memory in place of any other.
#[tactic(auto, using(crate::proofs::CodeLaws::code_laws), unfolding(crate::specs::Bound::bound_expr))]
pub fn bind_expr(alloc: Global, e: &Expr, scope: &Scope) -> Result<Typed, BindFault>
    ensures exact { Answers result (bound_expr e.now scope.now) }
    ensures codes { (code : ℕ) (place : Place) → result ≡ Err (fault.Refused code place) → is_bind_code code ≡ true }
{
    let spot = Spot {
        position: scope.position,
        alone: true,
    };
    bind_or(alloc, e, scope, spot)
}

/// A part that is not the whole expression.
fn inside(position: Position) -> Spot
    ensures { result ≡ inside position }
{
    Spot {
        position,
        alone: false,
    }
}

/// Where the first of several parts stands.
fn first_spot<T>(more: &[T], spot: Spot) -> Spot
    ensures { result ≡ first_spot more.now spot }
{
    match more {
        [] => spot,
        [_, ..] => inside(spot.position),
    }
}

#[cycle(bind)]
#[tactic(auto, using(crate::proofs::BoundSteps::expr_steps))]
fn bind_or(alloc: Global, e: &Expr, scope: &Scope, spot: Spot) -> Result<Typed, BindFault>
    ensures exact { Answers result (expr_bound e.now scope.now spot) }
{
    let at = first_spot(e.more.as_slice(), spot);
    let first = bind_and(alloc, &e.first, scope, at);
    let start = terms_opened(alloc, first);
    let terms = bind_ors(
        alloc,
        start,
        e.more.as_slice(),
        scope,
        inside(spot.position),
    );
    terms_closed(alloc, LogicFunc::Or, terms)
}

#[cycle(bind)]
#[tactic(auto, using(crate::proofs::BoundSteps::ors_steps))]
fn bind_ors(
    alloc: Global,
    start: Result<Joined, BindFault>,
    more: &[(Place, And)],
    scope: &Scope,
    spot: Spot,
) -> Result<Joined, BindFault>
    ensures exact { Answers result (ors_to scope.now spot start more.now) }
{
    let mut left = start;
    'ors: for link in more {
        let right = bind_and(alloc, &link.1, scope, spot);
        left = next_or(alloc, left, link.0, right);
    }
    left
}

#[cycle(bind)]
#[tactic(auto, using(crate::proofs::BoundSteps::and_steps))]
fn bind_and(alloc: Global, e: &And, scope: &Scope, spot: Spot) -> Result<Typed, BindFault>
    ensures exact { Answers result (and_bound e.now scope.now spot) }
{
    let at = first_spot(e.more.as_slice(), spot);
    let first = bind_cmp(alloc, &e.first, scope, at);
    let start = terms_opened(alloc, first);
    let terms = bind_ands(
        alloc,
        start,
        e.more.as_slice(),
        scope,
        inside(spot.position),
    );
    terms_closed(alloc, LogicFunc::And, terms)
}

#[cycle(bind)]
#[tactic(auto, using(crate::proofs::BoundSteps::ands_steps))]
fn bind_ands(
    alloc: Global,
    start: Result<Joined, BindFault>,
    more: &[(Place, Cmp)],
    scope: &Scope,
    spot: Spot,
) -> Result<Joined, BindFault>
    ensures exact { Answers result (ands_to scope.now spot start more.now) }
{
    let mut left = start;
    'ands: for link in more {
        let right = bind_cmp(alloc, &link.1, scope, spot);
        left = next_and(alloc, left, link.0, right);
    }
    left
}

#[cycle(bind)]
#[tactic(auto, using(crate::proofs::BoundSteps::cmp_steps))]
fn bind_cmp(alloc: Global, e: &Cmp, scope: &Scope, spot: Spot) -> Result<Typed, BindFault>
    ensures exact { Answers result (cmp_bound e.now scope.now spot) }
{
    match e {
        Cmp::Plain(s) => bind_sum(alloc, s, scope, spot),
        Cmp::Compared(left, sign, right) => match compare_func(sign.op) {
            None => bind_match(alloc, sign.place, scope, left, right.get()),
            Some(f) => {
                let at = inside(spot.position);
                let left = bind_sum(alloc, left, scope, at);
                let right = bind_sum(alloc, right.get(), scope, at);
                compare_node(alloc, f, *sign, left, right)
            }
        },
        Cmp::In(value, sign, others) => {
            let at = inside(spot.position);
            let value = bind_sum(alloc, value, scope, at);
            let start = first_operand(alloc, value);
            let operands = bind_operands(alloc, start, others.as_slice(), scope, at);
            in_node(alloc, *sign, operands)
        }
        Cmp::Between(value, sign, bounds) => {
            let at = inside(spot.position);
            let value = bind_sum(alloc, value, scope, at);
            let low = bind_sum(alloc, &bounds.get().0, scope, at);
            let high = bind_sum(alloc, &bounds.get().1, scope, at);
            between_node(alloc, *sign, value, low, high)
        }
    }
}

#[cycle(bind)]
#[tactic(auto, using(crate::proofs::BoundSteps::operands_steps))]
fn bind_operands(
    alloc: Global,
    start: Result<Operands, BindFault>,
    more: &[Expr],
    scope: &Scope,
    spot: Spot,
) -> Result<Operands, BindFault>
    ensures exact { Answers result (operands_to scope.now spot start more.now) }
{
    let mut left = start;
    'operands: for e in more {
        let next = bind_or(alloc, e, scope, spot);
        left = next_operand(left, next);
    }
    left
}

#[cycle(bind)]
#[tactic(auto, using(crate::proofs::BoundSteps::sum_steps))]
fn bind_sum(alloc: Global, e: &Sum, scope: &Scope, spot: Spot) -> Result<Typed, BindFault>
    ensures exact { Answers result (sum_bound e.now scope.now spot) }
{
    let at = first_spot(e.more.as_slice(), spot);
    let first = bind_prod(alloc, &e.first, scope, at);
    let start = opened(alloc, first);
    let links = bind_links(
        alloc,
        start,
        e.more.as_slice(),
        scope,
        inside(spot.position),
    );
    closed(alloc, links)
}

fn sum_sign(op: SumOp) -> ChainSign
    ensures { result ≡ sum_sign op }
{
    match op {
        SumOp::Plus => ChainSign::Add,
        SumOp::Minus => ChainSign::Subtract,
    }
}

fn next_link(
    alloc: Global,
    left: Result<Chained, BindFault>,
    sign: SumSign,
    right: Result<Typed, BindFault>,
) -> Result<Chained, BindFault>
    ensures exact { Answers result (sum_link left sign right) }
{
    linked(alloc, sum_sign(sign.op), sign.place, left, right)
}

#[cycle(bind)]
#[tactic(auto, using(crate::proofs::BoundSteps::links_steps))]
fn bind_links(
    alloc: Global,
    start: Result<Chained, BindFault>,
    more: &[(SumSign, Prod)],
    scope: &Scope,
    spot: Spot,
) -> Result<Chained, BindFault>
    ensures exact { Answers result (links_to scope.now spot start more.now) }
{
    let mut left = start;
    'links: for link in more {
        let right = bind_prod(alloc, &link.1, scope, spot);
        left = next_link(alloc, left, link.0, right);
    }
    left
}

#[cycle(bind)]
#[tactic(auto, using(crate::proofs::BoundSteps::prod_steps))]
fn bind_prod(alloc: Global, e: &Prod, scope: &Scope, spot: Spot) -> Result<Typed, BindFault>
    ensures exact { Answers result (prod_bound e.now scope.now spot) }
{
    let at = first_spot(e.more.as_slice(), spot);
    let first = bind_sign(alloc, &e.first, scope, at);
    let start = opened(alloc, first);
    let links = bind_factors(
        alloc,
        start,
        e.more.as_slice(),
        scope,
        inside(spot.position),
    );
    closed(alloc, links)
}

fn prod_sign(op: ProdOp) -> ChainSign
    ensures { result ≡ prod_sign op }
{
    match op {
        ProdOp::Times => ChainSign::Multiply,
        ProdOp::Over => ChainSign::Divide,
        ProdOp::Modulo => ChainSign::Modulo,
    }
}

fn next_factor(
    alloc: Global,
    left: Result<Chained, BindFault>,
    sign: ProdSign,
    right: Result<Typed, BindFault>,
) -> Result<Chained, BindFault>
    ensures exact { Answers result (prod_link left sign right) }
{
    linked(alloc, prod_sign(sign.op), sign.place, left, right)
}

#[cycle(bind)]
#[tactic(auto, using(crate::proofs::BoundSteps::factors_steps))]
fn bind_factors(
    alloc: Global,
    start: Result<Chained, BindFault>,
    more: &[(ProdSign, Sign)],
    scope: &Scope,
    spot: Spot,
) -> Result<Chained, BindFault>
    ensures exact { Answers result (factors_to scope.now spot start more.now) }
{
    let mut left = start;
    'factors: for link in more {
        let right = bind_sign(alloc, &link.1, scope, spot);
        left = next_factor(alloc, left, link.0, right);
    }
    left
}

#[cycle(bind)]
#[tactic(auto, using(crate::proofs::BoundSteps::sign_steps))]
fn bind_sign(alloc: Global, e: &Sign, scope: &Scope, spot: Spot) -> Result<Typed, BindFault>
    ensures exact { Answers result (sign_bound e.now scope.now spot) }
{
    match e {
        Sign::Plain(p) => bind_post(alloc, p, scope, spot),
        Sign::Minus(place, p) => {
            let next = bind_post(alloc, p, scope, inside(spot.position));
            minus_node(alloc, *place, next)
        }
    }
}

/// Which step of the scan a term names, where it is a name alone.
#[tactic(auto, using(crate::proofs::BoundSteps::name_steps))]
fn step_of(e: &Term, steps: &StepNames) -> Option<usize>
    ensures step { result ≡ step_named steps.now (term_name e.now) }
    ensures within { IfSome result (λ i. i < length steps.now.names) }
{
    match e {
        Term::Literal(_) => None,
        Term::Name(n) => step_named(steps, text_of(n)),
        Term::Call(_, _) => None,
        Term::Group(_, _) => None,
    }
}

#[cycle(bind)]
#[tactic(auto, using(crate::proofs::BoundSteps::post_steps))]
fn bind_post(alloc: Global, e: &Post, scope: &Scope, spot: Spot) -> Result<Typed, BindFault>
    ensures exact { Answers result (post_bound e.now scope.now spot) }
{
    match e.more.as_slice() {
        [] => bind_term(alloc, &e.first, scope, spot),
        [access, rest @ ..] => match step_of(&e.first, &scope.steps) {
            None => {
                let first = bind_term(alloc, &e.first, scope, inside(spot.position));
                bind_path(alloc, first, e.more.as_slice(), scope, spot.position)
            }
            Some(step) => match access {
                Access::Entry(_, word) => {
                    let first = bind_step(alloc, &scope.steps, step, word);
                    bind_path(alloc, first, rest, scope, spot.position)
                }
                Access::Element(_, _) => {
                    let first = bind_term(alloc, &e.first, scope, inside(spot.position));
                    bind_path(alloc, first, e.more.as_slice(), scope, spot.position)
                }
            },
        },
    }
}

#[cycle(bind)]
#[tactic(auto, using(crate::proofs::BoundSteps::path_steps))]
fn bind_path(
    alloc: Global,
    first: Result<Typed, BindFault>,
    looks: &[Access],
    scope: &Scope,
    at: Position,
) -> Result<Typed, BindFault>
    ensures exact { Answers result (path_to scope.now at first looks.now) }
{
    let path = bind_looks(alloc, path_opened(alloc, first), looks, scope, at);
    path_closed(alloc, path)
}

#[tactic(auto, using(crate::proofs::BoundSteps::place_steps))]
fn access_place(access: &Access) -> Place
    ensures place { result ≡ access_place access.now }
{
    match access {
        Access::Entry(place, _) => *place,
        Access::Element(place, _) => *place,
    }
}

#[cycle(bind)]
#[tactic(auto, using(crate::proofs::BoundSteps::looks_steps))]
fn bind_looks(
    alloc: Global,
    start: Result<Looked, BindFault>,
    looks: &[Access],
    scope: &Scope,
    at: Position,
) -> Result<Looked, BindFault>
    ensures exact { Answers result (looks_to scope.now at start looks.now) }
{
    let mut path = start;
    'looks: for access in looks {
        let key = bind_access(alloc, access, scope, at);
        path = next_look(access_place(access), path, key);
    }
    path
}

#[cycle(bind)]
#[tactic(auto, using(crate::proofs::BoundSteps::access_steps))]
fn bind_access(
    alloc: Global,
    access: &Access,
    scope: &Scope,
    at: Position,
) -> Result<Typed, BindFault>
    ensures exact { Answers result (access_key access.now scope.now at) }
{
    match access {
        Access::Entry(_, word) => entry_key(alloc, word),
        Access::Element(_, e) => bind_or(alloc, e.get(), scope, inside(at)),
    }
}

#[cycle(bind)]
#[tactic(auto, using(crate::proofs::BoundSteps::term_steps))]
fn bind_term(alloc: Global, e: &Term, scope: &Scope, spot: Spot) -> Result<Typed, BindFault>
    ensures exact { Answers result (term_bound e.now scope.now spot) }
{
    match e {
        Term::Literal(l) => bind_literal(alloc, l),
        Term::Name(n) => bind_name(alloc, n, scope),
        Term::Call(word, args) => {
            let found = find(word.text.as_str());
            if is_extract(found) {
                return bind_extract(alloc, word.place, scope, args.as_slice());
            }
            let first = first_slot(found, spot.position);
            let next = next_slot(found, spot.position);
            match args.as_slice() {
                [] => call_node(alloc, word, found, scope, spot, Ok(no_args(alloc))),
                [arg, more @ ..] => {
                    let arg = bind_arg(alloc, arg, scope, first.position);
                    let start = first_arg(alloc, scope, first, arg);
                    let args = bind_more_args(alloc, start, more, scope, next);
                    call_node(alloc, word, found, scope, spot, args)
                }
            }
        }
        Term::Group(_, e) => bind_or(alloc, e.get(), scope, spot),
    }
}

#[cycle(bind)]
#[tactic(auto, using(crate::proofs::BoundSteps::more_args_steps))]
fn bind_more_args(
    alloc: Global,
    start: Result<Args, BindFault>,
    more: &[Arg],
    scope: &Scope,
    slot: Slot,
) -> Result<Args, BindFault>
    ensures exact { Answers result (args_to scope.now slot start more.now) }
{
    let mut taken = start;
    'args: for arg in more {
        let next = bind_arg(alloc, arg, scope, slot.position);
        taken = next_arg(alloc, scope, slot, taken, next);
    }
    taken
}

#[cycle(bind)]
#[tactic(auto, using(crate::proofs::BoundSteps::arg_steps))]
fn bind_arg(
    alloc: Global,
    arg: &Arg,
    scope: &Scope,
    at: Position,
) -> Result<Option<Typed>, BindFault>
    ensures exact { Answers result (arg_bound arg.now scope.now at) }
{
    match arg {
        Arg::Plain(e) => plain_arg(bind_or(alloc, e, scope, inside(at))),
        Arg::Star(_) => Ok(None),
    }
}
