ghost use Rattle.std.specs.Prelude.{◌≡◌, [], ◌∷◌, IfOk, Ok};
ghost use Rattle.bind_expr.specs.Outcome.{Answers};
ghost use Rattle.bind_operators.specs.Faults.{each_bound};
ghost use Rattle.bind_operators.specs.Sort.{are_nulls_first, is_ascending, key_bound, key_of, sort_bound, top_bound, topped};

use crate::answers::{or_lost, over, serialised, with_next};
use crate::bound::BoundOp;
use crate::known::Known;
use crate::scopes::scope_at;
use crate::shape::Shape;
use crate::wanted::{Wanted, bind_row_count, bind_typed, count_in, is_no_count};
use bind_expr::{BindFault, Scope, Typed};
use kql_bound::{BKey, Keys, Lit, Op};
use kql_items::Items;
use kql_lexer::Place;
use kql_meaning::Position;
use kql_syntax::{Expr, Key, NullsEnd, SortOrder};
use std::alloc::{AllocError, Global};

#[tactic(auto, unfolding(crate::specs::Sort::is_ascending))]
fn is_ascending(order: Option<SortOrder>) -> bool
    ensures ascending { result ≡ is_ascending order }
{
    match order {
        None => false,
        Some(SortOrder::Asc(_)) => true,
        Some(SortOrder::Desc(_)) => false,
    }
}

#[tactic(auto, unfolding(crate::specs::Sort::are_nulls_first))]
fn are_nulls_first(ascending: bool, end: Option<NullsEnd>) -> bool
    ensures first { result ≡ are_nulls_first ascending end }
{
    match end {
        None => ascending,
        Some(NullsEnd::First(_)) => true,
        Some(NullsEnd::Last(_)) => false,
    }
}

#[tactic(auto, unfolding(crate::specs::Sort::key_of))]
fn key_of(k: &Key, t: Typed) -> BKey
    ensures key { result ≡ key_of k.now t }
{
    let asc = is_ascending(k.order);
    BKey {
        expr: t.expr.into_inner(),
        asc,
        nulls_first: are_nulls_first(asc, k.nulls),
    }
}

#[tactic(auto, using(bind_expr::proofs::AnswerFacts::answer_steps, crate::proofs::AnswerSteps::bind_steps), unfolding(crate::specs::Sort::key_bound))]
fn bind_key(alloc: Global, scope: &Scope, k: &Key) -> Result<BKey, BindFault>
    ensures exact { Answers result (key_bound scope.now k.now) }
{
    match bind_typed(alloc, Wanted::Key, &k.value, scope) {
        Ok(t) => Ok(key_of(k, t)),
        Err(fault) => Err(fault),
    }
}

#[tactic(auto, using(crate::proofs::AnswerSteps::each_steps))]
fn bind_keys(alloc: Global, scope: &Scope, keys: &[Key]) -> Result<Keys, BindFault>
    ensures exact { Answers result (each_bound (key_bound scope.now) keys.now) }
{
    let mut bound = Ok(Items::new(alloc));
    'each: for k in keys {
        let key = bind_key(alloc, scope, k);
        bound = with_next(bound, key);
    }
    bound
}

/// `sort` and `order`.
#[tactic(auto, using(bind_expr::proofs::AnswerFacts::answer_steps, crate::proofs::AnswerSteps::bind_steps), unfolding(crate::specs::Sort::sort_bound))]
pub fn bind_sort(
    alloc: Global,
    keys: &[Key],
    known: &Known,
    rows: Shape,
) -> Result<BoundOp, BindFault>
    ensures exact { Answers result (sort_bound keys.now known.now rows) }
{
    match scope_at(alloc, known, &rows, Position::Plain) {
        Ok(scope) => match bind_keys(alloc, &scope, keys) {
            Ok(bound) => or_lost(over(alloc, Op::Sort(bound), serialised(alloc, rows))),
            Err(fault) => Err(fault),
        },
        Err(_) => Err(BindFault::OutOfMemory),
    }
}

fn one_key(alloc: Global, key: BKey) -> Result<Keys, AllocError>
    ensures one { IfOk result (λ ks. ks ≡ key ∷ []) }
{
    let mut keys = Items::with_capacity(alloc, 1)?;
    keys.push(key)?;
    Ok(keys)
}

#[tactic(auto, using(bind_expr::proofs::AnswerFacts::answer_steps, crate::proofs::AnswerSteps::fault_steps), unfolding(crate::specs::Sort::topped))]
fn topped(
    alloc: Global,
    operator: Place,
    rows: Shape,
    n: &Lit,
    key: BKey,
) -> Result<BoundOp, BindFault>
    ensures exact { Answers result (topped operator rows n.now key) }
{
    if is_no_count(n) {
        drop(rows);
        drop(key);
        return Err(BindFault::Refused {
            code: 414,
            place: operator,
        });
    }
    match one_key(alloc, key) {
        Ok(keys) => or_lost(over(alloc, Op::Top(count_in(n), keys), serialised(alloc, rows))),
        Err(_) => {
            drop(rows);
            Err(BindFault::OutOfMemory)
        }
    }
}

/// `top`.
#[tactic(auto, using(bind_expr::proofs::AnswerFacts::answer_steps, crate::proofs::AnswerSteps::bind_steps), unfolding(crate::specs::Sort::top_bound))]
pub fn bind_top(
    alloc: Global,
    operator: Place,
    e: &Expr,
    k: &Key,
    known: &Known,
    rows: Shape,
) -> Result<BoundOp, BindFault>
    ensures exact { Answers result (top_bound operator e.now k.now known.now rows) }
{
    match bind_row_count(alloc, operator, known, &rows, e) {
        Ok(n) => match scope_at(alloc, known, &rows, Position::Plain) {
            Ok(scope) => match bind_key(alloc, &scope, k) {
                Ok(key) => topped(alloc, operator, rows, &n, key),
                Err(fault) => Err(fault),
            },
            Err(_) => Err(BindFault::OutOfMemory),
        },
        Err(fault) => Err(fault),
    }
}
