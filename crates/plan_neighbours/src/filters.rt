//! The merge of two filters.
ghost use Rattle.std.specs.Prelude.{◌≡◌, ◌∷◌, ◌++◌, [], IfOk, OnOk};
ghost use Rattle.plan_rules.specs.Rules.{terms_in, terms_of, two_filters};

use crate::rules::one;
use kql_bound::{BExpr, Exprs, Op, Ops, clone_expr};
use kql_functions::{Func, LogicFunc};
use kql_items::Items;
use plan_swaps::filter_of;
use plan_terms::is_plain;
use std::alloc::{AllocError, Global};

// A copy of an expression behind others.
fn push_copy(alloc: Global, e: &BExpr, terms: &mut Exprs) -> Result<(), AllocError>
    ensures added { OnOk result (terms.new ≡ terms.old ++ e.now ∷ []) }
{
    let copy = clone_expr(alloc, e)?;
    terms.push(copy)
}

// The terms of an expression behind others: those of each argument of an `and`, and any other expression alone.
#[cycle(push_terms)]
#[tactic(auto, using(plan_rules::proofs::TermSteps::terms_steps))]
fn push_terms(alloc: Global, e: &BExpr, terms: &mut Exprs) -> Result<(), AllocError>
    ensures added { OnOk result (terms.new ≡ terms.old ++ terms_of e.now) }
{
    match e {
        BExpr::Literal(_) => push_copy(alloc, e, terms),
        BExpr::Column(_) => push_copy(alloc, e, terms),
        BExpr::Step(_) => push_copy(alloc, e, terms),
        BExpr::Call(f, args) => {
            if *f == Func::Logic(LogicFunc::And) {
                push_terms_in(alloc, args.as_slice(), terms)
            } else {
                push_copy(alloc, e, terms)
            }
        }
        BExpr::Chain(_, _) => push_copy(alloc, e, terms),
        BExpr::Path(_, _) => push_copy(alloc, e, terms),
        BExpr::Window(_, _) => push_copy(alloc, e, terms),
        BExpr::Aggregate(_, _) => push_copy(alloc, e, terms),
    }
}

// Those of several.
#[cycle(push_terms)]
#[tactic(auto, unfolding(plan_rules::specs::Rules::terms_in))]
fn push_terms_in(alloc: Global, es: &[BExpr], terms: &mut Exprs) -> Result<(), AllocError>
    ensures added { OnOk result (terms.new ≡ terms.old ++ terms_in es.now) }
{
    for e in es {
        push_terms(alloc, e, terms)?;
    }
    Ok(())
}

// `where p`, `where q`: `where` of both.
#[tactic(auto, unfolding(plan_rules::specs::Rules::conjoined, plan_rules::specs::Rules::two_filters))]
pub(crate) fn two_filters(alloc: Global, x: &Op, y: &Op) -> Result<Option<Ops>, AllocError>
    ensures rule { IfOk result (λ o. o ≡ two_filters x.now y.now) }
{
    let (Some(p), Some(q)) = (filter_of(x), filter_of(y)) else {
        return Ok(None);
    };
    if !is_plain(q) {
        return Ok(None);
    }
    let mut terms = Items::new(alloc);
    push_terms(alloc, p, &mut terms)?;
    push_terms(alloc, q, &mut terms)?;
    let ops = one(
        alloc,
        Op::Where(BExpr::Call(Func::Logic(LogicFunc::And), terms)),
    )?;
    Ok(Some(ops))
}
