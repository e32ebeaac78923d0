//! What an expression becomes, from its innermost parts on.
ghost use Rattle.std.specs.Prelude.{◌≡◌, IfOk, map};
ghost use Rattle.plan_rules.specs.Folding.{folded};
ghost use Rattle.plan_rules.proofs.FoldSteps.{folded_link};

use crate::calls::folded_call;
use crate::chains::{folded_chain, folded_path};
use kql_bound::{BExpr, Exprs, Link, Links, clone_expr};
use kql_items::{Boxed, Items};
use std::alloc::{AllocError, Global};

/// An expression in which each constant is the literal of its value.
#[cycle(fold)]
#[tactic(auto, using(plan_rules::proofs::FoldSteps::folding_steps))]
pub fn folded_expr(alloc: Global, e: &BExpr) -> Result<BExpr, AllocError>
    ensures folded { IfOk result (λ x. x ≡ folded e.now) }
{
    match e {
        BExpr::Literal(_) => clone_expr(alloc, e),
        BExpr::Column(_) => clone_expr(alloc, e),
        BExpr::Step(_) => clone_expr(alloc, e),
        BExpr::Call(f, args) => {
            let args = folded_exprs(alloc, args.as_slice())?;
            folded_call(alloc, *f, args)
        }
        BExpr::Chain(first, links) => {
            let first = folded_boxed(alloc, first.get())?;
            let links = folded_links(alloc, links.as_slice())?;
            folded_chain(alloc, first, links)
        }
        BExpr::Path(whole, steps) => {
            let whole = folded_boxed(alloc, whole.get())?;
            let steps = folded_exprs(alloc, steps.as_slice())?;
            folded_path(alloc, whole, steps)
        }
        BExpr::Window(f, args) => Ok(BExpr::Window(*f, folded_exprs(alloc, args.as_slice())?)),
        BExpr::Aggregate(f, args) => {
            Ok(BExpr::Aggregate(*f, folded_exprs(alloc, args.as_slice())?))
        }
    }
}

#[cycle(fold)]
fn folded_boxed(alloc: Global, e: &BExpr) -> Result<Boxed<BExpr>, AllocError>
    ensures folded { IfOk result (λ x. x ≡ folded e.now) }
{
    let made = folded_expr(alloc, e)?;
    Boxed::new(alloc, made)
}

#[cycle(fold)]
fn folded_exprs(alloc: Global, es: &[BExpr]) -> Result<Exprs, AllocError>
    ensures folded { IfOk result (λ xs. xs ≡ map folded es.now) }
{
    let mut all = Items::with_capacity(alloc, es.len())?;
    for e in es {
        let made = folded_expr(alloc, e)?;
        all.push(made)?;
    }
    Ok(all)
}

#[cycle(fold)]
fn folded_links(alloc: Global, links: &[Link]) -> Result<Links, AllocError>
    ensures folded { IfOk result (λ xs. xs ≡ map folded_link links.now) }
{
    let mut all = Items::with_capacity(alloc, links.len())?;
    for link in links {
        let made = folded_expr(alloc, &link.1)?;
        all.push((link.0, made))?;
    }
    Ok(all)
}

/// The same in a box.
pub(crate) fn boxed(alloc: Global, e: &BExpr) -> Result<Boxed<BExpr>, AllocError>
    ensures folded { IfOk result (λ x. x ≡ folded e.now) }
{
    folded_boxed(alloc, e)
}
