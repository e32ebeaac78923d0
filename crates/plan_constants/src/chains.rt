//! Chains and paths that begin with literals.
ghost use Rattle.std.specs.Prelude.{◌≡◌, ◌≤◌, IfOk, drop, is_some, length};
ghost use Rattle.plan_rules.specs.Folding.{folded_chain, folded_path, sound_literal};
ghost use Rattle.plan_constants.specs.Fronts.{ended_chain, ended_path, joined};

use crate::calls::{literal_joined, sound_literal};
use kql_bound::{BExpr, Exprs, Link, Links};
use kql_functions::{DynamicFunc, Func};
use kql_items::{Boxed, Items};
use std::alloc::{AllocError, Global};

// The literal that a front and the part behind it become.
#[tactic(auto, unfolding(crate::specs::Fronts::joined))]
fn joined(
    alloc: Global,
    f: Func,
    front: &BExpr,
    part: &BExpr,
) -> Result<Option<Boxed<BExpr>>, AllocError>
    ensures joined { IfOk result (λ o. o ≡ joined f front.now part.now) }
{
    let Some(first) = sound_literal(front) else {
        return Ok(None);
    };
    let Some(lit) = literal_joined(alloc, f, first, part)? else {
        return Ok(None);
    };
    Ok(Some(Boxed::new(alloc, BExpr::Literal(lit))?))
}

// The front of a chain joined with the links behind it, and how many these are.
fn joined_links(
    alloc: Global,
    first: Boxed<BExpr>,
    links: &[Link],
) -> Result<(Boxed<BExpr>, usize), AllocError>
    ensures within { IfOk result (λ r. r.1 ≤ length links.now) }
    ensures chain { IfOk result (λ r. folded_chain first links.now ≡ ended_chain r.0 (drop r.1 links.now)) }
{
    let mut front = first;
    let mut taken = 0;
    for link in links {
        let Some(next) = joined(alloc, link.0.func(), front.get(), &link.1)? else {
            return Ok((front, taken));
        };
        front = next;
        taken += 1;
    }
    Ok((front, taken))
}

#[tactic(auto, using(crate::proofs::FrontSteps::path_steps))]
fn joined_steps(
    alloc: Global,
    whole: Boxed<BExpr>,
    steps: &[BExpr],
) -> Result<(Boxed<BExpr>, usize), AllocError>
    ensures within { IfOk result (λ r. r.1 ≤ length steps.now) }
    ensures path { IfOk result (λ r. folded_path whole steps.now ≡ ended_path r.0 (drop r.1 steps.now)) }
{
    let mut front = whole;
    let mut taken = 0;
    for step in steps {
        let Some(next) = joined(alloc, Func::Dynamic(DynamicFunc::At), front.get(), step)? else {
            return Ok((front, taken));
        };
        front = next;
        taken += 1;
    }
    Ok((front, taken))
}

fn is_literal(e: &BExpr) -> bool
    ensures literal { result ≡ is_some (sound_literal e.now) }
{
    match sound_literal(e) {
        None => false,
        Some(_) => true,
    }
}

// The items behind the first ones.
#[tactic(auto, using(crate::proofs::FrontSteps::behind_steps))]
fn behind<T: Drop>(items: Items<T>, count: usize) -> Items<T>
    requires within { count ≤ length items }
    ensures rest { result ≡ drop count items }
{
    let mut rest = items;
    let left = rest.len() - count;
    rest.reverse();
    rest.truncate(left);
    rest.reverse();
    rest
}

/// A chain of parts that are folded.
pub(crate) fn folded_chain(
    alloc: Global,
    first: Boxed<BExpr>,
    links: Links,
) -> Result<BExpr, AllocError>
    ensures chain { IfOk result (λ e. e ≡ folded_chain first links) }
{
    let (front, taken) = joined_links(alloc, first, links.as_slice())?;
    let rest = behind(links, taken);
    if rest.is_empty() && is_literal(front.get()) {
        return Ok(front.into_inner());
    }
    Ok(BExpr::Chain(front, rest))
}

/// A path of parts that are folded.
pub(crate) fn folded_path(
    alloc: Global,
    whole: Boxed<BExpr>,
    steps: Exprs,
) -> Result<BExpr, AllocError>
    ensures path { IfOk result (λ e. e ≡ folded_path whole steps) }
{
    let (front, taken) = joined_steps(alloc, whole, steps.as_slice())?;
    let rest = behind(steps, taken);
    if rest.is_empty() && is_literal(front.get()) {
        return Ok(front.into_inner());
    }
    Ok(BExpr::Path(front, rest))
}
