//! Expressions of aggregate calls and constants: one value for each group, worked out part by part over vectors.
ghost use Rattle.std.specs.Prelude.{◌≡◌, IfOk, length};
ghost use Rattle.kql_bound.specs.Signs.{sign_func};
ghost use Rattle.kql_scalar_fns.specs.Arguments.{AreWellFormed};
ghost use Rattle.summarize_op.specs.Grouped.{AreFormed, AreGrouped, AreLinksGrouped, AreNumbers, IsGrouped, all_over, along, applied_to_both, down, over};

use crate::applied::{apply_over, apply_to_both};
use crate::calls::call_vector;
use kql_bound::{BExpr, Exprs, Link, Links};
use kql_cells::Kind;
use kql_items::Boxed;
use kql_scalar_fns::{DynamicFunc, Func};
use kql_values::{Table, Vector};
use std::alloc::{AllocError, Global};

// The parts of an expression over groups. Each call hands the fact on to the call on the part, which stands in the cycle.

fn part<'a>(e: &'a Boxed<BExpr>, _t: &Table) -> &'a BExpr
    requires { IsGrouped _t.now.columns e.now }
    ensures value { result.now ≡ e.now }
    ensures grouped { IsGrouped _t.now.columns result.now }
{
    e.get()
}

fn parts<'a>(es: &'a Exprs, _t: &Table) -> &'a [BExpr]
    requires { AreGrouped _t.now.columns es.now }
    ensures items { result.now ≡ es.now }
    ensures grouped { AreGrouped _t.now.columns result.now }
{
    es.as_slice()
}

fn link_parts<'a>(links: &'a Links, _t: &Table) -> &'a [Link]
    requires { AreLinksGrouped _t.now.columns links.now }
    ensures items { result.now ≡ links.now }
    ensures grouped { AreLinksGrouped _t.now.columns result.now }
{
    links.as_slice()
}

/// The values of an expression, one for each group, stored as values of a type.
#[cycle(values)]
#[tactic(auto, using(crate::proofs::PartSteps::grouped_parts, crate::proofs::ValueSteps::value_steps))]
pub(crate) fn values_of(
    alloc: Global,
    e: &BExpr,
    kind: Kind,
    t: &Table,
    numbers: &[usize],
    count: usize,
) -> Result<Vector, AllocError>
    requires grouped { IsGrouped t.now.columns e.now }
    requires numbers { AreNumbers t.now numbers.now count }
    ensures values { IfOk result (λ v. v ≡ over e.now t.now numbers.now count) }
    ensures long { IfOk result (λ v. length v ≡ count) }
    ensures form { IfOk result AreWellFormed }
{
    match e {
        BExpr::Literal(lit) => Vector::repeated(alloc, kind, lit.value.as_cell(), count),
        BExpr::Column(_) => unreachable!(),
        BExpr::Step(_) => unreachable!(),
        BExpr::Call(f, args) => {
            let vectors = values_of_all(alloc, parts(args, t), kind, t, numbers, count)?;
            apply_over(alloc, *f, kind, vectors.as_slice(), count)
        }
        BExpr::Chain(first, links) => {
            let left = values_of(alloc, part(first, t), kind, t, numbers, count)?;
            values_along(alloc, link_parts(links, t), left, kind, t, numbers, count)
        }
        BExpr::Path(whole, steps) => {
            let left = values_of(alloc, part(whole, t), kind, t, numbers, count)?;
            values_down(alloc, parts(steps, t), left, kind, t, numbers, count)
        }
        BExpr::Window(_, _) => unreachable!(),
        BExpr::Aggregate(f, args) => { call_vector(alloc, *f, args.as_slice(), t, numbers, count) }
    }
}

/// The values of several expressions.
#[cycle(values)]
#[tactic(auto, using(crate::proofs::PartSteps::grouped_items, crate::proofs::ValueSteps::list_steps))]
fn values_of_all(
    alloc: Global,
    es: &[BExpr],
    kind: Kind,
    t: &Table,
    numbers: &[usize],
    count: usize,
) -> Result<Vec<Vector>, AllocError>
    requires grouped { AreGrouped t.now.columns es.now }
    requires numbers { AreNumbers t.now numbers.now count }
    ensures values { IfOk result (λ vs. vs.items ≡ all_over es.now t.now numbers.now count) }
    ensures form { IfOk result (λ vs. AreFormed vs.items) }
{
    let mut vectors = Vec::with_capacity(alloc, es.len())?;
    'parts: for e in es {
        let vector = values_of(alloc, e, kind, t, numbers, count)?;
        vectors.push(vector)?;
    }
    Ok(vectors)
}

/// The values of a chain behind first ones.
#[cycle(values)]
#[tactic(auto, using(crate::proofs::PartSteps::grouped_link))]
fn values_along(
    alloc: Global,
    links: &[Link],
    first: Vector,
    kind: Kind,
    t: &Table,
    numbers: &[usize],
    count: usize,
) -> Result<Vector, AllocError>
    requires grouped { AreLinksGrouped t.now.columns links.now }
    requires numbers { AreNumbers t.now numbers.now count }
    requires long { length first ≡ count }
    requires form { AreWellFormed first }
    ensures values { IfOk result (λ v. v ≡ along links.now t.now numbers.now count first) }
    ensures form { IfOk result AreWellFormed }
{
    let mut left = first;
    'links: for link in links {
        let right = link_right(link, t);
        let next = linked(alloc, link.0.func(), right, left, kind, t, numbers, count)?;
        left = next;
    }
    Ok(left)
}

/// The values at the ends of paths into first ones.
#[cycle(values)]
#[tactic(auto, using(crate::proofs::PartSteps::grouped_items, crate::proofs::ValueSteps::down_steps))]
fn values_down(
    alloc: Global,
    steps: &[BExpr],
    first: Vector,
    kind: Kind,
    t: &Table,
    numbers: &[usize],
    count: usize,
) -> Result<Vector, AllocError>
    requires grouped { AreGrouped t.now.columns steps.now }
    requires numbers { AreNumbers t.now numbers.now count }
    requires long { length first ≡ count }
    requires form { AreWellFormed first }
    ensures values { IfOk result (λ v. v ≡ down steps.now t.now numbers.now count first) }
    ensures form { IfOk result AreWellFormed }
{
    let mut left = first;
    'steps: for step in steps {
        let look = Func::Dynamic(DynamicFunc::At);
        let next = linked(alloc, look, step, left, kind, t, numbers, count)?;
        left = next;
    }
    Ok(left)
}

/// The values of one sign or step: what stands on the left, and the part on the right.
#[cycle(values)]
#[tactic(auto, using(crate::proofs::ValueSteps::link_steps))]
fn linked(
    alloc: Global,
    f: Func,
    right: &BExpr,
    left: Vector,
    kind: Kind,
    t: &Table,
    numbers: &[usize],
    count: usize,
) -> Result<Vector, AllocError>
    requires grouped { IsGrouped t.now.columns right.now }
    requires numbers { AreNumbers t.now numbers.now count }
    requires long { length left ≡ count }
    requires form { AreWellFormed left }
    ensures values { IfOk result (λ v. v ≡ applied_to_both f left (over right.now t.now numbers.now count) count) }
    ensures long { IfOk result (λ v. length v ≡ count) }
    ensures form { IfOk result AreWellFormed }
{
    match values_of(alloc, right, kind, t, numbers, count) {
        Ok(right) => apply_to_both(alloc, f, kind, &left, &right, count),
        Err(e) => {
            drop(left);
            Err(e)
        }
    }
}

// The part behind the sign of a link, which hands the fact on to the call on the part.
fn link_right<'a>(link: &'a Link, _t: &Table) -> &'a BExpr
    requires { IsGrouped _t.now.columns link.now.1 }
    ensures value { result.now ≡ link.now.1 }
    ensures grouped { IsGrouped _t.now.columns result.now }
{
    &link.1
}
