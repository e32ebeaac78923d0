//! Expressions with the places of their columns.
ghost use Rattle.std.specs.Prelude.{◌≡◌, IfOk, map};
ghost use Rattle.kql_meaning.specs.Expressions.{first_kind, kinds_in};
ghost use Rattle.kql_scalar.specs.Means.{AreLinksPlaced, ArePlaced, IsPlaced, link_means, means};
ghost use Rattle.kql_scalar.specs.Scalar.{AreLinksScalar, AreScalar, IsScalar};

use crate::node::{Node, NodeLinks, Nodes};
use kql_bound::{BExpr, Exprs, Link, Links, StepColumn, clone_lit};
use kql_items::{Boxed, Items};
use kql_meaning::kind_of;
use kql_values::{Kind, Schema};
use std::alloc::{AllocError, Global};

// The parts of a scalar expression. Each call hands the fact on to the call on the part, which stands in the cycle.

fn part(e: &Boxed<BExpr>) -> &BExpr
    requires { IsScalar e.now }
    ensures value { result.now ≡ e.now }
    ensures scalar { IsScalar result.now }
{
    e.get()
}

fn parts(es: &Exprs) -> &[BExpr]
    requires { AreScalar es.now }
    ensures items { result.now ≡ es.now }
    ensures scalar { AreScalar result.now }
{
    es.as_slice()
}

fn link_parts(links: &Links) -> &[Link]
    requires { AreLinksScalar links.now }
    ensures items { result.now ≡ links.now }
    ensures scalar { AreLinksScalar result.now }
{
    links.as_slice()
}

/// The expression with the places of its columns.
#[cycle(locate)]
#[tactic(auto, using(crate::proofs::MeansSteps::means_steps, crate::proofs::PartSteps::scalar_parts))]
pub(crate) fn locate(alloc: Global, e: &BExpr, schema: &Schema) -> Result<Node, AllocError>
    requires { IsScalar e.now }
    ensures means { IfOk result (λ n. means n ≡ e.now) }
    ensures placed { IfOk result (IsPlaced schema.now) }
{
    match e {
        BExpr::Literal(lit) => Ok(Node::Literal(clone_lit(alloc, lit)?)),
        BExpr::Column(name) => match schema.find(name.as_str()) {
            Some(place) => Ok(Node::Column(name.copy(alloc)?, place)),
            None => Ok(Node::Missing(name.copy(alloc)?)),
        },
        BExpr::Step(column) => Ok(Node::Step(copy_step_column(alloc, column)?)),
        BExpr::Call(f, args) => Ok(Node::Call(*f, locate_all(alloc, parts(args), schema)?)),
        BExpr::Chain(first, links) => Ok(Node::Chain(
            locate_boxed(alloc, part(first), schema)?,
            locate_links(alloc, link_parts(links), schema)?,
        )),
        BExpr::Path(whole, steps) => Ok(Node::Path(
            locate_boxed(alloc, part(whole), schema)?,
            locate_all(alloc, parts(steps), schema)?,
        )),
        BExpr::Window(f, args) => {
            let kind = kind_of_first(alloc, args.as_slice(), schema)?;
            Ok(Node::Window(*f, locate_all(alloc, parts(args), schema)?, kind))
        }
        BExpr::Aggregate(_, _) => unreachable!(),
    }
}

#[cycle(locate)]
fn locate_boxed(alloc: Global, e: &BExpr, schema: &Schema) -> Result<Boxed<Node>, AllocError>
    requires { IsScalar e.now }
    ensures means { IfOk result (λ n. means n ≡ e.now) }
    ensures placed { IfOk result (IsPlaced schema.now) }
{
    let node = locate(alloc, e, schema)?;
    Boxed::new(alloc, node)
}

#[cycle(locate)]
#[tactic(auto, using(crate::proofs::MeansSteps::list_steps))]
fn locate_all(alloc: Global, es: &[BExpr], schema: &Schema) -> Result<Nodes, AllocError>
    requires { AreScalar es.now }
    ensures means { IfOk result (λ ns. map means ns ≡ es.now) }
    ensures placed { IfOk result (ArePlaced schema.now) }
{
    let mut nodes = Items::with_capacity(alloc, es.len())?;
    for e in es {
        let node = locate(alloc, e, schema)?;
        nodes.push(node)?;
    }
    Ok(nodes)
}

#[cycle(locate)]
#[tactic(auto, using(crate::proofs::MeansSteps::list_steps))]
fn locate_links(alloc: Global, links: &[Link], schema: &Schema) -> Result<NodeLinks, AllocError>
    requires { AreLinksScalar links.now }
    ensures means { IfOk result (λ ls. map link_means ls ≡ links.now) }
    ensures placed { IfOk result (AreLinksPlaced schema.now) }
{
    let mut nodes = Items::with_capacity(alloc, links.len())?;
    for link in links {
        let node = locate(alloc, &link.1, schema)?;
        nodes.push((link.0, node))?;
    }
    Ok(nodes)
}

// The type of the first of these.
#[tactic(auto, using(crate::proofs::MeansSteps::kind_steps))]
fn kind_of_first(alloc: Global, es: &[BExpr], schema: &Schema) -> Result<Option<Kind>, AllocError>
    ensures kind { IfOk result (λ k. k ≡ first_kind (kinds_in es.now schema.now)) }
{
    match es {
        [] => Ok(None),
        [first, ..] => kind_of(alloc, first, schema.columns()),
    }
}

fn copy_step_column(alloc: Global, column: &StepColumn) -> Result<StepColumn, AllocError>
    ensures same { IfOk result (λ c. c ≡ column.now) }
{
    Ok(StepColumn {
        step: column.step.copy(alloc)?,
        column: column.column.copy(alloc)?,
        number: column.number,
        place: column.place,
        default: clone_lit(alloc, &column.default)?,
    })
}
