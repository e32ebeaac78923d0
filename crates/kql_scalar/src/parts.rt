//! The parts of a node that is placed. Each call hands the fact on to the call on the part, which stands in a cycle of calls.
ghost use Rattle.std.specs.Prelude.{◌≡◌, ◌<◌, get_or, length};
ghost use Rattle.kql_scalar.specs.Means.{AreLinksPlaced, ArePlaced, IsOfFirst, IsPlaced};

use crate::node::{Node, NodeLink, NodeLinks, Nodes};
use kql_items::Boxed;
use kql_values::{Kind, Table};

pub(crate) fn part<'a>(node: &'a Boxed<Node>, _t: &Table) -> &'a Node
    requires { IsPlaced _t.now.columns node.now }
    ensures value { result.now ≡ node.now }
    ensures placed { IsPlaced _t.now.columns result.now }
{
    node.get()
}

pub(crate) fn parts<'a>(nodes: &'a Nodes, _t: &Table) -> &'a [Node]
    requires { ArePlaced _t.now.columns nodes.now }
    ensures items { result.now ≡ nodes.now }
    ensures placed { ArePlaced _t.now.columns result.now }
{
    nodes.as_slice()
}

/// The part at a place.
#[tactic(auto, using(crate::proofs::MeansSteps::item_steps))]
pub(crate) fn part_at<'a>(nodes: &'a [Node], k: usize, _t: &Table) -> &'a Node
    requires within { k < length nodes.now }
    requires placed { ArePlaced _t.now.columns nodes.now }
    ensures item { result.now ≡ get_or nodes.now k result.now }
    ensures placed { IsPlaced _t.now.columns result.now }
{
    &nodes[k]
}

pub(crate) fn link_parts<'a>(links: &'a NodeLinks, _t: &Table) -> &'a [NodeLink]
    requires { AreLinksPlaced _t.now.columns links.now }
    ensures items { result.now ≡ links.now }
    ensures placed { AreLinksPlaced _t.now.columns result.now }
{
    links.as_slice()
}

/// The arguments of a window function, and that this is the type of the first of them.
pub(crate) fn window_parts<'a>(nodes: &'a Nodes, _kind: Option<Kind>, _t: &Table) -> &'a [Node]
    requires placed { ArePlaced _t.now.columns nodes.now }
    requires kind { IsOfFirst _t.now.columns nodes.now _kind }
    ensures items { result.now ≡ nodes.now }
    ensures placed { ArePlaced _t.now.columns result.now }
    ensures kind { IsOfFirst _t.now.columns result.now _kind }
{
    nodes.as_slice()
}
