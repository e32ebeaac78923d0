//! Chains of longs over the stores of columns, in one pass over the rows.
ghost use Rattle.std.specs.Prelude.{◌≡◌, ◌<◌, ◌≤◌, [], IfOk, IfSome, Some, length, map};
ghost use Rattle.kql_scalar_fns.specs.Arguments.{long_or_null};
ghost use Rattle.kql_meaning.specs.Expressions.{val};
ghost use Rattle.kql_scalar.specs.Chains.{AllReach, IsAlong, IsChainOf, IsColumnTerm, IsTermOf, Reaches, constant_value, long_along, long_step, term_at};
ghost use Rattle.kql_scalar.specs.Evaluated.{along};
ghost use Rattle.kql_scalar.specs.Means.{AreLinksPlaced, IsPlaced, means};
ghost use Rattle.kql_scalar.specs.Rows.{rows};

use crate::node::{Node, NodeLink};
use crate::pairs::{long_difference, long_product, long_quotient, long_remainder, long_sum};
use crate::parts::{link_parts, part};
use crate::stores::number_at;
use kql_bound::ChainSign;
use kql_values::{NumberColumn, NumberKind, Numbers, Table, Value, Vector};
use std::alloc::{AllocError, Global};

/// What stands in a chain of longs: one number at all rows, or the numbers of a column.
#[derive(Clone, Copy)]
pub(crate) enum Term<'a> {
    Constant(i64),
    Column(Numbers<'a>),
}

/// A sign and the term behind it.
#[derive(Clone, Copy)]
pub(crate) struct LongLink<'a> {
    pub(crate) sign: ChainSign,
    pub(crate) term: Term<'a>,
}

/// A term and the links behind it.
#[derive(Drop)]
pub(crate) struct LongChain<'a> {
    pub(crate) first: Term<'a>,
    pub(crate) terms: Vec<LongLink<'a>>,
}

/// The values of a chain at the rows of a range, if it begins with a term, or with such a chain, and all links are terms.
#[tactic(auto, using(crate::proofs::ChainSteps::value_steps))]
pub(crate) fn long_values(
    alloc: Global,
    first: &Node,
    links: &[NodeLink],
    t: &Table,
    from: usize,
    to: usize,
) -> Result<Option<Vector>, AllocError>
    requires first { IsPlaced t.now.columns first.now }
    requires links { AreLinksPlaced t.now.columns links.now }
    requires order { from ≤ to }
    requires range { to ≤ length t.now.lines }
    ensures values { IfOk result (λ o. IfSome o (λ v. v ≡ map (λ i. along links.now t.now i [] (val (means first.now) t.now i [])) (rows from to))) }
{
    let Some(inner) = chain_of(alloc, first, t)? else {
        return Ok(None);
    };
    let Some(chain) = longer(inner, first, links, t)? else {
        return Ok(None);
    };
    let values = chain_values(alloc, chain.first, chain.terms.as_slice(), t, from, to)?;
    Ok(Some(values))
}

// The chain that a part is, if it begins with a term, or with such a chain, and all links are terms: the links of the inner one stand
// in front of its own.
#[cycle(chain)]
#[tactic(auto, using(crate::proofs::PartSteps::placed_parts))]
fn chain_of<'a>(
    alloc: Global,
    node: &'a Node,
    t: &'a Table,
) -> Result<Option<LongChain<'a>>, AllocError>
    requires { IsPlaced t.now.columns node.now }
    ensures chain { IfOk result (λ o. IfSome o (λ c. IsChainOf t.now node.now c.first c.terms.items)) }
{
    match node {
        Node::Chain(first, links) => {
            let first = part(first, t);
            let Some(inner) = chain_of(alloc, first, t)? else {
                return Ok(None);
            };
            longer(inner, first, link_parts(links, t), t)
        }
        _ => Ok(single(alloc, node, t)),
    }
}

// The chain of a term alone, if a part is one.
fn single<'a>(alloc: Global, node: &'a Node, t: &'a Table) -> Option<LongChain<'a>>
    requires { IsPlaced t.now.columns node.now }
    ensures chain { IfSome result (λ c. IsChainOf t.now node.now c.first c.terms.items) }
{
    let Some(first) = term_of(node, t) else {
        return None;
    };
    Some(LongChain {
        first,
        terms: Vec::new(alloc),
    })
}

// A chain with these links behind it, if all of them are terms.
#[tactic(auto, using(crate::proofs::ChainSteps::link_steps))]
fn longer<'a>(
    chain: LongChain<'a>,
    _first: &Node,
    links: &'a [NodeLink],
    t: &'a Table,
) -> Result<Option<LongChain<'a>>, AllocError>
    requires inner { IsChainOf t.now _first.now chain.first chain.terms.items }
    requires placed { AreLinksPlaced t.now.columns links.now }
    ensures chain { IfOk result (λ o. IfSome o (λ c. IsAlong t.now _first.now links.now c.first c.terms.items)) }
{
    let LongChain { first, mut terms } = chain;
    'links: for link in links {
        let Some(term) = term_of(&link.1, t) else {
            return Ok(None);
        };
        terms.push(LongLink { sign: link.0, term })?;
    }
    Ok(Some(LongChain { first, terms }))
}

// The values of a chain of terms at the rows of a range.
#[tactic(auto, using(crate::proofs::ChainSteps::row_steps))]
fn chain_values(
    alloc: Global,
    first: Term<'_>,
    links: &[LongLink<'_>],
    _t: &Table,
    from: usize,
    to: usize,
) -> Result<Vector, AllocError>
    requires first { Reaches (length _t.now.lines) first }
    requires links { AllReach (length _t.now.lines) links.now }
    requires order { from ≤ to }
    requires range { to ≤ length _t.now.lines }
    ensures values { IfOk result (λ v. v ≡ map (λ i. long_or_null (long_along links.now i (term_at first.entry i))) (rows from to)) }
{
    let mut numbers = NumberColumn::with_capacity(alloc, to - from)?;
    'rows: for i in from..to {
        numbers.push(long_along(links, _t, i, term_at(first, _t, i)))?;
    }
    Ok(Vector::from_numbers(alloc, NumberKind::Long, numbers))
}

// The term that a part is, if it is a long or a column of longs.
#[tactic(auto, using(crate::proofs::ChainSteps::term_steps))]
fn term_of<'a>(node: &'a Node, t: &'a Table) -> Option<Term<'a>>
    requires { IsPlaced t.now.columns node.now }
    ensures term { IfSome result (IsTermOf t.now node.now) }
{
    match node {
        Node::Literal(lit) => constant_term(&lit.value),
        Node::Column(_, place) => column_term(t, *place),
        _ => None,
    }
}

// A constant as a term, if it is a long.
fn constant_term<'a>(value: &Value) -> Option<Term<'a>>
    ensures value { IfSome result (λ x. constant_value x ≡ Some value.now) }
{
    match value {
        Value::Long(n) => Some(Term::Constant(*n)),
        _ => None,
    }
}

// The column at a place as a term, if it is one of longs.
#[tactic(auto, using(crate::proofs::ChainSteps::column_steps))]
fn column_term(t: &Table, place: usize) -> Option<Term<'_>>
    requires { place < length t.now.columns }
    ensures values { IfSome result (IsColumnTerm t.now place) }
{
    let _schema = t.schema();
    let numbers = t.column(place).numbers()?;
    match numbers.kind {
        NumberKind::Long => Some(Term::Column(numbers)),
        _ => None,
    }
}

// The number that a term is at a row, or null.
#[tactic(auto, unfolding(crate::specs::Chains::term_at, crate::specs::Chains::Reaches))]
fn term_at(term: Term<'_>, _t: &Table, i: usize) -> Option<i64>
    requires reach { Reaches (length _t.now.lines) term }
    requires row { i < length _t.now.lines }
    ensures value { result ≡ term_at term.entry i }
{
    match term {
        Term::Constant(n) => Some(n),
        Term::Column(numbers) => number_at(numbers, i),
    }
}

// The number of a chain at a row.
#[tactic(auto, using(crate::proofs::ChainSteps::reach_steps))]
fn long_along(links: &[LongLink<'_>], _t: &Table, i: usize, first: Option<i64>) -> Option<i64>
    requires reach { AllReach (length _t.now.lines) links.now }
    requires row { i < length _t.now.lines }
    ensures value { result ≡ long_along links.now i first }
{
    let mut number = first;
    'links: for link in links {
        number = long_step(link.sign, number, term_at(link.term, _t, i));
    }
    number
}

// What a sign gives for two longs; null where one is.
fn long_step(sign: ChainSign, a: Option<i64>, b: Option<i64>) -> Option<i64>
    ensures { result ≡ long_step sign a b }
{
    let Some(x) = a else {
        return None;
    };
    let Some(y) = b else {
        return None;
    };
    match sign {
        ChainSign::Add => long_sum(x, y),
        ChainSign::Subtract => long_difference(x, y),
        ChainSign::Multiply => long_product(x, y),
        ChainSign::Divide => long_quotient(x, y),
        ChainSign::Modulo => long_remainder(x, y),
    }
}
