//! The value of an expression of aggregate calls and constants over a group, from what the calls give.
ghost use Rattle.std.specs.Prelude.{◌≡◌, ◌∷◌, [], IfOk, drop, length};
ghost use Rattle.kql_cells.specs.Table.{Grid};
ghost use Rattle.kql_cells.specs.Values.{IsWellFormed};
ghost use Rattle.kql_scalar_fns.specs.Arguments.{AreWellFormed, argument};
ghost use Rattle.kql_scalar_fns.specs.Applied.{applied};
ghost use Rattle.kql_meaning.specs.Expressions.{val, value_along, value_down, values_in};
ghost use Rattle.summarize_op.specs.Grouped.{AreGrouped, AreLinksGrouped, IsGrouped};
ghost use Rattle.summarize_pieces.specs.Calls.{AreGiven, calls_along, calls_in, calls_in_all};

use crate::calls::values_behind;
use kql_bound::{BExpr, Exprs, Link, Links};
use kql_cells::{Schema, Value, clone_value};
use kql_items::{Boxed, Items};
use kql_scalar_fns::{DynamicFunc, Func, apply, apply_cells};
use std::alloc::{AllocError, Global};

// The parts of an expression over groups. Each call hands the fact on to the call on the part, which stands in the cycle.

fn part<'a>(e: &'a Boxed<BExpr>, _schema: &Schema) -> &'a BExpr
    requires { IsGrouped _schema.now e.now }
    ensures value { result.now ≡ e.now }
    ensures grouped { IsGrouped _schema.now result.now }
{
    e.get()
}

fn parts<'a>(es: &'a Exprs, _schema: &Schema) -> &'a [BExpr]
    requires { AreGrouped _schema.now es.now }
    ensures items { result.now ≡ es.now }
    ensures grouped { AreGrouped _schema.now result.now }
{
    es.as_slice()
}

fn link_parts<'a>(links: &'a Links, _schema: &Schema) -> &'a [Link]
    requires { AreLinksGrouped _schema.now links.now }
    ensures items { result.now ≡ links.now }
    ensures grouped { AreLinksGrouped _schema.now result.now }
{
    links.as_slice()
}

fn link_right<'a>(link: &'a Link, _schema: &Schema) -> &'a BExpr
    requires { IsGrouped _schema.now link.now.1 }
    ensures value { result.now ≡ link.now.1 }
    ensures grouped { IsGrouped _schema.now result.now }
{
    &link.1
}

/// Values behind others, which are well formed as those are.
#[tactic(auto, using(crate::proofs::ValueSteps::form_steps))]
pub(crate) fn behind<'a>(e: &BExpr, values: &'a [Value]) -> &'a [Value]
    requires form { AreWellFormed values.now }
    ensures rest { result.now ≡ drop (length (calls_in e.now)) values.now }
    ensures form { AreWellFormed result.now }
{
    values_behind(e, values)
}

/// The value of an expression over a group, where values begin with what its calls give.
#[cycle(value_of)]
#[tactic(auto, using(crate::proofs::PartSteps::grouped_parts, crate::proofs::ValueSteps::value_steps))]
pub(crate) fn value_of(
    alloc: Global,
    e: &BExpr,
    values: &[Value],
    schema: &Schema,
) -> Result<Value, AllocError>
    requires grouped { IsGrouped schema.now e.now }
    requires form { AreWellFormed values.now }
    ensures value { (u : Grid) → AreGiven (calls_in e.now) u values.now → IfOk result (λ v. v ≡ val e.now u 0 []) }
    ensures form { IfOk result IsWellFormed }
{
    match e {
        BExpr::Literal(lit) => {
            let constant = clone_value(alloc, &lit.value)?;
            Ok(constant)
        }
        BExpr::Column(_) => unreachable!(),
        BExpr::Step(_) => unreachable!(),
        BExpr::Call(f, args) => {
            let args = values_of(alloc, parts(args, schema), values, schema)?;
            let made = apply(alloc, *f, args.as_slice())?;
            Ok(made)
        }
        BExpr::Chain(first, links) => {
            let first = part(first, schema);
            let links = link_parts(links, schema);
            let rest = behind(first, values);
            let left = value_of(alloc, first, values, schema)?;
            let chained = value_along(alloc, links, left, rest, schema)?;
            Ok(chained)
        }
        BExpr::Path(whole, steps) => {
            let whole = part(whole, schema);
            let steps = parts(steps, schema);
            let rest = behind(whole, values);
            let left = value_of(alloc, whole, values, schema)?;
            let found = value_down(alloc, steps, left, rest, schema)?;
            Ok(found)
        }
        BExpr::Window(_, _) => unreachable!(),
        BExpr::Aggregate(_, _) => {
            let given = first_value(alloc, values)?;
            Ok(given)
        }
    }
}

/// The first of values, and null where there is none.
#[tactic(auto, using(crate::proofs::ValueSteps::first_steps))]
pub(crate) fn first_value(alloc: Global, values: &[Value]) -> Result<Value, AllocError>
    requires form { AreWellFormed values.now }
    ensures value { IfOk result (λ v. v ≡ argument values.now 0) }
    ensures form { IfOk result IsWellFormed }
{
    match values {
        [] => Ok(Value::Null),
        [first, ..] => {
            let value = clone_value(alloc, first)?;
            Ok(value)
        }
    }
}

// The values of several expressions.
#[cycle(value_of)]
#[tactic(auto, using(crate::proofs::PartSteps::grouped_items, crate::proofs::ValueSteps::list_steps))]
fn values_of(
    alloc: Global,
    es: &[BExpr],
    values: &[Value],
    schema: &Schema,
) -> Result<Items<Value>, AllocError>
    requires grouped { AreGrouped schema.now es.now }
    requires form { AreWellFormed values.now }
    ensures values { (u : Grid) → AreGiven (calls_in_all es.now) u values.now → IfOk result (λ vs. vs ≡ values_in es.now u 0 []) }
    ensures form { IfOk result AreWellFormed }
{
    let mut made = Items::with_capacity(alloc, es.len())?;
    let mut rest = values;
    'parts: for e in es {
        let next = behind(e, rest);
        let value = value_of(alloc, e, rest, schema)?;
        made.push(value)?;
        rest = next;
    }
    Ok(made)
}

// The value of a chain behind a first value.
#[cycle(value_of)]
fn value_along(
    alloc: Global,
    links: &[Link],
    first: Value,
    values: &[Value],
    schema: &Schema,
) -> Result<Value, AllocError>
    requires grouped { AreLinksGrouped schema.now links.now }
    requires first { IsWellFormed first }
    requires form { AreWellFormed values.now }
    ensures value { (u : Grid) → AreGiven (calls_along links.now) u values.now → IfOk result (λ v. v ≡ value_along links.now u 0 [] first) }
    ensures form { IfOk result IsWellFormed }
{
    let mut left = first;
    let mut rest = values;
    'links: for link in links {
        let right = link_right(link, schema);
        let next = behind(right, rest);
        let value = linked(alloc, link.0.func(), right, left, rest, schema)?;
        left = value;
        rest = next;
    }
    Ok(left)
}

// The value at the end of a path into a first value.
#[cycle(value_of)]
#[tactic(auto, using(crate::proofs::PartSteps::grouped_items))]
fn value_down(
    alloc: Global,
    steps: &[BExpr],
    whole: Value,
    values: &[Value],
    schema: &Schema,
) -> Result<Value, AllocError>
    requires grouped { AreGrouped schema.now steps.now }
    requires whole { IsWellFormed whole }
    requires form { AreWellFormed values.now }
    ensures value { (u : Grid) → AreGiven (calls_in_all steps.now) u values.now → IfOk result (λ v. v ≡ value_down steps.now u 0 [] whole) }
    ensures form { IfOk result IsWellFormed }
{
    let mut left = whole;
    let mut rest = values;
    'steps: for step in steps {
        let look = Func::Dynamic(DynamicFunc::At);
        let next = behind(step, rest);
        let value = linked(alloc, look, step, left, rest, schema)?;
        left = value;
        rest = next;
    }
    Ok(left)
}

// What a function of two values gives for a value and a part.
#[cycle(value_of)]
fn linked(
    alloc: Global,
    f: Func,
    right: &BExpr,
    left: Value,
    values: &[Value],
    schema: &Schema,
) -> Result<Value, AllocError>
    requires grouped { IsGrouped schema.now right.now }
    requires left { IsWellFormed left }
    requires form { AreWellFormed values.now }
    ensures value { (u : Grid) → AreGiven (calls_in right.now) u values.now → IfOk result (λ v. v ≡ applied f (left ∷ val right.now u 0 [] ∷ [])) }
    ensures form { IfOk result IsWellFormed }
{
    match value_of(alloc, right, values, schema) {
        Ok(right) => {
            let both = applied_to_both(alloc, f, &left, &right)?;
            Ok(both)
        }
        Err(e) => {
            drop(left);
            Err(e)
        }
    }
}

// What a function gives for two values.
#[tactic(auto, using(crate::proofs::ValueSteps::both_steps))]
fn applied_to_both(alloc: Global, f: Func, left: &Value, right: &Value) -> Result<Value, AllocError>
    requires left { IsWellFormed left.now }
    requires right { IsWellFormed right.now }
    ensures value { IfOk result (λ v. v ≡ applied f (left.now ∷ right.now ∷ [])) }
    ensures form { IfOk result IsWellFormed }
{
    let made = apply_cells(alloc, f, &[left.as_cell(), right.as_cell()])?;
    Ok(made)
}
