//! The calls of aggregates in expressions.
ghost use Rattle.std.specs.Prelude.{◌≡◌, ◌++◌, IfNone, IfOk, IfSome, None, OnOk, Some, drop, length};
ghost use Rattle.summarize_op.specs.Calls.{is_best};
ghost use Rattle.summarize_pieces.specs.Calls.{call_columns, calls_along, calls_in, calls_in_all, calls_of, first_columns, firsts, further_args, further_columns, item_calls};

use kql_bound::{BExpr, BItem, Link};
use kql_functions::Aggregate;
use kql_values::Value;
use std::alloc::{AllocError, Global};
use std::marker::Model;
use std::slice::from_ref;

/// The columns of an expression that is a call of `take_any`.
#[tactic(auto, unfolding(crate::specs::Calls::first_columns))]
pub(crate) fn first_columns(e: &BExpr) -> Option<&[BExpr]>
    ensures some { IfSome result (λ columns. first_columns e.now ≡ Some columns.now) }
    ensures none { IfNone result (first_columns e.now ≡ None) }
{
    match e {
        BExpr::Aggregate(f, args) => call_columns(*f, args.as_slice()),
        BExpr::Literal(_) => None,
        BExpr::Column(_) => None,
        BExpr::Step(_) => None,
        BExpr::Call(_, _) => None,
        BExpr::Chain(_, _) => None,
        BExpr::Path(_, _) => None,
        BExpr::Window(_, _) => None,
    }
}

#[tactic(auto, unfolding(crate::specs::Calls::call_columns))]
fn call_columns(f: Aggregate, args: &[BExpr]) -> Option<&[BExpr]>
    ensures some { IfSome result (λ columns. call_columns f args.now ≡ Some columns.now) }
    ensures none { IfNone result (call_columns f args.now ≡ None) }
{
    match f {
        Aggregate::TakeAny => Some(args),
        _ => None,
    }
}

/// The further columns of an expression that is a call of `arg_max` or `arg_min`.
#[tactic(auto, unfolding(crate::specs::Calls::further_columns))]
pub(crate) fn further_columns(e: &BExpr) -> &[BExpr]
    ensures { result.now ≡ further_columns e.now }
{
    match e {
        BExpr::Aggregate(f, args) => further_args(*f, args.as_slice()),
        BExpr::Literal(_) => &[],
        BExpr::Column(_) => &[],
        BExpr::Step(_) => &[],
        BExpr::Call(_, _) => &[],
        BExpr::Chain(_, _) => &[],
        BExpr::Path(_, _) => &[],
        BExpr::Window(_, _) => &[],
    }
}

/// The arguments of `arg_max` and `arg_min` that are taken at the row that is chosen.
#[tactic(auto, unfolding(crate::specs::Calls::further_args))]
pub(crate) fn further_args(f: Aggregate, args: &[BExpr]) -> &[BExpr]
    ensures { result.now ≡ further_args (f, args.now) }
{
    if is_best(f) { others(args) } else { &[] }
}

// All but the first.
#[tactic(auto, using(crate::proofs::ColumnSteps::other_steps))]
fn others(args: &[BExpr]) -> &[BExpr]
    ensures { result.now ≡ drop 1 args.now }
{
    match args {
        [] => args,
        [_, others @ ..] => others,
    }
}

#[tactic(auto, unfolding(summarize_op::specs::Calls::is_best))]
fn is_best(f: Aggregate) -> bool
    ensures { result ≡ is_best f }
{
    match f {
        Aggregate::ArgMax => true,
        Aggregate::ArgMin => true,
        _ => false,
    }
}

/// A call of an aggregate. Contracts see the aggregate and the arguments.
#[derive(Drop)]
pub(crate) struct Found<'a> {
    aggregate: Aggregate,
    args: &'a [BExpr],
}

impl<'a> Model for Found<'a> {
    ghost use Rattle.std.specs.Prelude.{List};
    ghost use Rattle.std.specs.Coded.{codes};
    ghost use Rattle.kql_bound.specs.contracts.expr.BExpr as bexpr;
    ghost use Rattle.kql_bound.specs.declared.expr.BExpr.{BExpr};
    ghost use Rattle.kql_functions.specs.declared.aggregate.Aggregate.{Aggregate};

    ghost Value = { Aggregate × List BExpr };

    ghost coded = { Prim.hlevel (codes, bexpr.the_row.coded) };

    ghost view = { λ c. (c.aggregate, c.args.now) };
}

impl<'a> Found<'a> {
    pub(crate) fn aggregate(&self) -> Aggregate
        ensures aggregate { result ≡ self.now.0 }
    {
        self.aggregate
    }

    pub(crate) fn arguments(&self) -> &'a [BExpr]
        ensures arguments { result.now ≡ self.now.1 }
    {
        self.args
    }
}

/// The calls of items, from left to right.
#[tactic(auto, using(crate::proofs::CallSteps::item_steps))]
pub(crate) fn calls_of<'a>(alloc: Global, items: &'a [BItem]) -> Result<Vec<Found<'a>>, AllocError>
    ensures calls { IfOk result (λ cs. cs.items ≡ calls_of items.now) }
{
    let mut calls = Vec::new(alloc);
    'items: for item in items {
        push_item(&mut calls, &item.expr)?;
    }
    Ok(calls)
}

// The calls of an item, behind others.
#[tactic(auto, using(crate::proofs::FirstSteps::call_steps))]
fn push_item<'a>(calls: &mut Vec<Found<'a>>, e: &'a BExpr) -> Result<(), AllocError>
    ensures calls { OnOk result (calls.new.items ≡ calls.old.items ++ item_calls e.now) }
{
    match first_columns(e) {
        Some(columns) => {
            push_firsts(calls, columns)?;
            Ok(())
        }
        None => {
            push_calls(calls, e)?;
            Ok(())
        }
    }
}

// The calls of `take_any` of these columns, behind others.
#[tactic(auto, using(crate::proofs::FirstSteps::push_steps))]
fn push_firsts<'a>(calls: &mut Vec<Found<'a>>, columns: &'a [BExpr]) -> Result<(), AllocError>
    ensures calls { OnOk result (calls.new.items ≡ calls.old.items ++ firsts columns.now) }
{
    'columns: for column in columns {
        let found = Found {
            aggregate: Aggregate::TakeAny,
            args: from_ref(column),
        };
        calls.push(found)?;
    }
    Ok(())
}

// The calls in an expression, behind others.
#[cycle(push_calls)]
#[tactic(auto, using(crate::proofs::CallSteps::push_steps))]
fn push_calls<'a>(calls: &mut Vec<Found<'a>>, e: &'a BExpr) -> Result<(), AllocError>
    ensures calls { OnOk result (calls.new.items ≡ calls.old.items ++ calls_in e.now) }
{
    match e {
        BExpr::Literal(_) => Ok(()),
        BExpr::Column(_) => Ok(()),
        BExpr::Step(_) => Ok(()),
        BExpr::Call(_, args) => {
            push_calls_in(calls, args.as_slice())?;
            Ok(())
        }
        BExpr::Chain(first, links) => {
            push_calls(calls, first.get())?;
            push_calls_along(calls, links.as_slice())?;
            Ok(())
        }
        BExpr::Path(whole, steps) => {
            push_calls(calls, whole.get())?;
            push_calls_in(calls, steps.as_slice())?;
            Ok(())
        }
        BExpr::Window(_, _) => Ok(()),
        BExpr::Aggregate(f, args) => {
            let found = Found {
                aggregate: *f,
                args: args.as_slice(),
            };
            calls.push(found)?;
            Ok(())
        }
    }
}

// Those in several expressions.
#[cycle(push_calls)]
#[tactic(auto, using(crate::proofs::CallSteps::several_steps))]
fn push_calls_in<'a>(calls: &mut Vec<Found<'a>>, es: &'a [BExpr]) -> Result<(), AllocError>
    ensures calls { OnOk result (calls.new.items ≡ calls.old.items ++ calls_in_all es.now) }
{
    'parts: for e in es {
        push_calls(calls, e)?;
    }
    Ok(())
}

// Those in the parts of a chain behind its first.
#[cycle(push_calls)]
#[tactic(auto, using(crate::proofs::CallSteps::link_steps))]
fn push_calls_along<'a>(calls: &mut Vec<Found<'a>>, links: &'a [Link]) -> Result<(), AllocError>
    ensures calls { OnOk result (calls.new.items ≡ calls.old.items ++ calls_along links.now) }
{
    'links: for link in links {
        push_calls(calls, &link.1)?;
    }
    Ok(())
}

/// The values behind those of the calls of an item.
#[tactic(auto, using(crate::proofs::FirstSteps::behind_steps))]
pub(crate) fn values_behind_item<'a>(e: &BExpr, values: &'a [Value]) -> &'a [Value]
    ensures { result.now ≡ drop (length (item_calls e.now)) values.now }
{
    match first_columns(e) {
        Some(columns) => behind_firsts(columns.len(), values),
        None => values_behind(e, values),
    }
}

// The values behind so many.
#[tactic(auto, using(crate::proofs::FirstSteps::rest_steps))]
fn behind_firsts(count: usize, values: &[Value]) -> &[Value]
    ensures { result.now ≡ drop count values.now }
{
    if count < values.len() {
        &values[count..]
    } else {
        &[]
    }
}

/// The values behind those of the calls in an expression.
#[cycle(values_behind)]
#[tactic(auto, using(crate::proofs::CallSteps::behind_steps))]
pub(crate) fn values_behind<'a>(e: &BExpr, values: &'a [Value]) -> &'a [Value]
    ensures { result.now ≡ drop (length (calls_in e.now)) values.now }
{
    match e {
        BExpr::Literal(_) => values,
        BExpr::Column(_) => values,
        BExpr::Step(_) => values,
        BExpr::Call(_, args) => behind_several(args.as_slice(), values),
        BExpr::Chain(first, links) => {
            let rest = values_behind(first.get(), values);
            behind_links(links.as_slice(), rest)
        }
        BExpr::Path(whole, steps) => {
            let rest = values_behind(whole.get(), values);
            behind_several(steps.as_slice(), rest)
        }
        BExpr::Window(_, _) => values,
        BExpr::Aggregate(_, _) => behind_first(values),
    }
}

/// The values behind the first.
#[tactic(auto, using(crate::proofs::CallSteps::first_steps))]
pub(crate) fn behind_first(values: &[Value]) -> &[Value]
    ensures { result.now ≡ drop 1 values.now }
{
    match values {
        [] => values,
        [_, others @ ..] => others,
    }
}

// The same of several expressions.
#[cycle(values_behind)]
#[tactic(auto, using(crate::proofs::CallSteps::behind_all_steps))]
fn behind_several<'a>(es: &[BExpr], values: &'a [Value]) -> &'a [Value]
    ensures { result.now ≡ drop (length (calls_in_all es.now)) values.now }
{
    let mut rest = values;
    'parts: for e in es {
        let next = values_behind(e, rest);
        rest = next;
    }
    rest
}

// The same of the parts of a chain behind its first.
#[cycle(values_behind)]
#[tactic(auto, using(crate::proofs::CallSteps::behind_link_steps))]
fn behind_links<'a>(links: &[Link], values: &'a [Value]) -> &'a [Value]
    ensures { result.now ≡ drop (length (calls_along links.now)) values.now }
{
    let mut rest = values;
    'links: for link in links {
        let next = values_behind(&link.1, rest);
        rest = next;
    }
    rest
}
