//! The pattern calls of expressions.
ghost use Rattle.std.specs.Prelude.{◌≡◌, Some, IfOk};
ghost use Rattle.std.specs.Option.{option_copied};
ghost use Rattle.pattern_lift.specs.Calls.{call_of, call_with, calls, calls_in, calls_in_items, calls_in_links, column_name, literal_text, or_none, own_calls, text_of_kind};

use crate::calls::{PatternCall, PatternCalls};
use kql_bound::{BExpr, BItem, Link};
use kql_cells::{KText, Kind, Value};
use kql_functions::{Func, PatternFunc};
use kql_items::Items;
use std::alloc::{AllocError, Global};

/// The pattern calls of an expression, in the order in which they stand in it.
#[cycle(calls)]
#[tactic(auto, using(crate::proofs::CallSteps::calls_steps))]
pub fn calls_of(alloc: Global, e: &BExpr) -> Result<PatternCalls, AllocError>
    ensures calls { IfOk result (λ cs. cs ≡ calls e.now) }
{
    match e {
        BExpr::Literal(_) => Ok(Items::new(alloc)),
        BExpr::Column(_) => Ok(Items::new(alloc)),
        BExpr::Step(_) => Ok(Items::new(alloc)),
        BExpr::Call(f, args) => {
            let mut all = own_calls(alloc, *f, args.as_slice())?;
            let more = calls_in(alloc, args.as_slice())?;
            all.append(more)?;
            Ok(all)
        }
        BExpr::Chain(first, links) => {
            let mut all = calls_of(alloc, first.get())?;
            let more = calls_in_links(alloc, links.as_slice())?;
            all.append(more)?;
            Ok(all)
        }
        BExpr::Path(whole, steps) => {
            let mut all = calls_of(alloc, whole.get())?;
            let more = calls_in(alloc, steps.as_slice())?;
            all.append(more)?;
            Ok(all)
        }
        BExpr::Window(_, args) => calls_in(alloc, args.as_slice()),
        BExpr::Aggregate(_, args) => calls_in(alloc, args.as_slice()),
    }
}

#[cycle(calls)]
#[tactic(auto, unfolding(crate::specs::Calls::calls_in))]
fn calls_in(alloc: Global, es: &[BExpr]) -> Result<PatternCalls, AllocError>
    ensures calls { IfOk result (λ cs. cs ≡ calls_in es.now) }
{
    let mut all = Items::new(alloc);
    for e in es {
        let more = calls_of(alloc, e)?;
        all.append(more)?;
    }
    Ok(all)
}

#[cycle(calls)]
#[tactic(auto, unfolding(crate::specs::Calls::calls_in_links))]
fn calls_in_links(alloc: Global, links: &[Link]) -> Result<PatternCalls, AllocError>
    ensures calls { IfOk result (λ cs. cs ≡ calls_in_links links.now) }
{
    let mut all = Items::new(alloc);
    for link in links {
        let more = calls_of(alloc, &link.1)?;
        all.append(more)?;
    }
    Ok(all)
}

#[tactic(auto, unfolding(crate::specs::Calls::calls_in_items))]
pub(crate) fn calls_in_items(alloc: Global, items: &[BItem]) -> Result<PatternCalls, AllocError>
    ensures calls { IfOk result (λ cs. cs ≡ calls_in_items items.now) }
{
    let mut all = Items::new(alloc);
    for item in items {
        let more = calls_of(alloc, &item.expr)?;
        all.append(more)?;
    }
    Ok(all)
}

// The call that a node is itself.
#[tactic(auto, unfolding(crate::specs::Calls::own_calls))]
fn own_calls(alloc: Global, f: Func, args: &[BExpr]) -> Result<PatternCalls, AllocError>
    ensures own { IfOk result (λ cs. cs ≡ own_calls f args.now) }
{
    match f {
        Func::Pattern(func) => call_of_two(alloc, func, args),
        Func::Arithmetic(_) => Ok(Items::new(alloc)),
        Func::Comparison(_) => Ok(Items::new(alloc)),
        Func::Search(_) => Ok(Items::new(alloc)),
        Func::Logic(_) => Ok(Items::new(alloc)),
        Func::Choice(_) => Ok(Items::new(alloc)),
        Func::Conversion(_) => Ok(Items::new(alloc)),
        Func::Text(_) => Ok(Items::new(alloc)),
        Func::Time(_) => Ok(Items::new(alloc)),
        Func::Dynamic(_) => Ok(Items::new(alloc)),
    }
}

// The same of a call of a pattern.
fn call_of_two(alloc: Global, func: PatternFunc, args: &[BExpr]) -> Result<PatternCalls, AllocError>
    ensures own { IfOk result (λ cs. cs ≡ or_none (call_of func args.now)) }
{
    if args.len() != 2 {
        return Ok(Items::new(alloc));
    }
    match column_name(&args[0]) {
        None => Ok(Items::new(alloc)),
        Some(column) => match literal_text(&args[1]) {
            None => Ok(Items::new(alloc)),
            Some(pattern) => one_call(alloc, func, column, pattern),
        },
    }
}

// A call alone.
fn one_call(
    alloc: Global,
    func: PatternFunc,
    column: &KText,
    pattern: &KText,
) -> Result<PatternCalls, AllocError>
    ensures own { IfOk result (λ cs. cs ≡ or_none (call_with func (Some column.now) (Some pattern.now))) }
{
    let column = column.copy(alloc)?;
    let pattern = pattern.copy(alloc)?;
    let mut all = Items::new(alloc);
    all.push(PatternCall {
        func,
        column,
        pattern,
    })?;
    Ok(all)
}

// The column that an expression is.
#[tactic(auto, using(crate::proofs::ShapeSteps::shape_steps))]
pub(crate) fn column_name(e: &BExpr) -> Option<&KText>
    ensures name { option_copied result ≡ column_name e.now }
{
    match e {
        BExpr::Literal(_) => None,
        BExpr::Column(name) => Some(name),
        BExpr::Step(_) => None,
        BExpr::Call(_, _) => None,
        BExpr::Chain(_, _) => None,
        BExpr::Path(_, _) => None,
        BExpr::Window(_, _) => None,
        BExpr::Aggregate(_, _) => None,
    }
}

// The text of a literal of type string.
#[tactic(auto, using(crate::proofs::ShapeSteps::shape_steps))]
pub(crate) fn literal_text(e: &BExpr) -> Option<&KText>
    ensures text { option_copied result ≡ literal_text e.now }
{
    match e {
        BExpr::Literal(literal) => text_of_kind(literal.kind, &literal.value),
        BExpr::Column(_) => None,
        BExpr::Step(_) => None,
        BExpr::Call(_, _) => None,
        BExpr::Chain(_, _) => None,
        BExpr::Path(_, _) => None,
        BExpr::Window(_, _) => None,
        BExpr::Aggregate(_, _) => None,
    }
}

fn text_of_kind(kind: Kind, value: &Value) -> Option<&KText>
    ensures text { option_copied result ≡ text_of_kind kind value.now }
{
    match kind {
        Kind::Text => text_in(value),
        Kind::Bool => None,
        Kind::Long => None,
        Kind::Moment => None,
        Kind::Span => None,
        Kind::Dynamic => None,
    }
}

fn text_in(value: &Value) -> Option<&KText>
    ensures text { option_copied result ≡ text_of_kind Kind.Text value.now }
{
    match value {
        Value::Text(text) => Some(text),
        Value::Null => None,
        Value::Bool(_) => None,
        Value::Long(_) => None,
        Value::Moment(_) => None,
        Value::Span(_) => None,
        Value::Dynamic(_) => None,
    }
}
