//! Constants, and their values.
ghost use Rattle.std.specs.Prelude.{◌≡◌, ◌↔◌, ◌&&◌, Ok, IfOk, IsTrue};
ghost use Rattle.bind_expr.specs.Outcome.{Answers};
ghost use Rattle.bind_expr.specs.Constants.{AreConstant, AreLinksConstant, IsConstant, bare_row, constant_value, constant_of, is_constant, settled};
ghost use Rattle.kql_scalar.specs.Scalar.{IsScalar, is_scalar};

use crate::fault::BindFault;
use crate::literals::literal;
use crate::typed::Typed;
use kql_bound::{BExpr, Link, Lit};
use kql_cells::{Schema, Value};
use kql_items::Items;
use kql_scalar::{eval, is_scalar};
use kql_values::Table;
use std::alloc::{AllocError, Global};

/// Whether an expression reads no column and no step record, and holds no window function and no aggregate.
#[cycle(is_constant)]
#[tactic(auto, using(crate::proofs::ConstantSteps::test_steps))]
fn is_constant(e: &BExpr) -> bool
    ensures constant { IsTrue result ↔ IsConstant e.now }
{
    match e {
        BExpr::Literal(_) => true,
        BExpr::Column(_) => false,
        BExpr::Step(_) => false,
        BExpr::Call(_, args) => are_constant(args.as_slice()),
        BExpr::Chain(first, links) => {
            is_constant(first.get()) && are_links_constant(links.as_slice())
        }
        BExpr::Path(whole, steps) => is_constant(whole.get()) && are_constant(steps.as_slice()),
        BExpr::Window(_, _) => false,
        BExpr::Aggregate(_, _) => false,
    }
}

#[cycle(is_constant)]
#[tactic(auto, using(crate::proofs::ConstantSteps::list_steps))]
fn are_constant(es: &[BExpr]) -> bool
    ensures constant { IsTrue result ↔ AreConstant es.now }
{
    'parts: for e in es {
        if !is_constant(e) {
            return false;
        }
    }
    true
}

#[cycle(is_constant)]
#[tactic(auto, using(crate::proofs::ConstantSteps::list_steps))]
fn are_links_constant(links: &[Link]) -> bool
    ensures constant { IsTrue result ↔ AreLinksConstant links.now }
{
    'parts: for link in links {
        if !is_constant(&link.1) {
            return false;
        }
    }
    true
}

#[tactic(auto, using(crate::proofs::ConstantSteps::decided_steps))]
fn tells_constant(e: &BExpr) -> bool
    ensures { result ≡ is_constant e.now }
{
    is_constant(e)
}

#[tactic(auto, using(crate::proofs::ConstantSteps::decided_steps))]
fn tells_scalar(e: &BExpr) -> bool
    ensures { result ≡ is_scalar e.now }
{
    is_scalar(e)
}

/// Whether an expression is a constant that can be evaluated.
fn has_value(e: &BExpr) -> bool
    ensures value { result ≡ (is_constant e.now && is_scalar e.now) }
{
    tells_constant(e) && tells_scalar(e)
}

/// The one row of no columns over which a constant is evaluated.
fn bare_row(alloc: Global) -> Result<Table, AllocError>
    ensures row { IfOk result (λ t. t ≡ bare_row) }
{
    let mut table = Table::empty(alloc, Schema::new(alloc))?;
    table.push_row(Items::new(alloc))?;
    Ok(table)
}

#[tactic(auto, using(crate::proofs::AnswerFacts::answer_steps), unfolding(crate::specs::Constants::constant_value))]
fn constant_value(alloc: Global, e: &BExpr) -> Result<Value, BindFault>
    requires { IsScalar e.now }
    ensures exact { Answers result (Ok (constant_value e.now)) }
{
    match bare_row(alloc) {
        Ok(table) => {
            let value = eval(alloc, e, &table, 0, &[]);
            drop(table);
            match value {
                Ok(value) => Ok(value),
                Err(_) => Err(BindFault::OutOfMemory),
            }
        }
        Err(_) => Err(BindFault::OutOfMemory),
    }
}

/// The literal that a constant is: one without columns, step records, window functions and aggregates.
#[tactic(auto, using(crate::proofs::AnswerFacts::answer_steps, crate::proofs::ConstantSteps::settled_steps), unfolding(crate::specs::Constants::constant_of))]
pub fn constant_of(alloc: Global, t: &Typed) -> Result<Option<Lit>, AllocError>
    ensures literal { IfOk result (λ l. l ≡ constant_of t.now) }
{
    if has_value(t.expr.get()) {
        match constant_value(alloc, t.expr.get()) {
            Ok(value) => Ok(Some(Lit {
                kind: t.kind,
                value,
            })),
            Err(_) => Err(AllocError),
        }
    } else {
        Ok(None)
    }
}

/// A constant as its literal, and all else as it is.
#[tactic(auto, using(crate::proofs::AnswerFacts::answer_steps, crate::proofs::ConstantSteps::settled_steps), unfolding(crate::specs::Constants::settled, crate::specs::Constants::constant_of))]
pub(crate) fn settled(alloc: Global, t: Typed) -> Result<Typed, BindFault>
    ensures exact { Answers result (Ok (settled t)) }
{
    if has_value(t.expr.get()) {
        let value = constant_value(alloc, t.expr.get());
        let kind = t.kind;
        drop(t);
        match value {
            Ok(value) => literal(alloc, kind, value),
            Err(fault) => Err(fault),
        }
    } else {
        Ok(t)
    }
}
