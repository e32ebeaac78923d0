//! Expressions with a column in the place of each pattern call.
ghost use Rattle.std.specs.Prelude.{◌≡◌, IfOk, map};
ghost use Rattle.pattern_lift.specs.Lifted.{kept, kept_item, lifted, lifted_item, lifted_items, lifted_link};
ghost use Rattle.pattern_lift.specs.Steps.{lifted_call};

use crate::names::call_name;
use kql_bound::{BExpr, BItem, BItems, Exprs, Link, Links, clone_expr};
use kql_cells::{KText, copy_names};
use kql_functions::Func;
use kql_items::{Boxed, Items};
use std::alloc::{AllocError, Global};

/// An expression with a column in the place of each pattern call.
#[cycle(lift)]
#[tactic(auto, using(crate::proofs::CallSteps::lifting_steps))]
pub(crate) fn lifted(alloc: Global, marks: &str, e: &BExpr) -> Result<BExpr, AllocError>
    ensures lifted { IfOk result (λ x. x ≡ lifted marks.now e.now) }
{
    match e {
        BExpr::Literal(_) => clone_expr(alloc, e),
        BExpr::Column(_) => clone_expr(alloc, e),
        BExpr::Step(_) => clone_expr(alloc, e),
        BExpr::Call(f, args) => {
            let args = lifted_exprs(alloc, marks, args.as_slice())?;
            lifted_call(alloc, marks, *f, args)
        }
        BExpr::Chain(first, links) => Ok(BExpr::Chain(
            lifted_boxed(alloc, marks, first.get())?,
            lifted_links(alloc, marks, links.as_slice())?,
        )),
        BExpr::Path(whole, steps) => Ok(BExpr::Path(
            lifted_boxed(alloc, marks, whole.get())?,
            lifted_exprs(alloc, marks, steps.as_slice())?,
        )),
        BExpr::Window(f, args) => {
            Ok(BExpr::Window(*f, lifted_exprs(alloc, marks, args.as_slice())?))
        }
        BExpr::Aggregate(f, args) => {
            Ok(BExpr::Aggregate(*f, lifted_exprs(alloc, marks, args.as_slice())?))
        }
    }
}

#[cycle(lift)]
fn lifted_boxed(alloc: Global, marks: &str, e: &BExpr) -> Result<Boxed<BExpr>, AllocError>
    ensures lifted { IfOk result (λ x. x ≡ lifted marks.now e.now) }
{
    let made = lifted(alloc, marks, e)?;
    Boxed::new(alloc, made)
}

#[cycle(lift)]
fn lifted_exprs(alloc: Global, marks: &str, es: &[BExpr]) -> Result<Exprs, AllocError>
    ensures lifted { IfOk result (λ xs. xs ≡ map (lifted marks.now) es.now) }
{
    let mut all = Items::with_capacity(alloc, es.len())?;
    for e in es {
        let made = lifted(alloc, marks, e)?;
        all.push(made)?;
    }
    Ok(all)
}

#[cycle(lift)]
fn lifted_links(alloc: Global, marks: &str, links: &[Link]) -> Result<Links, AllocError>
    ensures lifted { IfOk result (λ xs. xs ≡ map (lifted_link marks.now) links.now) }
{
    let mut all = Items::with_capacity(alloc, links.len())?;
    for link in links {
        let made = lifted(alloc, marks, &link.1)?;
        all.push((link.0, made))?;
    }
    Ok(all)
}

// A call whose arguments are lifted.
fn lifted_call(alloc: Global, marks: &str, f: Func, args: Exprs) -> Result<BExpr, AllocError>
    ensures lifted { IfOk result (λ x. x ≡ lifted_call marks.now f args) }
{
    match f {
        Func::Pattern(g) => {
            drop(args);
            Ok(BExpr::Column(call_name(alloc, marks, g.word)?))
        }
        Func::Arithmetic(_) => Ok(BExpr::Call(f, args)),
        Func::Comparison(_) => Ok(BExpr::Call(f, args)),
        Func::Search(_) => Ok(BExpr::Call(f, args)),
        Func::Logic(_) => Ok(BExpr::Call(f, args)),
        Func::Choice(_) => Ok(BExpr::Call(f, args)),
        Func::Conversion(_) => Ok(BExpr::Call(f, args)),
        Func::Text(_) => Ok(BExpr::Call(f, args)),
        Func::Time(_) => Ok(BExpr::Call(f, args)),
        Func::Dynamic(_) => Ok(BExpr::Call(f, args)),
    }
}

fn lifted_item(alloc: Global, marks: &str, item: &BItem) -> Result<BItem, AllocError>
    ensures lifted { IfOk result (λ b. b ≡ lifted_item marks.now item.now) }
{
    Ok(BItem {
        names: copy_names(alloc, item.names.as_slice())?,
        expr: lifted(alloc, marks, &item.expr)?,
    })
}

#[tactic(auto, unfolding(crate::specs::Lifted::lifted_items))]
pub(crate) fn lifted_items(
    alloc: Global,
    marks: &str,
    items: &[BItem],
) -> Result<BItems, AllocError>
    ensures lifted { IfOk result (λ bs. bs ≡ lifted_items marks.now items.now) }
{
    let mut all = Items::with_capacity(alloc, items.len())?;
    for item in items {
        let made = lifted_item(alloc, marks, item)?;
        all.push(made)?;
    }
    Ok(all)
}

fn kept_item(alloc: Global, name: &KText) -> Result<BItem, AllocError>
    ensures kept { IfOk result (λ b. b ≡ kept_item name.now) }
{
    let column = name.copy(alloc)?;
    let mut names = Items::new(alloc);
    let copy = name.copy(alloc)?;
    names.push(copy)?;
    Ok(BItem {
        names,
        expr: BExpr::Column(column),
    })
}

/// The items of a `project` of columns under their names.
#[tactic(auto, unfolding(crate::specs::Lifted::kept))]
pub(crate) fn kept(alloc: Global, names: &[KText]) -> Result<BItems, AllocError>
    ensures kept { IfOk result (λ bs. bs ≡ kept names.now) }
{
    let mut all = Items::with_capacity(alloc, names.len())?;
    for name in names {
        let made = kept_item(alloc, name)?;
        all.push(made)?;
    }
    Ok(all)
}
