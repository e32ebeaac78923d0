//! Equal copies of expressions.
ghost use Rattle.std.specs.Prelude.{◌≡◌, IfOk};

use crate::expr::{BExpr, Exprs, Links, StepColumn};
use crate::literal::Lit;
use kql_cells::clone_value;
use kql_items::{Boxed, Items};
use std::alloc::{AllocError, Global};

/// An equal literal.
pub fn clone_lit(alloc: Global, lit: &Lit) -> Result<Lit, AllocError>
    ensures same { IfOk result (λ c. c ≡ lit.now) }
{
    Ok(Lit {
        kind: lit.kind,
        value: clone_value(alloc, &lit.value)?,
    })
}

/// An equal expression.
#[cycle(clone_expr)]
pub fn clone_expr(alloc: Global, e: &BExpr) -> Result<BExpr, AllocError>
    ensures same { IfOk result (λ c. c ≡ e.now) }
{
    match e {
        BExpr::Literal(lit) => Ok(BExpr::Literal(clone_lit(alloc, lit)?)),
        BExpr::Column(name) => Ok(BExpr::Column(name.copy(alloc)?)),
        BExpr::Step(column) => Ok(BExpr::Step(clone_step_column(alloc, column)?)),
        BExpr::Call(f, args) => Ok(BExpr::Call(*f, clone_exprs(alloc, args)?)),
        BExpr::Chain(first, links) => Ok(BExpr::Chain(
            clone_boxed(alloc, first.get())?,
            clone_links(alloc, links)?,
        )),
        BExpr::Path(whole, steps) => Ok(BExpr::Path(
            clone_boxed(alloc, whole.get())?,
            clone_exprs(alloc, steps)?,
        )),
        BExpr::Window(f, args) => Ok(BExpr::Window(*f, clone_exprs(alloc, args)?)),
        BExpr::Aggregate(f, args) => Ok(BExpr::Aggregate(*f, clone_exprs(alloc, args)?)),
    }
}

#[cycle(clone_expr)]
fn clone_boxed(alloc: Global, e: &BExpr) -> Result<Boxed<BExpr>, AllocError>
    ensures same { IfOk result (λ c. c ≡ e.now) }
{
    let copy = clone_expr(alloc, e)?;
    Boxed::new(alloc, copy)
}

/// Equal expressions.
#[cycle(clone_expr)]
pub fn clone_exprs(alloc: Global, exprs: &Exprs) -> Result<Exprs, AllocError>
    ensures same { IfOk result (λ c. c ≡ exprs.now) }
{
    let mut copies = Items::with_capacity(alloc, exprs.len())?;
    for e in exprs.as_slice() {
        let copy = clone_expr(alloc, e)?;
        copies.push(copy)?;
    }
    Ok(copies)
}

#[cycle(clone_expr)]
fn clone_links(alloc: Global, links: &Links) -> Result<Links, AllocError>
    ensures same { IfOk result (λ c. c ≡ links.now) }
{
    let mut copies = Items::with_capacity(alloc, links.len())?;
    for link in links.as_slice() {
        let copy = clone_expr(alloc, &link.1)?;
        copies.push((link.0, copy))?;
    }
    Ok(copies)
}

fn clone_step_column(alloc: Global, column: &StepColumn) -> Result<StepColumn, AllocError>
    ensures same { IfOk result (λ c. c ≡ column.now) }
{
    Ok(StepColumn {
        step: column.step.copy(alloc)?,
        column: column.column.copy(alloc)?,
        number: column.number,
        place: column.place,
        default: clone_lit(alloc, &column.default)?,
    })
}
