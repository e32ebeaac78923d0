//! The scopes in which the expressions of operators stand.
ghost use Rattle.std.specs.Prelude.{◌≡◌, [], IfOk};
ghost use Rattle.bind_operators.specs.Known.{no_rows, scope_at};

use crate::known::Known;
use crate::shape::Shape;
use bind_expr::{Const, Consts, Scope, StepNames};
use kql_cells::{Schema, clone_value, copy_names};
use kql_items::Items;
use kql_meaning::Position;
use std::alloc::{AllocError, Global};

fn copy_const(alloc: Global, c: &Const) -> Result<Const, AllocError>
    ensures same { IfOk result (λ d. d ≡ c.now) }
{
    Ok(Const {
        name: c.name.copy(alloc)?,
        kind: c.kind,
        value: clone_value(alloc, &c.value)?,
    })
}

fn copy_consts(alloc: Global, consts: &[Const]) -> Result<Consts, AllocError>
    ensures same { IfOk result (λ cs. cs ≡ consts.now) }
{
    let mut copies = Items::with_capacity(alloc, consts.len())?;
    for c in consts {
        let copy = copy_const(alloc, c)?;
        copies.push(copy)?;
    }
    Ok(copies)
}

fn no_steps(alloc: Global) -> StepNames
    ensures none { result ≡ record { names = []; columns = []; defaults = [] } }
{
    StepNames {
        names: Items::new(alloc),
        columns: Schema::new(alloc),
        defaults: Items::new(alloc),
    }
}

/// The scope of an expression over these rows.
#[tactic(auto, unfolding(crate::specs::Known::scope_at))]
pub fn scope_at(
    alloc: Global,
    known: &Known,
    rows: &Shape,
    position: Position,
) -> Result<Scope, AllocError>
    ensures scope { IfOk result (λ s. s ≡ scope_at known.now rows.now position) }
{
    Ok(Scope {
        schema: rows.columns.copy(alloc)?,
        serial: rows.serial,
        position,
        steps: no_steps(alloc),
        consts: copy_consts(alloc, known.consts.as_slice())?,
        keys: Items::new(alloc),
        own: copy_names(alloc, rows.own.as_slice())?,
        moment: known.moment,
    })
}

/// Rows without columns.
#[tactic(auto, unfolding(crate::specs::Known::no_rows))]
pub fn no_rows(alloc: Global) -> Shape
    ensures none { result ≡ no_rows }
{
    Shape {
        columns: Schema::new(alloc),
        serial: false,
        own: Items::new(alloc),
    }
}
