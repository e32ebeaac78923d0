//! Equal copies of plans and programs.
ghost use Rattle.std.specs.Prelude.{◌≡◌, IfOk};

use crate::expr_clones::{clone_expr, clone_lit};
use crate::part_clones::{
    clone_expand, clone_group, clone_items, clone_join, clone_keys, clone_parse, clone_scan,
    clone_series,
};
use crate::plan::{Op, Ops, Plan, Plans, Program, Source};
use kql_cells::{NamedSchema, Schemas};
use kql_items::Items;
use std::alloc::{AllocError, Global};

/// An equal source.
pub fn clone_source(alloc: Global, source: &Source) -> Result<Source, AllocError>
    ensures same { IfOk result (λ c. c ≡ source.now) }
{
    match source {
        Source::Table(name) => Ok(Source::Table(name.copy(alloc)?)),
        Source::Let(number) => Ok(Source::Let(*number)),
        Source::Range {
            column,
            from,
            to,
            step,
        } => Ok(Source::Range {
            column: column.copy(alloc)?,
            from: clone_lit(alloc, from)?,
            to: clone_lit(alloc, to)?,
            step: clone_lit(alloc, step)?,
        }),
        Source::Print(items) => Ok(Source::Print(clone_items(alloc, items)?)),
    }
}

/// An equal plan.
#[cycle(clone_plan)]
pub fn clone_plan(alloc: Global, plan: &Plan) -> Result<Plan, AllocError>
    ensures same { IfOk result (λ c. c ≡ plan.now) }
{
    Ok(Plan {
        source: clone_source(alloc, &plan.source)?,
        ops: clone_ops(alloc, &plan.ops)?,
    })
}

/// An equal operator.
#[cycle(clone_plan)]
pub fn clone_op(alloc: Global, op: &Op) -> Result<Op, AllocError>
    ensures same { IfOk result (λ c. c ≡ op.now) }
{
    match op {
        Op::Where(e) => Ok(Op::Where(clone_expr(alloc, e)?)),
        Op::Extend(items) => Ok(Op::Extend(clone_items(alloc, items)?)),
        Op::Project(items) => Ok(Op::Project(clone_items(alloc, items)?)),
        Op::Take(n) => Ok(Op::Take(*n)),
        Op::Count => Ok(Op::Count),
        Op::Serialize => Ok(Op::Serialize),
        Op::Sort(keys) => Ok(Op::Sort(clone_keys(alloc, keys)?)),
        Op::Top(n, keys) => Ok(Op::Top(*n, clone_keys(alloc, keys)?)),
        Op::Summarize(group) => Ok(Op::Summarize(clone_group(alloc, group)?)),
        Op::MakeSeries(series) => Ok(Op::MakeSeries(clone_series(alloc, series)?)),
        Op::MvExpand(expand) => Ok(Op::MvExpand(clone_expand(alloc, expand)?)),
        Op::Parse(parse) => Ok(Op::Parse(clone_parse(alloc, parse)?)),
        Op::Join(join, right) => Ok(Op::Join(clone_join(alloc, join)?, clone_plan(alloc, right)?)),
        Op::Union(inner, others) => Ok(Op::Union(*inner, clone_plans(alloc, others)?)),
        Op::Scan(scan) => Ok(Op::Scan(clone_scan(alloc, scan)?)),
        Op::Partition(column, ops) => Ok(Op::Partition(
            column.copy(alloc)?,
            clone_ops(alloc, ops)?,
        )),
    }
}

/// Equal operators.
#[cycle(clone_plan)]
pub fn clone_ops(alloc: Global, ops: &Ops) -> Result<Ops, AllocError>
    ensures same { IfOk result (λ c. c ≡ ops.now) }
{
    let mut copies = Items::with_capacity(alloc, ops.len())?;
    for op in ops.as_slice() {
        let copy = clone_op(alloc, op)?;
        copies.push(copy)?;
    }
    Ok(copies)
}

/// Equal plans.
#[cycle(clone_plan)]
pub fn clone_plans(alloc: Global, plans: &Plans) -> Result<Plans, AllocError>
    ensures same { IfOk result (λ c. c ≡ plans.now) }
{
    let mut copies = Items::with_capacity(alloc, plans.len())?;
    for plan in plans.as_slice() {
        let copy = clone_plan(alloc, plan)?;
        copies.push(copy)?;
    }
    Ok(copies)
}

/// An equal program.
pub fn clone_program(alloc: Global, p: &Program) -> Result<Program, AllocError>
    ensures same { IfOk result (λ c. c ≡ p.now) }
{
    Ok(Program {
        tables: clone_schemas(alloc, &p.tables)?,
        lets: clone_plans(alloc, &p.lets)?,
        main: clone_plan(alloc, &p.main)?,
    })
}

fn clone_schemas(alloc: Global, schemas: &Schemas) -> Result<Schemas, AllocError>
    ensures same { IfOk result (λ c. c ≡ schemas.now) }
{
    let named = schemas.schemas();
    let mut copies = Schemas::new(alloc);
    for i in 0..named.len() {
        let copy = clone_named_schema(alloc, &named[i])?;
        copies.push(copy)?;
    }
    Ok(copies)
}

fn clone_named_schema(alloc: Global, named: &NamedSchema) -> Result<NamedSchema, AllocError>
    ensures same { IfOk result (λ c. c ≡ named.now) }
{
    Ok(NamedSchema {
        name: named.name.copy(alloc)?,
        schema: named.schema.copy(alloc)?,
    })
}
