//! What operators, plans and programs become.
ghost use Rattle.std.specs.Prelude.{◌≡◌, ◌++◌, ◌∷◌, IfOk, map};
ghost use Rattle.pattern_lift.specs.Derived.{columns_of_table, derived, derived_schema};
ghost use Rattle.pattern_lift.specs.Lifted.{inside, lifted_from, lifted_op, lifted_over, lifted_plan, lifted_program, names_of_columns, over_derived};
ghost use Rattle.pattern_lift.specs.Prefixes.{prefix, prefix_calls, table_read};

use crate::calls::PatternCalls;
use crate::expressions::{kept, lifted, lifted_items};
use crate::names::call_name;
use crate::prefixes::{behind, joins, names_behind, prefix_calls};
use crate::tables::columns_of_table;
use kql_bound::{
    Op, Ops, Plan, Plans, Program, Source, clone_expand, clone_expr, clone_group, clone_items,
    clone_join, clone_keys, clone_op, clone_parse, clone_scan, clone_series, clone_source,
};
use kql_cells::{Column, KText, NamedSchema, Names, Schemas};
use kql_items::Items;
use std::alloc::{AllocError, Global};

// An operator of a prefix.
#[tactic(auto, using(crate::proofs::PrefixSteps::inside_steps))]
fn inside(alloc: Global, marks: &str, op: &Op) -> Result<Op, AllocError>
    ensures inside { IfOk result (λ o. o ≡ inside marks.now op.now) }
{
    match op {
        Op::Where(e) => Ok(Op::Where(lifted(alloc, marks, e)?)),
        Op::Extend(items) => Ok(Op::Extend(lifted_items(alloc, marks, items.as_slice())?)),
        Op::Project(_) => clone_op(alloc, op),
        Op::Take(_) => clone_op(alloc, op),
        Op::Count => clone_op(alloc, op),
        Op::Serialize => clone_op(alloc, op),
        Op::Sort(_) => clone_op(alloc, op),
        Op::Top(_, _) => clone_op(alloc, op),
        Op::Summarize(_) => clone_op(alloc, op),
        Op::MakeSeries(_) => clone_op(alloc, op),
        Op::MvExpand(_) => clone_op(alloc, op),
        Op::Parse(_) => clone_op(alloc, op),
        Op::Join(_, _) => clone_op(alloc, op),
        Op::Union(_, _) => clone_op(alloc, op),
        Op::Scan(_) => clone_op(alloc, op),
        Op::Partition(_, _) => clone_op(alloc, op),
    }
}

// The operators of the prefix.
#[tactic(auto, unfolding(crate::specs::Prefixes::prefix))]
fn prefix_inside(alloc: Global, marks: &str, ops: &[Op]) -> Result<Ops, AllocError>
    ensures inside { IfOk result (λ os. os ≡ map (inside marks.now) (prefix ops.now)) }
{
    let mut all = Items::new(alloc);
    let mut left = ops;
    'ops: while let Some((op, more)) = left.split_first() {
        if !joins(op) {
            return Ok(all);
        }
        let made = inside(alloc, marks, op)?;
        all.push(made)?;
        left = more;
    }
    Ok(all)
}

// The names of columns.
fn names_of_columns(alloc: Global, columns: &[Column]) -> Result<Names, AllocError>
    ensures names { IfOk result (λ ns. ns ≡ names_of_columns columns.now) }
{
    let mut all = Items::with_capacity(alloc, columns.len())?;
    for column in columns {
        let name = column.name.copy(alloc)?;
        all.push(name)?;
    }
    Ok(all)
}

fn copy_ops(alloc: Global, ops: &[Op]) -> Result<Ops, AllocError>
    ensures same { IfOk result (λ os. os ≡ ops.now) }
{
    let mut all = Items::with_capacity(alloc, ops.len())?;
    for op in ops {
        let copy = clone_op(alloc, op)?;
        all.push(copy)?;
    }
    Ok(all)
}

// The operators of a plan over a derived table.
#[tactic(auto, unfolding(crate::specs::Lifted::over_derived))]
fn over_derived(
    alloc: Global,
    marks: &str,
    columns: &[Column],
    ops: &[Op],
) -> Result<Ops, AllocError>
    ensures ops { IfOk result (λ os. os ≡ over_derived marks.now columns.now ops.now) }
{
    let names = names_of_columns(alloc, columns)?;
    let names = names_behind(alloc, names, ops)?;
    let items = kept(alloc, names.as_slice())?;
    let mut last = Items::new(alloc);
    last.push(Op::Project(items))?;
    let rest = copy_ops(alloc, behind(ops))?;
    last.append(rest)?;
    let mut all = prefix_inside(alloc, marks, ops)?;
    all.append(last)?;
    Ok(all)
}

// A plan over a table of these columns.
#[tactic(auto, unfolding(crate::specs::Lifted::lifted_over))]
fn lifted_over(
    alloc: Global,
    marks: &str,
    columns: &[Column],
    source: &Source,
    calls: &PatternCalls,
    ops: Ops,
) -> Result<Plan, AllocError>
    ensures plan { IfOk result (λ p. p ≡ lifted_over marks.now columns.now source.now calls.now ops) }
{
    match calls.as_slice().first() {
        None => Ok(Plan {
            source: clone_source(alloc, source)?,
            ops,
        }),
        Some(first) => Ok(Plan {
            ops: over_derived(alloc, marks, columns, ops.as_slice())?,
            source: Source::Table(call_name(alloc, marks, first.func.word)?),
        }),
    }
}

// A plan over the table of a name.
fn lifted_over_table(
    alloc: Global,
    marks: &str,
    tables: &[NamedSchema],
    source: &Source,
    name: &KText,
    ops: Ops,
) -> Result<Plan, AllocError>
    ensures plan { IfOk result (λ p. p ≡ lifted_over marks.now (columns_of_table tables.now name.now) source.now (prefix_calls ops) ops) }
{
    let columns = columns_of_table(alloc, tables, name)?;
    let calls = prefix_calls(alloc, ops.as_slice())?;
    lifted_over(alloc, marks, columns.as_slice(), source, &calls, ops)
}

// A plan whose operators hold lifted plans.
#[tactic(auto, unfolding(crate::specs::Lifted::lifted_from))]
fn lifted_from(
    alloc: Global,
    marks: &str,
    tables: &[NamedSchema],
    source: &Source,
    ops: Ops,
) -> Result<Plan, AllocError>
    ensures plan { IfOk result (λ p. p ≡ lifted_from marks.now tables.now source.now (table_read source.now) ops) }
{
    match source {
        Source::Table(name) => lifted_over_table(alloc, marks, tables, source, name, ops),
        Source::Let(_) => Ok(Plan {
            source: clone_source(alloc, source)?,
            ops,
        }),
        Source::Range { .. } => Ok(Plan {
            source: clone_source(alloc, source)?,
            ops,
        }),
        Source::Print(_) => Ok(Plan {
            source: clone_source(alloc, source)?,
            ops,
        }),
    }
}

#[cycle(lift_plan)]
#[tactic(auto, using(crate::proofs::PlanSteps::lifted_plan_steps))]
fn plan(alloc: Global, marks: &str, tables: &[NamedSchema], plan: &Plan) -> Result<Plan, AllocError>
    ensures plan { IfOk result (λ p. p ≡ lifted_plan marks.now tables.now plan.now) }
{
    let made = ops(alloc, marks, tables, plan.ops.as_slice())?;
    lifted_from(alloc, marks, tables, &plan.source, made)
}

#[cycle(lift_plan)]
#[tactic(auto, using(crate::proofs::PlanSteps::lifted_op_steps))]
fn op(alloc: Global, marks: &str, tables: &[NamedSchema], op: &Op) -> Result<Op, AllocError>
    ensures op { IfOk result (λ o. o ≡ lifted_op marks.now tables.now op.now) }
{
    match op {
        Op::Where(e) => Ok(Op::Where(clone_expr(alloc, e)?)),
        Op::Extend(items) => Ok(Op::Extend(clone_items(alloc, items)?)),
        Op::Project(items) => Ok(Op::Project(clone_items(alloc, items)?)),
        Op::Take(n) => Ok(Op::Take(*n)),
        Op::Count => Ok(Op::Count),
        Op::Serialize => Ok(Op::Serialize),
        Op::Sort(keys) => Ok(Op::Sort(clone_keys(alloc, keys)?)),
        Op::Top(n, keys) => Ok(Op::Top(*n, clone_keys(alloc, keys)?)),
        Op::Summarize(g) => Ok(Op::Summarize(clone_group(alloc, g)?)),
        Op::MakeSeries(p) => Ok(Op::MakeSeries(clone_series(alloc, p)?)),
        Op::MvExpand(x) => Ok(Op::MvExpand(clone_expand(alloc, x)?)),
        Op::Parse(p) => Ok(Op::Parse(clone_parse(alloc, p)?)),
        Op::Join(join, right) => Ok(Op::Join(
            clone_join(alloc, join)?,
            plan(alloc, marks, tables, right)?,
        )),
        Op::Union(inner, others) => Ok(Op::Union(
            *inner,
            plans(alloc, marks, tables, others.as_slice())?,
        )),
        Op::Scan(p) => Ok(Op::Scan(clone_scan(alloc, p)?)),
        Op::Partition(column, within) => Ok(Op::Partition(
            column.copy(alloc)?,
            ops(alloc, marks, tables, within.as_slice())?,
        )),
    }
}

#[cycle(lift_plan)]
fn ops(alloc: Global, marks: &str, tables: &[NamedSchema], ops: &[Op]) -> Result<Ops, AllocError>
    ensures ops { IfOk result (λ os. os ≡ map (lifted_op marks.now tables.now) ops.now) }
{
    let mut all = Items::with_capacity(alloc, ops.len())?;
    for one in ops {
        let made = op(alloc, marks, tables, one)?;
        all.push(made)?;
    }
    Ok(all)
}

#[cycle(lift_plan)]
fn plans(
    alloc: Global,
    marks: &str,
    tables: &[NamedSchema],
    plans: &[Plan],
) -> Result<Plans, AllocError>
    ensures plans { IfOk result (λ ps. ps ≡ map (lifted_plan marks.now tables.now) plans.now) }
{
    let mut all = Items::with_capacity(alloc, plans.len())?;
    for one in plans {
        let made = plan(alloc, marks, tables, one)?;
        all.push(made)?;
    }
    Ok(all)
}

// The lets and the main plan of a program.
fn lifted_plans(alloc: Global, marks: &str, p: &Program) -> Result<(Plans, Plan), AllocError>
    ensures plans { IfOk result (λ x. x ≡ (map (lifted_plan marks.now p.now.tables) p.now.lets, lifted_plan marks.now p.now.tables p.now.main)) }
{
    let tables = p.tables.schemas();
    let lets = plans(alloc, marks, tables, p.lets.as_slice())?;
    let main = plan(alloc, marks, tables, &p.main)?;
    Ok((lets, main))
}

/// The lifted program, over the schemas of its own tables and of the derived ones.
#[tactic(auto, unfolding(crate::specs::Lifted::lifted_program))]
pub fn lifted_program(
    alloc: Global,
    marks: &str,
    p: &Program,
    tables: Schemas,
) -> Result<Program, AllocError>
    requires tables { tables ≡ p.now.tables ++ map (derived_schema marks.now p.now.tables) (derived marks.now p.now) }
    ensures program { IfOk result (λ q. q ≡ lifted_program marks.now p.now) }
{
    let (lets, main) = lifted_plans(alloc, marks, p)?;
    Ok(Program { tables, lets, main })
}
