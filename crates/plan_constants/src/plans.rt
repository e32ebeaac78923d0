//! What operators, plans and programs become.
ghost use Rattle.std.specs.Prelude.{◌≡◌, IfOk, map};
ghost use Rattle.plan_rules.specs.FoldedPlans.{folded_op, folded_plan, folded_program, folded_source};

use crate::exprs::folded_expr;
use crate::parts::{expand, group, items, keys, parse, scan, series};
use kql_bound::{Op, Ops, Plan, Plans, Program, Source, clone_join, clone_source};
use kql_cells::Schemas;
use kql_items::Items;
use std::alloc::{AllocError, Global};

#[tactic(auto, unfolding(plan_rules::specs::FoldedPlans::folded_source))]
fn source(alloc: Global, source: &Source) -> Result<Source, AllocError>
    ensures source { IfOk result (λ x. x ≡ folded_source source.now) }
{
    match source {
        Source::Table(_) => clone_source(alloc, source),
        Source::Let(_) => clone_source(alloc, source),
        Source::Range { .. } => clone_source(alloc, source),
        Source::Print(printed) => Ok(Source::Print(items(alloc, printed.as_slice())?)),
    }
}

#[cycle(fold_plan)]
#[tactic(auto, using(plan_rules::proofs::FoldedPlanSteps::folding_plan_steps))]
fn plan(alloc: Global, plan: &Plan) -> Result<Plan, AllocError>
    ensures plan { IfOk result (λ x. x ≡ folded_plan plan.now) }
{
    Ok(Plan {
        ops: ops(alloc, plan.ops.as_slice())?,
        source: source(alloc, &plan.source)?,
    })
}

#[cycle(fold_plan)]
#[tactic(auto, using(plan_rules::proofs::FoldedPlanSteps::folding_op_steps))]
fn op(alloc: Global, op: &Op) -> Result<Op, AllocError>
    ensures op { IfOk result (λ x. x ≡ folded_op op.now) }
{
    match op {
        Op::Where(e) => Ok(Op::Where(folded_expr(alloc, e)?)),
        Op::Extend(set) => Ok(Op::Extend(items(alloc, set.as_slice())?)),
        Op::Project(set) => Ok(Op::Project(items(alloc, set.as_slice())?)),
        Op::Take(n) => Ok(Op::Take(*n)),
        Op::Count => Ok(Op::Count),
        Op::Serialize => Ok(Op::Serialize),
        Op::Sort(by) => Ok(Op::Sort(keys(alloc, by.as_slice())?)),
        Op::Top(n, by) => Ok(Op::Top(*n, keys(alloc, by.as_slice())?)),
        Op::Summarize(g) => Ok(Op::Summarize(group(alloc, g)?)),
        Op::MakeSeries(s) => Ok(Op::MakeSeries(series(alloc, s)?)),
        Op::MvExpand(x) => Ok(Op::MvExpand(expand(alloc, x)?)),
        Op::Parse(p) => Ok(Op::Parse(parse(alloc, p)?)),
        Op::Join(join, right) => Ok(Op::Join(clone_join(alloc, join)?, plan(alloc, right)?)),
        Op::Union(inner, others) => Ok(Op::Union(*inner, plans(alloc, others.as_slice())?)),
        Op::Scan(s) => Ok(Op::Scan(scan(alloc, s)?)),
        Op::Partition(column, within) => Ok(Op::Partition(
            column.copy(alloc)?,
            ops(alloc, within.as_slice())?,
        )),
    }
}

#[cycle(fold_plan)]
fn ops(alloc: Global, ops: &[Op]) -> Result<Ops, AllocError>
    ensures ops { IfOk result (λ xs. xs ≡ map folded_op ops.now) }
{
    let mut all = Items::with_capacity(alloc, ops.len())?;
    for one in ops {
        let made = op(alloc, one)?;
        all.push(made)?;
    }
    Ok(all)
}

#[cycle(fold_plan)]
fn plans(alloc: Global, plans: &[Plan]) -> Result<Plans, AllocError>
    ensures plans { IfOk result (λ xs. xs ≡ map folded_plan plans.now) }
{
    let mut all = Items::with_capacity(alloc, plans.len())?;
    for one in plans {
        let made = plan(alloc, one)?;
        all.push(made)?;
    }
    Ok(all)
}

// The lets and the main plan of a program.
fn folded_plans(alloc: Global, p: &Program) -> Result<(Plans, Plan), AllocError>
    ensures plans { IfOk result (λ x. x ≡ (map folded_plan p.now.lets, folded_plan p.now.main)) }
{
    let lets = plans(alloc, p.lets.as_slice())?;
    let main = plan(alloc, &p.main)?;
    Ok((lets, main))
}

// The tables of a program whose plans are let go of.
fn tables_of(p: Program) -> Schemas
    ensures tables { result ≡ p.tables }
{
    let Program { tables, lets, main } = p;
    drop(lets);
    drop(main);
    tables
}

/// A program in which each constant is the literal of its value.
#[tactic(auto, unfolding(plan_rules::specs::FoldedPlans::folded_program))]
pub fn fold_constants(alloc: Global, p: Program) -> Result<Program, AllocError>
    ensures program { IfOk result (λ q. q ≡ folded_program p) }
{
    let made = folded_plans(alloc, &p);
    let tables = tables_of(p);
    let (lets, main) = made?;
    Ok(Program { tables, lets, main })
}
