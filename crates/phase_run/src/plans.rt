//! Plans: a source, and operators one after another. Those that hold no plan go by phases, in runs as long as they are.
ghost use Rattle.std.specs.Prelude.{◌≡◌, ◌<◌, ◌++◌, length, map, IfOk, IsFalse, IsTrue, OnOk, Some};
ghost use Rattle.kql_meaning.specs.Plans.{one_after_another, op_means, plan_means};
ghost use Rattle.kql_meaning.specs.Sources.{let_table};
ghost use Rattle.kql_plain.specs.AtHand.{OpFits, OpsFit, PlanFits, PlansFit, plans_mean, world_of};
ghost use Rattle.kql_plain.specs.Inputs.{input_table};
ghost use Rattle.kql_plain.specs.Moved.{left_behind, moved_let};
ghost use Rattle.kql_plain.specs.Readings.{is_let_not, ops_name};
ghost use Rattle.phase_forms.specs.Held.{holds_plan};
ghost use Rattle.phase_forms.specs.Phases.{ops_phases, part_of, plan_phases, plans_phases, told};
ghost use Rattle.phase_run.specs.Reports.{Tells};

use crate::joins::run_told_join;
use crate::phases::run_ops;
use crate::report::{PhaseReport, Phases};
use kql_bound::{Op, Plan};
use kql_outside::Gate;
use kql_plain::{Input, emptied, lent_tables, moved_let, source_table};
use kql_values::{Catalogue, Table};
use phase_forms::holds_plan;
use std::alloc::{AllocError, Global};
use std::mem::replace;
use std::thread::Threads;
use table_ops::union_tables;

/// The table of a plan: its source, and then its operators. Where the source is the last reading of a let, the let's table is moved, and
/// its columns stay in its place, without rows.
pub(crate) fn plan_table<R: Threads + Sync, G: Gate + Sync>(
    rt: &R,
    gate: &G,
    phases: &mut Phases,
    alloc: Global,
    plan: &Plan,
    catalogue: &Catalogue,
    lets: &mut [Table],
    is_last: bool,
) -> Result<Table, AllocError>
    requires fits { PlanFits plan.now (world_of catalogue.now lets.old) }
    requires last { IsTrue is_last → IsTrue (is_let_not (λ i. ops_name i plan.now.ops) plan.now.source) }
    ensures table { IfOk result (λ t. t ≡ plan_means plan.now (world_of catalogue.now lets.old)) }
    ensures lets { OnOk result (lets.new ≡ left_behind (moved_let is_last plan.now.source) lets.old) }
    ensures told { OnOk result (Tells phases.old phases.new (λ many. plan_phases many plan.now)) }
{
    match moved_let(&plan.source, is_last) {
        Some(at) => {
            let table = moved_table(
                rt,
                gate,
                phases,
                alloc,
                at,
                plan.ops.as_slice(),
                catalogue,
                lets,
            )?;
            Ok(table)
        }
        None => {
            let table = lent_table(rt, gate, phases, alloc, plan, catalogue, lets)?;
            Ok(table)
        }
    }
}

// What operators that do not name a let make of its table, which is moved.
fn moved_table<R: Threads + Sync, G: Gate + Sync>(
    rt: &R,
    gate: &G,
    phases: &mut Phases,
    alloc: Global,
    at: usize,
    ops: &[Op],
    catalogue: &Catalogue,
    lets: &mut [Table],
) -> Result<Table, AllocError>
    requires there { at < length lets.old }
    requires fits { OpsFit ops.now (world_of catalogue.now lets.old) (let_table lets.old at) }
    requires free { IsFalse (ops_name at ops.now) }
    ensures table { IfOk result (λ t. t ≡ one_after_another (map op_means ops.now) (world_of catalogue.now lets.old) (let_table lets.old at)) }
    ensures lets { OnOk result (lets.new ≡ left_behind (Some at) lets.old) }
    ensures told { OnOk result (Tells phases.old phases.new (λ many. ops_phases many ops.now)) }
{
    let empty = emptied(alloc, &lets[at])?;
    let table = replace(&mut lets[at], empty);
    let made = ops_input(
        rt,
        gate,
        phases,
        alloc,
        ops,
        catalogue,
        lets,
        Input::Owned(table),
    )?;
    let table = made.into_table(alloc)?;
    Ok(table)
}

// The table of a plan. One of the catalogue or of a let is read where it stands, and copied where the plan changes it.
fn lent_table<R: Threads + Sync, G: Gate + Sync>(
    rt: &R,
    gate: &G,
    phases: &mut Phases,
    alloc: Global,
    plan: &Plan,
    catalogue: &Catalogue,
    lets: &[Table],
) -> Result<Table, AllocError>
    requires fits { PlanFits plan.now (world_of catalogue.now lets.now) }
    ensures table { IfOk result (λ t. t ≡ plan_means plan.now (world_of catalogue.now lets.now)) }
    ensures told { OnOk result (Tells phases.old phases.new (λ many. plan_phases many plan.now)) }
{
    let made = plan_input(rt, gate, phases, alloc, plan, catalogue, lets)?;
    let table = made.into_table(alloc)?;
    Ok(table)
}

// The same, to be read: a plan that is a source alone lends a table of the catalogue or of a let.
#[cycle(plan_input)]
#[tactic(auto, using(kql_plain::proofs::PlanLaws::plan_steps))]
fn plan_input<'a, R: Threads + Sync, G: Gate + Sync>(
    rt: &R,
    gate: &G,
    phases: &mut Phases,
    alloc: Global,
    plan: &Plan,
    catalogue: &'a Catalogue,
    lets: &'a [Table],
) -> Result<Input<'a>, AllocError>
    requires fits { PlanFits plan.now (world_of catalogue.now lets.now) }
    ensures table { IfOk result (λ t. input_table t ≡ plan_means plan.now (world_of catalogue.now lets.now)) }
    ensures told { OnOk result (Tells phases.old phases.new (λ many. plan_phases many plan.now)) }
{
    match source_table(alloc, &plan.source, catalogue, lets) {
        Ok(source) => ops_input(
            rt,
            gate,
            phases,
            alloc,
            plan.ops.as_slice(),
            catalogue,
            lets,
            source,
        ),
        Err(e) => Err(e),
    }
}

// The tables of plans, in order, to be read.
#[cycle(plan_input)]
fn plans_inputs<'a, R: Threads + Sync, G: Gate + Sync>(
    rt: &R,
    gate: &G,
    phases: &mut Phases,
    alloc: Global,
    plans: &[Plan],
    catalogue: &'a Catalogue,
    lets: &'a [Table],
) -> Result<Vec<Input<'a>>, AllocError>
    requires fits { PlansFit plans.now (world_of catalogue.now lets.now) }
    ensures tables { IfOk result (λ ts. map input_table ts.items ≡ plans_mean plans.now (world_of catalogue.now lets.now)) }
    ensures told { OnOk result (Tells phases.old phases.new (λ many. plans_phases many plans.now)) }
{
    let mut made = Vec::with_capacity(alloc, plans.len())?;
    for plan in plans {
        let table = plan_input(rt, gate, phases, alloc, plan, catalogue, lets)?;
        made.push(table)?;
    }
    Ok(made)
}

// What operators make of a table, one after another.
#[cycle(plan_input)]
fn ops_input<'a, R: Threads + Sync, G: Gate + Sync>(
    rt: &R,
    gate: &G,
    phases: &mut Phases,
    alloc: Global,
    ops: &[Op],
    catalogue: &Catalogue,
    lets: &[Table],
    from: Input<'a>,
) -> Result<Input<'a>, AllocError>
    requires fits { OpsFit ops.now (world_of catalogue.now lets.now) (input_table from) }
    ensures table { IfOk result (λ t. input_table t ≡ one_after_another (map op_means ops.now) (world_of catalogue.now lets.now) (input_table from.entry)) }
    ensures told { OnOk result (Tells phases.old phases.new (λ many. ops_phases many ops.now)) }
{
    let mut made = from;
    let mut begun = 0;
    let mut at = 0;
    for op in ops {
        if holds_plan(op) {
            let before = run_ops(
                rt,
                gate,
                phases,
                alloc,
                &ops[begun..at],
                catalogue,
                lets,
                made,
            )?;
            let next = op_table(rt, gate, phases, alloc, op, catalogue, lets, before)?;
            made = Input::Owned(next);
            begun = at + 1;
        }
        at += 1;
    }
    let last = run_ops(
        rt,
        gate,
        phases,
        alloc,
        &ops[begun..],
        catalogue,
        lets,
        made,
    )?;
    Ok(last)
}

// What an operator that holds plans makes of a table.
#[cycle(plan_input)]
#[tactic(auto, using(kql_plain::proofs::OperatorLaws::op_steps, phase_forms::proofs::HeldLaws::held_steps))]
fn op_table<R: Threads + Sync, G: Gate + Sync>(
    rt: &R,
    gate: &G,
    phases: &mut Phases,
    alloc: Global,
    op: &Op,
    catalogue: &Catalogue,
    lets: &[Table],
    from: Input<'_>,
) -> Result<Table, AllocError>
    requires fits { OpFits op.now (world_of catalogue.now lets.now) (input_table from) }
    requires holds { IsTrue (holds_plan op.now) }
    ensures table { IfOk result (λ t. t ≡ op_means op.now (world_of catalogue.now lets.now) (input_table from.entry)) }
    ensures told { OnOk result (Tells phases.old phases.new (λ many. (part_of many op.now).inner ++ told (part_of many op.now).form (part_of many op.now).rounds)) }
{
    match op {
        Op::Where(_) => unreachable!(),
        Op::Extend(_) => unreachable!(),
        Op::Project(_) => unreachable!(),
        Op::Take(_) => unreachable!(),
        Op::Count => unreachable!(),
        Op::Serialize => unreachable!(),
        Op::Sort(_) => unreachable!(),
        Op::Top(_, _) => unreachable!(),
        Op::Summarize(_) => unreachable!(),
        Op::MakeSeries(_) => unreachable!(),
        Op::MvExpand(_) => unreachable!(),
        Op::Parse(_) => unreachable!(),
        Op::Join(join, right) => {
            let right = plan_input(rt, gate, phases, alloc, right, catalogue, lets)?;
            run_told_join(
                rt,
                gate,
                phases,
                alloc,
                join,
                from.as_table(),
                right.as_table(),
            )
        }
        Op::Union(inner, others) => {
            let others = plans_inputs(rt, gate, phases, alloc, others.as_slice(), catalogue, lets)?;
            phases.tell(PhaseReport::Whole)?;
            let tables = lent_tables(alloc, others.as_slice())?;
            union_tables(alloc, *inner, from.as_table(), tables.as_slice())
        }
        Op::Scan(_) => unreachable!(),
        Op::Partition(_, _) => unreachable!(),
    }
}
