//! Plans, and the operators and plans in their operators.
ghost use Rattle.std.specs.Prelude.{◌≡◌, ◌&&◌, IfOk, Some};
ghost use Rattle.std.specs.List.{list_all};
ghost use Rattle.kql_bound.specs.declared.plan.Op.{Op};
ghost use Rattle.pattern_lift.specs.Derived.{columns_of_table};
ghost use Rattle.pattern_lift.specs.Prefixes.{table_read};
ghost use Rattle.pattern_laws.specs.Liftable.{columns_read, has_no_calls, ops_are_liftable, plan_is_liftable, source_is_own, within_is_liftable};

use crate::marks::begins_with;
use crate::operators::{has_no_calls, have_no_calls, prefix_is_liftable, text_columns};
use kql_bound::{Op, Plan, Source};
use kql_cells::{KText, NamedSchema};
use pattern_lift::{behind, columns_of_table};
use std::alloc::{AllocError, Global};

fn source_is_own(marks: &str, source: &Source) -> bool
    ensures own { result ≡ source_is_own marks.now (table_read source.now) }
{
    match source {
        Source::Table(name) => !begins_with(marks, name.as_str()),
        Source::Let(_) => true,
        Source::Range { .. } => true,
        Source::Print(_) => true,
    }
}

// The operators of a plan over the table of a name.
#[tactic(auto, unfolding(pattern_laws::specs::Liftable::ops_are_liftable))]
fn over_table(
    alloc: Global,
    marks: &str,
    tables: &[NamedSchema],
    name: &KText,
    ops: &[Op],
) -> Result<bool, AllocError>
    ensures liftable { IfOk result (λ b. b ≡ ops_are_liftable marks.now (Some (columns_of_table tables.now name.now)) ops.now) }
{
    let columns = columns_of_table(alloc, tables, name)?;
    let lent = text_columns(alloc, columns.as_slice())?;
    if !prefix_is_liftable(alloc, marks, lent, ops)? {
        return Ok(false);
    }
    Ok(have_no_calls(behind(ops)))
}

#[tactic(auto, unfolding(pattern_laws::specs::Liftable::ops_are_liftable))]
fn ops_are_liftable(
    alloc: Global,
    marks: &str,
    tables: &[NamedSchema],
    source: &Source,
    ops: &[Op],
) -> Result<bool, AllocError>
    ensures liftable { IfOk result (λ b. b ≡ ops_are_liftable marks.now (columns_read tables.now (table_read source.now)) ops.now) }
{
    match source {
        Source::Table(name) => over_table(alloc, marks, tables, name, ops),
        Source::Let(_) => Ok(have_no_calls(ops)),
        Source::Range { .. } => Ok(have_no_calls(ops)),
        Source::Print(_) => Ok(have_no_calls(ops)),
    }
}

/// Whether a plan can be lifted.
#[cycle(liftable)]
#[tactic(auto, using(crate::proofs::PlaceSteps::plan_steps))]
pub(crate) fn plan_is_liftable(
    alloc: Global,
    marks: &str,
    tables: &[NamedSchema],
    plan: &Plan,
) -> Result<bool, AllocError>
    ensures liftable { IfOk result (λ b. b ≡ plan_is_liftable marks.now tables.now plan.now) }
{
    if !source_is_own(marks, &plan.source) {
        return Ok(false);
    }
    if !ops_are_liftable(alloc, marks, tables, &plan.source, plan.ops.as_slice())? {
        return Ok(false);
    }
    within_all(alloc, marks, tables, plan.ops.as_slice())
}

#[cycle(liftable)]
fn within_all(
    alloc: Global,
    marks: &str,
    tables: &[NamedSchema],
    ops: &[Op],
) -> Result<bool, AllocError>
    ensures liftable { IfOk result (λ b. b ≡ list_all (within_is_liftable marks.now tables.now) ops.now) }
{
    for op in ops {
        if !within_is_liftable(alloc, marks, tables, op)? {
            return Ok(false);
        }
    }
    Ok(true)
}

// The operators of a subquery, in which no calls stand.
#[cycle(liftable)]
fn apart_all(
    alloc: Global,
    marks: &str,
    tables: &[NamedSchema],
    ops: &[Op],
) -> Result<bool, AllocError>
    ensures liftable { IfOk result (λ b. b ≡ list_all (λ (o : Op). has_no_calls o && within_is_liftable marks.now tables.now o) ops.now) }
{
    for op in ops {
        if !has_no_calls(op) {
            return Ok(false);
        }
        if !within_is_liftable(alloc, marks, tables, op)? {
            return Ok(false);
        }
    }
    Ok(true)
}

/// The same of several plans.
#[cycle(liftable)]
pub(crate) fn plans_are_liftable(
    alloc: Global,
    marks: &str,
    tables: &[NamedSchema],
    plans: &[Plan],
) -> Result<bool, AllocError>
    ensures liftable { IfOk result (λ b. b ≡ list_all (plan_is_liftable marks.now tables.now) plans.now) }
{
    for plan in plans {
        if !plan_is_liftable(alloc, marks, tables, plan)? {
            return Ok(false);
        }
    }
    Ok(true)
}

#[cycle(liftable)]
#[tactic(auto, using(crate::proofs::PlaceSteps::within_steps))]
fn within_is_liftable(
    alloc: Global,
    marks: &str,
    tables: &[NamedSchema],
    op: &Op,
) -> Result<bool, AllocError>
    ensures liftable { IfOk result (λ b. b ≡ within_is_liftable marks.now tables.now op.now) }
{
    match op {
        Op::Where(_) => Ok(true),
        Op::Extend(_) => Ok(true),
        Op::Project(_) => Ok(true),
        Op::Take(_) => Ok(true),
        Op::Count => Ok(true),
        Op::Serialize => Ok(true),
        Op::Sort(_) => Ok(true),
        Op::Top(_, _) => Ok(true),
        Op::Summarize(_) => Ok(true),
        Op::MakeSeries(_) => Ok(true),
        Op::MvExpand(_) => Ok(true),
        Op::Parse(_) => Ok(true),
        Op::Join(_, right) => plan_is_liftable(alloc, marks, tables, right),
        Op::Union(_, others) => plans_are_liftable(alloc, marks, tables, others.as_slice()),
        Op::Scan(_) => Ok(true),
        Op::Partition(_, ops) => apart_all(alloc, marks, tables, ops.as_slice()),
    }
}
