//! The derived tables of plans and programs.
ghost use Rattle.std.specs.Prelude.{◌≡◌, ◌++◌, ◌∷◌, [], IfOk};
ghost use Rattle.kql_functions.specs.Kinds.{pattern_kind};
ghost use Rattle.pattern_lift.specs.Derived.{added_columns, columns_of_table, derived, derived_at, derived_in, derived_in_op, derived_in_ops, derived_in_plans, derived_over};
ghost use Rattle.pattern_lift.specs.Prefixes.{table_read};

use crate::calls::{Derived, DerivedTables, PatternCall, PatternCalls};
use crate::names::call_name;
use crate::prefixes::prefix_calls;
use kql_bound::{Op, Plan, Program, Source};
use kql_cells::{Column, KText, Kind, NamedSchema, copy_columns};
use kql_functions::PatternFunc;
use kql_items::Items;
use std::alloc::{AllocError, Global};

// The table that stands in the place of a prefix with calls.
#[tactic(auto, unfolding(crate::specs::Derived::derived_over))]
fn derived_over(
    alloc: Global,
    marks: &str,
    table: &KText,
    calls: PatternCalls,
) -> Result<DerivedTables, AllocError>
    ensures derived { IfOk result (λ ds. ds ≡ derived_over marks.now table.now calls) }
{
    match calls.as_slice().first() {
        None => Ok(Items::new(alloc)),
        Some(first) => {
            let name = call_name(alloc, marks, first.func.word)?;
            one_derived(alloc, name, table, calls)
        }
    }
}

fn one_derived(
    alloc: Global,
    name: KText,
    table: &KText,
    calls: PatternCalls,
) -> Result<DerivedTables, AllocError>
    ensures one { IfOk result (λ ds. ds ≡ record { name = name; table = table.now; calls = calls } ∷ []) }
{
    let table = table.copy(alloc)?;
    let mut all = Items::new(alloc);
    all.push(Derived { name, table, calls })?;
    Ok(all)
}

#[tactic(auto, unfolding(crate::specs::Derived::derived_at))]
fn derived_at(
    alloc: Global,
    marks: &str,
    source: &Source,
    calls: PatternCalls,
) -> Result<DerivedTables, AllocError>
    ensures derived { IfOk result (λ ds. ds ≡ derived_at marks.now (table_read source.now) calls) }
{
    match source {
        Source::Table(name) => derived_over(alloc, marks, name, calls),
        Source::Let(_) => Ok(Items::new(alloc)),
        Source::Range { .. } => Ok(Items::new(alloc)),
        Source::Print(_) => Ok(Items::new(alloc)),
    }
}

// Those of a plan: that of its own prefix, and then those of the plans in its operators.
#[cycle(derived)]
#[tactic(auto, using(crate::proofs::PlanSteps::derived_plan_steps))]
fn derived_in(alloc: Global, marks: &str, plan: &Plan) -> Result<DerivedTables, AllocError>
    ensures derived { IfOk result (λ ds. ds ≡ derived_in marks.now plan.now) }
{
    let more = derived_in_ops(alloc, marks, plan.ops.as_slice())?;
    let calls = prefix_calls(alloc, plan.ops.as_slice())?;
    let mut all = derived_at(alloc, marks, &plan.source, calls)?;
    all.append(more)?;
    Ok(all)
}

#[cycle(derived)]
#[tactic(auto, unfolding(crate::specs::Derived::derived_in_ops))]
fn derived_in_ops(alloc: Global, marks: &str, ops: &[Op]) -> Result<DerivedTables, AllocError>
    ensures derived { IfOk result (λ ds. ds ≡ derived_in_ops marks.now ops.now) }
{
    let mut all = Items::new(alloc);
    for one in ops {
        let more = derived_in_op(alloc, marks, one)?;
        all.append(more)?;
    }
    Ok(all)
}

#[cycle(derived)]
#[tactic(auto, unfolding(crate::specs::Derived::derived_in_plans))]
fn derived_in_plans(alloc: Global, marks: &str, plans: &[Plan]) -> Result<DerivedTables, AllocError>
    ensures derived { IfOk result (λ ds. ds ≡ derived_in_plans marks.now plans.now) }
{
    let mut all = Items::new(alloc);
    for one in plans {
        let more = derived_in(alloc, marks, one)?;
        all.append(more)?;
    }
    Ok(all)
}

#[cycle(derived)]
#[tactic(auto, using(crate::proofs::PlanSteps::derived_op_steps))]
fn derived_in_op(alloc: Global, marks: &str, op: &Op) -> Result<DerivedTables, AllocError>
    ensures derived { IfOk result (λ ds. ds ≡ derived_in_op marks.now op.now) }
{
    match op {
        Op::Where(_) => Ok(Items::new(alloc)),
        Op::Extend(_) => Ok(Items::new(alloc)),
        Op::Project(_) => Ok(Items::new(alloc)),
        Op::Take(_) => Ok(Items::new(alloc)),
        Op::Count => Ok(Items::new(alloc)),
        Op::Serialize => Ok(Items::new(alloc)),
        Op::Sort(_) => Ok(Items::new(alloc)),
        Op::Top(_, _) => Ok(Items::new(alloc)),
        Op::Summarize(_) => Ok(Items::new(alloc)),
        Op::MakeSeries(_) => Ok(Items::new(alloc)),
        Op::MvExpand(_) => Ok(Items::new(alloc)),
        Op::Parse(_) => Ok(Items::new(alloc)),
        Op::Join(_, right) => derived_in(alloc, marks, right),
        Op::Union(_, others) => derived_in_plans(alloc, marks, others.as_slice()),
        Op::Scan(_) => Ok(Items::new(alloc)),
        Op::Partition(_, ops) => derived_in_ops(alloc, marks, ops.as_slice()),
    }
}

/// The derived tables of a program, each a prefix with calls, in the order of its text.
#[tactic(auto, unfolding(crate::specs::Derived::derived))]
pub fn derived_tables(alloc: Global, marks: &str, p: &Program) -> Result<DerivedTables, AllocError>
    ensures derived { IfOk result (λ ds. ds ≡ derived marks.now p.now) }
{
    let mut all = derived_in_plans(alloc, marks, p.lets.as_slice())?;
    let more = derived_in(alloc, marks, &p.main)?;
    all.append(more)?;
    Ok(all)
}

// The type of what a call answers.
fn answer_kind(f: PatternFunc) -> Kind
    ensures kind { result ≡ pattern_kind f.group }
{
    match f.group {
        None => Kind::Bool,
        Some(_) => Kind::Text,
    }
}

// The columns that calls add.
#[tactic(auto, unfolding(crate::specs::Derived::added_columns))]
fn added_columns(
    alloc: Global,
    marks: &str,
    calls: &[PatternCall],
) -> Result<Items<Column>, AllocError>
    ensures added { IfOk result (λ cs. cs ≡ added_columns marks.now calls.now) }
{
    let mut all = Items::with_capacity(alloc, calls.len())?;
    for call in calls {
        let name = call_name(alloc, marks, call.func.word)?;
        let kind = answer_kind(call.func);
        all.push(Column { name, kind })?;
    }
    Ok(all)
}

/// The columns of a table of a program.
#[tactic(auto, unfolding(crate::specs::Derived::columns_of_table))]
pub fn columns_of_table(
    alloc: Global,
    tables: &[NamedSchema],
    name: &KText,
) -> Result<Items<Column>, AllocError>
    ensures columns { IfOk result (λ cs. cs ≡ columns_of_table tables.now name.now) }
{
    let mut left = tables;
    'tables: while let Some((named, more)) = left.split_first() {
        if named.name.as_str() == name.as_str() {
            return copy_columns(alloc, named.schema.columns());
        }
        left = more;
    }
    Ok(Items::new(alloc))
}

/// The columns of a derived table: those of its table, followed by the added ones.
pub fn derived_columns(
    alloc: Global,
    marks: &str,
    tables: &[NamedSchema],
    d: &Derived,
) -> Result<Items<Column>, AllocError>
    ensures columns { IfOk result (λ cs. cs ≡ columns_of_table tables.now d.now.table ++ added_columns marks.now d.now.calls) }
{
    let mut all = columns_of_table(alloc, tables, &d.table)?;
    let added = added_columns(alloc, marks, d.calls.as_slice())?;
    all.append(added)?;
    Ok(all)
}
