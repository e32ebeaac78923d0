//! The places at which rules fire, in operators and in the plans in them, and the loop over it.
ghost use Rattle.std.specs.Prelude.{◌≡◌, ◌++◌, ◌∷◌, [], drop, take, true, IfOk, IsSome, MatchOption, OnOk, length, ◌<◌, ◌+◌, is_some, option_map, unwrap_or};
ghost use Rattle.std.specs.List.{list_all};
ghost use Rattle.kql_meaning.specs.Fits.{known_of, op_columns, ops_columns, plan_columns, plans_columns, program_columns};
ghost use Rattle.plan_rules.specs.Becomes.{ProgramBecomes};
ghost use Rattle.kql_bound.specs.declared.plan.Op.TheVariants as op;
ghost use Rattle.plan_rules.specs.Improves.{Improves, IsNoLonger, PlanImproves, PlansImprove, ProgramImproves};
ghost use Rattle.plan_push.specs.Settled.{is_quiet, settled, settled_op, settled_ops, settled_plan};

use crate::walk::{either, walked};
use kql_bound::{
    JoinPlan, Op, Ops, Plan, Plans, Program, clone_join, clone_op, clone_plan, clone_plans,
    clone_program, clone_source,
};
use kql_cells::{Column, KText, NamedSchema, copy_columns};
use kql_items::Items;
use plan_columns::{op_makes, plan_makes, source_makes};
use plan_constants::fold_constants;
use std::alloc::{AllocError, Global};

// An operator, or what it becomes, behind others. Tells whether it becomes another.
fn push_op(alloc: Global, all: &mut Ops, op: &Op, made: Option<Op>) -> Result<bool, AllocError>
    ensures added { OnOk result (all.new ≡ all.old ++ unwrap_or made op.now ∷ []) }
    ensures fired { IfOk result (λ fired. fired ≡ is_some made) }
{
    let Some(made) = made else {
        let copy = clone_op(alloc, op)?;
        all.push(copy)?;
        return Ok(false);
    };
    all.push(made)?;
    Ok(true)
}

/// What operators become where rules fire at some of them or some of them become others, or none where they are settled.
#[cycle(rewrite)]
fn rewritten_ops(
    alloc: Global,
    ops: &[Op],
    tables: &[NamedSchema],
    lets: &[Items<Column>],
    inside: bool,
    columns: &[Column],
) -> Result<Option<Ops>, AllocError>
    requires { IsSome (ops_columns ops.now (known_of tables.now lets.now) inside columns.now) }
    ensures found { IfOk result (λ o. MatchOption o (settled_ops ops.now (known_of tables.now lets.now) inside columns.now ≡ true) (λ made. Improves (known_of tables.now lets.now) inside columns.now ops.now made)) }
{
    if let Some(made) = walked(alloc, ops, tables, lets, inside, columns)? {
        return Ok(Some(made));
    }
    let mut before = copy_columns(alloc, columns)?;
    let mut all = Items::new(alloc);
    let mut changed = false;
    for i in 0..ops.len() {
        let made = rewritten_op(alloc, &ops[i], tables, lets, inside, before.as_slice())?;
        let fired = push_op(alloc, &mut all, &ops[i], made)?;
        let next = op_makes(alloc, &ops[i], tables, lets, before.as_slice())?;
        before = next;
        changed = either(changed, fired);
    }
    if changed {
        return Ok(Some(all));
    }
    Ok(None)
}

/// The same in an operator.
#[cycle(rewrite)]
#[tactic(auto, using(crate::proofs::SettledSteps::settled_steps))]
fn rewritten_op(
    alloc: Global,
    op: &Op,
    tables: &[NamedSchema],
    lets: &[Items<Column>],
    inside: bool,
    columns: &[Column],
) -> Result<Option<Op>, AllocError>
    requires { IsSome (op_columns op.now (known_of tables.now lets.now) inside columns.now) }
    ensures found { IfOk result (λ o. MatchOption o (settled_op op.now (known_of tables.now lets.now) inside columns.now ≡ true) (λ made. Improves (known_of tables.now lets.now) inside columns.now (op.now ∷ []) (made ∷ []))) }
{
    match op {
        Op::Where(_) => Ok(None),
        Op::Extend(_) => Ok(None),
        Op::Project(_) => Ok(None),
        Op::Take(_) => Ok(None),
        Op::Count => Ok(None),
        Op::Serialize => Ok(None),
        Op::Sort(_) => Ok(None),
        Op::Top(_, _) => Ok(None),
        Op::Summarize(_) => Ok(None),
        Op::MakeSeries(_) => Ok(None),
        Op::MvExpand(_) => Ok(None),
        Op::Parse(_) => Ok(None),
        Op::Join(join, right) => {
            let made = rewritten_plan(alloc, right, tables, lets)?;
            in_join(alloc, join, made)
        }
        Op::Union(inner, others) => {
            let made = rewritten_plans(alloc, others.as_slice(), tables, lets)?;
            Ok(in_union(*inner, made))
        }
        Op::Scan(_) => Ok(None),
        Op::Partition(key, ops) => {
            let made = rewritten_ops(alloc, ops.as_slice(), tables, lets, true, columns)?;
            in_partition(alloc, key, made)
        }
    }
}

// A join with another right plan, where there is one.
fn in_join(alloc: Global, join: &JoinPlan, right: Option<Plan>) -> Result<Option<Op>, AllocError>
    ensures op { IfOk result (λ o. o ≡ option_map (λ p. op.Join join.now p) right) }
{
    let Some(right) = right else {
        return Ok(None);
    };
    match clone_join(alloc, join) {
        Ok(join) => Ok(Some(Op::Join(join, right))),
        Err(fault) => {
            drop(right);
            Err(fault)
        }
    }
}

// A union with other plans, where there are some.
fn in_union(inner: bool, others: Option<Plans>) -> Option<Op>
    ensures op { result ≡ option_map (λ ps. op.Union inner ps) others }
{
    let Some(others) = others else {
        return None;
    };
    Some(Op::Union(inner, others))
}

// A partition with another subquery, where there is one.
fn in_partition(alloc: Global, key: &KText, ops: Option<Ops>) -> Result<Option<Op>, AllocError>
    ensures op { IfOk result (λ o. o ≡ option_map (λ os. op.Partition key.now os) ops) }
{
    let Some(ops) = ops else {
        return Ok(None);
    };
    let key = key.copy(alloc)?;
    Ok(Some(Op::Partition(key, ops)))
}

// Copies of plans, with another in the place of one of them.
fn plans_with(alloc: Global, plans: &[Plan], at: usize, made: Plan) -> Result<Plans, AllocError>
    requires { at < length plans.now }
    ensures all { IfOk result (λ all. all ≡ take at plans.now ++ made ∷ drop (at + 1) plans.now) }
{
    let mut all = plans_before(alloc, plans, at)?;
    all.push(made)?;
    for plan in &plans[at + 1..] {
        let copy = clone_plan(alloc, plan)?;
        all.push(copy)?;
    }
    Ok(all)
}

fn plans_before(alloc: Global, plans: &[Plan], at: usize) -> Result<Plans, AllocError>
    requires { at < length plans.now }
    ensures all { IfOk result (λ all. all ≡ take at plans.now) }
{
    let mut all = Items::new(alloc);
    for i in 0..at {
        let copy = clone_plan(alloc, &plans[i])?;
        all.push(copy)?;
    }
    Ok(all)
}

/// The same in several plans.
#[cycle(rewrite)]
fn rewritten_plans(
    alloc: Global,
    plans: &[Plan],
    tables: &[NamedSchema],
    lets: &[Items<Column>],
) -> Result<Option<Plans>, AllocError>
    requires { IsSome (plans_columns plans.now (known_of tables.now lets.now)) }
    ensures found { IfOk result (λ o. MatchOption o (list_all (λ p. settled_plan p (known_of tables.now lets.now)) plans.now ≡ true) (λ made. PlansImprove (known_of tables.now lets.now) plans.now made)) }
{
    for i in 0..plans.len() {
        if let Some(made) = rewritten_plan(alloc, &plans[i], tables, lets)? {
            let all = plans_with(alloc, plans, i, made)?;
            return Ok(Some(all));
        }
    }
    Ok(None)
}

/// The same in a plan.
#[cycle(rewrite)]
fn rewritten_plan(
    alloc: Global,
    plan: &Plan,
    tables: &[NamedSchema],
    lets: &[Items<Column>],
) -> Result<Option<Plan>, AllocError>
    requires { IsSome (plan_columns plan.now (known_of tables.now lets.now)) }
    ensures found { IfOk result (λ o. MatchOption o (settled_plan plan.now (known_of tables.now lets.now) ≡ true) (λ made. PlanImproves (known_of tables.now lets.now) plan.now made)) }
{
    let columns = source_makes(alloc, &plan.source, tables, lets)?;
    let Some(ops) = rewritten_ops(
        alloc,
        plan.ops.as_slice(),
        tables,
        lets,
        false,
        columns.as_slice(),
    )?
    else {
        return Ok(None);
    };
    let source = clone_source(alloc, &plan.source)?;
    Ok(Some(Plan { source, ops }))
}

// A program with other lets, and with another main plan.
fn with_lets(alloc: Global, p: &Program, lets: Plans) -> Result<Program, AllocError>
    ensures program { IfOk result (λ q. q ≡ record { tables = p.now.tables; lets = lets; main = p.now.main }) }
{
    match clone_program(alloc, p) {
        Ok(copy) => {
            let Program {
                tables,
                lets: old,
                main,
            } = copy;
            drop(old);
            Ok(Program { tables, lets, main })
        }
        Err(fault) => {
            drop(lets);
            Err(fault)
        }
    }
}

fn with_main(alloc: Global, p: &Program, main: Plan) -> Result<Program, AllocError>
    ensures program { IfOk result (λ q. q ≡ record { tables = p.now.tables; lets = p.now.lets; main = main }) }
{
    match clone_program(alloc, p) {
        Ok(copy) => {
            let Program {
                tables,
                lets,
                main: old,
            } = copy;
            drop(old);
            Ok(Program { tables, lets, main })
        }
        Err(fault) => {
            drop(main);
            Err(fault)
        }
    }
}

/// What a program becomes at the first place, or none.
fn rewritten_program(alloc: Global, p: &Program) -> Result<Option<Program>, AllocError>
    requires { IsSome (program_columns p.now) }
    ensures found { IfOk result (λ o. MatchOption o (is_quiet p.now ≡ true) (λ made. ProgramImproves p.now made)) }
{
    let tables = p.tables.schemas();
    let plans = p.lets.as_slice();
    let mut lets = Items::new(alloc);
    for i in 0..plans.len() {
        if let Some(made) = rewritten_plan(alloc, &plans[i], tables, lets.as_slice())? {
            let all = plans_with(alloc, plans, i, made)?;
            let program = with_lets(alloc, p, all)?;
            return Ok(Some(program));
        }
        let columns = plan_makes(alloc, &plans[i], tables, lets.as_slice())?;
        lets.push(columns)?;
    }
    if let Some(made) = rewritten_plan(alloc, &p.main, tables, lets.as_slice())? {
        let program = with_main(alloc, p, made)?;
        return Ok(Some(program));
    }
    Ok(None)
}

/// The same meaning on every catalogue that fits, and no rule's left side stands anywhere.
///
/// Constants are folded first, and again wherever rules of the table fired: two filters of constants become one of a new constant, and
/// a filter that comes out true is dropped.
#[tactic(auto, using(crate::proofs::SettleSteps::kept_steps))]
pub fn settle(alloc: Global, p: &Program) -> Result<Program, AllocError>
    requires fits { IsSome (program_columns p.now) }
    ensures settled { IfOk result (λ q. settled q ≡ true) }
    ensures no_longer { IfOk result (λ q. IsNoLonger q p.now) }
    ensures same { IfOk result (λ q. ProgramBecomes p.now q) }
{
    let copy = clone_program(alloc, p)?;
    let mut done = fold_constants(alloc, copy)?;
    'rules: loop {
        match rewritten_program(alloc, &done) {
            Ok(None) => return Ok(done),
            Ok(Some(next)) => {
                drop(done);
                match fold_constants(alloc, next) {
                    Ok(made) => done = made,
                    Err(fault) => return Err(fault),
                }
            }
            Err(fault) => {
                drop(done);
                return Err(fault);
            }
        }
    }
}
