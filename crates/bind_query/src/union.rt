//! `union`, as an operator and as a source.
ghost use Rattle.std.specs.Prelude.{◌≡◌, ◌∷◌, ◌++◌, [], map, IfOk, false};
ghost use Rattle.std.specs.List.{list_all};
ghost use Rattle.bind_expr.specs.Outcome.{Answers};
ghost use Rattle.kql_bound.specs.declared.plan.Op.TheVariants as Op;
ghost use Rattle.kql_cells.specs.declared.schema.Column.{Column};
ghost use Rattle.kql_meaning.specs.FittingOperators.{is_of_type_in};
ghost use Rattle.kql_meaning.specs.Union.{union_columns};
ghost use Rattle.bind_operators.specs.Answers.{answer};
ghost use Rattle.bind_operators.specs.Faults.{fault_if, unless};
ghost use Rattle.bind_query.specs.Operators.{arg_place};
ghost use Rattle.bind_query.specs.Pipes.{longer};
ghost use Rattle.bind_query.specs.Union.{columns_behind, is_inner, plan_of, stand_behind, table_clashes, union_answer, united, united_behind, unites, unites_behind};

use crate::ops::longer;
use bind_expr::BindFault;
use bind_operators::{BoundOp, BoundPlan, Shape, answered, name_place, or_lost};
use kql_bound::{Op, Plan, Plans};
use kql_cells::{Column, Schema, copy_columns};
use kql_columns::union_columns;
use kql_fits::is_of_type_in;
use kql_items::{Boxed, Items};
use kql_lexer::Place;
use kql_meaning::law_of_union;
use kql_syntax::{TableArg, UnionKind};
use std::alloc::{AllocError, Global};

/// Outer unless `inner` is given.
#[tactic(auto, unfolding(crate::specs::Union::is_inner))]
pub(crate) fn is_inner(kind: Option<UnionKind>) -> bool
    ensures inner { result ≡ is_inner kind }
{
    match kind {
        None => false,
        Some(UnionKind::Outer(_)) => false,
        Some(UnionKind::Inner(_)) => true,
    }
}

// Columns.

fn columns_behind(alloc: Global, others: &[BoundPlan]) -> Result<Items<Items<Column>>, AllocError>
    ensures columns { IfOk result (λ cs. cs ≡ map columns_behind others.now) }
{
    let mut all = Items::with_capacity(alloc, others.len())?;
    for p in others {
        let columns = copy_columns(alloc, p.after.columns.columns())?;
        all.push(columns)?;
    }
    Ok(all)
}

#[tactic(auto, using(crate::proofs::UnionSteps::name_steps))]
fn united_schema(
    alloc: Global,
    inner: bool,
    rows: &Schema,
    others: &[BoundPlan],
) -> Result<Schema, AllocError>
    ensures columns { IfOk result (λ cs. cs ≡ union_columns inner rows.now (map columns_behind others.now)) }
{
    law_of_union();
    let all = columns_behind(alloc, others)?;
    let columns = union_columns(alloc, inner, rows.columns(), all.as_slice())?;
    Ok(Schema::from_items(columns))
}

// Faults.

// The place of a table: its name, or its bracket.
#[tactic(auto, using(crate::proofs::PipeSteps::place_steps))]
fn arg_place(table: &TableArg) -> Place
    ensures place { result ≡ arg_place table.now }
{
    match table {
        TableArg::Table(n) => name_place(n),
        TableArg::Pipe(place, _) => *place,
    }
}

// Whether columns have the same types among others, where these have columns of their names.
fn are_of_type_in(columns: &[Column], others: &[Column]) -> bool
    ensures are { result ≡ list_all (λ (c : Column). is_of_type_in c others.now) columns.now }
{
    let mut left = columns;
    'each: while let Some((c, more)) = left.split_first() {
        if !is_of_type_in(c, others) {
            return false;
        }
        left = more;
    }
    true
}

// The same behind a plan.
fn stand_behind(p: &BoundPlan, columns: &[Column]) -> bool
    ensures stand { result ≡ stand_behind columns.now p.now }
{
    are_of_type_in(columns, p.after.columns.columns())
}

// The first table that has a column of the answer in another type.
#[tactic(auto, using(bind_expr::proofs::AnswerFacts::answer_steps, crate::proofs::UnionSteps::clash_steps))]
fn first_clash(
    columns: &[Column],
    tables: &[TableArg],
    others: &[BoundPlan],
) -> Result<(), BindFault>
    ensures exact { Answers result (unless (table_clashes columns.now (map arg_place tables.now) others.now) tt) }
{
    let mut tables = tables;
    let mut others = others;
    'each: while let Some((table, more)) = tables.split_first() {
        let Some((p, behind)) = others.split_first() else {
            return Ok(());
        };
        if !stand_behind(p, columns) {
            return Err(BindFault::Refused {
                code: 415,
                place: arg_place(table),
            });
        }
        tables = more;
        others = behind;
    }
    Ok(())
}

// 416 in a subquery, and then 415 at a table.
#[tactic(auto, using(bind_expr::proofs::AnswerFacts::answer_steps), unfolding(bind_operators::specs::Faults::unless, bind_operators::specs::Faults::fault_if))]
fn first_fault(
    operator: Place,
    inside: bool,
    columns: &[Column],
    tables: &[TableArg],
    others: &[BoundPlan],
) -> Result<(), BindFault>
    ensures exact { Answers result (unless (fault_if inside 416 operator ++ table_clashes columns.now (map arg_place tables.now) others.now) tt) }
{
    if inside {
        return Err(BindFault::Refused {
            code: 416,
            place: operator,
        });
    }
    first_clash(columns, tables, others)
}

// The operator.

// The plans of tables, in their order.
#[tactic(auto, using(crate::proofs::UnionSteps::plan_steps))]
fn plans_of(alloc: Global, others: Items<BoundPlan>) -> Result<Plans, AllocError>
    ensures plans { IfOk result (λ ps. ps ≡ map plan_of others) }
{
    let mut plans = Items::with_capacity(alloc, others.len())?;
    let mut left = others;
    'each: while let Some(p) = left.pop() {
        let BoundPlan { plan, .. } = p;
        plans.push(plan.into_inner())?;
    }
    plans.reverse();
    Ok(plans)
}

#[tactic(auto, using(bind_expr::proofs::AnswerFacts::answer_steps))]
fn union_made(
    alloc: Global,
    operator: Place,
    inner: bool,
    columns: Schema,
    others: Items<BoundPlan>,
) -> Result<BoundOp, BindFault>
    ensures exact { Answers result (answer operator [] (Op.Union inner (map plan_of others)) columns false) }
{
    match plans_of(alloc, others) {
        Ok(plans) => answered(alloc, operator, Op::Union(inner, plans), columns, false),
        Err(_) => Err(BindFault::OutOfMemory),
    }
}

#[tactic(auto, using(bind_operators::proofs::AnswerSteps::after_steps))]
fn union_answer(
    alloc: Global,
    operator: Place,
    inside: bool,
    inner: bool,
    tables: &[TableArg],
    others: Items<BoundPlan>,
    columns: Schema,
) -> Result<BoundOp, BindFault>
    ensures exact { Answers result (union_answer operator inside inner (map arg_place tables.now) others columns) }
{
    match first_fault(
        operator,
        inside,
        columns.columns(),
        tables,
        others.as_slice(),
    ) {
        Ok(()) => union_made(alloc, operator, inner, columns, others),
        Err(fault) => {
            drop(others);
            drop(columns);
            Err(fault)
        }
    }
}

// Rows united with those of other tables.
#[tactic(auto, using(bind_expr::proofs::AnswerFacts::answer_steps), unfolding(crate::specs::Union::united))]
fn united(
    alloc: Global,
    operator: Place,
    inside: bool,
    inner: bool,
    rows: &Shape,
    tables: &[TableArg],
    others: Items<BoundPlan>,
) -> Result<BoundOp, BindFault>
    ensures exact { Answers result (united operator inside inner rows.now (map arg_place tables.now) others) }
{
    match united_schema(alloc, inner, &rows.columns, others.as_slice()) {
        Ok(columns) => union_answer(alloc, operator, inside, inner, tables, others, columns),
        Err(_) => Err(BindFault::OutOfMemory),
    }
}

/// The same of tables that may be refused.
#[tactic(auto, using(bind_expr::proofs::AnswerFacts::answer_steps), unfolding(crate::specs::Union::unites))]
pub(crate) fn unites(
    alloc: Global,
    operator: Place,
    inside: bool,
    inner: bool,
    rows: &Shape,
    tables: &[TableArg],
    others: Result<Items<BoundPlan>, BindFault>,
) -> Result<BoundOp, BindFault>
    ensures exact { Answers result (unites operator inside inner rows.now (map arg_place tables.now) others) }
{
    match others {
        Ok(others) => united(alloc, operator, inside, inner, rows, tables, others),
        Err(fault) => Err(fault),
    }
}

// The source.

fn one_op(alloc: Global, op: Boxed<Op>) -> Result<Items<Op>, AllocError>
    ensures one { IfOk result (λ ops. ops ≡ op ∷ []) }
{
    let mut ops = Items::with_capacity(alloc, 1)?;
    ops.push(op.into_inner())?;
    Ok(ops)
}

fn united_plan(alloc: Global, plan: Boxed<Plan>, b: BoundOp) -> Result<BoundPlan, AllocError>
    ensures plan { IfOk result (λ p. p ≡ record { plan = longer plan (b.op ∷ []); after = b.after }) }
{
    let BoundOp { op, after } = b;
    let ops = one_op(alloc, op)?;
    let plan = longer(alloc, plan, ops)?;
    Ok(BoundPlan { plan, after })
}

// A first table, and the others behind it.
#[tactic(auto, using(bind_expr::proofs::AnswerFacts::answer_steps, bind_operators::proofs::AnswerSteps::bind_steps), unfolding(crate::specs::Union::united_behind, crate::specs::Union::united_plan, crate::specs::Pipes::with_ops))]
fn united_behind(
    alloc: Global,
    operator: Place,
    inside: bool,
    inner: bool,
    tables: &[TableArg],
    first: BoundPlan,
    others: Items<BoundPlan>,
) -> Result<BoundPlan, BindFault>
    ensures exact { Answers result (united_behind operator inside inner (map arg_place tables.now) first others) }
{
    let BoundPlan { plan, after } = first;
    match united(alloc, operator, inside, inner, &after, tables, others) {
        Ok(b) => or_lost(united_plan(alloc, plan, b)),
        Err(fault) => {
            drop(plan);
            Err(fault)
        }
    }
}

/// The first table, with the rows of the others behind its own.
#[tactic(auto, using(bind_expr::proofs::AnswerFacts::answer_steps), unfolding(crate::specs::Union::unites_behind))]
pub(crate) fn unites_behind(
    alloc: Global,
    operator: Place,
    inside: bool,
    inner: bool,
    tables: &[TableArg],
    table: Result<BoundPlan, BindFault>,
    others: Result<Items<BoundPlan>, BindFault>,
) -> Result<BoundPlan, BindFault>
    ensures exact { Answers result (unites_behind operator inside inner (map arg_place tables.now) table others) }
{
    match table {
        Ok(first) => match others {
            Ok(others) => united_behind(alloc, operator, inside, inner, tables, first, others),
            Err(fault) => {
                drop(first);
                Err(fault)
            }
        },
        Err(fault) => {
            drop(others);
            Err(fault)
        }
    }
}
