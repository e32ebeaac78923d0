//! Pipes: a source, and operators one after another, which may hold pipes and operators themselves.
ghost use Rattle.std.specs.Prelude.{◌≡◌};
ghost use Rattle.bind_expr.specs.Outcome.{Answers};
ghost use Rattle.bind_operators.specs.Faults.{each_bound};
ghost use Rattle.bind_query.specs.Operators.{arg_bound, join_read, op_bound, ops_bound, partition_read, pipe_bound, source_bound, table_op_bound, union_read};
ghost use Rattle.bind_query.specs.Pipes.{next_op};
ghost use Rattle.bind_query.specs.Union.{union_bound, union_source_bound};

use crate::bound::BoundOps;
use crate::join::join_bound;
use crate::operators::{bind_column_op, bind_group_op, bind_row_op};
use crate::ops::{no_ops, op_added, ops_added};
use crate::partition::partitions;
use crate::scan::bind_scan;
use crate::union::{is_inner, unites, unites_behind};
use bind_expr::BindFault;
use bind_groups::distinct_column;
use bind_operators::{
    BoundOp, BoundPlan, Known, Shape, apart, bind_print, bind_range, bind_table, with_next,
};
use kql_items::Items;
use kql_lexer::Place;
use kql_syntax::{Join, Op, Partition, Pipe, Source, TableArg, TableOp, Union};
use std::alloc::Global;

/// A pipe, in a subquery of `partition` or not.
#[cycle(bind)]
#[tactic(auto, using(crate::proofs::PipeSteps::pipe_steps))]
pub(crate) fn bind_pipe(
    alloc: Global,
    p: &Pipe,
    known: &Known,
    inside: bool,
) -> Result<BoundPlan, BindFault>
    ensures exact { Answers result (pipe_bound p.now known.now inside) }
{
    match bind_source(alloc, &p.source, known, inside) {
        Ok(source) => {
            let BoundPlan { plan, after } = source;
            let behind = bind_ops(alloc, p.ops.as_slice(), known, inside, after);
            ops_added(alloc, plan, behind)
        }
        Err(fault) => Err(fault),
    }
}

#[cycle(bind)]
#[tactic(auto, using(crate::proofs::PipeSteps::source_steps))]
fn bind_source(
    alloc: Global,
    source: &Source,
    known: &Known,
    inside: bool,
) -> Result<BoundPlan, BindFault>
    ensures exact { Answers result (source_bound source.now known.now inside) }
{
    match source {
        Source::Table(n) => bind_table(alloc, known, n),
        Source::Range(operator, range) => bind_range(alloc, *operator, range.get(), known),
        Source::Print(operator, items) => bind_print(alloc, *operator, items.as_slice(), known),
        Source::Union(operator, tables) => {
            bind_union_source(alloc, *operator, tables, known, inside)
        }
    }
}

#[cycle(bind)]
#[tactic(auto, using(crate::proofs::PipeSteps::ops_steps))]
fn bind_ops(
    alloc: Global,
    ops: &[Op],
    known: &Known,
    inside: bool,
    rows: Shape,
) -> Result<BoundOps, BindFault>
    ensures exact { Answers result (ops_bound ops.now known.now inside rows) }
{
    let mut done = Ok(no_ops(alloc, rows));
    'each: for op in ops {
        done = bind_next(alloc, op, known, inside, done);
    }
    done
}

#[cycle(bind)]
#[tactic(auto, using(crate::proofs::PipeSteps::next_steps))]
fn bind_next(
    alloc: Global,
    op: &Op,
    known: &Known,
    inside: bool,
    before: Result<BoundOps, BindFault>,
) -> Result<BoundOps, BindFault>
    ensures exact { Answers result (next_op (op_bound op.now) known.now inside before) }
{
    match before {
        Ok(done) => {
            let BoundOps { ops, after } = done;
            let next = bind_op(alloc, op, known, inside, after);
            op_added(ops, next)
        }
        Err(fault) => Err(fault),
    }
}

#[cycle(bind)]
#[tactic(auto, using(crate::proofs::PipeSteps::op_steps))]
fn bind_op(
    alloc: Global,
    op: &Op,
    known: &Known,
    inside: bool,
    rows: Shape,
) -> Result<BoundOp, BindFault>
    ensures exact { Answers result (op_bound op.now known.now inside rows) }
{
    match op {
        Op::Columns(op) => bind_column_op(alloc, op, known, rows),
        Op::Rows(op) => bind_row_op(alloc, op, known, apart(alloc, rows)),
        Op::Groups(op) => bind_group_op(alloc, op, known, apart(alloc, rows)),
        Op::Tables(op) => bind_table_op(alloc, op, known, inside, apart(alloc, rows)),
    }
}

#[cycle(bind)]
#[tactic(auto, using(crate::proofs::PipeSteps::table_op_steps))]
fn bind_table_op(
    alloc: Global,
    op: &TableOp,
    known: &Known,
    inside: bool,
    rows: Shape,
) -> Result<BoundOp, BindFault>
    ensures exact { Answers result (table_op_bound op.now known.now inside rows) }
{
    match op {
        TableOp::Join(operator, join) => {
            bind_join(alloc, *operator, false, join, known, inside, rows)
        }
        TableOp::Lookup(operator, join) => {
            bind_join(alloc, *operator, true, join, known, inside, rows)
        }
        TableOp::Union(operator, tables) => {
            bind_union(alloc, *operator, tables, known, inside, rows)
        }
        TableOp::Scan(operator, scan) => bind_scan(alloc, *operator, scan, known, rows),
        TableOp::Partition(operator, partition) => {
            bind_partition(alloc, *operator, partition, known, inside, rows)
        }
    }
}

#[cycle(bind)]
#[tactic(auto, using(crate::proofs::PipeSteps::join_steps))]
fn bind_join(
    alloc: Global,
    operator: Place,
    lookup: bool,
    join: &Join,
    known: &Known,
    inside: bool,
    rows: Shape,
) -> Result<BoundOp, BindFault>
    ensures exact { Answers result (join_read join.now operator lookup known.now inside rows) }
{
    let right = bind_arg(alloc, known, inside, &join.table);
    join_bound(
        alloc,
        operator,
        lookup,
        &join.kind,
        join.on.as_slice(),
        known,
        inside,
        rows,
        right,
    )
}

#[cycle(bind)]
#[tactic(auto, using(crate::proofs::PipeSteps::union_steps))]
fn bind_union(
    alloc: Global,
    operator: Place,
    union: &Union,
    known: &Known,
    inside: bool,
    rows: Shape,
) -> Result<BoundOp, BindFault>
    ensures exact { Answers result (union_bound operator (union_read union.now) known.now inside rows) }
{
    let tables = union.tables.as_slice();
    let others = bind_args(alloc, known, inside, tables);
    unites(
        alloc,
        operator,
        inside,
        is_inner(union.kind),
        &rows,
        tables,
        others,
    )
}

#[cycle(bind)]
#[tactic(auto, using(crate::proofs::PipeSteps::union_source_steps))]
fn bind_union_source(
    alloc: Global,
    operator: Place,
    union: &Union,
    known: &Known,
    inside: bool,
) -> Result<BoundPlan, BindFault>
    ensures exact { Answers result (union_source_bound operator (union_read union.now) known.now inside) }
{
    match union.tables.as_slice() {
        [] => Err(BindFault::Refused {
            code: 419,
            place: operator,
        }),
        [table, more @ ..] => {
            let first = bind_arg(alloc, known, inside, table);
            let others = bind_args(alloc, known, inside, more);
            unites_behind(
                alloc,
                operator,
                inside,
                is_inner(union.kind),
                more,
                first,
                others,
            )
        }
    }
}

#[cycle(bind)]
#[tactic(auto, using(bind_operators::proofs::AnswerSteps::each_steps))]
fn bind_args(
    alloc: Global,
    known: &Known,
    inside: bool,
    args: &[TableArg],
) -> Result<Items<BoundPlan>, BindFault>
    ensures exact { Answers result (each_bound (arg_bound known.now inside) args.now) }
{
    let mut plans = Ok(Items::new(alloc));
    'each: for arg in args {
        let next = bind_arg(alloc, known, inside, arg);
        plans = with_next(plans, next);
    }
    plans
}

#[cycle(bind)]
#[tactic(auto, using(crate::proofs::PipeSteps::arg_steps))]
fn bind_arg(
    alloc: Global,
    known: &Known,
    inside: bool,
    arg: &TableArg,
) -> Result<BoundPlan, BindFault>
    ensures exact { Answers result (arg_bound known.now inside arg.now) }
{
    match arg {
        TableArg::Table(n) => bind_table(alloc, known, n),
        TableArg::Pipe(_, p) => bind_pipe(alloc, p.get(), known, inside),
    }
}

#[cycle(bind)]
#[tactic(auto, using(crate::proofs::PipeSteps::partition_steps))]
fn bind_partition(
    alloc: Global,
    operator: Place,
    partition: &Partition,
    known: &Known,
    inside: bool,
    rows: Shape,
) -> Result<BoundOp, BindFault>
    ensures exact { Answers result (partition_read partition.now operator known.now inside rows) }
{
    let key = distinct_column(alloc, operator, known, &rows, &partition.column);
    let done = bind_ops(alloc, partition.ops.as_slice(), known, true, rows);
    partitions(alloc, operator, inside, key, done)
}
