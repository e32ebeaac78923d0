//! Operators one after another, and the plan that they make.
ghost use Rattle.std.specs.Prelude.{◌≡◌, [], ◌∷◌, ◌++◌, IfOk};
ghost use Rattle.bind_expr.specs.Outcome.{Answers};
ghost use Rattle.bind_query.specs.Pipes.{longer, no_ops, op_added, ops_added};

use crate::bound::BoundOps;
use bind_expr::BindFault;
use bind_operators::{BoundOp, BoundPlan, Shape, or_lost};
use kql_bound::{Ops, Plan};
use kql_items::{Boxed, Items};
use std::alloc::{AllocError, Global};

/// No operators over these rows.
#[tactic(auto, unfolding(crate::specs::Pipes::no_ops))]
pub(crate) fn no_ops(alloc: Global, rows: Shape) -> BoundOps
    ensures none { result ≡ no_ops rows }
{
    BoundOps {
        ops: Items::new(alloc),
        after: rows,
    }
}

fn with_op(ops: Ops, next: BoundOp) -> Result<BoundOps, AllocError>
    ensures added { IfOk result (λ d. d ≡ record { ops = ops ++ next.op ∷ []; after = next.after }) }
{
    let BoundOp { op, after } = next;
    let mut ops = ops;
    ops.push(op.into_inner())?;
    Ok(BoundOps { ops, after })
}

/// One operator more behind those before it.
#[tactic(auto, using(bind_expr::proofs::AnswerFacts::answer_steps), unfolding(crate::specs::Pipes::op_added))]
pub(crate) fn op_added(ops: Ops, next: Result<BoundOp, BindFault>) -> Result<BoundOps, BindFault>
    ensures exact { Answers result (op_added ops next) }
{
    match next {
        Ok(next) => or_lost(with_op(ops, next)),
        Err(fault) => {
            drop(ops);
            Err(fault)
        }
    }
}

/// A plan with more operators at its end.
pub(crate) fn longer(alloc: Global, plan: Boxed<Plan>, more: Ops) -> Result<Boxed<Plan>, AllocError>
    ensures longer { IfOk result (λ p. p ≡ longer plan more) }
{
    let Plan { source, ops } = plan.into_inner();
    let mut ops = ops;
    match ops.append(more) {
        Ok(()) => Boxed::new(alloc, Plan { source, ops }),
        Err(e) => {
            drop(source);
            Err(e)
        }
    }
}

fn with_ops(alloc: Global, plan: Boxed<Plan>, done: BoundOps) -> Result<BoundPlan, AllocError>
    ensures made { IfOk result (λ p. p ≡ record { plan = longer plan done.ops; after = done.after }) }
{
    let BoundOps { ops, after } = done;
    let plan = longer(alloc, plan, ops)?;
    Ok(BoundPlan { plan, after })
}

/// The operators behind a plan.
#[tactic(auto, using(bind_expr::proofs::AnswerFacts::answer_steps), unfolding(crate::specs::Pipes::ops_added))]
pub(crate) fn ops_added(
    alloc: Global,
    plan: Boxed<Plan>,
    behind: Result<BoundOps, BindFault>,
) -> Result<BoundPlan, BindFault>
    ensures exact { Answers result (ops_added plan behind) }
{
    match behind {
        Ok(done) => or_lost(with_ops(alloc, plan, done)),
        Err(fault) => {
            drop(plan);
            Err(fault)
        }
    }
}
