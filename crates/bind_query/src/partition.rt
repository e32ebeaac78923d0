//! `partition`.
ghost use Rattle.bind_expr.specs.Outcome.{Answers};
ghost use Rattle.bind_query.specs.Partition.{partitioned, partitions};

use crate::bound::BoundOps;
use bind_expr::BindFault;
use bind_operators::{BoundOp, Shape, or_lost, over};
use kql_bound::Op;
use kql_cells::Column;
use kql_items::Items;
use kql_lexer::Place;
use std::alloc::Global;

// The operators over the rows of each key, where they stand in no other subquery.
#[tactic(auto, using(bind_expr::proofs::AnswerFacts::answer_steps, bind_operators::proofs::AnswerSteps::fault_steps), unfolding(crate::specs::Partition::partitioned, bind_operators::specs::Answers::made, bind_operators::specs::Answers::over))]
fn partitioned(
    alloc: Global,
    operator: Place,
    inside: bool,
    key: Column,
    done: BoundOps,
) -> Result<BoundOp, BindFault>
    ensures exact { Answers result (partitioned operator inside key done) }
{
    if inside {
        drop(key);
        drop(done);
        return Err(BindFault::Refused {
            code: 416,
            place: operator,
        });
    }
    let BoundOps { ops, after } = done;
    let after = Shape {
        columns: after.columns,
        serial: false,
        own: Items::new(alloc),
    };
    or_lost(over(alloc, Op::Partition(key.name, ops), after))
}

/// The operators of a partition over the rows of each key: the key's fault first.
#[tactic(auto, using(bind_expr::proofs::AnswerFacts::answer_steps), unfolding(crate::specs::Partition::partitions))]
pub(crate) fn partitions(
    alloc: Global,
    operator: Place,
    inside: bool,
    column: Result<Column, BindFault>,
    ops: Result<BoundOps, BindFault>,
) -> Result<BoundOp, BindFault>
    ensures exact { Answers result (partitions operator inside column ops) }
{
    match column {
        Ok(key) => match ops {
            Ok(done) => partitioned(alloc, operator, inside, key, done),
            Err(fault) => {
                drop(key);
                Err(fault)
            }
        },
        Err(fault) => {
            drop(ops);
            Err(fault)
        }
    }
}
