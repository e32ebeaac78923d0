ghost use Rattle.bind_expr.specs.Outcome.{Answers};
ghost use Rattle.bind_operators.specs.Where.{where_bound};

use crate::answers::{or_lost, over};
use crate::bound::BoundOp;
use crate::known::Known;
use crate::scopes::scope_at;
use crate::shape::Shape;
use crate::wanted::{Wanted, bind_typed};
use bind_expr::BindFault;
use kql_bound::Op;
use kql_cells::Kind;
use kql_meaning::Position;
use kql_syntax::Expr;
use std::alloc::Global;

/// `where`.
#[tactic(auto, using(bind_expr::proofs::AnswerFacts::answer_steps, crate::proofs::AnswerSteps::bind_steps), unfolding(crate::specs::Where::where_bound))]
pub fn bind_where(alloc: Global, e: &Expr, known: &Known, rows: Shape) -> Result<BoundOp, BindFault>
    ensures exact { Answers result (where_bound e.now known.now rows) }
{
    match scope_at(alloc, known, &rows, Position::Window) {
        Ok(scope) => match bind_typed(alloc, Wanted::Is(Kind::Bool), e, &scope) {
            Ok(t) => or_lost(over(alloc, Op::Where(t.expr.into_inner()), rows)),
            Err(fault) => Err(fault),
        },
        Err(_) => Err(BindFault::OutOfMemory),
    }
}
