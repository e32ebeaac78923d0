ghost use Rattle.std.specs.Prelude.{◌≡◌, IfOk};
ghost use Rattle.bind_expr.specs.Outcome.{Answers};
ghost use Rattle.bind_operators.specs.TakeAndCount.{counted, take_bound, taken};

use crate::answers::{or_lost, over};
use crate::bound::BoundOp;
use crate::known::Known;
use crate::shape::Shape;
use crate::wanted::{bind_row_count, count_in, is_no_count};
use bind_expr::BindFault;
use kql_bound::{Lit, Op};
use kql_cells::Schema;
use kql_columns::count_columns;
use kql_items::{Boxed, Items};
use kql_lexer::Place;
use kql_syntax::Expr;
use std::alloc::{AllocError, Global};

#[tactic(auto, using(bind_expr::proofs::AnswerFacts::answer_steps, crate::proofs::AnswerSteps::fault_steps), unfolding(crate::specs::TakeAndCount::taken))]
fn taken(alloc: Global, operator: Place, rows: Shape, n: &Lit) -> Result<BoundOp, BindFault>
    ensures exact { Answers result (taken operator rows n.now) }
{
    if is_no_count(n) {
        drop(rows);
        Err(BindFault::Refused {
            code: 414,
            place: operator,
        })
    } else {
        or_lost(over(alloc, Op::Take(count_in(n)), rows))
    }
}

/// `take` and `limit`.
#[tactic(auto, using(crate::proofs::AnswerSteps::bind_steps), unfolding(crate::specs::TakeAndCount::take_bound))]
pub fn bind_take(
    alloc: Global,
    operator: Place,
    e: &Expr,
    known: &Known,
    rows: Shape,
) -> Result<BoundOp, BindFault>
    ensures exact { Answers result (take_bound operator e.now known.now rows) }
{
    match bind_row_count(alloc, operator, known, &rows, e) {
        Ok(n) => taken(alloc, operator, rows, &n),
        Err(fault) => Err(fault),
    }
}

/// `count`.
#[tactic(auto, using(crate::proofs::NameLaws::kept_steps), unfolding(crate::specs::TakeAndCount::counted, crate::specs::Answers::made))]
pub fn bind_count(alloc: Global) -> Result<BoundOp, AllocError>
    ensures made { IfOk result (λ b. b ≡ counted) }
{
    let columns = count_columns(alloc)?;
    let op = Boxed::new(alloc, Op::Count)?;
    Ok(BoundOp {
        op,
        after: Shape {
            columns: Schema::from_items(columns),
            serial: false,
            own: Items::new(alloc),
        },
    })
}
