//! What operators give, and faults in their order.
ghost use Rattle.std.specs.Prelude.{◌≡◌, [], ◌∷◌, ◌++◌, IfOk, Ok, length, nat_lt};
ghost use Rattle.bind_expr.specs.Outcome.{Answers};
ghost use Rattle.kql_meaning.specs.FittingOperators.{is_empty};
ghost use Rattle.bind_operators.specs.Answers.{answer, apart, over, serialised, width_faults};
ghost use Rattle.bind_operators.specs.Faults.{unless, with_next};

use crate::bound::BoundOp;
use crate::shape::Shape;
use bind_expr::BindFault;
use kql_bound::Op;
use kql_cells::Schema;
use kql_items::{Boxed, Items};
use kql_lexer::Place;
use std::alloc::{AllocError, Global};

/// What was made, or want of memory.
#[tactic(auto, using(crate::proofs::AnswerSteps::made_steps))]
pub fn or_lost<T>(made: Result<T, AllocError>) -> Result<T, BindFault>
    ensures made { (x : T) → IfOk made (λ y. y ≡ x) → Answers result (Ok x) }
{
    match made {
        Ok(made) => Ok(made),
        Err(_) => Err(BindFault::OutOfMemory),
    }
}

/// One part more at the end.
pub(crate) fn pushed<T: Drop>(before: Items<T>, next: T) -> Result<Items<T>, AllocError>
    ensures added { IfOk result (λ xs. xs ≡ before ++ next ∷ []) }
{
    let mut before = before;
    before.push(next)?;
    Ok(before)
}

/// One part more behind those before it: the first fault of them.
#[tactic(auto, using(bind_expr::proofs::AnswerFacts::answer_steps))]
pub fn with_next<T: Drop>(
    before: Result<Items<T>, BindFault>,
    next: Result<T, BindFault>,
) -> Result<Items<T>, BindFault>
    ensures exact { Answers result (with_next before next) }
{
    match before {
        Ok(before) => match next {
            Ok(next) => or_lost(pushed(before, next)),
            Err(fault) => {
                drop(before);
                Err(fault)
            }
        },
        Err(fault) => {
            drop(next);
            Err(fault)
        }
    }
}

/// An operator whose rows are these.
#[tactic(auto, unfolding(crate::specs::Answers::over))]
pub fn over(alloc: Global, op: Op, after: Shape) -> Result<BoundOp, AllocError>
    ensures made { IfOk result (λ b. b ≡ over op after) }
{
    Ok(BoundOp {
        op: Boxed::new(alloc, op)?,
        after,
    })
}

/// The same rows, in an order that counts.
#[tactic(auto, unfolding(crate::specs::Answers::serialised))]
pub fn serialised(alloc: Global, rows: Shape) -> Shape
    ensures serial { result ≡ serialised rows }
{
    Shape {
        columns: rows.columns,
        serial: true,
        own: Items::new(alloc),
    }
}

/// The same rows, behind the end of a pattern prefix.
#[tactic(auto, unfolding(crate::specs::Answers::apart))]
pub fn apart(alloc: Global, rows: Shape) -> Shape
    ensures apart { result ≡ apart rows }
{
    Shape {
        columns: rows.columns,
        serial: rows.serial,
        own: Items::new(alloc),
    }
}

// Whether there are more columns than 256.
fn are_too_many(columns: &Schema) -> bool
    ensures many { result ≡ nat_lt 256 (length columns.now) }
{
    columns.len() > 256
}

#[tactic(auto, unfolding(kql_meaning::specs::FittingOperators::is_empty))]
fn is_empty(columns: &Schema) -> bool
    ensures empty { result ≡ is_empty columns.now }
{
    match columns.columns() {
        [] => true,
        [_, ..] => false,
    }
}

/// 412 or 419 where the columns that an operator makes are too many, or none.
#[tactic(auto, using(crate::proofs::AnswerSteps::width_steps))]
pub(crate) fn checked_width(operator: Place, columns: &Schema) -> Result<(), BindFault>
    ensures exact { Answers result (unless (width_faults operator columns.now) tt) }
{
    if are_too_many(columns) {
        return Err(BindFault::Refused {
            code: 412,
            place: operator,
        });
    }
    if is_empty(columns) {
        return Err(BindFault::Refused {
            code: 419,
            place: operator,
        });
    }
    Ok(())
}

/// An operator that makes columns: 412 or 419 where they are too many, or none.
#[tactic(auto, using(crate::proofs::AnswerSteps::within_steps))]
pub fn answered(
    alloc: Global,
    operator: Place,
    op: Op,
    columns: Schema,
    serial: bool,
) -> Result<BoundOp, BindFault>
    ensures exact { Answers result (answer operator [] op columns serial) }
{
    match checked_width(operator, &columns) {
        Ok(()) => {
            let own = Items::new(alloc);
            let after = Shape {
                columns,
                serial,
                own,
            };
            or_lost(over(alloc, op, after))
        }
        Err(fault) => {
            drop(op);
            drop(columns);
            Err(fault)
        }
    }
}
