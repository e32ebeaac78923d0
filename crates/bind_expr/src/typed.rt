//! What a part of an expression is bound to.
ghost use Rattle.std.specs.Prelude.{◌≡◌, Ok};
ghost use Rattle.bind_expr.specs.Outcome.{Answers};

use crate::fault::BindFault;
use kql_bound::BExpr;
use kql_cells::Kind;
use kql_items::{Boxed, Items};
use std::alloc::Global;

/// A bound expression and its type.
#[derive(Debug, Drop)]
pub struct Typed {
    pub expr: Boxed<BExpr>,
    pub kind: Kind,
}

/// Bound expressions with their types.
pub(crate) type Operands = Items<Typed>;

/// An expression with its type.
#[tactic(auto, using(crate::proofs::AnswerFacts::answer_steps))]
pub(crate) fn with_kind(alloc: Global, expr: BExpr, kind: Kind) -> Result<Typed, BindFault>
    ensures exact { Answers result (Ok (record { expr = expr; kind = kind })) }
{
    match Boxed::new(alloc, expr) {
        Ok(expr) => Ok(Typed { expr, kind }),
        Err(_) => Err(BindFault::OutOfMemory),
    }
}
