//! Operands side by side: a dynamic one is converted to the type of the others.
ghost use Rattle.std.specs.Prelude.{◌≡◌, ◌∷◌, [], Ok};
ghost use Rattle.bind_expr.specs.Outcome.{Answers};
ghost use Rattle.bind_expr.specs.Operands.{args_beside, beside, common_kind, kinds_of, known_first, operands_call, typed_as, typed_call, with_beside};
ghost use Rattle.kql_bound.specs.declared.expr.BExpr.TheVariants as bexpr;
ghost use Rattle.kql_functions.specs.declared.func.Func.TheVariants as func;

use crate::arguments::{Args, no_args, with_arg};
use crate::fault::BindFault;
use crate::typed::{Operands, Typed, with_kind};
use kql_bound::{BExpr, Exprs};
use kql_cells::Kind;
use kql_functions::{ConversionFunc, Func, result_kind};
use kql_items::{Boxed, Items};
use kql_lexer::Place;
use std::alloc::Global;

#[tactic(auto, using(crate::proofs::AnswerFacts::answer_steps))]
fn conversion(
    alloc: Global,
    f: ConversionFunc,
    e: Boxed<BExpr>,
    kind: Kind,
) -> Result<Typed, BindFault>
    ensures exact { Answers result (Ok (record { expr = bexpr.Call (func.Conversion f) (e ∷ []); kind = kind })) }
{
    let mut args = Items::new(alloc);
    match args.push(e.into_inner()) {
        Ok(_) => with_kind(alloc, BExpr::Call(Func::Conversion(f), args), kind),
        Err(_) => Err(BindFault::OutOfMemory),
    }
}

/// An operand beside one of another type.
#[tactic(auto, using(crate::proofs::AnswerFacts::answer_steps), unfolding(crate::specs::Operands::beside))]
pub(crate) fn beside(alloc: Global, t: Typed, other: Kind) -> Result<Typed, BindFault>
    ensures exact { Answers result (Ok (beside t other)) }
{
    let Typed { expr, kind } = t;
    match kind {
        Kind::Dynamic => match other {
            Kind::Bool => conversion(alloc, ConversionFunc::ToBool, expr, other),
            Kind::Long => conversion(alloc, ConversionFunc::ToLong, expr, other),
            Kind::Text => conversion(alloc, ConversionFunc::ToText, expr, other),
            Kind::Moment => conversion(alloc, ConversionFunc::ToMoment, expr, other),
            Kind::Span => conversion(alloc, ConversionFunc::ToSpan, expr, other),
            Kind::Dynamic => Ok(Typed { expr, kind: other }),
        },
        _ => Ok(Typed { expr, kind }),
    }
}

fn known_first(kind: Kind, more: Kind) -> Kind
    ensures { result ≡ known_first kind more }
{
    match kind {
        Kind::Dynamic => more,
        _ => kind,
    }
}

/// The type of the first of three operands that is not dynamic.
#[tactic(auto, unfolding(crate::specs::Operands::common_kind))]
pub(crate) fn common_of_three(a: Kind, b: Kind, c: Kind) -> Kind
    ensures { result ≡ common_kind (a ∷ b ∷ c ∷ []) }
{
    known_first(a, known_first(b, known_first(c, Kind::Dynamic)))
}

/// The type of the first operand that is not dynamic; dynamic where all are.
#[tactic(auto, unfolding(crate::specs::Operands::common_kind))]
pub(crate) fn common_of(operands: &[Typed]) -> Kind
    ensures { result ≡ common_kind (kinds_of operands.now) }
{
    let mut left = operands;
    'operands: while let [t, more @ ..] = left {
        match t.kind {
            Kind::Dynamic => (),
            _ => return t.kind,
        }
        left = more;
    }
    Kind::Dynamic
}

/// The call of a function, or 404 where it does not take these types.
#[tactic(auto, using(crate::proofs::AnswerFacts::answer_steps), unfolding(crate::specs::Operands::typed_call))]
pub(crate) fn typed_call(
    alloc: Global,
    place: Place,
    f: Func,
    exprs: Exprs,
    kinds: &[Kind],
) -> Result<Typed, BindFault>
    ensures exact { Answers result (typed_call place f exprs kinds.now) }
{
    match result_kind(f, kinds) {
        Some(kind) => with_kind(alloc, BExpr::Call(f, exprs), kind),
        None => Err(BindFault::Refused { code: 404, place }),
    }
}

/// The call of a function of one operand.
#[tactic(auto, using(crate::proofs::AnswerFacts::answer_steps))]
pub(crate) fn one_call(alloc: Global, place: Place, f: Func, x: Typed) -> Result<Typed, BindFault>
    ensures exact { Answers result (operands_call place f (x ∷ [])) }
{
    let Typed { expr, kind } = x;
    let mut exprs = Items::new(alloc);
    match exprs.push(expr.into_inner()) {
        Ok(_) => typed_call(alloc, place, f, exprs, &[kind]),
        Err(_) => Err(BindFault::OutOfMemory),
    }
}

/// The call of a function of two operands.
#[tactic(auto, using(crate::proofs::AnswerFacts::answer_steps))]
pub(crate) fn two_call(
    alloc: Global,
    place: Place,
    f: Func,
    x: Typed,
    y: Typed,
) -> Result<Typed, BindFault>
    ensures exact { Answers result (operands_call place f (x ∷ y ∷ [])) }
{
    let Typed {
        expr: first,
        kind: first_kind,
    } = x;
    let Typed {
        expr: second,
        kind: second_kind,
    } = y;
    let mut exprs = Items::new(alloc);
    match exprs.push(first.into_inner()) {
        Ok(_) => match exprs.push(second.into_inner()) {
            Ok(_) => typed_call(alloc, place, f, exprs, &[first_kind, second_kind]),
            Err(_) => Err(BindFault::OutOfMemory),
        },
        Err(_) => Err(BindFault::OutOfMemory),
    }
}

/// The call of a function of three operands.
#[tactic(auto, using(crate::proofs::AnswerFacts::answer_steps))]
pub(crate) fn three_call(
    alloc: Global,
    place: Place,
    f: Func,
    x: Typed,
    y: Typed,
    z: Typed,
) -> Result<Typed, BindFault>
    ensures exact { Answers result (operands_call place f (x ∷ y ∷ z ∷ [])) }
{
    let Typed {
        expr: first,
        kind: first_kind,
    } = x;
    let Typed {
        expr: second,
        kind: second_kind,
    } = y;
    let Typed {
        expr: third,
        kind: third_kind,
    } = z;
    let mut exprs = Items::new(alloc);
    match exprs.push(first.into_inner()) {
        Ok(_) => match exprs.push(second.into_inner()) {
            Ok(_) => match exprs.push(third.into_inner()) {
                Ok(_) => typed_call(
                    alloc,
                    place,
                    f,
                    exprs,
                    &[first_kind, second_kind, third_kind],
                ),
                Err(_) => Err(BindFault::OutOfMemory),
            },
            Err(_) => Err(BindFault::OutOfMemory),
        },
        Err(_) => Err(BindFault::OutOfMemory),
    }
}

#[tactic(auto, using(crate::proofs::AnswerFacts::answer_steps))]
fn next_beside(
    alloc: Global,
    before: Result<Args, BindFault>,
    t: Typed,
    kind: Kind,
) -> Result<Args, BindFault>
    ensures exact { Answers result (with_beside kind before t) }
{
    match before {
        Ok(args) => match beside(alloc, t, kind) {
            Ok(t) => with_arg(args, t),
            Err(fault) => {
                drop(args);
                Err(fault)
            }
        },
        Err(fault) => {
            drop(t);
            Err(fault)
        }
    }
}

/// Operands beside ones of this type, as the arguments of a call.
#[tactic(auto, using(crate::proofs::OperandSteps::operand_steps))]
pub(crate) fn args_beside(alloc: Global, operands: Operands, kind: Kind) -> Result<Args, BindFault>
    ensures exact { Answers result (Ok (args_beside kind operands)) }
{
    let mut left = operands;
    left.reverse();
    let mut taken = Ok(no_args(alloc));
    'operands: while let Some(t) = left.pop() {
        taken = next_beside(alloc, taken, t, kind);
    }
    taken
}
