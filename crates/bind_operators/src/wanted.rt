//! Expressions as operators want them: of a type, and constant.
ghost use Rattle.std.specs.Prelude.{◌≡◌};
ghost use Rattle.bind_expr.specs.Outcome.{Answers};
ghost use Rattle.kql_meaning.specs.FittingExpressions.{is_key};
ghost use Rattle.bind_operators.specs.Wanted.{constant_bound, constant_wanted, count_in, is_no_count, of_type, row_count_bound, takes, typed_bound};

use crate::known::Known;
use crate::places::expr_start;
use crate::scopes::scope_at;
use crate::shape::Shape;
use bind_expr::{BindFault, Scope, Typed, bind_expr, constant_of};
use kql_bound::Lit;
use kql_cells::{Kind, Value};
use kql_fits::is_step_of;
use kql_functions::{has_order, same_kind};
use kql_lexer::Place;
use kql_meaning::Position;
use kql_syntax::Expr;
use std::alloc::Global;

/// The types that an operator takes of an expression.
#[derive(Clone, Copy, Debug, PartialEq, Eq)]
pub enum Wanted {
    /// This one.
    Is(Kind),
    /// All but dynamic.
    Key,
    /// Longs, datetimes and timespans.
    Ordered,
    /// The type of the steps that lead through values of this one.
    StepOf(Kind),
    Any,
}

#[tactic(auto, unfolding(kql_meaning::specs::FittingExpressions::is_key))]
fn is_key(kind: Kind) -> bool
    ensures key { result ≡ is_key kind }
{
    match kind {
        Kind::Dynamic => false,
        _ => true,
    }
}

#[tactic(auto, unfolding(crate::specs::Wanted::takes))]
fn takes(want: Wanted, kind: Kind) -> bool
    ensures takes { result ≡ takes want kind }
{
    match want {
        Wanted::Is(k) => same_kind(k, kind),
        Wanted::Key => is_key(kind),
        Wanted::Ordered => has_order(kind),
        Wanted::StepOf(k) => is_step_of(k, kind),
        Wanted::Any => true,
    }
}

// An expression of a type that is wanted, or 404.
#[tactic(auto, using(bind_expr::proofs::AnswerFacts::answer_steps), unfolding(crate::specs::Wanted::of_type))]
fn of_type(want: Wanted, place: Place, t: Typed) -> Result<Typed, BindFault>
    ensures exact { Answers result (of_type want place t) }
{
    if takes(want, t.kind) {
        Ok(t)
    } else {
        drop(t);
        Err(BindFault::Refused { code: 404, place })
    }
}

/// An expression of a type that is wanted.
#[tactic(auto, using(crate::proofs::AnswerSteps::bind_steps), unfolding(crate::specs::Wanted::typed_bound))]
pub fn bind_typed(alloc: Global, want: Wanted, e: &Expr, scope: &Scope) -> Result<Typed, BindFault>
    ensures exact { Answers result (typed_bound want e.now scope.now) }
{
    match bind_expr(alloc, e, scope) {
        Ok(t) => of_type(want, expr_start(e), t),
        Err(fault) => Err(fault),
    }
}

/// The literal of a constant of a type that is wanted: 403 at the operator where it is none, 404 at its place where its type is another.
#[tactic(auto, using(bind_expr::proofs::AnswerFacts::answer_steps), unfolding(crate::specs::Wanted::constant_wanted))]
pub fn constant_wanted(
    alloc: Global,
    operator: Place,
    want: Wanted,
    place: Place,
    t: &Typed,
) -> Result<Lit, BindFault>
    ensures exact { Answers result (constant_wanted operator want place t.now) }
{
    match constant_of(alloc, t) {
        Ok(Some(l)) => {
            if takes(want, l.kind) {
                Ok(l)
            } else {
                drop(l);
                Err(BindFault::Refused { code: 404, place })
            }
        }
        Ok(None) => Err(BindFault::Refused {
            code: 403,
            place: operator,
        }),
        Err(_) => Err(BindFault::OutOfMemory),
    }
}

/// A constant of a type that is wanted, over these rows.
#[tactic(auto, using(bind_expr::proofs::AnswerFacts::answer_steps, crate::proofs::AnswerSteps::bind_steps), unfolding(crate::specs::Wanted::constant_bound))]
pub fn bind_constant(
    alloc: Global,
    operator: Place,
    want: Wanted,
    known: &Known,
    rows: &Shape,
    e: &Expr,
) -> Result<Lit, BindFault>
    ensures exact { Answers result (constant_bound operator want known.now rows.now e.now) }
{
    match scope_at(alloc, known, rows, Position::Constant) {
        Ok(scope) => match bind_expr(alloc, e, &scope) {
            Ok(t) => constant_wanted(alloc, operator, want, expr_start(e), &t),
            Err(fault) => Err(fault),
        },
        Err(_) => Err(BindFault::OutOfMemory),
    }
}

/// A count of rows: a constant long.
#[tactic(auto, unfolding(crate::specs::Wanted::row_count_bound))]
pub fn bind_row_count(
    alloc: Global,
    operator: Place,
    known: &Known,
    rows: &Shape,
    e: &Expr,
) -> Result<Lit, BindFault>
    ensures exact { Answers result (row_count_bound operator known.now rows.now e.now) }
{
    bind_constant(alloc, operator, Wanted::Is(Kind::Long), known, rows, e)
}

/// Whether a constant long is null or negative.
#[tactic(auto, unfolding(crate::specs::Wanted::is_no_count, kql_meaning::specs::FittingExpressions::is_count_literal, kql_meaning::specs::FittingExpressions::is_count_value))]
pub fn is_no_count(l: &Lit) -> bool
    ensures no { result ≡ is_no_count l.now }
{
    if !same_kind(l.kind, Kind::Long) {
        return true;
    }
    match &l.value {
        Value::Long(n) => *n < 0,
        _ => true,
    }
}

/// The count that a constant long is, without its sign.
#[tactic(auto, unfolding(crate::specs::Wanted::count_in, kql_meaning::specs::Sources::number_in, kql_meaning::specs::Values::number_of, kql_meaning::specs::Numbers::added))]
pub fn count_in(l: &Lit) -> u64
    ensures count { result ≡ count_in l.now }
{
    match &l.value {
        Value::Long(n) => n.unsigned_abs(),
        Value::Moment(n) => n.unsigned_abs(),
        Value::Span(n) => n.unsigned_abs(),
        _ => 0,
    }
}
