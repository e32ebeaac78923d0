//! Whether an expression fits the columns that it reads and the position in which it stands.
ghost use Rattle.std.specs.Prelude.{◌≡◌, ◌&&◌, IfOk, is_some};
ghost use Rattle.std.specs.List.{list_all};
ghost use Rattle.kql_meaning.specs.Expressions.{call_kind, kinds_in};
ghost use Rattle.kql_meaning.specs.FittingExpressions.{aggregate_fits, call_or_expr_fits, checked_args, expr_fits, fits_as, is_aggregate_call, is_callable, links_fit, part_fits, row_number_fits, running_sum_fits, window_fits};
ghost use Rattle.kql_fits.specs.KindTests.{meets};

use crate::fit_aggregates::{aggregate_takes, has_one_result, takes_aggregate};
use crate::fit_calls::{
    chain_has_kind, is_callable, look_fits, part_fits, path_has_kind, takes_columns, takes_window,
};
use crate::kind_tests::{KindTest, has_kind};
use crate::literals::{is_constant_of, literal_fits};
use crate::scope::{Scope, step_fits};
use kql_bound::{BExpr, Link};
use kql_cells::Kind;
use kql_columns::has_column;
use kql_functions::{Aggregate, Func, Window};
use kql_meaning::{Position, kind_of, kind_of_call};
use std::alloc::{AllocError, Global};

/// Whether an expression fits a scope in a position, with one result column.
#[cycle(expr_fits)]
#[tactic(auto, using(kql_meaning::proofs::ExpressionFitLaws::fit_steps))]
pub(crate) fn expr_fits(
    alloc: Global,
    e: &BExpr,
    scope: &Scope<'_>,
    at: Position,
) -> Result<bool, AllocError>
    ensures fits { IfOk result (λ b. b ≡ expr_fits e.now scope.now at) }
{
    match e {
        BExpr::Literal(lit) => Ok(literal_fits(lit)),
        BExpr::Column(name) => Ok(takes_columns(at) && has_column(name.as_str(), scope.columns)),
        BExpr::Step(column) => Ok(takes_columns(at) && step_fits(scope, column)),
        BExpr::Call(f, args) => call_fits(alloc, *f, args.as_slice(), scope, at),
        BExpr::Chain(first, links) => {
            if !expr_fits(alloc, first.get(), scope, at)? {
                return Ok(false);
            }
            if !links_fit(alloc, links.as_slice(), scope, at)? {
                return Ok(false);
            }
            chain_has_kind(alloc, first.get(), links.as_slice(), scope.columns)
        }
        BExpr::Path(whole, steps) => {
            if !expr_fits(alloc, whole.get(), scope, at)? {
                return Ok(false);
            }
            if !exprs_fit(alloc, steps.as_slice(), scope, at)? {
                return Ok(false);
            }
            path_has_kind(alloc, whole.get(), steps.as_slice(), scope.columns)
        }
        BExpr::Window(f, args) => {
            if !takes_window(at, *f) {
                return Ok(false);
            }
            window_fits(alloc, *f, args.as_slice(), scope)
        }
        BExpr::Aggregate(f, args) => {
            if !has_one_result(*f, args.as_slice()) {
                return Ok(false);
            }
            aggregate_fits(alloc, *f, args.as_slice(), scope, at)
        }
    }
}

// Whether expressions all fit.
#[cycle(expr_fits)]
fn exprs_fit(
    alloc: Global,
    es: &[BExpr],
    scope: &Scope<'_>,
    at: Position,
) -> Result<bool, AllocError>
    ensures fit { IfOk result (λ b. b ≡ list_all (λ e. expr_fits e scope.now at) es.now) }
{
    for e in es {
        if !expr_fits(alloc, e, scope, at)? {
            return Ok(false);
        }
    }
    Ok(true)
}

#[cycle(expr_fits)]
#[tactic(auto, unfolding(kql_meaning::specs::FittingExpressions::links_fit))]
fn links_fit(
    alloc: Global,
    links: &[Link],
    scope: &Scope<'_>,
    at: Position,
) -> Result<bool, AllocError>
    ensures fit { IfOk result (λ b. b ≡ links_fit links.now scope.now at) }
{
    for link in links {
        if !expr_fits(alloc, &link.1, scope, at)? {
            return Ok(false);
        }
    }
    Ok(true)
}

#[cycle(expr_fits)]
fn call_fits(
    alloc: Global,
    f: Func,
    args: &[BExpr],
    scope: &Scope<'_>,
    at: Position,
) -> Result<bool, AllocError>
    ensures fits { IfOk result (λ b. b ≡ (is_callable f && (list_all (λ e. expr_fits e scope.now at) args.now && (part_fits f args.now && is_some (call_kind f (kinds_in args.now scope.now.columns)))))) }
{
    if !is_callable(f) {
        return Ok(false);
    }
    if !exprs_fit(alloc, args, scope, at)? {
        return Ok(false);
    }
    if !part_fits(f, args) {
        return Ok(false);
    }
    let kind = kind_of_call(alloc, f, args, scope.columns)?;
    Ok(kind.is_some())
}

#[cycle(expr_fits)]
#[tactic(auto, unfolding(kql_meaning::specs::FittingExpressions::window_fits), using(kql_meaning::proofs::ExpressionFitLaws::checked_steps))]
fn window_fits(
    alloc: Global,
    f: Window,
    args: &[BExpr],
    scope: &Scope<'_>,
) -> Result<bool, AllocError>
    ensures fits { IfOk result (λ b. b ≡ window_fits f (checked_args args.now) scope.now) }
{
    match f {
        Window::Prev => look_fits(alloc, args, scope),
        Window::Next => look_fits(alloc, args, scope),
        Window::RowCumsum => running_sum_fits(alloc, args, scope),
        Window::RowNumber => row_number_fits(alloc, args, scope),
    }
}

// The term of `row_cumsum` is a long or a timespan, and its restart a bool.
#[cycle(expr_fits)]
#[tactic(auto, unfolding(kql_meaning::specs::FittingExpressions::running_sum_fits, kql_meaning::specs::FittingExpressions::checked_args, kql_meaning::specs::FittingExpressions::term_fits, kql_meaning::specs::FittingExpressions::restart_fits, kql_meaning::specs::FittingExpressions::is_kind, kql_meaning::specs::FittingExpressions::fits_as))]
fn running_sum_fits(alloc: Global, args: &[BExpr], scope: &Scope<'_>) -> Result<bool, AllocError>
    ensures fits { IfOk result (λ b. b ≡ running_sum_fits (checked_args args.now) scope.now) }
{
    match args {
        [term] => fits_as(alloc, KindTest::Addable, term, scope, Position::Term),
        [term, restart] => {
            if !fits_as(alloc, KindTest::Addable, term, scope, Position::Term)? {
                return Ok(false);
            }
            fits_as(
                alloc,
                KindTest::This(Kind::Bool),
                restart,
                scope,
                Position::Term,
            )
        }
        _ => Ok(false),
    }
}

// The start of `row_number` is a constant long, which may be null, and its restart a bool.
#[cycle(expr_fits)]
#[tactic(auto, unfolding(kql_meaning::specs::FittingExpressions::row_number_fits, kql_meaning::specs::FittingExpressions::checked_args, kql_meaning::specs::FittingExpressions::restart_fits, kql_meaning::specs::FittingExpressions::is_kind, kql_meaning::specs::FittingExpressions::fits_as))]
fn row_number_fits(alloc: Global, args: &[BExpr], scope: &Scope<'_>) -> Result<bool, AllocError>
    ensures fits { IfOk result (λ b. b ≡ row_number_fits (checked_args args.now) scope.now) }
{
    match args {
        [] => Ok(true),
        [start] => Ok(is_constant_of(Some(Kind::Long), start)),
        [start, restart] => {
            if !is_constant_of(Some(Kind::Long), start) {
                return Ok(false);
            }
            fits_as(
                alloc,
                KindTest::This(Kind::Bool),
                restart,
                scope,
                Position::Term,
            )
        }
        _ => Ok(false),
    }
}

/// Whether a call of an aggregate fits, with one result column or several.
#[cycle(expr_fits)]
#[tactic(auto, using(kql_meaning::proofs::ExpressionFitLaws::checked_steps))]
fn aggregate_fits(
    alloc: Global,
    f: Aggregate,
    args: &[BExpr],
    scope: &Scope<'_>,
    at: Position,
) -> Result<bool, AllocError>
    ensures fits { IfOk result (λ b. b ≡ aggregate_fits f (checked_args args.now) scope.now at) }
{
    if !takes_aggregate(at, f) {
        return Ok(false);
    }
    if !exprs_fit(alloc, args, scope, Position::Plain)? {
        return Ok(false);
    }
    aggregate_takes(alloc, f, args, scope.columns)
}

/// Whether an expression fits and its type is as asked.
#[cycle(expr_fits)]
#[tactic(auto, unfolding(kql_meaning::specs::FittingExpressions::fits_as))]
pub(crate) fn fits_as(
    alloc: Global,
    test: KindTest,
    e: &BExpr,
    scope: &Scope<'_>,
    at: Position,
) -> Result<bool, AllocError>
    ensures fits { IfOk result (λ b. b ≡ fits_as (meets test) e.now scope.now at) }
{
    if !expr_fits(alloc, e, scope, at)? {
        return Ok(false);
    }
    let kind = kind_of(alloc, e, scope.columns)?;
    Ok(has_kind(test, kind))
}

/// Whether a call of an aggregate fits that may have several result columns, or an expression that has one.
#[tactic(auto, using(kql_meaning::proofs::ExpressionFitLaws::call_steps))]
pub(crate) fn call_or_expr_fits(
    alloc: Global,
    e: &BExpr,
    scope: &Scope<'_>,
    at: Position,
) -> Result<bool, AllocError>
    ensures fits { IfOk result (λ b. b ≡ call_or_expr_fits e.now scope.now at) }
{
    match e {
        BExpr::Literal(_) => expr_fits(alloc, e, scope, at),
        BExpr::Column(_) => expr_fits(alloc, e, scope, at),
        BExpr::Step(_) => expr_fits(alloc, e, scope, at),
        BExpr::Call(_, _) => expr_fits(alloc, e, scope, at),
        BExpr::Chain(_, _) => expr_fits(alloc, e, scope, at),
        BExpr::Path(_, _) => expr_fits(alloc, e, scope, at),
        BExpr::Window(_, _) => expr_fits(alloc, e, scope, at),
        BExpr::Aggregate(f, args) => aggregate_fits(alloc, *f, args.as_slice(), scope, at),
    }
}

/// Whether an expression is one call of an aggregate.
#[tactic(auto, using(kql_meaning::proofs::ExpressionFitLaws::is_call_steps))]
pub fn is_aggregate_call(e: &BExpr) -> bool
    ensures call { result ≡ is_aggregate_call e.now }
{
    match e {
        BExpr::Literal(_) => false,
        BExpr::Column(_) => false,
        BExpr::Step(_) => false,
        BExpr::Call(_, _) => false,
        BExpr::Chain(_, _) => false,
        BExpr::Path(_, _) => false,
        BExpr::Window(_, _) => false,
        BExpr::Aggregate(_, _) => true,
    }
}
