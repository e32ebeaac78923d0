//! Which calls of functions and windows stand where, and the arguments that they take.
ghost use Rattle.std.specs.Prelude.{◌≡◌, IfOk, is_some};
ghost use Rattle.kql_scalar_fns.specs.Time.{field_named, period_named};
ghost use Rattle.kql_meaning.specs.Expressions.{kind_along, kind_down, kind_of};
ghost use Rattle.kql_meaning.specs.FittingExpressions.{first_is_part, is_callable, look_fits, part_fits, takes_columns, takes_window};

use crate::literals::{first_word, is_constant_of, is_count};
use crate::scope::{Scope, is_plain_column};
use kql_bound::{BExpr, Link};
use kql_cells::Column;
use kql_functions::{Func, TimeFunc, Window};
use kql_meaning::{Position, kind_along, kind_down, kind_of};
use kql_scalar_fns::{field_named, period_named};
use std::alloc::{AllocError, Global};

/// Whether columns may stand in a position outside an aggregate's arguments.
#[tactic(auto, unfolding(kql_meaning::specs::FittingExpressions::takes_columns))]
pub(crate) fn takes_columns(at: Position) -> bool
    ensures takes { result ≡ takes_columns at }
{
    match at {
        Position::Plain => true,
        Position::Window => true,
        Position::Term => true,
        _ => false,
    }
}

/// Whether a window function may stand in a position.
#[tactic(auto, unfolding(kql_meaning::specs::FittingExpressions::takes_window))]
pub(crate) fn takes_window(at: Position, f: Window) -> bool
    ensures takes { result ≡ takes_window at f }
{
    match (at, f) {
        (Position::Window, _) => true,
        (Position::Term, Window::Prev) => true,
        (Position::Term, Window::Next) => true,
        _ => false,
    }
}

/// Whether a function is one of a program: in the place of `now` and `ago` stands the moment.
#[tactic(auto, unfolding(kql_meaning::specs::FittingExpressions::is_callable))]
pub(crate) fn is_callable(f: Func) -> bool
    ensures callable { result ≡ is_callable f }
{
    match f {
        Func::Time(TimeFunc::Now) => false,
        Func::Time(TimeFunc::Ago) => false,
        _ => true,
    }
}

/// Whether the part word of a function that has one is a constant that it knows.
#[tactic(auto, unfolding(kql_meaning::specs::FittingExpressions::part_fits))]
pub(crate) fn part_fits(f: Func, args: &[BExpr]) -> bool
    ensures fits { result ≡ part_fits f args.now }
{
    match f {
        Func::Time(TimeFunc::DatetimeAdd) => first_is_period(args),
        Func::Time(TimeFunc::DatetimeDiff) => first_is_period(args),
        Func::Time(TimeFunc::DatetimePart) => first_is_field(args),
        _ => true,
    }
}

#[tactic(auto, unfolding(kql_meaning::specs::FittingExpressions::first_is_part, kql_meaning::specs::FittingExpressions::names_part))]
fn first_is_period(args: &[BExpr]) -> bool
    ensures is { result ≡ first_is_part period_named args.now }
{
    match first_word(args) {
        None => false,
        Some(word) => period_named(word).is_some(),
    }
}

#[tactic(auto, unfolding(kql_meaning::specs::FittingExpressions::first_is_part, kql_meaning::specs::FittingExpressions::names_part))]
fn first_is_field(args: &[BExpr]) -> bool
    ensures is { result ≡ first_is_part field_named args.now }
{
    match first_word(args) {
        None => false,
        Some(word) => field_named(word).is_some(),
    }
}

/// Whether a chain has a type.
pub(crate) fn chain_has_kind(
    alloc: Global,
    first: &BExpr,
    links: &[Link],
    columns: &[Column],
) -> Result<bool, AllocError>
    ensures has { IfOk result (λ b. b ≡ is_some (kind_along links.now columns.now (kind_of first.now columns.now))) }
{
    let kind = kind_of(alloc, first, columns)?;
    let kind = kind_along(alloc, links, columns, kind)?;
    Ok(kind.is_some())
}

/// Whether a path has a type.
pub(crate) fn path_has_kind(
    alloc: Global,
    whole: &BExpr,
    steps: &[BExpr],
    columns: &[Column],
) -> Result<bool, AllocError>
    ensures has { IfOk result (λ b. b ≡ is_some (kind_down steps.now columns.now (kind_of whole.now columns.now))) }
{
    let kind = kind_of(alloc, whole, columns)?;
    let kind = kind_down(alloc, steps, columns, kind)?;
    Ok(kind.is_some())
}

/// `prev` and `next`: a column alone, a constant of 0 or more, and a constant of the column's type.
#[tactic(auto, unfolding(kql_meaning::specs::FittingExpressions::look_fits))]
pub(crate) fn look_fits(
    alloc: Global,
    args: &[BExpr],
    scope: &Scope<'_>,
) -> Result<bool, AllocError>
    ensures fits { IfOk result (λ b. b ≡ look_fits args.now scope.now) }
{
    match args {
        [column] => Ok(is_plain_column(scope.columns, column)),
        [column, count] => Ok(is_plain_column(scope.columns, column) && is_count(count)),
        [column, count, default] => {
            let kind = kind_of(alloc, column, scope.columns)?;
            Ok(
                is_plain_column(scope.columns, column)
                    && is_count(count)
                    && is_constant_of(kind, default),
            )
        }
        _ => Ok(false),
    }
}
