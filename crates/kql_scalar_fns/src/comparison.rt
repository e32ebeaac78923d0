ghost use Rattle.std.specs.Prelude.{◌≡◌, IfOk, map, option_map};
ghost use Rattle.std.specs.Ordering.{int_eq, is_ge, is_gt, is_le, is_lt};
ghost use Rattle.kql_texts.specs.Texts.{same};
ghost use Rattle.kql_cells.specs.Seen.{seen};
ghost use Rattle.kql_cells.specs.Values.{IsWellFormed};
ghost use Rattle.kql_scalar_fns.specs.Arguments.{AreWellFormed};
ghost use Rattle.kql_scalar_fns.specs.Comparison.{comparison, equality, is_between, order, same_bools, text_equality, upper_end};

use crate::arguments::{argument, bool_or_null, others};
use crate::arithmetic::sum;
use crate::logic::{both, opposite};
use crate::membership::is_among;
use kql_cells::{CellRef, Value};
use kql_functions::ComparisonFunc;
use kql_texts::{Fold, same};
use std::alloc::{AllocError, Global};
use std::cmp::Ordering;

#[tactic(auto, unfolding(crate::specs::Comparison::comparison))]
pub(crate) fn apply_comparison(
    alloc: Global,
    f: ComparisonFunc,
    args: &[CellRef<'_>],
) -> Result<Value, AllocError>
    requires { AreWellFormed (map seen args.now) }
    ensures value { IfOk result (λ v. v ≡ comparison f (map seen args.now)) }
    ensures form { IfOk result IsWellFormed }
{
    let a = argument(args, 0);
    let b = argument(args, 1);
    match f {
        ComparisonFunc::Equal => Ok(bool_or_null(equality(a, b))),
        ComparisonFunc::NotEqual => Ok(bool_or_null(opposite(equality(a, b)))),
        ComparisonFunc::Less => Ok(bool_or_null(is_less(order(a, b)))),
        ComparisonFunc::AtMost => Ok(bool_or_null(is_at_most(order(a, b)))),
        ComparisonFunc::Greater => Ok(bool_or_null(is_greater(order(a, b)))),
        ComparisonFunc::AtLeast => Ok(bool_or_null(is_at_least(order(a, b)))),
        ComparisonFunc::EqualText => Ok(bool_or_null(text_equality(alloc, a, b)?)),
        ComparisonFunc::NotEqualText => Ok(bool_or_null(opposite(text_equality(alloc, a, b)?))),
        ComparisonFunc::In => Ok(Value::Bool(is_among(alloc, Fold::Exact, a, others(args))?)),
        ComparisonFunc::NotIn => Ok(Value::Bool(!is_among(alloc, Fold::Exact, a, others(args))?)),
        ComparisonFunc::InTexts => {
            Ok(Value::Bool(is_among(alloc, Fold::Caseless, a, others(args))?))
        }
        ComparisonFunc::NotInTexts => {
            Ok(Value::Bool(!is_among(alloc, Fold::Caseless, a, others(args))?))
        }
        ComparisonFunc::Between => Ok(bool_or_null(is_between(a, b, argument(args, 2)))),
        ComparisonFunc::NotBetween => {
            Ok(bool_or_null(opposite(is_between(a, b, argument(args, 2)))))
        }
    }
}

// Whether two values are the same: not known of two nulls.
#[tactic(auto, unfolding(crate::specs::Comparison::equality))]
pub(crate) fn equality(a: CellRef<'_>, b: CellRef<'_>) -> Option<bool>
    ensures { result ≡ equality (seen a.entry) (seen b.entry) }
{
    match (a, b) {
        (CellRef::Null, CellRef::Null) => None,
        (CellRef::Bool(a), CellRef::Bool(b)) => Some(same_bools(a, b)),
        (CellRef::Long(a), CellRef::Long(b)) => Some(same_numbers(a, b)),
        (CellRef::Text(a), CellRef::Text(b)) => Some(same_texts(a, b)),
        (CellRef::Moment(a), CellRef::Moment(b)) => Some(same_numbers(a, b)),
        (CellRef::Span(a), CellRef::Span(b)) => Some(same_numbers(a, b)),
        _ => Some(false),
    }
}

fn same_bools(a: bool, b: bool) -> bool
    ensures { result ≡ same_bools a b }
{
    if a { b } else { !b }
}

fn same_numbers(a: i64, b: i64) -> bool
    ensures { result ≡ int_eq a b }
{
    a == b
}

#[tactic(auto, unfolding(kql_texts::specs::Texts::same))]
fn same_texts(a: &str, b: &str) -> bool
    ensures { result ≡ same a.now b.now }
{
    a == b
}

// The order of two numbers of one type; not known where one is null.
#[tactic(auto, unfolding(crate::specs::Comparison::order))]
pub(crate) fn order(a: CellRef<'_>, b: CellRef<'_>) -> Option<Ordering>
    ensures { result ≡ order (seen a.entry) (seen b.entry) }
{
    match (a, b) {
        (CellRef::Long(a), CellRef::Long(b)) => Some(a.cmp(&b)),
        (CellRef::Moment(a), CellRef::Moment(b)) => Some(a.cmp(&b)),
        (CellRef::Span(a), CellRef::Span(b)) => Some(a.cmp(&b)),
        _ => None,
    }
}

pub(crate) fn is_less(order: Option<Ordering>) -> Option<bool>
    ensures { result ≡ option_map is_lt order }
{
    match order {
        Some(order) => Some(order.is_lt()),
        None => None,
    }
}

fn is_at_most(order: Option<Ordering>) -> Option<bool>
    ensures { result ≡ option_map is_le order }
{
    match order {
        Some(order) => Some(order.is_le()),
        None => None,
    }
}

fn is_greater(order: Option<Ordering>) -> Option<bool>
    ensures { result ≡ option_map is_gt order }
{
    match order {
        Some(order) => Some(order.is_gt()),
        None => None,
    }
}

fn is_at_least(order: Option<Ordering>) -> Option<bool>
    ensures { result ≡ option_map is_ge order }
{
    match order {
        Some(order) => Some(order.is_ge()),
        None => None,
    }
}

// Whether two texts are the same without case.
#[tactic(auto, unfolding(crate::specs::Comparison::text_equality))]
pub(crate) fn text_equality(
    alloc: Global,
    a: CellRef<'_>,
    b: CellRef<'_>,
) -> Result<Option<bool>, AllocError>
    ensures { IfOk result (λ r. r ≡ text_equality (seen a.entry) (seen b.entry)) }
{
    match (a, b) {
        (CellRef::Text(a), CellRef::Text(b)) => Ok(Some(same(alloc, a, b, Fold::Caseless)?)),
        _ => Ok(None),
    }
}

// Whether a <= x and x <= b.
#[tactic(auto, unfolding(crate::specs::Comparison::is_between))]
fn is_between(x: CellRef<'_>, a: CellRef<'_>, b: CellRef<'_>) -> Option<bool>
    ensures { result ≡ is_between (seen x.entry) (seen a.entry) (seen b.entry) }
{
    both(is_at_most(order(a, x)), is_at_most(order_to_end(x, a, b)))
}

// The order of x and the upper end.
#[tactic(auto, unfolding(crate::specs::Comparison::upper_end))]
fn order_to_end(x: CellRef<'_>, a: CellRef<'_>, b: CellRef<'_>) -> Option<Ordering>
    ensures { result ≡ order (seen x.entry) (upper_end (seen x.entry) (seen a.entry) (seen b.entry)) }
{
    match (x, b) {
        (CellRef::Moment(_), CellRef::Span(_)) => order(x, sum(a, b).as_cell()),
        _ => order(x, b),
    }
}
