ghost use Rattle.std.specs.Prelude.{◌≡◌, IfOk, IfSome, map, option_and_then, pos};
ghost use Rattle.std.specs.Ordering.{int_eq};
ghost use Rattle.kql_dynamic.specs.Parts.{text};
ghost use Rattle.kql_ticks.specs.Forms.{span_in};
ghost use Rattle.kql_cells.specs.Seen.{seen};
ghost use Rattle.kql_cells.specs.Values.{IsMoment, IsWellFormed};
ghost use Rattle.kql_scalar_fns.specs.Arguments.{AreWellFormed};
ghost use Rattle.kql_scalar_fns.specs.Conversion.{bool_held, conversion, is_not_zero, long_held, moment_written, one_if, to_bool, to_long, to_moment, to_span};

use crate::arguments::{argument, bool_or_null, long_or_null, moment_or_null, span_or_null};
use crate::readings::{text_in, text_of};
use kql_cells::{CellRef, Dyn, Value, read_bool, read_long};
use kql_functions::ConversionFunc;
use kql_ticks::{read_moment, read_span};
use std::alloc::{AllocError, Global};

#[tactic(auto, unfolding(crate::specs::Conversion::conversion))]
pub(crate) fn apply_conversion(
    alloc: Global,
    f: ConversionFunc,
    args: &[CellRef<'_>],
) -> Result<Value, AllocError>
    requires { AreWellFormed (map seen args.now) }
    ensures value { IfOk result (λ v. v ≡ conversion f (map seen args.now)) }
    ensures form { IfOk result IsWellFormed }
{
    let a = argument(args, 0);
    match f {
        ConversionFunc::ToLong => Ok(to_long(a)),
        ConversionFunc::ToText => Ok(Value::Text(text_of(alloc, a)?)),
        ConversionFunc::ToBool => Ok(to_bool(a)),
        ConversionFunc::ToMoment => Ok(to_moment(a)),
        ConversionFunc::ToSpan => Ok(to_span(a)),
    }
}

fn one_if(b: bool) -> i64
    ensures { result ≡ one_if b }
{
    if b { 1 } else { 0 }
}

fn is_not_zero(n: i64) -> bool
    ensures { result ≡ is_not_zero n }
{
    n != 0
}

// The long that a dynamic value holds.
#[tactic(auto, unfolding(crate::specs::Conversion::long_held))]
fn long_held(d: &Dyn) -> Option<i64>
    ensures { result ≡ long_held d.now }
{
    match d {
        Dyn::Bool(b) => Some(one_if(*b)),
        Dyn::Long(n) => Some(*n),
        Dyn::Text(t) => read_long(t.as_str()),
        _ => None,
    }
}

// The bool that a dynamic value holds.
#[tactic(auto, unfolding(crate::specs::Conversion::bool_held))]
fn bool_held(d: &Dyn) -> Option<bool>
    ensures { result ≡ bool_held d.now }
{
    match d {
        Dyn::Bool(b) => Some(*b),
        Dyn::Long(n) => Some(is_not_zero(*n)),
        Dyn::Text(t) => read_bool(t.as_str()),
        _ => None,
    }
}

#[tactic(auto, unfolding(crate::specs::Conversion::to_long))]
pub(crate) fn to_long(a: CellRef<'_>) -> Value
    ensures value { result ≡ to_long (seen a.entry) }
    ensures form { IsWellFormed result }
{
    match a {
        CellRef::Null => Value::Null,
        CellRef::Bool(b) => Value::Long(one_if(b)),
        CellRef::Long(n) => Value::Long(n),
        CellRef::Text(t) => long_or_null(read_long(t)),
        CellRef::Moment(n) => Value::Long(n),
        CellRef::Span(n) => Value::Long(n),
        CellRef::Dynamic(d) => long_or_null(long_held(d)),
    }
}

#[tactic(auto, unfolding(crate::specs::Conversion::to_bool))]
pub(crate) fn to_bool(a: CellRef<'_>) -> Value
    ensures value { result ≡ to_bool (seen a.entry) }
    ensures form { IsWellFormed result }
{
    match a {
        CellRef::Bool(b) => Value::Bool(b),
        CellRef::Long(n) => Value::Bool(is_not_zero(n)),
        CellRef::Text(t) => bool_or_null(read_bool(t)),
        CellRef::Dynamic(d) => bool_or_null(bool_held(d)),
        _ => Value::Null,
    }
}

#[tactic(auto, unfolding(crate::specs::Conversion::moment_written))]
fn moment_written(t: &str) -> Option<i64>
    ensures value { result ≡ moment_written t.now }
    ensures range { IfSome result IsMoment }
{
    read_moment(t)
}

// The datetime that the text of a dynamic value is.
fn moment_held(d: &Dyn) -> Option<i64>
    ensures value { result ≡ option_and_then moment_written (text d.now) }
    ensures range { IfSome result IsMoment }
{
    match text_in(d) {
        Some(t) => moment_written(t),
        None => None,
    }
}

// The timespan that the text of a dynamic value is.
fn span_held(d: &Dyn) -> Option<i64>
    ensures { result ≡ option_and_then span_in (text d.now) }
{
    match text_in(d) {
        Some(t) => read_span(t),
        None => None,
    }
}

#[tactic(auto, unfolding(crate::specs::Conversion::to_moment))]
pub(crate) fn to_moment(a: CellRef<'_>) -> Value
    requires { IsWellFormed (seen a) }
    ensures value { result ≡ to_moment (seen a.entry) }
    ensures form { IsWellFormed result }
{
    match a {
        CellRef::Moment(n) => Value::Moment(n),
        CellRef::Text(t) => moment_or_null(moment_written(t)),
        CellRef::Dynamic(d) => moment_or_null(moment_held(d)),
        _ => Value::Null,
    }
}

#[tactic(auto, unfolding(crate::specs::Conversion::to_span))]
pub(crate) fn to_span(a: CellRef<'_>) -> Value
    ensures value { result ≡ to_span (seen a.entry) }
    ensures form { IsWellFormed result }
{
    match a {
        CellRef::Span(n) => Value::Span(n),
        CellRef::Text(t) => span_or_null(read_span(t)),
        CellRef::Dynamic(d) => span_or_null(span_held(d)),
        _ => Value::Null,
    }
}
