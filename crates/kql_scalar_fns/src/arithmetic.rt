ghost use Rattle.std.specs.Prelude.{◌≡◌, map};
ghost use Rattle.kql_cells.specs.Seen.{seen};
ghost use Rattle.kql_cells.specs.Values.{IsWellFormed};
ghost use Rattle.kql_scalar_fns.specs.Arithmetic.{arithmetic, bin, bin_from_zero, difference, negative, product, quotient, remainder, sign, size, sum};

use crate::arguments::{argument, long_or_null, moment_or_null, span_or_null};
use crate::bits::{bits_and, bits_or, bits_turned, bits_xor};
use crate::whole::{
    moment_bin, moment_difference, moment_sum, whole_difference, whole_negative, whole_product,
    whole_quotient, whole_remainder, whole_size, whole_sum,
};
use kql_cells::{CellRef, Value};
use kql_functions::ArithmeticFunc;
use kql_ticks::bin_at;

#[tactic(auto, unfolding(crate::specs::Arithmetic::arithmetic))]
pub(crate) fn apply_arithmetic(f: ArithmeticFunc, args: &[CellRef<'_>]) -> Value
    ensures value { result ≡ arithmetic f (map seen args.now) }
    ensures form { IsWellFormed result }
{
    let a = argument(args, 0);
    let b = argument(args, 1);
    match f {
        ArithmeticFunc::Add => sum(a, b),
        ArithmeticFunc::Subtract => difference(a, b),
        ArithmeticFunc::Multiply => product(a, b),
        ArithmeticFunc::Divide => quotient(a, b),
        ArithmeticFunc::Modulo => remainder(a, b),
        ArithmeticFunc::Negate => negative(a),
        ArithmeticFunc::Abs => size(a),
        ArithmeticFunc::Sign => sign(a),
        ArithmeticFunc::Bin => bin_from_zero(a, b),
        ArithmeticFunc::Floor => bin_from_zero(a, b),
        ArithmeticFunc::BinAt => bin(a, b, argument(args, 2)),
        ArithmeticFunc::BinaryAnd => bits_and(a, b),
        ArithmeticFunc::BinaryOr => bits_or(a, b),
        ArithmeticFunc::BinaryXor => bits_xor(a, b),
        ArithmeticFunc::BinaryNot => bits_turned(a),
    }
}

#[tactic(auto, unfolding(crate::specs::Arithmetic::sum))]
pub(crate) fn sum(a: CellRef<'_>, b: CellRef<'_>) -> Value
    ensures value { result ≡ sum (seen a.entry) (seen b.entry) }
    ensures form { IsWellFormed result }
{
    match (a, b) {
        (CellRef::Long(a), CellRef::Long(b)) => long_or_null(whole_sum(a, b)),
        (CellRef::Span(a), CellRef::Span(b)) => span_or_null(whole_sum(a, b)),
        (CellRef::Moment(a), CellRef::Span(b)) => moment_or_null(moment_sum(a, b)),
        (CellRef::Span(a), CellRef::Moment(b)) => moment_or_null(moment_sum(a, b)),
        _ => Value::Null,
    }
}

#[tactic(auto, unfolding(crate::specs::Arithmetic::difference))]
fn difference(a: CellRef<'_>, b: CellRef<'_>) -> Value
    ensures value { result ≡ difference (seen a.entry) (seen b.entry) }
    ensures form { IsWellFormed result }
{
    match (a, b) {
        (CellRef::Long(a), CellRef::Long(b)) => long_or_null(whole_difference(a, b)),
        (CellRef::Span(a), CellRef::Span(b)) => span_or_null(whole_difference(a, b)),
        (CellRef::Moment(a), CellRef::Span(b)) => moment_or_null(moment_difference(a, b)),
        (CellRef::Moment(a), CellRef::Moment(b)) => span_or_null(whole_difference(a, b)),
        _ => Value::Null,
    }
}

#[tactic(auto, unfolding(crate::specs::Arithmetic::product))]
fn product(a: CellRef<'_>, b: CellRef<'_>) -> Value
    ensures value { result ≡ product (seen a.entry) (seen b.entry) }
    ensures form { IsWellFormed result }
{
    match (a, b) {
        (CellRef::Long(a), CellRef::Long(b)) => long_or_null(whole_product(a, b)),
        (CellRef::Span(a), CellRef::Long(b)) => span_or_null(whole_product(a, b)),
        (CellRef::Long(a), CellRef::Span(b)) => span_or_null(whole_product(a, b)),
        _ => Value::Null,
    }
}

#[tactic(auto, unfolding(crate::specs::Arithmetic::quotient))]
fn quotient(a: CellRef<'_>, b: CellRef<'_>) -> Value
    ensures value { result ≡ quotient (seen a.entry) (seen b.entry) }
    ensures form { IsWellFormed result }
{
    match (a, b) {
        (CellRef::Long(a), CellRef::Long(b)) => long_or_null(whole_quotient(a, b)),
        (CellRef::Span(a), CellRef::Long(b)) => span_or_null(whole_quotient(a, b)),
        (CellRef::Span(a), CellRef::Span(b)) => long_or_null(whole_quotient(a, b)),
        _ => Value::Null,
    }
}

#[tactic(auto, unfolding(crate::specs::Arithmetic::remainder))]
fn remainder(a: CellRef<'_>, b: CellRef<'_>) -> Value
    ensures value { result ≡ remainder (seen a.entry) (seen b.entry) }
    ensures form { IsWellFormed result }
{
    match (a, b) {
        (CellRef::Long(a), CellRef::Long(b)) => long_or_null(whole_remainder(a, b)),
        _ => Value::Null,
    }
}

#[tactic(auto, unfolding(crate::specs::Arithmetic::negative))]
fn negative(a: CellRef<'_>) -> Value
    ensures value { result ≡ negative (seen a.entry) }
    ensures form { IsWellFormed result }
{
    match a {
        CellRef::Long(a) => long_or_null(whole_negative(a)),
        CellRef::Span(a) => span_or_null(whole_negative(a)),
        _ => Value::Null,
    }
}

#[tactic(auto, unfolding(crate::specs::Arithmetic::size))]
fn size(a: CellRef<'_>) -> Value
    ensures value { result ≡ size (seen a.entry) }
    ensures form { IsWellFormed result }
{
    match a {
        CellRef::Long(a) => long_or_null(whole_size(a)),
        CellRef::Span(a) => span_or_null(whole_size(a)),
        _ => Value::Null,
    }
}

#[tactic(auto, unfolding(crate::specs::Arithmetic::sign))]
fn sign(a: CellRef<'_>) -> Value
    ensures value { result ≡ sign (seen a.entry) }
    ensures form { IsWellFormed result }
{
    match a {
        CellRef::Long(a) => Value::Long(a.signum()),
        _ => Value::Null,
    }
}

#[tactic(auto, unfolding(crate::specs::Arithmetic::bin))]
fn bin(x: CellRef<'_>, s: CellRef<'_>, f: CellRef<'_>) -> Value
    ensures value { result ≡ bin (seen x.entry) (seen s.entry) (seen f.entry) }
    ensures form { IsWellFormed result }
{
    match (x, s, f) {
        (CellRef::Long(x), CellRef::Long(s), CellRef::Long(f)) => long_or_null(bin_at(x, s, f)),
        (CellRef::Span(x), CellRef::Span(s), CellRef::Span(f)) => span_or_null(bin_at(x, s, f)),
        (CellRef::Moment(x), CellRef::Span(s), CellRef::Moment(f)) => {
            moment_or_null(moment_bin(x, s, f))
        }
        _ => Value::Null,
    }
}

#[tactic(auto, unfolding(crate::specs::Arithmetic::bin_from_zero))]
fn bin_from_zero(x: CellRef<'_>, s: CellRef<'_>) -> Value
    ensures value { result ≡ bin_from_zero (seen x.entry) (seen s.entry) }
    ensures form { IsWellFormed result }
{
    match x {
        CellRef::Long(_) => bin(x, s, CellRef::Long(0)),
        CellRef::Span(_) => bin(x, s, CellRef::Span(0)),
        CellRef::Moment(_) => bin(x, s, CellRef::Moment(0)),
        _ => Value::Null,
    }
}
