//! Functions of two values. Two longs are added, multiplied and compared without an array of arguments.
ghost use Rattle.std.specs.Prelude.{◌≡◌, ◌+ℤ◌, ◌-ℤ◌, ◌*ℤ◌, ◌∷◌, [], IfOk, IfSome};
ghost use Rattle.kql_ticks.specs.Ranges.{fit};
ghost use Rattle.kql_cells.specs.Seen.{seen};
ghost use Rattle.kql_cells.specs.Values.{IsWellFormed};
ghost use Rattle.kql_cells.specs.declared.value.Value.TheVariants as value;
ghost use Rattle.kql_functions.specs.declared.func.Func.TheVariants as func;
ghost use Rattle.kql_scalar_fns.specs.Applied.{applied};
ghost use Rattle.kql_scalar_fns.specs.Arguments.{long_or_null};
ghost use Rattle.kql_scalar_fns.specs.Arithmetic.{quotient_of, remainder_of};

use kql_cells::{CellRef, Value};
use kql_functions::{ArithmeticFunc, ComparisonFunc, Func};
use kql_scalar_fns::apply_cells;
use std::alloc::{AllocError, Global};

/// What a function gives for two values, which are lent for one time.
pub(crate) fn apply_pair<'a>(
    alloc: Global,
    f: Func,
    a: CellRef<'a>,
    b: CellRef<'a>,
) -> Result<Value, AllocError>
    requires first { IsWellFormed (seen a) }
    requires second { IsWellFormed (seen b) }
    ensures value { IfOk result (λ v. v ≡ applied f (seen a.entry ∷ seen b.entry ∷ [])) }
    ensures form { IfOk result IsWellFormed }
{
    if let CellRef::Long(x) = a {
        if let CellRef::Long(y) = b {
            if let Some(value) = long_pair(f, x, y) {
                return Ok(value);
            }
        }
    }
    apply_array(alloc, f, a, b)
}

// The same over an array of the two.
#[tactic(auto, using(crate::proofs::FormFacts::form_facts))]
fn apply_array<'a>(
    alloc: Global,
    f: Func,
    a: CellRef<'a>,
    b: CellRef<'a>,
) -> Result<Value, AllocError>
    requires first { IsWellFormed (seen a) }
    requires second { IsWellFormed (seen b) }
    ensures value { IfOk result (λ v. v ≡ applied f (seen a.entry ∷ seen b.entry ∷ [])) }
    ensures form { IfOk result IsWellFormed }
{
    apply_cells(alloc, f, &[a, b])
}

// What a sign or a comparison gives for two longs, if it is one of these.
fn long_pair(f: Func, x: i64, y: i64) -> Option<Value>
    ensures value { IfSome result (λ v. v ≡ applied f (value.Long x ∷ value.Long y ∷ [])) }
    ensures form { IfSome result IsWellFormed }
{
    match f {
        Func::Arithmetic(f) => long_sign(f, x, y),
        Func::Comparison(f) => long_test(f, x, y),
        _ => None,
    }
}

#[tactic(auto, using(crate::proofs::RangeFacts::fit_facts), unfolding(kql_scalar_fns::specs::Applied::applied, kql_scalar_fns::specs::Arithmetic::arithmetic, kql_scalar_fns::specs::Arithmetic::sum, kql_scalar_fns::specs::Arithmetic::difference, kql_scalar_fns::specs::Arithmetic::product, kql_scalar_fns::specs::Arguments::argument))]
fn long_sign(f: ArithmeticFunc, x: i64, y: i64) -> Option<Value>
    ensures value { IfSome result (λ v. v ≡ applied (func.Arithmetic f) (value.Long x ∷ value.Long y ∷ [])) }
    ensures form { IfSome result IsWellFormed }
{
    match f {
        ArithmeticFunc::Add => Some(long_or_null(long_sum(x, y))),
        ArithmeticFunc::Subtract => Some(long_or_null(long_difference(x, y))),
        ArithmeticFunc::Multiply => Some(long_or_null(long_product(x, y))),
        _ => None,
    }
}

#[tactic(auto, unfolding(kql_scalar_fns::specs::Applied::applied, kql_scalar_fns::specs::Comparison::comparison, kql_scalar_fns::specs::Comparison::equality, kql_scalar_fns::specs::Comparison::order, kql_scalar_fns::specs::Arguments::argument))]
fn long_test(f: ComparisonFunc, x: i64, y: i64) -> Option<Value>
    ensures value { IfSome result (λ v. v ≡ applied (func.Comparison f) (value.Long x ∷ value.Long y ∷ [])) }
    ensures form { IfSome result IsWellFormed }
{
    match f {
        ComparisonFunc::Equal => Some(Value::Bool(x == y)),
        ComparisonFunc::NotEqual => Some(Value::Bool(x != y)),
        ComparisonFunc::Less => Some(Value::Bool(x < y)),
        ComparisonFunc::AtMost => Some(Value::Bool(x <= y)),
        ComparisonFunc::Greater => Some(Value::Bool(x > y)),
        ComparisonFunc::AtLeast => Some(Value::Bool(x >= y)),
        _ => None,
    }
}

fn long_or_null(n: Option<i64>) -> Value
    ensures value { result ≡ long_or_null n }
    ensures form { IsWellFormed result }
{
    match n {
        Some(n) => Value::Long(n),
        None => Value::Null,
    }
}

/// x + y, where it is a long.
#[tactic(auto, using(crate::proofs::RangeFacts::fit_facts))]
pub(crate) fn long_sum(x: i64, y: i64) -> Option<i64>
    ensures { result ≡ fit (x +ℤ y) }
{
    x.checked_add(y)
}

/// x - y, where it is a long.
#[tactic(auto, using(crate::proofs::RangeFacts::fit_facts))]
pub(crate) fn long_difference(x: i64, y: i64) -> Option<i64>
    ensures { result ≡ fit (x -ℤ y) }
{
    x.checked_sub(y)
}

/// x * y, where it is a long.
#[tactic(auto, using(crate::proofs::RangeFacts::fit_facts))]
pub(crate) fn long_product(x: i64, y: i64) -> Option<i64>
    ensures { result ≡ fit (x *ℤ y) }
{
    x.checked_mul(y)
}

/// x / y cut toward zero, where it is a long; none for the divisor 0.
#[tactic(auto, using(crate::proofs::RangeFacts::fit_facts))]
pub(crate) fn long_quotient(x: i64, y: i64) -> Option<i64>
    ensures { result ≡ quotient_of x y }
{
    x.checked_div(y)
}

/// The remainder of x by y, from 0 on and below the size of y; none for 0.
#[tactic(auto, using(crate::proofs::RangeFacts::fit_facts))]
pub(crate) fn long_remainder(x: i64, y: i64) -> Option<i64>
    ensures { result ≡ remainder_of x y }
{
    if y == 0 {
        return None;
    }
    Some((x as i128).rem_euclid(y as i128) as i64)
}
