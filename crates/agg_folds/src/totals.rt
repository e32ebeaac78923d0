//! Sums of whole numbers of 64 bits, which a number of 128 bits holds however many there are.
ghost use Rattle.std.specs.Prelude.{◌≡◌, ◌<◌, ◌^◌, ◌+◌, ◌≤◌, ◌+ℤ◌, pos};
ghost use Rattle.kql_ticks.specs.Ranges.{fit};
ghost use Rattle.kql_scalar_fns.specs.Arguments.{long_or_null};
ghost use Rattle.kql_meaning.specs.Numbers.{added, fitted};
ghost use Rattle.agg_folds.specs.Kept.{IsSumOf};

use kql_cells::{Kind, Value};

/// A sum of so many numbers and one number more; a null adds nothing.
#[tactic(auto, using(crate::proofs::TotalFacts::total_facts))]
pub(crate) fn with_number(total: i128, number: Option<i64>, _count: usize) -> i128
    requires bounded { IsSumOf _count total }
    requires room { _count < 2 ^ 63 }
    ensures value { result ≡ total +ℤ added number }
    ensures bounded { IsSumOf (_count + 1) result }
{
    match number {
        None => total,
        Some(n) => total + n as i128,
    }
}

/// Two sums together.
#[tactic(auto, using(crate::proofs::TotalFacts::total_facts))]
pub(crate) fn with_total(a: i128, b: i128, _a_count: usize, _b_count: usize) -> i128
    requires first { IsSumOf _a_count a }
    requires second { IsSumOf _b_count b }
    requires room { _a_count + _b_count ≤ 2 ^ 63 }
    ensures value { result ≡ a +ℤ b }
    ensures bounded { IsSumOf (_a_count + _b_count) result }
{
    a + b
}

/// A sum as a value of a type, where it is in the type's range, and else null.
#[tactic(auto, unfolding(kql_meaning::specs::Numbers::fitted))]
pub(crate) fn fitted(kind: Option<Kind>, total: i128) -> Value
    ensures value { result ≡ fitted kind total }
{
    match kind {
        Some(Kind::Span) => match fit(total) {
            Some(n) => Value::Span(n),
            None => Value::Null,
        },
        _ => match fit(total) {
            Some(n) => Value::Long(n),
            None => Value::Null,
        },
    }
}

/// A count as a long, where it is in the range of longs, and else null.
pub(crate) fn counted(count: usize) -> Value
    ensures value { result ≡ long_or_null (fit (pos count)) }
{
    match fit(count as i128) {
        Some(n) => Value::Long(n),
        None => Value::Null,
    }
}

#[tactic(auto, unfolding(kql_ticks::specs::Ranges::fit))]
fn fit(x: i128) -> Option<i64>
    ensures { result ≡ fit x }
{
    if x < i64::MIN as i128 || x > i64::MAX as i128 {
        return None;
    }
    Some(x as i64)
}
