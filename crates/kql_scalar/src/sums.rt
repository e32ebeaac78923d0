//! Sums of whole numbers of 64 bits, which a number of 128 bits holds however many there are.
ghost use Rattle.std.specs.Prelude.{◌≡◌, ◌<◌, ◌^◌, ◌+◌, ◌+ℤ◌};
ghost use Rattle.kql_ticks.specs.Ranges.{fit};
ghost use Rattle.kql_cells.specs.Values.{IsWellFormed};
ghost use Rattle.kql_meaning.specs.Numbers.{added, fitted};
ghost use Rattle.kql_scalar.specs.Sums.{IsSumOf};

use kql_values::{Kind, Value};

/// A sum of so many numbers and one number more; a null adds nothing.
#[tactic(auto, using(crate::proofs::SumFacts::sum_facts))]
pub(crate) fn with_number(sum: i128, number: Option<i64>, _count: usize) -> i128
    requires bounded { IsSumOf _count sum }
    requires small { _count < 2 ^ 63 }
    ensures value { result ≡ sum +ℤ added number }
    ensures bounded { IsSumOf (_count + 1) result }
{
    match number {
        None => sum,
        Some(n) => sum + n as i128,
    }
}

/// A sum as a value of a type, where it is in the type's range, and else null.
#[tactic(auto, unfolding(kql_meaning::specs::Numbers::fitted))]
pub(crate) fn fitted(kind: Option<Kind>, sum: i128) -> Value
    ensures value { result ≡ fitted kind sum }
    ensures form { IsWellFormed result }
{
    match kind {
        Some(Kind::Span) => match fit(sum) {
            Some(n) => Value::Span(n),
            None => Value::Null,
        },
        _ => match fit(sum) {
            Some(n) => Value::Long(n),
            None => Value::Null,
        },
    }
}

#[tactic(auto, unfolding(kql_ticks::specs::Ranges::fit))]
fn fit(x: i128) -> Option<i64>
    ensures { result ≡ fit x }
{
    if x < i64::MIN as i128 || x > i64::MAX as i128 {
        return None;
    }
    Some(x as i64)
}
