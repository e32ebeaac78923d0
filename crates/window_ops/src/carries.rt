//! What the rows behind a range of rows need to know of it, for one `row_cumsum` or `row_number`.
ghost use Rattle.std.specs.Prelude.{◌≡◌, ◌<◌, ◌+◌, ◌+ℤ◌, ◌^◌};
ghost use Rattle.kql_meaning.specs.Numbers.{added};
ghost use Rattle.kql_scalar.specs.Sums.{IsSumOf};
ghost use Rattle.window_ops.specs.Carries.{joined, no_rows, stepped};

use kql_items::Items;
use std::marker::Model;

/// A list of carries.
pub type Carries = Items<Carry>;

/// The carry of a range: whether a run begins in it, the sum of the term over its last run, or over all its rows where none begins,
/// and how many rows these are.
///
/// No call of it takes memory.
#[derive(Debug, Drop)]
pub struct Carry {
    restarts: bool,
    sum: i128,
    count: usize,
}

impl Model for Carry {
    ghost use Rattle.std.specs.Prelude.{◌<◌, ◌^◌};
    ghost use Rattle.std.specs.Coded.{codes};
    ghost use Rattle.kql_scalar.specs.Sums.{IsSumOf};
    ghost use Rattle.window_ops.specs.Carries.{Carried};

    ghost Value = { Carried };

    ghost coded = { Prim.hlevel (codes) };

    ghost view = { λ c. record { restarts = c.restarts; sum = c.sum; count = c.count } };

    ghost invariant = { λ c. IsSumOf c.count c.sum × (c.count < 2 ^ 63) };
}

#[tactic(auto, using(crate::proofs::CarrySteps::none_steps))]
impl Carry {
    /// The carry of no row.
    pub fn none() -> Carry
        ensures none { result ≡ no_rows }
    {
        Carry {
            restarts: false,
            sum: 0,
            count: 0,
        }
    }

    /// Whether a run begins in the range.
    pub fn restarts(&self) -> bool
        ensures restarts { result ≡ self.now.restarts }
    {
        self.restarts
    }

    /// The sum over the last run.
    pub fn sum(&self) -> i128
        ensures sum { result ≡ self.now.sum }
        ensures bounded { IsSumOf self.now.count result }
    {
        self.sum
    }

    /// How many rows the last run has.
    pub fn count(&self) -> usize
        ensures count { result ≡ self.now.count }
        ensures small { result < 2 ^ 63 }
    {
        self.count
    }

    /// The same again.
    pub fn copy(&self) -> Carry
        ensures same { result ≡ self.now }
    {
        Carry {
            restarts: self.restarts,
            sum: self.sum,
            count: self.count,
        }
    }
}

/// The carry of a range and of the range behind it.
#[tactic(auto, using(crate::proofs::CarrySteps::join_steps))]
pub(crate) fn both_of(a: &Carry, b: &Carry) -> Carry
    requires few { a.now.count + b.now.count < 2 ^ 63 }
    ensures joined { result ≡ joined a.now b.now }
{
    if b.restarts {
        b.copy()
    } else {
        let sum = sum_of_both(a.sum, b.sum, a.count, b.count);
        Carry {
            restarts: a.restarts,
            sum,
            count: a.count + b.count,
        }
    }
}

// The sum of two sums of so many numbers.
#[tactic(auto, using(crate::proofs::CarrySteps::bound_steps))]
fn sum_of_both(a: i128, b: i128, _first: usize, _second: usize) -> i128
    requires first { IsSumOf _first a }
    requires second { IsSumOf _second b }
    requires few { _first + _second < 2 ^ 63 }
    ensures value { result ≡ a +ℤ b }
    ensures bounded { IsSumOf (_first + _second) result }
{
    a + b
}

/// The carry with one row more.
#[tactic(auto, using(crate::proofs::CarrySteps::row_steps))]
pub(crate) fn with_row(before: &Carry, begins: bool, number: Option<i64>) -> Carry
    requires few { before.now.count + 1 < 2 ^ 63 }
    ensures row { result ≡ stepped begins (added number) before.now }
{
    if begins {
        let sum = with_number(0, number, 0);
        Carry {
            restarts: true,
            sum,
            count: 1,
        }
    } else {
        let sum = with_number(before.sum, number, before.count);
        Carry {
            restarts: before.restarts,
            sum,
            count: before.count + 1,
        }
    }
}

// A sum of so many numbers and one number more; a null adds nothing.
#[tactic(auto, using(crate::proofs::CarrySteps::number_steps))]
fn with_number(sum: i128, number: Option<i64>, _count: usize) -> i128
    requires bounded { IsSumOf _count sum }
    requires small { _count < 2 ^ 63 }
    ensures value { result ≡ sum +ℤ added number }
    ensures bounded { IsSumOf (_count + 1) result }
{
    match number {
        None => sum,
        Some(n) => sum + n as i128,
    }
}
