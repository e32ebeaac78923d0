//! Whole numbers, tested against the ranges of longs and datetimes.
ghost use Rattle.std.specs.Prelude.{◌≡◌, ◌+ℤ◌, ◌-ℤ◌, ◌*ℤ◌, IfSome, neg_ℤ, pos, unsigned_abs, option_and_then};
ghost use Rattle.kql_ticks.specs.Bins.{bin_at as bin_from};
ghost use Rattle.kql_ticks.specs.Ranges.{fit, fit_moment};
ghost use Rattle.kql_cells.specs.Values.{IsMoment};
ghost use Rattle.kql_scalar_fns.specs.Arithmetic.{quotient_of, remainder_of};

use kql_cells::MOMENT_TOP;
use kql_ticks::bin_at;

#[tactic(auto, using(crate::proofs::RangeFacts::range_facts))]
pub(crate) fn whole_sum(a: i64, b: i64) -> Option<i64>
    ensures { result ≡ fit (a +ℤ b) }
{
    a.checked_add(b)
}

#[tactic(auto, using(crate::proofs::RangeFacts::range_facts))]
pub(crate) fn whole_difference(a: i64, b: i64) -> Option<i64>
    ensures { result ≡ fit (a -ℤ b) }
{
    a.checked_sub(b)
}

#[tactic(auto, using(crate::proofs::RangeFacts::range_facts))]
pub(crate) fn whole_product(a: i64, b: i64) -> Option<i64>
    ensures { result ≡ fit (a *ℤ b) }
{
    a.checked_mul(b)
}

#[tactic(auto, using(crate::proofs::RangeFacts::range_facts))]
pub(crate) fn whole_quotient(a: i64, b: i64) -> Option<i64>
    ensures { result ≡ quotient_of a b }
{
    a.checked_div(b)
}

#[tactic(auto, using(crate::proofs::RangeFacts::range_facts))]
pub(crate) fn whole_remainder(a: i64, b: i64) -> Option<i64>
    ensures { result ≡ remainder_of a b }
{
    if b == 0 {
        return None;
    }
    Some((a as i128).rem_euclid(b as i128) as i64)
}

#[tactic(auto, using(crate::proofs::RangeFacts::range_facts))]
pub(crate) fn whole_negative(a: i64) -> Option<i64>
    ensures { result ≡ fit (neg_ℤ a) }
{
    a.checked_neg()
}

#[tactic(auto, using(crate::proofs::RangeFacts::range_facts))]
pub(crate) fn whole_size(a: i64) -> Option<i64>
    ensures { result ≡ fit (pos (unsigned_abs a)) }
{
    a.checked_abs()
}

pub(crate) fn moment_sum(a: i64, b: i64) -> Option<i64>
    ensures value { result ≡ fit_moment (a +ℤ b) }
    ensures range { IfSome result IsMoment }
{
    in_moments(a as i128 + b as i128)
}

pub(crate) fn moment_difference(a: i64, b: i64) -> Option<i64>
    ensures value { result ≡ fit_moment (a -ℤ b) }
    ensures range { IfSome result IsMoment }
{
    in_moments(a as i128 - b as i128)
}

pub(crate) fn moment_bin(x: i64, s: i64, f: i64) -> Option<i64>
    ensures value { result ≡ option_and_then fit_moment (bin_from x s f) }
    ensures range { IfSome result IsMoment }
{
    let start = bin_at(x, s, f)?;
    in_moments(start as i128)
}

// A number as a datetime, if it is in range.
#[tactic(auto, unfolding(kql_ticks::specs::Ranges::fit_moment))]
pub(crate) fn in_moments(n: i128) -> Option<i64>
    ensures value { result ≡ fit_moment n }
    ensures range { IfSome result IsMoment }
{
    if n < 0 || n > MOMENT_TOP as i128 {
        return None;
    }
    Some(n as i64)
}
