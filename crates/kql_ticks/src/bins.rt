ghost use Rattle.std.specs.Prelude.{◌≡◌, IfSome};
ghost use Rattle.kql_ticks.specs.Bins.{IsBin, bin_at};

use crate::ranges::fit;

/// The greatest `f + k * s`, for a whole number k, that is not above x.
///
/// None where s is not positive, or where that number is no `i64`.
pub fn bin_at(x: i64, s: i64, f: i64) -> Option<i64>
    ensures value { result ≡ bin_at x s f }
    ensures greatest { IfSome result (IsBin x s f) }
{
    if s <= 0 {
        return None;
    }
    let over = (x as i128 - f as i128).rem_euclid(s as i128);
    fit(x as i128 - over)
}
