ghost use Rattle.std.specs.Prelude.{◌≡◌};
ghost use Rattle.kql_ticks.specs.Ranges.{fit, fit_moment};

use kql_cells::MOMENT_TOP;

// A number as a timespan, if it is in range.
#[tactic(auto, unfolding(crate::specs::Ranges::fit))]
pub(crate) fn fit(x: i128) -> Option<i64>
    ensures { result ≡ fit x }
{
    if x < i64::MIN as i128 || x > i64::MAX as i128 {
        return None;
    }
    Some(x as i64)
}

// A number as a datetime, if it is in range.
#[tactic(auto, unfolding(crate::specs::Ranges::fit_moment))]
pub(crate) fn fit_moment(x: i128) -> Option<i64>
    ensures { result ≡ fit_moment x }
{
    if x < 0 || x > MOMENT_TOP as i128 {
        return None;
    }
    Some(x as i64)
}
