ghost use Rattle.std.specs.Prelude.{◌≡◌, ◌<◌, ◌≤◌, ◌^◌, pos, neg_ℤ, ◌+ℤ◌, ◌*ℤ◌, ◌≤ℤ◌, unsigned_abs, IfSome};
ghost use Rattle.kql_cells.specs.Values.{IsMoment};
ghost use Rattle.kql_ticks.specs.Moves.{add_part, in_month, to_month};
ghost use Rattle.kql_ticks.specs.Periods.{IsPeriod, day_at, month_number, ticks_of};
ghost use Rattle.kql_ticks.specs.Ranges.{fit_moment};

use crate::days::{date_on, day_number};
use crate::part::Part;
use crate::periods::{
    DAY, HOUR, MICROSECOND, MILLISECOND, MINUTE, SECOND, day_of, month_number, ticks,
};
use crate::ranges::fit_moment;
use jiff_core::civil::Date;

/// The datetime n parts later.
///
/// Years, quarters and months keep the day, or take the month's last where that is shorter; the other parts are
/// exact. None where it is out of range.
pub fn add_part(part: Part, n: i64, x: i64) -> Option<i64>
    requires moment { IsMoment x }
    requires part { IsPeriod part }
    ensures value { result ≡ add_part part n (unsigned_abs x) }
    ensures range { IfSome result IsMoment }
{
    match part {
        Part::Year => add_months(12 * n as i128, ticks(x)),
        Part::Quarter => add_months(3 * n as i128, ticks(x)),
        Part::Month => add_months(n as i128, ticks(x)),
        Part::Week
        | Part::Day
        | Part::DayOfYear
        | Part::Hour
        | Part::Minute
        | Part::Second
        | Part::Millisecond
        | Part::Microsecond => add_ticks(n, ticks_of(part), ticks(x)),
    }
}

// The ticks of a part of fixed length, and 0 for another.
fn ticks_of(part: Part) -> u64
    ensures value { result ≡ ticks_of part }
    ensures bound { result ≤ 6048000000000 }
{
    match part {
        Part::Year | Part::Quarter | Part::Month | Part::DayOfYear => 0,
        Part::Week => 7 * DAY,
        Part::Day => DAY,
        Part::Hour => HOUR,
        Part::Minute => MINUTE,
        Part::Second => SECOND,
        Part::Millisecond => MILLISECOND,
        Part::Microsecond => MICROSECOND,
    }
}

// The datetime n times so many ticks later.
fn add_ticks(n: i64, size: u64, ticks: u64) -> Option<i64>
    requires size { size ≤ 6048000000000 }
    requires bound { ticks ≤ 3155378975999999999 }
    ensures value { result ≡ fit_moment (pos ticks +ℤ n *ℤ pos size) }
    ensures range { IfSome result IsMoment }
{
    fit_moment(ticks as i128 + n as i128 * size as i128)
}

// The datetime that many months later.
fn add_months(months: i128, ticks: u64) -> Option<i64>
    requires low { neg_ℤ (pos (2 ^ 100)) ≤ℤ months }
    requires high { months ≤ℤ pos (2 ^ 100) }
    requires bound { ticks ≤ 3155378975999999999 }
    ensures value { result ≡ to_month (pos (month_number (day_at ticks)) +ℤ months) ticks }
    ensures range { IfSome result IsMoment }
{
    to_month(month_number(day_of(ticks)) as i128 + months, ticks)
}

// The datetime in the month of a number, if that is of the years 1 to 9999.
fn to_month(month: i128, ticks: u64) -> Option<i64>
    requires { ticks ≤ 3155378975999999999 }
    ensures value { result ≡ to_month month ticks }
    ensures range { IfSome result IsMoment }
{
    if month < 12 {
        return None;
    }
    if month >= 120_000 {
        return None;
    }
    Some(in_month(month as u32, ticks) as i64)
}

// The datetime in the month of a number: on the same day or the month's last, at the same time of day.
fn in_month(month: u32, ticks: u64) -> u64
    requires low { 12 ≤ month }
    requires high { month < 120000 }
    requires bound { ticks ≤ 3155378975999999999 }
    ensures value { result ≡ in_month month ticks }
    ensures bound { result ≤ 3155378975999999999 }
{
    let day = date_on(day_of(ticks)).day;
    let date = Date::constrain((month / 12) as i16, (month % 12 + 1) as u8, day);
    day_number(date) as u64 * DAY + ticks % DAY
}
