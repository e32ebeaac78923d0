ghost use Rattle.std.specs.Prelude.{◌≡◌, ◌≢◌, ◌+◌, ◌-◌, ◌<◌, ◌≤◌, pos, ◌-ℤ◌, ◌<ℤ◌, ◌≤ℤ◌, unsigned_abs, Some, IfSome};
ghost use Rattle.kql_cells.specs.Values.{IsMoment};
ghost use Rattle.kql_ticks.specs.Periods.{HasBounds, HasField, IsPeriod, day_at, day_period, end_of, field, first_day, month_number, period, since_sunday, start_of};
ghost use Rattle.kql_ticks.specs.Days.{date_number, year_on};

use crate::days::date_on;
use crate::part::Part;
use crate::ranges::fit_moment;
use jiff_core::civil::{days_in_month, days_in_year};

pub(crate) const DAY: u64 = 864_000_000_000;

pub(crate) const HOUR: u64 = 36_000_000_000;

pub(crate) const MINUTE: u64 = 600_000_000;

pub(crate) const SECOND: u64 = 10_000_000;

pub(crate) const MILLISECOND: u64 = 10_000;

pub(crate) const MICROSECOND: u64 = 10;

// A datetime's ticks.
pub(crate) fn ticks(x: i64) -> u64
    requires { IsMoment x }
    ensures value { result ≡ unsigned_abs x }
    ensures bound { result ≤ 3155378975999999999 }
{
    x as u64
}

// A datetime's day.
pub(crate) fn day_of(ticks: u64) -> u32
    requires { ticks ≤ 3155378975999999999 }
    ensures value { result ≡ day_at ticks }
    ensures bound { result < 3652059 }
{
    (ticks / DAY) as u32
}

/// The first tick of the day, week, month or year of a datetime. Weeks start on Sunday.
///
/// None where it lies before 0001-01-01.
pub fn start_of(part: Part, x: i64) -> Option<i64>
    requires moment { IsMoment x }
    requires part { HasBounds part }
    ensures value { result ≡ start_of part (unsigned_abs x) }
    ensures range { IfSome result IsMoment }

    // It is not above the datetime and in the same period, and the tick before it is in another.
    ensures below { IfSome result (λ s. s ≤ℤ x) }
    ensures same { IfSome result
        (λ s. period part (unsigned_abs s) ≡ period part (unsigned_abs x)) }
    ensures before { IfSome result
        (λ s. pos 0 <ℤ s → period part (unsigned_abs s - 1) ≢ period part (unsigned_abs x)) }
{
    let first = first_day(part, day_of(ticks(x)));
    fit_moment(first as i128 * DAY as i128)
}

/// The last tick of the day, week, month or year of a datetime. Weeks start on Sunday.
///
/// None where it lies after 9999-12-31.
pub fn end_of(part: Part, x: i64) -> Option<i64>
    requires moment { IsMoment x }
    requires part { HasBounds part }
    ensures value { result ≡ end_of part (unsigned_abs x) }
    ensures range { IfSome result IsMoment }

    // It is not below the datetime and in the same period, and the tick after it is in another.
    ensures above { IfSome result (λ e. x ≤ℤ e) }
    ensures same { IfSome result
        (λ e. period part (unsigned_abs e) ≡ period part (unsigned_abs x)) }
    ensures after { IfSome result
        (λ e. e <ℤ pos 3155378975999999999
        → period part (unsigned_abs e + 1) ≢ period part (unsigned_abs x)) }
{
    let next = next_day(part, day_of(ticks(x)));
    fit_moment(next as i128 * DAY as i128 - 1)
}

/// The period borders from `b` to `a`: the number of a's period less that of b's.
pub fn borders(part: Part, a: i64, b: i64) -> Option<i64>
    requires later { IsMoment a }
    requires earlier { IsMoment b }
    requires part { IsPeriod part }
    ensures value { result
        ≡ Some (pos (period part (unsigned_abs a)) -ℤ pos (period part (unsigned_abs b))) }
{
    Some(period(part, ticks(a)) as i64 - period(part, ticks(b)) as i64)
}

/// A field of a datetime: quarters, months and days count from 1, and the others from 0.
pub fn part_of(part: Part, x: i64) -> Option<i64>
    requires moment { IsMoment x }
    requires part { HasField part }
    ensures value { result ≡ Some (pos (field part (unsigned_abs x))) }
{
    Some(field(part, ticks(x)) as i64)
}

/// The whole days since the Sunday before a datetime, as a timespan: none on a Sunday.
pub fn day_of_week(x: i64) -> i64
    requires { IsMoment x }
    ensures value { result ≡ pos (since_sunday (unsigned_abs x)) }
{
    (DAY * ((day_of(ticks(x)) as u64 + 1) % 7)) as i64
}

// The number of the period that a datetime lies in.
fn period(part: Part, ticks: u64) -> u64
    requires part { IsPeriod part }
    requires bound { ticks ≤ 3155378975999999999 }
    ensures value { result ≡ period part ticks }
    ensures bound { result ≤ 3155378975999999999 }
{
    match part {
        Part::Year => date_on(day_of(ticks)).year as u64,
        Part::Quarter => month_number(day_of(ticks)) as u64 / 3,
        Part::Month => month_number(day_of(ticks)) as u64,
        Part::Week => (day_of(ticks) as u64 + 1) / 7,
        Part::Day => day_of(ticks) as u64,
        Part::DayOfYear => unreachable!(),
        Part::Hour => ticks / HOUR,
        Part::Minute => ticks / MINUTE,
        Part::Second => ticks / SECOND,
        Part::Millisecond => ticks / MILLISECOND,
        Part::Microsecond => ticks / MICROSECOND,
    }
}

// Months since January of the year 0.
pub(crate) fn month_number(day: u32) -> u32
    requires { day < 3652059 }
    ensures value { result ≡ month_number day }
    ensures bound { result < 120000 }
{
    let date = date_on(day);
    12 * date.year as u32 + (date.month as u32 - 1)
}

// A field of a datetime.
fn field(part: Part, ticks: u64) -> u64
    requires part { HasField part }
    requires bound { ticks ≤ 3155378975999999999 }
    ensures value { result ≡ field part ticks }
    ensures bound { result < 10000 }
{
    match part {
        Part::Year => date_on(day_of(ticks)).year as u64,
        Part::Quarter => (date_on(day_of(ticks)).month as u64 + 2) / 3,
        Part::Month => date_on(day_of(ticks)).month as u64,
        Part::Day => date_on(day_of(ticks)).day as u64,
        Part::DayOfYear => day_of_year(day_of(ticks)) as u64,
        Part::Hour => ticks % DAY / HOUR,
        Part::Minute => ticks % HOUR / MINUTE,
        Part::Second => ticks % MINUTE / SECOND,
        Part::Millisecond => ticks % SECOND / MILLISECOND,
        Part::Week | Part::Microsecond => unreachable!(),
    }
}

fn day_of_year(day: u32) -> u32
    requires { day < 3652059 }
    ensures value { result ≡ day + 1 - date_number (year_on day) 1 1 }
    ensures bound { result < 10000 }
{
    date_on(day).day_of_year() as u32
}

// The first day of the period of a day.
fn first_day(part: Part, day: u32) -> i32
    requires part { HasBounds part }
    requires day { day < 3652059 }
    ensures value { result ≡ first_day part (day_period part day) }
    ensures same { pos 0 ≤ℤ result
        → day_period part (unsigned_abs result) ≡ day_period part day }
    ensures before { pos 0 <ℤ result
        → day_period part (unsigned_abs result - 1) ≢ day_period part day }
    ensures low { (pos 0 -ℤ pos 6) ≤ℤ result }
    ensures high { result ≤ℤ pos day }
{
    match part {
        Part::Year => first_of_year(day) as i32,
        Part::Month => first_of_month(day) as i32,
        Part::Week => day as i32 - ((day + 1) % 7) as i32,
        Part::Day => day as i32,
        _ => unreachable!(),
    }
}

// The first day of the period after that of a day.
fn next_day(part: Part, day: u32) -> i32
    requires part { HasBounds part }
    requires day { day < 3652059 }
    ensures value { result ≡ first_day part (day_period part day + 1) }
    ensures last { day_period part (unsigned_abs result - 1) ≡ day_period part day }
    ensures after { result <ℤ pos 3652059
        → day_period part (unsigned_abs result) ≢ day_period part day }
    ensures low { pos day <ℤ result }
    ensures high { result ≤ℤ pos 3652065 }
{
    match part {
        Part::Year => next_year(day) as i32,
        Part::Month => next_month(day) as i32,
        Part::Week => day as i32 + 7 - ((day + 1) % 7) as i32,
        Part::Day => day as i32 + 1,
        _ => unreachable!(),
    }
}

fn first_of_year(day: u32) -> u32
    requires { day < 3652059 }
    ensures value { pos result ≡ first_day Part.Year (day_period Part.Year day) }
    ensures same { day_period Part.Year result ≡ day_period Part.Year day }
    ensures before { 0 < result → day_period Part.Year (result - 1) ≢ day_period Part.Year day }
    ensures high { result ≤ day }
{
    day + 1 - date_on(day).day_of_year() as u32
}

fn first_of_month(day: u32) -> u32
    requires { day < 3652059 }
    ensures value { pos result ≡ first_day Part.Month (day_period Part.Month day) }
    ensures same { day_period Part.Month result ≡ day_period Part.Month day }
    ensures before { 0 < result → day_period Part.Month (result - 1) ≢ day_period Part.Month day }
    ensures high { result ≤ day }
{
    day + 1 - date_on(day).day as u32
}

fn next_year(day: u32) -> u32
    requires { day < 3652059 }
    ensures value { pos result ≡ first_day Part.Year (day_period Part.Year day + 1) }
    ensures last { day_period Part.Year (result - 1) ≡ day_period Part.Year day }
    ensures after { result < 3652059 → day_period Part.Year result ≢ day_period Part.Year day }
    ensures low { day < result }
    ensures high { result ≤ 3652059 }
{
    let date = date_on(day);
    day + 1 - date.day_of_year() as u32 + days_in_year(date.year) as u32
}

fn next_month(day: u32) -> u32
    requires { day < 3652059 }
    ensures value { pos result ≡ first_day Part.Month (day_period Part.Month day + 1) }
    ensures last { day_period Part.Month (result - 1) ≡ day_period Part.Month day }
    ensures after { result < 3652059 → day_period Part.Month result ≢ day_period Part.Month day }
    ensures low { day < result }
    ensures high { result ≤ 3652059 }
{
    let date = date_on(day);
    day + 1 - date.day as u32 + days_in_month(date.year, date.month) as u32
}
