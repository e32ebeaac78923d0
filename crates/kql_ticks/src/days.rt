ghost use Rattle.std.specs.Prelude.{◌≡◌, ◌<◌, ◌≤ℤ◌, pos, unsigned_abs};
ghost use Rattle.kql_ticks.specs.Days.{HasDate, date_number, day_on, month_on, year_on};

use jiff_core::civil::Date;

// How many days lie between -9999-01-01, from which the calendar counts, and 0001-01-01.
const OFFSET: u32 = 3_652_425;

// The date of a day, which is counted from 0001-01-01.
pub(crate) fn date_on(day: u32) -> Date
    requires { day < 3_652_059 }
    ensures year { result.year ≡ pos (year_on day) }
    ensures month { result.month ≡ month_on day }
    ensures day { result.day ≡ day_on day }
    ensures date { HasDate day }
{
    Date::from_days_since_min(day + OFFSET)
}

// The day of a date from 0001-01-01 on.
pub(crate) fn day_number(date: Date) -> u32
    requires { pos 1 ≤ℤ date.year }
    ensures value { result ≡ date_number (unsigned_abs date.year) date.month date.day }
    ensures bound { result < 3652059 }
{
    date.days_since_min() - OFFSET
}
