ghost use Rattle.std.specs.Prelude.{◌≡◌, ◌+ℤ◌, ◌-ℤ◌, ◌*ℤ◌, IfSome, map, option_and_then, option_map, pos, unsigned_abs};
ghost use Rattle.kql_ticks.specs.Forms.{moment_at};
ghost use Rattle.kql_ticks.specs.Moves.{add_part};
ghost use Rattle.kql_ticks.specs.Periods.{HasBounds, HasField, IsPeriod, field, period};
ghost use Rattle.kql_ticks.specs.Ranges.{fit_moment};
ghost use Rattle.kql_cells.specs.Seen.{seen};
ghost use Rattle.kql_cells.specs.Values.{IsMoment, IsWellFormed};
ghost use Rattle.kql_scalar_fns.specs.Arguments.{AreWellFormed};
ghost use Rattle.kql_scalar_fns.specs.Time.{crossed, end, field_named, field_of, made, made_of, moved, named_field, period_named, since_1970, start, time_call, weekday};

use crate::arguments::{argument, long_or_null, moment_or_null};
use crate::whole::in_moments;
use kql_cells::{CellRef, Value};
use kql_functions::TimeFunc;
use kql_ticks::{Part, add_part, borders, day_of_week, end_of, make_moment, part_of, start_of};

// The ticks from 0001-01-01 to 1970-01-01.
const START_OF_1970: i128 = 621_355_968_000_000_000;

const SECOND: u32 = 10_000_000;

const MILLISECOND: u32 = 10_000;

#[tactic(auto, unfolding(crate::specs::Time::time_call))]
pub(crate) fn apply_time(f: TimeFunc, args: &[CellRef<'_>]) -> Value
    requires { AreWellFormed (map seen args.now) }
    ensures value { result ≡ time_call f (map seen args.now) }
    ensures form { IsWellFormed result }
{
    let a = argument(args, 0);
    match f {
        TimeFunc::Now => Value::Null,
        TimeFunc::Ago => Value::Null,
        TimeFunc::StartOfDay => start(Part::Day, a),
        TimeFunc::StartOfWeek => start(Part::Week, a),
        TimeFunc::StartOfMonth => start(Part::Month, a),
        TimeFunc::StartOfYear => start(Part::Year, a),
        TimeFunc::EndOfDay => end(Part::Day, a),
        TimeFunc::EndOfWeek => end(Part::Week, a),
        TimeFunc::EndOfMonth => end(Part::Month, a),
        TimeFunc::EndOfYear => end(Part::Year, a),
        TimeFunc::DayOfWeek => weekday(a),
        TimeFunc::DayOfMonth => field_of(Part::Day, a),
        TimeFunc::DayOfYear => field_of(Part::DayOfYear, a),
        TimeFunc::GetYear => field_of(Part::Year, a),
        TimeFunc::GetMonth => field_of(Part::Month, a),
        TimeFunc::MonthOfYear => field_of(Part::Month, a),
        TimeFunc::HourOfDay => field_of(Part::Hour, a),
        TimeFunc::DatetimeAdd => moved(a, argument(args, 1), argument(args, 2)),
        TimeFunc::DatetimeDiff => crossed(a, argument(args, 1), argument(args, 2)),
        TimeFunc::DatetimePart => named_field(a, argument(args, 1)),
        TimeFunc::MakeDatetime => make_datetime(args),
        TimeFunc::UnixSeconds => since_1970(SECOND, a),
        TimeFunc::UnixMilliseconds => since_1970(MILLISECOND, a),
    }
}

/// The part that a word names for `datetime_add` and `datetime_diff`: `year`, `quarter`, `month`, `week`, `day`,
/// `hour`, `minute`, `second`, `millisecond` or `microsecond`.
#[tactic(auto, unfolding(crate::specs::Time::period_named))]
pub fn period_named(word: &str) -> Option<Part>
    ensures value { result ≡ period_named word.now }
    ensures part { IfSome result IsPeriod }
{
    if word == "year" {
        Some(Part::Year)
    } else if word == "quarter" {
        Some(Part::Quarter)
    } else if word == "month" {
        Some(Part::Month)
    } else if word == "week" {
        Some(Part::Week)
    } else if word == "day" {
        Some(Part::Day)
    } else if word == "hour" {
        Some(Part::Hour)
    } else if word == "minute" {
        Some(Part::Minute)
    } else if word == "second" {
        Some(Part::Second)
    } else if word == "millisecond" {
        Some(Part::Millisecond)
    } else if word == "microsecond" {
        Some(Part::Microsecond)
    } else {
        None
    }
}

/// The part that a word names for `datetime_part`: `year`, `quarter`, `month`, `day`, `dayofyear`, `hour`, `minute`,
/// `second` or `millisecond`.
#[tactic(auto, unfolding(crate::specs::Time::field_named))]
pub fn field_named(word: &str) -> Option<Part>
    ensures value { result ≡ field_named word.now }
    ensures part { IfSome result HasField }
{
    if word == "year" {
        Some(Part::Year)
    } else if word == "quarter" {
        Some(Part::Quarter)
    } else if word == "month" {
        Some(Part::Month)
    } else if word == "day" {
        Some(Part::Day)
    } else if word == "dayofyear" {
        Some(Part::DayOfYear)
    } else if word == "hour" {
        Some(Part::Hour)
    } else if word == "minute" {
        Some(Part::Minute)
    } else if word == "second" {
        Some(Part::Second)
    } else if word == "millisecond" {
        Some(Part::Millisecond)
    } else {
        None
    }
}

#[tactic(auto, unfolding(crate::specs::Time::start))]
fn start(part: Part, a: CellRef<'_>) -> Value
    requires part { HasBounds part }
    requires form { IsWellFormed (seen a) }
    ensures value { result ≡ start part (seen a.entry) }
    ensures form { IsWellFormed result }
{
    match a {
        CellRef::Moment(x) => moment_or_null(start_of(part, x)),
        _ => Value::Null,
    }
}

#[tactic(auto, unfolding(crate::specs::Time::end))]
fn end(part: Part, a: CellRef<'_>) -> Value
    requires part { HasBounds part }
    requires form { IsWellFormed (seen a) }
    ensures value { result ≡ end part (seen a.entry) }
    ensures form { IsWellFormed result }
{
    match a {
        CellRef::Moment(x) => moment_or_null(end_of(part, x)),
        _ => Value::Null,
    }
}

#[tactic(auto, unfolding(crate::specs::Time::weekday))]
fn weekday(a: CellRef<'_>) -> Value
    requires { IsWellFormed (seen a) }
    ensures value { result ≡ weekday (seen a.entry) }
    ensures form { IsWellFormed result }
{
    match a {
        CellRef::Moment(x) => Value::Span(day_of_week(x)),
        _ => Value::Null,
    }
}

#[tactic(auto, unfolding(crate::specs::Time::field_of))]
fn field_of(part: Part, a: CellRef<'_>) -> Value
    requires part { HasField part }
    requires form { IsWellFormed (seen a) }
    ensures value { result ≡ field_of part (seen a.entry) }
    ensures form { IsWellFormed result }
{
    match a {
        CellRef::Moment(x) => long_or_null(part_of(part, x)),
        _ => Value::Null,
    }
}

#[tactic(auto, unfolding(crate::specs::Time::moved))]
fn moved(word: CellRef<'_>, n: CellRef<'_>, a: CellRef<'_>) -> Value
    requires { IsWellFormed (seen a) }
    ensures value { result ≡ moved (seen word.entry) (seen n.entry) (seen a.entry) }
    ensures form { IsWellFormed result }
{
    match (word, n, a) {
        (CellRef::Text(word), CellRef::Long(n), CellRef::Moment(x)) => {
            moment_or_null(moved_by(word, n, x))
        }
        _ => Value::Null,
    }
}

// So many parts later.
fn moved_by(word: &str, n: i64, x: i64) -> Option<i64>
    requires { IsMoment x }
    ensures value { result ≡ option_and_then (λ p. add_part p n (unsigned_abs x)) (period_named word.now) }
    ensures range { IfSome result IsMoment }
{
    let part = period_named(word)?;
    add_part(part, n, x)
}

#[tactic(auto, unfolding(crate::specs::Time::crossed))]
fn crossed(word: CellRef<'_>, a: CellRef<'_>, b: CellRef<'_>) -> Value
    requires later { IsWellFormed (seen a) }
    requires earlier { IsWellFormed (seen b) }
    ensures value { result ≡ crossed (seen word.entry) (seen a.entry) (seen b.entry) }
    ensures form { IsWellFormed result }
{
    match (word, a, b) {
        (CellRef::Text(word), CellRef::Moment(a), CellRef::Moment(b)) => {
            long_or_null(borders_of(word, a, b))
        }
        _ => Value::Null,
    }
}

// The borders of periods from b to a.
fn borders_of(word: &str, a: i64, b: i64) -> Option<i64>
    requires later { IsMoment a }
    requires earlier { IsMoment b }
    ensures { result ≡ option_map (λ p. pos (period p (unsigned_abs a)) -ℤ pos (period p (unsigned_abs b))) (period_named word.now) }
{
    let part = period_named(word)?;
    borders(part, a, b)
}

#[tactic(auto, unfolding(crate::specs::Time::named_field))]
fn named_field(word: CellRef<'_>, a: CellRef<'_>) -> Value
    requires { IsWellFormed (seen a) }
    ensures value { result ≡ named_field (seen word.entry) (seen a.entry) }
    ensures form { IsWellFormed result }
{
    match (word, a) {
        (CellRef::Text(word), CellRef::Moment(x)) => long_or_null(field_at(word, x)),
        _ => Value::Null,
    }
}

// The field that a word names.
fn field_at(word: &str, x: i64) -> Option<i64>
    requires { IsMoment x }
    ensures { result ≡ option_map (λ p. pos (field p (unsigned_abs x))) (field_named word.now) }
{
    let part = field_named(word)?;
    part_of(part, x)
}

// The datetime of a year, month and day, and maybe an hour and minute.
fn make_datetime(args: &[CellRef<'_>]) -> Value
    ensures value { result ≡ made_of (map seen args.now) }
    ensures form { IsWellFormed result }
{
    let year = argument(args, 0);
    let month = argument(args, 1);
    let day = argument(args, 2);
    if args.len() == 3 {
        made(year, month, day, CellRef::Long(0), CellRef::Long(0))
    } else {
        made(year, month, day, argument(args, 3), argument(args, 4))
    }
}

#[tactic(auto, unfolding(crate::specs::Time::made))]
fn made(
    year: CellRef<'_>,
    month: CellRef<'_>,
    day: CellRef<'_>,
    hour: CellRef<'_>,
    minute: CellRef<'_>,
) -> Value
    ensures value { result ≡ made (seen year.entry) (seen month.entry) (seen day.entry) (seen hour.entry) (seen minute.entry) }
    ensures form { IsWellFormed result }
{
    match (year, month, day, hour, minute) {
        (
            CellRef::Long(year),
            CellRef::Long(month),
            CellRef::Long(day),
            CellRef::Long(hour),
            CellRef::Long(minute),
        ) => moment_or_null(make_moment(year, month, day, hour, minute)),
        _ => Value::Null,
    }
}

// So many ticks of a unit after 1970-01-01.
#[tactic(auto, unfolding(crate::specs::Time::since_1970))]
fn since_1970(unit: u32, a: CellRef<'_>) -> Value
    ensures value { result ≡ since_1970 unit (seen a.entry) }
    ensures form { IsWellFormed result }
{
    match a {
        CellRef::Long(n) => moment_or_null(ticks_since_1970(unit, n)),
        _ => Value::Null,
    }
}

fn ticks_since_1970(unit: u32, n: i64) -> Option<i64>
    ensures value { result ≡ fit_moment (pos 621355968000000000 +ℤ n *ℤ pos unit) }
    ensures range { IfSome result IsMoment }
{
    in_moments(START_OF_1970 + n as i128 * unit as i128)
}
