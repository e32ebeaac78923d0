ghost use Rattle.std.specs.Prelude.{◌≡◌, ◌+◌, ◌*◌, ◌<◌, ◌≤◌, ◌==◌, ◌||◌, ◌+ℤ◌, ◌≤ℤ◌, not, negsuc, pos, length, option_map, IfSome};
ghost use Rattle.std.specs.Char.{is_ascii_digit};
ghost use Rattle.std.specs.List.{list_all, position};
ghost use Rattle.kql_ticks.specs.Forms.{date_in, day_of_date, fraction_in, is_of_clock, long_time_in, minutes_in, moment_at, moment_in, moment_of, offset_in, seconds_in, size_of, ticks_in_range, time_in, time_of_day_in, zone_in, zoned_in};
ghost use Rattle.kql_cells.specs.Values.{IsMoment};

use crate::days::day_number;
use crate::numbers::{number, share};
use crate::periods::{DAY, HOUR, MINUTE, SECOND};
use crate::ranges::fit_moment;
use jiff_core::civil::{Date, days_in_month};

// The length of a time with seven digits of a fraction.
const LONGEST: usize = 16;

/// The datetime that a text is, or none.
///
/// A datetime is `yyyy-mm-dd`, alone or followed by `T` or one space and `hh:mm`, `hh:mm:ss` or `hh:mm:ss.f` with one to
/// nine digits, of which those behind the seventh are cut off. The date is one that the calendar has, from 0001-01-01 to
/// 9999-12-31. Directly behind a time its zone may stand: `Z`, `+hh:mm`, `-hh:mm`, `+hhmm`, `-hhmm` or ` UTC`. The
/// datetime is that moment in UTC, in the same range of dates.
#[tactic(auto, unfolding(crate::specs::Forms::moment_in))]
pub fn read_moment(t: &str) -> Option<i64>
    ensures value { result ≡ option_map pos (moment_in t.now) }
    ensures range { IfSome result IsMoment }
{
    let t = t.as_bytes();
    let split = t.len().min(10);
    let day = read_date(&t[..split])?;
    let ticks = read_time_of_day(&t[split..])?;
    on_day(day, ticks)
}

// So many ticks from the start of a day, as a datetime.
fn on_day(day: u32, ticks: i64) -> Option<i64>
    requires { day < 3652059 }
    ensures value { result ≡ option_map pos (ticks_in_range (pos (864000000000 * day) +ℤ ticks)) }
    ensures range { IfSome result IsMoment }
{
    fit_moment((DAY * day as u64) as i128 + ticks as i128)
}

/// The datetime of a year, month, day, hour and minute, or none where there is none.
#[tactic(auto, unfolding(crate::specs::Forms::moment_at))]
pub fn make_moment(year: i64, month: i64, day: i64, hour: i64, minute: i64) -> Option<i64>
    ensures value { result ≡ option_map pos (moment_at year month day hour minute) }
    ensures range { IfSome result IsMoment }
{
    let year = size_of(year)?;
    let month = size_of(month)?;
    let day = size_of(day)?;
    let hour = size_of(hour)?;
    let minute = size_of(minute)?;
    moment_of(year, month, day, hour, minute)
}

fn size_of(n: i64) -> Option<u64>
    ensures value { result ≡ size_of n }
{
    if n < 0 {
        return None;
    }
    Some(n as u64)
}

#[tactic(auto, unfolding(crate::specs::Forms::moment_of))]
fn moment_of(year: u64, month: u64, day: u64, hour: u64, minute: u64) -> Option<i64>
    ensures value { result ≡ option_map pos (moment_of year month day hour minute) }
    ensures range { IfSome result IsMoment }
{
    let day = day_of_date(year, month, day)?;
    if hour >= 24 || minute >= 60 {
        return None;
    }
    Some((DAY * day as u64 + (HOUR * hour + MINUTE * minute)) as i64)
}

// yyyy-mm-dd, as a day.
#[tactic(auto, unfolding(crate::specs::Forms::date_in))]
fn read_date(t: &[u8]) -> Option<u32>
    ensures value { result ≡ date_in t.now }
    ensures bound { IfSome result (λ n. n < 3652059) }
{
    if t.len() != 10 || t[4] != b'-' || t[7] != b'-' {
        return None;
    }
    let year = number(&t[0..4])?;
    let month = number(&t[5..7])?;
    let day = number(&t[8..10])?;
    day_of_date(year, month, day)
}

// The day of a date, if the calendar has it.
#[tactic(auto, unfolding(crate::specs::Forms::day_of_date))]
fn day_of_date(year: u64, month: u64, day: u64) -> Option<u32>
    ensures value { result ≡ day_of_date year month day }
    ensures bound { IfSome result (λ n. n < 3652059) }
{
    if year < 1 || year > 9999 || month < 1 || month > 12 {
        return None;
    }
    if day < 1 || day > days_in_month(year as i16, month as u8) as u64 {
        return None;
    }
    Some(day_number(Date::constrain(year as i16, month as u8, day as u8)))
}

// `T` or a space, a time and maybe its zone; or nothing.
#[tactic(auto, unfolding(crate::specs::Forms::time_of_day_in))]
fn read_time_of_day(t: &[u8]) -> Option<i64>
    ensures value { result ≡ time_of_day_in t.now }
{
    match t {
        [] => Some(0),
        [b, rest @ ..] => {
            if *b != b'T' && *b != b' ' {
                return None;
            }
            read_zoned(rest)
        }
    }
}

// A time and maybe its zone, in UTC.
#[tactic(auto, unfolding(crate::specs::Forms::zoned_in))]
fn read_zoned(t: &[u8]) -> Option<i64>
    ensures value { result ≡ zoned_in (position (λ b. not (is_of_clock b)) t.now) t.now }
{
    match zone_start(t) {
        Some(at) => {
            let time = read_long_time(&t[..at])?;
            let ahead = read_zone(&t[at..])?;
            Some(time as i64 - ahead)
        }
        None => Some(read_long_time(t)? as i64),
    }
}

// The place of the first byte that is not of a time.
fn zone_start(t: &[u8]) -> Option<usize>
    ensures value { result ≡ position (λ b. not (is_of_clock b)) t.now }
    ensures bound { IfSome result (λ i. i < length t.now) }
{
    t.iter()
        .position(|b| !(b.is_ascii_digit() || *b == b'.' || *b == b':'))
}

// The ticks that a zone is ahead of UTC.
#[tactic(auto, unfolding(crate::specs::Forms::zone_in))]
fn read_zone(t: &[u8]) -> Option<i64>
    ensures value { result ≡ zone_in t.now }
    ensures low { IfSome result (λ z. negsuc 863400000000 ≤ℤ z) }
    ensures high { IfSome result (λ z. z ≤ℤ pos 863400000000) }
{
    match t {
        b"Z" | b" UTC" => Some(0),
        [b'+', rest @ ..] => Some(read_offset(rest)? as i64),
        [b'-', rest @ ..] => Some(-(read_offset(rest)? as i64)),
        _ => None,
    }
}

// hh:mm or hhmm
#[tactic(auto, unfolding(crate::specs::Forms::offset_in))]
fn read_offset(t: &[u8]) -> Option<u64>
    ensures value { result ≡ offset_in t.now }
    ensures bound { IfSome result (λ n. n ≤ 863400000000) }
{
    match t {
        [a, b, c, d] => read_minutes(&[*a, *b, b':', *c, *d]),
        t => read_minutes(t),
    }
}

// A time whose fraction may have nine digits: those behind the seventh are cut off.
#[tactic(auto, unfolding(crate::specs::Forms::long_time_in))]
fn read_long_time(t: &[u8]) -> Option<u64>
    ensures value { result ≡ long_time_in t.now }
    ensures bound { IfSome result (λ n. n < 864000000000) }
{
    if t.len() <= LONGEST {
        return read_time(t);
    }
    if t.len() > LONGEST + 2 || !are_digits(&t[LONGEST..]) {
        return None;
    }
    read_time(&t[..LONGEST])
}

fn are_digits(t: &[u8]) -> bool
    ensures { result ≡ list_all is_ascii_digit t.now }
{
    t.iter().all(|b| b.is_ascii_digit())
}

// hh:mm, hh:mm:ss, or hh:mm:ss and a fraction.
#[tactic(auto, unfolding(crate::specs::Forms::time_in))]
pub(crate) fn read_time(t: &[u8]) -> Option<u64>
    ensures value { result ≡ time_in t.now }
    ensures bound { IfSome result (λ n. n < 864000000000) }
{
    let split = t.len().min(5);
    let minutes = read_minutes(&t[..split])?;
    let seconds = read_seconds(&t[split..])?;
    Some(minutes + seconds)
}

// hh:mm
#[tactic(auto, unfolding(crate::specs::Forms::minutes_in))]
fn read_minutes(t: &[u8]) -> Option<u64>
    ensures value { result ≡ minutes_in t.now }
    ensures bound { IfSome result (λ n. n ≤ 863400000000) }
{
    if t.len() != 5 || t[2] != b':' {
        return None;
    }
    let hours = number(&t[0..2])?;
    let minutes = number(&t[3..5])?;
    if hours >= 24 || minutes >= 60 {
        return None;
    }
    Some(HOUR * hours + MINUTE * minutes)
}

// `:ss` and maybe a fraction; or nothing.
#[tactic(auto, unfolding(crate::specs::Forms::seconds_in))]
fn read_seconds(t: &[u8]) -> Option<u64>
    ensures value { result ≡ seconds_in t.now }
    ensures bound { IfSome result (λ n. n < 600000000) }
{
    match t {
        [] => Some(0),
        [b, rest @ ..] => {
            if *b != b':' || rest.len() < 2 {
                return None;
            }
            let seconds = number(&rest[0..2])?;
            let fraction = read_fraction(&rest[2..])?;
            if seconds >= 60 {
                return None;
            }
            Some(SECOND * seconds + fraction)
        }
    }
}

// `.` and one to seven digits of a second; or nothing.
#[tactic(auto, unfolding(crate::specs::Forms::fraction_in))]
fn read_fraction(t: &[u8]) -> Option<u64>
    ensures value { result ≡ fraction_in t.now }
    ensures bound { IfSome result (λ n. n < 10000000) }
{
    match t {
        [] => Some(0),
        [b, rest @ ..] => {
            if *b != b'.' || rest.is_empty() || rest.len() > 7 {
                return None;
            }
            share(SECOND, rest)
        }
    }
}
