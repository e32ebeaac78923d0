ghost use Rattle.std.specs.Prelude.{◌≡◌, ◌<◌, IfSome, Some, length, option_map, pos};
ghost use Rattle.kql_cells.specs.Values.{IsMoment};
ghost use Rattle.kql_ticks.specs.Forms.{moment_in, time_of_day_in};
ghost use Rattle.csv_io.specs.Days.{IsPair, IsTicksOf, has_marks};

use kql_ticks::read_moment;
use std::marker::Model;
use std::str;

// The ticks of a second, a minute and an hour.
const SECOND: u64 = 10_000_000;

const MINUTE: u64 = 600_000_000;

const HOUR: u64 = 36_000_000_000;

// The length of a datetime as it is printed, and of its date.
const WIDTH: usize = 28;

const DATE: usize = 10;

// The day of a datetime that was read, since those of a log come day by day: its date, and the ticks at its start.
#[derive(Drop)]
pub(crate) struct Day {
    date: [u8; DATE],
    start: Option<i64>,
}

impl Model for Day {
    ghost use Rattle.std.specs.Prelude.{Option, ℤ};
    ghost use Rattle.csv_io.specs.Days.{IsDay};

    ghost Value = { Option ℤ };

    ghost view = { λ d. d.start };

    ghost invariant = { λ d. IsDay d.date d.start };
}

impl Day {
    // No day.
    pub(crate) fn new() -> Day {
        Day {
            date: [0; DATE],
            start: None,
        }
    }

    // The datetime that a text is, or none.
    pub(crate) fn read(&mut self, text: &str) -> Option<i64>
        ensures value { result ≡ option_map pos (moment_in text.now) }
        ensures range { IfSome result IsMoment }
    {
        let bytes = text.as_bytes();
        if bytes.len() == WIDTH {
            if let Some(ticks) = self.ticks_of(bytes) {
                return Some(ticks);
            }
            self.keep(bytes);
        }
        read_moment(text)
    }

    // The datetime of a text of this day, where it is written as it is printed.
    #[inline(always)]
    fn ticks_of(&self, text: &[u8]) -> Option<i64>
        requires { length text.now ≡ WIDTH }
        ensures { IfSome result (IsTicksOf text.now) }
    {
        let start = self.start?;
        let is_same = &text[..DATE] == self.date.as_slice();
        if !is_same {
            return None;
        }
        let time = time_of_day(&text[DATE..])?;
        Some(start + time as i64)
    }

    // Keeps the day of a text that begins with a date.
    #[inline(never)]
    fn keep(&mut self, text: &[u8])
        requires { length text.now ≡ WIDTH }
    {
        if let Ok(date) = str::from_utf8(&text[..DATE]) {
            if let Some(start) = read_moment(date) {
                self.date.copy_from_slice(date.as_bytes());
                self.start = Some(start);
            }
        }
    }
}

// The ticks of a time of day as it is printed in a datetime: `T`, hh:mm:ss, `.` and seven digits, and `Z`.
#[inline(always)]
fn time_of_day(t: &[u8]) -> Option<u64>
    requires { length t.now ≡ 18 }
    ensures value { IfSome result (λ n. time_of_day_in t.now ≡ Some (pos n)) }
    ensures bound { IfSome result (λ n. n < 864000000000) }
{
    if !has_marks(t) {
        return None;
    }
    let hours = pair(t[1], t[2])?;
    let minutes = pair(t[4], t[5])?;
    let seconds = pair(t[7], t[8])?;
    let first = pair(t[10], t[11])?;
    let second = pair(t[12], t[13])?;
    let third = pair(t[14], t[15])?;
    let last = pair(b'0', t[16])?;
    if hours >= 24 || minutes >= 60 || seconds >= 60 {
        return None;
    }
    let fraction = 1000 * (100 * first + second) + (10 * third + last);
    Some(HOUR * hours + MINUTE * minutes + (SECOND * seconds + fraction))
}

// Whether the bytes between the digits stand in such a time.
#[inline(always)]
fn has_marks(t: &[u8]) -> bool
    requires { length t.now ≡ 18 }
    ensures { result ≡ has_marks t.now }
{
    t[0] == b'T' && t[3] == b':' && t[6] == b':' && t[9] == b'.' && t[17] == b'Z'
}

// The number that two digits write.
#[inline(always)]
fn pair(a: u8, b: u8) -> Option<u64>
    ensures { IfSome result (IsPair a b) }
{
    if a.is_ascii_digit() && b.is_ascii_digit() {
        Some((a - b'0') as u64 * 10 + (b - b'0') as u64)
    } else {
        None
    }
}
