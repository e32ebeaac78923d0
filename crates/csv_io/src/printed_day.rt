ghost use Rattle.std.specs.Prelude.{◌≡◌, ◌+◌, ◌++◌, ◌<◌, ◌/◌, ◌%◌, ◌≤◌, OnOk, unsigned_abs};
ghost use Rattle.kql_cells.specs.Values.{IsMoment};
ghost use Rattle.kql_ticks.specs.Days.{HasDate};
ghost use Rattle.kql_ticks.specs.Periods.{day_at};
ghost use Rattle.kql_ticks.specs.Texts.{clock_text, date_text, digits, moment_text};
ghost use Rattle.csv_io.specs.Days.{time_text};

use kql_ticks::push_moment;
use std::alloc::AllocError;
use std::marker::Model;

// The ticks of a second, a minute, an hour and a day.
const SECOND: u64 = 10_000_000;

const MINUTE: u64 = 600_000_000;

const HOUR: u64 = 36_000_000_000;

const DAY: u64 = 864_000_000_000;

// The length of a date.
const DATE: usize = 10;

// The day of a datetime that was printed, since those of a log come day by day: its number from 0001-01-01, and its date.
#[derive(Drop)]
pub(crate) struct PrintedDay {
    number: u64,
    date: [u8; DATE],
}

impl Model for PrintedDay {
    ghost use Rattle.std.specs.Prelude.{ℕ};
    ghost use Rattle.csv_io.specs.Days.{IsDated};

    ghost Value = { ℕ };

    ghost view = { λ d. d.number };

    ghost invariant = { λ d. IsDated d.number d.date };
}

impl PrintedDay {
    // No day.
    pub(crate) fn new() -> PrintedDay {
        PrintedDay {
            number: u64::MAX,
            date: [0; DATE],
        }
    }

    // Adds the text of a datetime.
    #[inline(always)]
    pub(crate) fn push(&mut self, out: &mut Vec<u8>, x: i64) -> Result<(), AllocError>
        requires { IsMoment x }
        ensures added { OnOk result (out.new.items ≡ out.old.items ++ moment_text (unsigned_abs x)) }
        ensures date { OnOk result (HasDate (day_at (unsigned_abs x))) }
    {
        let ticks = x.unsigned_abs();
        let is_same = ticks / DAY == self.number;
        if is_same {
            push_on(out, &self.date, ticks)
        } else {
            self.push_next(out, x)
        }
    }

    // Adds the text of a datetime of another day, and keeps the day.
    #[inline(never)]
    fn push_next(&mut self, out: &mut Vec<u8>, x: i64) -> Result<(), AllocError>
        requires { IsMoment x }
        ensures added { OnOk result (out.new.items ≡ out.old.items ++ moment_text (unsigned_abs x)) }
        ensures date { OnOk result (HasDate (day_at (unsigned_abs x))) }
    {
        let start = out.len();
        push_moment(out, x)?;
        self.date.copy_from_slice(&out[start..start + DATE]);
        self.number = x.unsigned_abs() / DAY;
        Ok(())
    }
}

// Adds the text of a datetime of a day.
#[inline(always)]
fn push_on(out: &mut Vec<u8>, date: &[u8; DATE], ticks: u64) -> Result<(), AllocError>
    requires { date.now ≡ date_text (day_at ticks) }
    ensures { OnOk result (out.new.items ≡ out.old.items ++ moment_text ticks) }
{
    out.extend_from_slice(date.as_slice())?;
    out.extend_from_slice(time_bytes(ticks).as_slice())?;
    Ok(())
}

// What stands behind the date of a datetime.
#[inline(always)]
fn time_bytes(ticks: u64) -> [u8; 18]
    ensures { result ≡ time_text ticks }
{
    let clock = ticks % DAY;
    let hours = clock / HOUR;
    let minutes = clock % HOUR / MINUTE;
    let seconds = clock % MINUTE / SECOND;
    let fraction = ticks % SECOND;
    [
        b'T',
        digit(hours / 10),
        digit(hours),
        b':',
        digit(minutes / 10),
        digit(minutes),
        b':',
        digit(seconds / 10),
        digit(seconds),
        b'.',
        digit(fraction / 1_000_000),
        digit(fraction / 100_000),
        digit(fraction / 10_000),
        digit(fraction / 1000),
        digit(fraction / 100),
        digit(fraction / 10),
        digit(fraction),
        b'Z',
    ]
}

// The last digit of a number.
#[inline(always)]
fn digit(n: u64) -> u8
    ensures { result ≡ 48 + n % 10 }
{
    b'0' + (n % 10) as u8
}
