ghost use Rattle.std.specs.Prelude.{◌≡◌, ◌+◌, ◌/◌, ◌%◌, ◌<◌, ◌≤◌, ◌++◌, ◌∷◌, length, option_map, pos, unsigned_abs, vec_capacity, vec_len, Some, IfOk, OnErr, OnOk};
ghost use Rattle.std.specs.List.{AllPass};
ghost use Rattle.kql_cells.specs.Values.{IsMoment};
ghost use Rattle.kql_ticks.specs.Days.{HasDate};
ghost use Rattle.kql_ticks.specs.Forms.{moment_in, span_in};
ghost use Rattle.kql_ticks.specs.Periods.{day_at};
ghost use Rattle.kql_ticks.specs.Texts.{clock_text, date_text, days_text, digits, dot, fraction_text, is_of_time, length_text, moment_text, sign_text, span_text, width_of};

use crate::days::date_on;
use crate::periods::{DAY, HOUR, MINUTE, SECOND, day_of, ticks};
use kql_cells::KText;
use std::alloc::{AllocError, Global};

// How many bytes a datetime has.
const MOMENT_LENGTH: usize = 28;

// The most bytes that a timespan has.
const SPAN_LENGTH: usize = 26;

/// A datetime as `yyyy-mm-ddThh:mm:ss.fffffffZ`.
pub fn print_moment(alloc: Global, x: i64) -> Result<KText, AllocError>
    requires { IsMoment x }
    ensures text { IfOk result (λ t. t ≡ moment_text (unsigned_abs x)) }
    ensures read_back { IfOk result (λ t. option_map pos (moment_in t) ≡ Some x) }
    ensures date { OnOk result (HasDate (day_at (unsigned_abs x))) }
{
    let mut bytes = Vec::with_capacity(alloc, MOMENT_LENGTH)?;
    push_moment(&mut bytes, x)?;
    Ok(text_of(bytes))
}

/// A timespan as `[-][d.]hh:mm:ss[.fffffff]`: without the days where there are none, and without the fraction where it
/// is 0.
pub fn print_span(alloc: Global, x: i64) -> Result<KText, AllocError>
    ensures text { IfOk result (λ t. t ≡ span_text x) }
    ensures read_back { IfOk result (λ t. span_in t ≡ Some x) }
{
    let mut bytes = Vec::with_capacity(alloc, SPAN_LENGTH)?;
    push_span(&mut bytes, x)?;
    Ok(text_of(bytes))
}

/// Adds the text of a datetime, as `print_moment` gives it. Memory is wanted where fewer than 28 bytes are free.
pub fn push_moment(out: &mut Vec<u8>, x: i64) -> Result<(), AllocError>
    requires { IsMoment x }
    ensures added { OnOk result (out.new.items ≡ out.old.items ++ moment_text (unsigned_abs x)) }
    ensures kept { OnErr result (out.new.items ≡ out.old.items) }
    ensures read_back { OnOk result (option_map pos (moment_in (moment_text (unsigned_abs x))) ≡ Some x) }
    ensures date { OnOk result (HasDate (day_at (unsigned_abs x))) }
    ensures bytes { AllPass is_of_time (moment_text (unsigned_abs x)) }
{
    let ticks = ticks(x);
    out.reserve(MOMENT_LENGTH)?;
    append_moment(out, ticks);
    Ok(())
}

/// Adds the text of a timespan, as `print_span` gives it. Memory is wanted where fewer than 26 bytes are free.
pub fn push_span(out: &mut Vec<u8>, x: i64) -> Result<(), AllocError>
    ensures added { OnOk result (out.new.items ≡ out.old.items ++ span_text x) }
    ensures kept { OnErr result (out.new.items ≡ out.old.items) }
    ensures read_back { span_in (span_text x) ≡ Some x }
    ensures bytes { AllPass is_of_time (span_text x) }
{
    out.reserve(SPAN_LENGTH)?;
    append_sign(out, x);
    append_length(out, x.unsigned_abs());
    Ok(())
}

// The bytes as a text.
fn text_of(bytes: Vec<u8>) -> KText
    requires { AllPass is_of_time bytes.items }
    ensures same { result ≡ bytes.items }
{
    KText::from_string(String::from_utf8(bytes).unwrap())
}

// A datetime, for which there is room.
#[tactic(auto, unfolding(crate::specs::Texts::moment_text))]
fn append_moment(out: &mut Vec<u8>, ticks: u64)
    requires moment { ticks ≤ 3155378975999999999 }
    requires room { vec_len out.old + 28 ≤ vec_capacity out.old }
    ensures added { out.new.items ≡ out.old.items ++ moment_text ticks }
    ensures date { HasDate (day_at ticks) }
{
    append(out, &date_bytes(day_of(ticks)));
    append(out, b"T");
    append(out, &clock_bytes(ticks % DAY));
    append(out, &fraction_bytes(ticks % SECOND));
    append(out, b"Z");
}

// A timespan without its sign, for which there is room.
#[tactic(auto, unfolding(crate::specs::Texts::length_text))]
fn append_length(out: &mut Vec<u8>, ticks: u64)
    requires span { ticks ≤ 9223372036854775808 }
    requires room { vec_len out.old + 25 ≤ vec_capacity out.old }
    ensures added { out.new.items ≡ out.old.items ++ length_text ticks }
{
    append_days(out, ticks / DAY);
    append(out, &clock_bytes(ticks % DAY));
    append_fraction(out, ticks % SECOND);
}

fn append_sign(out: &mut Vec<u8>, x: i64)
    requires room { vec_len out.old + 1 ≤ vec_capacity out.old }
    ensures added { out.new.items ≡ out.old.items ++ sign_text x }
    ensures len { vec_len out.new ≤ vec_len out.old + 1 }
    ensures capacity { vec_capacity out.old ≤ vec_capacity out.new }
{
    if x < 0 {
        append(out, b"-");
    }
}

#[tactic(auto, unfolding(crate::specs::Texts::days_text))]
fn append_days(out: &mut Vec<u8>, days: u64)
    requires days { days < 100000000 }
    requires room { vec_len out.old + 9 ≤ vec_capacity out.old }
    ensures added { out.new.items ≡ out.old.items ++ days_text days }
    ensures len { vec_len out.new ≤ vec_len out.old + 9 }
    ensures capacity { vec_capacity out.old ≤ vec_capacity out.new }
{
    if days == 0 {
        return;
    }
    append_digits(out, width_of(days), days);
    append(out, b".");
}

#[tactic(auto, unfolding(crate::specs::Texts::fraction_text))]
fn append_fraction(out: &mut Vec<u8>, fraction: u64)
    requires room { vec_len out.old + 8 ≤ vec_capacity out.old }
    ensures added { out.new.items ≡ out.old.items ++ fraction_text fraction }
{
    if fraction == 0 {
        return;
    }
    append(out, &fraction_bytes(fraction));
}

// How many digits a number below 100,000,000 has.
fn width_of(n: u64) -> u32
    ensures value { result ≡ width_of n }
    ensures bound { result ≤ 8 }
{
    if n < 10 {
        return 1;
    }
    if n < 100 {
        return 2;
    }
    if n < 1000 {
        return 3;
    }
    if n < 10_000 {
        return 4;
    }
    if n < 100_000 {
        return 5;
    }
    if n < 1_000_000 {
        return 6;
    }
    if n < 10_000_000 {
        return 7;
    }
    8
}

// The last digits of a number, for which there is room.
fn append_digits(out: &mut Vec<u8>, width: u32, n: u64)
    requires room { vec_len out.old + width ≤ vec_capacity out.old }
    ensures added { out.new.items ≡ out.old.items ++ digits width n }
    ensures len { vec_len out.new ≡ vec_len out.old + width }
    ensures capacity { vec_capacity out.old ≤ vec_capacity out.new }
{
    if width == 0 {
        return;
    }
    append_digits(out, width - 1, n / 10);
    append(out, &[digit(n)]);
}

// Bytes, for which there is room.
fn append(out: &mut Vec<u8>, bytes: &[u8])
    requires room { vec_len out.old + length bytes.now ≤ vec_capacity out.old }
    ensures added { out.new.items ≡ out.old.items ++ bytes.now }
    ensures len { vec_len out.new ≡ vec_len out.old + length bytes.now }
    ensures capacity { vec_capacity out.old ≤ vec_capacity out.new }
{
    let _ = out.extend_from_slice(bytes);
}

// yyyy-mm-dd
#[tactic(auto, unfolding(crate::specs::Texts::date_text, crate::specs::Texts::digits))]
fn date_bytes(day: u32) -> [u8; 10]
    requires { day < 3652059 }
    ensures text { result ≡ date_text day }
    ensures date { HasDate day }
{
    let date = date_on(day);
    let [thousands, hundreds, tens, ones] = four_digits(date.year as u64);
    let [month_tens, month_ones] = two_digits(date.month as u64);
    let [day_tens, day_ones] = two_digits(date.day as u64);
    [
        thousands, hundreds, tens, ones, b'-', month_tens, month_ones, b'-', day_tens, day_ones,
    ]
}

// hh:mm:ss
#[tactic(auto, unfolding(crate::specs::Texts::clock_text, crate::specs::Texts::digits))]
fn clock_bytes(ticks: u64) -> [u8; 8]
    ensures { result ≡ clock_text ticks }
{
    let [hour_tens, hours] = two_digits(ticks / HOUR);
    let [minute_tens, minutes] = two_digits(ticks % HOUR / MINUTE);
    let [second_tens, seconds] = two_digits(ticks % MINUTE / SECOND);
    [
        hour_tens,
        hours,
        b':',
        minute_tens,
        minutes,
        b':',
        second_tens,
        seconds,
    ]
}

// .fffffff
#[tactic(auto, using(crate::proofs::TextLemmas::fixed_digits))]
fn fraction_bytes(n: u64) -> [u8; 8]
    ensures { result ≡ dot ∷ digits 7 n }
{
    [
        b'.',
        digit(n / 1_000_000),
        digit(n / 100_000),
        digit(n / 10_000),
        digit(n / 1000),
        digit(n / 100),
        digit(n / 10),
        digit(n),
    ]
}

#[tactic(auto, using(crate::proofs::TextLemmas::fixed_digits))]
fn four_digits(n: u64) -> [u8; 4]
    ensures { result ≡ digits 4 n }
{
    [digit(n / 1000), digit(n / 100), digit(n / 10), digit(n)]
}

#[tactic(auto, using(crate::proofs::TextLemmas::fixed_digits))]
fn two_digits(n: u64) -> [u8; 2]
    ensures { result ≡ digits 2 n }
{
    [digit(n / 10), digit(n)]
}

// The last digit of a number.
fn digit(n: u64) -> u8
    ensures { result ≡ 48 + n % 10 }
{
    b'0' + (n % 10) as u8
}
