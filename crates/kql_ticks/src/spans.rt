ghost use Rattle.std.specs.Prelude.{◌≡◌, ◌+◌, ◌<◌, ◌≤◌, ◌==◌, not, ℤ, length, Some, None, IfSome};
ghost use Rattle.std.specs.Char.{is_ascii_digit};
ghost use Rattle.std.specs.List.{position};
ghost use Rattle.kql_ticks.specs.Forms.{amount_in, clock_in, days_in, decimals_in, is_of_number, length_in, quantity_in, span_in, unit_in};

use crate::moments::read_time;
use crate::numbers::{number, share};
use crate::periods::{DAY, HOUR, MICROSECOND, MILLISECOND, MINUTE, SECOND};
use crate::ranges::fit;

/// The timespan that a text is, or none.
///
/// A timespan is `hh:mm:ss`, with days and a point before it or not, and a point and one to seven digits after it or
/// not; or a number, whole or with a decimal fraction, and a unit: `d`, `h`, `m`, `s`, `ms`, `microsecond` or `tick`. A
/// `-` may stand before it. The ticks come out whole, and in range.
#[tactic(auto, unfolding(crate::specs::Forms::span_in))]
pub fn read_span(t: &str) -> Option<i64>
    ensures value { result ≡ span_in t.now }
{
    match t.as_bytes() {
        [] => None,
        [b'-', rest @ ..] => {
            let ticks = read_length(rest)?;
            fit(-(ticks as i128))
        }
        t => {
            let ticks = read_length(t)?;
            fit(ticks as i128)
        }
    }
}

// A timespan without its sign.
#[tactic(auto, unfolding(crate::specs::Forms::length_in, crate::specs::Forms::length_from))]
fn read_length(t: &[u8]) -> Option<u128>
    ensures value { result ≡ length_in t.now }
    ensures bound { IfSome result (λ n. n < 10000000000000000000000000000000) }
{
    match first_colon(t) {
        Some(at) => read_clock(at, t),
        None => read_quantity(t),
    }
}

// The place of the first colon.
fn first_colon(t: &[u8]) -> Option<usize>
    ensures value { result ≡ position (λ b. b == 58) t.now }
    ensures bound { IfSome result (λ i. i < length t.now) }
{
    t.iter().position(|b| *b == b':')
}

// The place of the first point.
fn first_dot(t: &[u8]) -> Option<usize>
    ensures value { result ≡ position (λ b. b == 46) t.now }
    ensures bound { IfSome result (λ i. i < length t.now) }
{
    t.iter().position(|b| *b == b'.')
}

// The place of the first byte that is not of a number.
fn first_other(t: &[u8]) -> Option<usize>
    ensures value { result ≡ position (λ b. not (is_of_number b)) t.now }
    ensures bound { IfSome result (λ i. i < length t.now) }
{
    t.iter().position(|b| !(b.is_ascii_digit() || *b == b'.'))
}

// [d.]hh:mm:ss[.fffffff], whose first colon is at a place.
#[tactic(auto, unfolding(crate::specs::Forms::clock_in))]
fn read_clock(at: usize, t: &[u8]) -> Option<u128>
    requires { at < length t.now }
    ensures value { result ≡ clock_in at t.now }
    ensures bound { IfSome result (λ n. n < 10000000000000000000000000000000) }
{
    if at < 2 || t.len() - at < 6 {
        return None;
    }
    let days = read_days(&t[..at - 2])?;
    let ticks = read_time(&t[at - 2..])?;
    Some(DAY as u128 * days as u128 + ticks as u128)
}

// The days of a timespan and their point; or nothing.
#[tactic(auto, unfolding(crate::specs::Forms::days_in))]
fn read_days(t: &[u8]) -> Option<u64>
    ensures value { result ≡ days_in t.now }
    ensures bound { IfSome result (λ n. n < 10000000000000000000) }
{
    if t.is_empty() {
        return Some(0);
    }
    let last = t.len() - 1;
    if t[last] != b'.' {
        return None;
    }
    number(&t[..last])
}

// A number and a unit.
#[tactic(auto, unfolding(crate::specs::Forms::quantity_in))]
fn read_quantity(t: &[u8]) -> Option<u128>
    ensures value { result ≡ quantity_in (position (λ b. not (is_of_number b)) t.now) t.now }
    ensures bound { IfSome result (λ n. n < 10000000000000000000000000000000) }
{
    match first_other(t) {
        Some(at) => read_units(at, t),
        None => None,
    }
}

#[tactic(auto, unfolding(crate::specs::Forms::quantity_in))]
fn read_units(at: usize, t: &[u8]) -> Option<u128>
    requires { at < length t.now }
    ensures value { result ≡ quantity_in (Some at) t.now }
    ensures bound { IfSome result (λ n. n < 10000000000000000000000000000000) }
{
    let unit = read_unit(&t[at..])?;
    read_amount(unit, &t[..at])
}

// The ticks of a unit.
#[tactic(auto, unfolding(crate::specs::Forms::unit_in))]
fn read_unit(t: &[u8]) -> Option<u64>
    ensures value { result ≡ unit_in t.now }
    ensures bound { IfSome result (λ n. (0 < n) × (n ≤ 864000000000)) }
{
    match t {
        b"d" => Some(DAY),
        b"h" => Some(HOUR),
        b"m" => Some(MINUTE),
        b"s" => Some(SECOND),
        b"ms" => Some(MILLISECOND),
        b"microsecond" => Some(MICROSECOND),
        b"tick" => Some(1),
        _ => None,
    }
}

// So many units, whole or with a decimal fraction.
fn read_amount(unit: u64, t: &[u8]) -> Option<u128>
    requires low { 0 < unit }
    requires high { unit ≤ 864000000000 }
    ensures value { result ≡ amount_in unit (position (λ b. b == 46) t.now) t.now }
    ensures bound { IfSome result (λ n. n < 10000000000000000000000000000000) }
{
    match first_dot(t) {
        Some(at) => read_decimal(unit, at, t),
        None => read_whole(unit, t),
    }
}

#[tactic(auto, unfolding(crate::specs::Forms::amount_in))]
fn read_whole(unit: u64, t: &[u8]) -> Option<u128>
    requires low { 0 < unit }
    requires high { unit ≤ 864000000000 }
    ensures value { result ≡ amount_in unit None t.now }
    ensures bound { IfSome result (λ n. n < 10000000000000000000000000000000) }
{
    let n = number(t)?;
    Some(unit as u128 * n as u128)
}

#[tactic(auto, unfolding(crate::specs::Forms::amount_in))]
fn read_decimal(unit: u64, at: usize, t: &[u8]) -> Option<u128>
    requires low { 0 < unit }
    requires high { unit ≤ 864000000000 }
    requires at { at < length t.now }
    ensures value { result ≡ amount_in unit (Some at) t.now }
    ensures bound { IfSome result (λ n. n < 10000000000000000000000000000000) }
{
    let n = number(&t[..at])?;
    let f = read_decimals(unit, &t[at + 1..])?;
    Some(unit as u128 * n as u128 + f as u128)
}

#[tactic(auto, unfolding(crate::specs::Forms::decimals_in))]
fn read_decimals(unit: u64, t: &[u8]) -> Option<u64>
    requires low { 0 < unit }
    requires high { unit ≤ 864000000000 }
    ensures value { result ≡ decimals_in unit t.now }
    ensures bound { IfSome result (λ n. n < unit) }
{
    if t.is_empty() {
        return None;
    }
    share(unit, t)
}
