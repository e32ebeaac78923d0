ghost use Rattle.std.specs.Prelude.{◌≡◌, ◌+◌, ◌≤◌, drop, length, take};
ghost use Rattle.csv_io.specs.Runs.{IsAhead, IsBehind, IsRun, IsRunOf, first_set, is_clear, is_plain, is_unquoted, marks};

use std::simd::prelude::*;

// How many bytes are looked at together, where a field ends soon and where it may not.
const WINDOW: usize = 64;

pub(crate) const LANES: usize = 16;

#[inline(always)]
fn first_set(mask: u64, lanes: usize) -> usize
    ensures { result ≡ first_set mask lanes }
{
    if mask == 0 {
        lanes
    } else {
        mask.trailing_zeros() as usize
    }
}

// How many of the 16 bytes from a place stand before the first that ends a field.
#[inline(always)]
fn plain_run(text: &[u8], at: usize) -> usize
    requires { at + LANES ≤ length text.now }
    ensures { IsRunOf LANES is_plain text.now at result }
{
    let v = u8x16::from_slice(&text[at..]);
    let ends_line = v.simd_eq(u8x16::splat(b'\r')) | v.simd_eq(u8x16::splat(b'\n'));
    let stops = v.simd_eq(u8x16::splat(b',')) | ends_line;
    first_set(stops.to_bitmask(), LANES)
}

// A byte of a field without quotes.
pub(crate) fn is_plain(b: u8) -> bool
    ensures { result ≡ is_plain b }
{
    !(b == b',' || b == b'\r' || b == b'\n')
}

// Where a field without quotes ends that begins at a place, byte by byte.
pub(crate) fn far_end(text: &[u8], at: usize) -> usize
    requires { at ≤ length text.now }
    ensures { IsRun is_plain text.now at result }
{
    let mut end = at;
    'by_load: while text.len() - end >= LANES {
        let run = plain_run(text, end);
        if run < LANES {
            return end + run;
        }
        end += LANES;
    }
    while end < text.len() && is_plain(text[end]) {
        end += 1;
    }
    end
}

// How many of the 16 bytes from a place stand before the first quote.
#[inline(always)]
fn unquoted_run(text: &[u8], at: usize) -> usize
    requires { at + LANES ≤ length text.now }
    ensures { IsRunOf LANES is_unquoted text.now at result }
{
    let v = u8x16::from_slice(&text[at..]);
    first_set(v.simd_eq(u8x16::splat(b'"')).to_bitmask(), LANES)
}

// How many of the 16 bytes from a place stand before the first that calls for quotes where a field is printed.
#[inline(always)]
pub(crate) fn clear_run(text: &[u8], at: usize) -> usize
    requires { at + LANES ≤ length text.now }
    ensures { IsRunOf LANES is_clear text.now at result }
{
    let v = u8x16::from_slice(&text[at..]);
    let separates = v.simd_eq(u8x16::splat(b',')) | v.simd_eq(u8x16::splat(b'"'));
    let ends_line = v.simd_eq(u8x16::splat(b'\r')) | v.simd_eq(u8x16::splat(b'\n'));
    let stops = separates | ends_line;
    first_set(stops.to_bitmask(), LANES)
}

// Where the next quote stands from a place on, or where the text ends.
#[inline(always)]
pub(crate) fn quote_end(text: &[u8], at: usize) -> usize
    requires { at ≤ length text.now }
    ensures { IsRun is_unquoted text.now at result }
{
    let mut end = at;
    'by_load: while text.len() - end >= LANES {
        let run = unquoted_run(text, end);
        if run < LANES {
            return end + run;
        }
        end += LANES;
    }
    while end < text.len() && text[end] != b'"' {
        end += 1;
    }
    end
}

// What is known of the next bytes: how many they are, and a bit for each, the first byte's lowest, which is set where it
// ends a field.
#[derive(Clone, Copy)]
pub(crate) struct Ahead {
    pub(crate) bits: u64,
    pub(crate) left: usize,
}

// Nothing.
#[inline(always)]
pub(crate) fn unknown() -> Ahead
    ensures bits { result.bits ≡ 0 }
    ensures left { result.left ≡ 0 }
{
    Ahead { bits: 0, left: 0 }
}

// Which of the 64 bytes from a place end a field.
#[inline(always)]
fn marks_at(text: &[u8], at: usize) -> u64
    requires { at + WINDOW ≤ length text.now }
    ensures { result ≡ marks is_plain (take WINDOW (drop at text.now)) }
{
    let v = u8x64::from_slice(&text[at..]);
    let ends_line = v.simd_eq(u8x64::splat(b'\r')) | v.simd_eq(u8x64::splat(b'\n'));
    let stops = v.simd_eq(u8x64::splat(b',')) | ends_line;
    stops.to_bitmask()
}

// Looks at the bytes from a place on.
#[inline(always)]
pub(crate) fn look(text: &[u8], at: usize) -> Ahead
    requires { at ≤ length text.now }
    ensures { IsAhead text.now at result.bits result.left }
{
    if text.len() - at < WINDOW {
        return unknown();
    }
    Ahead {
        bits: marks_at(text, at),
        left: WINDOW,
    }
}

// Where a field without quotes ends that begins at a place, and what is known of the bytes behind its end.
#[inline(always)]
pub(crate) fn field_end(text: &[u8], at: usize, ahead: Ahead) -> (usize, Ahead)
    requires { IsAhead text.now at ahead.bits ahead.left }
    ensures run { IsRun is_plain text.now at result.0 }
    ensures ahead { IsBehind text.now result.0 result.1.bits result.1.left }
{
    if ahead.bits == 0 {
        let end = far_end(text, at + ahead.left);
        return (end, behind(text, end));
    }
    let run = ahead.bits.trailing_zeros() as usize;
    let next = Ahead {
        bits: ahead.bits >> run >> 1,
        left: ahead.left - run - 1,
    };
    (at + run, next)
}

// Looks at the bytes behind a place, if there is one.
pub(crate) fn behind(text: &[u8], end: usize) -> Ahead
    requires { end ≤ length text.now }
    ensures { IsBehind text.now end result.bits result.left }
{
    if end == text.len() {
        unknown()
    } else {
        look(text, end + 1)
    }
}
