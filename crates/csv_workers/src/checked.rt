//! Whether bytes are a text, by many workers.
ghost use Rattle.std.specs.Prelude.{◌≡◌, ◌<◌, ◌≤◌, All, true, IfOk, IsUtf8, length};
ghost use Rattle.csv_workers.specs.Checks.{IsChecked};

use kql_items::Items;
use kql_outside::Gate;
use simdutf8::compat::from_utf8;
use std::alloc::{AllocError, Global};
use std::marker::Model;
use std::thread::Threads;
use worker_board::{Work, run_pieces};

// Bytes from a place up to another, and whether they are a text. Contracts see the bytes that they are of.
#[derive(Drop)]
struct Checked<'a> {
    bytes: &'a [u8],
    from: usize,
    to: usize,
    is_text: bool,
}

impl<'a> Model for Checked<'a> {
    ghost use Rattle.std.specs.Prelude.{List, ℕ};
    ghost use Rattle.csv_workers.specs.Checks.{IsChecked};

    ghost Value = { List ℕ };

    ghost view = { λ c. c.bytes.now };

    ghost invariant = { λ c. IsChecked c.bytes.now c.from c.to c.is_text };
}

impl<'a> Checked<'a> {
    // Its places, and whether it is a text.
    fn into_parts(self) -> (usize, usize, bool)
        ensures { IsChecked self.entry result.0 result.1 result.2 }
    {
        let Checked {
            bytes: _,
            from,
            to,
            is_text,
        } = self;
        (from, to, is_text)
    }
}

// The ranges of bytes.
#[derive(Clone, Copy)]
struct Checking<'a> {
    bytes: &'a [u8],
    range: usize,
    count: u32,
}

impl<'a> Checking<'a> {
    // Where a range begins, before a byte of ASCII.
    fn start(&self, range: u32) -> usize
        ensures within { result ≤ length self.now.bytes.now }
    {
        if range == 0 {
            return 0;
        }
        let len = self.bytes.len();
        let mut at = self.range.saturating_mul(range as usize).min(len);
        while at < len && self.bytes[at] >= 128 {
            at += 1;
        }
        at
    }
}

impl<'a> Work<Checked<'a>> for Checking<'a> {
    ghost count = { λ c. c.count };

    ghost answer = { λ c _. c.bytes.now };

    fn pieces(&self) -> u32 {
        self.count
    }

    fn run(&self, piece: u32) -> Result<Checked<'a>, AllocError> {
        let from = self.start(piece);
        let to = self.start(piece.saturating_add(1)).max(from);
        Ok(Checked {
            bytes: self.bytes,
            from,
            to,
            is_text: from_utf8(&self.bytes[from..to]).is_ok(),
        })
    }
}

// Whether bytes are a text, by so many workers and in ranges of so many bytes. Only where it answers so is that sure.
pub(crate) fn check_by_workers<R: Threads + Sync, G: Gate + Sync>(
    rt: &R,
    gate: &G,
    alloc: Global,
    workers: u32,
    range: usize,
    bytes: &[u8],
) -> Result<bool, AllocError>
    requires workers { (0 < workers) × (workers ≤ 64) }
    ensures text { IfOk result (λ is. is ≡ true → IsUtf8 bytes.now) }
{
    let work = Checking {
        bytes,
        range,
        count: ranges_of(bytes.len(), range),
    };
    let checked = run_pieces(rt, alloc, workers, 0, &work, gate)?.results;
    Ok(are_all_text(bytes, checked))
}

// Whether these stand one behind another from the first byte to the last, and are each a text.
fn are_all_text(bytes: &[u8], mut checked: Items<Checked<'_>>) -> bool
    requires { All (λ c. c ≡ bytes.now) checked }
    ensures { result ≡ true → IsUtf8 bytes.now }
{
    checked.reverse();
    let mut at = 0;
    'parts: while let Some(next) = checked.pop() {
        let (from, to, is_text) = next.into_parts();
        if from != at || !is_text {
            return false;
        }
        at = to;
    }
    at == bytes.len()
}

// In how many ranges of so many things these are cut.
pub(crate) fn ranges_of(count: usize, range: usize) -> u32 {
    let full = count / range.max(1);
    u32::try_from(full).unwrap_or(u32::MAX).saturating_add(1)
}
