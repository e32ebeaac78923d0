//! Gates that tell how they were entered.

use kql_outside::Gate;
use std::alloc::{AllocError, Global};
use std::hint::spin_loop;
use std::sync::atomic::{AtomicBool, AtomicU64, Ordering};

/// A gate that counts how often it is entered.
#[derive(Drop)]
pub struct CountingGate {
    entries: AtomicU64,
}

impl CountingGate {
    pub fn new() -> CountingGate {
        CountingGate {
            entries: AtomicU64::new(0),
        }
    }

    pub fn entries(&self) -> u64 {
        self.entries.load(Ordering::SeqCst)
    }
}

impl Gate for CountingGate {
    fn enter(&self, _phase: u32, _piece: u32) {
        self.entries.fetch_add(1, Ordering::SeqCst);
    }
}

/// A gate that counts how often it is entered with each piece of its phase.
#[derive(Drop)]
pub struct Entries {
    phase: u32,
    counts: Vec<AtomicU64>,
}

impl Entries {
    pub fn new(alloc: Global, phase: u32, pieces: u32) -> Result<Entries, AllocError> {
        let mut counts = Vec::new(alloc);
        for _ in 0..pieces {
            counts.push(AtomicU64::new(0))?;
        }
        Ok(Entries { phase, counts })
    }

    /// How often it was entered with this piece.
    pub fn of_piece(&self, piece: u32) -> u64 {
        match self.counts.get(piece as usize) {
            Some(count) => count.load(Ordering::SeqCst),
            None => 0,
        }
    }
}

impl Gate for Entries {
    fn enter(&self, phase: u32, piece: u32) {
        if phase != self.phase {
            return;
        }
        if let Some(count) = self.counts.get(piece as usize) {
            count.fetch_add(1, Ordering::SeqCst);
        }
    }
}

/// A gate where the workers of the first three pieces wait for each other. Each turns until all three have come, but no
/// more than `limit` times.
#[derive(Drop)]
pub struct MeetingGate {
    limit: u64,
    came: AtomicU64,
    at_limit: AtomicBool,
}

impl MeetingGate {
    pub fn new(limit: u64) -> MeetingGate {
        MeetingGate {
            limit,
            came: AtomicU64::new(0),
            at_limit: AtomicBool::new(false),
        }
    }

    /// Whether all three have come, and none to the limit.
    pub fn met(&self) -> bool {
        self.came.load(Ordering::SeqCst) == 3 && !self.at_limit.load(Ordering::SeqCst)
    }
}

impl Gate for MeetingGate {
    fn enter(&self, _phase: u32, piece: u32) {
        if piece > 2 {
            return;
        }
        self.came.fetch_add(1, Ordering::SeqCst);
        for _ in 0..self.limit {
            if self.came.load(Ordering::SeqCst) == 3 {
                return;
            }
            spin_loop();
        }
        self.at_limit.store(true, Ordering::SeqCst);
    }
}
