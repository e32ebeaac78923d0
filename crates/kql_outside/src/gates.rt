use crate::outside::Gate;
use std::hint::spin_loop;
use std::sync::atomic::{AtomicBool, Ordering};

/// A gate that lets every worker through at once.
#[derive(Clone, Copy, Debug, PartialEq, Eq)]
pub struct OpenGate;

impl Gate for OpenGate {
    fn enter(&self, _phase: u32, _piece: u32) {}
}

/// A gate that shows whether two workers run beside each other: in the first phase the worker of piece 0 and that of
/// piece 1 wait for each other. Every other piece, and every other phase, passes at once.
///
/// Each of the two turns until the other has come, but no more than `limit` times, so no wait is without an end.
#[derive(Debug, Drop)]
pub struct HoldGate {
    limit: u64,
    first_came: AtomicBool,
    second_came: AtomicBool,
    at_limit: AtomicBool,
}

impl HoldGate {
    /// A gate at which nobody has come yet.
    pub fn new(limit: u64) -> HoldGate {
        HoldGate {
            limit,
            first_came: AtomicBool::new(false),
            second_came: AtomicBool::new(false),
            at_limit: AtomicBool::new(false),
        }
    }

    /// Whether both have come, and neither has come to the limit.
    pub fn met(&self) -> bool {
        self.first_came.load(Ordering::SeqCst)
            && self.second_came.load(Ordering::SeqCst)
            && !self.at_limit.load(Ordering::SeqCst)
    }

    // Tells that one has come, and turns until the other has.
    fn hold(&self, own: &AtomicBool, other: &AtomicBool) {
        own.store(true, Ordering::SeqCst);
        for _ in 0..self.limit {
            if other.load(Ordering::SeqCst) {
                return;
            }
            spin_loop();
        }
        self.at_limit.store(true, Ordering::SeqCst);
    }
}

impl Gate for HoldGate {
    fn enter(&self, phase: u32, piece: u32) {
        match (phase, piece) {
            (0, 0) => self.hold(&self.first_came, &self.second_came),
            (0, 1) => self.hold(&self.second_came, &self.first_came),
            _ => {}
        }
    }
}
