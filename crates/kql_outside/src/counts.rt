ghost use Rattle.std.specs.Prelude.{◌≡◌, ◌≤◌};
ghost use Rattle.kql_outside.specs.Calls.{CallCounts};
ghost use Rattle.kql_outside.specs.Causes.{next_count};

use crate::outside::Failed;
use std::marker::Model;

// A count of faults, which stands still at its last value.
#[derive(Debug, Drop)]
pub(crate) struct Faults {
    count: u64,
}

impl Model for Faults {
    ghost use Rattle.std.specs.Prelude.{ℕ};

    ghost Value = { ℕ };

    ghost view = { λ f. f.count };
}

impl Faults {
    pub(crate) fn none() -> Faults
        ensures { result ≡ 0 }
    {
        Faults { count: 0 }
    }

    // Counts a fault, which its call then answers.
    pub(crate) fn fail(&mut self) -> Failed
        ensures count { self.new ≡ next_count self.old }
        ensures later { self.old ≤ self.new }
    {
        self.count = self.count.saturating_add(1);
        Failed
    }
}

// How the calls of an object went: how many failed, and how many came after the last that failed. Both counts stand still at
// their last value.
#[derive(Debug, Drop)]
pub(crate) struct Course {
    failed: u64,
    later: u64,
}

impl Model for Course {
    ghost use Rattle.kql_outside.specs.Calls.{CallCounts};

    ghost Value = { CallCounts };

    ghost view = { λ c. record { failed = c.failed; later = c.later } };
}

impl Course {
    pub(crate) fn new() -> Course
        ensures { result ≡ record { failed = 0; later = 0 } }
    {
        Course {
            failed: 0,
            later: 0,
        }
    }

    // A call succeeded.
    pub(crate) fn pass(&mut self)
        ensures { self.new ≡ record { failed = self.old.failed; later = next_count self.old.later } }
    {
        self.later = self.later.saturating_add(1);
    }

    // Counts a fault, which its call then answers.
    pub(crate) fn fail(&mut self) -> Failed
        ensures calls { self.new ≡ record { failed = next_count self.old.failed; later = 0 } }
        ensures later { self.old.failed ≤ self.new.failed }
    {
        self.failed = self.failed.saturating_add(1);
        self.later = 0;
        Failed
    }
}
