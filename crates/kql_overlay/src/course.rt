ghost use Rattle.std.specs.Prelude.{◌≡◌, ◌≢◌, ◌≤◌, ◌↔◌, IsTrue};
ghost use Rattle.kql_outside.specs.Causes.{next_count};

use std::marker::Model;

// How the calls of an object went: how many failed, and how many came after the last that failed.
#[derive(Debug, Drop)]
pub(crate) struct Course {
    failed: u64,
    later: u64,
}

impl Model for Course {
    ghost use Rattle.kql_outside.specs.Calls.{CallCounts};

    ghost Value = { CallCounts };

    ghost view = { λ c. record { failed = c.failed; later = c.later } };
}

impl Course {
    // No call was made.
    pub(crate) fn new() -> Course
        ensures { result ≡ record { failed = 0; later = 0 } }
    {
        Course {
            failed: 0,
            later: 0,
        }
    }

    // Whether a call failed.
    pub(crate) fn has_failed(&self) -> bool
        ensures { IsTrue result ↔ (self.now.failed ≢ 0) }
    {
        self.failed != 0
    }

    // A call succeeded.
    pub(crate) fn pass(&mut self)
        ensures { self.new ≡ record { failed = self.old.failed; later = next_count self.old.later } }
    {
        self.later = self.later.saturating_add(1);
    }

    // A call failed.
    pub(crate) fn fail(&mut self)
        ensures calls { self.new ≡ record { failed = next_count self.old.failed; later = 0 } }
        ensures later { self.old.failed ≤ self.new.failed }
    {
        self.failed = self.failed.saturating_add(1);
        self.later = 0;
    }
}
