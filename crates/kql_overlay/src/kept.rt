ghost use Rattle.std.specs.Prelude.{◌≡◌, ◌<◌, ◌++◌, ◌↔◌, ◌≢◌, [], Some, IsTrue, IfOk, OnErr, OnOk, length};
ghost use Rattle.kql_outside.specs.Calls.{after};
ghost use Rattle.kql_outside.specs.Causes.{HasCause};

use crate::course::Course;
use kql_outside::{Failed, Sink};
use std::alloc::Global;

/// A sink that keeps all that is written to it. A write fails for want of memory alone.
#[derive(Debug, Drop)]
pub struct KeptSink {
    bytes: Vec<u8>,
    course: Course,
}

impl KeptSink {
    /// An empty sink.
    pub fn new(alloc: Global) -> KeptSink
        ensures written { ⟦<KeptSink as Sink>⟧.written result ≡ Some [] }
        ensures faults { ⟦<KeptSink as Sink>⟧.faults result ≡ 0 }
        ensures calls { ⟦<KeptSink as Sink>⟧.calls result ≡ Some (record { failed = 0; later = 0 }) }
    {
        KeptSink {
            bytes: Vec::new(alloc),
            course: Course::new(),
        }
    }

    /// The bytes that were written.
    pub fn bytes(&self) -> &[u8]
        ensures bytes { Some result.now ≡ ⟦<KeptSink as Sink>⟧.written self.now }
    {
        self.bytes.as_slice()
    }

    /// Whether a write failed.
    pub fn has_failed(&self) -> bool
        ensures failed { IsTrue result ↔ (⟦<KeptSink as Sink>⟧.faults self.now ≢ 0) }
    {
        self.course.has_failed()
    }
}

impl Sink for KeptSink {
    ghost use Rattle.std.specs.Prelude.{Some};

    ghost written = { λ s. Some s.bytes.items };

    ghost faults = { λ s. s.course.failed };

    ghost calls = { λ s. Some s.course };

    fn write(&mut self, bytes: &[u8]) -> Result<usize, Failed>
        requires { 0 < length bytes.now }
        ensures all { IfOk result (λ count. count ≡ length bytes.now) }
        ensures bytes { OnOk result (self.new.bytes.items ≡ self.old.bytes.items ++ bytes.now) }
        ensures kept { OnErr result (self.new.bytes.items ≡ self.old.bytes.items) }
        ensures calls { self.new.course ≡ after result self.old.course }
        ensures cause { HasCause self.old.course.failed self.new.course.failed result }
    {
        match self.bytes.extend_from_slice(bytes) {
            Ok(()) => {
                self.course.pass();
                Ok(bytes.len())
            }
            Err(_) => {
                self.course.fail();
                Err(Failed)
            }
        }
    }
}
