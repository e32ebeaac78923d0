//! Shelves and sinks in memory, of which the calls of given numbers fail.
ghost use Rattle.std.specs.Prelude.{◌≡◌, ◌<◌, ◌≤◌, ◌↔◌, ◌⊎◌, ◌++◌, [], length, take, map, min, Contains, IsTrue, IsSome, IsErr, IfOk, OnErr, is_err, if◌then◌else◌};
ghost use Rattle.std.specs.Bool.{OnTrue, OnFalse};
ghost use Rattle.kql_outside.specs.Calls.{after, noted};
ghost use Rattle.kql_outside.specs.Causes.{HasCause, next_count};
ghost use Rattle.kql_outside.specs.Told.{file_of};
ghost use Rattle.kql_outside.specs.Memory.{path_and_bytes, room_left, NextFails, after_call};

use crate::clean::{CleanShelf, CleanSink};
use crate::counts::Course;
use crate::outside::{Failed, Shelf, Sink};
use std::alloc::{AllocError, Global};
use std::marker::Model;

// The numbers of the calls that fail, from 0, and how many calls there were.
#[derive(Debug, Drop)]
struct Calls {
    failing: Vec<u64>,
    made: u64,
}

impl Model for Calls {
    ghost use Rattle.kql_outside.specs.Memory.{CallState};

    ghost Value = { CallState };

    ghost view = { λ c. record { failing = c.failing.items; made = c.made } };
}

impl Calls {
    fn new(failing: Vec<u64>) -> Calls
        ensures { result ≡ record { failing = failing.items; made = 0 } }
    {
        Calls { failing, made: 0 }
    }

    // Counts a call, and tells whether it is one of those that fail.
    fn next_fails(&mut self) -> bool
        ensures fails { IsTrue result ↔ NextFails self.old }
        ensures calls { self.new ≡ after_call self.old }
    {
        let number = self.made;
        self.made = number.saturating_add(1);
        self.failing.contains(&number)
    }
}

/// Files in memory, as a `CleanShelf` has them. The calls of the given numbers fail: `start` and `read` are
/// counted together, from 0.
#[derive(Debug, Drop)]
pub struct MemShelf {
    shelf: CleanShelf,
    calls: Calls,
    course: Course,
    starts: u64,
}

impl Model for MemShelf {
    ghost use Rattle.kql_outside.specs.Memory.{MemShelfState};

    ghost Value = { MemShelfState };

    ghost view = { λ s. record {
      shelf = s.shelf;
      calls = s.calls;
      count = s.course.failed;
      course = s.course;
      starts = s.starts;
    } };
}

impl MemShelf {
    /// A shelf of these files, of which none is started. The first file of a path counts.
    pub fn new(files: Vec<(String, Vec<u8>)>, failing: Vec<u64>) -> MemShelf
        ensures files { result.shelf.files ≡ map path_and_bytes files.items }
        ensures rest { result.shelf.rest ≡ [] }
        ensures calls { result.calls ≡ record { failing = failing.items; made = 0 } }
        ensures count { result.count ≡ 0 }
        ensures course { result.course ≡ record { failed = 0; later = 0 } }
        ensures starts { result.starts ≡ 0 }
    {
        MemShelf {
            shelf: CleanShelf::new(files),
            calls: Calls::new(failing),
            course: Course::new(),
            starts: 0,
        }
    }
}

impl Shelf for MemShelf {
    ghost use Rattle.std.specs.Prelude.{Some};

    ghost files = { λ s. Some s.shelf.files };

    ghost rest = { λ s. Some s.shelf.rest };

    ghost faults = { λ s. s.count };

    ghost calls = { λ s. Some s.course };

    ghost starts = { λ s. Some s.starts };

    fn start(&mut self, path: &str) -> Result<bool, Failed>
        ensures fails { IsErr result ↔ NextFails self.old.calls }
        ensures calls { self.new.calls ≡ after_call self.old.calls }
        ensures count { self.new.count
            ≡ (if is_err result then next_count self.old.count else self.old.count) }
        ensures course { self.new.course ≡ after result self.old.course }
        ensures starts { self.new.starts ≡ next_count self.old.starts }
        ensures files { self.new.shelf.files ≡ self.old.shelf.files }

        ensures found { IfOk result (λ there.
            IsTrue there ↔ IsSome (file_of self.old.shelf.files path.now)) }
        ensures started { IfOk result (λ there.
            OnTrue there (Some self.new.shelf.rest ≡ file_of self.old.shelf.files path.now)) }
        ensures missing { IfOk result (λ there.
            OnFalse there (self.new.shelf.rest ≡ self.old.shelf.rest)) }

        ensures kept { OnErr result (self.new.shelf ≡ self.old.shelf) }
        ensures cause { HasCause self.old.count self.new.count result }
    {
        self.starts = self.starts.saturating_add(1);
        if self.calls.next_fails() {
            return Err(self.course.fail());
        }
        self.course.pass();
        self.shelf.start(path)
    }

    fn read(&mut self, buf: &mut [u8]) -> Result<usize, Failed>
        requires { 0 < length buf.old }
        ensures fails { IsErr result ↔ NextFails self.old.calls }
        ensures calls { self.new.calls ≡ after_call self.old.calls }
        ensures count { self.new.count
            ≡ (if is_err result then next_count self.old.count else self.old.count) }
        ensures course { self.new.course ≡ after result self.old.course }
        ensures starts { self.new.starts ≡ self.old.starts }
        ensures files { self.new.shelf.files ≡ self.old.shelf.files }

        ensures within { IfOk result (λ count. count ≤ length buf.new) }
        ensures gives { IfOk result (λ count.
            count ≡ min (length self.old.shelf.rest) (length buf.old)) }
        ensures bytes { IfOk result (λ count.
            self.old.shelf.rest ≡ take count buf.new ++ self.new.shelf.rest) }

        ensures kept { OnErr result (self.new.shelf ≡ self.old.shelf) }
        ensures cause { HasCause self.old.count self.new.count result }
    {
        if self.calls.next_fails() {
            return Err(self.course.fail());
        }
        self.course.pass();
        self.shelf.read(buf)
    }
}

/// A sink in memory, as a `CleanSink` is. The calls of the given numbers, from 0, fail too.
#[derive(Debug, Drop)]
pub struct MemSink {
    sink: CleanSink,
    calls: Calls,
    course: Course,
}

impl Model for MemSink {
    ghost use Rattle.kql_outside.specs.Memory.{MemSinkState};

    ghost Value = { MemSinkState };

    ghost view = { λ s. record { sink = s.sink; calls = s.calls; course = s.course } };
}

impl MemSink {
    /// An empty sink. Its memory, for `room` bytes, is taken here, and none by a write.
    pub fn new(
        alloc: Global,
        chunk: usize,
        room: usize,
        failing: Vec<u64>,
    ) -> Result<MemSink, AllocError>
        requires { 0 < chunk }
        ensures sink { IfOk result (λ s.
            s.sink ≡ record { bytes = []; chunk = chunk; room = room; count = 0 }) }
        ensures calls { IfOk result (λ s.
            s.calls ≡ record { failing = failing.items; made = 0 }) }
        ensures course { IfOk result (λ s.
            s.course ≡ record { failed = 0; later = 0 }) }
    {
        Ok(MemSink {
            sink: CleanSink::new(alloc, chunk, room)?,
            calls: Calls::new(failing),
            course: Course::new(),
        })
    }

    /// The bytes that were written.
    pub fn bytes(&self) -> &[u8]
        ensures { result.now ≡ self.now.sink.bytes }
    {
        self.sink.bytes()
    }
}

impl Sink for MemSink {
    ghost use Rattle.std.specs.Prelude.{Some};

    ghost written = { λ s. Some s.sink.bytes };

    ghost faults = { λ s. s.sink.count };

    ghost calls = { λ s. Some s.course };

    fn write(&mut self, bytes: &[u8]) -> Result<usize, Failed>
        requires { 0 < length bytes.now }
        ensures fails { IsErr result ↔ (NextFails self.old.calls ⊎ (room_left self.old.sink ≡ 0)) }
        ensures calls { self.new.calls ≡ after_call self.old.calls }
        ensures takes { IfOk result (λ count.
            count ≡ min (length bytes.now) (min self.old.sink.chunk (room_left self.old.sink))) }
        ensures ok { IfOk result (λ count.
            self.new.sink ≡ record self.old.sink { bytes = self.old.sink.bytes ++ take count bytes.now }) }
        ensures err { OnErr result
            (self.new.sink ≡ record self.old.sink { count = next_count self.old.sink.count }) }
        ensures course { self.new.course ≡ after result self.old.course }

        ensures some { IfOk result (λ count. 0 < count) }
        ensures cause { HasCause self.old.sink.count self.new.sink.count result }
    {
        if self.calls.next_fails() {
            self.course.fail();
            return Err(self.sink.fail());
        }
        match self.sink.write(bytes) {
            Ok(count) => {
                self.course.pass();
                Ok(count)
            }
            Err(failed) => {
                self.course.fail();
                Err(failed)
            }
        }
    }
}
