//! The files and the streams of the system. What they hold is not told.
ghost use Rattle.std.specs.Prelude.{◌≡◌, ◌<◌, ◌≤◌, length, take, None, Some, IsSome, IfOk, OnErr};
ghost use Rattle.std.specs.Bool.{OnTrue, OnFalse};
ghost use Rattle.std.specs.Io.KnownBytes.{Appends, Keeps};
ghost use Rattle.kql_outside.specs.Calls.{noted, one_more};
ghost use Rattle.kql_outside.specs.Causes.{HasCause};
ghost use Rattle.kql_outside.specs.System.{stream_of, started_file, Reads};

use crate::counts::Course;
use crate::outside::{Failed, Shelf, Sink};
use std::fs;
use std::io::{ErrorKind, Read, Write};
use std::rt::Files;

/// The files of a runtime, by their paths in it.
///
/// There is no file where the path or a folder on its way is missing. Another refusal to open it is a fault, and
/// so is every refusal to read, as of a folder.
#[derive(Drop)]
pub struct DirShelf<R: Files> {
    rt: R,
    file: Option<R::File>,
    course: Course,
    starts: u64,
}

impl<R: Files> DirShelf<R> {
    /// A shelf of which no file is started.
    pub fn new(rt: R) -> DirShelf<R>
        ensures started { started_file result ≡ None }
        ensures count { ⟦<DirShelf<R> as Shelf>⟧.faults result ≡ 0 }
        ensures calls { ⟦<DirShelf<R> as Shelf>⟧.calls result ≡ Some (record { failed = 0; later = 0 }) }
        ensures starts { ⟦<DirShelf<R> as Shelf>⟧.starts result ≡ Some 0 }
    {
        DirShelf {
            rt,
            file: None,
            course: Course::new(),
            starts: 0,
        }
    }
}

impl<R: Files> Shelf for DirShelf<R> {
    ghost use Rattle.std.specs.Prelude.{None, Some};

    ghost files = { λ _. None };

    ghost rest = { λ _. None };

    ghost faults = { λ s. s.course.failed };

    ghost calls = { λ s. Some s.course };

    ghost starts = { λ s. Some s.starts };

    fn start(&mut self, path: &str) -> Result<bool, Failed>
        ensures started { IfOk result (λ there. OnTrue there (IsSome (started_file self.new))) }
        ensures missing { IfOk result (λ there. OnFalse there (started_file self.new ≡ started_file self.old)) }
        ensures kept { OnErr result (started_file self.new ≡ started_file self.old) }
        ensures cause { HasCause (⟦<DirShelf<R> as Shelf>⟧.faults self.old)
            (⟦<DirShelf<R> as Shelf>⟧.faults self.new) result }
        ensures calls { ⟦<DirShelf<R> as Shelf>⟧.calls self.new
            ≡ noted result (⟦<DirShelf<R> as Shelf>⟧.calls self.old) }
        ensures starts { ⟦<DirShelf<R> as Shelf>⟧.starts self.new
            ≡ one_more (⟦<DirShelf<R> as Shelf>⟧.starts self.old) }
    {
        self.starts = self.starts.saturating_add(1);
        match fs::open(&self.rt, path) {
            Ok(file) => {
                self.file = Some(file);
                self.course.pass();
                Ok(true)
            }
            Err(error) => match error.kind() {
                ErrorKind::NotFound | ErrorKind::NotADirectory => {
                    self.course.pass();
                    Ok(false)
                }
                _ => Err(self.course.fail()),
            },
        }
    }

    fn read(&mut self, buf: &mut [u8]) -> Result<usize, Failed>
        requires { 0 < length buf.old }
        ensures passed { Reads R.File.remaining (started_file self.old) (started_file self.new) result buf.new }
        ensures within { IfOk result (λ count. count ≤ length buf.new) }
        ensures cause { HasCause (⟦<DirShelf<R> as Shelf>⟧.faults self.old)
            (⟦<DirShelf<R> as Shelf>⟧.faults self.new) result }
        ensures calls { ⟦<DirShelf<R> as Shelf>⟧.calls self.new
            ≡ noted result (⟦<DirShelf<R> as Shelf>⟧.calls self.old) }
        ensures starts { ⟦<DirShelf<R> as Shelf>⟧.starts self.new ≡ ⟦<DirShelf<R> as Shelf>⟧.starts self.old }
    {
        let Some(file) = &mut self.file else {
            self.course.pass();
            return Ok(0);
        };
        match file.read(buf) {
            Ok(count) => {
                self.course.pass();
                Ok(count)
            }
            Err(_) => Err(self.course.fail()),
        }
    }
}

/// A stream as a sink. A write that the stream refuses, or of which it takes nothing, is a fault.
#[derive(Drop)]
pub struct StreamSink<W: Write> {
    inner: W,
    course: Course,
}

impl<W: Write> StreamSink<W> {
    /// A sink that writes to this stream.
    pub fn new(inner: W) -> StreamSink<W>
        ensures stream { stream_of result ≡ inner }
        ensures count { ⟦<StreamSink<W> as Sink>⟧.faults result ≡ 0 }
        ensures calls { ⟦<StreamSink<W> as Sink>⟧.calls result ≡ Some (record { failed = 0; later = 0 }) }
    {
        StreamSink {
            inner,
            course: Course::new(),
        }
    }
}

impl<W: Write> Sink for StreamSink<W> {
    ghost use Rattle.std.specs.Prelude.{None, Some};

    ghost written = { λ _. None };

    ghost faults = { λ s. s.course.failed };

    ghost calls = { λ s. Some s.course };

    fn write(&mut self, bytes: &[u8]) -> Result<usize, Failed>
        requires { 0 < length bytes.now }
        // What the sink took is what the stream got, and a write that failed left it as it was.
        ensures passed { IfOk result (λ count.
            Appends (W.contents (stream_of self.old)) (W.contents (stream_of self.new))
            (take count bytes.now)) }
        ensures kept { OnErr result
            (Keeps (W.contents (stream_of self.old)) (W.contents (stream_of self.new))) }

        ensures some { IfOk result (λ count. 0 < count) }
        ensures within { IfOk result (λ count. count ≤ length bytes.now) }
        ensures cause { HasCause (⟦<StreamSink<W> as Sink>⟧.faults self.old)
            (⟦<StreamSink<W> as Sink>⟧.faults self.new) result }
        ensures calls { ⟦<StreamSink<W> as Sink>⟧.calls self.new
            ≡ noted result (⟦<StreamSink<W> as Sink>⟧.calls self.old) }
    {
        match self.inner.write(bytes) {
            Ok(count) if count > 0 => {
                self.course.pass();
                Ok(count)
            }
            _ => Err(self.course.fail()),
        }
    }
}
