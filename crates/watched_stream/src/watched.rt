//! A stream that keeps why a write to it failed.
ghost use Rattle.std.specs.Prelude.{◌≡◌, None};
ghost use Rattle.std.specs.Io.{WritesAtMost};
ghost use Rattle.std.specs.Io.KnownBytes.{Keeps, WriteAppends};
ghost use Rattle.watched_stream.specs.Causes.{cause_of, flushed, stream_of, wrote};

use std::io;
use std::io::{ErrorKind, Write};

/// A stream, and the kind of the error with which a write to it failed, where one did: of the latest.
#[derive(Drop)]
pub struct WatchedStream<W: Write> {
    inner: W,
    cause: Option<ErrorKind>,
}

impl<W: Write> WatchedStream<W> {
    /// A stream of which no write has failed.
    pub fn new(inner: W) -> WatchedStream<W>
        ensures stream { stream_of result ≡ inner }
        ensures cause { cause_of result ≡ None }
    {
        WatchedStream { inner, cause: None }
    }

    /// Why the latest write that failed did so; none where none failed.
    pub fn cause(&self) -> Option<ErrorKind>
        ensures cause { result ≡ cause_of self.now }
    {
        self.cause
    }
}

impl<W: Write> Write for WatchedStream<W> {
    ghost contents = { λ w. W.contents (stream_of w) };

    /// Writes to the stream. That it takes nothing of some bytes is a failure too, `WriteZero`.
    fn write(&mut self, buf: &[u8]) -> io::Result<usize>
        ensures bound { WritesAtMost result buf.now }
        ensures bytes { WriteAppends (W.contents (stream_of self.old)) (W.contents (stream_of self.new)) result buf.now }
        ensures cause { cause_of self.new ≡ wrote buf.now result (cause_of self.old) }
    {
        let result = self.inner.write(buf);
        match &result {
            Ok(count) => {
                if *count == 0 && !buf.is_empty() {
                    self.cause = Some(ErrorKind::WriteZero);
                }
            }
            Err(error) => self.cause = Some(error.kind()),
        }
        result
    }

    fn flush(&mut self) -> io::Result<()>
        ensures bytes { Keeps (W.contents (stream_of self.old)) (W.contents (stream_of self.new)) }
        ensures cause { cause_of self.new ≡ flushed result (cause_of self.old) }
    {
        let result = self.inner.flush();
        if let Err(error) = &result {
            self.cause = Some(error.kind());
        }
        result
    }
}
