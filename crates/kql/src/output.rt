//! The standard output, and what is told where it could not be written.

use std::io::{ErrorKind, Stdout};
use watched_stream::WatchedStream;

/// The standard output, of which is kept why writing to it failed.
pub(crate) fn watched(rt: &HostRuntime) -> WatchedStream<Stdout> {
    WatchedStream::new(rt.stdout())
}

/// Tells that the output could not be written, where it could not: but for one whose reader went away, as that of a pipe to `head`.
pub(crate) fn tell_fault(rt: &HostRuntime, out: &WatchedStream<Stdout>) {
    if let Some(cause) = out.cause() {
        tell_cause(rt, cause);
    }
}

/// The same for an error of this kind.
pub(crate) fn tell_cause(rt: &HostRuntime, cause: ErrorKind) {
    if cause != ErrorKind::BrokenPipe {
        let _ = rt.eprint("kql: write fault\n");
    }
}
