ghost use Rattle.std.specs.Prelude.{◌≡◌, ◌<◌, ◌≤◌, ◌↔◌, ℕ, List, [], Option, None, length, take, IsTrue, IsSome, IfOk, IfSome, OnErr};
ghost use Rattle.std.specs.Bool.{OnTrue, OnFalse};
ghost use Rattle.kql_outside.specs.Calls.{CallCounts, noted, one_more};
ghost use Rattle.kql_outside.specs.Causes.{HasCause};
ghost use Rattle.kql_outside.specs.Told.{file_of, appended, prepended, reduced};

/// A call of the outside failed. The count of faults of its object rose in that call.
#[derive(Clone, Copy, Debug, PartialEq, Eq)]
pub struct Failed;

/// Files by their path, of which one at a time is read from its front to its end.
///
/// A shelf may tell its files and what is left of the started one, or not. `faults` counts its failed calls; it
/// never falls, and stands still at 18446744073709551615. A shelf may also tell how its calls went, by counts that stand
/// still there too.
pub trait Shelf {
    // The path and the bytes of each file. The first file of a path counts.
    ghost files: { Self → Option (List (List ℕ × List ℕ)) };

    // What is left of the started file, and nothing where none is started.
    ghost rest: { Self → Option (List ℕ) };

    ghost faults: { Self → ℕ };

    // How many calls failed, and how many came after the last that failed.
    ghost calls: { Self → Option CallCounts } = { λ _. None };

    // How many times a file was to be started.
    ghost starts: { Self → Option ℕ } = { λ _. None };

    /// Starts the file of a path at its front. The answer is false where there is no such file, and what was
    /// started before then stays started, as it does after a failure.
    fn start(&mut self, path: &str) -> Result<bool, Failed>
        ensures files { files self.new ≡ files self.old }
        ensures cause { HasCause (faults self.old) (faults self.new) result }
        ensures calls { calls self.new ≡ noted result (calls self.old) }
        ensures starts { starts self.new ≡ one_more (starts self.old) }

        ensures found { IfOk result (λ there. IfSome (files self.old) (λ all.
            IsTrue there ↔ IsSome (file_of all path.now))) }
        ensures started { IfOk result (λ there. OnTrue there (IfSome (files self.old) (λ all.
            rest self.new ≡ file_of all path.now))) }
        ensures missing { IfOk result (λ there. OnFalse there (rest self.new ≡ rest self.old)) }
        ensures kept { OnErr result (rest self.new ≡ rest self.old) };

    /// Reads some of what is left into the front of `buf`, and answers how many bytes: at least one, and 0 at the
    /// end alone. What stands in `buf` behind them is left open.
    fn read(&mut self, buf: &mut [u8]) -> Result<usize, Failed>
        requires { 0 < length buf.old }
        ensures files { files self.new ≡ files self.old }
        ensures cause { HasCause (faults self.old) (faults self.new) result }
        ensures calls { calls self.new ≡ noted result (calls self.old) }
        ensures starts { starts self.new ≡ starts self.old }

        ensures within { IfOk result (λ count. count ≤ length buf.new) }
        ensures bytes { IfOk result (λ count.
            rest self.old ≡ prepended (take count buf.new) (rest self.new)) }
        ensures end { IfOk result (λ count. count ≡ 0 → IfSome (rest self.old) (λ left. left ≡ [])) }
        ensures kept { OnErr result (rest self.new ≡ rest self.old) };
}

/// What takes bytes, in the order in which they are written.
///
/// A sink may tell the bytes that it holds, and how many more it takes before a write may fail, or not. `faults`
/// counts its failed calls; it never falls, and stands still at 18446744073709551615. A sink may also tell how its calls
/// went.
pub trait Sink {
    ghost written: { Self → Option (List ℕ) };

    // No write fails while there is room.
    ghost room: { Self → Option ℕ } = { λ _. None };

    ghost faults: { Self → ℕ };

    // How many calls failed, and how many came after the last that failed.
    ghost calls: { Self → Option CallCounts } = { λ _. None };

    /// Takes some of the bytes from their front, and answers how many: at least one. A call that fails has taken
    /// none.
    fn write(&mut self, bytes: &[u8]) -> Result<usize, Failed>
        requires { 0 < length bytes.now }
        ensures cause { HasCause (faults self.old) (faults self.new) result }
        ensures calls { calls self.new ≡ noted result (calls self.old) }

        ensures some { IfOk result (λ count. 0 < count) }
        ensures within { IfOk result (λ count. count ≤ length bytes.now) }
        ensures bytes { IfOk result (λ count.
            written self.new ≡ appended (written self.old) (take count bytes.now)) }
        ensures room { IfOk result (λ count. room self.new ≡ reduced (room self.old) count) }

        ensures kept { OnErr result (written self.new ≡ written self.old) }
        ensures full { OnErr result (IfSome (room self.old) (λ left. left ≡ 0)) };
}

/// What a worker enters before it works on a piece. It answers nothing, and no result depends on it.
pub trait Gate {
    /// Called by the worker that took this piece of this phase, both counted from 0.
    fn enter(&self, phase: u32, piece: u32);
}
