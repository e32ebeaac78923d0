//! Why a program's pattern calls are not answered.

use kql_lexer::Place;
use std::alloc::AllocError;

/// Why a program's pattern calls are not answered.
#[derive(Clone, Copy, Debug, PartialEq, Eq)]
pub enum PatternFault {
    /// A call may not stand at this word, or it is the 257th.
    PatternHere(Place),
    /// The maker refused the pattern at this literal, and counted that.
    BadPattern(Place),
    OutOfMemory,
}

impl From<AllocError> for PatternFault {
    ghost use Rattle.std.specs.Prelude.{◌≡◌};
    ghost use Rattle.pattern_run.specs.declared.fault.PatternFault.TheVariants as fault;

    ghost from_gives = { λ _ e. e ≡ fault.OutOfMemory };

    fn from(_error: AllocError) -> PatternFault {
        PatternFault::OutOfMemory
    }
}
