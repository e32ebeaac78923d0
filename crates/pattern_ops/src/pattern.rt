ghost use Rattle.std.specs.Prelude.{◌≡◌, ◌≤◌, ℕ, Err, List, Option, Some, length, slice_range, IfOk};
ghost use Rattle.pattern_search.specs.declared.span.Span.{Span};
ghost use Rattle.pattern_ops.specs.Answers.{AreAnswers, FitAnswers};
ghost use Rattle.pattern_ops.specs.Makers.{count_after};
ghost use Rattle.pattern_ops.specs.declared.pattern.MakeFault.TheVariants.{Failed};

use kql_values::Vector;
use std::alloc::{AllocError, Global};

/// A pattern that was made. It does not change.
pub trait Pattern {
    // What it finds in a text: no match, or the span of each group, that of the match first.
    ghost finds: { Self → List ℕ → Option (List (Option Span)) };

    /// What it answers to each cell of a column of texts, from a place to another: whether it is found, or the text of a
    /// group of the first match, which is empty without a match, without such a group, and where the group took no part.
    ///
    /// A cell that shows no text counts as the empty one. Each call searches by itself, so that threads may share the pattern.
    fn answers(
        &self,
        alloc: Global,
        cells: &Vector,
        from: usize,
        to: usize,
        group: Option<u32>,
    ) -> Result<Vector, AllocError>
        requires order { from ≤ to }
        requires within { to ≤ length cells.now }
        ensures values { IfOk result (AreAnswers (Some (finds self.now)) group (slice_range cells.now from to)) }
        ensures fits { IfOk result (FitAnswers group (slice_range cells.now from to)) };
}

/// Why no pattern was made.
#[derive(Clone, Copy, Debug, PartialEq, Eq)]
pub enum MakeFault {
    /// The maker refused the text, and counted that.
    Failed,
    OutOfMemory,
}

impl From<AllocError> for MakeFault {
    ghost use Rattle.std.specs.Prelude.{◌≡◌};
    ghost use Rattle.pattern_ops.specs.declared.pattern.MakeFault.TheVariants.{OutOfMemory};

    ghost from_gives = { λ _ fault. fault ≡ OutOfMemory };

    fn from(_: AllocError) -> MakeFault {
        MakeFault::OutOfMemory
    }
}

/// Makes patterns of their texts.
///
/// It tells what its patterns find, of which texts it may make one and which it may refuse. `faults` counts the texts that it refused, and
/// stands still at 18446744073709551615.
pub trait PatternMaker {
    type Made: Pattern + Drop + Sync;

    // What the pattern of a text finds in another.
    ghost found: { Self → List ℕ → List ℕ → Option (List (Option Span)) };

    ghost faults: { Self → ℕ };

    // The texts of which a pattern may be made.
    ghost makes: { List ℕ → Type 0 };

    // Those that may be refused.
    ghost refuses: { List ℕ → Type 0 };

    fn make(&mut self, text: &str) -> Result<Self::Made, MakeFault>
        ensures found { found self.new ≡ found self.old }
        ensures counted { faults self.new ≡ count_after result (faults self.old) }
        ensures made { IfOk result (λ made.
            Self.Made.finds made ≡ found self.old text.now) }
        ensures accepted { IfOk result (λ _. makes text.now) }
        ensures refused { result ≡ Err Failed → refuses text.now };
}
