//! The words that the text of a plan has for types, kinds of join and outputs.
ghost use Rattle.std.specs.Prelude.{◌≡◌};
ghost use Rattle.kql_plan_text.specs.Words.{join_word, kind_word, output_word};

use kql_bound::{JoinKind, Output};
use kql_cells::Kind;

/// The word of a type.
#[tactic(auto, unfolding(crate::specs::Words::kind_word))]
pub(crate) fn kind_word(kind: Kind) -> &'static str
    ensures word { result.now ≡ kind_word kind }
{
    match kind {
        Kind::Bool => "bool",
        Kind::Long => "long",
        Kind::Text => "string",
        Kind::Moment => "datetime",
        Kind::Span => "timespan",
        Kind::Dynamic => "dynamic",
    }
}

/// The word of a kind of join.
#[tactic(auto, unfolding(crate::specs::Words::join_word))]
pub(crate) fn join_word(kind: JoinKind) -> &'static str
    ensures word { result.now ≡ join_word kind }
{
    match kind {
        JoinKind::InnerUnique => "innerunique",
        JoinKind::Inner => "inner",
        JoinKind::LeftOuter => "leftouter",
        JoinKind::RightOuter => "rightouter",
        JoinKind::FullOuter => "fullouter",
        JoinKind::LeftSemi => "leftsemi",
        JoinKind::RightSemi => "rightsemi",
        JoinKind::LeftAnti => "leftanti",
        JoinKind::RightAnti => "rightanti",
    }
}

/// The word of an output.
#[tactic(auto, unfolding(crate::specs::Words::output_word))]
pub(crate) fn output_word(output: Output) -> &'static str
    ensures word { result.now ≡ output_word output }
{
    match output {
        Output::All => "all",
        Output::Last => "last",
        Output::Nothing => "none",
    }
}
