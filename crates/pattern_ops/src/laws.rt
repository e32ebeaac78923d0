ghost use Rattle.pattern_ops.specs.Ranges.{AnswersJoin, FittingJoins, WholeIsRange};

/// A law, with nothing to run: the answers to ranges of a column, one after another, are the answers to the column.
pub fn law_of_ranges()
    ensures values { AnswersJoin }
    ensures fits { FittingJoins }
    ensures whole { WholeIsRange }
{}
