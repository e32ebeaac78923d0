//! What the answered program means.
ghost use Rattle.pattern_run.specs.LawOfPatterns.{PatternedMeans};

/// Where no pattern is refused, the program that is given means, over the tables that it reads, what the program with the calls means by
/// what their patterns find.
pub fn law_of_answered_calls()
    ensures means { PatternedMeans }
{}
