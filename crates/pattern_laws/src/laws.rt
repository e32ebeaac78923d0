//! The laws.
ghost use Rattle.pattern_laws.specs.AddedColumns.{NoneIsAdded, OneIsAdded};
ghost use Rattle.pattern_laws.specs.LawsOfExpressions.{LiftedReads, ReadableWhereFits};
ghost use Rattle.pattern_laws.specs.LawsOfFitting.{LiftedFits, LiftedFitsTables};
ghost use Rattle.pattern_laws.specs.LawsOfMarks.{MarksAreBeyond};
ghost use Rattle.pattern_laws.specs.LawsOfPrograms.{LiftedMeans, StaysWithoutCalls};
ghost use Rattle.pattern_laws.specs.Tested.{TestedFits, TestedIsLiftable};

/// Over a table with the answers of its calls beside, a lifted expression has the type of the expression, and at each row the value that
/// it has by what is told. What fits where window functions may stand, over columns without the marks, can be lifted.
pub fn law_of_lifted_expressions()
    ensures reads { LiftedReads }
    ensures readable { ReadableWhereFits }
{}

/// The lifted program, over the catalogue and the derived tables, means what the program means by what is told. Without calls it is the
/// program itself.
pub fn law_of_lifting()
    ensures means { LiftedMeans }
    ensures stays { StaysWithoutCalls }
{}

/// No name of which the marks were made begins with them.
#[tactic(auto, using(crate::proofs::MarkLaws::mark_laws))]
pub fn law_of_marks()
    ensures beyond { MarksAreBeyond }
{}

/// The lifted program fits the schemas of its tables and of the derived ones, and has the columns that the program has.
pub fn law_of_lifted_programs()
    ensures fits { LiftedFits }
    ensures tables { LiftedFitsTables }
{}

/// A program that passes the test can be lifted, over a catalogue with its tables, and the lifted program fits where it fits.
pub fn law_of_the_test()
    ensures liftable { TestedIsLiftable }
    ensures fits { TestedFits }
{}

/// A derived table has the columns of its table, and behind them one for each call, with what is told of each value that the call reads.
pub fn law_of_added_columns()
    ensures none { NoneIsAdded }
    ensures more { OneIsAdded }
{}
