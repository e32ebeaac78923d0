//! The laws.
ghost use Rattle.kql_meaning.specs.LawsOfRows.{PlainOfGathered};
ghost use Rattle.kql_row_laws.specs.LawsOfGathered.{AggregateArgumentsArePlain, ArgumentsOfGathered, ValuesOfGathered, ValuesWhereOfGathered};

/// The value of an expression without window functions and aggregates does not depend on the table but on its row: at row k of
/// gathered rows it is the value at that row's place in the table. So its values at all of them, and at those at which a condition is
/// true, are its values at these places.
#[tactic(auto, using(kql_meaning::proofs::RowByRowLaws::row_by_row_laws, crate::proofs::GatheredLaws::gathered_laws))]
pub fn law_of_gathered_rows()
    ensures value { PlainOfGathered }
    ensures values { ValuesOfGathered }
    ensures values_where { ValuesWhereOfGathered }
    ensures arguments { ArgumentsOfGathered }
{}

/// In the arguments of an aggregate that fits stand neither aggregates nor window functions.
#[tactic(auto, using(crate::proofs::GatheredLaws::argument_laws))]
pub fn law_of_arguments()
    ensures plain { AggregateArgumentsArePlain }
{}
