//! Worked examples, each the contract of a function that does nothing.
//!
//! What is bound, and what is expected, stands in `specs/Examples.antt`. The checker computes the definitions.
ghost use Rattle.bind_query_examples.specs.Examples.{Assignments, AwayWithAll, ConstantIsNoTable, DistinctStarOfDynamic, DistinctTwice, JoinInside, JoinOfFault, JoinOnConstant, JoinOnDynamic, JoinOnKey, JoinOnMissing, JoinOnTwoTypes, KeepMissing, LetTwice, NamesTwice, NoTable, PartitionCounts, PartitionInside, RangeStands, RangeTooLong, RenameOnto, RenameTwice, ScanFaults, SixtyFiveSteps, SixtyFourSteps, TableStands, TakeNegative, TakeNull, TakeThree, UnionOfNothing, UnionOfTwoTypes};

/// A table by its name, and names that no table has, or a constant.
#[tactic(auto, using(crate::proofs::ExamplesOfOperators::table_examples))]
pub fn example_of_tables()
    ensures stands { TableStands }
    ensures none { NoTable }
    ensures constant { ConstantIsNoTable }
{}

/// Joins on a key, on names that are no column of both sides, on keys of two types, and in a subquery.
#[tactic(auto, using(crate::proofs::ExamplesOfOperators::join_examples))]
pub fn example_of_joins()
    ensures key { JoinOnKey }
    ensures missing { JoinOnMissing }
    ensures constant { JoinOnConstant }
    ensures types { JoinOnTwoTypes }
    ensures dynamic { JoinOnDynamic }
    ensures inside { JoinInside }
    ensures fault { JoinOfFault }
{}

/// Unions of tables that give a column two types, and of tables without a column in common.
#[tactic(auto, using(crate::proofs::ExamplesOfOperators::union_examples))]
pub fn example_of_unions()
    ensures types { UnionOfTwoTypes }
    ensures nothing { UnionOfNothing }
{}

/// A partition, and one inside another.
#[tactic(auto, using(crate::proofs::ExamplesOfOperators::partition_examples))]
pub fn example_of_partitions()
    ensures counts { PartitionCounts }
    ensures inside { PartitionInside }
{}

/// Columns that stay, that are renamed, and that are named twice.
#[tactic(auto, using(crate::proofs::ExamplesOfOperators::column_examples))]
pub fn example_of_columns()
    ensures none { AwayWithAll }
    ensures missing { KeepMissing }
    ensures twice { RenameTwice }
    ensures onto { RenameOnto }
    ensures distinct { DistinctTwice }
    ensures dynamic { DistinctStarOfDynamic }
{}

/// Counts of rows, and the longest range.
#[tactic(auto, using(crate::proofs::ExamplesOfOperators::count_examples))]
pub fn example_of_counts()
    ensures three { TakeThree }
    ensures null { TakeNull }
    ensures negative { TakeNegative }
    ensures range { RangeStands }
    ensures long { RangeTooLong }
{}

/// The faults of steps, of their assignments, and of names that stand twice.
#[tactic(auto, using(crate::proofs::ExamplesOfOperators::step_examples))]
pub fn example_of_steps()
    ensures order { ScanFaults }
    ensures most { SixtyFourSteps }
    ensures many { SixtyFiveSteps }
    ensures assignments { Assignments }
    ensures names { NamesTwice }
    ensures lets { LetTwice }
{}
