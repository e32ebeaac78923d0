//! Worked examples: what the definitions make of small tables, each the contract of a function that does nothing.
//!
//! The tables and what is expected of them are in `specs/Examples.antt`. The checker computes the definitions.
ghost use Rattle.kql_meaning_examples.specs.Examples.{ExpandBag, ExpandBagAsArrays, ExpandBoth, ExpandColumns, ExpandInPlaceToLong, ExpandToLong, ExtendNext, ExtendRowNumbers, ExtendWindows, JoinAntis, JoinColumns, JoinFullOuter, JoinInner, JoinInnerUnique, JoinLeftOuter, JoinRightOuter, JoinSemis, LookupColumns, LookupRows, ParseMessage, ParseMessageRelaxed, ParseNumber, ParseRelaxed, ParseSimple, PartitionCounts, PartitionTakesFirsts, RangeTerms, ScanColumns, ScanLastAtEnd, ScanLastOfBoth, ScanLastOfFirst, ScanLastOfSecond, ScanNoneOfFirst, ScanNoneOfSecond, ScanTwoSteps, SeriesColumns, SeriesOfSums, SortAscending, SortDescending, SortNullsFirst, SummarizeByGroup, SummarizeExactly, SummarizeGreatest, SummarizeNothing, TopTwo, UnionInner, UnionOuter, WhereNotOne, WhereNull, WindowColumns};

/// The nine kinds of joins, and a lookup, of two tables in which a null stands on both sides and a key twice.
#[tactic(auto, using(crate::proofs::ExamplesOfJoins::join_examples))]
pub fn example_of_joins()
    ensures inner { JoinInner }
    ensures innerunique { JoinInnerUnique }
    ensures leftouter { JoinLeftOuter }
    ensures rightouter { JoinRightOuter }
    ensures fullouter { JoinFullOuter }
    ensures semi { JoinSemis }
    ensures anti { JoinAntis }
    ensures columns { JoinColumns }
    ensures lookup_columns { LookupColumns }
    ensures lookup_rows { LookupRows }
{}

/// The subqueries of a partition, in which null is a key.
#[tactic(auto, using(crate::proofs::ExamplesOfTables::table_examples))]
pub fn example_of_partition()
    ensures firsts { PartitionTakesFirsts }
    ensures counts { PartitionCounts }
{}

/// A union of two tables that share one column, of both kinds.
#[tactic(auto, using(crate::proofs::ExamplesOfTables::table_examples))]
pub fn example_of_union()
    ensures outer { UnionOuter }
    ensures inner { UnionInner }
{}

/// The numbers of `range x from 1 to 5 step 2`.
#[tactic(auto, using(crate::proofs::ExamplesOfTables::table_examples))]
pub fn example_of_range()
    ensures terms { RangeTerms }
{}

/// The cuts of `id=x id=42 end` in both kinds, and with a number before `*`; and the whole table.
#[tactic(auto, using(crate::proofs::ExamplesOfTables::table_examples))]
pub fn example_of_parse()
    ensures simple { ParseSimple }
    ensures relaxed { ParseRelaxed }
    ensures number { ParseNumber }
    ensures whole { ParseMessage }
    ensures whole_relaxed { ParseMessageRelaxed }
{}

/// A sort in both directions, with nulls at either end, and `top`.
#[tactic(auto, using(crate::proofs::ExamplesOfTables::table_examples))]
pub fn example_of_sort()
    ensures ascending { SortAscending }
    ensures descending { SortDescending }
    ensures nulls_first { SortNullsFirst }
    ensures top { TopTwo }
{}

/// A comparison with a null, and one of a null.
#[tactic(auto, using(crate::proofs::ExamplesOfValues::value_examples))]
pub fn example_of_where()
    ensures not_equal { WhereNotOne }
    ensures null { WhereNull }
{}

/// A running sum that begins again with each group, and a look at the row before.
#[tactic(auto, using(crate::proofs::ExamplesOfValues::value_examples))]
pub fn example_of_windows()
    ensures rows { ExtendWindows }
    ensures columns { WindowColumns }
{}

/// A look at the rows behind, also past the end, and the numbers of rows.
#[tactic(auto, using(crate::proofs::ExamplesOfWindows::window_examples))]
pub fn example_of_next_and_row_number()
    ensures next { ExtendNext }
    ensures row_number { ExtendRowNumbers }
{}

/// Counts and sums by group, an exact sum that passes the greatest long on its way, a sum of nothing, and the row of the greatest value.
#[tactic(auto, using(crate::proofs::ExamplesOfValues::value_examples))]
pub fn example_of_summarize()
    ensures groups { SummarizeByGroup }
    ensures exact { SummarizeExactly }
    ensures nothing { SummarizeNothing }
    ensures greatest { SummarizeGreatest }
{}

/// A scan of two steps in which one row goes on with one sequence and begins another.
#[tactic(auto, using(crate::proofs::ExamplesOfScan::scan_examples))]
pub fn example_of_scan()
    ensures rows { ScanTwoSteps }
    ensures columns { ScanColumns }
{}

/// Steps that emit the record that they hold last, and steps that emit nothing.
#[tactic(auto, using(crate::proofs::ExamplesOfOutputs::output_examples))]
pub fn example_of_scan_outputs()
    ensures last_of_first { ScanLastOfFirst }
    ensures last_of_second { ScanLastOfSecond }
    ensures last_of_both { ScanLastOfBoth }
    ensures last_at_end { ScanLastAtEnd }
    ensures none_of_first { ScanNoneOfFirst }
    ensures none_of_second { ScanNoneOfSecond }
{}

/// Two lists of different lengths side by side, empty ones, and a null beside a number; the entries of a bag; and parts that are
/// converted to longs, in a column of their own or in the place of their list.
#[tactic(auto, using(crate::proofs::ExamplesOfParts::part_examples))]
pub fn example_of_expansion()
    ensures rows { ExpandBoth }
    ensures columns { ExpandColumns }
    ensures bag { ExpandBag }
    ensures bag_as_arrays { ExpandBagAsArrays }
    ensures converted { ExpandToLong }
    ensures converted_in_place { ExpandInPlaceToLong }
{}

/// Sums in bins by group, where a row behind the last bin is left out.
#[tactic(auto, using(crate::proofs::ExamplesOfParts::part_examples))]
pub fn example_of_series()
    ensures rows { SeriesOfSums }
    ensures columns { SeriesColumns }
{}
