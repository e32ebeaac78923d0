//! Laws of the definitions, each the contract of a function that does nothing.
ghost use Rattle.kql_meaning.specs.Laws.{AllKeysMatch, EachHasItsFirst, FirstKeyDecides, FirstsDiffer, InnerIsOfPairs, InnerUniqueIsInner, KeysInDirection, KeysMatch, LeastCutIsLeast, LeftHasMatch, LeftOuterIsInnerAndMore, NoCutWhereNone, NoGroupWithoutRows, NullsAtTheirEnd, OneRowWithoutKeys, PairsInOrder, PairsMatch, PartitionOfNoRows, PartitionOfOneKey, PartitionRowsOfOneKey, PiecesAreTheText, RightHasMatch, RowForEachKey, ScanOfNoRows, SortIsStable, SortIsTheOne, SortOrders, SortRearranges, TopIsFirstOfSorted};
ghost use Rattle.kql_meaning.specs.LawsOfChoices.{GreatestIsOfRow, GreatestRowIsFirst, LeastIsOfRow, LeastRowIsFirst};
ghost use Rattle.kql_meaning.specs.LawsOfGroups.{GroupHasItsRows, GroupIsOfPlaces, GroupKeepsOrder, KeysAreOfRows, KeysByFirstRow, KeysDiffer, RowInOneGroup, RunBegins};
ghost use Rattle.kql_meaning.specs.LawsOfJoins.{FullOuterIsLeftOuterAndMore, LeftMatchedHaveMatch, MatchedRise, RightMatchedHaveMatch, RightOuterIsPairsAndMore, RightPairsInOrder, RightPairsMatch, SemiAndAntiAreAll, SemiGivesMatched};
ghost use Rattle.kql_meaning.specs.LawsOfNames.{BothNamesDiffer, NameIsFirstFree, NameIsFree, RightKindsStay};
ghost use Rattle.kql_meaning.specs.LawsOfNothing.{AbsentWithoutRow, AggregatesOfNothing};
ghost use Rattle.kql_meaning.specs.LawsOfNumbers.{FallsBetween, InsideInOneBin, TermsAreThose, TermsRise};
ghost use Rattle.kql_meaning.specs.LawsOfRows.{ExpandTakesEachRow, ExtendOfGathered, ExtendTakesEachRow, ParseOfGathered, ParseTakesEachRow, PlainOfGathered, PlainReadsItsRow, PlainWhereFits, ProjectOfGathered, ProjectTakesEachRow, WhereOfGathered, WhereTakesEachRow};
ghost use Rattle.kql_meaning.specs.LawsOfScan.{ScanTakesEveryRow};
ghost use Rattle.kql_meaning.specs.LawsOfTables.{ExpandCounts, RowsGivenAreLongest, UnionHasAllRows, UnionHasEachColumn, UnionHasNoOther, UnionNamesDiffer};

/// A sorted table has the rows of the table, in an order in which the pairs of keys and place rise, and there is one such
/// order. So rows of the same keys keep their order. The first key that tells two rows apart
/// decides. Of each key nulls stand at their end, and the other values rise, or fall where the key is descending. `top` is `sort` and
/// then `take`.
#[tactic(auto, using(crate::proofs::SortLaws::sort_laws))]
pub fn law_of_sort()
    ensures rearranged { SortRearranges }
    ensures ordered { SortOrders }
    ensures stable { SortIsStable }
    ensures only { SortIsTheOne }
    ensures nulls { NullsAtTheirEnd }
    ensures direction { KeysInDirection }
    ensures first { FirstKeyDecides }
    ensures top { TopIsFirstOfSorted }
{}

/// `summarize` without `by` gives one row of any table. With `by` it gives one for each first row of a key, and so none of a table
/// without rows.
#[tactic(auto, using(crate::proofs::SmallLaws::small_laws))]
pub fn law_of_summarize()
    ensures one { OneRowWithoutKeys }
    ensures none { NoGroupWithoutRows }
    ensures rows { RowForEachKey }
{}

/// `scan` over no rows gives none. With one step that takes every row and emits all, it gives a row for each row, in their order, with
/// the match ids 0, 1 and so on.
#[tactic(auto, using(crate::proofs::SmallLaws::small_laws, crate::proofs::ScanLaws::scan_laws))]
pub fn law_of_scan()
    ensures none { ScanOfNoRows }
    ensures every { ScanTakesEveryRow }
{}

/// `partition` over rows of one key gives the rows of its subquery, and is the subquery where the columns of that come from its
/// table's columns alone. Over no rows it gives none.
#[tactic(auto, using(crate::proofs::SmallLaws::small_laws))]
pub fn law_of_partition()
    ensures rows { PartitionRowsOfOneKey }
    ensures one { PartitionOfOneKey }
    ensures none { PartitionOfNoRows }
{}

/// The cut of a text that `parse` takes is a cut, and no cut is less; where none is taken there is none. A cut has a piece for each item
/// of the pattern, and one after another they are the text.
#[tactic(auto, using(crate::proofs::CutLaws::cut_laws))]
pub fn law_of_cuts()
    ensures least { LeastCutIsLeast }
    ensures none { NoCutWhereNone }
    ensures pieces { PiecesAreTheText }
{}

/// The rows of an inner join are those of the pairs of rows that match, each once, in the order of the left rows and then of
/// the right ones.
#[tactic(auto, using(crate::proofs::JoinLaws::join_laws))]
pub fn law_of_inner_join()
    ensures pairs { InnerIsOfPairs }
    ensures matching { PairsMatch }
    ensures ordered { PairsInOrder }
{}

/// Two rows match where all their pairs of keys are identical and not null, and a row has a match where there is such a row on the
/// other side.
#[tactic(auto, using(crate::proofs::JoinLaws::join_laws))]
pub fn law_of_matches()
    ensures keys { KeysMatch }
    ensures rows { AllKeysMatch }
    ensures left { LeftHasMatch }
    ensures right { RightHasMatch }
{}

/// A join of kind leftouter has the rows of the inner join, and for each left row without a match one more.
#[tactic(auto, using(crate::proofs::JoinLaws::join_laws))]
pub fn law_of_leftouter_join()
    ensures rows { LeftOuterIsInnerAndMore }
{}

/// A join of kind rightouter has the rows of the pairs of rows that match, in the order of the right rows and then of the left
/// ones, and for each right row without a match one more. One of kind fullouter has the rows of leftouter, and then those.
#[tactic(auto, using(crate::proofs::OuterLaws::outer_laws))]
pub fn law_of_outer_joins()
    ensures matching { RightPairsMatch }
    ensures ordered { RightPairsInOrder }
    ensures right { RightOuterIsPairsAndMore }
    ensures full { FullOuterIsLeftOuterAndMore }
{}

/// The semi kinds of join give the rows of one side that match a row of the other, each once and in their order, and the anti kinds
/// the others.
#[tactic(auto, using(crate::proofs::OuterLaws::outer_laws))]
pub fn law_of_semi_joins()
    ensures left { LeftMatchedHaveMatch }
    ensures right { RightMatchedHaveMatch }
    ensures rows { SemiGivesMatched }
    ensures ordered { MatchedRise }
    ensures others { SemiAndAntiAreAll }
{}

/// A join of kind innerunique is an inner join over the first left row of each key.
#[tactic(auto, using(crate::proofs::FirstLaws::first_laws))]
pub fn law_of_innerunique_join()
    ensures inner { InnerUniqueIsInner }
    ensures differ { FirstsDiffer }
    ensures first { EachHasItsFirst }
{}

/// A right column of a join gets a name that is not in the result yet: its own, or that with the smallest number from 1 at its end
/// that gives such a name. So no two columns have one name where no two of the left table have. Their types stay.
#[tactic(auto, using(crate::proofs::NameLaws::name_laws))]
pub fn law_of_join_names()
    ensures free { NameIsFree }
    ensures first { NameIsFirstFree }
    ensures differ { BothNamesDiffer }
    ensures kinds { RightKindsStay }
{}

/// Over no rows the aggregates give what their table says of nothing, and a column of a row that is not there is absent.
#[tactic(auto, using(crate::proofs::NothingLaws::nothing_laws))]
pub fn law_of_nothing()
    ensures aggregates { AggregatesOfNothing }
    ensures cells { AbsentWithoutRow }
{}

/// The keys of the groups of a table are those of its rows, each once, in the order of the first row of each.
#[tactic(auto, using(crate::proofs::GroupLaws::group_laws))]
pub fn law_of_keys()
    ensures differ { KeysDiffer }
    ensures rows { KeysAreOfRows }
    ensures ordered { KeysByFirstRow }
{}

/// Each row stands in the group of one key. The group of a key has the rows of that key, each once, in their order.
#[tactic(auto, using(crate::proofs::GroupLaws::group_laws))]
pub fn law_of_groups()
    ensures places { GroupIsOfPlaces }
    ensures rows { GroupHasItsRows }
    ensures ordered { GroupKeepsOrder }
    ensures one { RowInOneGroup }
{}

/// `row_cumsum` and `row_number` count from the last row, not after theirs, at which the restart is true, and else from the first.
#[tactic(auto, using(crate::proofs::GroupLaws::group_laws))]
pub fn law_of_runs()
    ensures begins { RunBegins }
{}

/// `union` of kind outer has each column of each table once by its name, and no other. It has as many rows as all tables.
#[tactic(auto, using(crate::proofs::TableLaws::table_laws))]
pub fn law_of_union()
    ensures differ { UnionNamesDiffer }
    ensures each { UnionHasEachColumn }
    ensures only { UnionHasNoOther }
    ensures rows { UnionHasAllRows }
{}

/// A row gives as many rows of `mv-expand` as its longest list of parts is long, and these are all its rows.
#[tactic(auto, using(crate::proofs::TableLaws::table_laws))]
pub fn law_of_expansion()
    ensures longest { RowsGivenAreLongest }
    ensures rows { ExpandCounts }
{}

/// For a positive step, the numbers of `range` are all those at whole steps from the first that are not above the last, each once
/// and rising.
#[tactic(auto, using(crate::proofs::NumberLaws::number_laws))]
pub fn law_of_terms()
    ensures members { TermsAreThose }
    ensures rising { TermsRise }
{}

/// A number falls in a bin of `make-series` where it lies from the start of the bin on and below that of the next, and each number
/// inside falls in one bin.
#[tactic(auto, using(crate::proofs::NumberLaws::number_laws))]
pub fn law_of_bins()
    ensures between { FallsBetween }
    ensures one { InsideInOneBin }
{}

/// The row of the greatest value is the first with that value, and no row has a greater one. It is null only where all values are, and
/// then the row is the first. The same holds of the least.
#[tactic(auto, using(crate::proofs::ChoiceLaws::choice_laws))]
pub fn law_of_greatest_and_least()
    ensures greatest { GreatestRowIsFirst }
    ensures least { LeastRowIsFirst }
    ensures greatest_value { GreatestIsOfRow }
    ensures least_value { LeastIsOfRow }
{}

/// A plain expression, in which neither a window function nor an aggregate stands, reads its row alone: at row k of gathered rows it has
/// the value that it has at that row's place in the table. Where none of these may stand, what fits is plain. So `where`, `extend`, `project`, `parse` and `mv-expand` with plain
/// expressions take each row by itself: over rows and then others they give what they give for those, and then for the others. Over
/// gathered rows the first four give the rows of what they give over the table.
#[tactic(auto, using(crate::proofs::RowByRowLaws::row_by_row_laws, crate::proofs::PartRowLaws::part_row_laws, crate::proofs::PlainFitLaws::plain_fit_laws))]
pub fn law_of_rows()
    ensures row { PlainReadsItsRow }
    ensures gathered { PlainOfGathered }
    ensures fits { PlainWhereFits }
    ensures kept { WhereOfGathered }
    ensures extended { ExtendOfGathered }
    ensures projected { ProjectOfGathered }
    ensures parsed { ParseOfGathered }
    ensures kept_apart { WhereTakesEachRow }
    ensures extended_apart { ExtendTakesEachRow }
    ensures projected_apart { ProjectTakesEachRow }
    ensures parsed_apart { ParseTakesEachRow }
    ensures expanded_apart { ExpandTakesEachRow }
{}
