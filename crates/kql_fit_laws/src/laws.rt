//! The laws.
ghost use Rattle.kql_fit_laws.specs.LawsOfCalls.{CallKeeps};
ghost use Rattle.kql_fit_laws.specs.LawsOfExpressions.{EachExtendKeeps, EachPrintKeeps, EachProjectKeeps, EachSummarizeKeeps, ExpressionsKeep, GroupItemsKeep, ItemsKeep, KeyItemsKeep};
ghost use Rattle.kql_fit_laws.specs.LawsOfFitting.{FittingProgramsKeep};
ghost use Rattle.kql_fit_laws.specs.LawsOfGroupRows.{SummarizeKeeps};
ghost use Rattle.kql_fit_laws.specs.LawsOfOperators.{EachExpandKeeps, EachOpKeeps, EachParseKeeps, EachPlanKeeps, EachScanKeeps, EachSeriesKeeps, EachSourceKeeps};
ghost use Rattle.kql_fit_laws.specs.LawsOfPrograms.{ExtendKeeps, LetKeeps, PartsKeepPlan, PlansKeepProgram, PrintKeeps, ProjectKeeps, RangeKeeps, TableKeeps};
ghost use Rattle.kql_fit_laws.specs.LawsOfRows.{CountKeeps, JoinKeeps, PartitionKeeps, SerializeKeeps, SortKeeps, TakeKeeps, TopKeeps, UnionKeeps, WhereKeeps};

/// Where `where`, `take`, `sort`, `top`, `serialize` or `count` fits the columns of a table whose rows fit them, it makes a table of the
/// columns that it has there, and the rows fit these: each has a value for each column, of its type or null, and no two columns have
/// one name. The same holds of `join` and `lookup` of each kind and of `union` where it holds of their plans, and of `partition` where
/// it holds of the operators in it.
#[tactic(auto, using(crate::proofs::PlanRows::plan_row_laws, crate::proofs::RowLaws::row_laws))]
pub fn law_of_rows()
    ensures where_rows { WhereKeeps }
    ensures take { TakeKeeps }
    ensures sort { SortKeeps }
    ensures top { TopKeeps }
    ensures serialize { SerializeKeeps }
    ensures count { CountKeeps }
    ensures join { JoinKeeps }
    ensures union { UnionKeeps }
    ensures partition { PartitionKeeps }
{}

/// Where the items of `project`, `extend` or `print` give values of their columns' types, so do its rows.
#[tactic(auto, using(crate::proofs::ItemRows::item_row_laws))]
pub fn law_of_items()
    ensures project { ProjectKeeps }
    ensures extend { ExtendKeeps }
    ensures print { PrintKeeps }
{}

/// Where the keys and items of `summarize` give values of their columns' types, so do its rows, and `distinct` is `summarize` without
/// items.
#[tactic(auto, using(crate::proofs::GroupRows::group_row_laws))]
pub fn law_of_group_rows()
    ensures summarize { SummarizeKeeps }
{}

/// A table of the catalogue and that of a let have the columns that are known of them, and a range that fits has its column. A plan gives a table of the columns that it has
/// where its source and its operators do, and a program where its plans do.
#[tactic(auto, using(crate::proofs::ProgramRows::program_row_laws, crate::proofs::RangeRows::range_row_laws))]
pub fn law_of_programs()
    ensures tables { TableKeeps }
    ensures lets { LetKeeps }
    ensures range { RangeKeeps }
    ensures plan { PartsKeepPlan }
    ensures program { PlansKeepProgram }
{}

/// What every function of the language gives for well formed arguments of types that it takes is well formed, and of the type that it
/// has for them, or null.
pub fn law_of_calls()
    ensures calls { CallKeeps }
{}

/// Every expression that fits has at each row a type, and its value there is of that type or null, and well formed; in `scan` too, where the
/// records that are held fit their columns. So every item and key gives values of its columns' types, and `project`, `extend`,
/// `summarize` and `print` make rows that fit their columns, whatever their items are.
#[tactic(auto, using(crate::proofs::ItemLaws::expression_laws))]
pub fn law_of_expressions()
    ensures expressions { ExpressionsKeep }
    ensures items { ItemsKeep }
    ensures keys { KeyItemsKeep }
    ensures group_items { GroupItemsKeep }
    ensures project { EachProjectKeeps }
    ensures extend { EachExtendKeeps }
    ensures summarize { EachSummarizeKeeps }
    ensures print { EachPrintKeeps }
{}

/// `mv-expand`, `parse`, `make-series` and `scan` make rows that fit their columns. With these every operator, and every plan over
/// tables that are as they are known, gives a table of the columns that it has, whatever plans and operators are in it.
#[tactic(auto, using(crate::proofs::OperatorLaws::operator_laws))]
pub fn law_of_operators()
    ensures expand { EachExpandKeeps }
    ensures parse { EachParseKeeps }
    ensures series { EachSeriesKeeps }
    ensures scan { EachScanKeeps }
    ensures sources { EachSourceKeeps }
    ensures operators { EachOpKeeps }
    ensures plans { EachPlanKeeps }
{}

/// A program that fits the schemas of a catalogue, whose tables' rows fit their columns, no two of one name in a table, has columns, and
/// means a table of these columns: no two have one name, and each row has a value for each, of its type or null, and well formed.
#[tactic(auto, using(crate::proofs::FittingLaws::fitting_laws))]
pub fn law_of_fitting_programs()
    ensures programs { FittingProgramsKeep }
{}
