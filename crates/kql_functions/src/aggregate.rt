//! The functions of the rows of a group.
ghost use Rattle.std.specs.Prelude.{◌≡◌, Contains};
ghost use Rattle.kql_functions.specs.Find.{AreDistinct, aggregates, named_among};
ghost use Rattle.kql_functions.specs.Names.{aggregate_name};

/// A function of the rows of a group.
#[derive(Clone, Copy, Debug, PartialEq, Eq)]
pub enum Aggregate {
    Count,
    CountIf,
    CountDistinct,
    CountDistinctIf,
    Sum,
    SumIf,
    Min,
    MinIf,
    Max,
    MaxIf,
    MakeList,
    MakeListIf,
    MakeSet,
    MakeSetIf,
    ArgMax,
    ArgMin,
    TakeAny,
    BinaryAllAnd,
    BinaryAllOr,
    BinaryAllXor,
}

const AGGREGATES: [Aggregate; 20] = [
    Aggregate::Count,
    Aggregate::CountIf,
    Aggregate::CountDistinct,
    Aggregate::CountDistinctIf,
    Aggregate::Sum,
    Aggregate::SumIf,
    Aggregate::Min,
    Aggregate::MinIf,
    Aggregate::Max,
    Aggregate::MaxIf,
    Aggregate::MakeList,
    Aggregate::MakeListIf,
    Aggregate::MakeSet,
    Aggregate::MakeSetIf,
    Aggregate::ArgMax,
    Aggregate::ArgMin,
    Aggregate::TakeAny,
    Aggregate::BinaryAllAnd,
    Aggregate::BinaryAllOr,
    Aggregate::BinaryAllXor,
];

/// Every aggregate.
pub fn aggregates() -> &'static [Aggregate]
    ensures table { result.now ≡ aggregates }
    ensures every { (a : Aggregate) → Contains result.now a }
    ensures once { AreDistinct result.now }
{
    aggregates_table()
}

#[tactic(auto, unfolding(crate::specs::Find::aggregates))]
fn aggregates_table() -> &'static [Aggregate]
    ensures { result.now ≡ aggregates }
{
    &AGGREGATES
}

impl Aggregate {
    /// The aggregate's name.
    pub fn name(self) -> &'static str
        ensures name { result.now ≡ aggregate_name self }

        // No two have one name.
        ensures own { (a : Aggregate) → aggregate_name a ≡ result.now → a ≡ self }
    {
        name_of(self)
    }
}

#[tactic(auto, unfolding(crate::specs::Names::aggregate_name))]
fn name_of(aggregate: Aggregate) -> &'static str
    ensures name { result.now ≡ aggregate_name aggregate }
{
    match aggregate {
        Aggregate::Count => "count",
        Aggregate::CountIf => "countif",
        Aggregate::CountDistinct => "count_distinct",
        Aggregate::CountDistinctIf => "count_distinctif",
        Aggregate::Sum => "sum",
        Aggregate::SumIf => "sumif",
        Aggregate::Min => "min",
        Aggregate::MinIf => "minif",
        Aggregate::Max => "max",
        Aggregate::MaxIf => "maxif",
        Aggregate::MakeList => "make_list",
        Aggregate::MakeListIf => "make_list_if",
        Aggregate::MakeSet => "make_set",
        Aggregate::MakeSetIf => "make_set_if",
        Aggregate::ArgMax => "arg_max",
        Aggregate::ArgMin => "arg_min",
        Aggregate::TakeAny => "take_any",
        Aggregate::BinaryAllAnd => "binary_all_and",
        Aggregate::BinaryAllOr => "binary_all_or",
        Aggregate::BinaryAllXor => "binary_all_xor",
    }
}

#[tactic(auto, unfolding(crate::specs::Find::named_among))]
pub(crate) fn aggregate_among(aggregates: &[Aggregate], name: &str) -> Option<Aggregate>
    ensures { result ≡ named_among aggregate_name aggregates.now name.now }
{
    let mut left = aggregates;
    'names: while let [aggregate, more @ ..] = left {
        if aggregate.name() == name {
            return Some(*aggregate);
        }
        left = more;
    }
    None
}
