ghost use Rattle.std.specs.Prelude.{◌≡◌, false};
ghost use Rattle.kql_functions.specs.declared.func.Func.{Func};
ghost use Rattle.kql_functions.specs.Find.{is_pattern};
ghost use Rattle.kql_functions.specs.Names.{arithmetic_name, choice_name, comparison_name, conversion_name, dynamic_name, func_name, logic_name, pattern_name, search_name, search_text, text_name, time_name};

use kql_lexer::Place;
use kql_texts::Fold;

/// A scalar function or operator of the language.
#[derive(Clone, Copy, Debug, PartialEq, Eq)]
pub enum Func {
    Arithmetic(ArithmeticFunc),
    Comparison(ComparisonFunc),
    Search(SearchFunc),
    Logic(LogicFunc),
    Choice(ChoiceFunc),
    Conversion(ConversionFunc),
    Text(TextFunc),
    Time(TimeFunc),
    Dynamic(DynamicFunc),
    Pattern(PatternFunc),
}

/// Sums, products and what belongs to them, of longs, timespans and datetimes.
#[derive(Clone, Copy, Debug, PartialEq, Eq)]
pub enum ArithmeticFunc {
    Add,
    Subtract,
    Multiply,
    Divide,
    Modulo,
    Negate,
    Abs,
    Sign,
    Bin,
    Floor,
    BinAt,
    BinaryAnd,
    BinaryOr,
    BinaryXor,
    BinaryNot,
}

/// Comparisons of values of one type; those with `Text` in their name read texts without case.
#[derive(Clone, Copy, Debug, PartialEq, Eq)]
pub enum ComparisonFunc {
    Equal,
    NotEqual,
    Less,
    AtMost,
    Greater,
    AtLeast,
    EqualText,
    NotEqualText,
    In,
    NotIn,
    InTexts,
    NotInTexts,
    Between,
    NotBetween,
}

/// A search for a text in another.
#[derive(Clone, Copy, Debug, PartialEq, Eq)]
pub struct SearchFunc {
    /// Where it has to stand.
    pub place: SearchPlace,
    /// Whether case counts.
    pub fold: Fold,
    /// Whether the answer is turned round.
    pub negated: bool,
}

/// Where a text has to stand in another.
#[derive(Clone, Copy, Debug, PartialEq, Eq)]
pub enum SearchPlace {
    Anywhere,
    Start,
    End,
    /// As a term.
    Term,
}

/// The operators on bools.
#[derive(Clone, Copy, Debug, PartialEq, Eq)]
pub enum LogicFunc {
    And,
    Or,
    Not,
}

/// Tests for null, and choices among arguments.
#[derive(Clone, Copy, Debug, PartialEq, Eq)]
pub enum ChoiceFunc {
    IsNull,
    IsNotNull,
    IsEmpty,
    IsNotEmpty,
    Iff,
    Case,
    Coalesce,
    MinOf,
    MaxOf,
}

/// Conversions to a type.
#[derive(Clone, Copy, Debug, PartialEq, Eq)]
pub enum ConversionFunc {
    ToLong,
    ToText,
    ToBool,
    ToMoment,
    ToSpan,
}

/// Functions of texts.
#[derive(Clone, Copy, Debug, PartialEq, Eq)]
pub enum TextFunc {
    Length,
    Substring,
    IndexOf,
    ToUpper,
    ToLower,
    Reverse,
    Concat,
    ConcatDelimited,
    Replace,
    Split,
    Compare,
}

/// Functions of datetimes and timespans.
#[derive(Clone, Copy, Debug, PartialEq, Eq)]
pub enum TimeFunc {
    Now,
    Ago,
    StartOfDay,
    StartOfWeek,
    StartOfMonth,
    StartOfYear,
    EndOfDay,
    EndOfWeek,
    EndOfMonth,
    EndOfYear,
    DayOfWeek,
    DayOfMonth,
    DayOfYear,
    GetYear,
    GetMonth,
    MonthOfYear,
    HourOfDay,
    DatetimeAdd,
    DatetimeDiff,
    DatetimePart,
    MakeDatetime,
    UnixSeconds,
    UnixMilliseconds,
}

/// Functions of dynamic values.
#[derive(Clone, Copy, Debug, PartialEq, Eq)]
pub enum DynamicFunc {
    At,
    ParseJson,
    ToDynamic,
    ArrayLength,
    ArrayConcat,
    ArraySlice,
    ArrayReverse,
    ArrayIndexOf,
    BagKeys,
    BagHasKey,
    BagMerge,
    PackArray,
    BagPack,
    SetUnion,
    SetIntersect,
    SetDifference,
    SetHasElement,
}

/// A call of a pattern, `matches regex` or `extract`, over the text that is searched and the pattern.
///
/// Such a call is not a function of its arguments' values alone: what it finds is told by who made the pattern. Programs
/// read its answers from columns that are made beforehand, and no expression is run that holds one.
#[derive(Clone, Copy, Debug, PartialEq, Eq)]
pub struct PatternFunc {
    /// The group of `extract` whose text is the answer; none for `matches regex`, which answers whether anything is found.
    pub group: Option<u32>,
    /// Where `matches` or `extract` stands in the query.
    pub word: Place,
    /// Where the pattern stands in the query.
    pub literal: Place,
}

impl Func {
    /// The name of a function, or the sign or word of an operator: of the minus before a value `neg`, of a path's step `at`.
    pub fn name(self) -> &'static str
        ensures name { result.now ≡ func_name self }

        // No two have one name, but for the calls of patterns, which their places tell apart.
        ensures own { is_pattern self ≡ false → (f : Func) → func_name f ≡ result.now → f ≡ self }
    {
        name_of(self)
    }
}

#[tactic(auto, unfolding(crate::specs::Names::func_name))]
fn name_of(f: Func) -> &'static str
    ensures name { result.now ≡ func_name f }
{
    match f {
        Func::Arithmetic(f) => arithmetic_name(f),
        Func::Comparison(f) => comparison_name(f),
        Func::Search(f) => search_name(f),
        Func::Logic(f) => logic_name(f),
        Func::Choice(f) => choice_name(f),
        Func::Conversion(f) => conversion_name(f),
        Func::Text(f) => text_name(f),
        Func::Time(f) => time_name(f),
        Func::Dynamic(f) => dynamic_name(f),
        Func::Pattern(f) => pattern_name(f.group),
    }
}

fn pattern_name(group: Option<u32>) -> &'static str
    ensures { result.now ≡ pattern_name group }
{
    match group {
        Some(_) => "extract",
        None => "matches regex",
    }
}

#[tactic(auto, unfolding(crate::specs::Names::arithmetic_name))]
fn arithmetic_name(f: ArithmeticFunc) -> &'static str
    ensures { result.now ≡ arithmetic_name f }
{
    match f {
        ArithmeticFunc::Add => "+",
        ArithmeticFunc::Subtract => "-",
        ArithmeticFunc::Multiply => "*",
        ArithmeticFunc::Divide => "/",
        ArithmeticFunc::Modulo => "%",
        ArithmeticFunc::Negate => "neg",
        ArithmeticFunc::Abs => "abs",
        ArithmeticFunc::Sign => "sign",
        ArithmeticFunc::Bin => "bin",
        ArithmeticFunc::Floor => "floor",
        ArithmeticFunc::BinAt => "bin_at",
        ArithmeticFunc::BinaryAnd => "binary_and",
        ArithmeticFunc::BinaryOr => "binary_or",
        ArithmeticFunc::BinaryXor => "binary_xor",
        ArithmeticFunc::BinaryNot => "binary_not",
    }
}

#[tactic(auto, unfolding(crate::specs::Names::comparison_name))]
fn comparison_name(f: ComparisonFunc) -> &'static str
    ensures { result.now ≡ comparison_name f }
{
    match f {
        ComparisonFunc::Equal => "==",
        ComparisonFunc::NotEqual => "!=",
        ComparisonFunc::Less => "<",
        ComparisonFunc::AtMost => "<=",
        ComparisonFunc::Greater => ">",
        ComparisonFunc::AtLeast => ">=",
        ComparisonFunc::EqualText => "=~",
        ComparisonFunc::NotEqualText => "!~",
        ComparisonFunc::In => "in",
        ComparisonFunc::NotIn => "!in",
        ComparisonFunc::InTexts => "in~",
        ComparisonFunc::NotInTexts => "!in~",
        ComparisonFunc::Between => "between",
        ComparisonFunc::NotBetween => "!between",
    }
}

#[tactic(auto, unfolding(crate::specs::Names::logic_name))]
fn logic_name(f: LogicFunc) -> &'static str
    ensures { result.now ≡ logic_name f }
{
    match f {
        LogicFunc::And => "and",
        LogicFunc::Or => "or",
        LogicFunc::Not => "not",
    }
}

#[tactic(auto, unfolding(crate::specs::Names::choice_name))]
fn choice_name(f: ChoiceFunc) -> &'static str
    ensures { result.now ≡ choice_name f }
{
    match f {
        ChoiceFunc::IsNull => "isnull",
        ChoiceFunc::IsNotNull => "isnotnull",
        ChoiceFunc::IsEmpty => "isempty",
        ChoiceFunc::IsNotEmpty => "isnotempty",
        ChoiceFunc::Iff => "iff",
        ChoiceFunc::Case => "case",
        ChoiceFunc::Coalesce => "coalesce",
        ChoiceFunc::MinOf => "min_of",
        ChoiceFunc::MaxOf => "max_of",
    }
}

#[tactic(auto, unfolding(crate::specs::Names::conversion_name))]
fn conversion_name(f: ConversionFunc) -> &'static str
    ensures { result.now ≡ conversion_name f }
{
    match f {
        ConversionFunc::ToLong => "tolong",
        ConversionFunc::ToText => "tostring",
        ConversionFunc::ToBool => "tobool",
        ConversionFunc::ToMoment => "todatetime",
        ConversionFunc::ToSpan => "totimespan",
    }
}

#[tactic(auto, unfolding(crate::specs::Names::text_name))]
fn text_name(f: TextFunc) -> &'static str
    ensures { result.now ≡ text_name f }
{
    match f {
        TextFunc::Length => "strlen",
        TextFunc::Substring => "substring",
        TextFunc::IndexOf => "indexof",
        TextFunc::ToUpper => "toupper",
        TextFunc::ToLower => "tolower",
        TextFunc::Reverse => "reverse",
        TextFunc::Concat => "strcat",
        TextFunc::ConcatDelimited => "strcat_delim",
        TextFunc::Replace => "replace_string",
        TextFunc::Split => "split",
        TextFunc::Compare => "strcmp",
    }
}

#[tactic(auto, unfolding(crate::specs::Names::time_name))]
fn time_name(f: TimeFunc) -> &'static str
    ensures { result.now ≡ time_name f }
{
    match f {
        TimeFunc::Now => "now",
        TimeFunc::Ago => "ago",
        TimeFunc::StartOfDay => "startofday",
        TimeFunc::StartOfWeek => "startofweek",
        TimeFunc::StartOfMonth => "startofmonth",
        TimeFunc::StartOfYear => "startofyear",
        TimeFunc::EndOfDay => "endofday",
        TimeFunc::EndOfWeek => "endofweek",
        TimeFunc::EndOfMonth => "endofmonth",
        TimeFunc::EndOfYear => "endofyear",
        TimeFunc::DayOfWeek => "dayofweek",
        TimeFunc::DayOfMonth => "dayofmonth",
        TimeFunc::DayOfYear => "dayofyear",
        TimeFunc::GetYear => "getyear",
        TimeFunc::GetMonth => "getmonth",
        TimeFunc::MonthOfYear => "monthofyear",
        TimeFunc::HourOfDay => "hourofday",
        TimeFunc::DatetimeAdd => "datetime_add",
        TimeFunc::DatetimeDiff => "datetime_diff",
        TimeFunc::DatetimePart => "datetime_part",
        TimeFunc::MakeDatetime => "make_datetime",
        TimeFunc::UnixSeconds => "unixtime_seconds_todatetime",
        TimeFunc::UnixMilliseconds => "unixtime_milliseconds_todatetime",
    }
}

#[tactic(auto, unfolding(crate::specs::Names::dynamic_name))]
fn dynamic_name(f: DynamicFunc) -> &'static str
    ensures { result.now ≡ dynamic_name f }
{
    match f {
        DynamicFunc::At => "at",
        DynamicFunc::ParseJson => "parse_json",
        DynamicFunc::ToDynamic => "todynamic",
        DynamicFunc::ArrayLength => "array_length",
        DynamicFunc::ArrayConcat => "array_concat",
        DynamicFunc::ArraySlice => "array_slice",
        DynamicFunc::ArrayReverse => "array_reverse",
        DynamicFunc::ArrayIndexOf => "array_index_of",
        DynamicFunc::BagKeys => "bag_keys",
        DynamicFunc::BagHasKey => "bag_has_key",
        DynamicFunc::BagMerge => "bag_merge",
        DynamicFunc::PackArray => "pack_array",
        DynamicFunc::BagPack => "bag_pack",
        DynamicFunc::SetUnion => "set_union",
        DynamicFunc::SetIntersect => "set_intersect",
        DynamicFunc::SetDifference => "set_difference",
        DynamicFunc::SetHasElement => "set_has_element",
    }
}

fn search_name(f: SearchFunc) -> &'static str
    ensures { result.now ≡ search_name f }
{
    search_text(f.place, f.fold, f.negated)
}

#[tactic(auto, unfolding(crate::specs::Names::search_text))]
fn search_text(place: SearchPlace, fold: Fold, negated: bool) -> &'static str
    ensures { result.now ≡ search_text place fold negated }
{
    match (place, fold, negated) {
        (SearchPlace::Anywhere, Fold::Caseless, false) => "contains",
        (SearchPlace::Anywhere, Fold::Caseless, true) => "!contains",
        (SearchPlace::Anywhere, Fold::Exact, false) => "contains_cs",
        (SearchPlace::Anywhere, Fold::Exact, true) => "!contains_cs",
        (SearchPlace::Start, Fold::Caseless, false) => "startswith",
        (SearchPlace::Start, Fold::Caseless, true) => "!startswith",
        (SearchPlace::Start, Fold::Exact, false) => "startswith_cs",
        (SearchPlace::Start, Fold::Exact, true) => "!startswith_cs",
        (SearchPlace::End, Fold::Caseless, false) => "endswith",
        (SearchPlace::End, Fold::Caseless, true) => "!endswith",
        (SearchPlace::End, Fold::Exact, false) => "endswith_cs",
        (SearchPlace::End, Fold::Exact, true) => "!endswith_cs",
        (SearchPlace::Term, Fold::Caseless, false) => "has",
        (SearchPlace::Term, Fold::Caseless, true) => "!has",
        (SearchPlace::Term, Fold::Exact, false) => "has_cs",
        (SearchPlace::Term, Fold::Exact, true) => "!has_cs",
    }
}
