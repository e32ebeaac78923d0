//! The functions that calls name and the operators, each once.
ghost use Rattle.std.specs.Prelude.{◌≡◌, ◌↔◌, true, Contains};
ghost use Rattle.kql_functions.specs.declared.func.Func.{Func};
ghost use Rattle.kql_functions.specs.Find.{AreDistinct, functions, is_called, is_operator, operators};

use crate::func::{
    ArithmeticFunc, ChoiceFunc, ComparisonFunc, ConversionFunc, DynamicFunc, Func, LogicFunc,
    SearchFunc, SearchPlace, TextFunc, TimeFunc,
};
use kql_texts::Fold;

const FUNCTIONS: [Func; 74] = [
    Func::Arithmetic(ArithmeticFunc::Abs),
    Func::Arithmetic(ArithmeticFunc::Sign),
    Func::Arithmetic(ArithmeticFunc::Bin),
    Func::Arithmetic(ArithmeticFunc::Floor),
    Func::Arithmetic(ArithmeticFunc::BinAt),
    Func::Arithmetic(ArithmeticFunc::BinaryAnd),
    Func::Arithmetic(ArithmeticFunc::BinaryOr),
    Func::Arithmetic(ArithmeticFunc::BinaryXor),
    Func::Arithmetic(ArithmeticFunc::BinaryNot),
    Func::Logic(LogicFunc::Not),
    Func::Choice(ChoiceFunc::IsNull),
    Func::Choice(ChoiceFunc::IsNotNull),
    Func::Choice(ChoiceFunc::IsEmpty),
    Func::Choice(ChoiceFunc::IsNotEmpty),
    Func::Choice(ChoiceFunc::Iff),
    Func::Choice(ChoiceFunc::Case),
    Func::Choice(ChoiceFunc::Coalesce),
    Func::Choice(ChoiceFunc::MinOf),
    Func::Choice(ChoiceFunc::MaxOf),
    Func::Conversion(ConversionFunc::ToLong),
    Func::Conversion(ConversionFunc::ToText),
    Func::Conversion(ConversionFunc::ToBool),
    Func::Conversion(ConversionFunc::ToMoment),
    Func::Conversion(ConversionFunc::ToSpan),
    Func::Text(TextFunc::Length),
    Func::Text(TextFunc::Substring),
    Func::Text(TextFunc::IndexOf),
    Func::Text(TextFunc::ToUpper),
    Func::Text(TextFunc::ToLower),
    Func::Text(TextFunc::Reverse),
    Func::Text(TextFunc::Concat),
    Func::Text(TextFunc::ConcatDelimited),
    Func::Text(TextFunc::Replace),
    Func::Text(TextFunc::Split),
    Func::Text(TextFunc::Compare),
    Func::Time(TimeFunc::Now),
    Func::Time(TimeFunc::Ago),
    Func::Time(TimeFunc::StartOfDay),
    Func::Time(TimeFunc::StartOfWeek),
    Func::Time(TimeFunc::StartOfMonth),
    Func::Time(TimeFunc::StartOfYear),
    Func::Time(TimeFunc::EndOfDay),
    Func::Time(TimeFunc::EndOfWeek),
    Func::Time(TimeFunc::EndOfMonth),
    Func::Time(TimeFunc::EndOfYear),
    Func::Time(TimeFunc::DayOfWeek),
    Func::Time(TimeFunc::DayOfMonth),
    Func::Time(TimeFunc::DayOfYear),
    Func::Time(TimeFunc::GetYear),
    Func::Time(TimeFunc::GetMonth),
    Func::Time(TimeFunc::MonthOfYear),
    Func::Time(TimeFunc::HourOfDay),
    Func::Time(TimeFunc::DatetimeAdd),
    Func::Time(TimeFunc::DatetimeDiff),
    Func::Time(TimeFunc::DatetimePart),
    Func::Time(TimeFunc::MakeDatetime),
    Func::Time(TimeFunc::UnixSeconds),
    Func::Time(TimeFunc::UnixMilliseconds),
    Func::Dynamic(DynamicFunc::ParseJson),
    Func::Dynamic(DynamicFunc::ToDynamic),
    Func::Dynamic(DynamicFunc::ArrayLength),
    Func::Dynamic(DynamicFunc::ArrayConcat),
    Func::Dynamic(DynamicFunc::ArraySlice),
    Func::Dynamic(DynamicFunc::ArrayReverse),
    Func::Dynamic(DynamicFunc::ArrayIndexOf),
    Func::Dynamic(DynamicFunc::BagKeys),
    Func::Dynamic(DynamicFunc::BagHasKey),
    Func::Dynamic(DynamicFunc::BagMerge),
    Func::Dynamic(DynamicFunc::PackArray),
    Func::Dynamic(DynamicFunc::BagPack),
    Func::Dynamic(DynamicFunc::SetUnion),
    Func::Dynamic(DynamicFunc::SetIntersect),
    Func::Dynamic(DynamicFunc::SetDifference),
    Func::Dynamic(DynamicFunc::SetHasElement),
];

const OPERATORS: [Func; 39] = [
    Func::Arithmetic(ArithmeticFunc::Add),
    Func::Arithmetic(ArithmeticFunc::Subtract),
    Func::Arithmetic(ArithmeticFunc::Multiply),
    Func::Arithmetic(ArithmeticFunc::Divide),
    Func::Arithmetic(ArithmeticFunc::Modulo),
    Func::Arithmetic(ArithmeticFunc::Negate),
    Func::Comparison(ComparisonFunc::Equal),
    Func::Comparison(ComparisonFunc::NotEqual),
    Func::Comparison(ComparisonFunc::Less),
    Func::Comparison(ComparisonFunc::AtMost),
    Func::Comparison(ComparisonFunc::Greater),
    Func::Comparison(ComparisonFunc::AtLeast),
    Func::Comparison(ComparisonFunc::EqualText),
    Func::Comparison(ComparisonFunc::NotEqualText),
    Func::Comparison(ComparisonFunc::In),
    Func::Comparison(ComparisonFunc::NotIn),
    Func::Comparison(ComparisonFunc::InTexts),
    Func::Comparison(ComparisonFunc::NotInTexts),
    Func::Comparison(ComparisonFunc::Between),
    Func::Comparison(ComparisonFunc::NotBetween),
    Func::Search(SearchFunc {
        place: SearchPlace::Anywhere,
        fold: Fold::Caseless,
        negated: false,
    }),
    Func::Search(SearchFunc {
        place: SearchPlace::Anywhere,
        fold: Fold::Caseless,
        negated: true,
    }),
    Func::Search(SearchFunc {
        place: SearchPlace::Anywhere,
        fold: Fold::Exact,
        negated: false,
    }),
    Func::Search(SearchFunc {
        place: SearchPlace::Anywhere,
        fold: Fold::Exact,
        negated: true,
    }),
    Func::Search(SearchFunc {
        place: SearchPlace::Start,
        fold: Fold::Caseless,
        negated: false,
    }),
    Func::Search(SearchFunc {
        place: SearchPlace::Start,
        fold: Fold::Caseless,
        negated: true,
    }),
    Func::Search(SearchFunc {
        place: SearchPlace::Start,
        fold: Fold::Exact,
        negated: false,
    }),
    Func::Search(SearchFunc {
        place: SearchPlace::Start,
        fold: Fold::Exact,
        negated: true,
    }),
    Func::Search(SearchFunc {
        place: SearchPlace::End,
        fold: Fold::Caseless,
        negated: false,
    }),
    Func::Search(SearchFunc {
        place: SearchPlace::End,
        fold: Fold::Caseless,
        negated: true,
    }),
    Func::Search(SearchFunc {
        place: SearchPlace::End,
        fold: Fold::Exact,
        negated: false,
    }),
    Func::Search(SearchFunc {
        place: SearchPlace::End,
        fold: Fold::Exact,
        negated: true,
    }),
    Func::Search(SearchFunc {
        place: SearchPlace::Term,
        fold: Fold::Caseless,
        negated: false,
    }),
    Func::Search(SearchFunc {
        place: SearchPlace::Term,
        fold: Fold::Caseless,
        negated: true,
    }),
    Func::Search(SearchFunc {
        place: SearchPlace::Term,
        fold: Fold::Exact,
        negated: false,
    }),
    Func::Search(SearchFunc {
        place: SearchPlace::Term,
        fold: Fold::Exact,
        negated: true,
    }),
    Func::Logic(LogicFunc::And),
    Func::Logic(LogicFunc::Or),
    Func::Dynamic(DynamicFunc::At),
];

/// Every function that a call names, but for `extract`, whose calls are of a pattern.
pub fn functions() -> &'static [Func]
    ensures table { result.now ≡ functions }
    ensures every { (f : Func) → Contains result.now f ↔ (is_called f ≡ true) }
    ensures once { AreDistinct result.now }
{
    functions_table()
}

#[tactic(auto, unfolding(crate::specs::Find::functions))]
fn functions_table() -> &'static [Func]
    ensures { result.now ≡ functions }
{
    &FUNCTIONS
}

/// Every operator. No call names one.
pub fn operators() -> &'static [Func]
    ensures table { result.now ≡ operators }
    ensures every { (f : Func) → Contains result.now f ↔ (is_operator f ≡ true) }
    ensures once { AreDistinct result.now }
{
    operators_table()
}

#[tactic(auto, unfolding(crate::specs::Find::operators))]
fn operators_table() -> &'static [Func]
    ensures { result.now ≡ operators }
{
    &OPERATORS
}
