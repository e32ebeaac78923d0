ghost use Rattle.std.specs.Prelude.{◌≡◌};
ghost use Rattle.kql_functions.specs.Kinds.{arithmetic_kind, choice_kind, comparison_kind, conversion_kind, dynamic_kind, logic_kind, pattern_kind, result_kind, text_kind, time_kind};

use crate::func::{
    ArithmeticFunc, ChoiceFunc, ComparisonFunc, ConversionFunc, DynamicFunc, Func, LogicFunc,
    TextFunc, TimeFunc,
};
use crate::shapes::{
    behind_text, beside_dynamic, one_among, one_of_any, one_of_cases, one_of_pairs, one_of_two,
    row, rows, several, several_of, text_among, two_equal, two_or_more, two_or_more_ordered,
    two_ordered,
};
use kql_cells::Kind;

/// The type that a function gives for arguments of these types, or none where it does not take them.
///
/// A dynamic operand beside another type is converted before: it has no row of its own. In the list of `in` and its like
/// it stays, where the value that is looked for is not dynamic.
#[tactic(auto, unfolding(crate::specs::Kinds::result_kind))]
pub fn result_kind(f: Func, kinds: &[Kind]) -> Option<Kind>
    ensures value { result ≡ result_kind f kinds.now }
{
    match f {
        Func::Arithmetic(f) => arithmetic_kind(f, kinds),
        Func::Comparison(f) => comparison_kind(f, kinds),
        Func::Search(_) => row(kinds, &[Kind::Text, Kind::Text], Kind::Bool),
        Func::Logic(f) => logic_kind(f, kinds),
        Func::Choice(f) => choice_kind(f, kinds),
        Func::Conversion(f) => conversion_kind(f, kinds),
        Func::Text(f) => text_kind(f, kinds),
        Func::Time(f) => time_kind(f, kinds),
        Func::Dynamic(f) => dynamic_kind(f, kinds),
        Func::Pattern(f) => row(kinds, &[Kind::Text, Kind::Text], pattern_kind(f.group)),
    }
}

fn pattern_kind(group: Option<u32>) -> Kind
    ensures { result ≡ pattern_kind group }
{
    match group {
        Some(_) => Kind::Text,
        None => Kind::Bool,
    }
}

#[tactic(auto, unfolding(crate::specs::Kinds::arithmetic_kind))]
fn arithmetic_kind(f: ArithmeticFunc, kinds: &[Kind]) -> Option<Kind>
    ensures { result ≡ arithmetic_kind f kinds.now }
{
    match f {
        ArithmeticFunc::Add => rows(
            kinds,
            &[
                (&[Kind::Long, Kind::Long], Kind::Long),
                (&[Kind::Span, Kind::Span], Kind::Span),
                (&[Kind::Moment, Kind::Span], Kind::Moment),
                (&[Kind::Span, Kind::Moment], Kind::Moment),
            ],
        ),
        ArithmeticFunc::Subtract => rows(
            kinds,
            &[
                (&[Kind::Long, Kind::Long], Kind::Long),
                (&[Kind::Span, Kind::Span], Kind::Span),
                (&[Kind::Moment, Kind::Span], Kind::Moment),
                (&[Kind::Moment, Kind::Moment], Kind::Span),
            ],
        ),
        ArithmeticFunc::Multiply => rows(
            kinds,
            &[
                (&[Kind::Long, Kind::Long], Kind::Long),
                (&[Kind::Span, Kind::Long], Kind::Span),
                (&[Kind::Long, Kind::Span], Kind::Span),
            ],
        ),
        ArithmeticFunc::Divide => rows(
            kinds,
            &[
                (&[Kind::Long, Kind::Long], Kind::Long),
                (&[Kind::Span, Kind::Long], Kind::Span),
                (&[Kind::Span, Kind::Span], Kind::Long),
            ],
        ),
        ArithmeticFunc::Modulo => row(kinds, &[Kind::Long, Kind::Long], Kind::Long),
        ArithmeticFunc::Negate => rows(
            kinds,
            &[(&[Kind::Long], Kind::Long), (&[Kind::Span], Kind::Span)],
        ),
        ArithmeticFunc::Abs => rows(
            kinds,
            &[(&[Kind::Long], Kind::Long), (&[Kind::Span], Kind::Span)],
        ),
        ArithmeticFunc::Sign => row(kinds, &[Kind::Long], Kind::Long),
        ArithmeticFunc::Bin => rows(
            kinds,
            &[
                (&[Kind::Long, Kind::Long], Kind::Long),
                (&[Kind::Moment, Kind::Span], Kind::Moment),
                (&[Kind::Span, Kind::Span], Kind::Span),
            ],
        ),
        ArithmeticFunc::Floor => rows(
            kinds,
            &[
                (&[Kind::Long, Kind::Long], Kind::Long),
                (&[Kind::Moment, Kind::Span], Kind::Moment),
                (&[Kind::Span, Kind::Span], Kind::Span),
            ],
        ),
        ArithmeticFunc::BinAt => rows(
            kinds,
            &[
                (&[Kind::Long, Kind::Long, Kind::Long], Kind::Long),
                (&[Kind::Moment, Kind::Span, Kind::Moment], Kind::Moment),
                (&[Kind::Span, Kind::Span, Kind::Span], Kind::Span),
            ],
        ),
        ArithmeticFunc::BinaryAnd => row(kinds, &[Kind::Long, Kind::Long], Kind::Long),
        ArithmeticFunc::BinaryOr => row(kinds, &[Kind::Long, Kind::Long], Kind::Long),
        ArithmeticFunc::BinaryXor => row(kinds, &[Kind::Long, Kind::Long], Kind::Long),
        ArithmeticFunc::BinaryNot => row(kinds, &[Kind::Long], Kind::Long),
    }
}

#[tactic(auto, unfolding(crate::specs::Kinds::comparison_kind))]
fn comparison_kind(f: ComparisonFunc, kinds: &[Kind]) -> Option<Kind>
    ensures { result ≡ comparison_kind f kinds.now }
{
    match f {
        ComparisonFunc::Equal => two_equal(kinds),
        ComparisonFunc::NotEqual => two_equal(kinds),
        ComparisonFunc::Less => two_ordered(kinds),
        ComparisonFunc::AtMost => two_ordered(kinds),
        ComparisonFunc::Greater => two_ordered(kinds),
        ComparisonFunc::AtLeast => two_ordered(kinds),
        ComparisonFunc::EqualText => row(kinds, &[Kind::Text, Kind::Text], Kind::Bool),
        ComparisonFunc::NotEqualText => row(kinds, &[Kind::Text, Kind::Text], Kind::Bool),
        ComparisonFunc::In => one_among(kinds),
        ComparisonFunc::NotIn => one_among(kinds),
        ComparisonFunc::InTexts => text_among(kinds),
        ComparisonFunc::NotInTexts => text_among(kinds),
        ComparisonFunc::Between => rows(
            kinds,
            &[
                (&[Kind::Long, Kind::Long, Kind::Long], Kind::Bool),
                (&[Kind::Moment, Kind::Moment, Kind::Moment], Kind::Bool),
                (&[Kind::Span, Kind::Span, Kind::Span], Kind::Bool),
                (&[Kind::Moment, Kind::Moment, Kind::Span], Kind::Bool),
            ],
        ),
        ComparisonFunc::NotBetween => rows(
            kinds,
            &[
                (&[Kind::Long, Kind::Long, Kind::Long], Kind::Bool),
                (&[Kind::Moment, Kind::Moment, Kind::Moment], Kind::Bool),
                (&[Kind::Span, Kind::Span, Kind::Span], Kind::Bool),
                (&[Kind::Moment, Kind::Moment, Kind::Span], Kind::Bool),
            ],
        ),
    }
}

#[tactic(auto, unfolding(crate::specs::Kinds::logic_kind))]
fn logic_kind(f: LogicFunc, kinds: &[Kind]) -> Option<Kind>
    ensures { result ≡ logic_kind f kinds.now }
{
    match f {
        LogicFunc::And => several_of(2, Kind::Bool, Kind::Bool, kinds),
        LogicFunc::Or => several_of(2, Kind::Bool, Kind::Bool, kinds),
        LogicFunc::Not => row(kinds, &[Kind::Bool], Kind::Bool),
    }
}

#[tactic(auto, unfolding(crate::specs::Kinds::choice_kind))]
fn choice_kind(f: ChoiceFunc, kinds: &[Kind]) -> Option<Kind>
    ensures { result ≡ choice_kind f kinds.now }
{
    match f {
        ChoiceFunc::IsNull => one_of_any(Kind::Bool, kinds),
        ChoiceFunc::IsNotNull => one_of_any(Kind::Bool, kinds),
        ChoiceFunc::IsEmpty => one_of_any(Kind::Bool, kinds),
        ChoiceFunc::IsNotEmpty => one_of_any(Kind::Bool, kinds),
        ChoiceFunc::Iff => one_of_two(kinds),
        ChoiceFunc::Case => one_of_cases(kinds),
        ChoiceFunc::Coalesce => two_or_more(kinds),
        ChoiceFunc::MinOf => two_or_more_ordered(kinds),
        ChoiceFunc::MaxOf => two_or_more_ordered(kinds),
    }
}

#[tactic(auto, unfolding(crate::specs::Kinds::conversion_kind))]
fn conversion_kind(f: ConversionFunc, kinds: &[Kind]) -> Option<Kind>
    ensures { result ≡ conversion_kind f kinds.now }
{
    match f {
        ConversionFunc::ToLong => one_of_any(Kind::Long, kinds),
        ConversionFunc::ToText => one_of_any(Kind::Text, kinds),
        ConversionFunc::ToBool => rows(
            kinds,
            &[
                (&[Kind::Bool], Kind::Bool),
                (&[Kind::Long], Kind::Bool),
                (&[Kind::Text], Kind::Bool),
                (&[Kind::Dynamic], Kind::Bool),
            ],
        ),
        ConversionFunc::ToMoment => rows(
            kinds,
            &[
                (&[Kind::Moment], Kind::Moment),
                (&[Kind::Text], Kind::Moment),
                (&[Kind::Dynamic], Kind::Moment),
            ],
        ),
        ConversionFunc::ToSpan => rows(
            kinds,
            &[
                (&[Kind::Span], Kind::Span),
                (&[Kind::Text], Kind::Span),
                (&[Kind::Dynamic], Kind::Span),
            ],
        ),
    }
}

#[tactic(auto, unfolding(crate::specs::Kinds::text_kind))]
fn text_kind(f: TextFunc, kinds: &[Kind]) -> Option<Kind>
    ensures { result ≡ text_kind f kinds.now }
{
    match f {
        TextFunc::Length => row(kinds, &[Kind::Text], Kind::Long),
        TextFunc::Substring => rows(
            kinds,
            &[
                (&[Kind::Text, Kind::Long], Kind::Text),
                (&[Kind::Text, Kind::Long, Kind::Long], Kind::Text),
            ],
        ),
        TextFunc::IndexOf => row(kinds, &[Kind::Text, Kind::Text], Kind::Long),
        TextFunc::ToUpper => row(kinds, &[Kind::Text], Kind::Text),
        TextFunc::ToLower => row(kinds, &[Kind::Text], Kind::Text),
        TextFunc::Reverse => row(kinds, &[Kind::Text], Kind::Text),
        TextFunc::Concat => several(1, Kind::Text, kinds),
        TextFunc::ConcatDelimited => behind_text(kinds),
        TextFunc::Replace => row(kinds, &[Kind::Text, Kind::Text, Kind::Text], Kind::Text),
        TextFunc::Split => row(kinds, &[Kind::Text, Kind::Text], Kind::Dynamic),
        TextFunc::Compare => row(kinds, &[Kind::Text, Kind::Text], Kind::Long),
    }
}

#[tactic(auto, unfolding(crate::specs::Kinds::time_kind))]
fn time_kind(f: TimeFunc, kinds: &[Kind]) -> Option<Kind>
    ensures { result ≡ time_kind f kinds.now }
{
    match f {
        TimeFunc::Now => rows(kinds, &[(&[], Kind::Moment), (&[Kind::Span], Kind::Moment)]),
        TimeFunc::Ago => row(kinds, &[Kind::Span], Kind::Moment),
        TimeFunc::StartOfDay => row(kinds, &[Kind::Moment], Kind::Moment),
        TimeFunc::StartOfWeek => row(kinds, &[Kind::Moment], Kind::Moment),
        TimeFunc::StartOfMonth => row(kinds, &[Kind::Moment], Kind::Moment),
        TimeFunc::StartOfYear => row(kinds, &[Kind::Moment], Kind::Moment),
        TimeFunc::EndOfDay => row(kinds, &[Kind::Moment], Kind::Moment),
        TimeFunc::EndOfWeek => row(kinds, &[Kind::Moment], Kind::Moment),
        TimeFunc::EndOfMonth => row(kinds, &[Kind::Moment], Kind::Moment),
        TimeFunc::EndOfYear => row(kinds, &[Kind::Moment], Kind::Moment),
        TimeFunc::DayOfWeek => row(kinds, &[Kind::Moment], Kind::Span),
        TimeFunc::DayOfMonth => row(kinds, &[Kind::Moment], Kind::Long),
        TimeFunc::DayOfYear => row(kinds, &[Kind::Moment], Kind::Long),
        TimeFunc::GetYear => row(kinds, &[Kind::Moment], Kind::Long),
        TimeFunc::GetMonth => row(kinds, &[Kind::Moment], Kind::Long),
        TimeFunc::MonthOfYear => row(kinds, &[Kind::Moment], Kind::Long),
        TimeFunc::HourOfDay => row(kinds, &[Kind::Moment], Kind::Long),
        TimeFunc::DatetimeAdd => row(kinds, &[Kind::Text, Kind::Long, Kind::Moment], Kind::Moment),
        TimeFunc::DatetimeDiff => row(kinds, &[Kind::Text, Kind::Moment, Kind::Moment], Kind::Long),
        TimeFunc::DatetimePart => row(kinds, &[Kind::Text, Kind::Moment], Kind::Long),
        TimeFunc::MakeDatetime => rows(
            kinds,
            &[
                (&[Kind::Long, Kind::Long, Kind::Long], Kind::Moment),
                (
                    &[Kind::Long, Kind::Long, Kind::Long, Kind::Long, Kind::Long],
                    Kind::Moment,
                ),
            ],
        ),
        TimeFunc::UnixSeconds => row(kinds, &[Kind::Long], Kind::Moment),
        TimeFunc::UnixMilliseconds => row(kinds, &[Kind::Long], Kind::Moment),
    }
}

#[tactic(auto, unfolding(crate::specs::Kinds::dynamic_kind))]
fn dynamic_kind(f: DynamicFunc, kinds: &[Kind]) -> Option<Kind>
    ensures { result ≡ dynamic_kind f kinds.now }
{
    match f {
        DynamicFunc::At => rows(
            kinds,
            &[
                (&[Kind::Dynamic, Kind::Text], Kind::Dynamic),
                (&[Kind::Dynamic, Kind::Long], Kind::Dynamic),
            ],
        ),
        DynamicFunc::ParseJson => rows(
            kinds,
            &[
                (&[Kind::Text], Kind::Dynamic),
                (&[Kind::Dynamic], Kind::Dynamic),
            ],
        ),
        DynamicFunc::ToDynamic => rows(
            kinds,
            &[
                (&[Kind::Text], Kind::Dynamic),
                (&[Kind::Dynamic], Kind::Dynamic),
            ],
        ),
        DynamicFunc::ArrayLength => row(kinds, &[Kind::Dynamic], Kind::Long),
        DynamicFunc::ArrayConcat => several_of(1, Kind::Dynamic, Kind::Dynamic, kinds),
        DynamicFunc::ArraySlice => row(
            kinds,
            &[Kind::Dynamic, Kind::Long, Kind::Long],
            Kind::Dynamic,
        ),
        DynamicFunc::ArrayReverse => row(kinds, &[Kind::Dynamic], Kind::Dynamic),
        DynamicFunc::ArrayIndexOf => beside_dynamic(Kind::Long, kinds),
        DynamicFunc::BagKeys => row(kinds, &[Kind::Dynamic], Kind::Dynamic),
        DynamicFunc::BagHasKey => row(kinds, &[Kind::Dynamic, Kind::Text], Kind::Bool),
        DynamicFunc::BagMerge => several_of(2, Kind::Dynamic, Kind::Dynamic, kinds),
        DynamicFunc::PackArray => several(1, Kind::Dynamic, kinds),
        DynamicFunc::BagPack => one_of_pairs(kinds),
        DynamicFunc::SetUnion => row(kinds, &[Kind::Dynamic, Kind::Dynamic], Kind::Dynamic),
        DynamicFunc::SetIntersect => row(kinds, &[Kind::Dynamic, Kind::Dynamic], Kind::Dynamic),
        DynamicFunc::SetDifference => row(kinds, &[Kind::Dynamic, Kind::Dynamic], Kind::Dynamic),
        DynamicFunc::SetHasElement => beside_dynamic(Kind::Bool, kinds),
    }
}
