//! How many arguments a scalar function takes.
ghost use Rattle.std.specs.Prelude.{◌≡◌};
ghost use Rattle.bind_expr.specs.Counts.{arithmetic_count, choice_count, count_of, dynamic_count, is_count, logic_count, text_count, time_count};

use kql_functions::{ArithmeticFunc, ChoiceFunc, DynamicFunc, Func, LogicFunc, TextFunc, TimeFunc};

/// How many arguments there are to be.
#[derive(Clone, Copy, Debug, PartialEq, Eq)]
pub(crate) enum Count {
    Exactly(usize),
    Either(usize, usize),
    AtLeast(usize),
    /// One pair or more.
    Pairs,
    /// One pair or more, and one argument behind them.
    PairsAndOne,
}

/// Whether so many arguments are as many as wanted.
#[tactic(auto, unfolding(crate::specs::Counts::is_count))]
pub(crate) fn is_count(count: Count, n: usize) -> bool
    ensures { result ≡ is_count count n }
{
    match count {
        Count::Exactly(k) => n == k,
        Count::Either(k, l) => n == k || n == l,
        Count::AtLeast(k) => k <= n,
        Count::Pairs => 2 <= n && n % 2 == 0,
        Count::PairsAndOne => 3 <= n && n % 2 == 1,
    }
}

/// How many arguments a function takes.
#[tactic(auto, unfolding(crate::specs::Counts::count_of))]
pub(crate) fn count_of(f: Func) -> Count
    ensures { result ≡ count_of f }
{
    match f {
        Func::Arithmetic(f) => arithmetic_count(f),
        Func::Comparison(_) => Count::AtLeast(2),
        Func::Search(_) => Count::Exactly(2),
        Func::Logic(f) => logic_count(f),
        Func::Choice(f) => choice_count(f),
        Func::Conversion(_) => Count::Exactly(1),
        Func::Text(f) => text_count(f),
        Func::Time(f) => time_count(f),
        Func::Dynamic(f) => dynamic_count(f),
        Func::Pattern(_) => Count::Exactly(2),
    }
}

#[tactic(auto, unfolding(crate::specs::Counts::arithmetic_count))]
fn arithmetic_count(f: ArithmeticFunc) -> Count
    ensures { result ≡ arithmetic_count f }
{
    match f {
        ArithmeticFunc::Add => Count::Exactly(2),
        ArithmeticFunc::Subtract => Count::Exactly(2),
        ArithmeticFunc::Multiply => Count::Exactly(2),
        ArithmeticFunc::Divide => Count::Exactly(2),
        ArithmeticFunc::Modulo => Count::Exactly(2),
        ArithmeticFunc::Negate => Count::Exactly(1),
        ArithmeticFunc::Abs => Count::Exactly(1),
        ArithmeticFunc::Sign => Count::Exactly(1),
        ArithmeticFunc::Bin => Count::Exactly(2),
        ArithmeticFunc::Floor => Count::Exactly(2),
        ArithmeticFunc::BinAt => Count::Exactly(3),
        ArithmeticFunc::BinaryAnd => Count::Exactly(2),
        ArithmeticFunc::BinaryOr => Count::Exactly(2),
        ArithmeticFunc::BinaryXor => Count::Exactly(2),
        ArithmeticFunc::BinaryNot => Count::Exactly(1),
    }
}

#[tactic(auto, unfolding(crate::specs::Counts::logic_count))]
fn logic_count(f: LogicFunc) -> Count
    ensures { result ≡ logic_count f }
{
    match f {
        LogicFunc::And => Count::AtLeast(2),
        LogicFunc::Or => Count::AtLeast(2),
        LogicFunc::Not => Count::Exactly(1),
    }
}

#[tactic(auto, unfolding(crate::specs::Counts::choice_count))]
fn choice_count(f: ChoiceFunc) -> Count
    ensures { result ≡ choice_count f }
{
    match f {
        ChoiceFunc::IsNull => Count::Exactly(1),
        ChoiceFunc::IsNotNull => Count::Exactly(1),
        ChoiceFunc::IsEmpty => Count::Exactly(1),
        ChoiceFunc::IsNotEmpty => Count::Exactly(1),
        ChoiceFunc::Iff => Count::Exactly(3),
        ChoiceFunc::Case => Count::PairsAndOne,
        ChoiceFunc::Coalesce => Count::AtLeast(2),
        ChoiceFunc::MinOf => Count::AtLeast(2),
        ChoiceFunc::MaxOf => Count::AtLeast(2),
    }
}

#[tactic(auto, unfolding(crate::specs::Counts::text_count))]
fn text_count(f: TextFunc) -> Count
    ensures { result ≡ text_count f }
{
    match f {
        TextFunc::Length => Count::Exactly(1),
        TextFunc::Substring => Count::Either(2, 3),
        TextFunc::IndexOf => Count::Exactly(2),
        TextFunc::ToUpper => Count::Exactly(1),
        TextFunc::ToLower => Count::Exactly(1),
        TextFunc::Reverse => Count::Exactly(1),
        TextFunc::Concat => Count::AtLeast(1),
        TextFunc::ConcatDelimited => Count::AtLeast(2),
        TextFunc::Replace => Count::Exactly(3),
        TextFunc::Split => Count::Exactly(2),
        TextFunc::Compare => Count::Exactly(2),
    }
}

#[tactic(auto, unfolding(crate::specs::Counts::time_count))]
fn time_count(f: TimeFunc) -> Count
    ensures { result ≡ time_count f }
{
    match f {
        TimeFunc::Now => Count::Either(0, 1),
        TimeFunc::Ago => Count::Exactly(1),
        TimeFunc::StartOfDay => Count::Exactly(1),
        TimeFunc::StartOfWeek => Count::Exactly(1),
        TimeFunc::StartOfMonth => Count::Exactly(1),
        TimeFunc::StartOfYear => Count::Exactly(1),
        TimeFunc::EndOfDay => Count::Exactly(1),
        TimeFunc::EndOfWeek => Count::Exactly(1),
        TimeFunc::EndOfMonth => Count::Exactly(1),
        TimeFunc::EndOfYear => Count::Exactly(1),
        TimeFunc::DayOfWeek => Count::Exactly(1),
        TimeFunc::DayOfMonth => Count::Exactly(1),
        TimeFunc::DayOfYear => Count::Exactly(1),
        TimeFunc::GetYear => Count::Exactly(1),
        TimeFunc::GetMonth => Count::Exactly(1),
        TimeFunc::MonthOfYear => Count::Exactly(1),
        TimeFunc::HourOfDay => Count::Exactly(1),
        TimeFunc::DatetimeAdd => Count::Exactly(3),
        TimeFunc::DatetimeDiff => Count::Exactly(3),
        TimeFunc::DatetimePart => Count::Exactly(2),
        TimeFunc::MakeDatetime => Count::Either(3, 5),
        TimeFunc::UnixSeconds => Count::Exactly(1),
        TimeFunc::UnixMilliseconds => Count::Exactly(1),
    }
}

#[tactic(auto, unfolding(crate::specs::Counts::dynamic_count))]
fn dynamic_count(f: DynamicFunc) -> Count
    ensures { result ≡ dynamic_count f }
{
    match f {
        DynamicFunc::At => Count::Exactly(2),
        DynamicFunc::ParseJson => Count::Exactly(1),
        DynamicFunc::ToDynamic => Count::Exactly(1),
        DynamicFunc::ArrayLength => Count::Exactly(1),
        DynamicFunc::ArrayConcat => Count::AtLeast(1),
        DynamicFunc::ArraySlice => Count::Exactly(3),
        DynamicFunc::ArrayReverse => Count::Exactly(1),
        DynamicFunc::ArrayIndexOf => Count::Exactly(2),
        DynamicFunc::BagKeys => Count::Exactly(1),
        DynamicFunc::BagHasKey => Count::Exactly(2),
        DynamicFunc::BagMerge => Count::AtLeast(2),
        DynamicFunc::PackArray => Count::AtLeast(1),
        DynamicFunc::BagPack => Count::Pairs,
        DynamicFunc::SetUnion => Count::Exactly(2),
        DynamicFunc::SetIntersect => Count::Exactly(2),
        DynamicFunc::SetDifference => Count::Exactly(2),
        DynamicFunc::SetHasElement => Count::Exactly(2),
    }
}
