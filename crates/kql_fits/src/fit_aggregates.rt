//! Which aggregates stand where, and the arguments that they take.
ghost use Rattle.std.specs.Prelude.{◌≡◌, IfOk};
ghost use Rattle.kql_meaning.specs.FittingExpressions.{aggregate_takes, best_of, first_row_of, is_of_series, one_of, one_of_if, one_or_first_of, takes_aggregate};
ghost use Rattle.kql_meaning.specs.Results.{has_one_result};
ghost use Rattle.kql_fits.specs.KindTests.{meets};

use crate::kind_tests::{KindTest, has_kind, is_kind};
use crate::literals::is_count;
use crate::scope::{are_plain_columns, is_plain_column};
use kql_bound::BExpr;
use kql_cells::{Column, Kind};
use kql_functions::Aggregate;
use kql_meaning::{Position, kind_of};
use std::alloc::{AllocError, Global};

// Whether `make-series` takes an aggregate.
#[tactic(auto, unfolding(kql_meaning::specs::FittingExpressions::is_of_series))]
fn is_of_series(f: Aggregate) -> bool
    ensures series { result ≡ is_of_series f }
{
    match f {
        Aggregate::Count => true,
        Aggregate::CountIf => true,
        Aggregate::CountDistinct => true,
        Aggregate::CountDistinctIf => true,
        Aggregate::Sum => true,
        Aggregate::SumIf => true,
        Aggregate::Min => true,
        Aggregate::MinIf => true,
        Aggregate::Max => true,
        Aggregate::MaxIf => true,
        _ => false,
    }
}

/// Whether an aggregate may stand in a position.
#[tactic(auto, unfolding(kql_meaning::specs::FittingExpressions::takes_aggregate))]
pub(crate) fn takes_aggregate(at: Position, f: Aggregate) -> bool
    ensures takes { result ≡ takes_aggregate at f }
{
    match at {
        Position::Group => true,
        Position::Series => is_of_series(f),
        _ => false,
    }
}

/// Whether a call has one result column.
#[tactic(auto, unfolding(kql_meaning::specs::Results::has_one_result))]
pub fn has_one_result(f: Aggregate, args: &[BExpr]) -> bool
    ensures one { result ≡ has_one_result f args.now }
{
    match f {
        Aggregate::ArgMax => args.len() == 1,
        Aggregate::ArgMin => args.len() == 1,
        Aggregate::TakeAny => args.len() == 1,
        _ => true,
    }
}

/// Whether an aggregate takes arguments of these numbers, types and forms.
#[tactic(auto, unfolding(kql_meaning::specs::FittingExpressions::aggregate_takes))]
pub(crate) fn aggregate_takes(
    alloc: Global,
    f: Aggregate,
    args: &[BExpr],
    columns: &[Column],
) -> Result<bool, AllocError>
    ensures takes { IfOk result (λ b. b ≡ aggregate_takes f args.now columns.now) }
{
    match f {
        Aggregate::Count => Ok(args.len() == 0),
        Aggregate::CountIf => one_of(alloc, KindTest::This(Kind::Bool), args, columns),
        Aggregate::CountDistinct => one_of(alloc, KindTest::Key, args, columns),
        Aggregate::CountDistinctIf => one_of_if(alloc, KindTest::Key, args, columns),
        Aggregate::Sum => one_of(alloc, KindTest::Addable, args, columns),
        Aggregate::SumIf => one_of_if(alloc, KindTest::Addable, args, columns),
        Aggregate::Min => one_of(alloc, KindTest::Ordered, args, columns),
        Aggregate::MinIf => one_of_if(alloc, KindTest::Ordered, args, columns),
        Aggregate::Max => one_of(alloc, KindTest::Ordered, args, columns),
        Aggregate::MaxIf => one_of_if(alloc, KindTest::Ordered, args, columns),
        Aggregate::MakeList => one_or_first_of(alloc, args, columns),
        Aggregate::MakeListIf => one_of_if(alloc, KindTest::Any, args, columns),
        Aggregate::MakeSet => one_or_first_of(alloc, args, columns),
        Aggregate::MakeSetIf => one_of_if(alloc, KindTest::Any, args, columns),
        Aggregate::ArgMax => best_of(alloc, args, columns),
        Aggregate::ArgMin => best_of(alloc, args, columns),
        Aggregate::TakeAny => Ok(first_row_of(args, columns)),
        Aggregate::BinaryAllAnd => one_of(alloc, KindTest::This(Kind::Long), args, columns),
        Aggregate::BinaryAllOr => one_of(alloc, KindTest::This(Kind::Long), args, columns),
        Aggregate::BinaryAllXor => one_of(alloc, KindTest::This(Kind::Long), args, columns),
    }
}

// One argument of a type that is as asked.
#[tactic(auto, unfolding(kql_meaning::specs::FittingExpressions::one_of))]
fn one_of(
    alloc: Global,
    test: KindTest,
    args: &[BExpr],
    columns: &[Column],
) -> Result<bool, AllocError>
    ensures takes { IfOk result (λ b. b ≡ one_of (meets test) args.now columns.now) }
{
    match args {
        [x] => {
            let kind = kind_of(alloc, x, columns)?;
            Ok(has_kind(test, kind))
        }
        _ => Ok(false),
    }
}

// The same and a condition.
#[tactic(auto, unfolding(kql_meaning::specs::FittingExpressions::one_of_if))]
fn one_of_if(
    alloc: Global,
    test: KindTest,
    args: &[BExpr],
    columns: &[Column],
) -> Result<bool, AllocError>
    ensures takes { IfOk result (λ b. b ≡ one_of_if (meets test) args.now columns.now) }
{
    match args {
        [x, condition] => {
            let kind = kind_of(alloc, x, columns)?;
            let kind_of_condition = kind_of(alloc, condition, columns)?;
            Ok(has_kind(test, kind) && is_kind(Kind::Bool, kind_of_condition))
        }
        _ => Ok(false),
    }
}

// One argument, and perhaps a constant of 0 or more.
#[tactic(auto, unfolding(kql_meaning::specs::FittingExpressions::one_or_first_of))]
fn one_or_first_of(alloc: Global, args: &[BExpr], columns: &[Column]) -> Result<bool, AllocError>
    ensures takes { IfOk result (λ b. b ≡ one_or_first_of args.now columns.now) }
{
    match args {
        [x] => {
            let kind = kind_of(alloc, x, columns)?;
            Ok(kind.is_some())
        }
        [x, most] => {
            let kind = kind_of(alloc, x, columns)?;
            Ok(kind.is_some() && is_count(most))
        }
        _ => Ok(false),
    }
}

// An expression that has an order, and plain columns.
#[tactic(auto, unfolding(kql_meaning::specs::FittingExpressions::best_of))]
fn best_of(alloc: Global, args: &[BExpr], columns: &[Column]) -> Result<bool, AllocError>
    ensures takes { IfOk result (λ b. b ≡ best_of args.now columns.now) }
{
    match args {
        [] => Ok(false),
        [e, more @ ..] => {
            let kind = kind_of(alloc, e, columns)?;
            Ok(has_kind(KindTest::Ordered, kind) && are_plain_columns(columns, more))
        }
    }
}

// Plain columns, one or more.
#[tactic(auto, unfolding(kql_meaning::specs::FittingExpressions::first_row_of))]
fn first_row_of(args: &[BExpr], columns: &[Column]) -> bool
    ensures takes { result ≡ first_row_of args.now columns.now }
{
    match args {
        [] => false,
        [first, more @ ..] => {
            is_plain_column(columns, first) && are_plain_columns(columns, more)
        }
    }
}
