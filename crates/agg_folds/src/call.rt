ghost use Rattle.std.specs.Prelude.{◌≡◌, IfOk, option_map, slice_get};
ghost use Rattle.kql_meaning.specs.Expressions.{first_kind, kinds_in};
ghost use Rattle.kql_meaning.specs.FittingExpressions.{literal_of};
ghost use Rattle.agg_folds.specs.Calls.{call_of, limit_of, needs, number_in};

use crate::cells::count_in;
use kql_bound::BExpr;
use kql_cells::{Column, Kind};
use kql_functions::Aggregate;
use kql_meaning::kind_of;
use std::alloc::{AllocError, Global};

/// A call of an aggregate, as a fold needs it: which aggregate it is, the type of what is summed, and how many values are kept at
/// most, where the call says that.
#[derive(Clone, Copy)]
pub struct FoldCall {
    pub aggregate: Aggregate,
    pub kind: Option<Kind>,
    pub limit: Option<usize>,
}

/// What a fold needs of a call with these arguments over these columns.
#[tactic(auto, unfolding(crate::specs::Calls::call_of))]
pub fn fold_call(
    alloc: Global,
    aggregate: Aggregate,
    args: &[BExpr],
    columns: &[Column],
) -> Result<FoldCall, AllocError>
    ensures call { IfOk result (λ c. c ≡ call_of aggregate args.now columns.now) }
{
    let kind = first_kind(alloc, args, columns)?;
    Ok(FoldCall {
        aggregate,
        kind,
        limit: limit_of(aggregate, args),
    })
}

// The type of the first argument, where there is one.
#[tactic(auto, unfolding(kql_meaning::specs::Expressions::first_kind, kql_meaning::specs::Expressions::kinds_in))]
fn first_kind(alloc: Global, args: &[BExpr], columns: &[Column]) -> Result<Option<Kind>, AllocError>
    ensures kind { IfOk result (λ k. k ≡ first_kind (kinds_in args.now columns.now)) }
{
    match args {
        [] => Ok(None),
        [first, ..] => kind_of(alloc, first, columns),
    }
}

#[tactic(auto, unfolding(crate::specs::Calls::limit_of))]
fn limit_of(aggregate: Aggregate, args: &[BExpr]) -> Option<usize>
    ensures limit { result ≡ limit_of aggregate args.now }
{
    match aggregate {
        Aggregate::MakeList => second_number(args),
        Aggregate::MakeSet => second_number(args),
        _ => None,
    }
}

// The number that the second argument is, where there is one.
fn second_number(args: &[BExpr]) -> Option<usize>
    ensures number { result ≡ option_map (λ e. number_in (literal_of e)) (slice_get args.now 1) }
{
    match args.get(1) {
        None => None,
        Some(e) => Some(number_in(e)),
    }
}

#[tactic(auto, using(crate::proofs::CallFacts::number_facts))]
fn number_in(e: &BExpr) -> usize
    ensures number { result ≡ number_in (literal_of e.now) }
{
    match e {
        BExpr::Literal(l) => count_in(l.value.as_cell()),
        BExpr::Column(_) => 0,
        BExpr::Step(_) => 0,
        BExpr::Call(_, _) => 0,
        BExpr::Chain(_, _) => 0,
        BExpr::Path(_, _) => 0,
        BExpr::Window(_, _) => 0,
        BExpr::Aggregate(_, _) => 0,
    }
}

/// How many of its arguments, from the first, an aggregate reads at each row: the others are read at the row that is chosen, or
/// are constants.
#[tactic(auto, unfolding(crate::specs::Calls::needs))]
pub fn needs(aggregate: Aggregate) -> usize
    ensures count { result ≡ needs aggregate }
{
    match aggregate {
        Aggregate::Count => 0,
        Aggregate::CountDistinctIf => 2,
        Aggregate::SumIf => 2,
        Aggregate::MinIf => 2,
        Aggregate::MaxIf => 2,
        Aggregate::MakeListIf => 2,
        Aggregate::MakeSetIf => 2,
        _ => 1,
    }
}
