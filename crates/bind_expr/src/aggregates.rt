//! The node of a call of an aggregate, once its arguments are bound.
ghost use Rattle.std.specs.Prelude.{◌≡◌};
ghost use Rattle.bind_expr.specs.AggregateCalls.{aggregate_call, aggregate_forms, aggregate_given, aggregate_stands, aggregate_typed, best_forms, column_forms, first_kept, list_forms, list_given, one_given, one_given_if, one_kept, one_kept_if};
ghost use Rattle.bind_expr.specs.Outcome.{Answers};
ghost use Rattle.kql_meaning.specs.Results.{has_one_result};

use crate::arguments::{Args, takes_aggregate};
use crate::fault::BindFault;
use crate::forms::{are_columns, is_literal};
use crate::kinds::{KindTest, kind_if, meets};
use crate::scope::Spot;
use crate::typed::{Typed, with_kind};
use kql_bound::BExpr;
use kql_cells::Kind;
use kql_functions::{Aggregate, same_kind};
use kql_lexer::Place;
use std::alloc::Global;

#[tactic(auto, unfolding(crate::specs::AggregateCalls::list_forms))]
fn list_forms(exprs: &[BExpr]) -> bool
    ensures { result ≡ list_forms exprs.now }
{
    match exprs {
        [_] => true,
        [_, n] => is_literal(n),
        _ => false,
    }
}

#[tactic(auto, unfolding(crate::specs::AggregateCalls::best_forms))]
fn best_forms(has_star: bool, exprs: &[BExpr]) -> bool
    ensures { result ≡ best_forms has_star exprs.now }
{
    match exprs {
        [] => false,
        [_] => has_star,
        [_, columns @ ..] => are_columns(columns),
    }
}

#[tactic(auto, unfolding(crate::specs::AggregateCalls::column_forms))]
fn column_forms(exprs: &[BExpr]) -> bool
    ensures { result ≡ column_forms exprs.now }
{
    match exprs {
        [] => false,
        _ => are_columns(exprs),
    }
}

/// Whether an aggregate takes arguments of this number and these forms.
#[tactic(auto, unfolding(crate::specs::AggregateCalls::aggregate_forms))]
fn aggregate_forms(f: Aggregate, has_star: bool, exprs: &[BExpr]) -> bool
    ensures { result ≡ aggregate_forms f has_star exprs.now }
{
    match f {
        Aggregate::Count => exprs.len() == 0,
        Aggregate::CountIf => exprs.len() == 1,
        Aggregate::CountDistinct => exprs.len() == 1,
        Aggregate::CountDistinctIf => exprs.len() == 2,
        Aggregate::Sum => exprs.len() == 1,
        Aggregate::SumIf => exprs.len() == 2,
        Aggregate::Min => exprs.len() == 1,
        Aggregate::MinIf => exprs.len() == 2,
        Aggregate::Max => exprs.len() == 1,
        Aggregate::MaxIf => exprs.len() == 2,
        Aggregate::MakeList => list_forms(exprs),
        Aggregate::MakeListIf => exprs.len() == 2,
        Aggregate::MakeSet => list_forms(exprs),
        Aggregate::MakeSetIf => exprs.len() == 2,
        Aggregate::ArgMax => best_forms(has_star, exprs),
        Aggregate::ArgMin => best_forms(has_star, exprs),
        Aggregate::TakeAny => column_forms(exprs),
        Aggregate::BinaryAllAnd => exprs.len() == 1,
        Aggregate::BinaryAllOr => exprs.len() == 1,
        Aggregate::BinaryAllXor => exprs.len() == 1,
    }
}

#[tactic(auto, unfolding(crate::specs::AggregateCalls::one_given))]
fn one_given(test: KindTest, given: Kind, kinds: &[Kind]) -> Option<Kind>
    ensures { result ≡ one_given test given kinds.now }
{
    match kinds {
        [k] => kind_if(meets(test, *k), given),
        _ => None,
    }
}

#[tactic(auto, unfolding(crate::specs::AggregateCalls::one_kept))]
fn one_kept(test: KindTest, kinds: &[Kind]) -> Option<Kind>
    ensures { result ≡ one_kept test kinds.now }
{
    match kinds {
        [k] => kind_if(meets(test, *k), *k),
        _ => None,
    }
}

#[tactic(auto, unfolding(crate::specs::AggregateCalls::one_given_if))]
fn one_given_if(test: KindTest, given: Kind, kinds: &[Kind]) -> Option<Kind>
    ensures { result ≡ one_given_if test given kinds.now }
{
    match kinds {
        [k, condition] => kind_if(meets(test, *k) && same_kind(*condition, Kind::Bool), given),
        _ => None,
    }
}

#[tactic(auto, unfolding(crate::specs::AggregateCalls::one_kept_if))]
fn one_kept_if(test: KindTest, kinds: &[Kind]) -> Option<Kind>
    ensures { result ≡ one_kept_if test kinds.now }
{
    match kinds {
        [k, condition] => kind_if(meets(test, *k) && same_kind(*condition, Kind::Bool), *k),
        _ => None,
    }
}

#[tactic(auto, unfolding(crate::specs::AggregateCalls::list_given))]
fn list_given(kinds: &[Kind]) -> Option<Kind>
    ensures { result ≡ list_given kinds.now }
{
    match kinds {
        [_] => Some(Kind::Dynamic),
        [_, n] => kind_if(same_kind(*n, Kind::Long), Kind::Dynamic),
        _ => None,
    }
}

#[tactic(auto, unfolding(crate::specs::AggregateCalls::first_kept))]
fn first_kept(test: KindTest, kinds: &[Kind]) -> Option<Kind>
    ensures { result ≡ first_kept test kinds.now }
{
    match kinds {
        [] => None,
        [k, ..] => kind_if(meets(test, *k), *k),
    }
}

/// The type that an aggregate gives, or none where it does not take these.
#[tactic(auto, unfolding(crate::specs::AggregateCalls::aggregate_given))]
fn aggregate_given(f: Aggregate, kinds: &[Kind]) -> Option<Kind>
    ensures { result ≡ aggregate_given f kinds.now }
{
    match f {
        Aggregate::Count => kind_if(kinds.len() == 0, Kind::Long),
        Aggregate::CountIf => one_given(KindTest::This(Kind::Bool), Kind::Long, kinds),
        Aggregate::CountDistinct => one_given(KindTest::Key, Kind::Long, kinds),
        Aggregate::CountDistinctIf => one_given_if(KindTest::Key, Kind::Long, kinds),
        Aggregate::Sum => one_kept(KindTest::Addable, kinds),
        Aggregate::SumIf => one_kept_if(KindTest::Addable, kinds),
        Aggregate::Min => one_kept(KindTest::Ordered, kinds),
        Aggregate::MinIf => one_kept_if(KindTest::Ordered, kinds),
        Aggregate::Max => one_kept(KindTest::Ordered, kinds),
        Aggregate::MaxIf => one_kept_if(KindTest::Ordered, kinds),
        Aggregate::MakeList => list_given(kinds),
        Aggregate::MakeListIf => one_given_if(KindTest::Any, Kind::Dynamic, kinds),
        Aggregate::MakeSet => list_given(kinds),
        Aggregate::MakeSetIf => one_given_if(KindTest::Any, Kind::Dynamic, kinds),
        Aggregate::ArgMax => first_kept(KindTest::Ordered, kinds),
        Aggregate::ArgMin => first_kept(KindTest::Ordered, kinds),
        Aggregate::TakeAny => first_kept(KindTest::Any, kinds),
        Aggregate::BinaryAllAnd => one_given(KindTest::This(Kind::Long), Kind::Long, kinds),
        Aggregate::BinaryAllOr => one_given(KindTest::This(Kind::Long), Kind::Long, kinds),
        Aggregate::BinaryAllXor => one_given(KindTest::This(Kind::Long), Kind::Long, kinds),
    }
}

#[tactic(auto, unfolding(kql_meaning::specs::Results::has_one_result))]
fn has_one_result(f: Aggregate, exprs: &[BExpr]) -> bool
    ensures { result ≡ has_one_result f exprs.now }
{
    match f {
        Aggregate::ArgMax => exprs.len() == 1,
        Aggregate::ArgMin => exprs.len() == 1,
        Aggregate::TakeAny => exprs.len() == 1,
        _ => true,
    }
}

/// Whether a call takes these arguments, and stands alone where it has several result columns.
#[tactic(auto, unfolding(crate::specs::AggregateCalls::aggregate_stands))]
fn aggregate_stands(f: Aggregate, args: &Args, spot: Spot) -> bool
    ensures { result ≡ aggregate_stands f args.now spot }
{
    !args.has_stray
        && aggregate_forms(f, args.has_star, args.exprs.as_slice())
        && (spot.alone || has_one_result(f, args.exprs.as_slice()))
}

#[tactic(auto, using(crate::proofs::AnswerFacts::answer_steps))]
fn aggregate_typed(
    alloc: Global,
    place: Place,
    f: Aggregate,
    args: Args,
    spot: Spot,
) -> Result<Typed, BindFault>
    ensures exact { Answers result (aggregate_typed place f args (aggregate_stands f args spot)) }
{
    if aggregate_stands(f, &args, spot) {
        let Args { exprs, kinds, .. } = args;
        match aggregate_given(f, kinds.as_slice()) {
            Some(kind) => with_kind(alloc, BExpr::Aggregate(f, exprs), kind),
            None => {
                drop(exprs);
                Err(BindFault::Refused { code: 404, place })
            }
        }
    } else {
        drop(args);
        Err(BindFault::Refused { code: 403, place })
    }
}

/// A call of an aggregate: 402 where it may not stand, 403, 404.
#[tactic(auto, using(crate::proofs::AnswerFacts::answer_steps), unfolding(crate::specs::AggregateCalls::aggregate_call))]
pub(crate) fn aggregate_call(
    alloc: Global,
    place: Place,
    f: Aggregate,
    args: Args,
    spot: Spot,
) -> Result<Typed, BindFault>
    ensures exact { Answers result (aggregate_call place f args spot) }
{
    if takes_aggregate(spot.position, f) {
        aggregate_typed(alloc, place, f, args, spot)
    } else {
        drop(args);
        Err(BindFault::Refused { code: 402, place })
    }
}
