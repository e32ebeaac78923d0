//! Calls of aggregates over groups: a vector for each result column.
ghost use Rattle.std.specs.Prelude.{◌≡◌, ◌∷◌, [], true, false, drop, IfOk};
ghost use Rattle.kql_bound.specs.declared.expr.BExpr.TheVariants.{Aggregate as aggregate_call};
ghost use Rattle.kql_scalar_fns.specs.Arguments.{AreWellFormed};
ghost use Rattle.kql_meaning.specs.Results.{results};
ghost use Rattle.summarize_op.specs.Calls.{HasOne, IsCall, best_rows, is_best, is_first};
ghost use Rattle.summarize_op.specs.Columns.{AreColumns};
ghost use Rattle.summarize_op.specs.Grouped.{AreNumbers, over};
ghost use Rattle.summarize_op.specs.Groups.{group_at, zeros};
ghost use Rattle.summarize_op.specs.Picks.{picked_rows};

use crate::arguments::{argument_vectors, first_args};
use crate::groups::zeros;
use crate::passes::{finish_all, fold_groups};
use crate::picks::{chosen_places, picked_column, picked_columns, picked_rows};
use agg_folds::{FoldCall, fold_call, needs};
use kql_bound::BExpr;
use kql_cells::Kind;
use kql_functions::Aggregate;
use kql_items::Items;
use kql_values::{Table, Vector};
use std::alloc::{AllocError, Global};

/// The values of a call, one vector for each of its result columns.
#[tactic(auto, using(crate::proofs::ResultSteps::call_steps))]
pub(crate) fn call_vectors(
    alloc: Global,
    f: Aggregate,
    args: &[BExpr],
    t: &Table,
    numbers: &[usize],
    count: usize,
) -> Result<Vec<Vector>, AllocError>
    requires call { IsCall t.now.columns f args.now }
    requires numbers { AreNumbers t.now numbers.now count }
    ensures values { IfOk result (λ vs. AreColumns count (λ g. results (aggregate_call f args.now) (group_at t.now numbers.now g) 0 []) vs.items) }
{
    if is_best(f) {
        best_vectors(alloc, f, args, t, numbers, count)
    } else if is_first(f) {
        first_vectors(alloc, f, args, t, numbers, count)
    } else {
        let vector = folded_vector(alloc, f, args, t, numbers, count)?;
        with_first(alloc, vector, Vec::new(alloc))
    }
}

/// The values of a call with one result column.
pub(crate) fn call_vector(
    alloc: Global,
    f: Aggregate,
    args: &[BExpr],
    t: &Table,
    numbers: &[usize],
    count: usize,
) -> Result<Vector, AllocError>
    requires call { IsCall t.now.columns f args.now }
    requires one { HasOne f args.now }
    requires numbers { AreNumbers t.now numbers.now count }
    ensures values { IfOk result (λ v. v ≡ over (aggregate_call f args.now) t.now numbers.now count) }
    ensures form { IfOk result AreWellFormed }
{
    let _columns = t.schema().columns();
    if is_first(f) {
        let first = first_vector(alloc, f, args, t, numbers, count)?;
        return Ok(first);
    }
    let folded = folded_vector(alloc, f, args, t, numbers, count)?;
    Ok(folded)
}

#[tactic(auto, unfolding(crate::specs::Calls::is_first))]
fn is_first(f: Aggregate) -> bool
    ensures { result ≡ is_first f }
{
    match f {
        Aggregate::TakeAny => true,
        _ => false,
    }
}

#[tactic(auto, unfolding(crate::specs::Calls::is_best))]
fn is_best(f: Aggregate) -> bool
    ensures { result ≡ is_best f }
{
    match f {
        Aggregate::ArgMax | Aggregate::ArgMin => true,
        _ => false,
    }
}

// The type of the values of a call.
fn kind_of_values(call: FoldCall) -> Kind {
    match call.aggregate {
        Aggregate::MakeList | Aggregate::MakeListIf => Kind::Dynamic,
        Aggregate::MakeSet | Aggregate::MakeSetIf => Kind::Dynamic,
        Aggregate::Sum | Aggregate::SumIf => call.kind.unwrap_or(Kind::Dynamic),
        Aggregate::Min | Aggregate::MinIf => call.kind.unwrap_or(Kind::Dynamic),
        Aggregate::Max | Aggregate::MaxIf => call.kind.unwrap_or(Kind::Dynamic),
        Aggregate::ArgMax | Aggregate::ArgMin => call.kind.unwrap_or(Kind::Dynamic),
        _ => Kind::Long,
    }
}

// The values of folds: one pass over the rows.
#[tactic(auto, using(crate::proofs::ResultSteps::zero_steps))]
fn folded_vector(
    alloc: Global,
    f: Aggregate,
    args: &[BExpr],
    t: &Table,
    numbers: &[usize],
    count: usize,
) -> Result<Vector, AllocError>
    requires call { IsCall t.now.columns f args.now }
    requires rows { is_first f ≡ false }
    requires numbers { AreNumbers t.now numbers.now count }
    ensures values { IfOk result (λ v. v ≡ over (aggregate_call f args.now) t.now numbers.now count) }
{
    let call = fold_call(alloc, f, args, t.schema().columns())?;
    let columns = argument_vectors(alloc, t, first_args(args, needs(f)))?;
    let folds = fold_groups(alloc, call, columns.as_slice(), numbers, count)?;
    let kind = kind_of_values(call);
    let values = finish_all(
        alloc,
        kind,
        folds.as_slice(),
        call,
        columns.as_slice(),
        numbers,
    )?;
    Ok(values)
}

// The greatest or least values, and the places of their rows among those of the groups.
#[derive(Drop)]
struct Best {
    values: Vector,
    places: Items<usize>,
}

#[tactic(auto, using(crate::proofs::ResultSteps::zero_steps))]
fn best_of(
    alloc: Global,
    f: Aggregate,
    args: &[BExpr],
    t: &Table,
    numbers: &[usize],
    count: usize,
) -> Result<Best, AllocError>
    requires call { IsCall t.now.columns f args.now }
    requires best { is_best f ≡ true }
    requires numbers { AreNumbers t.now numbers.now count }
    ensures values { IfOk result (λ b. b.values ≡ over (aggregate_call f args.now) t.now numbers.now count) }
    ensures places { IfOk result (λ b. b.places ≡ best_rows f args.now t.now numbers.now count) }
{
    let call = fold_call(alloc, f, args, t.schema().columns())?;
    let columns = argument_vectors(alloc, t, first_args(args, needs(f)))?;
    let folds = fold_groups(alloc, call, columns.as_slice(), numbers, count)?;
    let kind = kind_of_values(call);
    let values = finish_all(
        alloc,
        kind,
        folds.as_slice(),
        call,
        columns.as_slice(),
        numbers,
    )?;
    let places = chosen_places(alloc, folds.as_slice(), call, columns.as_slice(), numbers)?;
    Ok(Best { values, places })
}

// The values of `arg_max` or `arg_min`.
#[tactic(auto, using(crate::proofs::ResultSteps::best_steps))]
fn best_vectors(
    alloc: Global,
    f: Aggregate,
    args: &[BExpr],
    t: &Table,
    numbers: &[usize],
    count: usize,
) -> Result<Vec<Vector>, AllocError>
    requires call { IsCall t.now.columns f args.now }
    requires best { is_best f ≡ true }
    requires numbers { AreNumbers t.now numbers.now count }
    ensures values { IfOk result (λ vs. AreColumns count (λ g. results (aggregate_call f args.now) (group_at t.now numbers.now g) 0 []) vs.items) }
{
    let Best { values, places } = best_of(alloc, f, args, t, numbers, count)?;
    let rows = picked_rows(alloc, numbers, count, places.as_slice())?;
    let rest = picked_columns(alloc, t, rest_of(args), rows.as_slice())?;
    let all = with_first(alloc, values, rest)?;
    Ok(all)
}

// All but the first of these.
fn rest_of(args: &[BExpr]) -> &[BExpr]
    ensures rest { result.now ≡ drop 1 args.now }
{
    match args {
        [] => args,
        [_, rest @ ..] => rest,
    }
}

// A vector before others.
fn with_first(alloc: Global, first: Vector, rest: Vec<Vector>) -> Result<Vec<Vector>, AllocError>
    ensures all { IfOk result (λ vs. vs.items ≡ first ∷ rest.items) }
{
    let mut rest = rest;
    let mut all = Vec::new(alloc);
    all.push(first)?;
    all.append(&mut rest)?;
    Ok(all)
}

// The first row of each group, where there is one.
#[tactic(auto, using(crate::proofs::ResultSteps::zero_steps))]
fn first_rows(
    alloc: Global,
    t: &Table,
    numbers: &[usize],
    count: usize,
) -> Result<Vec<Option<usize>>, AllocError>
    requires numbers { AreNumbers t.now numbers.now count }
    ensures rows { IfOk result (λ rs. rs.items ≡ picked_rows numbers.now count (zeros count)) }
{
    let places = zeros(alloc, count)?;
    let rows = picked_rows(alloc, numbers, count, places.as_slice())?;
    Ok(rows)
}

// The values of `take_any`.
#[tactic(auto, using(crate::proofs::ResultSteps::first_steps))]
fn first_vectors(
    alloc: Global,
    f: Aggregate,
    args: &[BExpr],
    t: &Table,
    numbers: &[usize],
    count: usize,
) -> Result<Vec<Vector>, AllocError>
    requires call { IsCall t.now.columns f args.now }
    requires first { is_first f ≡ true }
    requires numbers { AreNumbers t.now numbers.now count }
    ensures values { IfOk result (λ vs. AreColumns count (λ g. results (aggregate_call f args.now) (group_at t.now numbers.now g) 0 []) vs.items) }
{
    let rows = first_rows(alloc, t, numbers, count)?;
    let vectors = picked_columns(alloc, t, args, rows.as_slice())?;
    Ok(vectors)
}

// The values of `take_any` of one column.
#[tactic(auto, using(crate::proofs::ResultSteps::first_steps))]
fn first_vector(
    alloc: Global,
    f: Aggregate,
    args: &[BExpr],
    t: &Table,
    numbers: &[usize],
    count: usize,
) -> Result<Vector, AllocError>
    requires call { IsCall t.now.columns f args.now }
    requires first { is_first f ≡ true }
    requires numbers { AreNumbers t.now numbers.now count }
    ensures values { IfOk result (λ v. v ≡ over (aggregate_call f args.now) t.now numbers.now count) }
{
    let [column, ..] = args else { unreachable!() };
    let rows = first_rows(alloc, t, numbers, count)?;
    let vector = picked_column(alloc, t, column, rows.as_slice())?;
    Ok(vector)
}
