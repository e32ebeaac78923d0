ghost use Rattle.std.specs.Prelude.{◌≡◌, [], ◌∷◌, ◌++◌, false, not, IfOk, length, map};
ghost use Rattle.bind_expr.specs.Outcome.{Answers};
ghost use Rattle.kql_bound.specs.declared.parts.SeriesItem.{SeriesItem};
ghost use Rattle.kql_bound.specs.declared.plan.Op.TheVariants as Op;
ghost use Rattle.kql_functions.specs.Kinds.{has_order};
ghost use Rattle.kql_cells.specs.Named.{HasDistinctNames, column_name};
ghost use Rattle.kql_meaning.specs.MakeSeries.{series_columns};
ghost use Rattle.bind_operators.specs.Answers.{answer};
ghost use Rattle.bind_operators.specs.Faults.{fault_if, unless};
ghost use Rattle.bind_operators.specs.Items.{column_as};
ghost use Rattle.bind_groups.specs.MakeSeries.{axis_bound, bin_faults, bins_bound, make_series_bound, plan_over, series_answer, series_twice};

use crate::groups::bind_group_keys;
use crate::names::twice_beside;
use crate::part::{Axis, NamedSeries};
use crate::series_items::bind_series;
use bind_expr::BindFault;
use bind_operators::{
    BoundOp, Known, NamedItems, Shape, Wanted, answered, bind_constant, column_as, column_wanted,
    name_place,
};
use kql_bound::{BItems, Op, SeriesItem, SeriesPlan};
use kql_cells::{Column, KText, Schema};
use kql_columns::series_columns;
use kql_fits::bins_fit;
use kql_functions::has_order;
use kql_items::Items;
use kql_lexer::Place;
use kql_syntax::{MakeSeries, Name};
use std::alloc::{AllocError, Global};

// The axis.

// A column of an ordered type, or 404.
#[tactic(auto, using(crate::proofs::TwiceLaws::fault_steps))]
fn ordered(place: Place, c: Column) -> Result<Column, BindFault>
    ensures exact { Answers result (unless (fault_if (not (has_order c.kind)) 404 place) c) }
{
    if !has_order(c.kind) {
        return Err(BindFault::Refused { code: 404, place });
    }
    Ok(c)
}

#[tactic(auto, using(bind_operators::proofs::AnswerSteps::bind_steps), unfolding(crate::specs::MakeSeries::axis_bound))]
fn bind_axis(
    alloc: Global,
    operator: Place,
    known: &Known,
    rows: &Shape,
    n: &Name,
) -> Result<Column, BindFault>
    ensures exact { Answers result (axis_bound operator known.now rows.now n.now) }
{
    match column_wanted(alloc, operator, known, rows.columns.columns(), n) {
        Ok(c) => ordered(name_place(n), c),
        Err(fault) => Err(fault),
    }
}

// An axis with its bins.
#[tactic(auto, using(bind_expr::proofs::AnswerFacts::answer_steps, bind_operators::proofs::AnswerSteps::bind_steps), unfolding(crate::specs::MakeSeries::bins_bound))]
fn bind_bins(
    alloc: Global,
    operator: Place,
    known: &Known,
    rows: &Shape,
    axis: Column,
    s: &MakeSeries,
) -> Result<Axis, BindFault>
    ensures exact { Answers result (bins_bound operator known.now rows.now axis s.now) }
{
    let of_axis = Wanted::Is(axis.kind);
    let steps = Wanted::StepOf(axis.kind);
    match bind_constant(alloc, operator, of_axis, known, rows, &s.from) {
        Ok(from) => match bind_constant(alloc, operator, of_axis, known, rows, &s.to) {
            Ok(to) => match bind_constant(alloc, operator, steps, known, rows, &s.step) {
                Ok(step) => Ok(Axis {
                    name: axis.name,
                    from,
                    to,
                    step,
                }),
                Err(fault) => {
                    drop(from);
                    drop(to);
                    Err(fault)
                }
            },
            Err(fault) => {
                drop(from);
                Err(fault)
            }
        },
        Err(fault) => Err(fault),
    }
}

// Columns of one name.

fn items_alone(alloc: Global, items: &[SeriesItem]) -> Result<BItems, AllocError>
    ensures items { IfOk result (λ bs. bs ≡ map (λ (i : SeriesItem). column_as i.name i.name) items.now) }
{
    let mut alone = Items::with_capacity(alloc, items.len())?;
    for item in items {
        let one = column_as(alloc, &item.name, &item.name)?;
        alone.push(one)?;
    }
    Ok(alone)
}

fn copy_places(alloc: Global, places: &[Place]) -> Result<Items<Place>, AllocError>
    ensures same { IfOk result (λ ps. ps ≡ places.now) }
{
    let mut copies = Items::with_capacity(alloc, places.len())?;
    for place in places {
        copies.push(*place)?;
    }
    Ok(copies)
}

// The names of the items, and the axis behind them, each as a column alone.
fn items_and_axis(
    alloc: Global,
    done: &NamedSeries,
    place: Place,
    axis: &KText,
) -> Result<NamedItems, AllocError>
    ensures items { IfOk result (λ d. d.items ≡ map (λ (i : SeriesItem). column_as i.name i.name) done.now.items ++ column_as axis.now axis.now ∷ []) }
    ensures places { IfOk result (λ d. d.places ≡ done.now.places ++ place ∷ []) }
{
    let mut items = items_alone(alloc, done.items.as_slice())?;
    let axis = column_as(alloc, axis, axis)?;
    items.push(axis)?;
    let mut places = copy_places(alloc, done.places.as_slice())?;
    places.push(place)?;
    Ok(NamedItems {
        items,
        places,
        next: done.next,
    })
}

// The first column of a name that stands already.
#[tactic(auto, using(bind_expr::proofs::AnswerFacts::answer_steps, crate::proofs::SeriesNames::twice_steps))]
fn series_twice(
    alloc: Global,
    done: &NamedSeries,
    place: Place,
    axis: &KText,
    keys: &NamedItems,
) -> Result<(), BindFault>
    requires even { length done.now.places ≡ length done.now.items }
    ensures exact { Answers result (unless (series_twice done.now place axis.now keys.now) tt) }
{
    match items_and_axis(alloc, done, place, axis) {
        Ok(front) => twice_beside(alloc, &front, keys),
        Err(_) => Err(BindFault::OutOfMemory),
    }
}

// The operator.

#[tactic(auto, using(crate::proofs::TwiceLaws::fault_steps), unfolding(crate::specs::MakeSeries::bin_faults))]
fn bin_fault(operator: Place, rows: &Shape, plan: &SeriesPlan) -> Result<(), BindFault>
    ensures exact { Answers result (unless (bin_faults operator rows.now plan.now) tt) }
{
    if !bins_fit(plan, rows.columns.columns()) {
        return Err(BindFault::Refused {
            code: 414,
            place: operator,
        });
    }
    Ok(())
}

#[tactic(auto, using(bind_expr::proofs::AnswerFacts::answer_steps, crate::proofs::GroupNames::made_steps))]
fn series_made(
    alloc: Global,
    operator: Place,
    rows: Shape,
    plan: SeriesPlan,
) -> Result<BoundOp, BindFault>
    requires distinct { HasDistinctNames column_name (series_columns plan rows.columns) }
    ensures exact { Answers result (answer operator [] (Op.MakeSeries plan) (series_columns plan rows.columns) false) }
{
    match series_columns(alloc, &plan, rows.columns.columns()) {
        Ok(columns) => answered(
            alloc,
            operator,
            Op::MakeSeries(plan),
            Schema::from_items(columns),
            false,
        ),
        Err(_) => {
            drop(plan);
            Err(BindFault::OutOfMemory)
        }
    }
}

// What is made, where no two columns have one name.
#[tactic(auto, using(bind_operators::proofs::AnswerSteps::after_steps), unfolding(crate::specs::MakeSeries::series_answer))]
fn series_planned(
    alloc: Global,
    operator: Place,
    rows: Shape,
    plan: SeriesPlan,
) -> Result<BoundOp, BindFault>
    requires distinct { HasDistinctNames column_name (series_columns plan rows.columns) }
    ensures exact { Answers result (series_answer operator rows [] plan) }
{
    match bin_fault(operator, &rows, &plan) {
        Ok(()) => series_made(alloc, operator, rows, plan),
        Err(fault) => {
            drop(plan);
            drop(rows);
            Err(fault)
        }
    }
}

#[tactic(auto, using(crate::proofs::SeriesNames::once_steps))]
fn series_once(
    alloc: Global,
    operator: Place,
    rows: Shape,
    place: Place,
    done: NamedSeries,
    axis: Axis,
    keys: NamedItems,
) -> Result<BoundOp, BindFault>
    requires items { length done.places ≡ length done.items }
    requires keys { length keys.places ≡ length keys.items }
    requires none { series_twice done place axis.name keys ≡ [] }
    ensures exact { Answers result (series_answer operator rows [] (plan_over done axis keys)) }
{
    series_planned(
        alloc,
        operator,
        rows,
        SeriesPlan {
            items: done.items,
            axis: axis.name,
            from: axis.from,
            to: axis.to,
            step: axis.step,
            keys: keys.items,
        },
    )
}

#[tactic(auto, using(crate::proofs::SeriesSteps::told_steps))]
fn series_answered(
    alloc: Global,
    operator: Place,
    rows: Shape,
    place: Place,
    done: NamedSeries,
    axis: Axis,
    keys: NamedItems,
) -> Result<BoundOp, BindFault>
    requires items { length done.places ≡ length done.items }
    requires keys { length keys.places ≡ length keys.items }
    ensures exact { Answers result (series_answer operator rows (series_twice done place axis.name keys) (plan_over done axis keys)) }
{
    match series_twice(alloc, &done, place, &axis.name, &keys) {
        Ok(()) => series_once(alloc, operator, rows, place, done, axis, keys),
        Err(fault) => {
            drop(done);
            drop(axis);
            drop(keys);
            drop(rows);
            Err(fault)
        }
    }
}

/// `make-series`.
#[tactic(auto, using(bind_operators::proofs::AnswerSteps::bind_steps, crate::proofs::GroupSteps::even_steps, crate::proofs::SeriesSteps::stepped_steps))]
pub fn bind_make_series(
    alloc: Global,
    operator: Place,
    s: &MakeSeries,
    known: &Known,
    rows: Shape,
) -> Result<BoundOp, BindFault>
    ensures exact { Answers result (make_series_bound operator s.now known.now rows) }
{
    match bind_series(alloc, operator, known, &rows, s.items.as_slice()) {
        Ok(done) => match bind_axis(alloc, operator, known, &rows, &s.axis) {
            Ok(axis) => match bind_bins(alloc, operator, known, &rows, axis, s) {
                Ok(axis) => {
                    match bind_group_keys(alloc, known, &rows, done.next, s.keys.as_slice()) {
                        Ok(keys) => {
                            let place = name_place(&s.axis);
                            series_answered(alloc, operator, rows, place, done, axis, keys)
                        }
                        Err(fault) => {
                            drop(done);
                            drop(axis);
                            Err(fault)
                        }
                    }
                }
                Err(fault) => {
                    drop(done);
                    Err(fault)
                }
            },
            Err(fault) => {
                drop(done);
                Err(fault)
            }
        },
        Err(fault) => Err(fault),
    }
}
