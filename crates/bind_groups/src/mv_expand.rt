ghost use Rattle.std.specs.Prelude.{◌≡◌, [], ◌∷◌, ◌++◌, IfOk, length, map};
ghost use Rattle.bind_expr.specs.Outcome.{Answers};
ghost use Rattle.kql_bound.specs.declared.parts.ExpandItem.{ExpandItem};
ghost use Rattle.bind_operators.specs.Faults.{unless};
ghost use Rattle.bind_operators.specs.Items.{one_name};
ghost use Rattle.bind_groups.specs.MvExpand.{expand_answer, expand_faults, expand_link, expand_part_bound, expanded, expands_bound, is_array, mv_expand_bound, no_expands, with_expand};

use crate::kinds::bind_kind_or;
use crate::part::{ExpandPart, NamedExpands};
use crate::written_names::first_written_twice;
use bind_expr::{BindFault, Scope};
use bind_operators::{
    BoundOp, Known, Shape, Wanted, answered, bind_typed, given_name, item_start, names_or_own,
    number_behind, or_lost, scope_at,
};
use kql_bound::{Expand as ExpandPlan, ExpandItem, Op};
use kql_cells::{KText, Kind, Names, Schema};
use kql_columns::expand_columns;
use kql_items::Items;
use kql_lexer::Place;
use kql_meaning::Position;
use kql_syntax::{Expand, ExpandKind, Item};
use std::alloc::{AllocError, Global};

#[tactic(auto, unfolding(crate::specs::MvExpand::is_array))]
fn is_array(form: Option<ExpandKind>) -> bool
    ensures array { result ≡ is_array form }
{
    match form {
        None => false,
        Some(ExpandKind::Bag(_)) => false,
        Some(ExpandKind::Array(_)) => true,
    }
}

// Items.

#[tactic(auto, using(bind_expr::proofs::AnswerFacts::answer_steps, bind_operators::proofs::AnswerSteps::bind_steps), unfolding(crate::specs::MvExpand::expand_part_bound))]
fn bind_part(alloc: Global, scope: &Scope, x: &Expand) -> Result<ExpandPart, BindFault>
    ensures exact { Answers result (expand_part_bound scope.now x.now) }
{
    match bind_typed(alloc, Wanted::Is(Kind::Dynamic), &x.item.value, scope) {
        Ok(typed) => match bind_kind_or(Kind::Dynamic, &x.to) {
            Ok(to) => Ok(ExpandPart { typed, to }),
            Err(fault) => {
                drop(typed);
                Err(fault)
            }
        },
        Err(fault) => Err(fault),
    }
}

// The name of an item with one column.
fn one_name(alloc: Global, names: &[KText]) -> Result<KText, AllocError>
    ensures name { IfOk result (λ n. n ≡ one_name names.now) }
{
    match names {
        [] => Ok(KText::new(alloc)),
        [name, ..] => name.copy(alloc),
    }
}

fn with_named(
    done: NamedExpands,
    place: Place,
    item: ExpandItem,
    next: u64,
) -> Result<NamedExpands, AllocError>
    ensures added { IfOk result (λ d. d ≡ record { items = done.items ++ item ∷ []; places = done.places ++ place ∷ []; next = next }) }
{
    let NamedExpands { items, places, .. } = done;
    let mut items = items;
    let mut places = places;
    items.push(item)?;
    places.push(place)?;
    Ok(NamedExpands {
        items,
        places,
        next,
    })
}

#[tactic(auto, unfolding(crate::specs::MvExpand::with_expand))]
fn with_expand(
    alloc: Global,
    done: NamedExpands,
    item: &Item,
    x: ExpandPart,
) -> Result<NamedExpands, AllocError>
    ensures added { IfOk result (λ d. d ≡ with_expand done item.now x) }
{
    let given = given_name(alloc, item)?;
    let next = number_behind(done.next, &given, x.typed.expr.get())?;
    let names = names_or_own(alloc, done.next, given, x.typed.expr.get())?;
    let name = one_name(alloc, names.as_slice())?;
    let expanded = ExpandItem {
        name,
        expr: x.typed.expr.into_inner(),
        to: x.to,
    };
    with_named(done, item_start(item), expanded, next)
}

#[tactic(auto, using(bind_expr::proofs::AnswerFacts::answer_steps))]
fn next_expand(
    alloc: Global,
    before: Result<NamedExpands, BindFault>,
    item: &Item,
    next: Result<ExpandPart, BindFault>,
) -> Result<NamedExpands, BindFault>
    ensures exact { Answers result (expand_link before item.now next) }
{
    match before {
        Ok(done) => match next {
            Ok(x) => or_lost(with_expand(alloc, done, item, x)),
            Err(fault) => {
                drop(done);
                Err(fault)
            }
        },
        Err(fault) => {
            drop(next);
            Err(fault)
        }
    }
}

#[tactic(auto, unfolding(crate::specs::MvExpand::no_expands))]
fn no_expands(alloc: Global) -> NamedExpands
    ensures none { result ≡ no_expands }
{
    NamedExpands {
        items: Items::new(alloc),
        places: Items::new(alloc),
        next: 1,
    }
}

#[tactic(auto, using(crate::proofs::ExpandLaws::turn_steps))]
fn bind_expands(alloc: Global, scope: &Scope, items: &[Expand]) -> Result<NamedExpands, BindFault>
    ensures exact { Answers result (expands_bound scope.now items.now) }
{
    let mut done = Ok(no_expands(alloc));
    'each: for x in items {
        let part = bind_part(alloc, scope, x);
        done = next_expand(alloc, done, &x.item, part);
    }
    done
}

// The operator.

fn names_in(alloc: Global, items: &[ExpandItem]) -> Result<Names, AllocError>
    ensures names { IfOk result (λ ns. ns ≡ map (λ (i : ExpandItem). i.name) items.now) }
{
    let mut names = Items::with_capacity(alloc, items.len())?;
    for item in items {
        let name = item.name.copy(alloc)?;
        names.push(name)?;
    }
    Ok(names)
}

// The first item of a name that an item before it has.
#[tactic(auto, using(bind_expr::proofs::AnswerFacts::answer_steps, crate::proofs::ExpandLaws::twice_steps))]
fn expands_once(alloc: Global, done: &NamedExpands) -> Result<(), BindFault>
    ensures exact { Answers result (unless (expand_faults done.now) tt) }
{
    match names_in(alloc, done.items.as_slice()) {
        Ok(names) => first_written_twice(
            alloc,
            Items::new(alloc),
            done.places.as_slice(),
            names.as_slice(),
        ),
        Err(_) => Err(BindFault::OutOfMemory),
    }
}

// What is expanded, where no two items have one name.
#[tactic(auto, using(bind_expr::proofs::AnswerFacts::answer_steps, crate::proofs::ExpandLaws::column_steps))]
fn expand_made(
    alloc: Global,
    operator: Place,
    form: Option<ExpandKind>,
    rows: Shape,
    done: NamedExpands,
) -> Result<BoundOp, BindFault>
    requires places { length done.places ≡ length done.items }
    requires once { expand_faults done ≡ [] }
    ensures exact { Answers result (expand_answer operator rows [] (record { array = is_array form; items = done.items })) }
{
    let plan = ExpandPlan {
        array: is_array(form),
        items: done.items,
    };
    match expand_columns(alloc, &plan, rows.columns.columns()) {
        Ok(columns) => answered(
            alloc,
            operator,
            Op::MvExpand(plan),
            Schema::from_items(columns),
            rows.serial,
        ),
        Err(_) => {
            drop(plan);
            Err(BindFault::OutOfMemory)
        }
    }
}

#[tactic(auto, using(bind_operators::proofs::AnswerSteps::after_steps), unfolding(crate::specs::MvExpand::expanded))]
fn expanded(
    alloc: Global,
    operator: Place,
    form: Option<ExpandKind>,
    rows: Shape,
    done: NamedExpands,
) -> Result<BoundOp, BindFault>
    requires places { length done.places ≡ length done.items }
    ensures exact { Answers result (expanded operator form rows done) }
{
    match expands_once(alloc, &done) {
        Ok(()) => expand_made(alloc, operator, form, rows, done),
        Err(fault) => {
            drop(done);
            drop(rows);
            Err(fault)
        }
    }
}

/// `mv-expand`.
#[tactic(auto, using(bind_expr::proofs::AnswerFacts::answer_steps, bind_operators::proofs::AnswerSteps::bind_steps, crate::proofs::ExpandLaws::even_steps), unfolding(crate::specs::MvExpand::mv_expand_bound))]
pub fn bind_mv_expand(
    alloc: Global,
    operator: Place,
    form: Option<ExpandKind>,
    items: &[Expand],
    known: &Known,
    rows: Shape,
) -> Result<BoundOp, BindFault>
    ensures exact { Answers result (mv_expand_bound operator form items.now known.now rows) }
{
    match scope_at(alloc, known, &rows, Position::Plain) {
        Ok(scope) => match bind_expands(alloc, &scope, items) {
            Ok(done) => expanded(alloc, operator, form, rows, done),
            Err(fault) => Err(fault),
        },
        Err(_) => Err(BindFault::OutOfMemory),
    }
}
