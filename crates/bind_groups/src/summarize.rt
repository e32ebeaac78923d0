ghost use Rattle.std.specs.Prelude.{◌≡◌, [], IfOk, length, option_to_list};
ghost use Rattle.std.specs.List.{list_any};
ghost use Rattle.std.specs.Option.{option_copied};
ghost use Rattle.bind_expr.specs.Bound.{bound_expr};
ghost use Rattle.bind_expr.specs.GroupForms.{has_bad_count};
ghost use Rattle.bind_expr.specs.Outcome.{Answers};
ghost use Rattle.kql_bound.specs.declared.parts.BItem.{BItem};
ghost use Rattle.kql_meaning.specs.FittingExpressions.{column_of};
ghost use Rattle.bind_operators.specs.Faults.{fault_if, unless};
ghost use Rattle.bind_operators.specs.Items.{items_from};
ghost use Rattle.bind_groups.specs.Summarize.{asked_item, column_alone, formed_item, group_answer, group_faults, group_item, group_items_bound, group_plan, group_scope, groups_bound, key_columns, named_item, shares_name, summarize_bound, summarized};

use crate::forms::{has_bad_count, has_bare_column, has_several_results};
use crate::groups::{bind_group_keys, grouped};
use crate::names::twice_beside;
use bind_expr::{BindFault, Scope, Typed, bind_expr};
use bind_operators::{
    BoundOp, Known, NamedItems, Shape, expr_inside, next_item, no_items, one, scope_at,
};
use kql_bound::{BExpr, BItem, GroupPlan};
use kql_cells::{KText, Names};
use kql_items::Items;
use kql_lexer::Place;
use kql_meaning::Position;
use kql_syntax::{Groups, Item, Summarize};
use std::alloc::{AllocError, Global};

// Key columns.

// The column that an expression is.
#[tactic(auto, using(kql_meaning::proofs::ExpressionFitLaws::column_steps))]
fn column_of(e: &BExpr) -> Option<&str>
    ensures column { option_copied result ≡ column_of e.now }
{
    match e {
        BExpr::Literal(_) => None,
        BExpr::Column(name) => Some(name.as_str()),
        BExpr::Step(_) => None,
        BExpr::Call(_, _) => None,
        BExpr::Chain(_, _) => None,
        BExpr::Path(_, _) => None,
        BExpr::Window(_, _) => None,
        BExpr::Aggregate(_, _) => None,
    }
}

fn name_alone(alloc: Global, e: &BExpr) -> Result<Names, AllocError>
    ensures name { IfOk result (λ ns. ns ≡ option_to_list (column_of e.now)) }
{
    match column_of(e) {
        Some(name) => one(alloc, KText::from_str(alloc, name)?),
        None => Ok(Items::new(alloc)),
    }
}

// The column that a key is, where it is one alone.
#[tactic(auto, using(crate::proofs::GroupSteps::alone_steps))]
fn column_alone(alloc: Global, scope: &Scope, key: &Item) -> Result<Names, AllocError>
    ensures columns { IfOk result (λ ns. ns ≡ column_alone (bound_expr key.now.value scope.now)) }
{
    match bind_expr(alloc, &key.value, scope) {
        Ok(t) => name_alone(alloc, t.expr.get()),
        Err(BindFault::Refused { .. }) => Ok(Items::new(alloc)),
        Err(BindFault::OutOfMemory) => Err(AllocError),
    }
}

#[tactic(auto, unfolding(crate::specs::Summarize::key_columns))]
fn key_columns(alloc: Global, scope: &Scope, keys: &[Item]) -> Result<Names, AllocError>
    ensures columns { IfOk result (λ ns. ns ≡ key_columns scope.now keys.now) }
{
    let mut columns = Items::new(alloc);
    for key in keys {
        let more = column_alone(alloc, scope, key)?;
        columns.append(more)?;
    }
    Ok(columns)
}

// Where an item stands.
#[tactic(auto, unfolding(crate::specs::Summarize::group_scope))]
fn group_scope(
    alloc: Global,
    known: &Known,
    rows: &Shape,
    keys: &[Item],
) -> Result<Scope, AllocError>
    ensures scope { IfOk result (λ s. s ≡ group_scope known.now rows.now keys.now) }
{
    let plain = scope_at(alloc, known, rows, Position::Plain)?;
    let columns = key_columns(alloc, &plain, keys)?;
    let mut scope = scope_at(alloc, known, rows, Position::Group)?;
    scope.keys = columns;
    Ok(scope)
}

// Items.

// An item without columns outside of aggregates.
#[tactic(auto, using(crate::proofs::TwiceLaws::fault_steps))]
fn formed_item(operator: Place, t: Typed) -> Result<Typed, BindFault>
    ensures exact { Answers result (formed_item operator t) }
{
    if has_bare_column(t.expr.get()) {
        drop(t);
        return Err(BindFault::Refused {
            code: 403,
            place: operator,
        });
    }
    Ok(t)
}

// Whether several columns are given one name.
fn shares_name(item: &Item, t: &Typed) -> bool
    ensures shares { result ≡ shares_name item.now t.now }
{
    item.name.is_some() && has_several_results(t.expr.get())
}

// An item that gives one name to one column.
#[tactic(auto, using(crate::proofs::TwiceLaws::fault_steps))]
fn named_item(item: &Item, t: Typed) -> Result<Typed, BindFault>
    ensures exact { Answers result (named_item item.now t) }
{
    if shares_name(item, &t) {
        drop(t);
        return Err(BindFault::Refused {
            code: 403,
            place: expr_inside(&item.value),
        });
    }
    Ok(t)
}

// What an item's value is asked for.
#[tactic(auto, using(bind_operators::proofs::AnswerSteps::bind_steps))]
fn asked_item(operator: Place, item: &Item, t: Typed) -> Result<Typed, BindFault>
    ensures exact { Answers result (asked_item operator item.now t) }
{
    match formed_item(operator, t) {
        Ok(formed) => named_item(item, formed),
        Err(fault) => Err(fault),
    }
}

#[tactic(auto, using(bind_operators::proofs::AnswerSteps::bind_steps), unfolding(crate::specs::Summarize::group_item))]
fn bind_group_item(
    alloc: Global,
    operator: Place,
    scope: &Scope,
    item: &Item,
) -> Result<Typed, BindFault>
    ensures exact { Answers result (group_item operator scope.now item.now) }
{
    match bind_expr(alloc, &item.value, scope) {
        Ok(t) => asked_item(operator, item, t),
        Err(fault) => Err(fault),
    }
}

#[tactic(auto, using(bind_operators::proofs::AnswerSteps::items_steps))]
fn items_over(
    alloc: Global,
    operator: Place,
    scope: &Scope,
    items: &[Item],
) -> Result<NamedItems, BindFault>
    ensures exact { Answers result (items_from (group_item operator scope.now) 1 items.now) }
{
    let mut done = Ok(no_items(alloc, 1));
    'each: for item in items {
        let t = bind_group_item(alloc, operator, scope, item);
        done = next_item(alloc, done, item, t);
    }
    done
}

#[tactic(auto, using(bind_expr::proofs::AnswerFacts::answer_steps), unfolding(crate::specs::Summarize::group_items_bound))]
fn bind_group_items(
    alloc: Global,
    operator: Place,
    known: &Known,
    rows: &Shape,
    items: &[Item],
    keys: &[Item],
) -> Result<NamedItems, BindFault>
    ensures exact { Answers result (group_items_bound operator known.now rows.now items.now keys.now) }
{
    match group_scope(alloc, known, rows, keys) {
        Ok(scope) => items_over(alloc, operator, &scope, items),
        Err(_) => Err(BindFault::OutOfMemory),
    }
}

// The operator.

fn any_bad_count(items: &[BItem]) -> bool
    ensures any { result ≡ list_any (λ (b : BItem). has_bad_count b.expr) items.now }
{
    let mut left = items;
    'each: while let Some((item, more)) = left.split_first() {
        if has_bad_count(&item.expr) {
            return true;
        }
        left = more;
    }
    false
}

#[tactic(auto, using(crate::proofs::TwiceLaws::fault_steps))]
fn count_fault(operator: Place, items: &[BItem]) -> Result<(), BindFault>
    ensures exact { Answers result (unless (fault_if (list_any (λ (b : BItem). has_bad_count b.expr) items.now) 414 operator) tt) }
{
    if any_bad_count(items) {
        Err(BindFault::Refused {
            code: 414,
            place: operator,
        })
    } else {
        Ok(())
    }
}

// The first fault of what is grouped.
#[tactic(auto, using(bind_operators::proofs::AnswerSteps::behind_steps), unfolding(crate::specs::Summarize::group_faults))]
fn group_faults(
    alloc: Global,
    operator: Place,
    items: &NamedItems,
    keys: &NamedItems,
) -> Result<(), BindFault>
    requires even { length items.now.places ≡ length items.now.items }
    ensures exact { Answers result (unless (group_faults operator items.now keys.now) tt) }
{
    match twice_beside(alloc, items, keys) {
        Ok(()) => count_fault(operator, items.items.as_slice()),
        Err(fault) => Err(fault),
    }
}

#[tactic(auto, using(crate::proofs::GroupNames::group_steps))]
fn groups_made(
    alloc: Global,
    operator: Place,
    rows: Shape,
    items: NamedItems,
    keys: NamedItems,
) -> Result<BoundOp, BindFault>
    requires items { length items.places ≡ length items.items }
    requires keys { length keys.places ≡ length keys.items }
    requires none { group_faults operator items keys ≡ [] }
    ensures exact { Answers result (group_answer operator rows [] (group_plan items keys)) }
{
    grouped(
        alloc,
        operator,
        rows,
        GroupPlan {
            items: items.items,
            keys: keys.items,
        },
    )
}

#[tactic(auto, using(bind_operators::proofs::AnswerSteps::after_steps), unfolding(crate::specs::Summarize::summarized))]
fn summarized(
    alloc: Global,
    operator: Place,
    rows: Shape,
    items: NamedItems,
    keys: NamedItems,
) -> Result<BoundOp, BindFault>
    requires items { length items.places ≡ length items.items }
    requires keys { length keys.places ≡ length keys.items }
    ensures exact { Answers result (summarized operator rows items keys) }
{
    match group_faults(alloc, operator, &items, &keys) {
        Ok(()) => groups_made(alloc, operator, rows, items, keys),
        Err(fault) => {
            drop(items);
            drop(keys);
            drop(rows);
            Err(fault)
        }
    }
}

#[tactic(auto, using(bind_operators::proofs::AnswerSteps::bind_steps, crate::proofs::GroupSteps::even_steps), unfolding(crate::specs::Summarize::groups_bound))]
fn bind_groups(
    alloc: Global,
    operator: Place,
    items: &[Item],
    keys: &[Item],
    known: &Known,
    rows: Shape,
) -> Result<BoundOp, BindFault>
    ensures exact { Answers result (groups_bound operator items.now keys.now known.now rows) }
{
    match bind_group_items(alloc, operator, known, &rows, items, keys) {
        Ok(done) => match bind_group_keys(alloc, known, &rows, done.next, keys) {
            Ok(by) => summarized(alloc, operator, rows, done, by),
            Err(fault) => {
                drop(done);
                Err(fault)
            }
        },
        Err(fault) => Err(fault),
    }
}

/// `summarize`.
#[tactic(auto, unfolding(crate::specs::Summarize::summarize_bound))]
pub fn bind_summarize(
    alloc: Global,
    operator: Place,
    s: &Summarize,
    known: &Known,
    rows: Shape,
) -> Result<BoundOp, BindFault>
    ensures exact { Answers result (summarize_bound operator s.now known.now rows) }
{
    match &s.groups {
        Groups::Aggregates(items, keys) => bind_groups(
            alloc,
            operator,
            items.as_slice(),
            keys.as_slice(),
            known,
            rows,
        ),
        Groups::Keys(keys) => { bind_groups(alloc, operator, &[], keys.as_slice(), known, rows) }
    }
}
