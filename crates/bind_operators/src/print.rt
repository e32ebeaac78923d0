//! `print`.
ghost use Rattle.std.specs.Prelude.{◌≡◌, [], IfOk, length};
ghost use Rattle.bind_expr.specs.Outcome.{Answers};
ghost use Rattle.kql_bound.specs.declared.plan.Source.TheVariants as Source;
ghost use Rattle.kql_meaning.specs.Items.{items_columns};
ghost use Rattle.bind_operators.specs.Answers.{width_faults};
ghost use Rattle.bind_operators.specs.Faults.{unless};
ghost use Rattle.bind_operators.specs.Items.{twice_items};
ghost use Rattle.bind_operators.specs.Known.{rows_of};
ghost use Rattle.bind_operators.specs.Sources.{print_bound, print_items, print_link, print_names, printed, with_print_item};

use crate::answers::{checked_width, or_lost};
use crate::bound::BoundPlan;
use crate::items::{
    NamedItems, bind_item, given_name, no_items, number_after, one, twice_items, with_names,
};
use crate::known::Known;
use crate::places::item_start;
use crate::scopes::{no_rows, scope_at};
use crate::tables::straight_from;
use bind_expr::{BindFault, Scope, Typed};
use item_names::print_name;
use kql_bound::{BItems, Source};
use kql_cells::{KText, Names, Schema};
use kql_columns::items_columns;
use kql_lexer::Place;
use kql_meaning::Position;
use kql_syntax::Item;
use std::alloc::{AllocError, Global};

fn print_names(alloc: Global, next: u64, given: Option<KText>) -> Result<Names, AllocError>
    ensures names { IfOk result (λ ns. ns ≡ print_names next given) }
{
    match given {
        None => {
            let name = print_name(alloc, next)?;
            one(alloc, name)
        }
        Some(name) => one(alloc, name),
    }
}

#[tactic(auto, unfolding(crate::specs::Sources::with_print_item))]
fn with_print_item(
    alloc: Global,
    done: NamedItems,
    item: &Item,
    t: Typed,
) -> Result<NamedItems, AllocError>
    ensures added { IfOk result (λ d. d ≡ with_print_item done item.now t) }
{
    let given = given_name(alloc, item)?;
    let names = print_names(alloc, done.next, given)?;
    let next = number_after(done.next)?;
    with_names(done, item_start(item), names, t.expr.into_inner(), next)
}

// One item more, or the first fault.
#[tactic(auto, using(bind_expr::proofs::AnswerFacts::answer_steps))]
fn next_print_item(
    alloc: Global,
    before: Result<NamedItems, BindFault>,
    item: &Item,
    next: Result<Typed, BindFault>,
) -> Result<NamedItems, BindFault>
    ensures exact { Answers result (print_link before item.now next) }
{
    match before {
        Ok(done) => match next {
            Ok(t) => or_lost(with_print_item(alloc, done, item, t)),
            Err(fault) => {
                drop(done);
                Err(fault)
            }
        },
        Err(fault) => {
            drop(next);
            Err(fault)
        }
    }
}

#[tactic(auto, using(crate::proofs::PrintSteps::print_steps))]
fn bind_print_items(alloc: Global, scope: &Scope, items: &[Item]) -> Result<NamedItems, BindFault>
    ensures exact { Answers result (print_items scope.now items.now) }
{
    let mut done = Ok(no_items(alloc, 0));
    'each: for item in items {
        let t = bind_item(alloc, scope, item);
        done = next_print_item(alloc, done, item, t);
    }
    done
}

// The row of items, unless its columns are too many or none.
#[tactic(auto, using(bind_expr::proofs::AnswerFacts::answer_steps, crate::proofs::AnswerSteps::last_steps), unfolding(crate::specs::Known::rows_of))]
fn row_of(
    alloc: Global,
    operator: Place,
    items: BItems,
    columns: Schema,
) -> Result<BoundPlan, BindFault>
    ensures exact { Answers result (unless (width_faults operator columns) (rows_of (Source.Print items) columns)) }
{
    match checked_width(operator, &columns) {
        Ok(()) => or_lost(straight_from(alloc, false, Source::Print(items), columns)),
        Err(fault) => {
            drop(items);
            drop(columns);
            Err(fault)
        }
    }
}

// What is printed, where no two items give columns of one name.
#[tactic(auto, using(bind_expr::proofs::AnswerFacts::answer_steps, crate::proofs::NameLaws::name_steps))]
fn print_made(alloc: Global, operator: Place, done: NamedItems) -> Result<BoundPlan, BindFault>
    requires places { length done.places ≡ length done.items }
    requires once { twice_items done ≡ [] }
    ensures exact { Answers result (unless (width_faults operator (items_columns done.items [])) (rows_of (Source.Print done.items) (items_columns done.items []))) }
{
    match items_columns(alloc, done.items.as_slice(), &[]) {
        Ok(columns) => row_of(alloc, operator, done.items, Schema::from_items(columns)),
        Err(_) => Err(BindFault::OutOfMemory),
    }
}

#[tactic(auto, using(crate::proofs::AnswerSteps::behind_steps), unfolding(crate::specs::Sources::printed))]
fn printed(alloc: Global, operator: Place, done: NamedItems) -> Result<BoundPlan, BindFault>
    requires places { length done.places ≡ length done.items }
    ensures exact { Answers result (printed operator done) }
{
    match twice_items(alloc, &done) {
        Ok(()) => print_made(alloc, operator, done),
        Err(fault) => {
            drop(done);
            Err(fault)
        }
    }
}

/// `print`.
#[tactic(auto, using(bind_expr::proofs::AnswerFacts::answer_steps, crate::proofs::AnswerSteps::bind_steps, crate::proofs::PrintSteps::print_even_steps), unfolding(crate::specs::Sources::print_bound))]
pub fn bind_print(
    alloc: Global,
    operator: Place,
    items: &[Item],
    known: &Known,
) -> Result<BoundPlan, BindFault>
    ensures exact { Answers result (print_bound operator items.now known.now) }
{
    match scope_at(alloc, known, &no_rows(alloc), Position::Plain) {
        Ok(scope) => match bind_print_items(alloc, &scope, items) {
            Ok(done) => printed(alloc, operator, done),
            Err(fault) => Err(fault),
        },
        Err(_) => Err(BindFault::OutOfMemory),
    }
}
