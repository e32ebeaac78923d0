ghost use Rattle.std.specs.Prelude.{◌≡◌, [], length, IfOk, Ok};
ghost use Rattle.bind_expr.specs.Outcome.{Answers};
ghost use Rattle.kql_bound.specs.declared.plan.Op.TheVariants as Op;
ghost use Rattle.kql_meaning.specs.Extend.{extend_columns};
ghost use Rattle.bind_operators.specs.Answers.{answer};
ghost use Rattle.bind_operators.specs.Extend.{extend_bound, extended, lending, lent, names_left, own_left, serialize_bound};
ghost use Rattle.bind_operators.specs.Items.{twice_items};

use crate::answers::{answered, or_lost, over, serialised};
use crate::bound::BoundOp;
use crate::items::{NamedItems, bind_items, twice_items};
use crate::known::Known;
use crate::scopes::scope_at;
use crate::shape::Shape;
use bind_expr::BindFault;
use kql_bound::{BItem, Op};
use kql_cells::{KText, Names, Schema};
use kql_columns::{extend_columns, is_name_among, items_names};
use kql_items::Items;
use kql_lexer::Place;
use kql_meaning::Position;
use kql_syntax::Item;
use std::alloc::{AllocError, Global};

// Names that are none of these.
#[tactic(auto, unfolding(crate::specs::Extend::names_left))]
fn names_left(alloc: Global, set: &[KText], names: &[KText]) -> Result<Names, AllocError>
    ensures left { IfOk result (λ ns. ns ≡ names_left set.now names.now) }
{
    let mut kept = Items::with_capacity(alloc, names.len())?;
    for n in names {
        if !is_name_among(set, n.as_str()) {
            let copy = n.copy(alloc)?;
            kept.push(copy)?;
        }
    }
    Ok(kept)
}

// The columns of the table itself that items leave.
#[tactic(auto, unfolding(crate::specs::Extend::own_left))]
fn own_left(alloc: Global, items: &[BItem], own: &[KText]) -> Result<Names, AllocError>
    ensures left { IfOk result (λ ns. ns ≡ own_left items.now own.now) }
{
    let set = items_names(alloc, items)?;
    names_left(alloc, set.as_slice(), own)
}

// What is extended, where no two items give columns of one name.
#[tactic(auto, using(bind_expr::proofs::AnswerFacts::answer_steps, crate::proofs::NameLaws::name_steps))]
fn extend_made(
    alloc: Global,
    operator: Place,
    columns: &Schema,
    serial: bool,
    done: NamedItems,
) -> Result<BoundOp, BindFault>
    requires places { length done.places ≡ length done.items }
    requires once { twice_items done ≡ [] }
    ensures exact { Answers result (answer operator [] (Op.Extend done.items) (extend_columns done.items columns.now) serial) }
{
    match extend_columns(alloc, done.items.as_slice(), columns.columns()) {
        Ok(made) => answered(
            alloc,
            operator,
            Op::Extend(done.items),
            Schema::from_items(made),
            serial,
        ),
        Err(_) => Err(BindFault::OutOfMemory),
    }
}

#[tactic(auto, unfolding(crate::specs::Extend::lending))]
fn lending(own: Names, b: BoundOp) -> BoundOp
    ensures { result ≡ lending own b }
{
    let BoundOp { op, after } = b;
    BoundOp {
        op,
        after: Shape {
            columns: after.columns,
            serial: after.serial,
            own,
        },
    }
}

// The same, with the columns that are still the table's own.
#[tactic(auto, using(bind_expr::proofs::AnswerFacts::answer_steps))]
fn lent(made: Result<BoundOp, BindFault>, own: Names) -> Result<BoundOp, BindFault>
    ensures exact { Answers result (lent own made) }
{
    match made {
        Ok(b) => Ok(lending(own, b)),
        Err(fault) => {
            drop(own);
            Err(fault)
        }
    }
}

#[tactic(auto, using(crate::proofs::ExtendSteps::extended_steps))]
fn extended(
    alloc: Global,
    operator: Place,
    rows: Shape,
    done: NamedItems,
) -> Result<BoundOp, BindFault>
    requires places { length done.places ≡ length done.items }
    ensures exact { Answers result (extended operator rows done) }
{
    match twice_items(alloc, &done) {
        Ok(()) => match own_left(alloc, done.items.as_slice(), rows.own.as_slice()) {
            Ok(own) => {
                let made = extend_made(alloc, operator, &rows.columns, rows.serial, done);
                lent(made, own)
            }
            Err(_) => Err(BindFault::OutOfMemory),
        },
        Err(fault) => {
            drop(done);
            drop(rows);
            Err(fault)
        }
    }
}

/// `extend`.
#[tactic(auto, using(bind_expr::proofs::AnswerFacts::answer_steps, crate::proofs::AnswerSteps::bind_steps, crate::proofs::NameLaws::even_steps), unfolding(crate::specs::Extend::extend_bound))]
pub fn bind_extend(
    alloc: Global,
    operator: Place,
    items: &[Item],
    known: &Known,
    rows: Shape,
) -> Result<BoundOp, BindFault>
    ensures exact { Answers result (extend_bound operator items.now known.now rows) }
{
    match scope_at(alloc, known, &rows, Position::Window) {
        Ok(scope) => match bind_items(alloc, &scope, items) {
            Ok(done) => extended(alloc, operator, rows, done),
            Err(fault) => Err(fault),
        },
        Err(_) => Err(BindFault::OutOfMemory),
    }
}

/// `serialize`.
#[tactic(auto, using(bind_expr::proofs::AnswerFacts::answer_steps), unfolding(crate::specs::Extend::serialize_bound))]
pub fn bind_serialize(
    alloc: Global,
    operator: Place,
    items: &[Item],
    known: &Known,
    rows: Shape,
) -> Result<BoundOp, BindFault>
    ensures exact { Answers result (serialize_bound operator items.now known.now rows) }
{
    match items {
        [] => or_lost(over(alloc, Op::Serialize, serialised(alloc, rows))),
        [_, ..] => bind_extend(alloc, operator, items, known, serialised(alloc, rows)),
    }
}
