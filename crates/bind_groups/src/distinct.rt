ghost use Rattle.std.specs.Prelude.{◌≡◌, [], map};
ghost use Rattle.bind_expr.specs.Names.{text_of};
ghost use Rattle.bind_expr.specs.Outcome.{Answers};
ghost use Rattle.kql_cells.specs.Named.{HasDistinctNames, column_name};
ghost use Rattle.kql_functions.specs.Kinds.{is_dynamic};
ghost use Rattle.kql_meaning.specs.Tables.{names_of};
ghost use Rattle.bind_operators.specs.Faults.{each_bound};
ghost use Rattle.bind_operators.specs.Items.{names_twice};
ghost use Rattle.bind_groups.specs.Summarize.{distinct_answer, distinct_bound, distinct_column, key_column};

use crate::groups::grouped;
use crate::names::names_twice;
use bind_expr::BindFault;
use bind_operators::{BoundOp, Known, Shape, column_items, column_wanted, name_place, with_next};
use kql_bound::GroupPlan;
use kql_cells::{Column, Kind};
use kql_items::Items;
use kql_lexer::Place;
use kql_syntax::{Distinct, Name};
use std::alloc::Global;

fn is_dynamic(kind: Kind) -> bool
    ensures dynamic { result ≡ is_dynamic kind }
{
    match kind {
        Kind::Dynamic => true,
        _ => false,
    }
}

// A column to group by, or 404 where it is dynamic.
#[tactic(auto, using(crate::proofs::TwiceLaws::fault_steps), unfolding(crate::specs::Summarize::key_column))]
fn key_column(place: Place, c: Column) -> Result<Column, BindFault>
    ensures exact { Answers result (key_column place c) }
{
    if is_dynamic(c.kind) {
        Err(BindFault::Refused { code: 404, place })
    } else {
        Ok(c)
    }
}

/// A plain column to group by: as `column_wanted` of `bind_operators`, and 404 at its name where it is dynamic.
#[tactic(auto, using(bind_operators::proofs::AnswerSteps::bind_steps), unfolding(crate::specs::Summarize::distinct_column))]
pub fn distinct_column(
    alloc: Global,
    operator: Place,
    known: &Known,
    rows: &Shape,
    n: &Name,
) -> Result<Column, BindFault>
    ensures exact { Answers result (distinct_column operator known.now rows.now n.now) }
{
    match column_wanted(alloc, operator, known, rows.columns.columns(), n) {
        Ok(c) => key_column(name_place(n), c),
        Err(fault) => Err(fault),
    }
}

#[tactic(auto, using(bind_operators::proofs::AnswerSteps::each_steps))]
fn columns_named(
    alloc: Global,
    operator: Place,
    known: &Known,
    rows: &Shape,
    names: &[Name],
) -> Result<Items<Column>, BindFault>
    ensures exact { Answers result (each_bound (distinct_column operator known.now rows.now) names.now) }
{
    let mut columns = Ok(Items::new(alloc));
    'each: for n in names {
        let c = distinct_column(alloc, operator, known, rows, n);
        columns = with_next(columns, c);
    }
    columns
}

#[tactic(auto, using(bind_expr::proofs::AnswerFacts::answer_steps))]
fn key_copy(alloc: Global, place: Place, c: &Column) -> Result<Column, BindFault>
    ensures exact { Answers result (key_column place c.now) }
{
    match c.copy(alloc) {
        Ok(c) => key_column(place, c),
        Err(_) => Err(BindFault::OutOfMemory),
    }
}

// All columns, each to group by.
#[tactic(auto, using(bind_operators::proofs::AnswerSteps::each_steps))]
fn all_columns(alloc: Global, star: Place, columns: &[Column]) -> Result<Items<Column>, BindFault>
    ensures exact { Answers result (each_bound (key_column star) columns.now) }
{
    let mut all = Ok(Items::new(alloc));
    'each: for c in columns {
        let key = key_copy(alloc, star, c);
        all = with_next(all, key);
    }
    all
}

#[tactic(auto, using(bind_expr::proofs::AnswerFacts::answer_steps, crate::proofs::GroupNames::distinct_steps), unfolding(crate::specs::Summarize::distinct_answer))]
fn distinct_over(
    alloc: Global,
    operator: Place,
    rows: Shape,
    columns: &[Column],
) -> Result<BoundOp, BindFault>
    requires distinct { HasDistinctNames column_name columns.now }
    ensures exact { Answers result (distinct_answer operator rows [] columns.now) }
{
    match column_items(alloc, columns) {
        Ok(keys) => grouped(
            alloc,
            operator,
            rows,
            GroupPlan {
                items: Items::new(alloc),
                keys,
            },
        ),
        Err(_) => Err(BindFault::OutOfMemory),
    }
}

// The columns of these names, or 411 where one of the names stands twice.
#[tactic(auto, using(bind_operators::proofs::AnswerSteps::after_steps, crate::proofs::GroupNames::named_steps), unfolding(crate::specs::Summarize::distinct_answer))]
fn distinct_named(
    alloc: Global,
    operator: Place,
    rows: Shape,
    names: &[Name],
    columns: &[Column],
) -> Result<BoundOp, BindFault>
    requires named { names_of columns.now ≡ map text_of names.now }
    ensures exact { Answers result (distinct_answer operator rows (names_twice [] names.now) columns.now) }
{
    match names_twice(alloc, names) {
        Ok(()) => distinct_over(alloc, operator, rows, columns),
        Err(fault) => {
            drop(rows);
            Err(fault)
        }
    }
}

/// `distinct`.
#[tactic(auto, using(bind_operators::proofs::AnswerSteps::bind_steps, crate::proofs::GroupNames::column_steps), unfolding(crate::specs::Summarize::distinct_bound))]
pub fn bind_distinct(
    alloc: Global,
    operator: Place,
    d: &Distinct,
    known: &Known,
    rows: Shape,
) -> Result<BoundOp, BindFault>
    ensures exact { Answers result (distinct_bound operator d.now known.now rows) }
{
    match d {
        Distinct::Star(star) => match all_columns(alloc, *star, rows.columns.columns()) {
            Ok(columns) => distinct_over(alloc, operator, rows, columns.as_slice()),
            Err(fault) => Err(fault),
        },
        Distinct::Columns(names) => {
            let names = names.as_slice();
            match columns_named(alloc, operator, known, &rows, names) {
                Ok(columns) => distinct_named(alloc, operator, rows, names, columns.as_slice()),
                Err(fault) => Err(fault),
            }
        }
    }
}
