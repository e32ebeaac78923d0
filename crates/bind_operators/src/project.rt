ghost use Rattle.std.specs.Prelude.{◌≡◌, [], IfOk, length, map};
ghost use Rattle.bind_expr.specs.Outcome.{Answers};
ghost use Rattle.kql_cells.specs.Named.{HasDistinctNames, column_name};
ghost use Rattle.kql_meaning.specs.Items.{items_columns, without};
ghost use Rattle.kql_meaning.specs.Tables.{names_of};
ghost use Rattle.bind_operators.specs.Items.{column_as, column_item};
ghost use Rattle.bind_operators.specs.Project.{chosen, columns_in, columns_wanted, project_answer, project_away_bound, project_bound, project_keep_bound, projected};

use crate::answers::{answered, with_next};
use crate::bound::BoundOp;
use crate::items::{NamedItems, bind_items, twice_items};
use crate::known::Known;
use crate::scopes::scope_at;
use crate::shape::Shape;
use crate::tables::column_wanted;
use bind_expr::BindFault;
use kql_bound::{BExpr, BItem, BItems, Op};
use kql_cells::{Column, KText, Schema};
use kql_columns::{is_name_among, items_columns, names_of};
use kql_items::Items;
use kql_lexer::Place;
use kql_meaning::Position;
use kql_syntax::{Item, Name};
use std::alloc::{AllocError, Global};

// Items that give columns of different names.
#[tactic(auto, using(bind_expr::proofs::AnswerFacts::answer_steps, crate::proofs::NameLaws::made_steps), unfolding(crate::specs::Project::project_answer))]
pub(crate) fn project_items(
    alloc: Global,
    operator: Place,
    rows: Shape,
    items: BItems,
) -> Result<BoundOp, BindFault>
    requires distinct { HasDistinctNames column_name (items_columns items rows.columns) }
    ensures exact { Answers result (project_answer operator rows [] items) }
{
    match items_columns(alloc, items.as_slice(), rows.columns.columns()) {
        Ok(columns) => answered(
            alloc,
            operator,
            Op::Project(items),
            Schema::from_items(columns),
            rows.serial,
        ),
        Err(_) => Err(BindFault::OutOfMemory),
    }
}

#[tactic(auto, using(crate::proofs::AnswerSteps::after_steps, crate::proofs::NameLaws::name_steps), unfolding(crate::specs::Project::projected, crate::specs::Project::project_answer))]
fn projected(
    alloc: Global,
    operator: Place,
    rows: Shape,
    done: NamedItems,
) -> Result<BoundOp, BindFault>
    requires places { length done.places ≡ length done.items }
    ensures exact { Answers result (projected operator rows done) }
{
    match twice_items(alloc, &done) {
        Ok(()) => project_items(alloc, operator, rows, done.items),
        Err(fault) => {
            drop(done);
            drop(rows);
            Err(fault)
        }
    }
}

/// `project`.
#[tactic(auto, using(bind_expr::proofs::AnswerFacts::answer_steps, crate::proofs::AnswerSteps::bind_steps, crate::proofs::NameLaws::even_steps), unfolding(crate::specs::Project::project_bound))]
pub fn bind_project(
    alloc: Global,
    operator: Place,
    items: &[Item],
    known: &Known,
    rows: Shape,
) -> Result<BoundOp, BindFault>
    ensures exact { Answers result (project_bound operator items.now known.now rows) }
{
    match scope_at(alloc, known, &rows, Position::Window) {
        Ok(scope) => match bind_items(alloc, &scope, items) {
            Ok(done) => projected(alloc, operator, rows, done),
            Err(fault) => Err(fault),
        },
        Err(_) => Err(BindFault::OutOfMemory),
    }
}

// Columns that remain.

/// A column as an item, under its own name or another.
#[tactic(auto, unfolding(crate::specs::Items::column_as))]
pub fn column_as(alloc: Global, name: &KText, column: &KText) -> Result<BItem, AllocError>
    ensures item { IfOk result (λ b. b ≡ column_as name.now column.now) }
{
    let mut names = Items::with_capacity(alloc, 1)?;
    names.push(name.copy(alloc)?)?;
    Ok(BItem {
        names,
        expr: BExpr::Column(column.copy(alloc)?),
    })
}

/// Columns as items, each under its own name.
pub fn column_items(alloc: Global, columns: &[Column]) -> Result<BItems, AllocError>
    ensures items { IfOk result (λ bs. bs ≡ map column_item columns.now) }
{
    let mut items = Items::with_capacity(alloc, columns.len())?;
    for c in columns {
        let item = column_as(alloc, &c.name, &c.name)?;
        items.push(item)?;
    }
    Ok(items)
}

// Some of the columns, in their order.
#[tactic(auto, using(bind_expr::proofs::AnswerFacts::answer_steps, crate::proofs::NameLaws::name_steps), unfolding(crate::specs::Project::chosen))]
fn chosen(
    alloc: Global,
    operator: Place,
    rows: Shape,
    columns: &[Column],
) -> Result<BoundOp, BindFault>
    requires distinct { HasDistinctNames column_name columns.now }
    ensures exact { Answers result (chosen operator rows columns.now) }
{
    match column_items(alloc, columns) {
        Ok(items) => project_items(alloc, operator, rows, items),
        Err(_) => Err(BindFault::OutOfMemory),
    }
}

// Each of these names is a column's.
#[tactic(auto, using(crate::proofs::AnswerSteps::each_steps), unfolding(crate::specs::Project::columns_wanted))]
fn columns_wanted(
    alloc: Global,
    operator: Place,
    known: &Known,
    rows: &Shape,
    names: &[Name],
) -> Result<Items<Column>, BindFault>
    ensures exact { Answers result (columns_wanted operator known.now rows.now names.now) }
{
    let mut columns = Ok(Items::new(alloc));
    'each: for n in names {
        let c = column_wanted(alloc, operator, known, rows.columns.columns(), n);
        columns = with_next(columns, c);
    }
    columns
}

// The columns without these names, and those with them.
#[tactic(auto, unfolding(kql_meaning::specs::Items::without))]
pub(crate) fn columns_without(
    alloc: Global,
    names: &[KText],
    columns: &[Column],
) -> Result<Items<Column>, AllocError>
    ensures columns { IfOk result (λ cs. cs ≡ without names.now columns.now) }
{
    let mut kept = Items::with_capacity(alloc, columns.len())?;
    for c in columns {
        if !is_name_among(names, c.name.as_str()) {
            let copy = c.copy(alloc)?;
            kept.push(copy)?;
        }
    }
    Ok(kept)
}

#[tactic(auto, unfolding(crate::specs::Project::columns_in))]
fn columns_with(
    alloc: Global,
    names: &[KText],
    columns: &[Column],
) -> Result<Items<Column>, AllocError>
    ensures columns { IfOk result (λ cs. cs ≡ columns_in names.now columns.now) }
{
    let mut kept = Items::with_capacity(alloc, columns.len())?;
    for c in columns {
        if is_name_among(names, c.name.as_str()) {
            let copy = c.copy(alloc)?;
            kept.push(copy)?;
        }
    }
    Ok(kept)
}

fn other_columns(
    alloc: Global,
    away: &[Column],
    columns: &[Column],
) -> Result<Items<Column>, AllocError>
    ensures columns { IfOk result (λ cs. cs ≡ without (names_of away.now) columns.now) }
{
    let names = names_of(alloc, away)?;
    columns_without(alloc, names.as_slice(), columns)
}

fn same_columns(
    alloc: Global,
    kept: &[Column],
    columns: &[Column],
) -> Result<Items<Column>, AllocError>
    ensures columns { IfOk result (λ cs. cs ≡ columns_in (names_of kept.now) columns.now) }
{
    let names = names_of(alloc, kept)?;
    columns_with(alloc, names.as_slice(), columns)
}

/// `project-away`.
#[tactic(auto, using(bind_expr::proofs::AnswerFacts::answer_steps, crate::proofs::AnswerSteps::bind_steps, crate::proofs::NameLaws::kept_steps), unfolding(crate::specs::Project::project_away_bound))]
pub fn bind_project_away(
    alloc: Global,
    operator: Place,
    names: &[Name],
    known: &Known,
    rows: Shape,
) -> Result<BoundOp, BindFault>
    ensures exact { Answers result (project_away_bound operator names.now known.now rows) }
{
    match columns_wanted(alloc, operator, known, &rows, names) {
        Ok(away) => match other_columns(alloc, away.as_slice(), rows.columns.columns()) {
            Ok(columns) => chosen(alloc, operator, rows, columns.as_slice()),
            Err(_) => Err(BindFault::OutOfMemory),
        },
        Err(fault) => Err(fault),
    }
}

/// `project-keep`.
#[tactic(auto, using(bind_expr::proofs::AnswerFacts::answer_steps, crate::proofs::AnswerSteps::bind_steps, crate::proofs::NameLaws::kept_steps), unfolding(crate::specs::Project::project_keep_bound))]
pub fn bind_project_keep(
    alloc: Global,
    operator: Place,
    names: &[Name],
    known: &Known,
    rows: Shape,
) -> Result<BoundOp, BindFault>
    ensures exact { Answers result (project_keep_bound operator names.now known.now rows) }
{
    match columns_wanted(alloc, operator, known, &rows, names) {
        Ok(kept) => match same_columns(alloc, kept.as_slice(), rows.columns.columns()) {
            Ok(columns) => chosen(alloc, operator, rows, columns.as_slice()),
            Err(_) => Err(BindFault::OutOfMemory),
        },
        Err(fault) => Err(fault),
    }
}
