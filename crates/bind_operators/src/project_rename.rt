//! `project-rename`.
ghost use Rattle.std.specs.Prelude.{◌≡◌, [], ◌∷◌, ◌++◌, ◌||◌, bytes_eq, find, IfOk, map};
ghost use Rattle.bind_expr.specs.Names.{text_of};
ghost use Rattle.bind_expr.specs.Outcome.{Answers};
ghost use Rattle.kql_meaning.specs.Items.{without};
ghost use Rattle.kql_meaning.specs.Tables.{is_name_among, names_of};
ghost use Rattle.kql_syntax.specs.declared.tree.Name.{Name};
ghost use Rattle.bind_operators.specs.Faults.{unless};
ghost use Rattle.bind_operators.specs.Project.{columns_wanted, name_after, old_name, project_answer, project_rename_bound, rename_faults, renamed_columns, renamed_item};

use crate::answers::{pushed, with_next};
use crate::bound::BoundOp;
use crate::known::Known;
use crate::places::{name_place, text_of};
use crate::project::{column_as, columns_without, project_items};
use crate::shape::Shape;
use crate::tables::column_wanted;
use bind_expr::BindFault;
use kql_bound::{BItem, BItems};
use kql_cells::{Column, KText, Names};
use kql_columns::{is_name_among, names_of};
use kql_items::Items;
use kql_lexer::Place;
use kql_syntax::Name;
use std::alloc::{AllocError, Global};

// The old name of each rename is a column's.
#[tactic(auto, using(crate::proofs::AnswerSteps::each_steps))]
fn old_columns(
    alloc: Global,
    operator: Place,
    known: &Known,
    rows: &Shape,
    renames: &[(Name, Name)],
) -> Result<Items<Column>, BindFault>
    ensures exact { Answers result (columns_wanted operator known.now rows.now (map (λ (r : Name × Name). r.1) renames.now)) }
{
    let mut columns = Ok(Items::new(alloc));
    'each: for r in renames {
        let c = column_wanted(alloc, operator, known, rows.columns.columns(), &r.1);
        columns = with_next(columns, c);
    }
    columns
}

// The names of columns that keep theirs.

fn old_names(alloc: Global, renames: &[(Name, Name)]) -> Result<Names, AllocError>
    ensures names { IfOk result (λ ns. ns ≡ map old_name renames.now) }
{
    let mut names = Items::with_capacity(alloc, renames.len())?;
    for r in renames {
        let name = text_of(&r.1).copy(alloc)?;
        names.push(name)?;
    }
    Ok(names)
}

fn kept_names(
    alloc: Global,
    renames: &[(Name, Name)],
    columns: &[Column],
) -> Result<Names, AllocError>
    ensures names { IfOk result (λ ns. ns ≡ names_of (without (map old_name renames.now) columns.now)) }
{
    let olds = old_names(alloc, renames)?;
    let kept = columns_without(alloc, olds.as_slice(), columns)?;
    names_of(alloc, kept.as_slice())
}

// Names that are given twice.

fn is_twice(standing: &[KText], renamed: &[KText], r: &(Name, Name)) -> bool
    ensures twice { result ≡ (is_name_among renamed.now (old_name r.now) || is_name_among standing.now (text_of r.now.0)) }
{
    is_name_among(renamed, text_of(&r.1).as_str())
        || is_name_among(standing, text_of(&r.0).as_str())
}

fn with_name(alloc: Global, names: Names, name: &KText) -> Result<Names, AllocError>
    ensures added { IfOk result (λ ns. ns ≡ names ++ name.now ∷ []) }
{
    let copy = name.copy(alloc)?;
    pushed(names, copy)
}

// The first rename to a name that stands already, or of a column that was renamed before.
#[tactic(auto, using(bind_expr::proofs::AnswerFacts::answer_steps), unfolding(crate::specs::Project::rename_faults, crate::specs::Faults::unless, crate::specs::Faults::fault_if))]
fn first_twice(alloc: Global, kept: Names, renames: &[(Name, Name)]) -> Result<(), BindFault>
    ensures exact { Answers result (unless (rename_faults kept [] renames.now) tt) }
{
    let mut standing = kept;
    let mut renamed = Items::new(alloc);
    let mut left = renames;
    'each: while let Some((r, more)) = left.split_first() {
        if is_twice(standing.as_slice(), renamed.as_slice(), r) {
            return Err(BindFault::Refused {
                code: 411,
                place: name_place(&r.0),
            });
        }
        match with_name(alloc, standing, text_of(&r.0)) {
            Ok(names) => standing = names,
            Err(_) => return Err(BindFault::OutOfMemory),
        }
        match with_name(alloc, renamed, text_of(&r.1)) {
            Ok(names) => renamed = names,
            Err(_) => return Err(BindFault::OutOfMemory),
        }
        left = more;
    }
    Ok(())
}

// Columns under their names behind the renames.

fn name_after<'a>(renames: &'a [(Name, Name)], c: &'a Column) -> &'a KText
    ensures name { result.now ≡ name_after c.now (find (λ (r : Name × Name). bytes_eq (old_name r) c.now.name) renames.now) }
{
    let mut left = renames;
    'each: while let Some((r, more)) = left.split_first() {
        if text_of(&r.1).as_str() == c.name.as_str() {
            return text_of(&r.0);
        }
        left = more;
    }
    &c.name
}

#[tactic(auto, unfolding(crate::specs::Project::renamed_item))]
fn renamed_item(alloc: Global, renames: &[(Name, Name)], c: &Column) -> Result<BItem, AllocError>
    ensures item { IfOk result (λ b. b ≡ renamed_item renames.now c.now) }
{
    column_as(alloc, name_after(renames, c), &c.name)
}

fn renamed_items(
    alloc: Global,
    renames: &[(Name, Name)],
    columns: &[Column],
) -> Result<BItems, AllocError>
    ensures items { IfOk result (λ bs. bs ≡ map (renamed_item renames.now) columns.now) }
{
    let mut items = Items::with_capacity(alloc, columns.len())?;
    for c in columns {
        let item = renamed_item(alloc, renames, c)?;
        items.push(item)?;
    }
    Ok(items)
}

// What is renamed, where no name is given twice.
#[tactic(auto, using(bind_expr::proofs::AnswerFacts::answer_steps, crate::proofs::RenameLaws::rename_steps))]
fn renamed_made(
    alloc: Global,
    operator: Place,
    renames: &[(Name, Name)],
    rows: Shape,
) -> Result<BoundOp, BindFault>
    requires once { rename_faults (names_of (without (map old_name renames.now) rows.columns)) [] renames.now ≡ [] }
    ensures exact { Answers result (project_answer operator rows [] (map (renamed_item renames.now) rows.columns)) }
{
    match renamed_items(alloc, renames, rows.columns.columns()) {
        Ok(items) => project_items(alloc, operator, rows, items),
        Err(_) => Err(BindFault::OutOfMemory),
    }
}

#[tactic(auto, using(bind_expr::proofs::AnswerFacts::answer_steps, crate::proofs::AnswerSteps::after_steps), unfolding(crate::specs::Project::renamed_columns, crate::specs::Project::project_answer))]
fn renamed_columns(
    alloc: Global,
    operator: Place,
    renames: &[(Name, Name)],
    rows: Shape,
) -> Result<BoundOp, BindFault>
    ensures exact { Answers result (renamed_columns operator renames.now rows) }
{
    match kept_names(alloc, renames, rows.columns.columns()) {
        Ok(kept) => match first_twice(alloc, kept, renames) {
            Ok(()) => renamed_made(alloc, operator, renames, rows),
            Err(fault) => {
                drop(rows);
                Err(fault)
            }
        },
        Err(_) => Err(BindFault::OutOfMemory),
    }
}

/// `project-rename`, of new names, each with the old one.
#[tactic(auto, using(bind_expr::proofs::AnswerFacts::answer_steps, crate::proofs::AnswerSteps::bind_steps), unfolding(crate::specs::Project::project_rename_bound))]
pub fn bind_project_rename(
    alloc: Global,
    operator: Place,
    renames: &[(Name, Name)],
    known: &Known,
    rows: Shape,
) -> Result<BoundOp, BindFault>
    ensures exact { Answers result (project_rename_bound operator renames.now known.now rows) }
{
    match old_columns(alloc, operator, known, &rows, renames) {
        Ok(_) => renamed_columns(alloc, operator, renames, rows),
        Err(fault) => Err(fault),
    }
}
