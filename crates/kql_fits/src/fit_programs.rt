//! When a program fits the schemas of the tables that it reads.
ghost use Rattle.std.specs.Prelude.{◌≡◌, IfOk};
ghost use Rattle.kql_meaning.specs.Fits.{fits, has_columns, lets_columns, program_columns, same_columns, table_columns, tables_stand};

use crate::fit_plans::{plan_columns, table_columns};
use kql_bound::{Plan, Program};
use kql_cells::{Column, NamedSchema, Schemas};
use kql_functions::same_kind;
use kql_items::Items;
use std::alloc::{AllocError, Global};

/// Whether a program fits these schemas: its tables stand there with exactly its columns, and each operator fits the columns of the
/// table before it.
#[tactic(auto, unfolding(kql_meaning::specs::Fits::fits))]
pub fn fits(alloc: Global, p: &Program, schemas: &Schemas) -> Result<bool, AllocError>
    ensures fits { IfOk result (λ b. b ≡ fits p.now schemas.now) }
{
    if !tables_stand(alloc, p.tables.schemas(), schemas.schemas())? {
        return Ok(false);
    }
    match program_columns(alloc, p)? {
        None => Ok(false),
        Some(_) => Ok(true),
    }
}

#[tactic(auto, unfolding(kql_meaning::specs::Fits::program_columns))]
fn program_columns(alloc: Global, p: &Program) -> Result<Option<Items<Column>>, AllocError>
    ensures columns { IfOk result (λ o. o ≡ program_columns p.now) }
{
    let tables = p.tables.schemas();
    let Some(lets) = lets_columns(alloc, p.lets.as_slice(), tables)? else {
        return Ok(None);
    };
    plan_columns(alloc, &p.main, tables, lets.as_slice())
}

// The columns of the lets, each of which may name those before it.
#[tactic(auto, using(kql_meaning::proofs::OperatorFitLaws::lets_steps))]
fn lets_columns(
    alloc: Global,
    lets: &[Plan],
    tables: &[NamedSchema],
) -> Result<Option<Items<Items<Column>>>, AllocError>
    ensures columns { IfOk result (λ o. o ≡ lets_columns lets.now tables.now) }
{
    let mut all = Items::with_capacity(alloc, lets.len())?;
    for plan in lets {
        let Some(columns) = plan_columns(alloc, plan, tables, all.as_slice())? else {
            return Ok(None);
        };
        all.push(columns)?;
    }
    Ok(Some(all))
}

// Whether each table of the program stands in the schemas with exactly its columns.
#[tactic(auto, unfolding(kql_meaning::specs::Fits::tables_stand))]
fn tables_stand(
    alloc: Global,
    tables: &[NamedSchema],
    schemas: &[NamedSchema],
) -> Result<bool, AllocError>
    ensures stand { IfOk result (λ b. b ≡ tables_stand tables.now schemas.now) }
{
    let mut left = tables;
    'tables: while let Some((named, more)) = left.split_first() {
        if !stands(alloc, named, schemas)? {
            return Ok(false);
        }
        left = more;
    }
    Ok(true)
}

#[tactic(auto, unfolding(kql_meaning::specs::Fits::has_columns))]
fn stands(alloc: Global, named: &NamedSchema, schemas: &[NamedSchema]) -> Result<bool, AllocError>
    ensures stands { IfOk result (λ b. b ≡ has_columns named.now (table_columns schemas.now named.now.name)) }
{
    match table_columns(alloc, schemas, named.name.as_str())? {
        None => Ok(false),
        Some(columns) => Ok(same_columns(named.schema.columns(), columns.as_slice())),
    }
}

// Whether columns are the same, name by name and type by type.
#[tactic(auto, unfolding(kql_meaning::specs::Fits::same_columns))]
fn same_columns(columns: &[Column], others: &[Column]) -> bool
    ensures same { result ≡ same_columns columns.now others.now }
{
    let mut left = columns;
    let mut right = others;
    'columns: while let Some((column, more)) = left.split_first() {
        let Some((other, rest)) = right.split_first() else {
            return false;
        };
        if column.name.as_str() != other.name.as_str() {
            return false;
        }
        if !same_kind(column.kind, other.kind) {
            return false;
        }
        left = more;
        right = rest;
    }
    match right {
        [] => true,
        [_, ..] => false,
    }
}
