//! The columns that are made.
ghost use Rattle.std.specs.Prelude.{◌≡◌, IfOk, unwrap_or, slice_get, []};
ghost use Rattle.kql_meaning.specs.Fits.{known_of, table_columns};
ghost use Rattle.plan_columns.specs.Made.{op_makes, ops_make, plan_makes, plans_make, source_makes};

use kql_bound::{Op, Plan, Source};
use kql_cells::{Column, NamedSchema, copy_columns};
use kql_columns::{
    count_columns, expand_columns, extend_columns, group_columns, items_columns, join_columns,
    parse_columns, range_columns, scan_columns, series_columns, union_columns,
};
use kql_items::Items;
use std::alloc::{AllocError, Global};

// The columns of the table of a name; none where there is no such table.
#[tactic(auto, unfolding(kql_meaning::specs::Fits::table_columns))]
fn table_makes(
    alloc: Global,
    tables: &[NamedSchema],
    name: &str,
) -> Result<Items<Column>, AllocError>
    ensures columns { IfOk result (λ cs. cs ≡ unwrap_or (table_columns tables.now name.now) []) }
{
    let mut left = tables;
    'tables: while let Some((named, more)) = left.split_first() {
        if named.name.as_str() == name {
            return copy_columns(alloc, named.schema.columns());
        }
        left = more;
    }
    Ok(Items::new(alloc))
}

fn let_makes(alloc: Global, lets: &[Items<Column>], at: usize) -> Result<Items<Column>, AllocError>
    ensures columns { IfOk result (λ cs. cs ≡ unwrap_or (slice_get lets.now at) []) }
{
    match lets.get(at) {
        None => Ok(Items::new(alloc)),
        Some(columns) => copy_columns(alloc, columns.as_slice()),
    }
}

/// The columns of a source.
#[tactic(auto, unfolding(crate::specs::Made::source_makes))]
pub fn source_makes(
    alloc: Global,
    source: &Source,
    tables: &[NamedSchema],
    lets: &[Items<Column>],
) -> Result<Items<Column>, AllocError>
    ensures columns { IfOk result (λ cs. cs ≡ source_makes source.now (known_of tables.now lets.now)) }
{
    match source {
        Source::Table(name) => table_makes(alloc, tables, name.as_str()),
        Source::Let(at) => let_makes(alloc, lets, *at),
        Source::Range {
            column,
            from,
            to: _,
            step: _,
        } => range_columns(alloc, column, from),
        Source::Print(items) => items_columns(alloc, items.as_slice(), &[]),
    }
}

/// The columns that an operator makes of those before it.
#[cycle(plan_makes)]
#[tactic(auto, using(crate::proofs::MadeLaws::made_steps))]
pub fn op_makes(
    alloc: Global,
    op: &Op,
    tables: &[NamedSchema],
    lets: &[Items<Column>],
    columns: &[Column],
) -> Result<Items<Column>, AllocError>
    ensures columns { IfOk result (λ cs. cs ≡ op_makes op.now (known_of tables.now lets.now) columns.now) }
{
    match op {
        Op::Where(_) => copy_columns(alloc, columns),
        Op::Extend(items) => extend_columns(alloc, items.as_slice(), columns),
        Op::Project(items) => items_columns(alloc, items.as_slice(), columns),
        Op::Take(_) => copy_columns(alloc, columns),
        Op::Count => count_columns(alloc),
        Op::Serialize => copy_columns(alloc, columns),
        Op::Sort(_) => copy_columns(alloc, columns),
        Op::Top(_, _) => copy_columns(alloc, columns),
        Op::Summarize(group) => group_columns(alloc, group, columns),
        Op::MakeSeries(series) => series_columns(alloc, series, columns),
        Op::MvExpand(expand) => expand_columns(alloc, expand, columns),
        Op::Parse(parse) => parse_columns(alloc, parse, columns),
        Op::Join(join, right) => {
            let right = plan_makes(alloc, right, tables, lets)?;
            join_columns(alloc, join, columns, right.as_slice())
        }
        Op::Union(inner, others) => {
            let others = plans_make(alloc, others.as_slice(), tables, lets)?;
            union_columns(alloc, *inner, columns, others.as_slice())
        }
        Op::Scan(scan) => scan_columns(alloc, scan, columns),
        Op::Partition(_, ops) => ops_make(alloc, ops.as_slice(), tables, lets, columns),
    }
}

// The columns after operators, one after another.
#[cycle(plan_makes)]
#[tactic(auto, using(crate::proofs::MadeLaws::ops_steps))]
fn ops_make(
    alloc: Global,
    ops: &[Op],
    tables: &[NamedSchema],
    lets: &[Items<Column>],
    columns: &[Column],
) -> Result<Items<Column>, AllocError>
    ensures columns { IfOk result (λ cs. cs ≡ ops_make ops.now (known_of tables.now lets.now) columns.now) }
{
    let mut made = copy_columns(alloc, columns)?;
    for op in ops {
        let next = op_makes(alloc, op, tables, lets, made.as_slice())?;
        made = next;
    }
    Ok(made)
}

// The columns of several plans.
#[cycle(plan_makes)]
#[tactic(auto, unfolding(crate::specs::Made::plans_make))]
fn plans_make(
    alloc: Global,
    plans: &[Plan],
    tables: &[NamedSchema],
    lets: &[Items<Column>],
) -> Result<Items<Items<Column>>, AllocError>
    ensures columns { IfOk result (λ all. all ≡ plans_make plans.now (known_of tables.now lets.now)) }
{
    let mut all = Items::with_capacity(alloc, plans.len())?;
    for plan in plans {
        let columns = plan_makes(alloc, plan, tables, lets)?;
        all.push(columns)?;
    }
    Ok(all)
}

/// The columns of a plan.
#[cycle(plan_makes)]
#[tactic(auto, using(crate::proofs::MadeLaws::plan_steps))]
pub fn plan_makes(
    alloc: Global,
    plan: &Plan,
    tables: &[NamedSchema],
    lets: &[Items<Column>],
) -> Result<Items<Column>, AllocError>
    ensures columns { IfOk result (λ cs. cs ≡ plan_makes plan.now (known_of tables.now lets.now)) }
{
    let columns = source_makes(alloc, &plan.source, tables, lets)?;
    ops_make(alloc, plan.ops.as_slice(), tables, lets, columns.as_slice())
}
