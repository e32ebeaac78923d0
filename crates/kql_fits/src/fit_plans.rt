//! The columns of plans that fit.
ghost use Rattle.std.specs.Prelude.{◌≡◌, slice_get, IfOk, Some};
ghost use Rattle.kql_meaning.specs.Extend.{extend_columns};
ghost use Rattle.kql_meaning.specs.Fits.{joined_columns, known_of, op_columns, ops_columns, plan_columns, plans_columns, source_columns, table_columns, united_columns};
ghost use Rattle.kql_meaning.specs.FittingOperators.{answer_if, columns_if, expand_fits, items_fit, parse_fits, range_fits, scan_fits, series_fits, sort_fits, summarize_fits, where_fits};
ghost use Rattle.kql_meaning.specs.Items.{items_columns};
ghost use Rattle.kql_meaning.specs.MakeSeries.{series_columns};
ghost use Rattle.kql_meaning.specs.MvExpand.{expand_columns};
ghost use Rattle.kql_meaning.specs.Parse.{parse_columns};
ghost use Rattle.kql_meaning.specs.Scan.{scan_columns};
ghost use Rattle.kql_meaning.specs.Sources.{range_columns};
ghost use Rattle.kql_meaning.specs.Summarize.{group_columns};
ghost use Rattle.kql_meaning.specs.TakeAndCount.{count_columns};
ghost use Rattle.kql_meaning.specs.declared.position.Position.TheVariants as position;

use crate::fit_operators::{
    answer_if, expand_fits, items_fit, join_fits, parse_fits, range_fits, series_fits, sort_fits,
    summarize_fits, union_fits, where_fits,
};
use crate::fit_scan::scan_fits;
use crate::kind_tests::{KindTest, has_kind};
use kql_bound::{
    BExpr, BItem, BKey, Expand, GroupPlan, JoinPlan, Lit, Op, ParsePlan, Plan, ScanPlan,
    SeriesPlan, Source,
};
use kql_cells::{Column, KText, NamedSchema, copy_columns};
use kql_columns::{
    count_columns, expand_columns, extend_columns, group_columns, items_columns, join_columns,
    parse_columns, range_columns, scan_columns, series_columns, union_columns,
};
use kql_items::Items;
use kql_meaning::{Position, column_kind};
use std::alloc::{AllocError, Global};

// Sources.

/// The columns of the table of a name.
#[tactic(auto, unfolding(kql_meaning::specs::Fits::table_columns))]
pub(crate) fn table_columns(
    alloc: Global,
    tables: &[NamedSchema],
    name: &str,
) -> Result<Option<Items<Column>>, AllocError>
    ensures columns { IfOk result (λ o. o ≡ table_columns tables.now name.now) }
{
    let mut left = tables;
    'tables: while let Some((named, more)) = left.split_first() {
        if named.name.as_str() == name {
            let columns = copy_columns(alloc, named.schema.columns())?;
            return Ok(Some(columns));
        }
        left = more;
    }
    Ok(None)
}

fn let_columns(
    alloc: Global,
    lets: &[Items<Column>],
    at: usize,
) -> Result<Option<Items<Column>>, AllocError>
    ensures columns { IfOk result (λ o. o ≡ slice_get lets.now at) }
{
    match lets.get(at) {
        None => Ok(None),
        Some(columns) => {
            let columns = copy_columns(alloc, columns.as_slice())?;
            Ok(Some(columns))
        }
    }
}

fn ranged(
    alloc: Global,
    column: &KText,
    from: &Lit,
    to: &Lit,
    step: &Lit,
) -> Result<Option<Items<Column>>, AllocError>
    ensures columns { IfOk result (λ o. o ≡ answer_if (range_fits from.now to.now step.now) (range_columns column.now from.now)) }
{
    let fits = range_fits(from, to, step);
    answer_if(alloc, fits, range_columns(alloc, column, from)?)
}

#[tactic(auto, unfolding(kql_meaning::specs::Fits::source_columns))]
fn source_columns(
    alloc: Global,
    source: &Source,
    tables: &[NamedSchema],
    lets: &[Items<Column>],
) -> Result<Option<Items<Column>>, AllocError>
    ensures columns { IfOk result (λ o. o ≡ source_columns source.now (known_of tables.now lets.now)) }
{
    match source {
        Source::Table(name) => table_columns(alloc, tables, name.as_str()),
        Source::Let(at) => let_columns(alloc, lets, *at),
        Source::Range {
            column,
            from,
            to,
            step,
        } => ranged(alloc, column, from, to, step),
        Source::Print(items) => projected(alloc, items.as_slice(), &[], Position::Plain),
    }
}

// Operators.

fn projected(
    alloc: Global,
    items: &[BItem],
    columns: &[Column],
    at: Position,
) -> Result<Option<Items<Column>>, AllocError>
    ensures columns { IfOk result (λ o. o ≡ answer_if (items_fit items.now columns.now at) (items_columns items.now columns.now)) }
{
    let fits = items_fit(alloc, items, columns, at)?;
    answer_if(alloc, fits, items_columns(alloc, items, columns)?)
}

fn extended(
    alloc: Global,
    items: &[BItem],
    columns: &[Column],
) -> Result<Option<Items<Column>>, AllocError>
    ensures columns { IfOk result (λ o. o ≡ answer_if (items_fit items.now columns.now position.Window) (extend_columns items.now columns.now)) }
{
    let fits = items_fit(alloc, items, columns, Position::Window)?;
    answer_if(alloc, fits, extend_columns(alloc, items, columns)?)
}

fn summarized(
    alloc: Global,
    group: &GroupPlan,
    columns: &[Column],
) -> Result<Option<Items<Column>>, AllocError>
    ensures columns { IfOk result (λ o. o ≡ answer_if (summarize_fits group.now columns.now) (group_columns group.now columns.now)) }
{
    let fits = summarize_fits(alloc, group, columns)?;
    answer_if(alloc, fits, group_columns(alloc, group, columns)?)
}

fn as_series(
    alloc: Global,
    series: &SeriesPlan,
    columns: &[Column],
) -> Result<Option<Items<Column>>, AllocError>
    ensures columns { IfOk result (λ o. o ≡ answer_if (series_fits series.now columns.now) (series_columns series.now columns.now)) }
{
    let fits = series_fits(alloc, series, columns)?;
    answer_if(alloc, fits, series_columns(alloc, series, columns)?)
}

fn expanded(
    alloc: Global,
    expand: &Expand,
    columns: &[Column],
) -> Result<Option<Items<Column>>, AllocError>
    ensures columns { IfOk result (λ o. o ≡ answer_if (expand_fits expand.now columns.now) (expand_columns expand.now columns.now)) }
{
    let fits = expand_fits(alloc, expand, columns)?;
    answer_if(alloc, fits, expand_columns(alloc, expand, columns)?)
}

fn parsed(
    alloc: Global,
    parse: &ParsePlan,
    columns: &[Column],
) -> Result<Option<Items<Column>>, AllocError>
    ensures columns { IfOk result (λ o. o ≡ answer_if (parse_fits parse.now columns.now) (parse_columns parse.now columns.now)) }
{
    let fits = parse_fits(alloc, parse, columns)?;
    answer_if(alloc, fits, parse_columns(alloc, parse, columns)?)
}

fn scanned(
    alloc: Global,
    scan: &ScanPlan,
    columns: &[Column],
) -> Result<Option<Items<Column>>, AllocError>
    ensures columns { IfOk result (λ o. o ≡ answer_if (scan_fits scan.now columns.now) (scan_columns scan.now columns.now)) }
{
    let fits = scan_fits(alloc, scan, columns)?;
    answer_if(alloc, fits, scan_columns(alloc, scan, columns)?)
}

fn kept(alloc: Global, columns: &[Column]) -> Result<Option<Items<Column>>, AllocError>
    ensures columns { IfOk result (λ o. o ≡ Some columns.now) }
{
    let columns = copy_columns(alloc, columns)?;
    Ok(Some(columns))
}

#[tactic(auto, unfolding(kql_meaning::specs::FittingOperators::columns_if))]
fn filtered(
    alloc: Global,
    e: &BExpr,
    columns: &[Column],
) -> Result<Option<Items<Column>>, AllocError>
    ensures columns { IfOk result (λ o. o ≡ columns_if (where_fits e.now columns.now) columns.now) }
{
    if where_fits(alloc, e, columns)? {
        kept(alloc, columns)
    } else {
        Ok(None)
    }
}

#[tactic(auto, unfolding(kql_meaning::specs::FittingOperators::columns_if))]
fn sorted(
    alloc: Global,
    keys: &[BKey],
    columns: &[Column],
) -> Result<Option<Items<Column>>, AllocError>
    ensures columns { IfOk result (λ o. o ≡ columns_if (sort_fits keys.now columns.now) columns.now) }
{
    if sort_fits(alloc, keys, columns)? {
        kept(alloc, columns)
    } else {
        Ok(None)
    }
}

fn counted(alloc: Global) -> Result<Option<Items<Column>>, AllocError>
    ensures columns { IfOk result (λ o. o ≡ Some count_columns) }
{
    let columns = count_columns(alloc)?;
    Ok(Some(columns))
}

#[tactic(auto, unfolding(kql_meaning::specs::Fits::joined_columns))]
fn joined(
    alloc: Global,
    join: &JoinPlan,
    left: &[Column],
    right: Option<Items<Column>>,
) -> Result<Option<Items<Column>>, AllocError>
    ensures columns { IfOk result (λ o. o ≡ joined_columns join.now left.now right) }
{
    let Some(right) = right else {
        return Ok(None);
    };
    let fits = join_fits(join, left, right.as_slice());
    answer_if(
        alloc,
        fits,
        join_columns(alloc, join, left, right.as_slice())?,
    )
}

#[tactic(auto, unfolding(kql_meaning::specs::Fits::united_columns))]
fn united(
    alloc: Global,
    inner: bool,
    first: &[Column],
    others: Option<Items<Items<Column>>>,
) -> Result<Option<Items<Column>>, AllocError>
    ensures columns { IfOk result (λ o. o ≡ united_columns inner first.now others) }
{
    let Some(others) = others else {
        return Ok(None);
    };
    let made = union_columns(alloc, inner, first, others.as_slice())?;
    let fits = union_fits(made.as_slice(), first, others.as_slice());
    answer_if(alloc, fits, made)
}

// The columns that an operator makes.
#[cycle(plan_columns)]
#[tactic(auto, using(kql_meaning::proofs::OperatorFitLaws::op_steps))]
fn op_columns(
    alloc: Global,
    op: &Op,
    tables: &[NamedSchema],
    lets: &[Items<Column>],
    inside: bool,
    columns: &[Column],
) -> Result<Option<Items<Column>>, AllocError>
    ensures columns { IfOk result (λ o. o ≡ op_columns op.now (known_of tables.now lets.now) inside columns.now) }
{
    match op {
        Op::Where(e) => filtered(alloc, e, columns),
        Op::Extend(items) => extended(alloc, items.as_slice(), columns),
        Op::Project(items) => projected(alloc, items.as_slice(), columns, Position::Window),
        Op::Take(_) => kept(alloc, columns),
        Op::Count => counted(alloc),
        Op::Serialize => kept(alloc, columns),
        Op::Sort(keys) => sorted(alloc, keys.as_slice(), columns),
        Op::Top(_, keys) => sorted(alloc, keys.as_slice(), columns),
        Op::Summarize(group) => summarized(alloc, group, columns),
        Op::MakeSeries(series) => as_series(alloc, series, columns),
        Op::MvExpand(expand) => expanded(alloc, expand, columns),
        Op::Parse(parse) => parsed(alloc, parse, columns),
        Op::Join(join, right) => {
            if inside {
                return Ok(None);
            }
            let right = plan_columns(alloc, right, tables, lets)?;
            joined(alloc, join, columns, right)
        }
        Op::Union(inner, others) => {
            if inside {
                return Ok(None);
            }
            let others = plans_columns(alloc, others.as_slice(), tables, lets)?;
            united(alloc, *inner, columns, others)
        }
        Op::Scan(scan) => scanned(alloc, scan, columns),
        Op::Partition(key, ops) => {
            if inside {
                return Ok(None);
            }
            if !has_kind(KindTest::Key, column_kind(key.as_str(), columns)) {
                return Ok(None);
            }
            ops_columns(alloc, ops.as_slice(), tables, lets, true, columns)
        }
    }
}

// The columns after operators, one after another.
#[cycle(plan_columns)]
#[tactic(auto, using(kql_meaning::proofs::OperatorFitLaws::ops_steps))]
fn ops_columns(
    alloc: Global,
    ops: &[Op],
    tables: &[NamedSchema],
    lets: &[Items<Column>],
    inside: bool,
    columns: &[Column],
) -> Result<Option<Items<Column>>, AllocError>
    ensures columns { IfOk result (λ o. o ≡ ops_columns ops.now (known_of tables.now lets.now) inside columns.now) }
{
    let mut made = copy_columns(alloc, columns)?;
    for op in ops {
        let Some(next) = op_columns(alloc, op, tables, lets, inside, made.as_slice())? else {
            return Ok(None);
        };
        made = next;
    }
    Ok(Some(made))
}

// The columns of several plans, where all of them fit.
#[cycle(plan_columns)]
#[tactic(auto, using(kql_meaning::proofs::OperatorFitLaws::plans_steps))]
fn plans_columns(
    alloc: Global,
    plans: &[Plan],
    tables: &[NamedSchema],
    lets: &[Items<Column>],
) -> Result<Option<Items<Items<Column>>>, AllocError>
    ensures columns { IfOk result (λ o. o ≡ plans_columns plans.now (known_of tables.now lets.now)) }
{
    let mut all = Items::with_capacity(alloc, plans.len())?;
    for plan in plans {
        let Some(columns) = plan_columns(alloc, plan, tables, lets)? else {
            return Ok(None);
        };
        all.push(columns)?;
    }
    Ok(Some(all))
}

/// The columns of a plan that fits.
#[cycle(plan_columns)]
#[tactic(auto, using(kql_meaning::proofs::OperatorFitLaws::plan_steps))]
pub(crate) fn plan_columns(
    alloc: Global,
    plan: &Plan,
    tables: &[NamedSchema],
    lets: &[Items<Column>],
) -> Result<Option<Items<Column>>, AllocError>
    ensures columns { IfOk result (λ o. o ≡ plan_columns plan.now (known_of tables.now lets.now)) }
{
    let Some(columns) = source_columns(alloc, &plan.source, tables, lets)? else {
        return Ok(None);
    };
    ops_columns(
        alloc,
        plan.ops.as_slice(),
        tables,
        lets,
        false,
        columns.as_slice(),
    )
}
