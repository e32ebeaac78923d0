//! Plans: a source, and operators one after another, each a call of the crate that has its body.
ghost use Rattle.std.specs.Prelude.{◌≡◌, ◌<◌, ◌∷◌, [], false, is_some, length, map, Some, IfOk, IfSome, IsFalse, IsTrue, OnOk};
ghost use Rattle.kql_bound.specs.declared.plan.Op.TheVariants as operator;
ghost use Rattle.kql_cells.specs.Named.{HasDistinctNames, column_name, place_of};
ghost use Rattle.kql_meaning.specs.FittingOperators.{items_fit};
ghost use Rattle.kql_meaning.specs.Items.{items_columns};
ghost use Rattle.kql_meaning.specs.Partition.{partition_table};
ghost use Rattle.kql_meaning.specs.Plans.{one_after_another, op_means, plan_means};
ghost use Rattle.kql_meaning.specs.Project.{project_table};
ghost use Rattle.kql_meaning.specs.Scan.{scan_table};
ghost use Rattle.kql_meaning.specs.Sources.{let_table};
ghost use Rattle.kql_meaning.specs.declared.position.Position.TheVariants as position;
ghost use Rattle.scan_ops.specs.Steps.{scan_answers};
ghost use Rattle.kql_plain.specs.AtHand.{OpFits, OpsFit, PlanFits, PlansFit, plans_mean, world_of};
ghost use Rattle.kql_plain.specs.Inputs.{input_table};
ghost use Rattle.kql_plain.specs.Moved.{left_behind, moved_let};
ghost use Rattle.kql_plain.specs.Readings.{is_let_not, ops_name};

use crate::input::{Input, lent_tables};
use crate::keys::{emptied, rows_by_key};
use crate::sources::source_table;
use join_op::join_tables;
use kql_bound::{BItem, Op, Plan, ScanPlan, Source};
use kql_values::{Catalogue, Table};
use order_ops::{sort_rows, top_rows};
use parse_op::parse_rows;
use row_ops::count_rows;
use scan_ops::{scan_keyed, scan_owned, scan_rows};
use series_op::series_rows;
use std::alloc::{AllocError, Global};
use std::mem::replace;
use summarize_op::summarize_rows;
use table_ops::{expand_rows, union_tables};
use window_ops::{extend_rows, project_rows, where_rows, window_rows};

/// The table of a plan: its source, and then its operators. Where the source is the last reading of a let, the let's table is moved, and
/// its columns stay in its place, without rows.
pub(crate) fn plan_table(
    alloc: Global,
    plan: &Plan,
    catalogue: &Catalogue,
    lets: &mut [Table],
    is_last: bool,
) -> Result<Table, AllocError>
    requires fits { PlanFits plan.now (world_of catalogue.now lets.old) }
    requires last { IsTrue is_last → IsTrue (is_let_not (λ i. ops_name i plan.now.ops) plan.now.source) }
    ensures table { IfOk result (λ t. t ≡ plan_means plan.now (world_of catalogue.now lets.old)) }
    ensures lets { OnOk result (lets.new ≡ left_behind (moved_let is_last plan.now.source) lets.old) }
{
    match moved_let(&plan.source, is_last) {
        Some(at) => {
            let table = moved_table(alloc, at, plan.ops.as_slice(), catalogue, lets)?;
            Ok(table)
        }
        None => {
            let table = lent_table(alloc, plan, catalogue, lets)?;
            Ok(table)
        }
    }
}

/// The let whose table a source takes: that which it is, where this is its last reading.
#[tactic(auto, unfolding(crate::specs::Moved::moved_let))]
pub fn moved_let(source: &Source, is_last: bool) -> Option<usize>
    ensures at { result ≡ moved_let is_last source.now }
{
    match source {
        Source::Table(_) => None,
        Source::Let(at) => { if is_last { Some(*at) } else { None } }
        Source::Range { .. } => None,
        Source::Print(_) => None,
    }
}

// What operators that do not name a let make of its table, which is moved.
fn moved_table(
    alloc: Global,
    at: usize,
    ops: &[Op],
    catalogue: &Catalogue,
    lets: &mut [Table],
) -> Result<Table, AllocError>
    requires there { at < length lets.old }
    requires fits { OpsFit ops.now (world_of catalogue.now lets.old) (let_table lets.old at) }
    requires free { IsFalse (ops_name at ops.now) }
    ensures table { IfOk result (λ t. t ≡ one_after_another (map op_means ops.now) (world_of catalogue.now lets.old) (let_table lets.old at)) }
    ensures lets { OnOk result (lets.new ≡ left_behind (Some at) lets.old) }
{
    let empty = emptied(alloc, &lets[at])?;
    let table = replace(&mut lets[at], empty);
    let made = ops_input(alloc, ops, catalogue, lets, Input::Owned(table))?;
    let table = made.into_table(alloc)?;
    Ok(table)
}

// The table of a plan. One of the catalogue or of a let is read where it stands, and copied where the plan changes it.
fn lent_table(
    alloc: Global,
    plan: &Plan,
    catalogue: &Catalogue,
    lets: &[Table],
) -> Result<Table, AllocError>
    requires fits { PlanFits plan.now (world_of catalogue.now lets.now) }
    ensures table { IfOk result (λ t. t ≡ plan_means plan.now (world_of catalogue.now lets.now)) }
{
    let made = plan_input(alloc, plan, catalogue, lets)?;
    let table = made.into_table(alloc)?;
    Ok(table)
}

// The same, to be read: a plan that is a source alone lends a table of the catalogue or of a let.
#[cycle(plan_input)]
#[tactic(auto, using(crate::proofs::PlanLaws::plan_steps))]
fn plan_input<'a>(
    alloc: Global,
    plan: &Plan,
    catalogue: &'a Catalogue,
    lets: &'a [Table],
) -> Result<Input<'a>, AllocError>
    requires fits { PlanFits plan.now (world_of catalogue.now lets.now) }
    ensures table { IfOk result (λ t. input_table t ≡ plan_means plan.now (world_of catalogue.now lets.now)) }
{
    match source_table(alloc, &plan.source, catalogue, lets) {
        Ok(source) => ops_input(alloc, plan.ops.as_slice(), catalogue, lets, source),
        Err(e) => Err(e),
    }
}

// The tables of plans, in order, to be read.
#[cycle(plan_input)]
fn plans_inputs<'a>(
    alloc: Global,
    plans: &[Plan],
    catalogue: &'a Catalogue,
    lets: &'a [Table],
) -> Result<Vec<Input<'a>>, AllocError>
    requires fits { PlansFit plans.now (world_of catalogue.now lets.now) }
    ensures tables { IfOk result (λ ts. map input_table ts.items ≡ plans_mean plans.now (world_of catalogue.now lets.now)) }
{
    let mut made = Vec::with_capacity(alloc, plans.len())?;
    for plan in plans {
        let table = plan_input(alloc, plan, catalogue, lets)?;
        made.push(table)?;
    }
    Ok(made)
}

/// What operators make of a table, one after another. One that changes nothing hands its table on as it is.
#[cycle(plan_input)]
pub fn ops_input<'a>(
    alloc: Global,
    ops: &[Op],
    catalogue: &Catalogue,
    lets: &[Table],
    from: Input<'a>,
) -> Result<Input<'a>, AllocError>
    requires fits { OpsFit ops.now (world_of catalogue.now lets.now) (input_table from) }
    ensures table { IfOk result (λ t. input_table t ≡ one_after_another (map op_means ops.now) (world_of catalogue.now lets.now) (input_table from.entry)) }
{
    let mut made = from;
    for op in ops {
        if changes(op) {
            let next = op_table(alloc, op, catalogue, lets, made)?;
            made = Input::Owned(next);
        }
    }
    Ok(made)
}

/// Whether an operator may give another table than it takes: `serialize` alone does not.
pub fn changes(op: &Op) -> bool
    ensures unchanged { result ≡ false → op.now ≡ operator.Serialize }
{
    match op {
        Op::Serialize => false,
        _ => true,
    }
}

// What one operator makes of a table.
#[cycle(plan_input)]
#[tactic(auto, using(crate::proofs::OperatorLaws::op_steps))]
fn op_table(
    alloc: Global,
    op: &Op,
    catalogue: &Catalogue,
    lets: &[Table],
    from: Input<'_>,
) -> Result<Table, AllocError>
    requires fits { OpFits op.now (world_of catalogue.now lets.now) (input_table from) }
    ensures table { IfOk result (λ t. t ≡ op_means op.now (world_of catalogue.now lets.now) (input_table from.entry)) }
{
    match op {
        Op::Where(e) => where_rows(alloc, from.as_table(), e),
        Op::Extend(items) => {
            let table = from.into_table(alloc)?;
            extend_rows(alloc, table, items.as_slice())
        }
        Op::Project(items) => projected(alloc, items.as_slice(), from),
        Op::Take(n) => from.into_first(alloc, *n),
        Op::Count => count_rows(alloc, from.as_table()),
        Op::Serialize => from.into_table(alloc),
        Op::Sort(keys) => sort_rows(alloc, from.as_table(), keys.as_slice()),
        Op::Top(n, keys) => top_rows(alloc, from.as_table(), *n, keys.as_slice()),
        Op::Summarize(group) => summarize_rows(alloc, from.as_table(), group),
        Op::MakeSeries(series) => series_rows(alloc, from.as_table(), series),
        Op::MvExpand(expand) => expand_rows(alloc, from.as_table(), expand),
        Op::Parse(parse) => {
            let table = from.into_table(alloc)?;
            parse_rows(alloc, table, parse)
        }
        Op::Join(join, right) => {
            let right = plan_input(alloc, right, catalogue, lets)?;
            join_tables(alloc, from.as_table(), right.as_table(), join)
        }
        Op::Union(inner, others) => {
            let others = plans_inputs(alloc, others.as_slice(), catalogue, lets)?;
            let tables = lent_tables(alloc, others.as_slice())?;
            union_tables(alloc, *inner, from.as_table(), tables.as_slice())
        }
        Op::Scan(scan) => scanned(alloc, scan, from),
        Op::Partition(key, ops) => {
            let table = from.as_table();
            if let Some(scan) = scan_alone(ops.as_slice()) {
                return scanned_by_key(alloc, table, key.as_str(), scan);
            }
            let none = emptied(alloc, table)?;
            let empty = ops_input(alloc, ops.as_slice(), catalogue, lets, Input::Owned(none))?;
            let mut made = empty.into_table(alloc)?;
            made.truncate(0);
            let keyed = rows_by_key(alloc, table, key.as_str())?;
            let lists = &keyed;
            for number in 0..lists.len() {
                let rows = table.gather(alloc, lists.get(number))?;
                let given = ops_input(alloc, ops.as_slice(), catalogue, lets, Input::Owned(rows))?;
                let part = given.into_table(alloc)?;
                made.append(part)?;
            }
            Ok(made)
        }
    }
}

// `project`: of a table that is lent no more than the items is copied, and columns of one that is owned are moved.
fn projected(alloc: Global, items: &[BItem], from: Input<'_>) -> Result<Table, AllocError>
    requires fits { IsTrue (items_fit items.now (input_table from).columns position.Window) }
    requires names { HasDistinctNames column_name (items_columns items.now (input_table from).columns) }
    ensures table { IfOk result (λ t. t ≡ project_table items.now (input_table from.entry)) }
{
    match from {
        Input::Lent(t) => window_rows(alloc, t, items),
        Input::Owned(t) => project_rows(alloc, t, items),
    }
}

// `scan`: a table that is lent is copied only where columns are declared, and one that is owned never.
fn scanned(alloc: Global, scan: &ScanPlan, from: Input<'_>) -> Result<Table, AllocError>
    requires fits { IsTrue (scan_answers scan.now (input_table from).columns) }
    ensures table { IfOk result (λ t. t ≡ scan_table scan.now (input_table from.entry)) }
{
    match from {
        Input::Lent(t) => scan_rows(alloc, t, scan),
        Input::Owned(t) => scan_owned(alloc, t, scan),
    }
}

// The scan that operators are, where they are one scan and nothing else.
fn scan_alone(ops: &[Op]) -> Option<&ScanPlan>
    ensures alone { IfSome result (λ s. ops.now ≡ operator.Scan s.now ∷ []) }
{
    match ops {
        [Op::Scan(scan)] => Some(scan),
        _ => None,
    }
}

// The partition of a scan: one pass, with a machine for each key.
fn scanned_by_key(alloc: Global, t: &Table, key: &str, scan: &ScanPlan) -> Result<Table, AllocError>
    requires column { IsTrue (is_some (place_of column_name key.now t.now.columns)) }
    requires fits { IsTrue (scan_answers scan.now t.now.columns) }
    ensures table { IfOk result (λ r. r ≡ partition_table key.now (scan_table scan.now) t.now) }
{
    match t.schema().find(key) {
        Some(place) => scan_keyed(alloc, t, place, scan),
        None => unreachable!(),
    }
}
