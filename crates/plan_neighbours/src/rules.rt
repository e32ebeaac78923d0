//! The rules: for each the function of its definition, in the order of the table.
ghost use Rattle.std.specs.Prelude.{◌≡◌, ◌∷◌, ◌++◌, [], IfOk, Some, min};
ghost use Rattle.kql_bound.specs.declared.plan.Op.TheVariants as op;
ghost use Rattle.kql_meaning.specs.Fits.{known_of};
ghost use Rattle.kql_meaning.specs.FittingExpressions.{column_of, literal_of};
ghost use Rattle.plan_rules.specs.Rules.{are_all_columns, bare_serialize, idle_projection, is_name, is_one_name, is_true_literal, is_true_value, sort_then_take, top_then_take, true_filter, two_sorts, two_takes, unseen_then_count};
ghost use Rattle.plan_neighbours.specs.Table.{change_rule, merge_rule, rename_rule, single_rule};

use crate::filters::two_filters;
use crate::inner::{group_then_filter, project_then_filter, two_projections};
use crate::right::join_then_right_filter;
use kql_bound::{BExpr, BItem, Keys, Op, Ops, clone_keys};
use kql_cells::{Column, KText, NamedSchema, Value};
use kql_items::Items;
use plan_swaps::{filter_of, is_count, is_serialize, keeps_count, project_of, sort_of, take_of};
use std::alloc::{AllocError, Global};

pub(crate) fn one(alloc: Global, op: Op) -> Result<Ops, AllocError>
    ensures one { IfOk result (λ ops. ops ≡ op ∷ []) }
{
    let mut ops = Items::new(alloc);
    ops.push(op)?;
    Ok(ops)
}

// One operator.

#[tactic(auto, unfolding(plan_rules::specs::Rules::is_true_value))]
fn is_true_value(value: &Value) -> bool
    ensures holds { result ≡ is_true_value value.now }
{
    match value {
        Value::Null => false,
        Value::Bool(b) => *b,
        Value::Long(_) => false,
        Value::Text(_) => false,
        Value::Moment(_) => false,
        Value::Span(_) => false,
        Value::Dynamic(_) => false,
    }
}

#[tactic(auto, using(kql_meaning::proofs::ExpressionFitLaws::literal_steps))]
fn is_true(e: &BExpr) -> bool
    ensures holds { result ≡ is_true_literal (literal_of e.now) }
{
    match e {
        BExpr::Literal(literal) => is_true_value(&literal.value),
        BExpr::Column(_) => false,
        BExpr::Step(_) => false,
        BExpr::Call(_, _) => false,
        BExpr::Chain(_, _) => false,
        BExpr::Path(_, _) => false,
        BExpr::Window(_, _) => false,
        BExpr::Aggregate(_, _) => false,
    }
}

// `where true` is nothing.
#[tactic(auto, unfolding(plan_rules::specs::Rules::true_filter))]
fn true_filter(alloc: Global, x: &Op) -> Option<Ops>
    ensures rule { result ≡ true_filter x.now }
{
    let Some(q) = filter_of(x) else {
        return None;
    };
    if is_true(q) {
        Some(Items::new(alloc))
    } else {
        None
    }
}

// `serialize` without items is nothing.
#[tactic(auto, unfolding(plan_rules::specs::Rules::bare_serialize))]
fn bare_serialize(alloc: Global, x: &Op) -> Option<Ops>
    ensures rule { result ≡ bare_serialize x.now }
{
    if is_serialize(x) {
        Some(Items::new(alloc))
    } else {
        None
    }
}

fn is_one_name(names: &[KText], name: &str) -> bool
    ensures is { result ≡ is_one_name names.now name.now }
{
    match names {
        [] => false,
        [one] => one.as_str() == name,
        [_, _, ..] => false,
    }
}

// Whether an expression is the column of this name.
#[tactic(auto, using(kql_meaning::proofs::ExpressionFitLaws::column_steps))]
fn is_column(e: &BExpr, name: &str) -> bool
    ensures is { result ≡ is_name (column_of e.now) name.now }
{
    match e {
        BExpr::Literal(_) => false,
        BExpr::Column(own) => own.as_str() == name,
        BExpr::Step(_) => false,
        BExpr::Call(_, _) => false,
        BExpr::Chain(_, _) => false,
        BExpr::Path(_, _) => false,
        BExpr::Window(_, _) => false,
        BExpr::Aggregate(_, _) => false,
    }
}

// Whether items are these columns in order, each under its name.
#[tactic(auto, unfolding(plan_rules::specs::Rules::are_all_columns))]
fn are_all_columns(items: &[BItem], columns: &[Column]) -> bool
    ensures are { result ≡ are_all_columns items.now columns.now }
{
    let mut items_left = items;
    let mut columns_left = columns;
    'items: while let Some((item, more)) = items_left.split_first() {
        let Some((column, others)) = columns_left.split_first() else {
            return false;
        };
        if !is_one_name(item.names.as_slice(), column.name.as_str()) {
            return false;
        }
        if !is_column(&item.expr, column.name.as_str()) {
            return false;
        }
        items_left = more;
        columns_left = others;
    }
    match columns_left {
        [] => true,
        [_, ..] => false,
    }
}

// `project` of all input columns in order under their names: nothing.
#[tactic(auto, unfolding(plan_rules::specs::Rules::idle_projection))]
fn idle_projection(alloc: Global, columns: &[Column], x: &Op) -> Option<Ops>
    ensures rule { result ≡ idle_projection columns.now x.now }
{
    let Some(items) = project_of(x) else {
        return None;
    };
    if are_all_columns(items.as_slice(), columns) {
        Some(Items::new(alloc))
    } else {
        None
    }
}

// Two neighbours.

fn less(a: u64, b: u64) -> u64
    ensures less { result ≡ min a b }
{
    if a <= b { a } else { b }
}

// `take a`, `take b`: `take` of the less.
#[tactic(auto, unfolding(plan_rules::specs::Rules::two_takes))]
fn two_takes(alloc: Global, x: &Op, y: &Op) -> Result<Option<Ops>, AllocError>
    ensures rule { IfOk result (λ o. o ≡ two_takes x.now y.now) }
{
    let (Some(a), Some(b)) = (take_of(x), take_of(y)) else {
        return Ok(None);
    };
    let ops = one(alloc, Op::Take(less(a, b)))?;
    Ok(Some(ops))
}

// `sort K`, `take n`: `top n K`.
#[tactic(auto, unfolding(plan_rules::specs::Rules::sort_then_take))]
fn sort_then_take(alloc: Global, x: &Op, y: &Op) -> Result<Option<Ops>, AllocError>
    ensures rule { IfOk result (λ o. o ≡ sort_then_take x.now y.now) }
{
    let (Some(keys), Some(n)) = (sort_of(x), take_of(y)) else {
        return Ok(None);
    };
    let keys = clone_keys(alloc, keys)?;
    let ops = one(alloc, Op::Top(n, keys))?;
    Ok(Some(ops))
}

fn top_of_less(alloc: Global, n: u64, keys: &Keys, m: u64) -> Result<Option<Ops>, AllocError>
    ensures top { IfOk result (λ o. o ≡ Some (op.Top (min n m) keys.now ∷ [])) }
{
    let keys = clone_keys(alloc, keys)?;
    let ops = one(alloc, Op::Top(less(n, m), keys))?;
    Ok(Some(ops))
}

// `top n K`, `take m`: `top` of the less, K.
#[tactic(auto, using(plan_swaps::proofs::ViewSteps::top_steps), unfolding(plan_rules::specs::Rules::top_then_take))]
fn top_then_take(alloc: Global, x: &Op, y: &Op) -> Result<Option<Ops>, AllocError>
    ensures rule { IfOk result (λ o. o ≡ top_then_take x.now y.now) }
{
    let Some(m) = take_of(y) else {
        return Ok(None);
    };
    match x {
        Op::Where(_) => Ok(None),
        Op::Extend(_) => Ok(None),
        Op::Project(_) => Ok(None),
        Op::Take(_) => Ok(None),
        Op::Count => Ok(None),
        Op::Serialize => Ok(None),
        Op::Sort(_) => Ok(None),
        Op::Top(n, keys) => top_of_less(alloc, *n, keys, m),
        Op::Summarize(_) => Ok(None),
        Op::MakeSeries(_) => Ok(None),
        Op::MvExpand(_) => Ok(None),
        Op::Parse(_) => Ok(None),
        Op::Join(_, _) => Ok(None),
        Op::Union(_, _) => Ok(None),
        Op::Scan(_) => Ok(None),
        Op::Partition(_, _) => Ok(None),
    }
}

// `sort K1`, `sort K2`: `sort` by K2 and then K1.
#[tactic(auto, unfolding(plan_rules::specs::Rules::two_sorts))]
fn two_sorts(alloc: Global, x: &Op, y: &Op) -> Result<Option<Ops>, AllocError>
    ensures rule { IfOk result (λ o. o ≡ two_sorts x.now y.now) }
{
    let (Some(first), Some(second)) = (sort_of(x), sort_of(y)) else {
        return Ok(None);
    };
    let mut keys = clone_keys(alloc, second)?;
    let more = clone_keys(alloc, first)?;
    keys.append(more)?;
    let ops = one(alloc, Op::Sort(keys))?;
    Ok(Some(ops))
}

// `sort`, `extend` or `project`, `count`: `count`.
#[tactic(auto, unfolding(plan_rules::specs::Rules::unseen_then_count))]
fn unseen_then_count(alloc: Global, x: &Op, y: &Op) -> Result<Option<Ops>, AllocError>
    ensures rule { IfOk result (λ o. o ≡ unseen_then_count x.now y.now) }
{
    if keeps_count(x) && is_count(y) {
        let ops = one(alloc, Op::Count)?;
        Ok(Some(ops))
    } else {
        Ok(None)
    }
}

// The table.

/// The first rule on one operator that fires.
#[tactic(auto, unfolding(crate::specs::Table::single_rule))]
pub fn single_rule(alloc: Global, columns: &[Column], x: &Op) -> Option<Ops>
    ensures rule { result ≡ single_rule columns.now x.now }
{
    if let Some(made) = true_filter(alloc, x) {
        return Some(made);
    }
    if let Some(made) = bare_serialize(alloc, x) {
        return Some(made);
    }
    idle_projection(alloc, columns, x)
}

// Two neighbours that become one operator.
#[tactic(auto, unfolding(crate::specs::Table::merge_rule))]
fn merge_rule(alloc: Global, x: &Op, y: &Op) -> Result<Option<Ops>, AllocError>
    ensures rule { IfOk result (λ o. o ≡ merge_rule x.now y.now) }
{
    if let Some(made) = two_takes(alloc, x, y)? {
        return Ok(Some(made));
    }
    if let Some(made) = sort_then_take(alloc, x, y)? {
        return Ok(Some(made));
    }
    if let Some(made) = top_then_take(alloc, x, y)? {
        return Ok(Some(made));
    }
    if let Some(made) = two_sorts(alloc, x, y)? {
        return Ok(Some(made));
    }
    if let Some(made) = two_projections(alloc, x, y)? {
        return Ok(Some(made));
    }
    if let Some(made) = unseen_then_count(alloc, x, y)? {
        return Ok(Some(made));
    }
    two_filters(alloc, x, y)
}

// A filter that goes in front of its neighbour, or into it, under other names.
#[tactic(auto, unfolding(crate::specs::Table::rename_rule))]
fn rename_rule(
    alloc: Global,
    tables: &[NamedSchema],
    lets: &[Items<Column>],
    columns: &[Column],
    x: &Op,
    y: &Op,
) -> Result<Option<Ops>, AllocError>
    ensures rule { IfOk result (λ o. o ≡ rename_rule (known_of tables.now lets.now) columns.now x.now y.now) }
{
    if let Some(made) = project_then_filter(alloc, x, y)? {
        return Ok(Some(made));
    }
    if let Some(made) = join_then_right_filter(alloc, tables, lets, columns, x, y)? {
        return Ok(Some(made));
    }
    group_then_filter(alloc, x, y)
}

/// The first rule that fires by which two neighbours become others.
#[tactic(auto, unfolding(crate::specs::Table::change_rule))]
pub fn change_rule(
    alloc: Global,
    tables: &[NamedSchema],
    lets: &[Items<Column>],
    columns: &[Column],
    x: &Op,
    y: &Op,
) -> Result<Option<Ops>, AllocError>
    ensures rule { IfOk result (λ o. o ≡ change_rule (known_of tables.now lets.now) columns.now x.now y.now) }
{
    if let Some(made) = merge_rule(alloc, x, y)? {
        return Ok(Some(made));
    }
    rename_rule(alloc, tables, lets, columns, x, y)
}
