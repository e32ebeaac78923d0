//! The rules that carry a filter in front under other names, and the merge of two projections.
ghost use Rattle.std.specs.Prelude.{◌≡◌, ◌∷◌, [], IfOk, is_some, option_and_then, option_map};
ghost use Rattle.std.specs.Option.{option_copied};
ghost use Rattle.kql_bound.specs.declared.plan.Op.TheVariants as op;
ghost use Rattle.kql_meaning.specs.FittingExpressions.{column_of};
ghost use Rattle.plan_rules.specs.OwnNames.{inner_name, inner_or_same};
ghost use Rattle.plan_rules.specs.Reads.{reads_only, with_names};
ghost use Rattle.plan_rules.specs.Rules.{chosen_items, group_then_filter, has_keys, item_expr, project_then_filter, renamed_item, two_projections, when};

use crate::rules::one;
use kql_bound::{BExpr, BItem, BItems, Op, Ops, clone_expr, clone_group, clone_items};
use kql_cells::copy_names;
use kql_columns::is_name_among;
use kql_items::Items;
use plan_swaps::{filter_of, group_of_op, project_of};
use plan_terms::{are_plain, column_of, inner_names, is_plain, names_read, with_names};
use std::alloc::{AllocError, Global};

// A filter alone, under the names of the columns that items are; none where it reads anything else.
#[tactic(auto, using(plan_terms::proofs::RenameLaws::inner_steps))]
fn filter_inside(alloc: Global, items: &BItems, q: &BExpr) -> Result<Option<Ops>, AllocError>
    ensures inside { IfOk result (λ o. o ≡ when (reads_only (λ n. is_some (inner_name items.now n)) q.now) (op.Where (with_names (inner_or_same items.now) q.now) ∷ [])) }
{
    if !is_plain(q) {
        return Ok(None);
    }
    let read = names_read(alloc, q)?;
    let Some(to) = inner_names(alloc, items.as_slice(), read.as_slice())? else {
        return Ok(None);
    };
    let below = with_names(alloc, q, read.as_slice(), to.as_slice())?;
    let ops = one(alloc, Op::Where(below))?;
    Ok(Some(ops))
}

// Plain `project I`, `where q`, each column that q reads is an item that is a column: `where` of q with the inner names, `project I`.
#[tactic(auto, unfolding(plan_rules::specs::Rules::project_then_filter))]
pub(crate) fn project_then_filter(alloc: Global, x: &Op, y: &Op) -> Result<Option<Ops>, AllocError>
    ensures rule { IfOk result (λ o. o ≡ project_then_filter x.now y.now) }
{
    let (Some(items), Some(q)) = (project_of(x), filter_of(y)) else {
        return Ok(None);
    };
    if !are_plain(items.as_slice()) {
        return Ok(None);
    }
    let Some(mut ops) = filter_inside(alloc, items, q)? else {
        return Ok(None);
    };
    let items = clone_items(alloc, items)?;
    ops.push(Op::Project(items))?;
    Ok(Some(ops))
}

fn has_keys(keys: &[BItem]) -> bool
    ensures has { result ≡ has_keys keys.now }
{
    let Some((_key, _more)) = keys.split_first() else {
        return false;
    };
    true
}

// `summarize` with `by`, `where q`, q reads only keys whose expression is a column: `where` of q with the inner names, `summarize`.
#[tactic(auto, unfolding(plan_rules::specs::Rules::group_then_filter))]
pub(crate) fn group_then_filter(alloc: Global, x: &Op, y: &Op) -> Result<Option<Ops>, AllocError>
    ensures rule { IfOk result (λ o. o ≡ group_then_filter x.now y.now) }
{
    let (Some(group), Some(q)) = (group_of_op(x), filter_of(y)) else {
        return Ok(None);
    };
    if !has_keys(group.keys.as_slice()) {
        return Ok(None);
    }
    let Some(mut ops) = filter_inside(alloc, &group.keys, q)? else {
        return Ok(None);
    };
    let group = clone_group(alloc, group)?;
    ops.push(Op::Summarize(group))?;
    Ok(Some(ops))
}

// Two projections.

// The expression of the item of a name.
#[tactic(auto, unfolding(plan_rules::specs::Rules::item_expr))]
fn item_expr<'a>(items: &'a [BItem], name: &str) -> Option<&'a BExpr>
    ensures item { option_copied result ≡ item_expr items.now name.now }
{
    let mut left = items;
    'items: while let Some((item, more)) = left.split_first() {
        if is_name_among(item.names.as_slice(), name) {
            return Some(&item.expr);
        }
        left = more;
    }
    None
}

fn chosen_item(alloc: Global, first: &[BItem], item: &BItem) -> Result<Option<BItem>, AllocError>
    ensures chosen { IfOk result (λ o. o ≡ option_map (λ e. renamed_item item.now.names e) (option_and_then (item_expr first.now) (column_of item.now.expr))) }
{
    let Some(name) = column_of(&item.expr) else {
        return Ok(None);
    };
    let Some(e) = item_expr(first, name) else {
        return Ok(None);
    };
    let names = copy_names(alloc, item.names.as_slice())?;
    let expr = clone_expr(alloc, e)?;
    Ok(Some(BItem { names, expr }))
}

#[tactic(auto, using(crate::proofs::ChosenSteps::chosen_steps), unfolding(plan_rules::specs::Rules::chosen_items))]
fn chosen_items(
    alloc: Global,
    first: &[BItem],
    second: &[BItem],
) -> Result<Option<BItems>, AllocError>
    ensures chosen { IfOk result (λ o. o ≡ chosen_items first.now second.now) }
{
    let mut chosen = Items::with_capacity(alloc, second.len())?;
    let mut left = second;
    'items: while let Some((item, more)) = left.split_first() {
        let Some(made) = chosen_item(alloc, first, item)? else {
            return Ok(None);
        };
        chosen.push(made)?;
        left = more;
    }
    Ok(Some(chosen))
}

// `project I`, `project J`, each item of J a column: `project` of the chosen items of I under J's names.
#[tactic(auto, unfolding(plan_rules::specs::Rules::two_projections))]
pub(crate) fn two_projections(alloc: Global, x: &Op, y: &Op) -> Result<Option<Ops>, AllocError>
    ensures rule { IfOk result (λ o. o ≡ two_projections x.now y.now) }
{
    let (Some(first), Some(second)) = (project_of(x), project_of(y)) else {
        return Ok(None);
    };
    let Some(items) = chosen_items(alloc, first.as_slice(), second.as_slice())? else {
        return Ok(None);
    };
    let ops = one(alloc, Op::Project(items))?;
    Ok(Some(ops))
}
