//! The `summarize` by bin and keys.
ghost use Rattle.std.specs.Prelude.{◌≡◌, ◌∷◌, [], IfOk, map};
ghost use Rattle.kql_bound.specs.declared.parts.SeriesItem.{SeriesItem};
ghost use Rattle.series_op.specs.Summary.{bin_args, bin_item, group_item, summary_plan};

use kql_bound::{
    BExpr, BItem, BItems, Exprs, GroupPlan, SeriesItem, SeriesPlan, clone_expr, clone_items,
    clone_lit,
};
use kql_cells::{KText, Names};
use kql_functions::{ArithmeticFunc, Func};
use kql_items::Items;
use std::alloc::{AllocError, Global};

/// The `summarize` of the items of a series, by the bin of a row and then by the keys.
#[tactic(auto, unfolding(crate::specs::Summary::summary_plan))]
pub(crate) fn summary_plan(alloc: Global, series: &SeriesPlan) -> Result<GroupPlan, AllocError>
    ensures plan { IfOk result (λ g. g ≡ summary_plan series.now) }
{
    let items = group_items(alloc, series.items.as_slice())?;
    let keys = bin_and_keys(alloc, series)?;
    Ok(GroupPlan { items, keys })
}

// The bin, and behind it the keys.
fn bin_and_keys(alloc: Global, series: &SeriesPlan) -> Result<BItems, AllocError>
    ensures keys { IfOk result (λ ks. ks ≡ bin_item series.now ∷ series.now.keys) }
{
    let mut keys = Items::new(alloc);
    keys.push(bin_item(alloc, series)?)?;
    keys.append(clone_items(alloc, &series.keys)?)?;
    Ok(keys)
}

// The start of a row's bin, under the name of the axis.
#[tactic(auto, unfolding(crate::specs::Summary::bin_item, crate::specs::Summary::bin_expr))]
fn bin_item(alloc: Global, series: &SeriesPlan) -> Result<BItem, AllocError>
    ensures item { IfOk result (λ b. b ≡ bin_item series.now) }
{
    let names = one_name(alloc, &series.axis)?;
    let args = bin_args(alloc, series)?;
    Ok(BItem {
        names,
        expr: BExpr::Call(Func::Arithmetic(ArithmeticFunc::BinAt), args),
    })
}

#[tactic(auto, unfolding(crate::specs::Summary::bin_args))]
fn bin_args(alloc: Global, series: &SeriesPlan) -> Result<Exprs, AllocError>
    ensures args { IfOk result (λ es. es ≡ bin_args series.now) }
{
    let mut args = Items::with_capacity(alloc, 3)?;
    args.push(BExpr::Column(series.axis.copy(alloc)?))?;
    args.push(BExpr::Literal(clone_lit(alloc, &series.step)?))?;
    args.push(BExpr::Literal(clone_lit(alloc, &series.from)?))?;
    Ok(args)
}

fn one_name(alloc: Global, name: &KText) -> Result<Names, AllocError>
    ensures names { IfOk result (λ ns. ns ≡ name.now ∷ []) }
{
    let mut names = Items::new(alloc);
    names.push(name.copy(alloc)?)?;
    Ok(names)
}

// The calls of the aggregates with their names.
fn group_items(alloc: Global, items: &[SeriesItem]) -> Result<BItems, AllocError>
    ensures items { IfOk result (λ bs. bs ≡ map group_item items.now) }
{
    let mut made = Items::with_capacity(alloc, items.len())?;
    'items: for item in items {
        made.push(group_item(alloc, item)?)?;
    }
    Ok(made)
}

#[tactic(auto, unfolding(crate::specs::Summary::group_item))]
fn group_item(alloc: Global, item: &SeriesItem) -> Result<BItem, AllocError>
    ensures item { IfOk result (λ b. b ≡ group_item item.now) }
{
    Ok(BItem {
        names: one_name(alloc, &item.name)?,
        expr: clone_expr(alloc, &item.expr)?,
    })
}
