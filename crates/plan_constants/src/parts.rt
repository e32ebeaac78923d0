//! What the parts of operators become.
ghost use Rattle.std.specs.Prelude.{◌≡◌, IfOk, map};
ghost use Rattle.plan_rules.specs.FoldedPlans.{folded_expand, folded_group, folded_item, folded_items, folded_key, folded_keys, folded_parse, folded_part, folded_scan, folded_series, folded_series_item, folded_step};

use crate::exprs::folded_expr;
use kql_bound::{
    BItem, BItems, BKey, Expand, ExpandItem, GroupPlan, Keys, ParsePlan, Pattern, ScanPlan,
    ScanStep, SeriesItem, SeriesPlan, clone_lit, clone_parse, clone_scan, clone_series,
};
use kql_cells::copy_names;
use kql_items::Items;
use std::alloc::{AllocError, Global};

// What stands in a list of an operator.
trait Part: Sized + Drop {
    ghost becomes: { Self → Self };

    fn folded(&self, alloc: Global) -> Result<Self, AllocError>
        ensures folded { IfOk result (λ x. x ≡ becomes self.now) };
}

fn each<P: Part>(alloc: Global, parts: &[P]) -> Result<Items<P>, AllocError>
    ensures folded { IfOk result (λ xs. xs ≡ map P.becomes parts.now) }
{
    let mut all = Items::with_capacity(alloc, parts.len())?;
    for part in parts {
        let made = part.folded(alloc)?;
        all.push(made)?;
    }
    Ok(all)
}

impl Part for BItem {
    ghost becomes = { folded_item };

    fn folded(&self, alloc: Global) -> Result<BItem, AllocError> {
        Ok(BItem {
            names: copy_names(alloc, self.names.as_slice())?,
            expr: folded_expr(alloc, &self.expr)?,
        })
    }
}

#[tactic(auto, unfolding(plan_rules::specs::FoldedPlans::folded_items))]
pub(crate) fn items(alloc: Global, items: &[BItem]) -> Result<BItems, AllocError>
    ensures items { IfOk result (λ xs. xs ≡ folded_items items.now) }
{
    each(alloc, items)
}

impl Part for BKey {
    ghost becomes = { folded_key };

    fn folded(&self, alloc: Global) -> Result<BKey, AllocError> {
        Ok(BKey {
            expr: folded_expr(alloc, &self.expr)?,
            asc: self.asc,
            nulls_first: self.nulls_first,
        })
    }
}

#[tactic(auto, unfolding(plan_rules::specs::FoldedPlans::folded_keys))]
pub(crate) fn keys(alloc: Global, keys: &[BKey]) -> Result<Keys, AllocError>
    ensures keys { IfOk result (λ xs. xs ≡ folded_keys keys.now) }
{
    each(alloc, keys)
}

// Summarize.

#[tactic(auto, unfolding(plan_rules::specs::FoldedPlans::folded_group))]
pub(crate) fn group(alloc: Global, group: &GroupPlan) -> Result<GroupPlan, AllocError>
    ensures group { IfOk result (λ x. x ≡ folded_group group.now) }
{
    Ok(GroupPlan {
        items: items(alloc, group.items.as_slice())?,
        keys: items(alloc, group.keys.as_slice())?,
    })
}

// Make-series.

impl Part for SeriesItem {
    ghost becomes = { folded_series_item };

    fn folded(&self, alloc: Global) -> Result<SeriesItem, AllocError> {
        Ok(SeriesItem {
            name: self.name.copy(alloc)?,
            default: clone_lit(alloc, &self.default)?,
            expr: folded_expr(alloc, &self.expr)?,
        })
    }
}

#[tactic(auto, unfolding(plan_rules::specs::FoldedPlans::folded_series))]
pub(crate) fn series(alloc: Global, series: &SeriesPlan) -> Result<SeriesPlan, AllocError>
    ensures series { IfOk result (λ x. x ≡ folded_series series.now) }
{
    let keys = items(alloc, series.keys.as_slice())?;
    let items = each(alloc, series.items.as_slice())?;
    let copy = clone_series(alloc, series)?;
    Ok(SeriesPlan {
        items,
        axis: copy.axis,
        from: copy.from,
        to: copy.to,
        step: copy.step,
        keys,
    })
}

// Mv-expand.

impl Part for ExpandItem {
    ghost becomes = { folded_part };

    fn folded(&self, alloc: Global) -> Result<ExpandItem, AllocError> {
        Ok(ExpandItem {
            name: self.name.copy(alloc)?,
            expr: folded_expr(alloc, &self.expr)?,
            to: self.to,
        })
    }
}

#[tactic(auto, unfolding(plan_rules::specs::FoldedPlans::folded_expand))]
pub(crate) fn expand(alloc: Global, expand: &Expand) -> Result<Expand, AllocError>
    ensures expand { IfOk result (λ x. x ≡ folded_expand expand.now) }
{
    Ok(Expand {
        array: expand.array,
        items: each(alloc, expand.items.as_slice())?,
    })
}

// Parse.

fn pattern_of(parse: ParsePlan) -> Pattern
    ensures pattern { result ≡ parse.pattern }
{
    let ParsePlan {
        relaxed: _,
        text,
        pattern,
    } = parse;
    drop(text);
    pattern
}

#[tactic(auto, unfolding(plan_rules::specs::FoldedPlans::folded_parse))]
pub(crate) fn parse(alloc: Global, parse: &ParsePlan) -> Result<ParsePlan, AllocError>
    ensures parse { IfOk result (λ x. x ≡ folded_parse parse.now) }
{
    let pattern = pattern_of(clone_parse(alloc, parse)?);
    Ok(ParsePlan {
        relaxed: parse.relaxed,
        text: folded_expr(alloc, &parse.text)?,
        pattern,
    })
}

// Scan.

impl Part for ScanStep {
    ghost becomes = { folded_step };

    fn folded(&self, alloc: Global) -> Result<ScanStep, AllocError> {
        Ok(ScanStep {
            name: self.name.copy(alloc)?,
            output: self.output,
            sets: items(alloc, self.sets.as_slice())?,
            condition: folded_expr(alloc, &self.condition)?,
        })
    }
}

#[tactic(auto, unfolding(plan_rules::specs::FoldedPlans::folded_scan))]
pub(crate) fn scan(alloc: Global, scan: &ScanPlan) -> Result<ScanPlan, AllocError>
    ensures scan { IfOk result (λ x. x ≡ folded_scan scan.now) }
{
    let steps = each(alloc, scan.steps.as_slice())?;
    let copy = clone_scan(alloc, scan)?;
    Ok(ScanPlan {
        match_id: copy.match_id,
        declared: copy.declared,
        steps,
    })
}
