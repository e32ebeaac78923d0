//! Equal copies of the parts of operators.
ghost use Rattle.std.specs.Prelude.{◌≡◌, IfOk};

use crate::expr_clones::{clone_expr, clone_lit};
use crate::parts::{
    BItem, BItems, BKey, Decl, Expand, ExpandItem, GroupPlan, JoinPlan, Keys, OnPair, ParsePlan,
    PatItem, ScanPlan, ScanStep, SeriesItem, SeriesPlan,
};
use kql_cells::{KText, copy_names};
use kql_items::Items;
use std::alloc::{AllocError, Global};

// What has an equal copy.
trait Copied: Sized + Drop {
    fn copied(&self, alloc: Global) -> Result<Self, AllocError>
        ensures same { IfOk result (λ c. c ≡ self.now) };
}

// Equal items, in order.
fn copied_items<T: Copied>(alloc: Global, items: &Items<T>) -> Result<Items<T>, AllocError>
    ensures same { IfOk result (λ cs. cs ≡ items.now) }
{
    let mut copies = Items::with_capacity(alloc, items.len())?;
    for item in items.as_slice() {
        let copy = item.copied(alloc)?;
        copies.push(copy)?;
    }
    Ok(copies)
}

impl Copied for BItem {
    fn copied(&self, alloc: Global) -> Result<BItem, AllocError> {
        Ok(BItem {
            names: copy_names(alloc, self.names.as_slice())?,
            expr: clone_expr(alloc, &self.expr)?,
        })
    }
}

/// Equal items.
pub fn clone_items(alloc: Global, items: &BItems) -> Result<BItems, AllocError>
    ensures same { IfOk result (λ c. c ≡ items.now) }
{
    copied_items(alloc, items)
}

impl Copied for BKey {
    fn copied(&self, alloc: Global) -> Result<BKey, AllocError> {
        Ok(BKey {
            expr: clone_expr(alloc, &self.expr)?,
            asc: self.asc,
            nulls_first: self.nulls_first,
        })
    }
}

/// Equal keys.
pub fn clone_keys(alloc: Global, keys: &Keys) -> Result<Keys, AllocError>
    ensures same { IfOk result (λ c. c ≡ keys.now) }
{
    copied_items(alloc, keys)
}

impl Copied for ExpandItem {
    fn copied(&self, alloc: Global) -> Result<ExpandItem, AllocError> {
        Ok(ExpandItem {
            name: self.name.copy(alloc)?,
            expr: clone_expr(alloc, &self.expr)?,
            to: self.to,
        })
    }
}

/// An equal `mv-expand`.
pub fn clone_expand(alloc: Global, expand: &Expand) -> Result<Expand, AllocError>
    ensures same { IfOk result (λ c. c ≡ expand.now) }
{
    Ok(Expand {
        array: expand.array,
        items: copied_items(alloc, &expand.items)?,
    })
}

impl Copied for PatItem {
    fn copied(&self, alloc: Global) -> Result<PatItem, AllocError> {
        match self {
            PatItem::Star => Ok(PatItem::Star),
            PatItem::Literal(text) => Ok(PatItem::Literal(text.copy(alloc)?)),
            PatItem::Column { name, kind } => Ok(PatItem::Column {
                name: name.copy(alloc)?,
                kind: *kind,
            }),
        }
    }
}

/// An equal `parse`.
pub fn clone_parse(alloc: Global, parse: &ParsePlan) -> Result<ParsePlan, AllocError>
    ensures same { IfOk result (λ c. c ≡ parse.now) }
{
    Ok(ParsePlan {
        relaxed: parse.relaxed,
        text: clone_expr(alloc, &parse.text)?,
        pattern: copied_items(alloc, &parse.pattern)?,
    })
}

/// An equal `summarize`.
pub fn clone_group(alloc: Global, group: &GroupPlan) -> Result<GroupPlan, AllocError>
    ensures same { IfOk result (λ c. c ≡ group.now) }
{
    Ok(GroupPlan {
        items: clone_items(alloc, &group.items)?,
        keys: clone_items(alloc, &group.keys)?,
    })
}

impl Copied for SeriesItem {
    fn copied(&self, alloc: Global) -> Result<SeriesItem, AllocError> {
        Ok(SeriesItem {
            name: self.name.copy(alloc)?,
            expr: clone_expr(alloc, &self.expr)?,
            default: clone_lit(alloc, &self.default)?,
        })
    }
}

/// An equal `make-series`.
pub fn clone_series(alloc: Global, series: &SeriesPlan) -> Result<SeriesPlan, AllocError>
    ensures same { IfOk result (λ c. c ≡ series.now) }
{
    Ok(SeriesPlan {
        items: copied_items(alloc, &series.items)?,
        axis: series.axis.copy(alloc)?,
        from: clone_lit(alloc, &series.from)?,
        to: clone_lit(alloc, &series.to)?,
        step: clone_lit(alloc, &series.step)?,
        keys: clone_items(alloc, &series.keys)?,
    })
}

impl Copied for OnPair {
    fn copied(&self, alloc: Global) -> Result<OnPair, AllocError> {
        Ok(OnPair {
            left: self.left.copy(alloc)?,
            right: self.right.copy(alloc)?,
        })
    }
}

/// An equal join or lookup.
pub fn clone_join(alloc: Global, join: &JoinPlan) -> Result<JoinPlan, AllocError>
    ensures same { IfOk result (λ c. c ≡ join.now) }
{
    Ok(JoinPlan {
        kind: join.kind,
        lookup: join.lookup,
        on: copied_items(alloc, &join.on)?,
    })
}

impl Copied for Decl {
    fn copied(&self, alloc: Global) -> Result<Decl, AllocError> {
        Ok(Decl {
            name: self.name.copy(alloc)?,
            default: clone_lit(alloc, &self.default)?,
        })
    }
}

impl Copied for ScanStep {
    fn copied(&self, alloc: Global) -> Result<ScanStep, AllocError> {
        Ok(ScanStep {
            name: self.name.copy(alloc)?,
            output: self.output,
            condition: clone_expr(alloc, &self.condition)?,
            sets: clone_items(alloc, &self.sets)?,
        })
    }
}

fn clone_match_id(alloc: Global, name: &Option<KText>) -> Result<Option<KText>, AllocError>
    ensures same { IfOk result (λ c. c ≡ name.now) }
{
    match name {
        None => Ok(None),
        Some(name) => Ok(Some(name.copy(alloc)?)),
    }
}

/// An equal `scan`.
pub fn clone_scan(alloc: Global, scan: &ScanPlan) -> Result<ScanPlan, AllocError>
    ensures same { IfOk result (λ c. c ≡ scan.now) }
{
    Ok(ScanPlan {
        match_id: clone_match_id(alloc, &scan.match_id)?,
        declared: copied_items(alloc, &scan.declared)?,
        steps: copied_items(alloc, &scan.steps)?,
    })
}
