//! Groups with values of their own.
ghost use Rattle.std.specs.Prelude.{◌≡◌, IfOk, map};
ghost use Rattle.kql_cells.specs.Seen.{seen};

use crate::finish::push_cells;
use crate::groups::Groups;
use crate::kept::GroupFold;
use agg_folds::{FoldCall, OwnFold};
use kql_cells::{CellRef, Row, Value};
use kql_items::Items;
use kql_values::Rows;
use std::alloc::{AllocError, Global};
use std::marker::Model;

/// Groups with values of their own: they outlive the rows that they were made of. Contracts see them as these groups.
#[derive(Drop)]
pub struct OwnGroups {
    pub(crate) count: usize,
    pub(crate) width: usize,
    pub(crate) keys: Rows,
    pub(crate) calls: Vec<FoldCall>,
    pub(crate) folds: Vec<Items<OwnGroupFold>>,
}

impl Model for OwnGroups {
    ghost use Rattle.std.specs.Coded.{codes};
    ghost use Rattle.kql_cells.specs.contracts.dynamic.Dyn as dynamic;
    ghost use Rattle.summarize_pieces.specs.Pieces.{Grouped};

    ghost Value = { Grouped };

    ghost coded = { Prim.hlevel (codes, dynamic.the_row.coded) };

    ghost view = { λ x. record { count = x.count; width = x.width; keys = x.keys; calls = x.calls.items; states = x.folds.items } };
}

impl OwnGroups {
    /// The groups, with the values of the aggregates lent. It takes memory for the keys and the states, in time linear in what is kept.
    pub fn lend(&self, alloc: Global) -> Result<Groups<'_>, AllocError>
        ensures same { IfOk result (λ x. x ≡ self.now) }
    {
        let folds = lend_calls(alloc, self.folds.as_slice())?;
        let calls = Vec::from_slice(alloc, self.calls.as_slice())?;
        let keys = self.keys.copy(alloc)?;
        Ok(Groups {
            count: self.count,
            width: self.width,
            keys,
            calls,
            folds,
        })
    }
}

/// What is kept of the rows of a group, with values of its own.
#[derive(Drop)]
pub(crate) struct OwnGroupFold {
    fold: OwnFold,
    further: Row,
}

impl Model for OwnGroupFold {
    ghost use Rattle.std.specs.Coded.{codes};
    ghost use Rattle.kql_cells.specs.contracts.dynamic.Dyn as dynamic;
    ghost use Rattle.summarize_pieces.specs.Pieces.{GroupKept};

    ghost Value = { GroupKept };

    ghost coded = { Prim.hlevel (codes, dynamic.the_row.coded) };

    ghost view = { λ k. record { kept = k.fold; further = k.further } };
}

impl OwnGroupFold {
    fn of(alloc: Global, group: &GroupFold<'_>) -> Result<OwnGroupFold, AllocError>
        ensures same { IfOk result (λ k. k ≡ group.now) }
    {
        let mut further = Items::new(alloc);
        push_cells(alloc, &mut further, group.further())?;
        let fold = group.fold().own(alloc)?;
        Ok(OwnGroupFold { fold, further })
    }

    fn lend(&self, alloc: Global) -> Result<GroupFold<'_>, AllocError>
        ensures same { IfOk result (λ k. k ≡ self.now) }
    {
        let further = lend_values(alloc, self.further.as_slice())?;
        let fold = self.fold.lend(alloc)?;
        Ok(GroupFold::new(fold, further))
    }
}

// Cells of values.
fn lend_values(alloc: Global, values: &[Value]) -> Result<Vec<CellRef<'_>>, AllocError>
    ensures same { IfOk result (λ cs. map seen cs.items ≡ values.now) }
{
    let mut cells = Vec::with_capacity(alloc, values.len())?;
    for value in values {
        cells.push(value.as_cell())?;
    }
    Ok(cells)
}

/// What is kept of each group for each call, with values of its own.
pub(crate) fn own_calls(
    alloc: Global,
    calls: &[Items<GroupFold<'_>>],
) -> Result<Vec<Items<OwnGroupFold>>, AllocError>
    ensures same { IfOk result (λ cs. cs.items ≡ calls.now) }
{
    let mut made = Vec::with_capacity(alloc, calls.len())?;
    for groups in calls {
        made.push(own_groups(alloc, groups.as_slice())?)?;
    }
    Ok(made)
}

fn own_groups(alloc: Global, groups: &[GroupFold<'_>]) -> Result<Items<OwnGroupFold>, AllocError>
    ensures same { IfOk result (λ gs. gs ≡ groups.now) }
{
    let mut made = Items::with_capacity(alloc, groups.len())?;
    for group in groups {
        made.push(OwnGroupFold::of(alloc, group)?)?;
    }
    Ok(made)
}

// What is kept of each group for each call, lent.
fn lend_calls<'a>(
    alloc: Global,
    calls: &'a [Items<OwnGroupFold>],
) -> Result<Vec<Items<GroupFold<'a>>>, AllocError>
    ensures same { IfOk result (λ cs. cs.items ≡ calls.now) }
{
    let mut made = Vec::with_capacity(alloc, calls.len())?;
    for groups in calls {
        made.push(lend_groups(alloc, groups.as_slice())?)?;
    }
    Ok(made)
}

fn lend_groups<'a>(
    alloc: Global,
    groups: &'a [OwnGroupFold],
) -> Result<Items<GroupFold<'a>>, AllocError>
    ensures same { IfOk result (λ gs. gs ≡ groups.now) }
{
    let mut made = Items::with_capacity(alloc, groups.len())?;
    for group in groups {
        made.push(group.lend(alloc)?)?;
    }
    Ok(made)
}
