//! Lists and sets of values that are not null, up to a limit where there is one.
ghost use Rattle.std.specs.Prelude.{◌≡◌, IfOk, OnOk, OnErr};
ghost use Rattle.kql_cells.specs.Seen.{seen};
ghost use Rattle.kql_cells.specs.Values.{IsWellFormed};
ghost use Rattle.agg_folds.specs.Kept.{has_room, joined_list, joined_set, with_listed, with_member};

use crate::held::{Held, HeldSet};
use kql_cells::CellRef;
use kql_items::Items;
use std::alloc::AllocError;

/// Values that are lent, in their order, up to a limit where there is one.
#[derive(Drop)]
pub(crate) struct Listed<'a> {
    pub(crate) limit: Option<usize>,
    pub(crate) values: Items<Held<'a>>,
}

/// Different values that are lent, in the order in which they came, up to a limit where there is one.
#[derive(Drop)]
pub(crate) struct Members<'a> {
    pub(crate) limit: Option<usize>,
    pub(crate) values: HeldSet<'a>,
}

impl<'a> Listed<'a> {
    /// Adds a value, where it is not null and there is room.
    pub(crate) fn push(&mut self, cell: CellRef<'a>) -> Result<(), AllocError>
        requires form { IsWellFormed (seen cell) }
        ensures added { OnOk result (self.new ≡ record { limit = self.old.limit; values = with_listed self.old.limit self.old.values (seen cell.entry) }) }
        ensures kept { OnErr result (self.new ≡ self.old) }
    {
        push_given(&mut self.values, self.limit, cell)
    }

    /// Adds the values of another, as far as there is room.
    pub(crate) fn join(&mut self, other: &Listed<'a>) -> Result<(), AllocError>
        ensures joined { OnOk result (self.new ≡ record { limit = self.old.limit; values = joined_list self.old.limit self.old.values other.now.values }) }
    {
        push_all(&mut self.values, self.limit, other.values.as_slice())
    }
}

impl<'a> Members<'a> {
    /// Adds a value, where it is not null and not there and there is room.
    pub(crate) fn insert(&mut self, cell: CellRef<'a>) -> Result<(), AllocError>
        requires form { IsWellFormed (seen cell) }
        ensures added { OnOk result (self.new ≡ record { limit = self.old.limit; values = with_member self.old.limit self.old.values (seen cell.entry) }) }
        ensures kept { OnErr result (self.new ≡ self.old) }
    {
        insert_given(&mut self.values, self.limit, cell)
    }

    /// Adds the values of another, as far as there is room.
    pub(crate) fn join(&mut self, other: &Members<'a>) -> Result<(), AllocError>
        ensures joined { OnOk result (self.new ≡ record { limit = self.old.limit; values = joined_set self.old.limit self.old.values other.now.values }) }
    {
        insert_all(&mut self.values, self.limit, other.values.as_slice())
    }
}

#[tactic(auto, unfolding(crate::specs::Kept::has_room))]
fn has_room(limit: Option<usize>, count: usize) -> bool
    ensures { result ≡ has_room limit count }
{
    match limit {
        None => true,
        Some(most) => count < most,
    }
}

/// Adds a value to a list, where it is not null and there is room.
#[tactic(auto, unfolding(crate::specs::Kept::with_listed))]
fn push_given<'a>(
    list: &mut Items<Held<'a>>,
    limit: Option<usize>,
    cell: CellRef<'a>,
) -> Result<(), AllocError>
    requires form { IsWellFormed (seen cell) }
    ensures added { OnOk result (list.new ≡ with_listed limit list.old (seen cell.entry)) }
    ensures kept { OnErr result (list.new ≡ list.old) }
{
    if !cell.is_null() && has_room(limit, list.len()) {
        list.push(Held::new(cell))?;
    }
    Ok(())
}

/// Adds a value to a set, where it is not null and not there and there is room.
#[tactic(auto, unfolding(crate::specs::Kept::with_member))]
pub(crate) fn insert_given<'a>(
    set: &mut HeldSet<'a>,
    limit: Option<usize>,
    cell: CellRef<'a>,
) -> Result<(), AllocError>
    requires form { IsWellFormed (seen cell) }
    ensures added { OnOk result (set.new ≡ with_member limit set.old (seen cell.entry)) }
    ensures kept { OnErr result (set.new ≡ set.old) }
{
    if !cell.is_null() && has_room(limit, set.len()) {
        set.insert(Held::new(cell))?;
    }
    Ok(())
}

/// Adds the values of another list, as far as there is room.
#[tactic(auto, unfolding(crate::specs::Kept::joined_list))]
fn push_all<'a>(
    list: &mut Items<Held<'a>>,
    limit: Option<usize>,
    more: &[Held<'a>],
) -> Result<(), AllocError>
    ensures joined { OnOk result (list.new ≡ joined_list limit list.old more.now) }
{
    for value in more {
        push_given(list, limit, value.cell())?;
    }
    Ok(())
}

/// Adds the values of another set, as far as there is room.
#[tactic(auto, unfolding(crate::specs::Kept::joined_set))]
pub(crate) fn insert_all<'a>(
    set: &mut HeldSet<'a>,
    limit: Option<usize>,
    more: &[Held<'a>],
) -> Result<(), AllocError>
    ensures joined { OnOk result (set.new ≡ joined_set limit set.old more.now) }
{
    for value in more {
        insert_given(set, limit, value.cell())?;
    }
    Ok(())
}
