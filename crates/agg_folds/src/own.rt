//! Values of their own, in place of those that are lent.
ghost use Rattle.std.specs.Prelude.{◌≡◌, [], IfOk, fold};
ghost use Rattle.indexmap.specs.IndexSet.{insert_key};
ghost use Rattle.kql_cells.specs.Keys.{same_key};

use crate::held::{Held, HeldSet};
use kql_cells::Value;
use kql_items::Items;
use std::alloc::{AllocError, Global};
use std::marker::Model;

/// A well-formed value of its own.
#[derive(Drop)]
pub(crate) struct Own {
    value: Value,
}

impl Model for Own {
    ghost use Rattle.std.specs.Coded.{codes};
    ghost use Rattle.kql_cells.specs.contracts.dynamic.Dyn as dynamic;
    ghost use Rattle.kql_cells.specs.declared.value.Value.{Value as Cell};
    ghost use Rattle.kql_cells.specs.Values.{IsWellFormed};

    ghost Value = { Cell };

    ghost coded = { Prim.hlevel (codes, dynamic.the_row.coded) };

    ghost view = { λ o. o.value };

    ghost invariant = { λ o. IsWellFormed o.value };
}

impl Own {
    /// A copy of a value that is lent.
    pub(crate) fn of(alloc: Global, held: &Held<'_>) -> Result<Own, AllocError>
        ensures same { IfOk result (λ o. o ≡ held.now) }
    {
        let value = held.cell().to_value(alloc)?;
        Ok(Own { value })
    }

    /// The value, lent.
    pub(crate) fn lend(&self) -> Held<'_>
        ensures same { result ≡ self.now }
    {
        Held::new(self.value.as_cell())
    }
}

/// Copies of values that are lent, in their order.
pub(crate) fn own_all(alloc: Global, values: &[Held<'_>]) -> Result<Items<Own>, AllocError>
    ensures same { IfOk result (λ os. os ≡ values.now) }
{
    let mut made = Items::with_capacity(alloc, values.len())?;
    for value in values {
        made.push(Own::of(alloc, value)?)?;
    }
    Ok(made)
}

/// Values lent, in their order.
pub(crate) fn lend_all<'a>(alloc: Global, values: &'a [Own]) -> Result<Items<Held<'a>>, AllocError>
    ensures same { IfOk result (λ hs. hs ≡ values.now) }
{
    let mut made = Items::with_capacity(alloc, values.len())?;
    for value in values {
        made.push(value.lend())?;
    }
    Ok(made)
}

/// Different values of their own, in their order.
#[derive(Drop)]
pub(crate) struct OwnSet {
    values: Items<Own>,
}

impl Model for OwnSet {
    ghost use Rattle.std.specs.Prelude.{List};
    ghost use Rattle.std.specs.List.{IsDistinct};
    ghost use Rattle.std.specs.Coded.{codes};
    ghost use Rattle.kql_cells.specs.contracts.dynamic.Dyn as dynamic;
    ghost use Rattle.kql_cells.specs.declared.value.Value.{Value as Cell};
    ghost use Rattle.kql_cells.specs.Keys.{same_key};

    ghost Value = { List Cell };

    ghost coded = { Prim.hlevel (codes, dynamic.the_row.coded) };

    ghost view = { λ s. s.values };

    ghost invariant = { λ s. IsDistinct same_key s.values };
}

impl OwnSet {
    /// Copies of the values of a set.
    pub(crate) fn of(alloc: Global, set: &HeldSet<'_>) -> Result<OwnSet, AllocError>
        ensures same { IfOk result (λ s. s ≡ set.now) }
    {
        let values = own_all(alloc, set.as_slice())?;
        Ok(OwnSet { values })
    }

    /// The set of these values, lent.
    #[tactic(auto, using(crate::proofs::OwnFacts::own_facts))]
    pub(crate) fn lend(&self, alloc: Global) -> Result<HeldSet<'_>, AllocError>
        ensures same { IfOk result (λ s. s ≡ self.now) }
    {
        let set = set_of(alloc, self.values.as_slice())?;
        Ok(set)
    }
}

// The set that these are put into one by one.
fn set_of<'a>(alloc: Global, values: &'a [Own]) -> Result<HeldSet<'a>, AllocError>
    ensures put { IfOk result (λ s. s ≡ fold (insert_key same_key) [] values.now) }
{
    let mut set = HeldSet::new(alloc);
    for value in values {
        set.insert(value.lend())?;
    }
    Ok(set)
}
