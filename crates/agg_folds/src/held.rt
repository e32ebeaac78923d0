ghost use Rattle.std.specs.Prelude.{◌≡◌, ◌↔◌, [], IsTrue, OnErr, OnOk, length};
ghost use Rattle.std.specs.List.{IsDistinct};
ghost use Rattle.indexmap.specs.IndexSet.{insert_key};
ghost use Rattle.kql_cells.specs.Keys.{same_key};
ghost use Rattle.kql_cells.specs.Seen.{seen};
ghost use Rattle.kql_cells.specs.Values.{IsWellFormed};

use indexmap::IndexSet;
use kql_cells::{CellRef, hash_cell};
use std::alloc::{AllocError, Global};
use std::hash::{Hash, Hasher};
use std::marker::Model;

/// A well-formed value that is lent.
#[derive(Drop)]
pub(crate) struct Held<'a> {
    cell: CellRef<'a>,
}

impl<'a> Model for Held<'a> {
    ghost use Rattle.std.specs.Coded.{codes};
    ghost use Rattle.kql_cells.specs.contracts.dynamic.Dyn as dynamic;
    ghost use Rattle.kql_cells.specs.declared.value.Value.{Value as Cell};
    ghost use Rattle.kql_cells.specs.Seen.{seen};
    ghost use Rattle.kql_cells.specs.Values.{IsWellFormed};

    ghost Value = { Cell };

    ghost coded = { Prim.hlevel (codes, dynamic.the_row.coded) };

    ghost view = { λ h. seen h.cell };

    ghost invariant = { λ h. IsWellFormed (seen h.cell) };
}

impl<'a> Held<'a> {
    pub(crate) fn new(cell: CellRef<'a>) -> Held<'a>
        requires { IsWellFormed (seen cell) }
        ensures { result ≡ seen cell.entry }
    {
        Held { cell }
    }

    pub(crate) fn cell(&self) -> CellRef<'a>
        ensures value { seen result ≡ self.now }
        ensures form { IsWellFormed (seen result) }
    {
        self.cell
    }
}

// Whether two show the same value.
fn same_value(a: &Held<'_>, b: &Held<'_>) -> bool
    ensures { IsTrue result ↔ (a.now ≡ b.now) }
{
    a.cell().is_same(b.cell())
}

impl<'a> PartialEq for Held<'a> {
    ghost use Rattle.std.specs.Cmp.{partial_equiv_from_equiv};
    ghost use Rattle.kql_cells.specs.Keys.{same_key};
    ghost use Rattle.agg_folds.specs.Keys.{same_key-equiv};

    ghost eq = { same_key };

    ghost laws = { partial_equiv_from_equiv same_key-equiv };

    fn eq(&self, other: &Held<'a>) -> bool {
        same_value(self, other)
    }
}

impl<'a> Eq for Held<'a> {
    ghost use Rattle.agg_folds.specs.Keys.{same_key-equiv};

    ghost laws = { same_key-equiv };
}

impl<'a> Hash for Held<'a> {
    ghost use Rattle.kql_cells.specs.Hashed.{cell_writes};
    ghost use Rattle.agg_folds.specs.Keys.{same_key_alike};

    ghost hash_input = { cell_writes };

    ghost respects_eq = { same_key_alike cell_writes };

    fn hash<H: Hasher>(&self, state: &mut H) {
        hash_cell(self.cell, state);
    }
}

/// Different values, in the order in which they came. The first of them takes the set's memory: until then a set is two words, and a fold
/// that keeps none is small.
#[derive(Drop)]
pub(crate) struct HeldSet<'a> {
    alloc: Global,
    values: Option<Box<IndexSet<Held<'a>>>>,
}

impl<'a> Model for HeldSet<'a> {
    ghost use Rattle.std.specs.Prelude.{[], List};
    ghost use Rattle.std.specs.Option.{option_map, unwrap_or};
    ghost use Rattle.std.specs.Coded.{codes};
    ghost use Rattle.kql_cells.specs.contracts.dynamic.Dyn as dynamic;
    ghost use Rattle.kql_cells.specs.declared.value.Value.{Value as Cell};

    ghost Value = { List Cell };

    ghost coded = { Prim.hlevel (codes, dynamic.the_row.coded) };

    ghost view = { λ s. unwrap_or (option_map (λ b. b.value.keys) s.values) [] };
}

impl<'a> HeldSet<'a> {
    pub(crate) fn new(alloc: Global) -> HeldSet<'a>
        ensures { result ≡ [] }
    {
        HeldSet {
            alloc,
            values: None,
        }
    }

    pub(crate) fn as_slice(&self) -> &[Held<'a>]
        ensures values { result.now ≡ self.now }
        ensures different { IsDistinct same_key result.now }
    {
        match &self.values {
            None => &[],
            Some(values) => values.as_slice(),
        }
    }

    pub(crate) fn len(&self) -> usize
        ensures { result ≡ length self.now }
    {
        self.as_slice().len()
    }

    /// Adds a value, if it is not there.
    pub(crate) fn insert(&mut self, value: Held<'a>) -> Result<(), AllocError>
        ensures added { OnOk result (self.new ≡ insert_key same_key self.old value.entry) }
        ensures kept { OnErr result (self.new ≡ self.old) }
    {
        match &mut self.values {
            None => {
                let mut values = IndexSet::new(self.alloc);
                values.insert_full(value)?;
                self.values = Some(Box::new(self.alloc, values)?);
            }
            Some(values) => {
                values.insert_full(value)?;
            }
        }
        Ok(())
    }
}
