//! The values of a list by their keys: one is found by its hash.
ghost use Rattle.std.specs.Prelude.{◌≡◌, ◌↔◌, IfOk, IsTrue};
ghost use Rattle.std.specs.HashSet.{contains};
ghost use Rattle.std.specs.List.{list_any};
ghost use Rattle.kql_cells.specs.Hashed.{cell_writes};
ghost use Rattle.kql_cells.specs.Keys.{same_key};
ghost use Rattle.kql_cells.specs.Seen.{seen};
ghost use Rattle.kql_cells.specs.declared.value.Value.{Value as Cell};

use kql_cells::{CellRef, Value, hash_cell};
use std::alloc::{AllocError, Global};
use std::collections::HashSet;
use std::hash::{Hash, Hasher};
use std::marker::Model;

/// A value that is lent, as a key of a set.
#[derive(Drop)]
pub(crate) struct CellKey<'a> {
    cell: CellRef<'a>,
}

impl<'a> Model for CellKey<'a> {
    ghost use Rattle.std.specs.Coded.{codes};
    ghost use Rattle.kql_cells.specs.contracts.dynamic.Dyn as dynamic;
    ghost use Rattle.kql_cells.specs.declared.value.Value.{Value as Cell};
    ghost use Rattle.kql_cells.specs.Seen.{seen};

    ghost Value = { Cell };

    ghost coded = { Prim.hlevel (codes, dynamic.the_row.coded) };

    ghost view = { λ k. seen k.cell };
}

impl<'a> CellKey<'a> {
    pub(crate) fn new(cell: CellRef<'a>) -> CellKey<'a>
        ensures { result ≡ seen cell.entry }
    {
        CellKey { cell }
    }
}

impl<'a> PartialEq for CellKey<'a> {
    ghost use Rattle.std.specs.Cmp.{partial_equiv_from_equiv};
    ghost use Rattle.kql_cells.specs.Keys.{same_key};
    ghost use Rattle.kql_scalar.specs.Lists.{same_key-equiv};

    ghost eq = { same_key };

    ghost laws = { partial_equiv_from_equiv same_key-equiv };

    fn eq(&self, other: &CellKey<'a>) -> bool {
        is_same(self.cell, other.cell)
    }
}

// Whether two cells have the same key.
fn is_same(a: CellRef<'_>, b: CellRef<'_>) -> bool
    ensures { result ≡ same_key (seen a.entry) (seen b.entry) }
{
    a.is_same(b)
}

impl<'a> Eq for CellKey<'a> {
    ghost use Rattle.kql_scalar.specs.Lists.{same_key-equiv};

    ghost laws = { same_key-equiv };
}

impl<'a> Hash for CellKey<'a> {
    ghost use Rattle.kql_scalar.specs.Lists.{same_key-alike};

    ghost hash_input = { cell_writes };

    ghost respects_eq = { same_key-alike cell_writes };

    fn hash<H: Hasher>(&self, state: &mut H) {
        hash_cell(self.cell, state);
    }
}

/// These values as a set.
pub(crate) fn key_set<'a>(
    alloc: Global,
    values: &'a [Value],
) -> Result<HashSet<CellKey<'a>>, AllocError>
    ensures keys { IfOk result (λ s. (v : Cell) → contains same_key s v ≡ list_any (same_key v) values.now) }
{
    let mut set = HashSet::new(alloc);
    for value in values {
        set.insert(CellKey::new(value.as_cell()))?;
    }
    Ok(set)
}
