ghost use Rattle.std.specs.Prelude.{◌≡◌, ◌<◌, ◌↔◌, IsTrue, All, length, map, fold, get_or, slice_index_or};
ghost use Rattle.kql_cells.specs.Seen.{seen, value_at};
ghost use Rattle.kql_cells.specs.declared.value.Value.TheVariants.{Null};
ghost use Rattle.kql_cells.specs.Hashed.{cell_writes};
ghost use Rattle.kql_values.specs.Grids.{row_of};
ghost use Rattle.kql_keys.specs.Matches.{has_null};

use kql_cells::{CellRef, hash_cell};
use kql_values::Vector;
use std::hash::{Hash, Hasher};
use std::marker::Model;

/// The key of a row: what each of some columns has at its place. Nothing is copied.
#[derive(Drop)]
pub struct KeyRef<'a> {
    columns: &'a [&'a Vector],
    at: usize,
}

impl<'a> Model for KeyRef<'a> {
    ghost use Rattle.std.specs.Prelude.{List, length, map, ◌<◌, All};
    ghost use Rattle.std.specs.Coded.{codes};
    ghost use Rattle.kql_cells.specs.contracts.dynamic.Dyn as dynamic;
    ghost use Rattle.kql_cells.specs.declared.value.Value.{Value as Cell};
    ghost use Rattle.kql_values.specs.Grids.{row_of};

    ghost Value = { List Cell };

    ghost coded = { Prim.hlevel (codes, dynamic.the_row.coded) };

    ghost view = { λ k. row_of (map (λ c. c.now) k.columns.now) k.at };

    ghost invariant = { λ k. All (λ c. k.at < length c.now) k.columns.now };
}

impl<'a> KeyRef<'a> {
    /// The key at a place of these columns.
    pub fn new(columns: &'a [&'a Vector], at: usize) -> KeyRef<'a>
        requires within { All (λ c. at < length c.now) columns.now }
        ensures cells { result ≡ row_of (map (λ c. c.now) columns.now) at }
    {
        KeyRef { columns, at }
    }

    #[tactic(auto, using(crate::proofs::KeyFacts::key_facts))]
    fn len(&self) -> usize
        ensures { result ≡ length self.now }
    {
        self.columns.len()
    }

    #[tactic(auto, using(crate::proofs::KeyFacts::key_facts))]
    fn cell(&self, j: usize) -> CellRef<'a>
        requires { j < length self.now }
        ensures { seen result ≡ slice_index_or self.now j Null }
    {
        cell_of(self.columns, j, self.at)
    }

    /// Whether a cell of the key is null.
    pub fn has_null(&self) -> bool
        ensures null { result ≡ has_null self.now }
    {
        for j in 0..self.len() {
            if self.cell(j).is_null() {
                return true;
            }
        }
        false
    }
}

// What a column has at a place.
fn cell_of<'a>(columns: &'a [&'a Vector], j: usize, at: usize) -> CellRef<'a>
    requires column { j < length columns.now }
    requires within { All (λ c. at < length c.now) columns.now }
    ensures { (d : _) → seen result ≡ value_at (get_or columns.now j d).now at }
{
    columns[j].cell(at)
}

// Whether two keys are the same.
fn same_key(a: &KeyRef<'_>, b: &KeyRef<'_>) -> bool
    ensures { IsTrue result ↔ (a.now ≡ b.now) }
{
    if a.len() != b.len() {
        return false;
    }
    for j in 0..a.len() {
        if !a.cell(j).is_same(b.cell(j)) {
            return false;
        }
    }
    true
}

impl<'a> PartialEq for KeyRef<'a> {
    ghost use Rattle.std.specs.Cmp.{partial_equiv_from_equiv};
    ghost use Rattle.kql_cells.specs.Keys.{same_keys, same_keys-equiv};

    ghost eq = { same_keys };

    ghost laws = { partial_equiv_from_equiv same_keys-equiv };

    fn eq(&self, other: &KeyRef<'a>) -> bool {
        same_key(self, other)
    }
}

impl<'a> Eq for KeyRef<'a> {
    ghost use Rattle.kql_cells.specs.Keys.{same_keys-equiv};

    ghost laws = { same_keys-equiv };
}

impl<'a> Hash for KeyRef<'a> {
    ghost use Rattle.std.specs.Prelude.{flat_map};
    ghost use Rattle.kql_cells.specs.Keys.{same_keys_alike};

    ghost hash_input = { flat_map cell_writes };

    ghost respects_eq = { same_keys_alike (flat_map cell_writes) };

    fn hash<H: Hasher>(&self, state: &mut H) {
        for j in 0..self.len() {
            hash_cell(self.cell(j), state);
        }
    }
}
