ghost use Rattle.std.specs.Prelude.{◌≡◌, ◌<◌, ◌≤◌, ◌++◌, All, IfOk, OnOk, length, map};
ghost use Rattle.kql_values.specs.Grids.{row_of, rows_of};
ghost use Rattle.kql_keys.specs.Matches.{matches_in, pairs_of};

use crate::key::KeyRef;
use crate::numbering::{KeyIndex, index_keys};
use crate::places::{PlaceLists, places_by_number};
use indexmap::IndexSet;
use kql_cells::Places;
use kql_items::Items;
use kql_values::Vector;
use std::alloc::{AllocError, Global};
use std::marker::Model;

/// The rows of one side by their keys, which contracts see as the list of the keys.
#[derive(Drop)]
pub struct Probe<'a> {
    columns: &'a [&'a Vector],
    count: usize,
    seen: IndexSet<KeyRef<'a>>,
    places: PlaceLists,
}

impl<'a> Model for Probe<'a> {
    ghost use Rattle.std.specs.Prelude.{List, length, map, ◌≡◌};
    ghost use Rattle.std.specs.Coded.{codes};
    ghost use Rattle.kql_cells.specs.contracts.dynamic.Dyn as dynamic;
    ghost use Rattle.kql_cells.specs.declared.value.Value.{Value as Cell};
    ghost use Rattle.kql_values.specs.Grids.{rows_of};
    ghost use Rattle.kql_keys.specs.Numbers.{distinct, numbers_of};
    ghost use Rattle.kql_keys.specs.Places.{places_by};
    ghost use Rattle.kql_cells.specs.Keys.{same_keys};

    ghost Value = { List (List Cell) };

    ghost coded = { Prim.hlevel (codes, dynamic.the_row.coded) };

    ghost view = { λ p. rows_of p.count (map (λ c. c.now) p.columns.now) };

    ghost invariant = { λ p. (p.seen.keys ≡ distinct same_keys (rows_of p.count (map (λ c. c.now) p.columns.now))) × (p.places ≡ places_by (numbers_of same_keys (rows_of p.count (map (λ c. c.now) p.columns.now))) (length (distinct same_keys (rows_of p.count (map (λ c. c.now) p.columns.now))))) };
}

impl<'a> Probe<'a> {
    /// The first rows of these columns by their keys.
    pub fn new(
        alloc: Global,
        columns: &'a [&'a Vector],
        count: usize,
    ) -> Result<Probe<'a>, AllocError>
        requires { All (λ c. count ≤ length c.now) columns.now }
        ensures keys { IfOk result (λ p. p ≡ rows_of count (map (λ c. c.now) columns.now)) }
    {
        let KeyIndex {
            seen,
            numbers,
            firsts: _,
        } = index_keys(alloc, columns, count)?;
        let places = places_by_number(alloc, numbers.as_slice(), seen.len())?;
        Ok(Probe {
            columns,
            count,
            seen,
            places,
        })
    }

    /// The places of the rows that match a row of other columns, rising. A key with a null matches nothing.
    pub fn matches_of(&self, columns: &[&Vector], at: usize) -> &[usize]
        requires { All (λ c. at < length c.now) columns.now }
        ensures places { result.now ≡ matches_in self.now (row_of (map (λ c. c.now) columns.now) at) }
    {
        let key = KeyRef::new(columns, at);
        if key.has_null() {
            return self.places.none();
        }
        match self.seen.get_index_of(&key) {
            Some(number) => self.places.get(number),
            None => self.places.none(),
        }
    }
}

/// Pairs of places, as two lists of one length.
#[derive(Drop)]
pub struct Pairs {
    pub lefts: Places,
    pub rights: Places,
}

/// The pairs of rows whose keys match, in left order and for each left row in right order.
pub fn matching_pairs(
    alloc: Global,
    left: &[&Vector],
    lefts: usize,
    right: &[&Vector],
    rights: usize,
) -> Result<Pairs, AllocError>
    requires left { All (λ c. lefts ≤ length c.now) left.now }
    requires right { All (λ c. rights ≤ length c.now) right.now }
    ensures lefts { IfOk result (λ p. p.lefts ≡ map (λ p. p.0) (pairs_of (map (λ c. c.now) left.now) lefts (rows_of rights (map (λ c. c.now) right.now)))) }
    ensures rights { IfOk result (λ p. p.rights ≡ map (λ p. p.1) (pairs_of (map (λ c. c.now) left.now) lefts (rows_of rights (map (λ c. c.now) right.now)))) }
{
    let probe = Probe::new(alloc, right, rights)?;
    let mut ls = Items::new(alloc);
    let mut rs = Items::new(alloc);
    for i in 0..lefts {
        let found = probe.matches_of(left, i);
        push_pairs(&mut ls, &mut rs, i, found)?;
    }
    Ok(Pairs {
        lefts: ls,
        rights: rs,
    })
}

// Adds the pairs of a place with each of these.
fn push_pairs(ls: &mut Places, rs: &mut Places, i: usize, found: &[usize]) -> Result<(), AllocError>
    ensures lefts { OnOk result (ls.new ≡ ls.old ++ map (λ j. i) found.now) }
    ensures rights { OnOk result (rs.new ≡ rs.old ++ found.now) }
{
    for j in 0..found.len() {
        ls.push(i)?;
        rs.push(found[j])?;
    }
    Ok(())
}
