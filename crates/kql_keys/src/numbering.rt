ghost use Rattle.std.specs.Prelude.{◌≡◌, ◌<◌, ◌≤◌, ◌++◌, ◌∷◌, [], All, IfOk, OnOk, length, map, if◌then◌else◌};
ghost use Rattle.kql_values.specs.Grids.{row_of, rows_of};
ghost use Rattle.kql_keys.specs.Numbers.{distinct, first_places, numbers_of};
ghost use Rattle.kql_cells.specs.Keys.{same_keys};

use crate::key::KeyRef;
use crate::number_key::{lone_numbers, number_by_numbers};
use crate::text_key::{are_short, lone_texts, number_by_texts};
use indexmap::IndexSet;
use kql_cells::Places;
use kql_items::Items;
use kql_values::Vector;
use std::alloc::{AllocError, Global};

/// The number of each row's key, and the place of the first row of each key, by numbers.
#[derive(Drop)]
pub struct Numbered {
    pub numbers: Items<usize>,
    pub firsts: Places,
}

/// The distinct keys of rows in order of first occurrence, and what `Numbered` has.
#[derive(Drop)]
pub struct KeyIndex<'a> {
    pub(crate) seen: IndexSet<KeyRef<'a>>,
    pub numbers: Items<usize>,
    pub firsts: Places,
}

/// The keys of the first rows of these columns by number.
pub fn index_keys<'a>(
    alloc: Global,
    columns: &'a [&'a Vector],
    count: usize,
) -> Result<KeyIndex<'a>, AllocError>
    requires { All (λ c. count ≤ length c.now) columns.now }
    ensures keys { IfOk result (λ x. x.seen.keys ≡ distinct same_keys (rows_of count (map (λ c. c.now) columns.now))) }
    ensures numbers { IfOk result (λ x. x.numbers ≡ numbers_of same_keys (rows_of count (map (λ c. c.now) columns.now))) }
    ensures firsts { IfOk result (λ x. x.firsts ≡ first_places same_keys (rows_of count (map (λ c. c.now) columns.now))) }
    ensures first_keys { IfOk result (λ x. map (row_of (map (λ c. c.now) columns.now)) x.firsts ≡ distinct same_keys (rows_of count (map (λ c. c.now) columns.now))) }
    ensures within { IfOk result (λ x. All (λ n. n < length x.firsts) x.numbers) }
{
    let mut seen: IndexSet<KeyRef<'a>> = IndexSet::new(alloc);
    let mut numbers = Items::with_capacity(alloc, count)?;
    let mut firsts = Items::new(alloc);
    for i in 0..count {
        let key = KeyRef::new(columns, i);
        let (place, added) = seen.insert_full(key)?;
        numbers.push(place)?;
        push_if(added, &mut firsts, i)?;
    }
    Ok(KeyIndex {
        seen,
        numbers,
        firsts,
    })
}

/// The number of each row's key, where the distinct keys are numbered in order of first occurrence, and the first row of each.
pub fn number_keys(alloc: Global, columns: &[&Vector], count: usize) -> Result<Numbered, AllocError>
    requires { All (λ c. count ≤ length c.now) columns.now }
    ensures numbers { IfOk result (λ x. x.numbers ≡ numbers_of same_keys (rows_of count (map (λ c. c.now) columns.now))) }
    ensures firsts { IfOk result (λ x. x.firsts ≡ first_places same_keys (rows_of count (map (λ c. c.now) columns.now))) }
    ensures first_keys { IfOk result (λ x. map (row_of (map (λ c. c.now) columns.now)) x.firsts ≡ distinct same_keys (rows_of count (map (λ c. c.now) columns.now))) }
    ensures within { IfOk result (λ x. All (λ n. n < length x.firsts) x.numbers) }
{
    if let Some(lone) = lone_numbers(columns) {
        let found = number_by_numbers(alloc, lone, count)?;
        return Ok(found);
    }
    if let Some(texts) = lone_texts(columns) {
        if are_short(texts, count) {
            let named = number_by_texts(alloc, texts, count)?;
            return Ok(named);
        }
    }
    let KeyIndex {
        seen: _,
        numbers,
        firsts,
    } = index_keys(alloc, columns, count)?;
    Ok(Numbered { numbers, firsts })
}

// Adds a place where that is wanted.
pub(crate) fn push_if(wanted: bool, places: &mut Places, place: usize) -> Result<(), AllocError>
    ensures { OnOk result (places.new ≡ (if wanted then places.old ++ place ∷ [] else places.old)) }
{
    if wanted {
        places.push(place)?;
    }
    Ok(())
}
