ghost use Rattle.std.specs.Prelude.{◌≡◌, ◌<◌, ◌≤◌, IfOk, IfSome, [], ◌∷◌, length, map};
ghost use Rattle.kql_values.specs.Numbers.{values_of_numbers};
ghost use Rattle.kql_keys.specs.NumberKeys.{first_numbers, number_at, same_numbers};
ghost use Rattle.kql_keys.specs.Numbers.{first_places, numbers_of};

use crate::numbering::{Numbered, push_if};
use indexmap::IndexSet;
use kql_items::Items;
use kql_values::{Numbers, Vector};
use std::alloc::{AllocError, Global};
use std::hash::{Hash, Hasher};
use std::marker::Model;

// A key that is one number, or null. It is hashed as one number, and no column is read to compare it.
#[derive(Clone, Copy)]
struct NumberKey {
    number: Option<i64>,
}

impl Model for NumberKey {
    ghost use Rattle.std.specs.Prelude.{Option, ℤ};

    ghost Value = { Option ℤ };

    ghost view = { λ k. k.number };

    ghost inverse = { λ n. record { number = n } };
}

impl PartialEq for NumberKey {
    ghost use Rattle.std.specs.Cmp.{partial_equiv_from_equiv};
    ghost use Rattle.kql_keys.specs.NumberKeys.{same_numbers, same_numbers-equiv};

    ghost eq = { same_numbers };

    ghost laws = { partial_equiv_from_equiv same_numbers-equiv };

    fn eq(&self, other: &NumberKey) -> bool {
        self.number == other.number
    }
}

impl Eq for NumberKey {
    ghost use Rattle.kql_keys.specs.NumberKeys.{same_numbers-equiv};

    ghost laws = { same_numbers-equiv };
}

impl Hash for NumberKey {
    ghost use Rattle.kql_keys.specs.NumberKeys.{number_writes, same_numbers_alike};

    ghost hash_input = { number_writes };

    ghost respects_eq = { same_numbers_alike number_writes };

    fn hash<H: Hasher>(&self, state: &mut H) {
        match self.number {
            None => state.write_i64(0),
            Some(n) => state.write_i64(n),
        }
    }
}

// The number at a place of lent ones, or null.
#[tactic(auto, using(crate::proofs::NumberKeyFacts::number_facts))]
fn number_at(numbers: Numbers<'_>, i: usize) -> Option<i64>
    requires within { i < length numbers.numbers.now }
    requires mask { length numbers.nulls.now ≡ length numbers.numbers.now }
    ensures number { result ≡ number_at numbers.entry i }
{
    if numbers.nulls[i] {
        None
    } else {
        Some(numbers.numbers[i])
    }
}

// The key at a place of lent numbers.
fn number_key(numbers: Numbers<'_>, i: usize) -> NumberKey
    requires within { i < length numbers.numbers.now }
    requires mask { length numbers.nulls.now ≡ length numbers.numbers.now }
    ensures number { result ≡ number_at numbers.entry i }
{
    let number = number_at(numbers, i);
    NumberKey { number }
}

/// The numbers of the only column, where there is one and it is stored as numbers.
pub(crate) fn lone_numbers<'a>(columns: &[&'a Vector]) -> Option<Numbers<'a>>
    ensures only { IfSome result (λ n. map (λ c. c.now) columns.now ≡ values_of_numbers n ∷ []) }
    ensures mask { IfSome result (λ n. length n.nulls.now ≡ length n.numbers.now) }
{
    match columns {
        [column] => column.numbers(),
        _ => None,
    }
}

/// The first of these numbers as keys: the number of each, and the first place of each key.
pub(crate) fn number_by_numbers(
    alloc: Global,
    numbers: Numbers<'_>,
    count: usize,
) -> Result<Numbered, AllocError>
    requires within { count ≤ length numbers.numbers.now }
    requires mask { length numbers.nulls.now ≡ length numbers.numbers.now }
    ensures numbers { IfOk result (λ x. x.numbers ≡ numbers_of same_numbers (first_numbers numbers.entry count)) }
    ensures firsts { IfOk result (λ x. x.firsts ≡ first_places same_numbers (first_numbers numbers.entry count)) }
{
    let mut seen: IndexSet<NumberKey> = IndexSet::new(alloc);
    let mut places = Items::with_capacity(alloc, count)?;
    let mut firsts = Items::new(alloc);
    for i in 0..count {
        let key = number_key(numbers, i);
        let (place, added) = seen.insert_full(key)?;
        places.push(place)?;
        push_if(added, &mut firsts, i)?;
    }
    Ok(Numbered {
        numbers: places,
        firsts,
    })
}
