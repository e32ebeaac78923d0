ghost use Rattle.std.specs.Prelude.{◌≡◌, ◌<◌, ◌≤◌, IfOk, IfSome, IsTrue, All, [], ◌∷◌, length, map, take, drop, bytes_eq};
ghost use Rattle.kql_values.specs.Stores.{text_value};
ghost use Rattle.kql_keys.specs.Numbers.{first_places, numbers_of};
ghost use Rattle.kql_keys.specs.TextKeys.{AreShort, number_from, number_of};

use crate::numbering::{Numbered, push_if};
use indexmap::IndexSet;
use kql_items::Items;
use kql_values::{TextColumn, Vector};
use std::alloc::{AllocError, Global};
use std::hash::{Hash, Hasher};
use std::marker::Model;

/// How many bytes a number holds.
const DIGITS: usize = 7;

/// How many bytes a key holds.
const LONGEST: usize = 21;

// A key that is a text of at most 21 bytes. It is hashed and compared as three numbers, and no column is read.
#[derive(Drop)]
struct ShortText {
    first: u64,
    second: u64,
    third: u64,
}

impl Model for ShortText {
    ghost use Rattle.std.specs.Prelude.{List, ℕ};
    ghost use Rattle.kql_keys.specs.TextKeys.{AreNumbersOf, text_of};

    ghost Value = { List ℕ };

    ghost view = { λ k. text_of k.first k.second k.third };

    ghost invariant = { λ k. AreNumbersOf (text_of k.first k.second k.third) k.first k.second k.third };
}

impl ShortText {
    // The key that a text is.
    fn new(text: &str) -> ShortText
        requires short { length text.now ≤ 21 }
        ensures text { result ≡ text.now }
    {
        let bytes = text.as_bytes();
        ShortText {
            first: number_from(bytes, 0),
            second: number_from(bytes, 7),
            third: number_from(bytes, 14),
        }
    }
}

impl PartialEq for ShortText {
    ghost use Rattle.std.specs.Cmp.{partial_equiv_from_equiv};
    ghost use Rattle.std.specs.Cmp.Lexicographic.{nat_list_eq_equiv};

    ghost eq = { bytes_eq };

    ghost laws = { partial_equiv_from_equiv nat_list_eq_equiv };

    fn eq(&self, other: &ShortText) -> bool {
        self.first == other.first && self.second == other.second && self.third == other.third
    }
}

impl Eq for ShortText {
    ghost use Rattle.std.specs.Cmp.Lexicographic.{nat_list_eq_equiv};

    ghost laws = { nat_list_eq_equiv };
}

impl Hash for ShortText {
    ghost use Rattle.kql_keys.specs.TextKeys.{same_texts_alike, text_writes};

    ghost hash_input = { text_writes };

    ghost respects_eq = { same_texts_alike text_writes };

    fn hash<H: Hasher>(&self, state: &mut H) {
        state.write_u64(self.first);
        state.write_u64(self.second);
        state.write_u64(self.third);
    }
}

// The number of the at most seven bytes from a place on.
#[tactic(auto, unfolding(crate::specs::TextKeys::number_from))]
fn number_from(bytes: &[u8], start: usize) -> u64
    requires small { start ≤ 14 }
    ensures number { result ≡ number_from start bytes.now }
    ensures bytes { All (λ b. b < 256) bytes.now }
{
    number_of(part_from(bytes, start))
}

// The at most seven bytes from a place on.
#[tactic(auto, using(crate::proofs::TextKeyFacts::part_facts))]
fn part_from(bytes: &[u8], start: usize) -> &[u8]
    requires small { start ≤ 14 }
    ensures part { result.now ≡ take 7 (drop start bytes.now) }
    ensures count { length result.now ≤ 7 }
{
    let end = bytes.len().min(start + DIGITS);
    &bytes[start.min(end)..end]
}

// The number of at most seven bytes.
#[tactic(auto, using(crate::proofs::TextKeyFacts::digit_steps))]
fn number_of(bytes: &[u8]) -> u64
    requires count { length bytes.now ≤ 7 }
    ensures number { result ≡ number_of bytes.now }
{
    let mut number = 0;
    let mut left = bytes.len();
    while left > 0 {
        left -= 1;
        number = number * 256 + (bytes[left] as u64 + 1);
    }
    number
}

/// The texts of the only column, where there is one and it is stored as texts.
pub(crate) fn lone_texts<'a>(columns: &[&'a Vector]) -> Option<&'a TextColumn>
    ensures only { IfSome result (λ t. map (λ c. c.now) columns.now ≡ map text_value t.now ∷ []) }
{
    match columns {
        [column] => column.texts(),
        _ => None,
    }
}

/// Whether the first of these texts can be keys.
#[tactic(auto, using(crate::proofs::TextKeyFacts::short_steps))]
pub(crate) fn are_short(texts: &TextColumn, count: usize) -> bool
    requires within { count ≤ length texts.now }
    ensures short { IsTrue result → AreShort count texts.now }
{
    for i in 0..count {
        if texts.get(i).len() > LONGEST {
            return false;
        }
    }
    true
}

/// The first of these texts as keys: the number of each, and the first place of each key.
pub(crate) fn number_by_texts(
    alloc: Global,
    texts: &TextColumn,
    count: usize,
) -> Result<Numbered, AllocError>
    requires within { count ≤ length texts.now }
    requires short { AreShort count texts.now }
    ensures numbers { IfOk result (λ x. x.numbers ≡ numbers_of bytes_eq (take count texts.now)) }
    ensures firsts { IfOk result (λ x. x.firsts ≡ first_places bytes_eq (take count texts.now)) }
{
    let mut seen: IndexSet<ShortText> = IndexSet::new(alloc);
    let mut places = Items::with_capacity(alloc, count)?;
    let mut firsts = Items::new(alloc);
    for i in 0..count {
        let key = ShortText::new(texts.get(i));
        let (place, added) = seen.insert_full(key)?;
        places.push(place)?;
        push_if(added, &mut firsts, i)?;
    }
    Ok(Numbered {
        numbers: places,
        firsts,
    })
}
