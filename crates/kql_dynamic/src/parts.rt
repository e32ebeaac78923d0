ghost use Rattle.std.specs.Prelude.{◌≡◌, ◌<◌, ◌≤◌, ◌^◌, IfOk, IsTrue, length, map, min, option_map, Some};
ghost use Rattle.std.specs.List.{list_all};
ghost use Rattle.kql_cells.specs.Dynamic.{highest, is_well_formed_dynamic, levels};
ghost use Rattle.kql_cells.specs.Values.{IsWellFormed};
ghost use Rattle.kql_dynamic.specs.Parts.{argument, at_index, at_name, element_at, elements, entries, entry_at, from_start, long, text, value_of};

use kql_cells::{Dyn, KText, LEVELS_TOP, Value, clone_dyn, has_form, has_levels_within};
use std::alloc::{AllocError, Global};

/// The value of a bag's entry with this key: null where it is no bag, or has no such key.
pub fn at_name(alloc: Global, d: &Dyn, n: &str) -> Result<Value, AllocError>
    requires { IsTrue (is_well_formed_dynamic d.now) }
    ensures value { IfOk result (λ v. v ≡ at_name d.now n.now) }
    ensures form { IfOk result IsWellFormed }
{
    let Some(entries) = entries(d) else {
        return Ok(Value::Null);
    };
    match entry_at(entries, n) {
        Some(value) => Ok(value_of(clone_dyn(alloc, value)?)),
        None => Ok(Value::Null),
    }
}

/// The value of an array's element, counted from 0; a negative index counts from the end, -1 the last. It is null
/// where it is no array, or has no such element.
pub fn at_index(alloc: Global, d: &Dyn, i: i64) -> Result<Value, AllocError>
    requires { IsTrue (is_well_formed_dynamic d.now) }
    ensures value { IfOk result (λ v. v ≡ at_index d.now i) }
    ensures form { IfOk result IsWellFormed }
{
    let Some(parts) = elements(d) else {
        return Ok(Value::Null);
    };
    match element_at(parts, i) {
        Some(part) => Ok(value_of(clone_dyn(alloc, part)?)),
        None => Ok(Value::Null),
    }
}

/// How many levels a dynamic value has: a scalar has none, an empty array or bag one, and another array or bag
/// one more than its highest part.
pub fn levels(d: &Dyn) -> u32
    requires { IsTrue (is_well_formed_dynamic d.now) }
    ensures count { result ≡ levels d.now }
    ensures limit { result ≤ 127 }
{
    levels_or_top(d)
}

/// Whether all of these are well formed, which the calls on arrays, bags and sets ask of their arguments: the keys
/// of each bag are distinct and ascend by bytes, and there are at most 127 levels.
pub fn are_well_formed(args: &[&Dyn]) -> bool
    ensures form { result ≡ list_all is_well_formed_dynamic (map (λ d. d.now) args.now) }
{
    let mut left = args;
    'values: while let [d, more @ ..] = left {
        if !has_form(d) || !has_levels_within(d, LEVELS_TOP) {
            return false;
        }
        left = more;
    }
    true
}

// The levels, or the greatest number where there are more.
#[cycle(levels)]
#[tactic(auto, using(crate::proofs::LevelCounts::level_counts))]
fn levels_or_top(d: &Dyn) -> u32
    ensures { result ≡ min (levels d.now) u32.MAX }
{
    match d {
        Dyn::Null => 0,
        Dyn::Bool(_) => 0,
        Dyn::Long(_) => 0,
        Dyn::Text(_) => 0,
        Dyn::Array(parts) => highest_part(parts.as_slice()).saturating_add(1),
        Dyn::Bag(entries) => highest_entry(entries.as_slice()).saturating_add(1),
    }
}

#[cycle(levels)]
#[tactic(auto, using(crate::proofs::LevelCounts::level_counts))]
fn highest_part(parts: &[Dyn]) -> u32
    ensures { result ≡ min (highest levels parts.now) u32.MAX }
{
    let mut top = 0;
    for part in parts {
        top = levels_or_top(part).max(top);
    }
    top
}

#[cycle(levels)]
#[tactic(auto, using(crate::proofs::LevelCounts::level_counts))]
fn highest_entry(entries: &[(KText, Dyn)]) -> u32
    ensures { result ≡ min (highest (λ e. levels e.1) entries.now) u32.MAX }
{
    let mut top = 0;
    for entry in entries {
        top = levels_or_top(&entry.1).max(top);
    }
    top
}

// A dynamic value as a value.
pub(crate) fn value_of(d: Dyn) -> Value
    ensures { result ≡ value_of d }
{
    match d {
        Dyn::Null => Value::Null,
        other => Value::Dynamic(other),
    }
}

// The elements of an array.
#[tactic(auto, unfolding(crate::specs::Parts::elements))]
pub(crate) fn elements(d: &Dyn) -> Option<&[Dyn]>
    ensures { option_map (λ s. s.now) result ≡ elements d.now }
{
    match d {
        Dyn::Array(parts) => Some(parts.as_slice()),
        _ => None,
    }
}

// The entries of a bag.
#[tactic(auto, unfolding(crate::specs::Parts::entries))]
pub(crate) fn entries(d: &Dyn) -> Option<&[(KText, Dyn)]>
    ensures { option_map (λ s. s.now) result ≡ entries d.now }
{
    match d {
        Dyn::Bag(entries) => Some(entries.as_slice()),
        _ => None,
    }
}

// The value of a key.
pub(crate) fn entry_at<'a>(entries: &'a [(KText, Dyn)], n: &str) -> Option<&'a Dyn>
    ensures { option_map (λ d. d.now) result ≡ entry_at n.now entries.now }
{
    for entry in entries {
        if entry.0.as_str() == n {
            return Some(&entry.1);
        }
    }
    None
}

// The element at an index.
fn element_at(parts: &[Dyn], i: i64) -> Option<&Dyn>
    ensures { option_map (λ d. d.now) result ≡ element_at parts.now (from_start (length parts.now) i) }
{
    let place = from_start(parts.len(), i);
    if place < 0 {
        None
    } else {
        parts.get(place as usize)
    }
}

// The place of an index.
pub(crate) fn from_start(size: usize, i: i64) -> i64
    requires { size < 2 ^ 63 }
    ensures { result ≡ from_start size i }
{
    if i < 0 { i + size as i64 } else { i }
}

// The text of a text.
#[tactic(auto, unfolding(crate::specs::Parts::text))]
pub(crate) fn text(d: &Dyn) -> Option<&str>
    ensures { option_map (λ s. s.now) result ≡ text d.now }
{
    match d {
        Dyn::Text(t) => Some(t.as_str()),
        _ => None,
    }
}

// The number of a long.
#[tactic(auto, unfolding(crate::specs::Parts::long))]
pub(crate) fn long(d: &Dyn) -> Option<i64>
    ensures { result ≡ long d.now }
{
    match d {
        Dyn::Long(n) => Some(*n),
        _ => None,
    }
}

// The argument at a place.
pub(crate) fn argument<'a>(args: &[&'a Dyn], i: usize) -> &'a Dyn
    requires { i < length args.now }
    ensures { result.now ≡ argument (map (λ d. d.now) args.now) i }
{
    args[i]
}
