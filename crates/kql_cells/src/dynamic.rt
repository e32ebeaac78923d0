ghost use Rattle.std.specs.Prelude.{◌≡◌, ◌↔◌, nat_le, IfOk, IsTrue};
ghost use Rattle.std.specs.List.{list_all};
ghost use Rattle.kql_cells.specs.Dynamic.{ascends, has_form, is_null, levels, rises_to};

use crate::text::KText;
use kql_items::Items;
use std::alloc::{AllocError, Global};
use std::cmp::Ordering;

/// The elements of an array.
pub type DynList = Items<Dyn>;

/// The entries of a bag, keys ascending by bytes.
pub type DynBag = Items<(KText, Dyn)>;

/// How many levels a dynamic value may have: a scalar has none, and an array or a bag one more than its highest part.
pub const LEVELS_TOP: u32 = 127;

/// A dynamic value, as JSON text holds it.
#[derive(Debug, Drop)]
pub enum Dyn {
    Null,
    Bool(bool),
    Long(i64),
    Text(KText),
    Array(DynList),
    Bag(DynBag),
}

/// An equal value.
#[cycle(clone_dyn)]
pub fn clone_dyn(alloc: Global, d: &Dyn) -> Result<Dyn, AllocError>
    ensures same { IfOk result (λ c. c ≡ d.now) }
{
    match d {
        Dyn::Null => Ok(Dyn::Null),
        Dyn::Bool(b) => Ok(Dyn::Bool(*b)),
        Dyn::Long(n) => Ok(Dyn::Long(*n)),
        Dyn::Text(t) => Ok(Dyn::Text(t.copy(alloc)?)),
        Dyn::Array(parts) => Ok(Dyn::Array(clone_list(alloc, parts)?)),
        Dyn::Bag(entries) => Ok(Dyn::Bag(clone_bag(alloc, entries)?)),
    }
}

#[cycle(clone_dyn)]
fn clone_list(alloc: Global, parts: &DynList) -> Result<DynList, AllocError>
    ensures same { IfOk result (λ c. c ≡ parts.now) }
{
    let mut copies = Items::with_capacity(alloc, parts.len())?;
    for d in parts.as_slice() {
        let copy = clone_dyn(alloc, d)?;
        copies.push(copy)?;
    }
    Ok(copies)
}

#[cycle(clone_dyn)]
fn clone_bag(alloc: Global, entries: &DynBag) -> Result<DynBag, AllocError>
    ensures same { IfOk result (λ c. c ≡ entries.now) }
{
    let mut copies = Items::with_capacity(alloc, entries.len())?;
    for entry in entries.as_slice() {
        let key = entry.0.copy(alloc)?;
        let value = clone_dyn(alloc, &entry.1)?;
        copies.push((key, value))?;
    }
    Ok(copies)
}

/// Whether two dynamic values are the same.
#[cycle(same_dyn)]
pub fn same_dyn(a: &Dyn, b: &Dyn) -> bool
    ensures same { IsTrue result ↔ (a.now ≡ b.now) }
{
    match (a, b) {
        (Dyn::Null, Dyn::Null) => true,
        (Dyn::Bool(x), Dyn::Bool(y)) => *x == *y,
        (Dyn::Long(x), Dyn::Long(y)) => *x == *y,
        (Dyn::Text(x), Dyn::Text(y)) => x.equals(y),
        (Dyn::Array(x), Dyn::Array(y)) => same_parts(x.as_slice(), y.as_slice()),
        (Dyn::Bag(x), Dyn::Bag(y)) => same_entries(x.as_slice(), y.as_slice()),
        _ => false,
    }
}

#[cycle(same_dyn)]
fn same_parts(a: &[Dyn], b: &[Dyn]) -> bool
    ensures same { IsTrue result ↔ (a.now ≡ b.now) }
{
    if a.len() != b.len() {
        return false;
    }
    for i in 0..a.len() {
        if !same_dyn(&a[i], &b[i]) {
            return false;
        }
    }
    true
}

#[cycle(same_dyn)]
fn same_entries(a: &[(KText, Dyn)], b: &[(KText, Dyn)]) -> bool
    ensures same { IsTrue result ↔ (a.now ≡ b.now) }
{
    if a.len() != b.len() {
        return false;
    }
    for i in 0..a.len() {
        if !a[i].0.equals(&b[i].0) || !same_dyn(&a[i].1, &b[i].1) {
            return false;
        }
    }
    true
}

// Whether it is null itself.
pub(crate) fn is_null(d: &Dyn) -> bool
    ensures { result ≡ is_null d.now }
{
    match d {
        Dyn::Null => true,
        _ => false,
    }
}

/// Whether it has at most so many levels.
#[cycle(has_levels_within)]
#[tactic(auto, using(crate::proofs::LevelLaws::level_steps))]
pub fn has_levels_within(d: &Dyn, limit: u32) -> bool
    ensures within { result ≡ nat_le (levels d.now) limit }
{
    match d {
        Dyn::Null => true,
        Dyn::Bool(_) => true,
        Dyn::Long(_) => true,
        Dyn::Text(_) => true,
        Dyn::Array(parts) => limit > 0 && parts_within(parts.as_slice(), limit - 1),
        Dyn::Bag(entries) => limit > 0 && entries_within(entries.as_slice(), limit - 1),
    }
}

#[cycle(has_levels_within)]
fn parts_within(parts: &[Dyn], limit: u32) -> bool
    ensures within { result ≡ list_all (λ d. nat_le (levels d) limit) parts.now }
{
    for d in parts {
        if !has_levels_within(d, limit) {
            return false;
        }
    }
    true
}

#[cycle(has_levels_within)]
fn entries_within(entries: &[(KText, Dyn)], limit: u32) -> bool
    ensures within { result ≡ list_all (λ e. nat_le (levels e.1) limit) entries.now }
{
    for entry in entries {
        if !has_levels_within(&entry.1, limit) {
            return false;
        }
    }
    true
}

/// Whether the keys of each bag in it are distinct and ascend by bytes.
#[cycle(has_form)]
#[tactic(auto, using(crate::proofs::FormLaws::form_steps))]
pub fn has_form(d: &Dyn) -> bool
    ensures form { result ≡ has_form d.now }
{
    match d {
        Dyn::Null => true,
        Dyn::Bool(_) => true,
        Dyn::Long(_) => true,
        Dyn::Text(_) => true,
        Dyn::Array(parts) => parts_have_form(parts.as_slice()),
        Dyn::Bag(entries) => keys_ascend(entries.as_slice())
            && entries_have_form(entries.as_slice()),
    }
}

#[cycle(has_form)]
fn parts_have_form(parts: &[Dyn]) -> bool
    ensures form { result ≡ list_all has_form parts.now }
{
    for d in parts {
        if !has_form(d) {
            return false;
        }
    }
    true
}

#[cycle(has_form)]
fn entries_have_form(entries: &[(KText, Dyn)]) -> bool
    ensures form { result ≡ list_all (λ e. has_form e.1) entries.now }
{
    for entry in entries {
        if !has_form(&entry.1) {
            return false;
        }
    }
    true
}

// Whether each key is below the next.
fn keys_ascend(entries: &[(KText, Dyn)]) -> bool
    ensures { result ≡ ascends entries.now }
{
    let mut rest = entries;
    'entries: while let Some((first, others)) = rest.split_first() {
        if !is_below_first(&first.0, others) {
            return false;
        }
        rest = others;
    }
    true
}

// Whether a key is below that of the first entry, if there is one.
fn is_below_first(key: &KText, entries: &[(KText, Dyn)]) -> bool
    ensures { result ≡ rises_to key.now entries.now }
{
    match entries {
        [] => true,
        [next, ..] => key.order(&next.0) == Ordering::Less,
    }
}
