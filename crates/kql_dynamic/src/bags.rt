ghost use Rattle.std.specs.Prelude.{◌≡◌, fold, map, option_map, IfOk, IsTrue, Ok, OnOk, length};
ghost use Rattle.std.specs.List.{list_all};
ghost use Rattle.kql_cells.specs.Dynamic.{is_well_formed_dynamic};
ghost use Rattle.kql_cells.specs.Values.{IsWellFormed};
ghost use Rattle.kql_cells.specs.declared.dynamic.Dyn.TheVariants.{Text};
ghost use Rattle.kql_dynamic.specs.Bags.{bag_has_key, bag_keys, bag_merge, bag_of, bag_pack, entries_seen, pairs, put};

use crate::parts::{argument, entries, entry_at, text};
use kql_cells::{Dyn, DynBag, DynList, KText, LEVELS_TOP, Value, clone_dyn, has_levels_within};
use kql_items::Items;
use std::alloc::{AllocError, Global};
use std::collections::BTreeMap;

// Entries by their keys.
type Entries = BTreeMap<String, Dyn>;

/// The array of a bag's keys, ascending by bytes: `bag_keys(bag)`. It is null where there is no bag.
pub fn bag_keys(alloc: Global, args: &[&Dyn]) -> Result<Value, AllocError>
    requires count { length args.now ≡ 1 }
    requires form { IsTrue (list_all is_well_formed_dynamic (map (λ d. d.now) args.now)) }
    ensures value { IfOk result (λ v. v ≡ bag_keys (map (λ d. d.now) args.now)) }
    ensures form { IfOk result IsWellFormed }
{
    match entries(argument(args, 0)) {
        Some(entries) => Ok(Value::Dynamic(Dyn::Array(keys_of(alloc, entries)?))),
        None => Ok(Value::Null),
    }
}

/// Whether a bag has a key: `bag_has_key(bag, key)`. It is null where there is no bag, or the key is no text, and
/// takes no memory.
pub fn bag_has_key(_alloc: Global, args: &[&Dyn]) -> Result<Value, AllocError>
    requires count { length args.now ≡ 2 }
    requires form { IsTrue (list_all is_well_formed_dynamic (map (λ d. d.now) args.now)) }
    ensures value { result ≡ Ok (bag_has_key (map (λ d. d.now) args.now)) }
    ensures form { IfOk result IsWellFormed }
{
    let Some(entries) = entries(argument(args, 0)) else {
        return Ok(Value::Null);
    };
    match text(argument(args, 1)) {
        Some(key) => Ok(Value::Bool(entry_at(entries, key).is_some())),
        None => Ok(Value::Null),
    }
}

/// One bag of the keys of bags: `bag_merge(bag, bag, ..)`. The first bag that has a key gives its value, also a null.
/// It is null where one is no bag, and the empty bag where there are no arguments.
pub fn bag_merge(alloc: Global, args: &[&Dyn]) -> Result<Value, AllocError>
    requires { IsTrue (list_all is_well_formed_dynamic (map (λ d. d.now) args.now)) }
    ensures value { IfOk result (λ v. v ≡ bag_merge (map (λ d. d.now) args.now)) }
    ensures form { IfOk result IsWellFormed }
{
    let mut merged = BTreeMap::new(alloc);
    let mut count = args.len();
    'bags: while count > 0 {
        let last = count - 1;
        let Some(entries) = entries(args[last]) else {
            return Ok(Value::Null);
        };
        put_copies(alloc, &mut merged, entries)?;
        count = last;
    }
    Ok(Value::Dynamic(Dyn::Bag(bag_from(alloc, merged)?)))
}

/// The bag of keys and values: `bag_pack(key, value, ..)`. A later equal key replaces, and nulls stand as null. It
/// is null where a key is no text, where the last key has no value, and where it would have more than 127 levels; it
/// is the empty bag where there are no arguments.
pub fn bag_pack(alloc: Global, args: &[&Dyn]) -> Result<Value, AllocError>
    requires { IsTrue (list_all is_well_formed_dynamic (map (λ d. d.now) args.now)) }
    ensures value { IfOk result (λ v. v ≡ bag_pack (map (λ d. d.now) args.now)) }
    ensures form { IfOk result IsWellFormed }
{
    let Some(packed) = packed_entries(alloc, args)? else {
        return Ok(Value::Null);
    };
    let packed = Dyn::Bag(bag_from(alloc, packed)?);
    if has_levels_within(&packed, LEVELS_TOP) {
        Ok(Value::Dynamic(packed))
    } else {
        Ok(Value::Null)
    }
}

// The entries of keys and values in turn, none where a key is no text or has no value.
fn packed_entries(alloc: Global, args: &[&Dyn]) -> Result<Option<Entries>, AllocError>
    ensures { IfOk result (λ o. option_map (λ m. entries_seen m.entries) o ≡ option_map bag_of (pairs (map (λ d. d.now) args.now))) }
{
    let mut packed = BTreeMap::new(alloc);
    let mut left = args;
    'pairs: while let [key, more @ ..] = left {
        let [value, rest @ ..] = more else {
            return Ok(None);
        };
        let Some(key) = text(key) else {
            return Ok(None);
        };
        put_copy(alloc, &mut packed, key, value)?;
        left = rest;
    }
    Ok(Some(packed))
}

// The keys, in order.
fn keys_of(alloc: Global, entries: &[(KText, Dyn)]) -> Result<DynList, AllocError>
    ensures { IfOk result (λ ks. ks ≡ map (λ e. Text e.0) entries.now) }
{
    let mut keys = Items::with_capacity(alloc, entries.len())?;
    for entry in entries {
        keys.push(Dyn::Text(entry.0.copy(alloc)?))?;
    }
    Ok(keys)
}

// Puts copies of these, one after another.
fn put_copies(alloc: Global, bag: &mut Entries, entries: &[(KText, Dyn)]) -> Result<(), AllocError>
    ensures { OnOk result (entries_seen bag.new.entries ≡ fold put (entries_seen bag.old.entries) entries.now) }
{
    for entry in entries {
        put_copy(alloc, bag, entry.0.as_str(), &entry.1)?;
    }
    Ok(())
}

// Puts a copy of a value at a key.
#[tactic(auto, using(crate::proofs::BagPutLaws::bag_steps))]
fn put_copy(alloc: Global, bag: &mut Entries, key: &str, value: &Dyn) -> Result<(), AllocError>
    ensures { OnOk result (entries_seen bag.new.entries ≡ put (entries_seen bag.old.entries) (key.now, value.now)) }
{
    let key = String::from_str(alloc, key)?;
    let value = clone_dyn(alloc, value)?;
    drop(bag.insert(key, value)?);
    Ok(())
}

// The entries in the order of their keys.
fn bag_from(alloc: Global, entries: Entries) -> Result<DynBag, AllocError>
    ensures { IfOk result (λ es. es ≡ entries_seen entries.entries) }
{
    let mut bag = Items::with_capacity(alloc, entries.len())?;
    for (key, value) in entries {
        bag.push((KText::from_string(key), value))?;
    }
    Ok(bag)
}
