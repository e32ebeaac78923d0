ghost use Rattle.std.specs.Prelude.{◌≡◌, ◌++◌, ◌∷◌, [], Bool, IfOk, IsTrue, Ok, OnOk, if◌then◌else◌, length, map, option_map};
ghost use Rattle.std.specs.HashSet.{contains};
ghost use Rattle.std.specs.List.{list_all};
ghost use Rattle.kql_cells.specs.Dynamic.{is_well_formed_dynamic};
ghost use Rattle.kql_cells.specs.Values.{IsWellFormed};
ghost use Rattle.kql_cells.specs.declared.dynamic.Dyn.{Dyn};
ghost use Rattle.kql_cells.specs.Same.{same};
ghost use Rattle.kql_dynamic.specs.Sets.{chosen, distinct, is_among, set_difference, set_has_element, set_intersect, set_union, two_arrays};

use crate::hashed::{DynRef, same};
use crate::parts::{argument, elements};
use kql_cells::{Dyn, DynList, Value, clone_dyn};
use kql_items::Items;
use std::alloc::{AllocError, Global};
use std::collections::HashSet;

/// The distinct elements of two arrays, by first occurrence: `set_union(array, array)`. It is null where one is no
/// array.
pub fn set_union(alloc: Global, args: &[&Dyn]) -> Result<Value, AllocError>
    requires count { length args.now ≡ 2 }
    requires form { IsTrue (list_all is_well_formed_dynamic (map (λ d. d.now) args.now)) }
    ensures value { IfOk result (λ v. v ≡ set_union (map (λ d. d.now) args.now)) }
    ensures form { IfOk result IsWellFormed }
{
    let Some((first, second)) = two_arrays(args) else {
        return Ok(Value::Null);
    };
    let both = joined(alloc, first, second)?;
    let list = distinct(alloc, both.as_slice())?;
    Ok(Value::Dynamic(Dyn::Array(list)))
}

/// The distinct elements of the first array that are in the second, by first occurrence:
/// `set_intersect(array, array)`. It is null where one is no array.
pub fn set_intersect(alloc: Global, args: &[&Dyn]) -> Result<Value, AllocError>
    requires count { length args.now ≡ 2 }
    requires form { IsTrue (list_all is_well_formed_dynamic (map (λ d. d.now) args.now)) }
    ensures value { IfOk result (λ v. v ≡ set_intersect (map (λ d. d.now) args.now)) }
    ensures form { IfOk result IsWellFormed }
{
    let Some((first, second)) = two_arrays(args) else {
        return Ok(Value::Null);
    };
    let kept = chosen(alloc, true, first, second)?;
    let list = distinct(alloc, kept.as_slice())?;
    Ok(Value::Dynamic(Dyn::Array(list)))
}

/// The distinct elements of the first array that are not in the second, by first occurrence:
/// `set_difference(array, array)`. It is null where one is no array.
pub fn set_difference(alloc: Global, args: &[&Dyn]) -> Result<Value, AllocError>
    requires count { length args.now ≡ 2 }
    requires form { IsTrue (list_all is_well_formed_dynamic (map (λ d. d.now) args.now)) }
    ensures value { IfOk result (λ v. v ≡ set_difference (map (λ d. d.now) args.now)) }
    ensures form { IfOk result IsWellFormed }
{
    let Some((first, second)) = two_arrays(args) else {
        return Ok(Value::Null);
    };
    let kept = chosen(alloc, false, first, second)?;
    let list = distinct(alloc, kept.as_slice())?;
    Ok(Value::Dynamic(Dyn::Array(list)))
}

/// Whether an array has an element that is identical to a value: `set_has_element(array, value)`. It is null where
/// there is no array, and takes no memory.
pub fn set_has_element(_alloc: Global, args: &[&Dyn]) -> Result<Value, AllocError>
    requires count { length args.now ≡ 2 }
    requires form { IsTrue (list_all is_well_formed_dynamic (map (λ d. d.now) args.now)) }
    ensures value { result ≡ Ok (set_has_element (map (λ d. d.now) args.now)) }
    ensures form { IfOk result IsWellFormed }
{
    match elements(argument(args, 0)) {
        Some(parts) => Ok(Value::Bool(is_among(parts, argument(args, 1)))),
        None => Ok(Value::Null),
    }
}

// The elements of two arrays, none where one is no array.
fn two_arrays<'a>(args: &[&'a Dyn]) -> Option<(&'a [Dyn], &'a [Dyn])>
    requires { length args.now ≡ 2 }
    ensures { option_map (λ p. (p.0.now, p.1.now)) result ≡ two_arrays (map (λ d. d.now) args.now) }
{
    let first = elements(argument(args, 0))?;
    let second = elements(argument(args, 1))?;
    Some((first, second))
}

// Whether a value is identical to one of these.
fn is_among(parts: &[Dyn], value: &Dyn) -> bool
    ensures { result ≡ is_among parts.now value.now }
{
    parts.iter().any(|part| same(value, part))
}

// The elements of two lists, lent.
fn joined<'a>(
    alloc: Global,
    first: &'a [Dyn],
    second: &'a [Dyn],
) -> Result<Vec<&'a Dyn>, AllocError>
    ensures { IfOk result (λ v. map (λ d. d.now) v.items ≡ first.now ++ second.now) }
{
    let mut both = Vec::new(alloc);
    for part in first {
        both.push(part)?;
    }
    for part in second {
        both.push(part)?;
    }
    Ok(both)
}

// Those of a list that are among others, or those that are not, lent.
fn chosen<'a>(
    alloc: Global,
    wanted: bool,
    first: &'a [Dyn],
    second: &[Dyn],
) -> Result<Vec<&'a Dyn>, AllocError>
    ensures { IfOk result (λ v. map (λ d. d.now) v.items ≡ chosen wanted first.now second.now) }
{
    let others = set_of(alloc, second)?;
    let mut kept = Vec::new(alloc);
    for part in first {
        if others.contains(&DynRef::new(part)) == wanted {
            kept.push(part)?;
        }
    }
    Ok(kept)
}

// These as a set.
fn set_of<'a>(alloc: Global, parts: &'a [Dyn]) -> Result<HashSet<DynRef<'a>>, AllocError>
    ensures { IfOk result (λ s. (d : Dyn) → contains same s d ≡ is_among parts.now d) }
{
    let mut set = HashSet::new(alloc);
    for part in parts {
        set.insert(DynRef::new(part))?;
    }
    Ok(set)
}

// Copies of these, each once, by its first occurrence.
fn distinct(alloc: Global, parts: &[&Dyn]) -> Result<DynList, AllocError>
    ensures { IfOk result (λ ds. ds ≡ distinct (map (λ d. d.now) parts.now)) }
{
    let mut seen: HashSet<DynRef<'_>> = HashSet::new(alloc);
    let mut list = Items::new(alloc);
    for part in parts {
        let added = seen.insert(DynRef::new(part))?;
        push_if(alloc, added, &mut list, part)?;
    }
    Ok(list)
}

// Adds a copy of a value at the end where it is wanted.
fn push_if(alloc: Global, wanted: bool, list: &mut DynList, part: &Dyn) -> Result<(), AllocError>
    ensures { OnOk result (list.new ≡ (if wanted then list.old ++ part.now ∷ [] else list.old)) }
{
    if wanted {
        list.push(clone_dyn(alloc, part)?)?;
    }
    Ok(())
}
