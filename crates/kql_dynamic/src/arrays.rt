ghost use Rattle.std.specs.Prelude.{◌≡◌, ◌<◌, ◌++◌, ◌+ℤ◌, pos, IfOk, IfSome, IsTrue, Ok, OnOk, length, map, position};
ghost use Rattle.std.specs.List.{list_all};
ghost use Rattle.kql_cells.specs.Dynamic.{is_well_formed_dynamic};
ghost use Rattle.kql_cells.specs.Values.{IsWellFormed};
ghost use Rattle.kql_dynamic.specs.Arrays.{at_or_after_first, array_concat, array_index_of, array_length, array_reverse, array_slice, joined, pack_array, place_or_less, sliced};
ghost use Rattle.kql_cells.specs.Same.{same};

use crate::hashed::same;
use crate::parts::{argument, elements, from_start, long};
use kql_cells::{Dyn, DynList, LEVELS_TOP, Value, clone_dyn, has_levels_within};
use kql_items::Items;
use std::alloc::{AllocError, Global};

/// How many elements an array has: `array_length(array)`. It is null where there is no array, and takes no memory.
pub fn array_length(_alloc: Global, args: &[&Dyn]) -> Result<Value, AllocError>
    requires count { length args.now ≡ 1 }
    requires form { IsTrue (list_all is_well_formed_dynamic (map (λ d. d.now) args.now)) }
    ensures value { result ≡ Ok (array_length (map (λ d. d.now) args.now)) }
    ensures form { IfOk result IsWellFormed }
{
    match elements(argument(args, 0)) {
        Some(parts) => Ok(Value::Long(parts.len() as i64)),
        None => Ok(Value::Null),
    }
}

/// The elements of arrays, one array after another: `array_concat(array, ..)`. It is null where one is no array, and
/// the empty array where there are no arguments.
pub fn array_concat(alloc: Global, args: &[&Dyn]) -> Result<Value, AllocError>
    requires { IsTrue (list_all is_well_formed_dynamic (map (λ d. d.now) args.now)) }
    ensures value { IfOk result (λ v. v ≡ array_concat (map (λ d. d.now) args.now)) }
    ensures form { IfOk result IsWellFormed }
{
    let mut all = Items::new(alloc);
    for d in args {
        let Some(parts) = elements(d) else {
            return Ok(Value::Null);
        };
        push_copies(alloc, &mut all, parts)?;
    }
    Ok(Value::Dynamic(Dyn::Array(all)))
}

/// The elements from one index to another, both included: `array_slice(array, start, end)`. A negative index
/// counts from the end, -1 the last, and the range is cut to the array. It is null where there is no array, or an
/// index is no long.
pub fn array_slice(alloc: Global, args: &[&Dyn]) -> Result<Value, AllocError>
    requires count { length args.now ≡ 3 }
    requires form { IsTrue (list_all is_well_formed_dynamic (map (λ d. d.now) args.now)) }
    ensures value { IfOk result (λ v. v ≡ array_slice (map (λ d. d.now) args.now)) }
    ensures form { IfOk result IsWellFormed }
{
    let Some(parts) = elements(argument(args, 0)) else {
        return Ok(Value::Null);
    };
    let Some(start) = long(argument(args, 1)) else {
        return Ok(Value::Null);
    };
    let Some(end) = long(argument(args, 2)) else {
        return Ok(Value::Null);
    };
    let mut kept = Items::new(alloc);
    push_copies(alloc, &mut kept, sliced(parts, start, end))?;
    Ok(Value::Dynamic(Dyn::Array(kept)))
}

/// The elements from the last to the first: `array_reverse(array)`. It is null where there is no array.
pub fn array_reverse(alloc: Global, args: &[&Dyn]) -> Result<Value, AllocError>
    requires count { length args.now ≡ 1 }
    requires form { IsTrue (list_all is_well_formed_dynamic (map (λ d. d.now) args.now)) }
    ensures value { IfOk result (λ v. v ≡ array_reverse (map (λ d. d.now) args.now)) }
    ensures form { IfOk result IsWellFormed }
{
    let Some(parts) = elements(argument(args, 0)) else {
        return Ok(Value::Null);
    };
    let mut turned = Items::new(alloc);
    push_copies(alloc, &mut turned, parts)?;
    turned.reverse();
    Ok(Value::Dynamic(Dyn::Array(turned)))
}

/// The place of the first element that is identical to a value, from 0, or -1: `array_index_of(array, value)`.
/// It is null where there is no array, and takes no memory.
pub fn array_index_of(_alloc: Global, args: &[&Dyn]) -> Result<Value, AllocError>
    requires count { length args.now ≡ 2 }
    requires form { IsTrue (list_all is_well_formed_dynamic (map (λ d. d.now) args.now)) }
    ensures value { result ≡ Ok (array_index_of (map (λ d. d.now) args.now)) }
    ensures form { IfOk result IsWellFormed }
{
    match elements(argument(args, 0)) {
        Some(parts) => Ok(Value::Long(place_in(parts, argument(args, 1)))),
        None => Ok(Value::Null),
    }
}

/// The array of all arguments, nulls among them: `pack_array(value, ..)`. It is the empty array where there are no
/// arguments, and null where it would have more than 127 levels.
pub fn pack_array(alloc: Global, args: &[&Dyn]) -> Result<Value, AllocError>
    requires { IsTrue (list_all is_well_formed_dynamic (map (λ d. d.now) args.now)) }
    ensures value { IfOk result (λ v. v ≡ pack_array (map (λ d. d.now) args.now)) }
    ensures form { IfOk result IsWellFormed }
{
    let mut parts = Items::new(alloc);
    push_lent(alloc, &mut parts, args)?;
    let packed = Dyn::Array(parts);
    if has_levels_within(&packed, LEVELS_TOP) {
        Ok(Value::Dynamic(packed))
    } else {
        Ok(Value::Null)
    }
}

// Adds copies of values that are lent at the end.
fn push_lent(alloc: Global, list: &mut DynList, parts: &[&Dyn]) -> Result<(), AllocError>
    ensures { OnOk result (list.new ≡ list.old ++ map (λ d. d.now) parts.now) }
{
    for part in parts {
        list.push(clone_dyn(alloc, part)?)?;
    }
    Ok(())
}

// Adds copies of these at the end.
fn push_copies(alloc: Global, list: &mut DynList, parts: &[Dyn]) -> Result<(), AllocError>
    ensures { OnOk result (list.new ≡ list.old ++ parts.now) }
{
    for part in parts {
        list.push(clone_dyn(alloc, part)?)?;
    }
    Ok(())
}

// The elements from one index to another, both included.
fn sliced(parts: &[Dyn], start: i64, end: i64) -> &[Dyn]
    ensures { result.now ≡ sliced parts.now start end }
{
    let count = parts.len();
    let behind = place_behind(from_start(count, end)).min(count);
    let first = at_or_after_first(from_start(count, start)).min(behind);
    &parts[first..behind]
}

// A place, where one before the first is the first.
fn at_or_after_first(place: i64) -> usize
    ensures { result ≡ at_or_after_first place }
{
    if place < 0 { 0 } else { place as usize }
}

// The place behind a place.
fn place_behind(place: i64) -> usize
    ensures { result ≡ at_or_after_first (place +ℤ pos 1) }
{
    if place < 0 { 0 } else { place as usize + 1 }
}

// The place of the first that is identical to a value, or -1.
fn place_in(parts: &[Dyn], value: &Dyn) -> i64
    ensures { result ≡ place_or_less (position (λ x. same x value.now) parts.now) }
{
    match first_same(parts, value) {
        Some(place) => place as i64,
        None => -1,
    }
}

// The place of the first that is identical to a value.
fn first_same(parts: &[Dyn], value: &Dyn) -> Option<usize>
    ensures place { result ≡ position (λ x. same x value.now) parts.now }
    ensures within { IfSome result (λ i. i < length parts.now) }
{
    parts.iter().position(|part| same(part, value))
}
