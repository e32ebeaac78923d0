//! A walk over operators, from the first to the last, in which a rule is used at each place at which it fires.
//!
//! Where a rule fires, the walk goes one place back, since what is there now may fire with what stands before it, and from there on. So a
//! filter that goes in front of others is carried to its place in as many steps as it passes operators, each filter before those behind it.
//! Operators that change places are moved. The columns before an operator are found where a rule asks for them, from the last that are known.
ghost use Rattle.std.specs.Prelude.{◌≡◌, ◌++◌, ◌∷◌, [], Bool, List, Some, true, take, reverse, remove, length, slice_get, unwrap_or, ◌≤◌, ◌<◌, IfOk, IsSome, MatchOption, OnOk, ◌||◌};
ghost use Rattle.kql_meaning.specs.Fits.{known_of, ops_columns};
ghost use Rattle.plan_rules.specs.Improves.{Improves};
ghost use Rattle.plan_push.specs.Walk.{Back, Begun, Found, Ready, Stepped, Walk, is_still, next_change, next_swaps};

use kql_bound::{Op, Ops, clone_op};
use kql_cells::{Column, NamedSchema, copy_columns};
use kql_items::Items;
use plan_columns::op_makes;
use plan_neighbours::{change_rule, single_rule};
use plan_swaps::{asks_columns, swaps};
use std::alloc::{AllocError, Global};

pub(crate) fn either(a: bool, b: bool) -> bool
    ensures either { result ≡ (a || b) }
{
    a || b
}

// Operators, and then copies of others.
fn then_copies(alloc: Global, made: Ops, rest: &[Op]) -> Result<Ops, AllocError>
    ensures all { IfOk result (λ all. all ≡ made ++ rest.now) }
{
    let mut all = made;
    for op in rest {
        let copy = clone_op(alloc, op)?;
        all.push(copy)?;
    }
    Ok(all)
}

// The columns at a place, and none where they are not known.
fn columns_at(before: &[Items<Column>], at: usize) -> &[Column]
    ensures columns { result.now ≡ unwrap_or (slice_get before.now at) [] }
{
    match before.get(at) {
        None => &[],
        Some(columns) => columns.as_slice(),
    }
}

// The columns before each operator and behind the last, from the last that are known.
fn find_columns(
    alloc: Global,
    before: &mut Items<Items<Column>>,
    passed: &[Op],
    tables: &[NamedSchema],
    lets: &[Items<Column>],
) -> Result<(), AllocError>
    ensures found { OnOk result ((cs : List Column) → Begun (known_of tables.now lets.now) cs before.old passed.now → Found (known_of tables.now lets.now) cs before.new passed.now) }
{
    for i in before.len().saturating_sub(1)..passed.len() {
        let columns = columns_at(before.as_slice(), i);
        let next = op_makes(alloc, &passed[i], tables, lets, columns)?;
        before.push(next)?;
    }
    Ok(())
}

// The same where the rules on the next operator ask for them.
fn ready_columns(
    alloc: Global,
    before: &mut Items<Items<Column>>,
    passed: &[Op],
    x: &Op,
    tables: &[NamedSchema],
    lets: &[Items<Column>],
) -> Result<(), AllocError>
    ensures ready { OnOk result ((cs : List Column) → Begun (known_of tables.now lets.now) cs before.old passed.now → Ready (known_of tables.now lets.now) cs before.new passed.now x.now) }
{
    if !asks_columns(x) {
        return Ok(());
    }
    find_columns(alloc, before, passed, tables, lets)?;
    Ok(())
}

// Whether an operator and the first of those behind it, which is the last in their stack, change places.
#[tactic(auto, using(crate::proofs::WalkSteps::swaps_steps))]
fn swaps_with_next(
    alloc: Global,
    columns: &[Column],
    x: &Op,
    behind: &[Op],
) -> Result<bool, AllocError>
    ensures swaps { IfOk result (λ b. b ≡ next_swaps columns.now x.now (reverse behind.now)) }
{
    if behind.is_empty() {
        return Ok(false);
    }
    swaps(alloc, columns, x, &behind[behind.len() - 1])
}

// What they become where they do more than that.
#[tactic(auto, using(crate::proofs::WalkSteps::change_steps))]
fn change_with_next(
    alloc: Global,
    tables: &[NamedSchema],
    lets: &[Items<Column>],
    columns: &[Column],
    x: &Op,
    behind: &[Op],
) -> Result<Option<Ops>, AllocError>
    ensures change { IfOk result (λ o. o ≡ next_change (known_of tables.now lets.now) columns.now x.now (reverse behind.now)) }
{
    if behind.is_empty() {
        return Ok(None);
    }
    change_rule(alloc, tables, lets, columns, x, &behind[behind.len() - 1])
}

// Others in the place of those that wait from a place of their stack on.
fn put(waiting: &mut Ops, at: usize, made: Ops) -> Result<(), AllocError>
    ensures operators { OnOk result (waiting.new ≡ take at waiting.old ++ reverse made) }
{
    let mut made = made;
    made.reverse();
    waiting.truncate(at);
    waiting.append(made)?;
    Ok(())
}

// The operator at a place of the stack becomes the next.
fn put_first(waiting: &mut Ops, at: usize) -> Result<(), AllocError>
    requires { at < length waiting.old }
    ensures first { OnOk result ((y : Op) → slice_get waiting.old at ≡ Some y → waiting.new ≡ remove waiting.old at ++ y ∷ []) }
{
    let op = waiting.remove(at);
    waiting.push(op)
}

// The last operator that was passed waits again.
fn go_back(
    before: &mut Items<Items<Column>>,
    passed: &mut Ops,
    waiting: &mut Ops,
) -> Result<(), AllocError>
    ensures back { OnOk result (Back before.old passed.old waiting.old before.new passed.new waiting.new) }
{
    let count = passed.len();
    let Some(op) = passed.pop() else {
        return Ok(());
    };
    waiting.push(op)?;
    before.truncate(count);
    Ok(())
}

// One step: a rule that fires at the next operator is used, and where none fires the operator is passed.
fn step(
    alloc: Global,
    before: &mut Items<Items<Column>>,
    passed: &mut Ops,
    waiting: &mut Ops,
    tables: &[NamedSchema],
    lets: &[Items<Column>],
) -> Result<bool, AllocError>
    ensures step { IfOk result (λ fired. (inside : Bool) (cs : List Column) → Walk (known_of tables.now lets.now) inside cs before.old passed.old waiting.old → Stepped (known_of tables.now lets.now) inside cs fired passed.old waiting.old before.new passed.new waiting.new) }
{
    let at = waiting.len().saturating_sub(1);
    let Some(x) = waiting.get(at) else {
        return Ok(false);
    };
    ready_columns(alloc, before, passed.as_slice(), x, tables, lets)?;
    let columns = columns_at(before.as_slice(), passed.len());
    if let Some(made) = single_rule(alloc, columns, x) {
        put(waiting, at, made)?;
        go_back(before, passed, waiting)?;
        return Ok(true);
    }
    let behind = &waiting.as_slice()[..at];
    let fires = swaps_with_next(alloc, columns, x, behind)?;
    if fires {
        put_first(waiting, at.saturating_sub(1))?;
        go_back(before, passed, waiting)?;
        return Ok(true);
    }
    if let Some(made) = change_with_next(alloc, tables, lets, columns, x, behind)? {
        put(waiting, at.saturating_sub(1), made)?;
        go_back(before, passed, waiting)?;
        return Ok(true);
    }
    let Some(op) = waiting.pop() else {
        return Ok(false);
    };
    passed.push(op)?;
    Ok(false)
}

/// What operators become in a walk, or none where no rule fires at any of them.
pub(crate) fn walked(
    alloc: Global,
    ops: &[Op],
    tables: &[NamedSchema],
    lets: &[Items<Column>],
    inside: bool,
    columns: &[Column],
) -> Result<Option<Ops>, AllocError>
    requires { IsSome (ops_columns ops.now (known_of tables.now lets.now) inside columns.now) }
    ensures found { IfOk result (λ o. MatchOption o (is_still ops.now (known_of tables.now lets.now) inside columns.now ≡ true) (λ made. Improves (known_of tables.now lets.now) inside columns.now ops.now made)) }
{
    let _inside = inside;
    let here = copy_columns(alloc, columns)?;
    let mut before = Items::new(alloc);
    before.push(here)?;
    let mut passed = Items::new(alloc);
    let mut waiting = then_copies(alloc, Items::new(alloc), ops)?;
    waiting.reverse();
    let mut changed = false;
    'places: while !waiting.is_empty() {
        let fired = step(alloc, &mut before, &mut passed, &mut waiting, tables, lets)?;
        changed = either(changed, fired);
    }
    if changed {
        return Ok(Some(passed));
    }
    Ok(None)
}
