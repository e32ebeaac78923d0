//! Tables one behind another, put together by many workers, each column by itself.
ghost use Rattle.std.specs.Prelude.{◌≡◌, ◌<◌, ℕ, All, IfOk, length, slice_index_or};
ghost use Rattle.csv_workers.specs.Slots.{IsWhole, KeepsParts, parts_of};
ghost use Rattle.csv_workers.specs.declared.joining.Slot.{Slot};

use csv_io::{Parts, Stack, table_of};
use kql_values::Table;
use std::alloc::{AllocError, Global};
use std::thread;
use std::thread::Threads;

// A column in parts, and whether none of them was lost.
#[derive(Drop)]
struct Slot {
    parts: Parts,
    is_whole: bool,
}

// The table that tables are together.
pub(crate) fn put_together<R: Threads + Sync>(
    rt: &R,
    alloc: Global,
    workers: u32,
    stack: Stack,
) -> Result<Table, AllocError>
    requires workers { 0 < workers }
    ensures same { IfOk result (λ t. t ≡ stack) }
{
    let (schema, count, parts) = stack.into_parts(alloc)?;
    let parts = settled(rt, alloc, workers, parts)?;
    let table = table_of(alloc, schema, count, parts)?;
    Ok(table)
}

// Columns, each put together.
fn settled<R: Threads + Sync>(
    rt: &R,
    alloc: Global,
    workers: u32,
    parts: Vec<Parts>,
) -> Result<Vec<Parts>, AllocError>
    requires workers { 0 < workers }
    ensures same { IfOk result (λ ps. ps.items ≡ parts.items) }
{
    let mut slots = slots_of(alloc, parts)?;
    settle_each(rt, workers, &mut slots);
    let whole = whole_parts(alloc, slots)?;
    Ok(whole)
}

// A slot for each column.
fn slots_of(alloc: Global, parts: Vec<Parts>) -> Result<Vec<Slot>, AllocError>
    ensures parts { IfOk result (λ slots. parts_of slots.items ≡ parts.items) }
{
    let mut slots = Vec::with_capacity(alloc, parts.len())?;
    for column in parts {
        slots.push(Slot {
            parts: column,
            is_whole: true,
        })?;
    }
    Ok(slots)
}

// Puts the parts of each column together.
fn settle_each<R: Threads + Sync>(rt: &R, workers: u32, slots: &mut Vec<Slot>)
    requires workers { 0 < workers }
    ensures count { length slots.new.items ≡ length slots.old.items }
    ensures kept { (k : ℕ) (d : Slot) → k < length slots.old.items → KeepsParts (slice_index_or slots.old.items k d) (slice_index_or slots.new.items k d) }
{
    let settle = |_: usize, slot: &mut Slot|
        ensures { KeepsParts slot.entry.now slot.exit.now }
    { settle_slot(slot) };
    let threads = threads_for(workers, slots.len());
    thread::for_each_mut(rt, slots.as_mut_slice(), threads, &settle);
}

// In how many threads so many columns are put together: one for each where that is at most two a worker, so that no
// thread has two columns of texts while another has none.
fn threads_for(workers: u32, columns: usize) -> usize
    requires workers { 0 < workers }
    ensures some { 0 < result }
{
    let most = (workers as usize).saturating_mul(2);
    columns.min(most).max(workers as usize)
}

// Puts the parts of a column together.
fn settle_slot(slot: &mut Slot)
    ensures kept { KeepsParts slot.old slot.new }
{
    slot.is_whole = slot.parts.settle().is_ok();
}

// The columns, if none of their parts was lost.
fn whole_parts(alloc: Global, slots: Vec<Slot>) -> Result<Vec<Parts>, AllocError>
    ensures whole { IfOk result (λ _. All IsWhole slots.items) }
    ensures parts { IfOk result (λ ps. ps.items ≡ parts_of slots.items) }
{
    let mut whole = Vec::with_capacity(alloc, slots.len())?;
    for slot in slots {
        let Slot { parts, is_whole } = slot;
        if !is_whole {
            return Err(AllocError);
        }
        whole.push(parts)?;
    }
    Ok(whole)
}
