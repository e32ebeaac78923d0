//! Runs of a table that opens with some rows and grows by others, beside readers that ask for the whole of it.
use crate::asks::run_tally;
use crate::table::{Made, batch, shows};
use crate::whole::Whole;
use kql_items::Items;
use kql_outside::{Gate, HoldGate, OpenGate};
use kql_values::Table;
use live_run::{Outcome, SeenList, run_live};
use live_tables::have_columns_of;
use std::alloc::Global;
use std::sync::Wait;
use std::test::Fail;
use std::thread::Threads;

// What `met()` is true within, on a machine that runs two threads at once.
const TURNS: u64 = 2_000_000_000;

fn tables(alloc: Global, batches: &[&[i64]]) -> Made<Items<Table>> {
    let mut all = Items::new(alloc);
    for rows in batches {
        all.push(batch(alloc, rows)?)?;
    }
    Ok(all)
}

// What came of a run; none where it may not begin.
fn run<R: Threads + Wait + Sync, G: Gate + Sync>(
    rt: &R,
    alloc: Global,
    opening: &[i64],
    batches: &[&[i64]],
    readers: u32,
    gate: &G,
) -> Made<Option<Outcome>> {
    let first = batch(alloc, opening)?;
    let rest = tables(alloc, batches)?;
    if readers < 1 || 8 < readers || 64 < rest.len() || !have_columns_of(&first, rest.as_slice()) {
        return Ok(None);
    }
    let outcome = run_live(rt, alloc, first, rest.as_slice(), readers, &Whole, gate)?;
    Ok(Some(outcome))
}

// The same of a run in which the rows alone are counted.
fn run_bare<R: Threads + Wait + Sync, G: Gate + Sync>(
    rt: &R,
    alloc: Global,
    opening: &[i64],
    batches: &[&[i64]],
    readers: u32,
    gate: &G,
) -> Made<Option<Outcome>> {
    let first = batch(alloc, opening)?;
    let rest = tables(alloc, batches)?;
    if readers < 1 || 8 < readers {
        return Ok(None);
    }
    let outcome = run_tally(rt, alloc, &first, rest.as_slice(), readers, gate)?;
    Ok(Some(outcome))
}

// Whether a list has so many sights, the last of all batches, where each batch has so many rows.
fn is_list(seen: &SeenList, opening: u64, each: u64, batches: u64) -> bool {
    let mut last = 0;
    for sight in seen.as_slice() {
        if sight.batches < last || sight.batches > 100 || each > 100 || opening > 100 {
            return false;
        }
        last = sight.batches;
        if sight.rows != opening + each * last {
            return false;
        }
    }
    last == batches && seen.len() as u64 == batches.saturating_add(2)
}

fn are_lists(outcome: &Outcome, readers: usize, opening: u64, each: u64, batches: u64) -> bool {
    for seen in outcome.seen.as_slice() {
        if !is_list(seen, opening, each, batches) {
            return false;
        }
    }
    outcome.seen.len() == readers
}

#[test]
fn two_readers_see_a_batch(rt: HostRuntime) -> Result<(), Fail> {
    let gate = HoldGate::new(TURNS);
    let outcome = run(&rt, rt.alloc(), &[1, 2], &[&[3]], 2, &gate)?;
    let outcome = outcome.expect(&rt, "the run may begin");
    assert!(rt; are_lists(&outcome, 2, 2, 1, 1));
    assert!(rt; shows(&outcome.table, &[1, 2, 3]));
    assert!(rt; gate.met());
    Ok(())
}

#[test]
fn one_reader_and_no_batch(rt: HostRuntime) -> Result<(), Fail> {
    let outcome = run(&rt, rt.alloc(), &[5], &[], 1, &OpenGate)?;
    let outcome = outcome.expect(&rt, "the run may begin");
    assert!(rt; are_lists(&outcome, 1, 1, 0, 0));
    assert!(rt; shows(&outcome.table, &[5]));
    Ok(())
}

#[test]
fn eight_readers_and_batches_without_rows(rt: HostRuntime) -> Result<(), Fail> {
    let outcome = run(&rt, rt.alloc(), &[], &[&[], &[], &[]], 8, &OpenGate)?;
    let outcome = outcome.expect(&rt, "the run may begin");
    assert!(rt; are_lists(&outcome, 8, 0, 0, 3));
    assert!(rt; shows(&outcome.table, &[]));
    Ok(())
}

#[test]
fn sixty_three_batches(rt: HostRuntime) -> Result<(), Fail> {
    let one: &[i64] = &[7, 8];
    let batches = [one; 63];
    let outcome = run(&rt, rt.alloc(), &[], &batches, 3, &OpenGate)?;
    let outcome = outcome.expect(&rt, "the run may begin");
    assert!(rt; are_lists(&outcome, 3, 0, 2, 63));
    assert_eq!(rt; outcome.table.len(), 126);
    Ok(())
}

#[test]
fn rows_alone_are_counted(rt: HostRuntime) -> Result<(), Fail> {
    let gate = HoldGate::new(TURNS);
    let batches: [&[i64]; 3] = [&[3, 4], &[5, 6], &[7, 8]];
    let outcome = run_bare(&rt, rt.alloc(), &[1], &batches, 2, &gate)?;
    let outcome = outcome.expect(&rt, "the run may begin");
    assert!(rt; are_lists(&outcome, 2, 1, 2, 3));
    assert_eq!(rt; outcome.table.len(), 7);
    assert_eq!(rt; outcome.table.schema().len(), 0);
    assert!(rt; gate.met());
    Ok(())
}
