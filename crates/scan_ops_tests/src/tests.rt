ghost use Rattle.std.specs.Prelude.{◌≡◌, [], None};

use crate::scans::{Step, scan_of};
use crate::table::{Emitted, Event, Made, shows, table_of};
use kql_bound::Output::{All, Last};
use kql_bound::ScanPlan;
use kql_columns::names_of;
use kql_fits::are_distinct;
use kql_items::Items;
use kql_values::{Rows, Table};
use scan_ops::{ScanMachine, are_steps_scalar, rows_by_key, scan_keyed, scan_owned, scan_rows};
use std::alloc::Global;
use std::test::Fail;

// Two events of one session: the second step takes the record of the first.
const PAIR: &[Event] = &[(Some(1), 0), (Some(2), 0)];

const STEPS: &[Step] = &[(All, 1, None, None), (Last, 2, Some(1), Some((1, 3, 5)))];

const EMITTED: &[Emitted] = &[(1, Some(10), 0), (2, Some(15), 0)];

// Whether a machine that takes two rows emits these, behind none.
#[tactic(auto, using(crate::proofs::NothingFacts::machine_facts))]
fn feeds(alloc: Global, scan: Made<ScanPlan>, t: Made<Table>, want: &[Emitted]) -> Made<bool> {
    let scan = scan?;
    let t = t?;
    if t.len() < 2 || !are_steps_scalar(scan.steps.as_slice()) {
        return Ok(false);
    }
    let machine = ScanMachine::new(alloc, &scan, t.schema())?;
    let (machine, rows) = machine.feed(alloc, &t, 0, Rows::new(alloc))?;
    let (machine, rows) = machine.feed(alloc, &t, 1, rows)?;
    let rows = machine.finish(alloc, rows)?;
    Ok(shows(&rows, want))
}

// A scan without steps.
fn nothing(alloc: Global) -> ScanPlan
    ensures parts { result ≡ record { match_id = None; declared = []; steps = [] } }
{
    ScanPlan {
        match_id: None,
        declared: Items::new(alloc),
        steps: Items::new(alloc),
    }
}

// Whether scans without steps answer the columns of their input and no rows.
#[tactic(auto, using(crate::proofs::NothingFacts::nothing_facts))]
fn scans_nothing(alloc: Global, t: Made<Table>) -> Made<bool> {
    let t = t?;
    let names = names_of(alloc, t.schema().columns())?;
    if t.schema().len() == 0 || !are_distinct(names.as_slice()) {
        return Ok(false);
    }
    let width = t.schema().len();
    let scan = nothing(alloc);
    let scanned = scan_rows(alloc, &t, &scan)?;
    let keyed = scan_keyed(alloc, &t, 0, &scan)?;
    let owned = scan_owned(alloc, t, &scan)?;
    Ok(is_bare(&scanned, width) && is_bare(&keyed, width) && is_bare(&owned, width))
}

// Whether a table has so many columns and no rows.
fn is_bare(t: &Table, width: usize) -> bool {
    t.len() == 0 && t.schema().len() == width
}

// Events of two sessions, one of them null.
const SESSIONS: &[Event] = &[(Some(1), 3), (None, 4), (Some(1), 3)];

// Whether these are the rows of each key of the column at a place.
fn are_keyed(alloc: Global, t: Made<Table>, key: usize, want: &[&[usize]]) -> Made<bool> {
    let t = t?;
    if key >= t.schema().len() {
        return Ok(false);
    }
    let lists = rows_by_key(alloc, &t, key)?;
    if lists.len() != want.len() {
        return Ok(false);
    }
    for number in 0..want.len() {
        if lists.get(number) != want[number] {
            return Ok(false);
        }
    }
    Ok(true)
}

#[test]
fn scans(rt: HostRuntime) -> Result<(), Fail> {
    let alloc = rt.alloc();
    assert!(rt; feeds(alloc, scan_of(alloc, STEPS), table_of(alloc, PAIR), EMITTED)?);
    assert!(rt; scans_nothing(alloc, table_of(alloc, PAIR))?);
    assert!(rt; are_keyed(alloc, table_of(alloc, SESSIONS), 1, &[&[0, 2], &[1]])?);
    assert!(rt; are_keyed(alloc, table_of(alloc, SESSIONS), 0, &[&[0], &[1], &[2]])?);
    Ok(())
}
