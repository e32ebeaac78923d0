ghost use Rattle.std.specs.Prelude.{◌<◌, ◌≤◌};

use crate::shared::{Made, answered, shown, texts};
use kql_outside::OpenGate;
use kql_values::{CellRef, Kind, Vector};
use pattern_ops::{Pattern, PatternMaker, RegexMaker, RegexPattern};
use pattern_workers::{answers_by_ranges, answers_by_workers};
use std::alloc::{AllocError, Global};
use std::test::Fail;
use std::thread::Threads;

// The pattern of a text, or want of memory where none is made.
fn expression(alloc: Global, text: &str) -> Made<RegexPattern> {
    let mut maker = RegexMaker::new(alloc);
    match maker.make(text) {
        Ok(made) => Ok(made),
        Err(_) => Err(AllocError),
    }
}

// What a pattern answers to the cells before a place, and behind it to the others.
fn answered_in_two<P: Pattern>(
    alloc: Global,
    made: &P,
    cells: &Vector,
    at: usize,
    group: Option<u32>,
) -> Made<String> {
    let at = at.min(cells.len());
    let mut all = made.answers(alloc, cells, 0, at, group)?;
    all.append(made.answers(alloc, cells, at, cells.len(), group)?)?;
    shown(alloc, &all)
}

// Whether the answers are the same, wherever the column is cut.
fn is_cut_well(alloc: Global, text: &str, group: Option<u32>) -> Made<bool> {
    let made = expression(alloc, text)?;
    let cells = texts(alloc)?;
    let whole = answered(alloc, &made, &cells, group)?;
    for at in 0..=cells.len() {
        let parts = answered_in_two(alloc, &made, &cells, at, group)?;
        if parts.as_str() != whole.as_str() {
            return Ok(false);
        }
    }
    Ok(true)
}

#[test]
fn ranges(rt: HostRuntime) -> Result<(), Fail> {
    let alloc = rt.alloc();
    assert!(rt; is_cut_well(alloc, "id=[0-9]", None)?);
    assert!(rt; is_cut_well(alloc, "(.)$", Some(1))?);
    Ok(())
}

// What is answered to cells that show no texts.
fn answered_to_numbers(alloc: Global, text: &str, group: Option<u32>) -> Made<String> {
    let mut cells = Vector::new(alloc, Kind::Long);
    cells.push_cell(CellRef::Long(42))?;
    cells.push_cell(CellRef::Null)?;
    let made = expression(alloc, text)?;
    answered(alloc, &made, &cells, group)
}

#[test]
fn numbers(rt: HostRuntime) -> Result<(), Fail> {
    let alloc = rt.alloc();
    assert_eq!(rt;
        answered_to_numbers(alloc, "4", None)?.as_str(),
        "false|false|"
    );
    assert_eq!(rt;
        answered_to_numbers(alloc, "^$", None)?.as_str(),
        "true|true|"
    );
    assert_eq!(rt; answered_to_numbers(alloc, "4", Some(0))?.as_str(), "||");
    Ok(())
}

// Whether three workers answer the same, in ranges of each length.
fn is_same_by_ranges<R: Threads + Sync>(
    rt: &R,
    alloc: Global,
    text: &str,
    group: Option<u32>,
) -> Made<bool> {
    let made = expression(alloc, text)?;
    let cells = texts(alloc)?;
    let whole = answered(alloc, &made, &cells, group)?;
    for rows in 0..=cells.len() {
        let parts = answers_by_ranges(rt, &OpenGate, alloc, 3, rows, &made, &cells, group)?;
        if shown(alloc, &parts)?.as_str() != whole.as_str() {
            return Ok(false);
        }
    }
    Ok(true)
}

// Whether so many workers answer the same to a column of 16,800 cells.
fn is_same_by_workers<R: Threads + Sync>(
    rt: &R,
    alloc: Global,
    workers: u32,
    text: &str,
) -> Made<bool>
    requires workers { (0 < workers) × (workers ≤ 64) }
{
    let made = expression(alloc, text)?;
    let mut cells = Vector::new(alloc, Kind::Text);
    for _ in 0..2100 {
        cells.append(texts(alloc)?)?;
    }
    let whole = answered(alloc, &made, &cells, Some(0))?;
    let parts = answers_by_workers(rt, alloc, workers, &made, &cells, Some(0))?;
    Ok(shown(alloc, &parts)?.as_str() == whole.as_str())
}

#[test]
fn workers(rt: HostRuntime) -> Result<(), Fail> {
    let alloc = rt.alloc();
    assert!(rt; is_same_by_ranges(&rt, alloc, "id=[0-9]", None)?);
    assert!(rt; is_same_by_ranges(&rt, alloc, "(.)$", Some(1))?);
    assert!(rt; is_same_by_workers(&rt, alloc, 1, "[0-9]+")?);
    assert!(rt; is_same_by_workers(&rt, alloc, 4, "[0-9]+")?);
    Ok(())
}
