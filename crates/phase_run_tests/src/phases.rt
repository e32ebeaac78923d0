//! Queries by phases.

use crate::forms::{Cut, Cuts, FORMS, Form};
use crate::queries::program_of;
use crate::tables::{Line, Made, are_same, catalogue_of};
use kql_bound::Program;
use kql_fits::fits;
use kql_outside::OpenGate;
use kql_plain::plain;
use kql_values::Catalogue;
use phase_run::{PhaseReport, Sizes, run_plan};
use std::alloc::Global;
use std::test::Fail;
use std::thread::Threads;

const LINES: &[Line] = &[(1, 5), (2, 3), (1, 1), (3, 7), (2, 2), (1, 4), (3, 0)];

// Workers, and rows of a piece.
const ROWS: &[(u32, u32)] = &[
    (1, 1),
    (1, 2),
    (1, 3),
    (2, 1),
    (2, 2),
    (2, 3),
    (3, 1),
    (3, 2),
    (3, 3),
    (64, 1),
    (64, 2),
    (64, 3),
];

const FEW: &[(u32, u32)] = &[(1, 2), (3, 2)];

// How many pieces of so many rows hold them all.
fn pieces_of(count: u32, rows: u32) -> u32 {
    let rows = rows.max(1);
    let more = if count % rows == 0 { 0 } else { 1 };
    (count / rows).saturating_add(more)
}

// Whether a phase is cut so, where pieces have so many rows, and had so many workers. A table without rows has no piece.
fn is_cut(phase: &PhaseReport, cut: Cut, rows: u32, workers: u32, is_empty: bool) -> bool {
    let want = match cut {
        Cut::Whole => None,
        Cut::Rows(_) if is_empty => Some(0),
        Cut::Keys(_) if is_empty => Some(0),
        Cut::Rows(count) => Some(pieces_of(count, rows)),
        Cut::Keys(count) => Some(count),
    };
    match phase {
        PhaseReport::Whole => want.is_none(),
        PhaseReport::Pieces(gathered) => {
            gathered.workers() == workers && want == Some(gathered.pieces())
        }
    }
}

fn are_cut(report: &[PhaseReport], cuts: Cuts, rows: u32, workers: u32, is_empty: bool) -> bool {
    if report.len() != cuts.len() {
        return false;
    }
    for k in 0..report.len() {
        if !is_cut(&report[k], cuts[k], rows, workers, is_empty) {
            return false;
        }
    }
    true
}

// Whether a run of a program gives what evaluation on one thread gives, in the phases of its form.
fn gives_the_same<R: Threads + Sync>(
    rt: &R,
    alloc: Global,
    p: &Program,
    form: &Form,
    catalogue: &Catalogue,
    workers: u32,
    rows: u32,
    is_empty: bool,
) -> Made<bool> {
    let schemas = catalogue.schemas(alloc)?;
    if !fits(alloc, p, &schemas)? {
        return Ok(false);
    }
    let workers = workers.clamp(1, 64);
    let rows = rows.max(1);
    let table = plain(alloc, p, catalogue)?;
    let sizes = Sizes { piece_rows: rows };
    let answer = run_plan(rt, alloc, p, catalogue, workers, sizes, &OpenGate)?;
    let cuts = if workers > 1 { form.1 } else { form.2 };
    Ok(
        are_same(&table, &answer.table)
            && are_cut(answer.report.as_slice(), cuts, rows, workers, is_empty),
    )
}

// The same of the program of its query.
fn form_gives_the_same<R: Threads + Sync>(
    rt: &R,
    alloc: Global,
    form: &Form,
    catalogue: &Catalogue,
    workers: u32,
    rows: u32,
    is_empty: bool,
) -> Made<bool> {
    match program_of(alloc, form.0, catalogue)? {
        Some(p) => gives_the_same(rt, alloc, p.get(), form, catalogue, workers, rows, is_empty),
        None => Ok(false),
    }
}

// The first query, workers and rows whose run gives another answer.
fn first_wrong<R: Threads + Sync>(
    rt: &R,
    alloc: Global,
    lines: &'static [Line],
    rows: &'static [(u32, u32)],
) -> Made<Option<(&'static str, u32, u32)>> {
    let catalogue = catalogue_of(alloc, lines)?;
    let is_empty = lines.is_empty();
    for form in FORMS {
        for (workers, piece_rows) in rows {
            if !form_gives_the_same(rt, alloc, form, &catalogue, *workers, *piece_rows, is_empty)? {
                return Ok(Some((form.0, *workers, *piece_rows)));
            }
        }
    }
    Ok(None)
}

#[test]
fn every_form_gives_the_same(rt: HostRuntime) -> Result<(), Fail> {
    assert_eq!(rt; first_wrong(&rt, rt.alloc(), LINES, ROWS)?, None);
    Ok(())
}

#[test]
fn every_form_gives_the_same_of_no_rows(rt: HostRuntime) -> Result<(), Fail> {
    assert_eq!(rt; first_wrong(&rt, rt.alloc(), &[], FEW)?, None);
    Ok(())
}
