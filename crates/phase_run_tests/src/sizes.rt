//! Groups of large tables: how many pieces they have by several workers.

use crate::forms::SUMS;
use crate::queries::program_of;
use crate::tables::{Line, Made, are_same, catalogue_of};
use kql_bound::Program;
use kql_fits::fits;
use kql_outside::OpenGate;
use kql_plain::plain;
use kql_values::Catalogue;
use phase_run::{PhaseReport, Sizes, run_plan};
use std::alloc::Global;
use std::test::Fail;
use std::thread::Threads;

const COUNT: u32 = 20_000;

// Sums that go beyond a long on their way.
const ENDS: &[Line] = &[
    (1, i64::MAX),
    (1, 1),
    (1, -1),
    (2, i64::MIN),
    (2, -1),
    (2, 1),
];

// So many rows, whose keys come round after so many.
fn lines(alloc: Global, keys: u32) -> Made<Vec<Line>> {
    let mut lines = Vec::new(alloc);
    for i in 0..COUNT {
        lines.push(((i % keys.max(1)) as i64, i as i64))?;
    }
    Ok(lines)
}

// Whether a summarize ran in one phase of so many pieces.
fn is_cut(report: &[PhaseReport], pieces: u32) -> bool {
    match report {
        [PhaseReport::Pieces(gathered)] => gathered.pieces() == pieces,
        _ => false,
    }
}

// Whether the sums by key are those of one thread, in so many pieces.
fn sums_in<R: Threads + Sync>(
    rt: &R,
    alloc: Global,
    p: &Program,
    catalogue: &Catalogue,
    workers: u32,
    rows: u32,
    pieces: u32,
) -> Made<bool> {
    let schemas = catalogue.schemas(alloc)?;
    if !fits(alloc, p, &schemas)? {
        return Ok(false);
    }
    let table = plain(alloc, p, catalogue)?;
    let sizes = Sizes {
        piece_rows: rows.max(1),
    };
    let workers = workers.clamp(2, 64);
    let answer = run_plan(rt, alloc, p, catalogue, workers, sizes, &OpenGate)?;
    Ok(are_same(&table, &answer.table) && is_cut(answer.report.as_slice(), pieces))
}

// The first of these workers and rows of a piece whose sums or pieces are others.
fn first_wrong_size<R: Threads + Sync>(
    rt: &R,
    alloc: Global,
    catalogue: &Catalogue,
    rows: &'static [(u32, u32, u32)],
) -> Made<Option<(u32, u32, u32)>> {
    let Some(p) = program_of(alloc, SUMS, catalogue)? else {
        return Ok(rows.first().copied());
    };
    for (workers, piece_rows, pieces) in rows {
        if !sums_in(
            rt,
            alloc,
            p.get(),
            catalogue,
            *workers,
            *piece_rows,
            *pieces,
        )? {
            return Ok(Some((*workers, *piece_rows, *pieces)));
        }
    }
    Ok(None)
}

// A share of a worker's rows, where these are more than are asked for.
const SHARES: &[(u32, u32, u32)] = &[(2, 4_096, 5), (2, 1, 8), (3, 1, 13), (64, 1, 257)];

#[test]
fn a_large_table_has_about_four_pieces_a_worker(rt: HostRuntime) -> Result<(), Fail> {
    let rows = lines(rt.alloc(), 7)?;
    let catalogue = catalogue_of(rt.alloc(), rows.as_slice())?;
    assert_eq!(rt;
        first_wrong_size(&rt, rt.alloc(), &catalogue, SHARES)?,
        None
    );
    Ok(())
}

const ONE: &[(u32, u32, u32)] = &[(2, 1, 1), (64, 4_096, 1)];

#[test]
fn keys_that_hardly_repeat_are_one_piece(rt: HostRuntime) -> Result<(), Fail> {
    let rows = lines(rt.alloc(), COUNT)?;
    let catalogue = catalogue_of(rt.alloc(), rows.as_slice())?;
    assert_eq!(rt; first_wrong_size(&rt, rt.alloc(), &catalogue, ONE)?, None);
    Ok(())
}

const EACH: &[(u32, u32, u32)] = &[(2, 1, 6), (3, 2, 3), (64, 3, 2)];

#[test]
fn sums_beyond_a_long_are_the_same(rt: HostRuntime) -> Result<(), Fail> {
    let catalogue = catalogue_of(rt.alloc(), ENDS)?;
    assert_eq!(rt; first_wrong_size(&rt, rt.alloc(), &catalogue, EACH)?, None);
    Ok(())
}
