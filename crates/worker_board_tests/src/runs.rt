use crate::gates::{CountingGate, Entries, MeetingGate};
use crate::works::{Lists, Squares, Stopping, Watched};
use board_core::Claim;
use kql_items::Items;
use kql_outside::{HoldGate, OpenGate};
use std::alloc::{AllocError, Global};
use std::test::Fail;
use std::thread::Threads;
use worker_board::run_pieces;

// Pieces and workers.
const ROWS: &[(u32, u32)] = &[
    (0, 1),
    (0, 2),
    (0, 3),
    (0, 64),
    (1, 1),
    (1, 2),
    (1, 3),
    (1, 64),
    (2, 1),
    (2, 2),
    (2, 3),
    (2, 64),
    (64, 1),
    (64, 2),
    (64, 3),
    (64, 64),
    (10_000, 1),
    (10_000, 2),
    (10_000, 3),
    (10_000, 64),
];

// Whether these are the squares of the first so many numbers.
fn are_squares(results: &[u64], count: u32) -> bool {
    let mut square = 0u64;
    let mut odd = 1u64;
    for result in results {
        if *result != square {
            return false;
        }
        square = square.wrapping_add(odd);
        odd = odd.wrapping_add(2);
    }
    results.len() == count as usize
}

// Whether as many claims as pieces are of these workers.
fn are_claims(claims: &[Claim], pieces: u32, workers: u32) -> bool {
    for claim in claims {
        if claim.piece >= pieces || claim.worker >= workers {
            return false;
        }
    }
    claims.len() == pieces as usize
}

// Whether a run gives the squares, and a claim for each.
fn gives_squares<R: Threads + Sync>(
    rt: &R,
    alloc: Global,
    pieces: u32,
    workers: u32,
) -> Result<bool, AllocError> {
    let workers = workers.clamp(1, 64);
    let outcome = run_pieces(rt, alloc, workers, 0, &Squares { pieces }, &OpenGate)?;
    let gathered = outcome.gathered;
    Ok(
        are_squares(outcome.results.as_slice(), pieces)
            && are_claims(gathered.claims(), pieces, workers)
            && gathered.pieces() == pieces
            && gathered.workers() == workers,
    )
}

// The first row whose run gives another answer.
fn first_wrong<R: Threads + Sync>(
    rt: &R,
    alloc: Global,
    rows: &'static [(u32, u32)],
) -> Result<Option<(u32, u32)>, AllocError> {
    for (pieces, workers) in rows {
        if !gives_squares(rt, alloc, *pieces, *workers)? {
            return Ok(Some((*pieces, *workers)));
        }
    }
    Ok(None)
}

#[test]
fn every_count_of_workers_gives_the_same(rt: HostRuntime) -> Result<(), Fail> {
    assert_eq!(rt; first_wrong(&rt, rt.alloc(), ROWS)?, None);
    Ok(())
}

// Whether each piece enters the gate before it is worked on, once, and no more until the end.
fn enters_once<R: Threads + Sync>(
    rt: &R,
    alloc: Global,
    pieces: u32,
    phase: u32,
) -> Result<bool, AllocError> {
    let entries = Entries::new(alloc, phase, pieces)?;
    let watched = Watched {
        pieces,
        entries: &entries,
    };
    let outcome = run_pieces(rt, alloc, 3, phase, &watched, &entries);
    if outcome.is_err() {
        return Ok(false);
    }
    for piece in 0..pieces {
        if entries.of_piece(piece) != 1 {
            return Ok(false);
        }
    }
    Ok(true)
}

#[test]
fn each_piece_enters_the_gate_before_and_once(rt: HostRuntime) -> Result<(), Fail> {
    assert!(rt; enters_once(&rt, rt.alloc(), 50, 7)?);
    Ok(())
}

// Whether two of so many workers meet in the pieces of a phase.
fn meet<R: Threads + Sync>(
    rt: &R,
    alloc: Global,
    workers: u32,
    phase: u32,
    limit: u64,
) -> Result<bool, AllocError> {
    let workers = workers.clamp(1, 64);
    let gate = HoldGate::new(limit);
    run_pieces(rt, alloc, workers, phase, &Squares { pieces: 2 }, &gate)?;
    Ok(gate.met())
}

#[test]
fn two_workers_are_side_by_side(rt: HostRuntime) -> Result<(), Fail> {
    assert!(rt; meet(&rt, rt.alloc(), 2, 0, 2_000_000_000)?);
    assert!(rt; !meet(&rt, rt.alloc(), 1, 0, 1_000)?);
    assert!(rt; !meet(&rt, rt.alloc(), 2, 1, 2_000_000_000)?);
    Ok(())
}

// Whether the workers of the first three pieces meet, of so many workers.
fn three_meet<R: Threads + Sync>(
    rt: &R,
    alloc: Global,
    workers: u32,
    limit: u64,
) -> Result<bool, AllocError> {
    let workers = workers.clamp(1, 64);
    let gate = MeetingGate::new(limit);
    run_pieces(rt, alloc, workers, 0, &Squares { pieces: 3 }, &gate)?;
    Ok(gate.met())
}

#[test]
fn three_workers_are_side_by_side(rt: HostRuntime) -> Result<(), Fail> {
    assert!(rt; three_meet(&rt, rt.alloc(), 3, 2_000_000_000)?);
    assert!(rt; !three_meet(&rt, rt.alloc(), 2, 100_000)?);
    Ok(())
}

// Whether each list has its own place alone.
fn are_places(lists: &[Items<u32>]) -> bool {
    let mut place = 0u32;
    for list in lists {
        if list.len() != 1 || list.get(0) != Some(&place) {
            return false;
        }
        place = place.wrapping_add(1);
    }
    true
}

#[test]
fn lists_are_results(rt: HostRuntime) -> Result<(), Fail> {
    let lists = Lists {
        alloc: rt.alloc(),
        pieces: 20,
        failing: 20,
    };
    let outcome = run_pieces(&rt, rt.alloc(), 4, 0, &lists, &OpenGate)?;
    assert_eq!(rt; outcome.results.len(), 20);
    assert!(rt; are_places(outcome.results.as_slice()));
    Ok(())
}

#[test]
fn a_piece_that_wants_memory_ends_the_run(rt: HostRuntime) -> Result<(), Fail> {
    for failing in 0..20 {
        let lists = Lists {
            alloc: rt.alloc(),
            pieces: 20,
            failing,
        };
        let outcome = run_pieces(&rt, rt.alloc(), 1 + failing % 4, 0, &lists, &OpenGate);
        assert!(rt; outcome.is_err(), "piece {failing}");
    }
    Ok(())
}

// How many of 10,000 pieces two workers take, of which this one wants memory. `None` where the run ends well.
fn taken_until<R: Threads + Sync>(rt: &R, alloc: Global, failing: u32) -> Option<u64> {
    let gate = CountingGate::new();
    let stopping = Stopping {
        pieces: 10_000,
        failing,
    };
    let outcome = run_pieces(rt, alloc, 2, 0, &stopping, &gate);
    if outcome.is_ok() {
        return None;
    }
    Some(gate.entries())
}

#[test]
fn a_stop_is_seen_by_the_other(rt: HostRuntime) -> Result<(), Fail> {
    for failing in [0, 5_000] {
        let taken = taken_until(&rt, rt.alloc(), failing).expect(&rt, "one piece wants memory");
        assert!(rt;
            taken > u64::from(failing) && taken < 10_000,
            "{taken} taken of {failing}"
        );
    }
    Ok(())
}
