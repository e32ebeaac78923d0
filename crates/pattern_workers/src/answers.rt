//! A column by ranges, each of which a worker searches by itself.
ghost use Rattle.std.specs.Prelude.{◌≡◌, ◌<◌, ◌≤◌, All, IfOk, Some};
ghost use Rattle.pattern_ops.specs.Answers.{AreAnswers, FitAnswers};
ghost use Rattle.pattern_workers.specs.Ranges.{IsRanged, ranged, range_at};

use kql_items::Items;
use kql_outside::{Gate, OpenGate};
use kql_values::Vector;
use pattern_ops::{Pattern, law_of_ranges};
use std::alloc::{AllocError, Global};
use std::thread::Threads;
use worker_board::{Work, run_pieces};

// A column of fewer cells is searched by the calling thread.
const SMALL_COLUMN: usize = 16_384;

// Places of a column, from one up to another.
#[derive(Clone, Copy)]
struct Range {
    from: usize,
    to: usize,
}

// What is answered to the cells of a range.
#[derive(Drop)]
struct Ranged {
    range: Range,
    answers: Vector,
}

// The ranges of a column.
#[derive(Clone, Copy)]
struct Searching<'a, P> {
    alloc: Global,
    pattern: &'a P,
    cells: &'a Vector,
    group: Option<u32>,
    ranges: &'a [Range],
    count: u32,
}

impl<'a, P: Pattern + Sync> Work<Ranged> for Searching<'a, P> {
    ghost count = { λ s. s.count };

    ghost answer = { λ s piece. ranged (P.finds s.pattern.now) s.group s.cells.now (range_at s.ranges.now piece) };

    fn pieces(&self) -> u32 {
        self.count
    }

    #[tactic(auto, unfolding(crate::specs::Ranges::ranged))]
    fn run(&self, piece: u32) -> Result<Ranged, AllocError> {
        let range = range_of(self.ranges, piece);
        let from = range.from.min(self.cells.len());
        let to = range.to.min(self.cells.len()).max(from);
        let answers = self
            .pattern
            .answers(self.alloc, self.cells, from, to, self.group)?;
        Ok(Ranged {
            range: Range { from, to },
            answers,
        })
    }
}

// The range of a piece; none stands behind the last.
#[tactic(auto, unfolding(crate::specs::Ranges::range_at))]
fn range_of(ranges: &[Range], piece: u32) -> Range
    ensures range { result ≡ range_at ranges.now piece }
{
    match ranges.get(piece as usize) {
        Some(range) => *range,
        None => Range { from: 0, to: 0 },
    }
}

/// What a pattern answers to each cell of a column, by so many workers. A small column is searched by the calling thread.
pub fn answers_by_workers<R: Threads + Sync, P: Pattern + Sync>(
    rt: &R,
    alloc: Global,
    workers: u32,
    pattern: &P,
    cells: &Vector,
    group: Option<u32>,
) -> Result<Vector, AllocError>
    requires workers { (0 < workers) × (workers ≤ 64) }
    ensures values { IfOk result (AreAnswers (Some (P.finds pattern.now)) group cells.now) }
    ensures fits { IfOk result (FitAnswers group cells.now) }
{
    if workers == 1 || cells.len() < SMALL_COLUMN {
        return answers_alone(alloc, pattern, cells, group);
    }
    let ranges = (workers as usize).saturating_mul(4);
    let rows = (cells.len() / ranges.max(1)).saturating_add(1);
    answers_by_ranges(rt, &OpenGate, alloc, workers, rows, pattern, cells, group)
}

// The same by the calling thread.
fn answers_alone<P: Pattern>(
    alloc: Global,
    pattern: &P,
    cells: &Vector,
    group: Option<u32>,
) -> Result<Vector, AllocError>
    ensures values { IfOk result (AreAnswers (Some (P.finds pattern.now)) group cells.now) }
    ensures fits { IfOk result (FitAnswers group cells.now) }
{
    law_of_ranges();
    let answers = pattern.answers(alloc, cells, 0, cells.len(), group)?;
    Ok(answers)
}

/// What a pattern answers to each cell of a column, by so many workers and in ranges of so many cells.
pub fn answers_by_ranges<R: Threads + Sync, G: Gate + Sync, P: Pattern + Sync>(
    rt: &R,
    gate: &G,
    alloc: Global,
    workers: u32,
    rows: usize,
    pattern: &P,
    cells: &Vector,
    group: Option<u32>,
) -> Result<Vector, AllocError>
    requires workers { (0 < workers) × (workers ≤ 64) }
    ensures values { IfOk result (AreAnswers (Some (P.finds pattern.now)) group cells.now) }
    ensures fits { IfOk result (FitAnswers group cells.now) }
{
    let parts = search_ranges(rt, gate, alloc, workers, rows, pattern, cells, group)?;
    join(alloc, pattern, cells, group, parts)
}

// The answers to ranges of so many cells, by so many workers.
fn search_ranges<R: Threads + Sync, G: Gate + Sync, P: Pattern + Sync>(
    rt: &R,
    gate: &G,
    alloc: Global,
    workers: u32,
    rows: usize,
    pattern: &P,
    cells: &Vector,
    group: Option<u32>,
) -> Result<Items<Ranged>, AllocError>
    requires workers { (0 < workers) × (workers ≤ 64) }
    ensures parts { IfOk result (λ parts. All (IsRanged (P.finds pattern.now) group cells.now) parts) }
{
    let ranges = ranges_of(alloc, cells.len(), rows)?;
    let work = Searching {
        alloc,
        pattern,
        cells,
        group,
        ranges: ranges.as_slice(),
        count: u32::try_from(ranges.len()).unwrap_or(u32::MAX),
    };
    let parts = run_pieces(rt, alloc, workers, 0, &work, gate)?.results;
    Ok(parts)
}

// The ranges of so many cells, one behind another.
fn ranges_of(alloc: Global, count: usize, rows: usize) -> Result<Vec<Range>, AllocError> {
    let mut ranges = Vec::new(alloc);
    let mut from = 0;
    'ranges: while from < count {
        let to = from.saturating_add(rows.max(1)).min(count);
        ranges.push(Range { from, to })?;
        from = to;
    }
    Ok(ranges)
}

// The answers to all cells: those to ranges that stand one behind another, and where one does not, those to the cells from there on.
fn join<P: Pattern>(
    alloc: Global,
    pattern: &P,
    cells: &Vector,
    group: Option<u32>,
    parts: Items<Ranged>,
) -> Result<Vector, AllocError>
    requires parts { All (IsRanged (P.finds pattern.now) group cells.now) parts }
    ensures values { IfOk result (AreAnswers (Some (P.finds pattern.now)) group cells.now) }
    ensures fits { IfOk result (FitAnswers group cells.now) }
{
    law_of_ranges();
    let mut answers = pattern.answers(alloc, cells, 0, 0, group)?;
    let mut at = 0;
    let mut left = parts;
    left.reverse();
    'parts: while let Some(next) = left.pop() {
        if next.range.from != at {
            break 'parts;
        }
        at = next.range.to;
        answers.append(next.answers)?;
    }
    let rest = pattern.answers(alloc, cells, at, cells.len(), group)?;
    answers.append(rest)?;
    Ok(answers)
}
