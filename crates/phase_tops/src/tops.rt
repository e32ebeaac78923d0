//! The first rows by the keys.
ghost use Rattle.std.specs.Prelude.{◌≡◌, ◌<◌, ◌≤◌, ◌*◌, ◌^◌, IfOk, IsTrue, length};
ghost use Rattle.kql_meaning.specs.FittingOperators.{sort_fits};
ghost use Rattle.kql_meaning.specs.Sort.{top_table};
ghost use Rattle.kql_meaning.specs.Tables.{places_below};
ghost use Rattle.order_ops.specs.Order.{places_cmp};
ghost use Rattle.order_ops.specs.Tops.{top_of};
ghost use Rattle.phase_laws.specs.Pieces.{slice_of};
ghost use Rattle.phase_pieces.specs.Reports.{IsCutFor, IsWholeFor};

use crate::places::{one_list, places_from};
use kql_bound::BKey;
use kql_cells::Places;
use kql_items::Items;
use kql_outside::Gate;
use kql_values::Table;
use order_ops::{KeyColumn, key_columns, law_of_tops, least_of};
use phase_pieces::{Cut, Ran, Sizes, bounds_of, cut_rows};
use std::alloc::{AllocError, Global};
use std::marker::Model;
use std::thread::Threads;
use worker_board::{Gathered, Outcome, Work, run_pieces};

// The work of such a run.
#[derive(Drop)]
struct TopRun<'a> {
    alloc: Global,
    columns: &'a [KeyColumn],
    count: usize,
    wanted: usize,
    cut: Cut,
}

impl<'a> Model for TopRun<'a> {
    ghost use Rattle.std.specs.Coded.{codes};
    ghost use Rattle.kql_cells.specs.contracts.dynamic.Dyn as dynamic;
    ghost use Rattle.phase_tops.specs.Works.{IsTopRun, TopSeen};

    ghost Value = { TopSeen };

    ghost coded = { Prim.hlevel (codes, dynamic.the_row.coded) };

    ghost view = { λ r. record { columns = r.columns.now; count = r.count; wanted = r.wanted; cut = r.cut } };

    ghost invariant = { λ r. IsTopRun (record { columns = r.columns.now; count = r.count; wanted = r.wanted; cut = r.cut }) };
}

impl<'a> Work<Places> for TopRun<'a> {
    ghost use Rattle.kql_meaning.specs.Tables.{places_below};
    ghost use Rattle.order_ops.specs.Order.{places_cmp};
    ghost use Rattle.order_ops.specs.Tops.{top_of};
    ghost use Rattle.phase_laws.specs.Pieces.{slice_of};

    ghost count = { λ r. r.cut.pieces };

    ghost answer = { λ r piece. top_of (places_cmp r.columns) r.wanted (slice_of r.cut.rows (places_below r.count) piece) };

    fn pieces(&self) -> u32 {
        self.cut.pieces
    }

    #[tactic(auto, using(phase_pieces::proofs::CutLaws::begins))]
    fn run(&self, piece: u32) -> Result<Places, AllocError> {
        top_piece(
            self.alloc,
            self.columns,
            self.count,
            self.wanted,
            self.cut.rows,
            piece,
        )
    }
}

// The first places of a piece.
#[tactic(auto, using(crate::proofs::PlaceSteps::piece_steps))]
fn top_piece(
    alloc: Global,
    columns: &[KeyColumn],
    count: usize,
    wanted: usize,
    rows: usize,
    piece: u32,
) -> Result<Places, AllocError>
    requires begins { piece * rows ≤ count }
    requires small { (count < 2 ^ 63) × (rows < 2 ^ 63) }
    ensures places { IfOk result (λ ps. ps ≡ top_of (places_cmp columns.now) wanted (slice_of rows (places_below count) piece)) }
{
    let bounds = bounds_of(count, rows, piece);
    let all = places_from(alloc, bounds.from, bounds.to - bounds.from)?;
    let tops = least_of(alloc, columns, all.as_slice(), wanted)?;
    Ok(Items::from_vec(tops))
}

// The first places of all rows, and who claimed the pieces.
#[derive(Drop)]
struct Tops {
    places: Places,
    gathered: Gathered,
}

fn tops_of<R: Threads + Sync, G: Gate + Sync>(
    rt: &R,
    gate: &G,
    alloc: Global,
    workers: u32,
    phase: u32,
    columns: &[KeyColumn],
    count: usize,
    wanted: usize,
    sizes: Sizes,
) -> Result<Tops, AllocError>
    requires workers { (0 < workers) × (workers ≤ 64) }
    requires sizes { 0 < sizes.piece_rows }
    requires small { count < 2 ^ 63 }
    ensures places { IfOk result (λ x. x.places ≡ top_of (places_cmp columns.now) wanted (places_below count)) }
    ensures whole { IfOk result (λ x. IsWholeFor workers x.gathered) }
    ensures pieces { IfOk result (λ x. IsCutFor count sizes.piece_rows x.gathered) }
{
    law_of_tops();
    let cut = cut_rows(count, sizes.piece_rows);
    let work = TopRun {
        alloc,
        columns,
        count,
        wanted,
        cut,
    };
    let Outcome { results, gathered } = run_pieces(rt, alloc, workers, phase, &work, gate)?;
    let all = one_list(alloc, results)?;
    let first = least_of(alloc, columns, all.as_slice(), wanted)?;
    Ok(Tops {
        places: Items::from_vec(first),
        gathered,
    })
}

/// `top n by`, piece by piece, by so many workers: copies of the first n rows of those sorted, or of all where there are fewer.
#[tactic(auto, using(crate::proofs::TopSteps::top_steps, phase_pieces::proofs::CutLaws::told_steps))]
pub fn run_top<R: Threads + Sync, G: Gate + Sync>(
    rt: &R,
    gate: &G,
    alloc: Global,
    workers: u32,
    phase: u32,
    n: u64,
    keys: &[BKey],
    table: &Table,
    sizes: Sizes,
) -> Result<Ran, AllocError>
    requires workers { (0 < workers) × (workers ≤ 64) }
    requires sizes { 0 < sizes.piece_rows }
    requires fits { IsTrue (sort_fits keys.now table.now.columns) }
    ensures table { IfOk result (λ r. r.table ≡ top_table n keys.now table.now) }
    ensures whole { IfOk result (λ r. IsWholeFor workers r.gathered) }
    ensures pieces { IfOk result (λ r. IsCutFor (length table.now.lines) sizes.piece_rows r.gathered) }
{
    law_of_tops();
    let columns = key_columns(alloc, table, keys)?;
    let count = table.len();
    let wanted = n.min(count as u64) as usize;
    let Tops { places, gathered } = tops_of(
        rt,
        gate,
        alloc,
        workers,
        phase,
        columns.as_slice(),
        count,
        wanted,
        sizes,
    )?;
    let made = table.gather(alloc, places.as_slice())?;
    Ok(Ran {
        table: made,
        gathered,
    })
}
