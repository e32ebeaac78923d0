//! `make-series`.
ghost use Rattle.std.specs.Prelude.{◌≡◌, ◌<◌, ◌≤◌, IfOk, IsTrue, is_some, length};
ghost use Rattle.kql_meaning.specs.FittingOperators.{answer_if, series_fits};
ghost use Rattle.kql_meaning.specs.MakeSeries.{rows_inside, series_columns, series_table};
ghost use Rattle.phase_groups.specs.Shares.{AreCutBy, rows_wanted};
ghost use Rattle.phase_pieces.specs.Reports.{IsWholeFor};
ghost use Rattle.series_op.specs.Summary.{summary_plan};

use kql_bound::SeriesPlan;
use kql_outside::Gate;
use kql_values::Table;
use phase_groups::run_groups;
use phase_pieces::{Ran, Sizes};
use series_op::{SeriesParts, series_of_summary, series_parts};
use std::alloc::{AllocError, Global};
use std::thread::Threads;

/// `make-series` of a table, by so many workers: the `summarize` of the rows inside goes piece by piece.
#[tactic(auto, using(crate::proofs::SeriesSteps::series_steps))]
pub fn run_series<R: Threads + Sync, G: Gate + Sync>(
    rt: &R,
    gate: &G,
    alloc: Global,
    workers: u32,
    phase: u32,
    series: &SeriesPlan,
    table: &Table,
    sizes: Sizes,
) -> Result<Ran, AllocError>
    requires workers { (0 < workers) × (workers ≤ 64) }
    requires sizes { 0 < sizes.piece_rows }
    requires fits { IsTrue (is_some (answer_if (series_fits series.now table.now.columns) (series_columns series.now table.now.columns))) }
    ensures table { IfOk result (λ r. r.table ≡ series_table series.now table.now) }
    ensures whole { IfOk result (λ r. IsWholeFor workers r.gathered) }
    ensures pieces { IfOk result (λ r. AreCutBy (rows_wanted workers sizes.piece_rows (summary_plan series.now) (rows_inside series.now table.now)) (length (rows_inside series.now table.now).lines) r.gathered) }
{
    let SeriesParts { inside, plan } = series_parts(alloc, table, series)?;
    let Ran {
        table: summary,
        gathered,
    } = run_groups(rt, gate, alloc, workers, phase, &plan, &inside, sizes)?;
    let made = series_of_summary(alloc, table, series, &inside, &summary)?;
    Ok(Ran {
        table: made,
        gathered,
    })
}
