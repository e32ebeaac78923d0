//! A join of any kind, and a lookup.
ghost use Rattle.std.specs.Prelude.{◌≡◌, ◌<◌, ◌≤◌, false, IfOk, IsTrue, length};
ghost use Rattle.kql_cells.specs.Named.{HasDistinctNames, column_name};
ghost use Rattle.kql_meaning.specs.FittingOperators.{join_fits};
ghost use Rattle.kql_meaning.specs.Join.{join_columns, join_table};
ghost use Rattle.join_op.specs.Pairs.{has_lead};
ghost use Rattle.phase_pieces.specs.Reports.{IsCutFor, IsWholeFor};
ghost use Rattle.phase_joins.specs.Leads.{leads_of};

use crate::led::run_led;
use join_op::{has_lead, law_of_leads, shows_both};
use kql_bound::{JoinKind, JoinPlan};
use kql_outside::Gate;
use kql_values::Table;
use phase_pieces::{Ran, Sizes};
use std::alloc::{AllocError, Global};
use std::thread::Threads;

/// `join` and `lookup`, piece by piece, by so many workers.
///
/// A full outer join has two rounds, one of the left rows and one of the right ones; it tells who claimed the pieces of the first.
#[tactic(auto, using(crate::proofs::JoinSteps::join_steps))]
pub fn run_join<R: Threads + Sync, G: Gate + Sync>(
    rt: &R,
    gate: &G,
    alloc: Global,
    workers: u32,
    phase: u32,
    j: &JoinPlan,
    left: &Table,
    right: &Table,
    sizes: Sizes,
) -> Result<Ran, AllocError>
    requires workers { (0 < workers) × (workers ≤ 64) }
    requires sizes { 0 < sizes.piece_rows }
    requires fits { IsTrue (join_fits j.now left.now.columns right.now.columns) }
    requires names { HasDistinctNames column_name (join_columns j.now.kind j.now left.now.columns right.now.columns) }
    ensures table { IfOk result (λ r. r.table ≡ join_table j.now left.now right.now) }
    ensures whole { IfOk result (λ r. IsWholeFor workers r.gathered) }
    ensures pieces { IfOk result (λ r. IsCutFor (length (leads_of j.now left.now right.now)) sizes.piece_rows r.gathered) }
{
    law_of_leads();
    if has_lead(j.kind) {
        let both = shows_both(j.kind);
        let ran = run_led(
            rt, gate, alloc, workers, phase, left, right, j, j.kind, both, sizes,
        )?;
        Ok(ran)
    } else {
        let ran = run_full(rt, gate, alloc, workers, phase, j, left, right, sizes)?;
        Ok(ran)
    }
}

// A full outer join: a left outer join, and behind it the right rows that match none.
#[tactic(auto, using(crate::proofs::JoinSteps::full_steps))]
fn run_full<R: Threads + Sync, G: Gate + Sync>(
    rt: &R,
    gate: &G,
    alloc: Global,
    workers: u32,
    phase: u32,
    j: &JoinPlan,
    left: &Table,
    right: &Table,
    sizes: Sizes,
) -> Result<Ran, AllocError>
    requires workers { (0 < workers) × (workers ≤ 64) }
    requires sizes { 0 < sizes.piece_rows }
    requires full { has_lead j.now.kind ≡ false }
    requires fits { IsTrue (join_fits j.now left.now.columns right.now.columns) }
    requires names { HasDistinctNames column_name (join_columns j.now.kind j.now left.now.columns right.now.columns) }
    ensures table { IfOk result (λ r. r.table ≡ join_table j.now left.now right.now) }
    ensures whole { IfOk result (λ r. IsWholeFor workers r.gathered) }
    ensures pieces { IfOk result (λ r. IsCutFor (length (leads_of j.now left.now right.now)) sizes.piece_rows r.gathered) }
{
    law_of_leads();
    let outer = JoinKind::LeftOuter;
    let Ran { table, gathered } = run_led(
        rt, gate, alloc, workers, phase, left, right, j, outer, true, sizes,
    )?;
    let anti = JoinKind::RightAnti;
    let Ran {
        table: more,
        gathered: _,
    } = run_led(
        rt, gate, alloc, workers, phase, left, right, j, anti, true, sizes,
    )?;
    let mut made = table;
    made.append(more)?;
    Ok(Ran {
        table: made,
        gathered,
    })
}
