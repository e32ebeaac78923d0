//! What the rows that lead give, by ranges of these rows.
ghost use Rattle.std.specs.Prelude.{◌≡◌, ◌<◌, ◌≤◌, ◌*◌, ◌^◌, All, IfOk, IsTrue, length, map};
ghost use Rattle.kql_cells.specs.Named.{HasDistinctNames, column_name};
ghost use Rattle.kql_meaning.specs.FittingOperators.{join_fits};
ghost use Rattle.kql_meaning.specs.Join.{both_columns};
ghost use Rattle.kql_values.specs.Grids.{rows_of};
ghost use Rattle.join_op.specs.Led.{all_leads, led_table};
ghost use Rattle.join_op.specs.Sides.{key_cells, lead_of, lead_side, opposite};
ghost use Rattle.phase_laws.specs.Pieces.{slice_of};
ghost use Rattle.phase_pieces.specs.Reports.{IsCutFor, IsWholeFor};

use join_op::{
    key_columns, law_of_leads, lead_side, leading_rows, opposite, other_rows, side_table,
    table_of_leads,
};
use kql_bound::{JoinKind, JoinPlan};
use kql_keys::Probe;
use kql_outside::Gate;
use kql_values::{Table, Vector};
use phase_pieces::{Cut, Ran, Sizes, bounds_of, cut_rows, put_together};
use std::alloc::{AllocError, Global};
use std::marker::Model;
use std::thread::Threads;
use worker_board::{Outcome, Work, run_pieces};

// The work of such a run.
#[derive(Drop)]
struct LedRun<'a, 'k, 'v, 'p, 'o, 'l> {
    alloc: Global,
    left: &'a Table,
    right: &'a Table,
    plan: &'a JoinPlan,
    kind: JoinKind,
    both: bool,
    keys: &'k [&'v Vector],
    probe: &'p Probe<'o>,
    leads: &'l [usize],
    cut: Cut,
}

impl<'a, 'k, 'v, 'p, 'o, 'l> Model for LedRun<'a, 'k, 'v, 'p, 'o, 'l> {
    ghost use Rattle.std.specs.Prelude.{map};
    ghost use Rattle.std.specs.Coded.{codes};
    ghost use Rattle.kql_cells.specs.contracts.dynamic.Dyn as dynamic;
    ghost use Rattle.phase_joins.specs.Works.{IsLedRun, LedSeen};

    ghost Value = { LedSeen };

    ghost coded = { Prim.hlevel (codes, dynamic.the_row.coded) };

    ghost view = { λ r. record { left = r.left.now; right = r.right.now; plan = r.plan.now; kind = r.kind; both = r.both; keys = map (λ c. c.now) r.keys.now; index = r.probe.now; leads = r.leads.now; cut = r.cut } };

    ghost invariant = { λ r. IsLedRun (record { left = r.left.now; right = r.right.now; plan = r.plan.now; kind = r.kind; both = r.both; keys = map (λ c. c.now) r.keys.now; index = r.probe.now; leads = r.leads.now; cut = r.cut }) };
}

impl<'a, 'k, 'v, 'p, 'o, 'l> Work<Table> for LedRun<'a, 'k, 'v, 'p, 'o, 'l> {
    ghost use Rattle.join_op.specs.Led.{led_table};
    ghost use Rattle.phase_laws.specs.Pieces.{slice_of};

    ghost count = { λ r. r.cut.pieces };

    ghost answer = { λ r piece. led_table r.both r.kind r.plan r.left r.right (slice_of r.cut.rows r.leads piece) };

    fn pieces(&self) -> u32 {
        self.cut.pieces
    }

    #[tactic(auto, using(phase_pieces::proofs::CutLaws::begins))]
    fn run(&self, piece: u32) -> Result<Table, AllocError> {
        led_piece(
            self.alloc,
            self.left,
            self.right,
            self.plan,
            self.kind,
            self.both,
            self.keys,
            self.probe,
            self.leads,
            self.cut.rows,
            piece,
        )
    }
}

// What the rows of a piece give.
#[tactic(auto, using(crate::proofs::LedSteps::piece_steps))]
fn led_piece(
    alloc: Global,
    left: &Table,
    right: &Table,
    j: &JoinPlan,
    kind: JoinKind,
    both: bool,
    keys: &[&Vector],
    probe: &Probe<'_>,
    leads: &[usize],
    rows: usize,
    piece: u32,
) -> Result<Table, AllocError>
    requires names { IsTrue both → HasDistinctNames column_name (both_columns j.now left.now.columns right.now.columns) }
    requires keys { map (λ c. c.now) keys.now ≡ key_cells (lead_side kind) j.now.on (lead_of (lead_side kind) left.now right.now) }
    requires probe { probe.now ≡ rows_of (length (lead_of (opposite (lead_side kind)) left.now right.now).lines) (key_cells (opposite (lead_side kind)) j.now.on (lead_of (opposite (lead_side kind)) left.now right.now)) }
    requires within { All (λ i. i < length (lead_of (lead_side kind) left.now right.now).lines) leads.now }
    requires begins { piece * rows ≤ length leads.now }
    requires rows { rows < 2 ^ 63 }
    ensures table { IfOk result (λ t. t ≡ led_table both kind j.now left.now right.now (slice_of rows leads.now piece)) }
{
    let bounds = bounds_of(leads.len(), rows, piece);
    let part = &leads[bounds.from..bounds.to];
    let made = table_of_leads(alloc, left, right, j, kind, both, keys, probe, part)?;
    Ok(made)
}

/// What all rows that lead in a kind of join give, piece by piece, by so many workers.
#[tactic(auto, using(crate::proofs::LedSteps::run_steps))]
pub(crate) fn run_led<'a, R: Threads + Sync, G: Gate + Sync>(
    rt: &R,
    gate: &G,
    alloc: Global,
    workers: u32,
    phase: u32,
    left: &'a Table,
    right: &'a Table,
    j: &'a JoinPlan,
    kind: JoinKind,
    both: bool,
    sizes: Sizes,
) -> Result<Ran, AllocError>
    requires workers { (0 < workers) × (workers ≤ 64) }
    requires sizes { 0 < sizes.piece_rows }
    requires fits { IsTrue (join_fits j.now left.now.columns right.now.columns) }
    requires names { IsTrue both → HasDistinctNames column_name (both_columns j.now left.now.columns right.now.columns) }
    ensures table { IfOk result (λ r. r.table ≡ led_table both kind j.now left.now right.now (all_leads kind j.now left.now right.now)) }
    ensures whole { IfOk result (λ r. IsWholeFor workers r.gathered) }
    ensures pieces { IfOk result (λ r. IsCutFor (length (all_leads kind j.now left.now right.now)) sizes.piece_rows r.gathered) }
{
    law_of_leads();
    let side = lead_side(kind);
    let lead = side_table(side, left, right);
    let against = opposite(side);
    let other = side_table(against, left, right);
    let on = j.on.as_slice();
    let keys = key_columns(alloc, side, on, lead)?;
    let own = keys.as_slice();
    let other_keys = key_columns(alloc, against, on, other)?;
    let others = other_keys.as_slice();
    let leads = leading_rows(alloc, kind, on, lead, own)?;
    let ran = run_keyed(
        rt,
        gate,
        alloc,
        workers,
        phase,
        left,
        right,
        j,
        kind,
        both,
        own,
        others,
        leads.as_slice(),
        sizes,
    )?;
    Ok(ran)
}

// What these of the rows that lead give, from the columns of the keys of both sides.
fn run_keyed<'a, R: Threads + Sync, G: Gate + Sync>(
    rt: &R,
    gate: &G,
    alloc: Global,
    workers: u32,
    phase: u32,
    left: &'a Table,
    right: &'a Table,
    j: &'a JoinPlan,
    kind: JoinKind,
    both: bool,
    keys: &[&Vector],
    others: &[&Vector],
    leads: &[usize],
    sizes: Sizes,
) -> Result<Ran, AllocError>
    requires workers { (0 < workers) × (workers ≤ 64) }
    requires sizes { 0 < sizes.piece_rows }
    requires names { IsTrue both → HasDistinctNames column_name (both_columns j.now left.now.columns right.now.columns) }
    requires keys { map (λ c. c.now) keys.now ≡ key_cells (lead_side kind) j.now.on (lead_of (lead_side kind) left.now right.now) }
    requires others { map (λ c. c.now) others.now ≡ key_cells (opposite (lead_side kind)) j.now.on (lead_of (opposite (lead_side kind)) left.now right.now) }
    requires within { All (λ i. i < length (lead_of (lead_side kind) left.now right.now).lines) leads.now }
    ensures table { IfOk result (λ r. r.table ≡ led_table both kind j.now left.now right.now leads.now) }
    ensures whole { IfOk result (λ r. IsWholeFor workers r.gathered) }
    ensures pieces { IfOk result (λ r. IsCutFor (length leads.now) sizes.piece_rows r.gathered) }
{
    let side = lead_side(kind);
    let against = opposite(side);
    let other = side_table(against, left, right);
    let on = j.on.as_slice();
    let probe = other_rows(alloc, kind, on, other, others)?;
    let ran = run_leads(
        rt, gate, alloc, workers, phase, left, right, j, kind, both, keys, &probe, leads, sizes,
    )?;
    Ok(ran)
}

// The same, from an index of the other side.
fn run_leads<'a, R: Threads + Sync, G: Gate + Sync>(
    rt: &R,
    gate: &G,
    alloc: Global,
    workers: u32,
    phase: u32,
    left: &'a Table,
    right: &'a Table,
    j: &'a JoinPlan,
    kind: JoinKind,
    both: bool,
    keys: &[&Vector],
    probe: &Probe<'_>,
    leads: &[usize],
    sizes: Sizes,
) -> Result<Ran, AllocError>
    requires workers { (0 < workers) × (workers ≤ 64) }
    requires sizes { 0 < sizes.piece_rows }
    requires names { IsTrue both → HasDistinctNames column_name (both_columns j.now left.now.columns right.now.columns) }
    requires keys { map (λ c. c.now) keys.now ≡ key_cells (lead_side kind) j.now.on (lead_of (lead_side kind) left.now right.now) }
    requires probe { probe.now ≡ rows_of (length (lead_of (opposite (lead_side kind)) left.now right.now).lines) (key_cells (opposite (lead_side kind)) j.now.on (lead_of (opposite (lead_side kind)) left.now right.now)) }
    requires within { All (λ i. i < length (lead_of (lead_side kind) left.now right.now).lines) leads.now }
    ensures table { IfOk result (λ r. r.table ≡ led_table both kind j.now left.now right.now leads.now) }
    ensures whole { IfOk result (λ r. IsWholeFor workers r.gathered) }
    ensures pieces { IfOk result (λ r. IsCutFor (length leads.now) sizes.piece_rows r.gathered) }
{
    let cut = cut_rows(leads.len(), sizes.piece_rows);
    let first = table_of_leads(alloc, left, right, j, kind, both, keys, probe, &[])?;
    let work = LedRun {
        alloc,
        left,
        right,
        plan: j,
        kind,
        both,
        keys,
        probe,
        leads,
        cut,
    };
    let Outcome { results, gathered } = run_pieces(rt, alloc, workers, phase, &work, gate)?;
    let made = put_together(first, results)?;
    Ok(Ran {
        table: made,
        gathered,
    })
}
