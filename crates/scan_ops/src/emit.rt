//! The rows that a scan emits.
ghost use Rattle.std.specs.Prelude.{◌≡◌, ◌<◌, ◌+◌, ◌-◌, ◌++◌, ◌∷◌, [], length, map, pos, IfOk, OnErr, OnOk};
ghost use Rattle.kql_cells.specs.Seen.{seen};
ghost use Rattle.kql_cells.specs.declared.value.Value.TheVariants as value;
ghost use Rattle.kql_meaning.specs.Scan.{emitted_at_once, held_rows, row_of_record, rows_at_end};
ghost use Rattle.kql_values.specs.Grids.{HaveLength};
ghost use Rattle.scan_ops.specs.Runs.{AreStates, IsStateAt, IsWide, emitted_by_move, emitted_with, machine_of, width_of};
ghost use Rattle.scan_ops.specs.States.{IsHeld, rows_held};

use crate::state::State;
use crate::step::Step;
use kql_bound::{Output, ScanPlan};
use kql_values::{CellRef, Rows, Value};
use std::alloc::{AllocError, Global};

// Emits a record, with the match id of its state where that has a name.
#[tactic(auto, using(crate::proofs::EmitFacts::row_facts))]
fn emit_row(
    alloc: Global,
    plan: &ScanPlan,
    line: &[Value],
    id: u64,
    emitted: &mut Rows,
) -> Result<(), AllocError>
    requires width { HaveLength (width_of plan.now (length line.now)) emitted.old }
    ensures row { OnOk result (emitted.new ≡ emitted.old ++ row_of_record plan.now line.now id ∷ []) }
    ensures kept { OnErr result (emitted.new ≡ emitted.old) }
{
    let cells = row_cells(alloc, plan, line, id)?;
    emitted.push_cells(cells.as_slice())
}

// The cells of a row.
#[tactic(auto, using(crate::proofs::EmitFacts::cell_facts))]
fn row_cells<'a>(
    alloc: Global,
    plan: &ScanPlan,
    line: &'a [Value],
    id: u64,
) -> Result<Vec<CellRef<'a>>, AllocError>
    ensures cells { IfOk result (λ cs. map seen cs.items ≡ row_of_record plan.now line.now id) }
{
    let mut cells = cells_of(alloc, line)?;
    match &plan.match_id {
        None => Ok(cells),
        Some(_) => {
            let cell = id_cell(id)?;
            cells.push(cell)?;
            Ok(cells)
        }
    }
}

// The cells of a record.
fn cells_of(alloc: Global, line: &[Value]) -> Result<Vec<CellRef<'_>>, AllocError>
    ensures cells { IfOk result (λ cs. map seen cs.items ≡ line.now) }
{
    let mut cells = Vec::with_capacity(alloc, line.len())?;
    for value in line {
        cells.push(value.as_cell())?;
    }
    Ok(cells)
}

// The cell of a match id. One that is no long is answered as want of memory: no table has so many rows.
fn id_cell(id: u64) -> Result<CellRef<'static>, AllocError>
    ensures cell { IfOk result (λ c. seen c ≡ value.Long (pos id)) }
{
    if id < 0x8000_0000_0000_0000 {
        Ok(CellRef::Long(id as i64))
    } else {
        Err(AllocError)
    }
}

/// Emits a new record, where its step emits all.
#[tactic(auto, using(crate::proofs::EmitFacts::once_facts))]
pub(crate) fn emit_at_once(
    alloc: Global,
    plan: &ScanPlan,
    step: &Step<'_>,
    line: &[Value],
    id: u64,
    emitted: &mut Rows,
) -> Result<(), AllocError>
    requires width { HaveLength (width_of plan.now (length line.now)) emitted.old }
    ensures rows { OnOk result (emitted.new ≡ emitted.old ++ emitted_at_once plan.now step.now.step line.now id) }
    ensures kept { OnErr result (emitted.new ≡ emitted.old) }
{
    match step.output() {
        Output::All => emit_row(alloc, plan, line, id, emitted),
        Output::Last => Ok(()),
        Output::Nothing => Ok(()),
    }
}

/// The same of a new record of the sequence of a state, where that is not empty.
#[tactic(auto, using(crate::proofs::EmitFacts::with_facts))]
pub(crate) fn emit_with(
    alloc: Global,
    plan: &ScanPlan,
    step: &Step<'_>,
    line: &[Value],
    state: &State,
    emitted: &mut Rows,
) -> Result<(), AllocError>
    requires width { HaveLength (width_of plan.now (length line.now)) emitted.old }
    ensures rows { OnOk result (emitted.new ≡ emitted.old ++ emitted_with plan.now step.now.step line.now state.now.held) }
    ensures kept { OnErr result (emitted.new ≡ emitted.old) }
{
    match state.id() {
        Some(id) => emit_at_once(alloc, plan, step, line, id, emitted),
        None => Ok(()),
    }
}

/// Emits the record that a step, from 0, holds in its state, where it emits the last ones.
#[tactic(auto, using(crate::proofs::EmitFacts::held_facts))]
pub(crate) fn emit_held(
    alloc: Global,
    plan: &ScanPlan,
    at: usize,
    state: &State,
    emitted: &mut Rows,
) -> Result<(), AllocError>
    requires step { at < length plan.now.steps }
    requires within { at < state.now.size }
    requires held { IsHeld at state.now.held }
    requires width { IsWide plan.now emitted.old state.now.held }
    ensures rows { OnOk result (emitted.new ≡ emitted.old ++ held_rows plan.now (at + 1) state.now.held) }
    ensures kept { OnErr result (emitted.new ≡ emitted.old) }
{
    match plan.steps.as_slice()[at].output {
        Output::Last => emit_record(alloc, plan, at, state, emitted),
        Output::All => Ok(()),
        Output::Nothing => Ok(()),
    }
}

#[tactic(auto, using(crate::proofs::EmitFacts::record_facts))]
fn emit_record(
    alloc: Global,
    plan: &ScanPlan,
    at: usize,
    state: &State,
    emitted: &mut Rows,
) -> Result<(), AllocError>
    requires within { at < state.now.size }
    requires held { IsHeld at state.now.held }
    requires width { IsWide plan.now emitted.old state.now.held }
    ensures rows { OnOk result (emitted.new ≡ emitted.old ++ rows_held plan.now at state.now.held) }
    ensures kept { OnErr result (emitted.new ≡ emitted.old) }
{
    let Some(id) = state.id() else {
        return Ok(());
    };
    let Some(line) = state.record(at) else {
        return Ok(());
    };
    emit_row(alloc, plan, line.as_slice(), id, emitted)
}

/// Emits what a state emits that moves on to a step, from 0, with a new record: the record that this step held, the one that the step
/// before it held, and the new one.
#[tactic(auto, using(crate::proofs::EmitFacts::move_facts))]
pub(crate) fn emit_move(
    alloc: Global,
    plan: &ScanPlan,
    step: &Step<'_>,
    at: usize,
    line: &[Value],
    before: &State,
    old: &State,
    emitted: &mut Rows,
) -> Result<(), AllocError>
    requires above { 0 < at }
    requires step { at < length plan.now.steps }
    requires before { IsStateAt (length plan.now.steps) (length line.now) (at - 1) before.now }
    requires old { IsStateAt (length plan.now.steps) (length line.now) at old.now }
    requires width { HaveLength (width_of plan.now (length line.now)) emitted.old }
    ensures rows { OnOk result (emitted.new ≡ emitted.old ++ emitted_by_move plan.now step.now.step at line.now before.now.held old.now.held) }
    ensures width { HaveLength (width_of plan.now (length line.now)) emitted.new }
{
    emit_held(alloc, plan, at, old, emitted)?;
    emit_held(alloc, plan, at - 1, before, emitted)?;
    emit_with(alloc, plan, step, line, before, emitted)?;
    Ok(())
}

/// Emits what the states hold at the end, steps from the first to the last.
#[tactic(auto, using(crate::proofs::EmitFacts::end_facts))]
pub(crate) fn emit_ends(
    alloc: Global,
    plan: &ScanPlan,
    states: &[State],
    width: usize,
    begun: u64,
    emitted: &mut Rows,
) -> Result<(), AllocError>
    requires count { length states.now ≡ length plan.now.steps }
    requires states { AreStates (length plan.now.steps) width states.now }
    requires width { HaveLength (width_of plan.now width) emitted.old }
    ensures rows { OnOk result (emitted.new ≡ emitted.old ++ rows_at_end plan.now (machine_of states.now begun)) }
    ensures width { OnOk result (HaveLength (width_of plan.now width) emitted.new) }
{
    'each: for at in 0..states.len() {
        emit_held(alloc, plan, at, &states[at], emitted)?;
    }
    Ok(())
}
