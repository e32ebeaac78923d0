//! A row taken through the steps.
ghost use Rattle.std.specs.Prelude.{◌≡◌, ◌<◌, ◌+◌, is_some, length, map, option_map, replicate, IfOk, IsTrue, None, OnOk, Some};
ghost use Rattle.kql_meaning.specs.Scan.{after, check_one, check_two, first_outcome, machine_at_start, row_after, state_before, tried};
ghost use Rattle.kql_values.specs.Grids.{HaveLength};
ghost use Rattle.scan_ops.specs.Runs.{AreStates, HasMovedUp, IsRun, IsStepOf, turn_of, width_of};
ghost use Rattle.scan_ops.specs.Steps.{placed_step};

use crate::emit::{emit_at_once, emit_held, emit_move, emit_with};
use crate::state::State;
use crate::step::Step;
use kql_bound::ScanPlan;
use kql_values::{Row, Rows, Table};
use std::alloc::{AllocError, Global};

/// What a machine changes: the states of its steps, how many sequences have begun, and the rows that it emitted.
#[derive(Drop)]
pub(crate) struct Run {
    pub(crate) states: Vec<State>,
    pub(crate) begun: u64,
    pub(crate) emitted: Rows,
}

/// A run in which no row was taken yet, behind the rows of `out`.
#[tactic(auto, using(crate::proofs::RunFacts::start_facts))]
pub(crate) fn started(
    alloc: Global,
    plan: &ScanPlan,
    t: &Table,
    out: Rows,
) -> Result<Run, AllocError>
    requires width { HaveLength (width_of plan.now (length t.now.columns)) out }
    ensures turn { IfOk result (λ r. turn_of r ≡ record { machine = machine_at_start plan.now; emitted = out }) }
    ensures run { IfOk result (IsRun plan.now t.now.columns) }
{
    let states = empty_states(alloc, plan.steps.len())?;
    Ok(Run {
        states,
        begun: 0,
        emitted: out,
    })
}

/// An empty state for each of so many steps.
pub(crate) fn empty_states(alloc: Global, size: usize) -> Result<Vec<State>, AllocError>
    ensures states { IfOk result (λ ss. ss.items ≡ replicate size (record { size = size; held = None })) }
{
    let mut states = Vec::with_capacity(alloc, size)?;
    for _at in 0..size {
        let state = State::empty(alloc, size)?;
        states.push(state)?;
    }
    Ok(states)
}

/// Takes a row through all steps, from the last to the first.
#[tactic(auto, using(crate::proofs::RowFacts::row_facts))]
pub(crate) fn take_row(
    alloc: Global,
    plan: &ScanPlan,
    t: &Table,
    i: usize,
    steps: &[Step<'_>],
    run: &mut Run,
) -> Result<(), AllocError>
    requires row { i < length t.now.lines }
    requires steps { steps.now ≡ map (placed_step t.now.columns) plan.now.steps }
    requires run { IsRun plan.now t.now.columns run.old }
    ensures turn { OnOk result (turn_of run.new ≡ row_after plan.now t.now (turn_of run.old) i) }
    ensures run { IsRun plan.now t.now.columns run.new }
{
    let mut left = steps.len();
    'each: while 0 < left {
        left -= 1;
        let at = left;
        try_step(alloc, plan, t, i, &steps[at], at, run)?;
    }
    Ok(())
}

// Tries a row at a step, from 0: by check 1, and where that does not hold by check 2.
#[tactic(auto, using(crate::proofs::RunFacts::try_facts))]
fn try_step(
    alloc: Global,
    plan: &ScanPlan,
    t: &Table,
    i: usize,
    step: &Step<'_>,
    at: usize,
    run: &mut Run,
) -> Result<(), AllocError>
    requires row { i < length t.now.lines }
    requires step { IsStepOf plan.now t.now.columns at step.now }
    requires run { IsRun plan.now t.now.columns run.old }
    ensures turn { OnOk result (turn_of run.new ≡ tried plan.now t.now i (turn_of run.old) (at + 1, step.now.step)) }
    ensures run { IsRun plan.now t.now.columns run.new }
{
    if moves_on(alloc, plan, t, i, step, at, run)? {
        return promote(alloc, plan, t, i, step, at, run);
    }
    try_again(alloc, plan, t, i, step, at, run)
}

// Tries a row at a step, from 0, by check 2 alone.
#[tactic(auto, using(crate::proofs::RunFacts::again_facts))]
fn try_again(
    alloc: Global,
    plan: &ScanPlan,
    t: &Table,
    i: usize,
    step: &Step<'_>,
    at: usize,
    run: &mut Run,
) -> Result<(), AllocError>
    requires row { i < length t.now.lines }
    requires step { IsStepOf plan.now t.now.columns at step.now }
    requires run { IsRun plan.now t.now.columns run.old }
    ensures turn { OnOk result (turn_of run.new ≡ first_outcome (turn_of run.old) None (check_two plan.now step.now.step t.now i (at + 1) (turn_of run.old).machine)) }
    ensures run { IsRun plan.now t.now.columns run.new }
{
    if !is_renewed(alloc, plan, t, i, step, at, run)? {
        return Ok(());
    }
    if at == 0 {
        begin(alloc, plan, t, i, step, at, run)
    } else {
        renew(alloc, plan, t, i, step, at, run)
    }
}

// Check 1: whether the state of the step before is not empty, and the condition is true with its records.
#[tactic(auto, using(crate::proofs::RunFacts::check_facts))]
fn moves_on(
    alloc: Global,
    plan: &ScanPlan,
    t: &Table,
    i: usize,
    step: &Step<'_>,
    at: usize,
    run: &Run,
) -> Result<bool, AllocError>
    requires row { i < length t.now.lines }
    requires step { IsStepOf plan.now t.now.columns at step.now }
    requires run { IsRun plan.now t.now.columns run.now }
    ensures check { IfOk result (λ b. b ≡ is_some (check_one plan.now step.now.step t.now i (at + 1) (turn_of run.now).machine (state_before (turn_of run.now).machine (at + 1)))) }
    ensures above { IfOk result (λ b. IsTrue b → 0 < at) }
{
    if at == 0 {
        return Ok(false);
    }
    let before = &run.states.as_slice()[at - 1];
    match before.id() {
        None => Ok(false),
        Some(_) => {
            let truth = step.is_true_at(alloc, t, i, before.records())?;
            Ok(truth)
        }
    }
}

// Check 2: whether the state of the step is not empty, or it is the first, and the condition is true with its records.
#[tactic(auto, using(crate::proofs::RunFacts::check_facts))]
fn is_renewed(
    alloc: Global,
    plan: &ScanPlan,
    t: &Table,
    i: usize,
    step: &Step<'_>,
    at: usize,
    run: &Run,
) -> Result<bool, AllocError>
    requires row { i < length t.now.lines }
    requires step { IsStepOf plan.now t.now.columns at step.now }
    requires run { IsRun plan.now t.now.columns run.now }
    ensures check { IfOk result (λ b. b ≡ is_some (check_two plan.now step.now.step t.now i (at + 1) (turn_of run.now).machine)) }
{
    let state = &run.states.as_slice()[at];
    if at == 0 {
        let first = step.is_true_at(alloc, t, i, state.records())?;
        return Ok(first);
    }
    match state.id() {
        None => Ok(false),
        Some(_) => {
            let truth = step.is_true_at(alloc, t, i, state.records())?;
            Ok(truth)
        }
    }
}

// Check 1 has held: the state of the step before becomes that of the step, with a new record.
#[tactic(auto, using(crate::proofs::RunFacts::move_facts))]
fn promote(
    alloc: Global,
    plan: &ScanPlan,
    t: &Table,
    i: usize,
    step: &Step<'_>,
    at: usize,
    run: &mut Run,
) -> Result<(), AllocError>
    requires row { i < length t.now.lines }
    requires step { IsStepOf plan.now t.now.columns at step.now }
    requires run { IsRun plan.now t.now.columns run.old }
    requires above { 0 < at }
    requires check { IsTrue (is_some (check_one plan.now step.now.step t.now i (at + 1) (turn_of run.old).machine (state_before (turn_of run.old).machine (at + 1)))) }
    ensures turn { OnOk result (Some (turn_of run.new) ≡ option_map (after (turn_of run.old).emitted) (check_one plan.now step.now.step t.now i (at + 1) (turn_of run.old).machine (state_before (turn_of run.old).machine (at + 1)))) }
    ensures run { IsRun plan.now t.now.columns run.new }
{
    let line = step.record(alloc, t, i, run.states.as_slice()[at - 1].records())?;
    emit_move(
        alloc,
        plan,
        step,
        at,
        line.as_slice(),
        &run.states.as_slice()[at - 1],
        &run.states.as_slice()[at],
        &mut run.emitted,
    )?;
    move_up(at, line, &mut run.states);
    Ok(())
}

// Moves the state of the step before to a step, with a new record, and leaves an empty one. The two change places.
#[tactic(auto, using(crate::proofs::RunFacts::up_facts))]
fn move_up(at: usize, line: Row, states: &mut Vec<State>)
    requires above { 0 < at }
    requires within { at < length states.old.items }
    requires states { AreStates (length states.old.items) (length line) states.old.items }
    ensures moved { HasMovedUp at line states.old.items states.new.items }
{
    states.swap(at - 1, at);
    states[at - 1].clear();
    states[at].take(at, line);
}

// Check 2 has held for the first step: a new sequence begins.
#[tactic(auto, using(crate::proofs::RunFacts::begin_facts))]
fn begin(
    alloc: Global,
    plan: &ScanPlan,
    t: &Table,
    i: usize,
    step: &Step<'_>,
    at: usize,
    run: &mut Run,
) -> Result<(), AllocError>
    requires row { i < length t.now.lines }
    requires step { IsStepOf plan.now t.now.columns at step.now }
    requires run { IsRun plan.now t.now.columns run.old }
    requires first { at ≡ 0 }
    requires check { IsTrue (is_some (check_two plan.now step.now.step t.now i (at + 1) (turn_of run.old).machine)) }
    ensures turn { OnOk result (Some (turn_of run.new) ≡ option_map (after (turn_of run.old).emitted) (check_two plan.now step.now.step t.now i (at + 1) (turn_of run.old).machine)) }
    ensures run { IsRun plan.now t.now.columns run.new }
{
    let Some(next) = run.begun.checked_add(1) else {
        return Err(AllocError);
    };
    let line = step.record(alloc, t, i, run.states.as_slice()[at].records())?;
    emit_held(
        alloc,
        plan,
        at,
        &run.states.as_slice()[at],
        &mut run.emitted,
    )?;
    emit_at_once(
        alloc,
        plan,
        step,
        line.as_slice(),
        run.begun,
        &mut run.emitted,
    )?;
    run.states[at].begin(run.begun, line);
    run.begun = next;
    Ok(())
}

// Check 2 has held for a step above the first: its own record is replaced.
#[tactic(auto, using(crate::proofs::RunFacts::renew_facts))]
fn renew(
    alloc: Global,
    plan: &ScanPlan,
    t: &Table,
    i: usize,
    step: &Step<'_>,
    at: usize,
    run: &mut Run,
) -> Result<(), AllocError>
    requires row { i < length t.now.lines }
    requires step { IsStepOf plan.now t.now.columns at step.now }
    requires run { IsRun plan.now t.now.columns run.old }
    requires above { 0 < at }
    requires check { IsTrue (is_some (check_two plan.now step.now.step t.now i (at + 1) (turn_of run.old).machine)) }
    ensures turn { OnOk result (Some (turn_of run.new) ≡ option_map (after (turn_of run.old).emitted) (check_two plan.now step.now.step t.now i (at + 1) (turn_of run.old).machine)) }
    ensures run { IsRun plan.now t.now.columns run.new }
{
    let line = step.record(alloc, t, i, run.states.as_slice()[at].records())?;
    emit_with(
        alloc,
        plan,
        step,
        line.as_slice(),
        &run.states.as_slice()[at],
        &mut run.emitted,
    )?;
    run.states[at].take(at, line);
    Ok(())
}
