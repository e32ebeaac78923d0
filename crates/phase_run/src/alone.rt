//! Phases of one operator that goes by pieces of its own.
ghost use Rattle.std.specs.Prelude.{◌≡◌, ◌<◌, ◌≤◌, ◌∷◌, [], IfOk, IfSome, IsFalse, IsTrue, OnOk, is_some, true};
ghost use Rattle.kql_bound.specs.declared.plan.Op.TheVariants as operator;
ghost use Rattle.kql_cells.specs.Named.{HasDistinctNames, column_name, place_of};
ghost use Rattle.kql_meaning.specs.Extend.{extend_columns, extend_table};
ghost use Rattle.kql_meaning.specs.FittingOperators.{answer_if, items_fit, series_fits, sort_fits, summarize_fits};
ghost use Rattle.kql_meaning.specs.Items.{items_columns};
ghost use Rattle.kql_meaning.specs.MakeSeries.{series_columns, series_table};
ghost use Rattle.kql_meaning.specs.Partition.{partition_table};
ghost use Rattle.kql_meaning.specs.Plans.{op_means};
ghost use Rattle.kql_meaning.specs.Project.{project_table};
ghost use Rattle.kql_meaning.specs.Sort.{top_table};
ghost use Rattle.kql_meaning.specs.Summarize.{group_columns, summarize_table};
ghost use Rattle.kql_meaning.specs.declared.position.Position.TheVariants as position;
ghost use Rattle.kql_plain.specs.AtHand.{OpFits, OpsFit, world_of};
ghost use Rattle.kql_plain.specs.Inputs.{input_table};
ghost use Rattle.phase_forms.specs.Held.{goes_alone, holds_plan};
ghost use Rattle.phase_forms.specs.Phases.{part_of, rounds_for};
ghost use Rattle.phase_laws.specs.Runs.{made_of};
ghost use Rattle.phase_pieces.specs.Reports.{IsWholeFor};
ghost use Rattle.phase_run.specs.Reports.{Tells};
ghost use Rattle.phase_windows.specs.Rounds.{AreRounds};
ghost use Rattle.window_ops.specs.Calls.{calls_of_items};

use crate::report::Phases;
use kql_bound::{BItem, BKey, GroupPlan, Op, ScanPlan, SeriesPlan};
use kql_outside::Gate;
use kql_plain::Input;
use kql_values::{Catalogue, Table};
use phase_copies::run_copy;
use phase_groups::run_groups;
use phase_partitions::run_partition;
use phase_pieces::{Ran, Sizes};
use phase_scans::run_keyed_scan;
use phase_series::run_series;
use phase_tops::run_top;
use phase_windows::{Rounds, run_extend, run_items, run_project};
use std::alloc::{AllocError, Global};
use std::thread::Threads;

/// What an operator makes of a table, in pieces.
#[tactic(auto, using(kql_plain::proofs::OperatorLaws::op_steps, phase_forms::proofs::AloneLaws::alone_steps, phase_forms::proofs::HeldLaws::held_steps))]
pub(crate) fn run_alone<R: Threads + Sync, G: Gate + Sync>(
    rt: &R,
    gate: &G,
    phases: &mut Phases,
    alloc: Global,
    op: &Op,
    catalogue: &Catalogue,
    lets: &[Table],
    from: Input<'_>,
) -> Result<Table, AllocError>
    requires fits { OpFits op.now (world_of catalogue.now lets.now) (input_table from) }
    requires goes { IsTrue (goes_alone op.now) }
    requires none { IsFalse (holds_plan op.now) }
    ensures table { IfOk result (λ t. t ≡ op_means op.now (world_of catalogue.now lets.now) (input_table from.entry)) }
    ensures told { OnOk result (Tells phases.old phases.new (λ many. (part_of many op.now).rounds)) }
{
    match op {
        Op::Where(_) => unreachable!(),
        Op::Extend(items) => {
            let table = owned_table(rt, gate, phases, alloc, from)?;
            run_told_extend(rt, gate, phases, alloc, items.as_slice(), table)
        }
        Op::Project(items) => run_told_project(rt, gate, phases, alloc, items.as_slice(), from),
        Op::Take(_) => unreachable!(),
        Op::Count => unreachable!(),
        Op::Serialize => unreachable!(),
        Op::Sort(_) => unreachable!(),
        Op::Top(n, keys) => run_told_top(
            rt,
            gate,
            phases,
            alloc,
            *n,
            keys.as_slice(),
            from.as_table(),
        ),
        Op::Summarize(plan) => run_told_groups(rt, gate, phases, alloc, plan, from.as_table()),
        Op::MakeSeries(series) => run_told_series(rt, gate, phases, alloc, series, from.as_table()),
        Op::MvExpand(_) => unreachable!(),
        Op::Parse(_) => unreachable!(),
        Op::Join(_, _) => unreachable!(),
        Op::Union(_, _) => unreachable!(),
        Op::Scan(_) => unreachable!(),
        Op::Partition(key, ops) => run_told_partition(
            rt,
            gate,
            phases,
            alloc,
            key.as_str(),
            ops.as_slice(),
            catalogue,
            lets,
            from.as_table(),
        ),
    }
}

// `summarize` and `distinct`.
fn run_told_groups<R: Threads + Sync, G: Gate + Sync>(
    rt: &R,
    gate: &G,
    phases: &mut Phases,
    alloc: Global,
    plan: &GroupPlan,
    table: &Table,
) -> Result<Table, AllocError>
    requires fits { IsTrue (is_some (answer_if (summarize_fits plan.now table.now.columns) (group_columns plan.now table.now.columns))) }
    ensures table { IfOk result (λ t. t ≡ summarize_table plan.now table.now) }
    ensures told { OnOk result (Tells phases.old phases.new (λ many. true ∷ [])) }
{
    let workers = phases.workers();
    let number = phases.number();
    let sizes = phases.sizes();
    let ran = run_groups(rt, gate, alloc, workers, number, plan, table, sizes)?;
    let made = phases.tell_pieces(ran)?;
    Ok(made)
}

// `make-series`.
fn run_told_series<R: Threads + Sync, G: Gate + Sync>(
    rt: &R,
    gate: &G,
    phases: &mut Phases,
    alloc: Global,
    series: &SeriesPlan,
    table: &Table,
) -> Result<Table, AllocError>
    requires fits { IsTrue (is_some (answer_if (series_fits series.now table.now.columns) (series_columns series.now table.now.columns))) }
    ensures table { IfOk result (λ t. t ≡ series_table series.now table.now) }
    ensures told { OnOk result (Tells phases.old phases.new (λ many. true ∷ [])) }
{
    let workers = phases.workers();
    let number = phases.number();
    let sizes = phases.sizes();
    let ran = run_series(rt, gate, alloc, workers, number, series, table, sizes)?;
    let made = phases.tell_pieces(ran)?;
    Ok(made)
}

// `top`.
fn run_told_top<R: Threads + Sync, G: Gate + Sync>(
    rt: &R,
    gate: &G,
    phases: &mut Phases,
    alloc: Global,
    n: u64,
    keys: &[BKey],
    table: &Table,
) -> Result<Table, AllocError>
    requires fits { IsTrue (sort_fits keys.now table.now.columns) }
    ensures table { IfOk result (λ t. t ≡ top_table n keys.now table.now) }
    ensures told { OnOk result (Tells phases.old phases.new (λ many. true ∷ [])) }
{
    let workers = phases.workers();
    let number = phases.number();
    let sizes = phases.sizes();
    let ran = run_top(rt, gate, alloc, workers, number, n, keys, table, sizes)?;
    let made = phases.tell_pieces(ran)?;
    Ok(made)
}

// The table, or a copy of one that is lent.
fn owned_table<R: Threads + Sync, G: Gate + Sync>(
    rt: &R,
    gate: &G,
    phases: &Phases,
    alloc: Global,
    from: Input<'_>,
) -> Result<Table, AllocError>
    ensures table { IfOk result (λ t. t ≡ input_table from.entry) }
{
    match from {
        Input::Lent(t) => {
            let copied = run_copy(rt, gate, alloc, phases.workers(), phases.number(), t)?;
            Ok(copied)
        }
        Input::Owned(t) => Ok(t),
    }
}

// `extend`: columns that stay are not copied.
fn run_told_extend<R: Threads + Sync, G: Gate + Sync>(
    rt: &R,
    gate: &G,
    phases: &mut Phases,
    alloc: Global,
    items: &[BItem],
    table: Table,
) -> Result<Table, AllocError>
    requires fits { IsTrue (items_fit items.now table.columns position.Window) }
    requires names { HasDistinctNames column_name (extend_columns items.now table.columns) }
    ensures table { IfOk result (λ t. t ≡ extend_table items.now table) }
    ensures told { OnOk result (Tells phases.old phases.new (λ many. rounds_for (calls_of_items items.now))) }
{
    let workers = phases.workers();
    let number = phases.number();
    let sizes = phases.sizes();
    let ran = run_extend(rt, gate, alloc, workers, number, items, table, sizes)?;
    let Rounds { table, gathered } = ran;
    phases.tell_rounds(gathered)?;
    Ok(table)
}

// `project`: of a table that is lent no more than the items is copied, and columns in front of one that is owned are moved.
fn run_told_project<R: Threads + Sync, G: Gate + Sync>(
    rt: &R,
    gate: &G,
    phases: &mut Phases,
    alloc: Global,
    items: &[BItem],
    from: Input<'_>,
) -> Result<Table, AllocError>
    requires fits { IsTrue (items_fit items.now (input_table from).columns position.Window) }
    requires names { HasDistinctNames column_name (items_columns items.now (input_table from).columns) }
    ensures table { IfOk result (λ t. t ≡ project_table items.now (input_table from.entry)) }
    ensures told { OnOk result (Tells phases.old phases.new (λ many. rounds_for (calls_of_items items.now))) }
{
    let workers = phases.workers();
    let number = phases.number();
    let sizes = phases.sizes();
    let ran = projected(rt, gate, alloc, workers, number, items, from, sizes)?;
    let Rounds { table, gathered } = ran;
    phases.tell_rounds(gathered)?;
    Ok(table)
}

// The same, not yet told.
fn projected<R: Threads + Sync, G: Gate + Sync>(
    rt: &R,
    gate: &G,
    alloc: Global,
    workers: u32,
    number: u32,
    items: &[BItem],
    from: Input<'_>,
    sizes: Sizes,
) -> Result<Rounds, AllocError>
    requires workers { (0 < workers) × (workers ≤ 64) }
    requires sizes { 0 < sizes.piece_rows }
    requires fits { IsTrue (items_fit items.now (input_table from).columns position.Window) }
    requires names { HasDistinctNames column_name (items_columns items.now (input_table from).columns) }
    ensures table { IfOk result (λ r. r.table ≡ project_table items.now (input_table from.entry)) }
    ensures rounds { IfOk result (λ r. AreRounds workers items.now r.gathered) }
{
    match from {
        Input::Lent(t) => run_items(rt, gate, alloc, workers, number, items, t, sizes),
        Input::Owned(t) => run_project(rt, gate, alloc, workers, number, items, t, sizes),
    }
}

// `partition`, by ranges of its keys.
fn run_told_partition<R: Threads + Sync, G: Gate + Sync>(
    rt: &R,
    gate: &G,
    phases: &mut Phases,
    alloc: Global,
    key: &str,
    ops: &[Op],
    catalogue: &Catalogue,
    lets: &[Table],
    table: &Table,
) -> Result<Table, AllocError>
    requires column { IsTrue (is_some (place_of column_name key.now table.now.columns)) }
    requires fits { OpsFit ops.now (world_of catalogue.now lets.now) table.now }
    ensures table { IfOk result (λ t. t ≡ partition_table key.now (made_of ops.now (world_of catalogue.now lets.now)) table.now) }
    ensures told { OnOk result (Tells phases.old phases.new (λ many. true ∷ [])) }
{
    let workers = phases.workers();
    let number = phases.number();
    let sizes = phases.sizes();
    let ran = partitioned(
        rt, gate, alloc, workers, number, key, ops, catalogue, lets, table, sizes,
    )?;
    let made = phases.tell_pieces(ran)?;
    Ok(made)
}

// The same, not yet told: one scan runs over the rows of its keys where they stand.
#[tactic(auto, using(crate::proofs::PartSteps::part_steps))]
fn partitioned<R: Threads + Sync, G: Gate + Sync>(
    rt: &R,
    gate: &G,
    alloc: Global,
    workers: u32,
    number: u32,
    key: &str,
    ops: &[Op],
    catalogue: &Catalogue,
    lets: &[Table],
    table: &Table,
    sizes: Sizes,
) -> Result<Ran, AllocError>
    requires workers { (0 < workers) × (workers ≤ 64) }
    requires sizes { 0 < sizes.piece_rows }
    requires column { IsTrue (is_some (place_of column_name key.now table.now.columns)) }
    requires fits { OpsFit ops.now (world_of catalogue.now lets.now) table.now }
    ensures table { IfOk result (λ r. r.table ≡ partition_table key.now (made_of ops.now (world_of catalogue.now lets.now)) table.now) }
    ensures whole { IfOk result (λ r. IsWholeFor workers r.gathered) }
{
    match scan_alone(ops) {
        Some(scan) => {
            let ran = run_keyed_scan(rt, gate, alloc, workers, number, key, scan, table, sizes)?;
            Ok(ran)
        }
        None => {
            let ran = run_partition(
                rt, gate, alloc, workers, number, key, ops, catalogue, lets, table, sizes,
            )?;
            Ok(ran)
        }
    }
}

// The scan that operators are, where they are one scan and nothing else.
fn scan_alone(ops: &[Op]) -> Option<&ScanPlan>
    ensures alone { IfSome result (λ s. ops.now ≡ operator.Scan s.now ∷ []) }
{
    match ops {
        [Op::Scan(scan)] => Some(scan),
        _ => None,
    }
}
