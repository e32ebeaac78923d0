//! Lets, and the plan behind them.
ghost use Rattle.std.specs.Prelude.{◌≡◌, ◌++◌, [], IfOk, OnOk};
ghost use Rattle.kql_plain.specs.AtHand.{FitBehind, means_behind};
ghost use Rattle.phase_forms.specs.Phases.{plan_phases, plans_phases};
ghost use Rattle.phase_run.specs.Reports.{Tells};

use crate::plans::plan_table;
use crate::report::Phases;
use kql_bound::Plan;
use kql_outside::Gate;
use kql_plain::{last_readings, next_flag};
use kql_values::{Catalogue, Table};
use std::alloc::{AllocError, Global};
use std::thread::Threads;

/// The table of a plan behind lets. These are evaluated in order, and each stands as a table for those after it, until it is moved
/// into the plan that reads it last.
pub(crate) fn table_behind<R: Threads + Sync, G: Gate + Sync>(
    rt: &R,
    gate: &G,
    phases: &mut Phases,
    alloc: Global,
    lets: &[Plan],
    main: &Plan,
    catalogue: &Catalogue,
) -> Result<Table, AllocError>
    requires fits { FitBehind lets.now main.now catalogue.now [] }
    ensures table { IfOk result (λ t. t ≡ means_behind lets.now main.now catalogue.now []) }
    ensures told { OnOk result (Tells phases.old phases.new (λ many. plans_phases many lets.now ++ plan_phases many main.now)) }
{
    let mut last = last_readings(alloc, lets, main)?;
    let mut made = Vec::new(alloc);
    let mut left = lets;
    'lets: while let Some((plan, more)) = left.split_first() {
        let is_last = next_flag(&mut last);
        let table = plan_table(rt, gate, phases, alloc, plan, catalogue, &mut made, is_last)?;
        made.push(table)?;
        left = more;
    }
    let is_last = next_flag(&mut last);
    let table = plan_table(rt, gate, phases, alloc, main, catalogue, &mut made, is_last)?;
    Ok(table)
}
