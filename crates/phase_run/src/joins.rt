//! Joins, whose right side stands.
ghost use Rattle.std.specs.Prelude.{◌≡◌, ◌∷◌, [], IfOk, IsTrue, OnOk, true};
ghost use Rattle.kql_cells.specs.Named.{HasDistinctNames, column_name};
ghost use Rattle.kql_meaning.specs.FittingOperators.{join_fits};
ghost use Rattle.kql_meaning.specs.Join.{join_columns, join_table};
ghost use Rattle.phase_forms.specs.Phases.{alone_if, told};
ghost use Rattle.phase_run.specs.Reports.{Tells};

use crate::report::{PhaseReport, Phases};
use join_op::join_tables;
use kql_bound::JoinPlan;
use kql_outside::Gate;
use kql_values::Table;
use phase_joins::run_join;
use std::alloc::{AllocError, Global};
use std::thread::Threads;

/// `join` and `lookup`: with several workers by ranges of the rows that lead.
pub(crate) fn run_told_join<R: Threads + Sync, G: Gate + Sync>(
    rt: &R,
    gate: &G,
    phases: &mut Phases,
    alloc: Global,
    join: &JoinPlan,
    left: &Table,
    right: &Table,
) -> Result<Table, AllocError>
    requires fits { IsTrue (join_fits join.now left.now.columns right.now.columns) }
    requires names { HasDistinctNames column_name (join_columns join.now.kind join.now left.now.columns right.now.columns) }
    ensures table { IfOk result (λ t. t ≡ join_table join.now left.now right.now) }
    ensures told { OnOk result (Tells phases.old phases.new (λ many. told (alone_if many) (true ∷ []))) }
{
    let workers = phases.workers();
    if workers > 1 {
        let number = phases.number();
        let sizes = phases.sizes();
        let ran = run_join(rt, gate, alloc, workers, number, join, left, right, sizes)?;
        let made = phases.tell_pieces(ran)?;
        Ok(made)
    } else {
        let made = join_tables(alloc, left, right, join)?;
        phases.tell(PhaseReport::Whole)?;
        Ok(made)
    }
}
