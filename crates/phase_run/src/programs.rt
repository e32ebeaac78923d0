//! Whole programs, by many workers.
ghost use Rattle.std.specs.Prelude.{◌≡◌, ◌<◌, ◌≤◌, IfOk, IsTrue, nat_lt};
ghost use Rattle.kql_cells.specs.Catalogues.{schemas_of};
ghost use Rattle.kql_meaning.specs.Fits.{fits};
ghost use Rattle.kql_meaning.specs.Plans.{means};
ghost use Rattle.phase_forms.specs.Phases.{program_phases};
ghost use Rattle.phase_run.specs.Reports.{AreToldBy, shape_of};

use crate::lets::table_behind;
use crate::report::{Phases, Report};
use kql_bound::Program;
use kql_outside::Gate;
use kql_plain::know_tables;
use kql_values::{Catalogue, Table};
use phase_pieces::Sizes;
use std::alloc::{AllocError, Global};
use std::thread::Threads;

/// The table of a program, and the phases that made it.
#[derive(Drop)]
pub struct Answer {
    pub table: Table,
    pub report: Report,
}

/// The table of a program that fits the schemas of a catalogue, phase by phase, by so many workers. Each enters the gate with each piece
/// that it takes. However many they are, and in whatever order they take pieces and end them, the table is the one that the program
/// means. Want of memory alone stands in its place.
pub fn run_plan<R: Threads + Sync, G: Gate + Sync>(
    rt: &R,
    alloc: Global,
    p: &Program,
    catalogue: &Catalogue,
    workers: u32,
    sizes: Sizes,
    gate: &G,
) -> Result<Answer, AllocError>
    requires fits { IsTrue (fits p.now (schemas_of catalogue.now)) }
    requires workers { (0 < workers) × (workers ≤ 64) }
    requires sizes { 0 < sizes.piece_rows }
    ensures table { IfOk result (λ r. r.table ≡ means p.now catalogue.now) }
    ensures report { IfOk result (λ r. AreToldBy workers r.report) }
    ensures phases { IfOk result (λ r. shape_of r.report ≡ program_phases (nat_lt 1 workers) p.now) }
{
    know_tables(catalogue.tables());
    let mut phases = Phases::new(alloc, workers, sizes);
    let table = table_behind(
        rt,
        gate,
        &mut phases,
        alloc,
        p.lets.as_slice(),
        &p.main,
        catalogue,
    )?;
    let report = phases.into_report();
    Ok(Answer { table, report })
}
