//! The scan of a whole table.
ghost use Rattle.std.specs.Prelude.{◌≡◌, ◌<◌, ◌++◌, [], length, map, All, IfOk, IsTrue};
ghost use Rattle.kql_cells.specs.Named.{HasDistinctNames, column_name};
ghost use Rattle.kql_cells.specs.Table.{IsGrid};
ghost use Rattle.kql_meaning.specs.Scan.{rows_at_end, scan_columns, scan_rows, scan_table};
ghost use Rattle.kql_values.specs.Grids.{HaveLength};
ghost use Rattle.scan_ops.specs.Runs.{IsRun, turn_of, width_of};
ghost use Rattle.scan_ops.specs.Scans.{rows_scanned};
ghost use Rattle.scan_ops.specs.Steps.{AreStepsScalar, placed_step, scan_answers};

use crate::emit::emit_ends;
use crate::extended::{declare, with_declared};
use crate::run::{Run, started, take_row};
use crate::step::{Step, located_steps};
use kql_bound::ScanPlan;
use kql_cells::Schema;
use kql_columns::scan_columns;
use kql_values::{Rows, Table};
use std::alloc::{AllocError, Global};

/// `scan`: the rows taken through the steps one after another, and the records that are emitted in their order, with the declared columns and
/// the match id.
///
/// Where columns are declared, the machine goes over a copy of the table that has them.
#[tactic(auto, using(crate::proofs::ScanFacts::scan_facts))]
pub fn scan_rows(alloc: Global, t: &Table, s: &ScanPlan) -> Result<Table, AllocError>
    requires fits { IsTrue (scan_answers s.now t.now.columns) }
    ensures table { IfOk result (λ r. r ≡ scan_table s.now t.now) }
{
    let none = empty_answer(alloc, t, s)?;
    if s.declared.is_empty() {
        let plain = answered(alloc, none, s, t)?;
        return Ok(plain);
    }
    let extended = with_declared(alloc, s, t)?;
    let made = answered(alloc, none, s, &extended)?;
    Ok(made)
}

/// The same of a table that is the caller's own, which is not copied.
#[tactic(auto, using(crate::proofs::ScanFacts::scan_facts))]
pub fn scan_owned(alloc: Global, t: Table, s: &ScanPlan) -> Result<Table, AllocError>
    requires fits { IsTrue (scan_answers s.now t.columns) }
    ensures table { IfOk result (λ r. r ≡ scan_table s.now t) }
{
    let none = empty_answer(alloc, &t, s)?;
    let mut extended = t;
    declare(alloc, s, &mut extended)?;
    let made = answered(alloc, none, s, &extended)?;
    Ok(made)
}

/// The table of a scan's answer, without rows. The input is a table whose names differ and whose rows fit.
#[tactic(auto, using(crate::proofs::ScanFacts::answer_facts))]
pub(crate) fn empty_answer(alloc: Global, t: &Table, s: &ScanPlan) -> Result<Table, AllocError>
    requires fits { IsTrue (scan_answers s.now t.now.columns) }
    ensures parts { IfOk result (λ r. r ≡ record { columns = scan_columns s.now t.now.columns; lines = [] }) }
    ensures names { HasDistinctNames column_name t.now.columns }
    ensures grid { IsGrid t.now }
{
    let columns = scan_columns(alloc, s, t.schema().columns())?;
    let made = Table::empty(alloc, Schema::from_items(columns))?;
    Ok(made)
}

// The table of the rows that a scan emits, of a table with the declared columns.
#[tactic(auto, using(crate::proofs::ScanFacts::made_facts))]
fn answered(alloc: Global, none: Table, s: &ScanPlan, extended: &Table) -> Result<Table, AllocError>
    requires scalar { AreStepsScalar s.now.steps }
    requires fits { IsGrid (record { columns = none.columns; lines = scan_rows s.now extended.now }) }
    requires none { none.lines ≡ [] }
    ensures table { IfOk result (λ t. t ≡ record { columns = none.columns; lines = scan_rows s.now extended.now }) }
{
    let (schema, out) = none.into_parts();
    let rows = emitted_rows(alloc, s, extended, out)?;
    let made = Table::new(alloc, schema, rows)?;
    Ok(made)
}

// The rows that a scan emits, behind none, of a table with the declared columns.
#[tactic(auto, using(crate::proofs::ScanFacts::rows_facts))]
fn emitted_rows(alloc: Global, s: &ScanPlan, t: &Table, out: Rows) -> Result<Rows, AllocError>
    requires scalar { AreStepsScalar s.now.steps }
    requires none { out ≡ [] }
    ensures rows { IfOk result (λ r. r ≡ scan_rows s.now t.now) }
{
    let steps = located_steps(alloc, s.steps.as_slice(), t.schema())?;
    let mut run = started(alloc, s, t, out)?;
    'each: for i in 0..t.len() {
        take_row(alloc, s, t, i, steps.as_slice(), &mut run)?;
    }
    let rows = ended(alloc, s, t, run)?;
    Ok(rows)
}

/// The rows at these places taken through a new machine, and what it emits behind the rows of `out`.
#[tactic(auto, using(crate::proofs::ScanFacts::place_facts))]
pub(crate) fn scan_at(
    alloc: Global,
    s: &ScanPlan,
    t: &Table,
    steps: &[Step<'_>],
    places: &[usize],
    out: Rows,
) -> Result<Rows, AllocError>
    requires steps { steps.now ≡ map (placed_step t.now.columns) s.now.steps }
    requires within { All (λ i. i < length t.now.lines) places.now }
    requires width { HaveLength (width_of s.now (length t.now.columns)) out }
    ensures rows { IfOk result (λ r. r ≡ out ++ rows_scanned s.now t.now places.now) }
    ensures width { IfOk result (λ r. HaveLength (width_of s.now (length t.now.columns)) r) }
{
    let mut run = started(alloc, s, t, out)?;
    'each: for place in places {
        take_row(alloc, s, t, *place, steps, &mut run)?;
    }
    let rows = ended(alloc, s, t, run)?;
    Ok(rows)
}

// What was emitted, and behind it what the steps hold that emit their last records.
#[tactic(auto, using(crate::proofs::ScanFacts::end_facts))]
fn ended(alloc: Global, s: &ScanPlan, t: &Table, run: Run) -> Result<Rows, AllocError>
    requires run { IsRun s.now t.now.columns run }
    ensures rows { IfOk result (λ r. r ≡ run.emitted ++ rows_at_end s.now (turn_of run).machine) }
    ensures width { IfOk result (λ r. HaveLength (width_of s.now (length t.now.columns)) r) }
{
    let Run {
        states,
        begun,
        mut emitted,
    } = run;
    emit_ends(
        alloc,
        s,
        states.as_slice(),
        t.schema().len(),
        begun,
        &mut emitted,
    )?;
    Ok(emitted)
}
