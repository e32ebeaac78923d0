//! The machine: one step of a scan after another.
ghost use Rattle.std.specs.Prelude.{◌≡◌, ◌<◌, ◌++◌, length, IfOk};
ghost use Rattle.kql_meaning.specs.Scan.{machine_at_start, row_turn, rows_at_end};
ghost use Rattle.kql_values.specs.Grids.{HaveLength};
ghost use Rattle.scan_ops.specs.Runs.{width_of};
ghost use Rattle.scan_ops.specs.Steps.{AreStepsScalar};

use crate::emit::emit_ends;
use crate::run::{Run, empty_states, take_row};
use crate::state::State;
use crate::step::{Step, located_steps};
use kql_bound::ScanPlan;
use kql_cells::Schema;
use kql_values::{Rows, Table};
use std::alloc::{AllocError, Global};
use std::marker::Model;

/// A machine that takes rows through the steps of a scan, one after another, and emits rows behind others.
///
/// It goes over tables that have the declared columns behind those of the input, at their defaults. Contracts see the scan, the columns
/// of these tables, and the machine: the states of the steps and the number of sequences begun. An emitted row has the columns of such a
/// table, and the match id where that has a name.
#[derive(Drop)]
pub struct ScanMachine<'a> {
    plan: &'a ScanPlan,
    schema: &'a Schema,
    steps: Vec<Step<'a>>,
    states: Vec<State>,
    begun: u64,
}

impl<'a> Model for ScanMachine<'a> {
    ghost use Rattle.std.specs.Prelude.{◌≡◌, length, map};
    ghost use Rattle.std.specs.Coded.{codes};
    ghost use Rattle.kql_cells.specs.contracts.dynamic.Dyn as dynamic;
    ghost use Rattle.kql_bound.specs.contracts.expr.BExpr as bexpr;
    ghost use Rattle.scan_ops.specs.Runs.{AreStates, Scanning, machine_of};
    ghost use Rattle.scan_ops.specs.Steps.{placed_step};

    ghost Value = { Scanning };

    ghost coded = { Prim.hlevel (codes, bexpr.the_row.coded, dynamic.the_row.coded) };

    ghost view = { λ m. record { plan = m.plan.now; columns = m.schema.now; machine = machine_of m.states.items m.begun } };

    ghost invariant = { λ m. (m.steps.items ≡ map (placed_step m.schema.now) m.plan.now.steps)
        × (length m.states.items ≡ length m.plan.now.steps)
        × AreStates (length m.plan.now.steps) (length m.schema.now) m.states.items };
}

#[tactic(auto, using(crate::proofs::MachineFacts::machine_facts))]
impl<'a> ScanMachine<'a> {
    /// A machine in which all states are empty.
    pub fn new(
        alloc: Global,
        plan: &'a ScanPlan,
        schema: &'a Schema,
    ) -> Result<ScanMachine<'a>, AllocError>
        requires scalar { AreStepsScalar plan.now.steps }
        ensures start { IfOk result (λ m. m ≡ record { plan = plan.now; columns = schema.now; machine = machine_at_start plan.now }) }
    {
        let steps = located_steps(alloc, plan.steps.as_slice(), schema)?;
        let states = empty_states(alloc, plan.steps.len())?;
        Ok(ScanMachine {
            plan,
            schema,
            steps,
            states,
            begun: 0,
        })
    }

    /// Takes a row of a table through the steps, from the last to the first, and puts what they emit behind the rows of `out`.
    pub fn feed(
        self,
        alloc: Global,
        t: &Table,
        i: usize,
        out: Rows,
    ) -> Result<(ScanMachine<'a>, Rows), AllocError>
        requires columns { t.now.columns ≡ self.columns }
        requires row { i < length t.now.lines }
        requires width { HaveLength (width_of self.plan (length self.columns)) out }
        ensures machine { IfOk result (λ r. r.0 ≡ record { plan = self.entry.plan; columns = self.entry.columns; machine = (row_turn self.entry.plan t.now self.entry.machine i).machine }) }
        ensures rows { IfOk result (λ r. r.1 ≡ out ++ (row_turn self.entry.plan t.now self.entry.machine i).emitted) }
        ensures width { IfOk result (λ r. HaveLength (width_of self.entry.plan (length self.entry.columns)) r.1) }
    {
        let ScanMachine {
            plan,
            schema,
            steps,
            states,
            begun,
        } = self;
        let mut run = Run {
            states,
            begun,
            emitted: out,
        };
        take_row(alloc, plan, t, i, steps.as_slice(), &mut run)?;
        let Run {
            states,
            begun,
            emitted,
        } = run;
        let machine = ScanMachine {
            plan,
            schema,
            steps,
            states,
            begun,
        };
        Ok((machine, emitted))
    }

    /// Puts the records that the steps hold which emit their last ones behind the rows of `out`.
    pub fn finish(self, alloc: Global, out: Rows) -> Result<Rows, AllocError>
        requires width { HaveLength (width_of self.plan (length self.columns)) out }
        ensures rows { IfOk result (λ r. r ≡ out ++ rows_at_end self.entry.plan self.entry.machine) }
    {
        let ScanMachine {
            plan,
            schema,
            steps: _,
            states,
            begun,
        } = self;
        let mut emitted = out;
        emit_ends(
            alloc,
            plan,
            states.as_slice(),
            schema.len(),
            begun,
            &mut emitted,
        )?;
        Ok(emitted)
    }
}
