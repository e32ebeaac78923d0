//! Phases, one after another.
ghost use Rattle.std.specs.Prelude.{◌≡◌, ◌∷◌, [], map, IfOk, IsFalse, IsTrue, OnOk, true};
ghost use Rattle.std.specs.List.{list_any};
ghost use Rattle.kql_bound.specs.declared.plan.Op.TheVariants as operator;
ghost use Rattle.kql_meaning.specs.Plans.{one_after_another, op_means};
ghost use Rattle.kql_plain.specs.AtHand.{OpsFit, world_of};
ghost use Rattle.kql_plain.specs.Inputs.{input_table};
ghost use Rattle.phase_laws.specs.Runs.{are_by_row, made_of};
ghost use Rattle.phase_forms.specs.Held.{holds_plan};
ghost use Rattle.phase_forms.specs.Phases.{first_rounds, ops_phases, told};
ghost use Rattle.phase_run.specs.Reports.{Tells};
ghost use Rattle.phase_run.specs.Works.{IsAlone};
ghost use Rattle.phase_forms.specs.declared.ahead.Form.TheVariants as phase_form;

use crate::alone::run_alone;
use crate::report::{PhaseReport, Phases};
use crate::rows::run_rows;
use kql_bound::Op;
use kql_outside::Gate;
use kql_plain::{Input, ops_input};
use kql_values::{Catalogue, Table};
use phase_forms::{Form, look_ahead};
use std::alloc::{AllocError, Global};
use std::thread::Threads;

/// What operators make of a table, one after another, phase by phase.
pub(crate) fn run_ops<'a, R: Threads + Sync, G: Gate + Sync>(
    rt: &R,
    gate: &G,
    phases: &mut Phases,
    alloc: Global,
    ops: &[Op],
    catalogue: &Catalogue,
    lets: &[Table],
    from: Input<'a>,
) -> Result<Input<'a>, AllocError>
    requires fits { OpsFit ops.now (world_of catalogue.now lets.now) (input_table from) }
    requires none { IsFalse (list_any holds_plan ops.now) }
    ensures table { IfOk result (λ t. input_table t ≡ one_after_another (map op_means ops.now) (world_of catalogue.now lets.now) (input_table from.entry)) }
    ensures told { OnOk result (Tells phases.old phases.new (λ many. ops_phases many ops.now)) }
{
    let mut made = from;
    let mut left = ops;
    'rest: while let Some((op, more)) = left.split_first() {
        let next = look_ahead(op, more, phases.workers());
        let (phase, behind) = left.split_at(next.count);
        let table = run_phase(
            rt, gate, phases, alloc, next.form, phase, catalogue, lets, made,
        )?;
        made = table;
        left = behind;
    }
    Ok(made)
}

// What the operators of a phase make of a table.
#[tactic(auto, using(crate::proofs::AloneSteps::alone_steps))]
fn run_phase<'a, R: Threads + Sync, G: Gate + Sync>(
    rt: &R,
    gate: &G,
    phases: &mut Phases,
    alloc: Global,
    form: Form,
    ops: &[Op],
    catalogue: &Catalogue,
    lets: &[Table],
    from: Input<'a>,
) -> Result<Input<'a>, AllocError>
    requires fits { OpsFit ops.now (world_of catalogue.now lets.now) (input_table from) }
    requires same { form ≡ phase_form.Same → ops.now ≡ operator.Serialize ∷ [] }
    requires range { form ≡ phase_form.Range → IsTrue (are_by_row ops.now) }
    requires alone { form ≡ phase_form.Alone → IsAlone ops.now }
    ensures table { IfOk result (λ t. input_table t ≡ made_of ops.now (world_of catalogue.now lets.now) (input_table from.entry)) }
    ensures told { OnOk result (Tells phases.old phases.new (λ many. told form (first_rounds many ops.now))) }
{
    match form {
        Form::Same => Ok(from),
        Form::Range => {
            let table = run_range(
                rt,
                gate,
                phases,
                alloc,
                ops,
                catalogue,
                lets,
                from.as_table(),
            )?;
            Ok(Input::Owned(table))
        }
        Form::Alone => {
            let table = run_alone(rt, gate, phases, alloc, &ops[0], catalogue, lets, from)?;
            Ok(Input::Owned(table))
        }
        Form::Whole => {
            let made = ops_input(alloc, ops, catalogue, lets, from)?;
            phases.tell(PhaseReport::Whole)?;
            Ok(made)
        }
    }
}

// A phase by ranges of rows, which is told.
fn run_range<R: Threads + Sync, G: Gate + Sync>(
    rt: &R,
    gate: &G,
    phases: &mut Phases,
    alloc: Global,
    ops: &[Op],
    catalogue: &Catalogue,
    lets: &[Table],
    table: &Table,
) -> Result<Table, AllocError>
    requires fits { OpsFit ops.now (world_of catalogue.now lets.now) table.now }
    requires by_row { IsTrue (are_by_row ops.now) }
    ensures table { IfOk result (λ t. t ≡ made_of ops.now (world_of catalogue.now lets.now) table.now) }
    ensures told { OnOk result (Tells phases.old phases.new (λ many. true ∷ [])) }
{
    let workers = phases.workers();
    let number = phases.number();
    let sizes = phases.sizes();
    let ran = run_rows(
        rt, gate, alloc, workers, number, ops, catalogue, lets, table, sizes,
    )?;
    let made = phases.tell_pieces(ran)?;
    Ok(made)
}
