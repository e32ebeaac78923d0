//! Columns of the records of a scan's steps.
ghost use Rattle.std.specs.Prelude.{◌≡◌, ◌<◌, ◌+◌, [], IfOk, IfSome, Ok, Some, length, slice_index_or};
ghost use Rattle.bind_expr.specs.Outcome.{Answers};
ghost use Rattle.bind_expr.specs.Paths.{step_bound, step_column, step_named};
ghost use Rattle.kql_cells.specs.Named.{column_name, place_of};
ghost use Rattle.kql_cells.specs.declared.value.Value.TheVariants as value;

use crate::fault::BindFault;
use crate::scope::StepNames;
use crate::typed::{Typed, with_kind};
use kql_bound::{BExpr, Lit, StepColumn};
use kql_cells::{KText, Schema, Value, clone_value};
use kql_syntax::Word;
use std::alloc::{AllocError, Global};

/// Which step has this name, from 0.
#[tactic(auto, using(crate::proofs::StepFacts::place_facts), unfolding(crate::specs::Paths::step_named))]
pub(crate) fn step_named(steps: &StepNames, name: &str) -> Option<usize>
    ensures step { result ≡ step_named steps.now (Some name.now) }
    ensures within { IfSome result (λ i. i < length steps.now.names) }
{
    steps
        .names
        .as_slice()
        .iter()
        .position(|step| step.as_str() == name)
}

/// The place of the column of a name.
#[tactic(auto, using(crate::proofs::StepFacts::place_facts))]
fn column_named(columns: &Schema, name: &str) -> Option<usize>
    ensures place { result ≡ place_of column_name name.now columns.now }
    ensures within { IfSome result (λ p. p < length columns.now) }
{
    columns.find(name)
}

fn name_of_step(alloc: Global, steps: &StepNames, i: usize) -> Result<KText, AllocError>
    requires { i < length steps.now.names }
    ensures name { IfOk result (λ n. n ≡ slice_index_or steps.now.names i []) }
{
    steps.names.as_slice()[i].copy(alloc)
}

/// The number of the step at an index, from 1.
fn number_of(steps: &StepNames, i: usize) -> usize
    requires { i < length steps.now.names }
    ensures { result ≡ i + 1 }
{
    let count = steps.names.len();
    prove!(i < count);
    i + 1
}

/// What an absent record gives for the column at a place; null where nothing is said.
fn default_at(alloc: Global, steps: &StepNames, place: usize) -> Result<Value, AllocError>
    ensures value { IfOk result (λ v. v ≡ slice_index_or steps.now.defaults place value.Null) }
{
    match steps.defaults.get(place) {
        Some(value) => clone_value(alloc, value),
        None => Ok(Value::Null),
    }
}

/// The column at a place of the record that a step holds.
#[tactic(auto, using(crate::proofs::AnswerFacts::answer_steps), unfolding(crate::specs::Paths::step_column))]
fn step_column(alloc: Global, steps: &StepNames, i: usize, place: usize) -> Result<Typed, BindFault>
    requires step { i < length steps.now.names }
    requires place { place < length steps.now.columns }
    ensures exact { Answers result (Ok (step_column steps.now i place)) }
{
    let column = &steps.columns.columns()[place];
    match name_of_step(alloc, steps, i) {
        Ok(step) => match column.name.copy(alloc) {
            Ok(name) => match default_at(alloc, steps, place) {
                Ok(value) => with_kind(
                    alloc,
                    BExpr::Step(StepColumn {
                        step,
                        column: name,
                        number: number_of(steps, i),
                        place,
                        default: Lit {
                            kind: column.kind,
                            value,
                        },
                    }),
                    column.kind,
                ),
                Err(_) => Err(BindFault::OutOfMemory),
            },
            Err(_) => Err(BindFault::OutOfMemory),
        },
        Err(_) => Err(BindFault::OutOfMemory),
    }
}

/// The column of this name of the record that a step holds, or 401 at the name.
#[tactic(auto, using(crate::proofs::AnswerFacts::answer_steps), unfolding(crate::specs::Paths::step_bound))]
pub(crate) fn bind_step(
    alloc: Global,
    steps: &StepNames,
    i: usize,
    word: &Word,
) -> Result<Typed, BindFault>
    requires step { i < length steps.now.names }
    ensures exact { Answers result (step_bound steps.now i word.now) }
{
    match column_named(&steps.columns, word.text.as_str()) {
        Some(place) => step_column(alloc, steps, i, place),
        None => Err(BindFault::Refused {
            code: 401,
            place: word.place,
        }),
    }
}
