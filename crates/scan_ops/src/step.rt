//! A step of a scan whose condition and assignments are located.
ghost use Rattle.std.specs.Prelude.{◌≡◌, ◌↔◌, ◌<◌, find, length, map, All, IfOk, IfSome, IsTrue};
ghost use Rattle.std.specs.Option.{option_copied};
ghost use Rattle.kql_cells.specs.Seen.{seen};
ghost use Rattle.kql_cells.specs.Values.{IsWellFormed};
ghost use Rattle.kql_scalar_fns.specs.Arguments.{AreWellFormed};
ghost use Rattle.kql_meaning.specs.Expressions.{val};
ghost use Rattle.kql_meaning.specs.Scan.{new_record};
ghost use Rattle.kql_meaning.specs.Tables.{cell_in, is_name_among};
ghost use Rattle.kql_meaning.specs.Values.{holds};
ghost use Rattle.kql_scalar.specs.Evaluated.{AreSound};
ghost use Rattle.scan_ops.specs.Steps.{AreSetsScalar, AreStepsScalar, IsSourceIn, IsStepScalar, placed_step, source_at, sourced};

use kql_bound::{BItem, Output, ScanStep};
use kql_cells::{CellRef, Column, Schema};
use kql_columns::is_name_among;
use kql_items::Items;
use kql_scalar::{Located, is_scalar};
use kql_values::{Row, Table, Value};
use std::alloc::{AllocError, Global};
use std::marker::Model;

/// Where a column of a new record comes from.
#[derive(Drop)]
pub(crate) enum Source {
    /// The cell of the row at a place.
    Cell(Option<usize>),
    /// What is assigned.
    Value(Located),
}

/// A step, its condition, and for each column of a record where it comes from.
///
/// Contracts see the step and the columns.
#[derive(Drop)]
pub(crate) struct Step<'a> {
    step: &'a ScanStep,
    condition: Located,
    sources: Vec<Source>,
}

impl<'a> Model for Step<'a> {
    ghost use Rattle.std.specs.Prelude.{◌≡◌, map};
    ghost use Rattle.std.specs.Coded.{codes};
    ghost use Rattle.kql_bound.specs.contracts.expr.BExpr as bexpr;
    ghost use Rattle.scan_ops.specs.Steps.{PlacedStep, source_at};

    ghost Value = { PlacedStep };

    ghost coded = { Prim.hlevel (codes, bexpr.the_row.coded) };

    ghost view = { λ s. record { step = s.step.now; columns = s.condition.columns } };

    ghost invariant = { λ s. (s.condition.expr ≡ s.step.now.condition)
        × (s.sources.items ≡ map (source_at s.step.now.sets s.condition.columns) s.condition.columns) };
}

#[tactic(auto, using(crate::proofs::StepFacts::step_facts))]
impl<'a> Step<'a> {
    /// A step over these columns, located once.
    pub(crate) fn new(
        alloc: Global,
        step: &'a ScanStep,
        schema: &Schema,
    ) -> Result<Step<'a>, AllocError>
        requires scalar { IsStepScalar step.now }
        ensures parts { IfOk result (λ s. s ≡ record { step = step.now; columns = schema.now }) }
    {
        let condition = Located::new(alloc, &step.condition, schema)?;
        let sources = sources(alloc, step.sets.as_slice(), schema)?;
        Ok(Step {
            step,
            condition,
            sources,
        })
    }

    /// When its records are emitted.
    pub(crate) fn output(&self) -> Output
        ensures output { result ≡ self.now.step.output }
    {
        self.step.output
    }

    /// Whether its condition is true at a row, with step records.
    pub(crate) fn is_true_at(
        &self,
        alloc: Global,
        t: &Table,
        i: usize,
        s: &[Option<Row>],
    ) -> Result<bool, AllocError>
        requires columns { t.now.columns ≡ self.now.columns }
        requires row { i < length t.now.lines }
        requires records { AreSound s.now }
        ensures truth { IfOk result (λ b. b ≡ holds (val self.now.step.condition t.now i s.now)) }
    {
        let truth = self.condition.is_true_at(alloc, t, i, s)?;
        Ok(truth)
    }

    /// The record of a row, with its assignments.
    pub(crate) fn record(
        &self,
        alloc: Global,
        t: &Table,
        i: usize,
        s: &[Option<Row>],
    ) -> Result<Row, AllocError>
        requires columns { t.now.columns ≡ self.now.columns }
        requires row { i < length t.now.lines }
        requires records { AreSound s.now }
        ensures line { IfOk result (λ r. r ≡ new_record self.now.step t.now i s.now) }
        ensures form { IfOk result AreWellFormed }
    {
        let record = record_of(alloc, self.sources.as_slice(), t, i, s)?;
        Ok(record)
    }
}

// What sources give at a row.
#[tactic(auto, using(crate::proofs::StepFacts::record_facts))]
fn record_of(
    alloc: Global,
    sources: &[Source],
    t: &Table,
    i: usize,
    s: &[Option<Row>],
) -> Result<Row, AllocError>
    requires inside { All (IsSourceIn t.now.columns) sources.now }
    requires row { i < length t.now.lines }
    requires records { AreSound s.now }
    ensures values { IfOk result (λ r. r ≡ map (sourced t.now i s.now) sources.now) }
    ensures form { IfOk result AreWellFormed }
{
    let mut line = Items::with_capacity(alloc, sources.len())?;
    'each: for source in sources {
        let value = value_of(alloc, source, t, i, s)?;
        line.push(value)?;
    }
    Ok(line)
}

#[tactic(auto, using(crate::proofs::StepFacts::value_facts))]
fn value_of(
    alloc: Global,
    source: &Source,
    t: &Table,
    i: usize,
    s: &[Option<Row>],
) -> Result<Value, AllocError>
    requires inside { IsSourceIn t.now.columns source.now }
    requires row { i < length t.now.lines }
    requires records { AreSound s.now }
    ensures value { IfOk result (λ v. v ≡ sourced t.now i s.now source.now) }
    ensures form { IfOk result IsWellFormed }
{
    match source {
        Source::Cell(place) => cell_in(t, i, *place).to_value(alloc),
        Source::Value(located) => {
            let lent = located.value(alloc, t, i, s)?;
            lent.into_value(alloc)
        }
    }
}

// The cell in the column at a place.
#[tactic(auto, using(crate::proofs::StepFacts::cell_facts))]
fn cell_in(t: &Table, i: usize, place: Option<usize>) -> CellRef<'_>
    requires row { i < length t.now.lines }
    requires column { IfSome place (λ j. j < length t.now.columns) }
    ensures value { seen result ≡ cell_in t.now i place }
    ensures form { IsWellFormed (seen result) }
{
    let _schema = t.schema();
    match place {
        None => CellRef::Null,
        Some(j) => t.cell(i, j),
    }
}

// Where each column of a record comes from.
#[tactic(auto, using(crate::proofs::StepFacts::source_facts))]
fn sources(alloc: Global, sets: &[BItem], schema: &Schema) -> Result<Vec<Source>, AllocError>
    requires scalar { AreSetsScalar sets.now }
    ensures sources { IfOk result (λ ss. ss.items ≡ map (source_at sets.now schema.now) schema.now) }
{
    let mut sources = Vec::new(alloc);
    let columns = schema.columns();
    'each: for column in columns {
        let source = source_of(alloc, sets, column, schema)?;
        sources.push(source)?;
    }
    Ok(sources)
}

#[tactic(auto, using(crate::proofs::StepFacts::set_facts))]
fn source_of(
    alloc: Global,
    sets: &[BItem],
    column: &Column,
    schema: &Schema,
) -> Result<Source, AllocError>
    requires scalar { AreSetsScalar sets.now }
    ensures source { IfOk result (λ s. s ≡ source_at sets.now schema.now column.now) }
{
    match set_of(sets, column.name.as_str()) {
        None => Ok(Source::Cell(schema.find(column.name.as_str()))),
        Some(set) => {
            let located = Located::new(alloc, &set.expr, schema)?;
            Ok(Source::Value(located))
        }
    }
}

// The assignment to a column, where there is one.
fn set_of<'a>(sets: &'a [BItem], name: &str) -> Option<&'a BItem>
    ensures set { option_copied result ≡ find (λ (b : BItem). is_name_among b.names name.now) sets.now }
{
    let mut left = sets;
    'each: while let Some((set, more)) = left.split_first() {
        if is_name_among(set.names.as_slice(), name) {
            return Some(set);
        }
        left = more;
    }
    None
}

/// Whether no aggregate stands in the steps, and each of their literals is well formed.
#[tactic(auto, using(crate::proofs::StepFacts::test_facts))]
pub fn are_steps_scalar(steps: &[ScanStep]) -> bool
    ensures scalar { IsTrue result ↔ AreStepsScalar steps.now }
{
    'each: for step in steps {
        if !is_step_scalar(step) {
            return false;
        }
    }
    true
}

// The same of one step.
#[tactic(auto, using(crate::proofs::StepFacts::one_facts))]
fn is_step_scalar(step: &ScanStep) -> bool
    ensures scalar { IsTrue result ↔ IsStepScalar step.now }
{
    is_scalar(&step.condition) && are_sets_scalar(step.sets.as_slice())
}

#[tactic(auto, using(crate::proofs::StepFacts::test_facts))]
fn are_sets_scalar(sets: &[BItem]) -> bool
    ensures scalar { IsTrue result ↔ AreSetsScalar sets.now }
{
    'each: for set in sets {
        if !is_scalar(&set.expr) {
            return false;
        }
    }
    true
}

/// The steps of a scan over these columns.
#[tactic(auto, using(crate::proofs::StepFacts::steps_facts))]
pub(crate) fn located_steps<'a>(
    alloc: Global,
    steps: &'a [ScanStep],
    schema: &Schema,
) -> Result<Vec<Step<'a>>, AllocError>
    requires scalar { AreStepsScalar steps.now }
    ensures steps { IfOk result (λ ss. ss.items ≡ map (placed_step schema.now) steps.now) }
{
    let mut located = Vec::with_capacity(alloc, steps.len())?;
    'each: for step in steps {
        let one = Step::new(alloc, step, schema)?;
        located.push(one)?;
    }
    Ok(located)
}
