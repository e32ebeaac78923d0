//! Whether a scan fits the columns of the table before it.
ghost use Rattle.std.specs.Prelude.{◌≡◌, IfOk};
ghost use Rattle.std.specs.List.{list_all};
ghost use Rattle.kql_meaning.specs.FittingOperators.{assigns_one, defaults_fit, scan_fits, scan_step_fits, set_fits, step_names};
ghost use Rattle.kql_meaning.specs.Scan.{defaults_of};
ghost use Rattle.kql_meaning.specs.Tables.{absent_row};
ghost use Rattle.kql_meaning.specs.Values.{absent};

use crate::fit_expressions::{expr_fits, fits_as};
use crate::fit_operators::{are_distinct, is_empty};
use crate::kind_tests::{KindTest, same_known};
use crate::literals::literal_fits;
use crate::scope::Scope;
use kql_bound::{BExpr, BItem, Decl, ScanPlan, ScanStep};
use kql_cells::{Column, KText, Kind, Names, Value, Values, copy_columns};
use kql_columns::{declared_columns, items_names};
use kql_items::Items;
use kql_meaning::{Position, column_kind, kind_of};
use std::alloc::{AllocError, Global};

// Names and values.

#[tactic(auto, unfolding(kql_meaning::specs::FittingOperators::step_names))]
fn step_names(alloc: Global, steps: &[ScanStep]) -> Result<Names, AllocError>
    ensures names { IfOk result (λ ns. ns ≡ step_names steps.now) }
{
    let mut names = Items::with_capacity(alloc, steps.len())?;
    for step in steps {
        let name = step.name.copy(alloc)?;
        names.push(name)?;
    }
    Ok(names)
}

#[tactic(auto, unfolding(kql_meaning::specs::Values::absent))]
fn absent(alloc: Global, kind: Kind) -> Value
    ensures absent { result ≡ absent kind }
{
    match kind {
        Kind::Text => Value::Text(KText::new(alloc)),
        _ => Value::Null,
    }
}

#[tactic(auto, unfolding(kql_meaning::specs::Tables::absent_row))]
fn absent_row(alloc: Global, columns: &[Column]) -> Result<Values, AllocError>
    ensures values { IfOk result (λ vs. vs ≡ absent_row columns.now) }
{
    let mut values = Items::with_capacity(alloc, columns.len())?;
    for column in columns {
        values.push(absent(alloc, column.kind))?;
    }
    Ok(values)
}

fn copy_value(alloc: Global, value: &Value) -> Result<Value, AllocError>
    ensures same { IfOk result (λ v. v ≡ value.now) }
{
    kql_cells::clone_value(alloc, value)
}

#[tactic(auto, unfolding(kql_meaning::specs::Scan::defaults_of))]
fn defaults_of(alloc: Global, declared: &[Decl]) -> Result<Values, AllocError>
    ensures values { IfOk result (λ vs. vs ≡ defaults_of declared.now) }
{
    let mut values = Items::with_capacity(alloc, declared.len())?;
    for decl in declared {
        let value = copy_value(alloc, &decl.default.value)?;
        values.push(value)?;
    }
    Ok(values)
}

// Steps.

#[tactic(auto, unfolding(kql_meaning::specs::FittingOperators::assigns_one))]
fn assigns_one(
    alloc: Global,
    e: &BExpr,
    name: &str,
    declared: &[Column],
    scope: &Scope<'_>,
) -> Result<bool, AllocError>
    ensures fits { IfOk result (λ b. b ≡ assigns_one declared.now scope.now e.now name.now) }
{
    if !expr_fits(alloc, e, scope, Position::Plain)? {
        return Ok(false);
    }
    let kind = kind_of(alloc, e, scope.columns)?;
    Ok(same_known(column_kind(name, declared), kind))
}

#[tactic(auto, unfolding(kql_meaning::specs::FittingOperators::set_fits, kql_meaning::specs::FittingOperators::assigns))]
fn set_fits(
    alloc: Global,
    item: &BItem,
    declared: &[Column],
    scope: &Scope<'_>,
) -> Result<bool, AllocError>
    ensures fits { IfOk result (λ b. b ≡ set_fits declared.now scope.now item.now) }
{
    let Some((name, more)) = item.names.as_slice().split_first() else {
        return Ok(false);
    };
    if !is_empty(more) {
        return Ok(false);
    }
    assigns_one(alloc, &item.expr, name.as_str(), declared, scope)
}

fn sets_fit(
    alloc: Global,
    sets: &[BItem],
    declared: &[Column],
    scope: &Scope<'_>,
) -> Result<bool, AllocError>
    ensures fit { IfOk result (λ b. b ≡ list_all (set_fits declared.now scope.now) sets.now) }
{
    let mut left = sets;
    'sets: while let Some((set, more)) = left.split_first() {
        if !set_fits(alloc, set, declared, scope)? {
            return Ok(false);
        }
        left = more;
    }
    Ok(true)
}

#[tactic(auto, unfolding(kql_meaning::specs::FittingOperators::scan_step_fits))]
fn scan_step_fits(
    alloc: Global,
    step: &ScanStep,
    declared: &[Column],
    scope: &Scope<'_>,
) -> Result<bool, AllocError>
    ensures fits { IfOk result (λ b. b ≡ scan_step_fits declared.now scope.now step.now) }
{
    if !fits_as(
        alloc,
        KindTest::This(Kind::Bool),
        &step.condition,
        scope,
        Position::Plain,
    )? {
        return Ok(false);
    }
    if !sets_fit(alloc, step.sets.as_slice(), declared, scope)? {
        return Ok(false);
    }
    let names = items_names(alloc, step.sets.as_slice())?;
    Ok(are_distinct(names.as_slice()))
}

fn scan_steps_fit(
    alloc: Global,
    steps: &[ScanStep],
    declared: &[Column],
    scope: &Scope<'_>,
) -> Result<bool, AllocError>
    ensures fit { IfOk result (λ b. b ≡ list_all (scan_step_fits declared.now scope.now) steps.now) }
{
    let mut left = steps;
    'steps: while let Some((step, more)) = left.split_first() {
        if !scan_step_fits(alloc, step, declared, scope)? {
            return Ok(false);
        }
        left = more;
    }
    Ok(true)
}

#[tactic(auto, unfolding(kql_meaning::specs::FittingOperators::defaults_fit))]
fn defaults_fit(declared: &[Decl]) -> bool
    ensures fit { result ≡ defaults_fit declared.now }
{
    let mut left = declared;
    'declared: while let Some((decl, more)) = left.split_first() {
        if !literal_fits(&decl.default) {
            return false;
        }
        left = more;
    }
    true
}

/// Whether a scan fits.
#[tactic(auto, unfolding(kql_meaning::specs::FittingOperators::scan_fits, kql_meaning::specs::FittingOperators::scan_scope, kql_meaning::specs::Scan::declared_defaults))]
pub(crate) fn scan_fits(
    alloc: Global,
    scan: &ScanPlan,
    columns: &[Column],
) -> Result<bool, AllocError>
    ensures fits { IfOk result (λ b. b ≡ scan_fits scan.now columns.now) }
{
    if !defaults_fit(scan.declared.as_slice()) {
        return Ok(false);
    }
    let names = step_names(alloc, scan.steps.as_slice())?;
    if !are_distinct(names.as_slice()) {
        return Ok(false);
    }
    let declared = declared_columns(alloc, scan)?;
    let mut all = copy_columns(alloc, columns)?;
    all.append(copy_columns(alloc, declared.as_slice())?)?;
    let mut defaults = absent_row(alloc, columns)?;
    defaults.append(defaults_of(alloc, scan.declared.as_slice())?)?;
    let scope = Scope {
        columns: all.as_slice(),
        steps: names.as_slice(),
        defaults: defaults.as_slice(),
    };
    scan_steps_fit(alloc, scan.steps.as_slice(), declared.as_slice(), &scope)
}
