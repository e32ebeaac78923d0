ghost use Rattle.std.specs.Prelude.{◌≡◌, slice_get};
ghost use Rattle.std.specs.List.{list_all};
ghost use Rattle.std.specs.Option.{option_copied};
ghost use Rattle.kql_meaning.specs.FittingExpressions.{column_of, is_plain_column, is_this_column, is_this_name, is_this_value, scope_of, step_fits};
ghost use Rattle.kql_meaning.specs.Values.{same_key};

use crate::literals::literal_fits;
use kql_bound::{BExpr, StepColumn};
use kql_cells::{Column, KText, Kind, Value};
use kql_columns::has_column;
use kql_functions::same_kind;
use std::marker::Model;

/// What an expression may read: columns, and in scan the steps by name with what each column of an absent record gives.
#[derive(Drop)]
pub(crate) struct Scope<'a> {
    pub(crate) columns: &'a [Column],
    pub(crate) steps: &'a [KText],
    pub(crate) defaults: &'a [Value],
}

impl<'a> Model for Scope<'a> {
    ghost use Rattle.kql_meaning.specs.FittingExpressions.{Scope as ScopeSeen};
    ghost use Rattle.std.specs.Coded.{codes};
    ghost use Rattle.kql_cells.specs.contracts.dynamic.Dyn as dynamic;

    ghost Value = { ScopeSeen };

    ghost coded = { Prim.hlevel (codes, dynamic.the_row.coded) };

    ghost view = { λ s. record { columns = s.columns.now; steps = s.steps.now; defaults = s.defaults.now } };
}

/// Columns alone, as everywhere outside scan.
pub(crate) fn scope_of(columns: &[Column]) -> Scope<'_>
    ensures columns { result ≡ scope_of columns.now }
{
    Scope {
        columns,
        steps: &[],
        defaults: &[],
    }
}

// The name of the column that an expression is.
#[tactic(auto, using(kql_meaning::proofs::ExpressionFitLaws::column_steps))]
fn column_of(e: &BExpr) -> Option<&str>
    ensures column { option_copied result ≡ column_of e.now }
{
    match e {
        BExpr::Literal(_) => None,
        BExpr::Column(name) => Some(name.as_str()),
        BExpr::Step(_) => None,
        BExpr::Call(_, _) => None,
        BExpr::Chain(_, _) => None,
        BExpr::Path(_, _) => None,
        BExpr::Window(_, _) => None,
        BExpr::Aggregate(_, _) => None,
    }
}

/// Whether an expression is a column alone that is there.
#[tactic(auto, unfolding(kql_meaning::specs::FittingExpressions::is_plain_column, kql_meaning::specs::FittingExpressions::stands_in_if_column))]
pub(crate) fn is_plain_column(columns: &[Column], e: &BExpr) -> bool
    ensures plain { result ≡ is_plain_column columns.now e.now }
{
    match column_of(e) {
        None => false,
        Some(name) => has_column(name, columns),
    }
}

/// Whether each of these is one.
pub(crate) fn are_plain_columns(columns: &[Column], es: &[BExpr]) -> bool
    ensures plain { result ≡ list_all (is_plain_column columns.now) es.now }
{
    let mut left = es;
    'columns: while let Some((e, more)) = left.split_first() {
        if !is_plain_column(columns, e) {
            return false;
        }
        left = more;
    }
    true
}

/// Whether a step column's number, place and default are those of its step and its column, and the default has the column's type.
#[tactic(auto, unfolding(kql_meaning::specs::FittingExpressions::step_fits))]
pub(crate) fn step_fits(scope: &Scope<'_>, c: &StepColumn) -> bool
    ensures fits { result ≡ step_fits scope.now c.now }
{
    if c.number < 1 {
        return false;
    }
    is_this_name(scope.steps, c.number - 1, c.step.as_str())
        && is_this_column(scope.columns, c.place, c.column.as_str(), c.default.kind)
        && is_this_value(scope.defaults, c.place, &c.default.value)
        && literal_fits(&c.default)
}

#[tactic(auto, unfolding(kql_meaning::specs::FittingExpressions::is_this_name))]
fn is_this_name(names: &[KText], at: usize, name: &str) -> bool
    ensures is { result ≡ is_this_name (slice_get names.now at) name.now }
{
    match names.get(at) {
        None => false,
        Some(other) => other.as_str() == name,
    }
}

#[tactic(auto, unfolding(kql_meaning::specs::FittingExpressions::is_this_column))]
fn is_this_column(columns: &[Column], at: usize, name: &str, kind: Kind) -> bool
    ensures is { result ≡ is_this_column (slice_get columns.now at) name.now kind }
{
    match columns.get(at) {
        None => false,
        Some(column) => column.name.as_str() == name && same_kind(column.kind, kind),
    }
}

#[tactic(auto, unfolding(kql_meaning::specs::FittingExpressions::is_this_value))]
fn is_this_value(values: &[Value], at: usize, value: &Value) -> bool
    ensures is { result ≡ is_this_value (slice_get values.now at) value.now }
{
    match values.get(at) {
        None => false,
        Some(other) => same_key(other, value),
    }
}

fn same_key(a: &Value, b: &Value) -> bool
    ensures same { result ≡ same_key a.now b.now }
{
    kql_cells::same_key(a, b)
}
