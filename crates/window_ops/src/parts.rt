//! The parts of an expression that is ready to be evaluated at so many rows from one on. Each call hands the fact on to the call on the
//! part, which stands in a cycle of calls.
ghost use Rattle.std.specs.Prelude.{◌≡◌, ◌≤◌, ◌+◌, length};
ghost use Rattle.kql_cells.specs.Named.{HasDistinctNames, column_name};
ghost use Rattle.kql_cells.specs.Table.{IsGrid};
ghost use Rattle.kql_bound.specs.declared.expr.BExpr.TheVariants as expr;
ghost use Rattle.kql_functions.specs.declared.window.Window.TheVariants as window;
ghost use Rattle.window_ops.specs.Calls.{call_of, carry_of, first_of};
ghost use Rattle.window_ops.specs.Fitting.{AllFitRows, AreReady, IsReady, LinksReady};

use crate::carries::Carry;
use kql_bound::{BExpr, Exprs, Link, Links};
use kql_items::Boxed;
use kql_values::Table;

pub(crate) fn part<'a>(
    e: &'a Boxed<BExpr>,
    _t: &Table,
    _from: usize,
    _count: usize,
    _carries: &[Carry],
) -> &'a BExpr
    requires ready { IsReady e.now _t.now _from _count _carries.now }
    ensures value { result.now ≡ e.now }
    ensures ready { IsReady result.now _t.now _from _count _carries.now }
{
    e.get()
}

pub(crate) fn parts<'a>(
    es: &'a Exprs,
    _t: &Table,
    _from: usize,
    _count: usize,
    _carries: &[Carry],
) -> &'a [BExpr]
    requires ready { AreReady es.now _t.now _from _count _carries.now }
    ensures items { result.now ≡ es.now }
    ensures ready { AreReady result.now _t.now _from _count _carries.now }
{
    es.as_slice()
}

pub(crate) fn link_parts<'a>(
    links: &'a Links,
    _t: &Table,
    _from: usize,
    _count: usize,
    _carries: &[Carry],
) -> &'a [Link]
    requires ready { LinksReady links.now _t.now _from _count _carries.now }
    ensures items { result.now ≡ links.now }
    ensures ready { LinksReady result.now _t.now _from _count _carries.now }
{
    links.as_slice()
}

pub(crate) fn item_part<'a>(
    e: &'a BExpr,
    _t: &Table,
    _from: usize,
    _count: usize,
    _carries: &[Carry],
) -> &'a BExpr
    requires ready { IsReady e.now _t.now _from _count _carries.now }
    ensures value { result.now ≡ e.now }
    ensures ready { IsReady result.now _t.now _from _count _carries.now }
{
    e
}

pub(crate) fn link_part<'a>(
    link: &'a Link,
    _t: &Table,
    _from: usize,
    _count: usize,
    _carries: &[Carry],
) -> &'a BExpr
    requires ready { IsReady link.now.1 _t.now _from _count _carries.now }
    ensures value { result.now ≡ link.now.1 }
    ensures ready { IsReady result.now _t.now _from _count _carries.now }
{
    &link.1
}

/// No two columns of a table have one name, and its rows fit them.
pub(crate) fn table_facts(t: &Table)
    ensures distinct { HasDistinctNames column_name t.now.columns }
    ensures fits { IsGrid t.now }
{
    let schema = t.schema();
    let _columns = schema.columns();
}

/// The arguments of a `row_cumsum`, of which there is one at least, and its carry.
#[tactic(auto, using(crate::proofs::ReadySteps::sum_parts))]
pub(crate) fn sum_parts<'a>(
    _e: &BExpr,
    args: &'a Exprs,
    _t: &Table,
    _from: usize,
    _count: usize,
    _carries: &[Carry],
) -> &'a [BExpr]
    requires sum { _e.now ≡ expr.Window window.RowCumsum args.now }
    requires ready { IsReady _e.now _t.now _from _count _carries.now }
    ensures items { result.now ≡ args.now }
    ensures fits { AllFitRows _t.now.columns result.now }
    ensures some { 1 ≤ length result.now }
    ensures range { _from + _count ≤ length _t.now.lines }
    ensures carry { first_of _carries.now ≡ carry_of (call_of window.RowCumsum result.now) _t.now 0 _from }
{
    args.as_slice()
}

/// The arguments of a `row_number`, and its carry.
#[tactic(auto, using(crate::proofs::ReadySteps::number_parts))]
pub(crate) fn number_parts<'a>(
    _e: &BExpr,
    args: &'a Exprs,
    _t: &Table,
    _from: usize,
    _count: usize,
    _carries: &[Carry],
) -> &'a [BExpr]
    requires number { _e.now ≡ expr.Window window.RowNumber args.now }
    requires ready { IsReady _e.now _t.now _from _count _carries.now }
    ensures items { result.now ≡ args.now }
    ensures fits { AllFitRows _t.now.columns result.now }
    ensures range { _from + _count ≤ length _t.now.lines }
    ensures carry { first_of _carries.now ≡ carry_of (call_of window.RowNumber result.now) _t.now 0 _from }
{
    args.as_slice()
}
