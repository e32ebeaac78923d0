//! What `row_cumsum` and `row_number` give at so many rows from one on, from the columns of their arguments.
ghost use Rattle.std.specs.Prelude.{◌≡◌, ◌≤◌, ◌+◌, IfOk, length, slice_get};
ghost use Rattle.kql_bound.specs.declared.expr.BExpr.TheVariants as expr;
ghost use Rattle.kql_functions.specs.declared.window.Window.TheVariants as window;
ghost use Rattle.window_ops.specs.Calls.{call_of, carry_of, term_named};
ghost use Rattle.window_ops.specs.Columns.{given_from, values_from, window_down};
ghost use Rattle.window_ops.specs.Fitting.{AllFitRows, FitsRows, IsReady};

use crate::calls::first_carry;
use crate::carries::Carry;
use crate::parts::{number_parts, sum_parts};
use crate::running::{row_numbers, running_sums};
use kql_bound::{BExpr, Exprs};
use kql_functions::Window;
use kql_meaning::kind_of;
use kql_scalar::Located;
use kql_values::{Table, Vector};
use std::alloc::{AllocError, Global};

/// What a window function gives.
#[tactic(auto, using(crate::proofs::FitSteps::window_parts, crate::proofs::DownSteps::window_steps))]
pub(crate) fn window_column(
    alloc: Global,
    e: &BExpr,
    f: Window,
    args: &Exprs,
    t: &Table,
    from: usize,
    count: usize,
    carries: &[Carry],
) -> Result<Vector, AllocError>
    requires window { e.now ≡ expr.Window f args.now }
    requires ready { IsReady e.now t.now from count carries.now }
    ensures values { IfOk result (λ v. v ≡ values_from e.now t.now from count) }
{
    match f {
        Window::Prev => plain_part(alloc, e, t, from, count, carries),
        Window::Next => plain_part(alloc, e, t, from, count, carries),
        Window::RowCumsum => {
            let args = sum_parts(e, args, t, from, count, carries);
            sum_column(alloc, args, t, from, count, &first_carry(carries))
        }
        Window::RowNumber => {
            let args = number_parts(e, args, t, from, count, carries);
            number_column(alloc, args, t, from, count, &first_carry(carries))
        }
    }
}

// What `row_cumsum` gives, from the carry of the rows before these.
#[tactic(auto, using(crate::proofs::WindowSteps::sum_steps))]
fn sum_column(
    alloc: Global,
    args: &[BExpr],
    t: &Table,
    from: usize,
    count: usize,
    before: &Carry,
) -> Result<Vector, AllocError>
    requires fits { AllFitRows t.now.columns args.now }
    requires some { 1 ≤ length args.now }
    requires range { from + count ≤ length t.now.lines }
    requires before { before.now ≡ carry_of (call_of window.RowCumsum args.now) t.now 0 from }
    ensures values { IfOk result (λ v. v ≡ window_down window.RowCumsum args.now t.now from count) }
{
    let _rows = t.len();
    match args {
        [] => unreachable!(),
        [term, ..] => {
            let kind = kind_of(alloc, term, t.schema().columns())?;
            let restarts = second_column(alloc, args, t, from, count)?;
            let terms = plain_column(alloc, term, t, from, count)?;
            running_sums(alloc, kind, &terms, &restarts, before)
        }
    }
}

// What `row_number` gives, from the carry of the rows before these.
#[tactic(auto, using(crate::proofs::WindowSteps::number_steps))]
fn number_column(
    alloc: Global,
    args: &[BExpr],
    t: &Table,
    from: usize,
    count: usize,
    before: &Carry,
) -> Result<Vector, AllocError>
    requires fits { AllFitRows t.now.columns args.now }
    requires range { from + count ≤ length t.now.lines }
    requires before { before.now ≡ carry_of (call_of window.RowNumber args.now) t.now 0 from }
    ensures values { IfOk result (λ v. v ≡ window_down window.RowNumber args.now t.now from count) }
{
    let _rows = t.len();
    let restarts = second_column(alloc, args, t, from, count)?;
    let starts = first_column(alloc, args, t, from, count)?;
    row_numbers(alloc, count, &starts, &restarts, before)
}

/// The values of the term of a call, where there is one.
#[tactic(auto, using(crate::proofs::ArgumentSteps::term_steps))]
pub(crate) fn term_column(
    alloc: Global,
    name: &str,
    args: &[BExpr],
    t: &Table,
    from: usize,
    count: usize,
) -> Result<Option<Vector>, AllocError>
    requires fits { AllFitRows t.now.columns args.now }
    requires range { from + count ≤ length t.now.lines }
    ensures values { IfOk result (λ o. o ≡ given_from (term_named name.now args.now) t.now from count) }
{
    if name == Window::RowCumsum.name() {
        let terms = first_column(alloc, args, t, from, count)?;
        Ok(terms)
    } else {
        Ok(None)
    }
}

// The values of the first argument, where there is one.
#[tactic(auto, using(crate::proofs::ArgumentSteps::argument_steps))]
fn first_column(
    alloc: Global,
    args: &[BExpr],
    t: &Table,
    from: usize,
    count: usize,
) -> Result<Option<Vector>, AllocError>
    requires fits { AllFitRows t.now.columns args.now }
    requires range { from + count ≤ length t.now.lines }
    ensures values { IfOk result (λ o. o ≡ given_from (slice_get args.now 0) t.now from count) }
{
    match args {
        [first, ..] => Ok(Some(plain_column(alloc, first, t, from, count)?)),
        [] => Ok(None),
    }
}

/// The values of the second argument, where there is one.
#[tactic(auto, using(crate::proofs::ArgumentSteps::argument_steps))]
pub(crate) fn second_column(
    alloc: Global,
    args: &[BExpr],
    t: &Table,
    from: usize,
    count: usize,
) -> Result<Option<Vector>, AllocError>
    requires fits { AllFitRows t.now.columns args.now }
    requires range { from + count ≤ length t.now.lines }
    ensures values { IfOk result (λ o. o ≡ given_from (slice_get args.now 1) t.now from count) }
{
    match args {
        [_, second, ..] => Ok(Some(plain_column(alloc, second, t, from, count)?)),
        _ => Ok(None),
    }
}

/// The values of an expression that is ready, evaluated row by row.
pub(crate) fn plain_part(
    alloc: Global,
    e: &BExpr,
    t: &Table,
    from: usize,
    count: usize,
    _carries: &[Carry],
) -> Result<Vector, AllocError>
    requires ready { IsReady e.now t.now from count _carries.now }
    ensures values { IfOk result (λ v. v ≡ values_from e.now t.now from count) }
{
    plain_column(alloc, e, t, from, count)
}

// The values of an expression, evaluated row by row.
#[tactic(auto, using(crate::proofs::FitSteps::scalar_steps))]
fn plain_column(
    alloc: Global,
    e: &BExpr,
    t: &Table,
    from: usize,
    count: usize,
) -> Result<Vector, AllocError>
    requires fits { FitsRows t.now.columns e.now }
    requires range { from + count ≤ length t.now.lines }
    ensures values { IfOk result (λ v. v ≡ values_from e.now t.now from count) }
{
    let _rows = t.len();
    let located = Located::new(alloc, e, t.schema())?;
    located.column_of(alloc, t, from, from + count)
}
