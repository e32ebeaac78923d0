//! The carries of a range of rows for the calls of `row_cumsum` and `row_number` in expressions.
ghost use Rattle.std.specs.Prelude.{◌≡◌, ◌≤◌, ◌++◌, ◌∷◌, [], IfOk, OnOk, length};
ghost use Rattle.kql_bound.specs.declared.expr.BExpr.TheVariants as expr;
ghost use Rattle.kql_functions.specs.declared.window.Window.TheVariants as window;
ghost use Rattle.window_ops.specs.Calls.{call_of, calls_along, calls_in, calls_of, carries_of, carry_of};
ghost use Rattle.window_ops.specs.Fitting.{AllFitRows, FitsRows, LinksFitRows};

use crate::carries::{Carries, Carry};
use crate::running::carry_over;
use crate::windows::{second_column, term_column};
use kql_bound::{BExpr, Exprs, Link, Links};
use kql_functions::Window;
use kql_items::Boxed;
use kql_values::Table;
use std::alloc::{AllocError, Global};

/// Adds the carry of the rows `from..to` for each call in an expression, from left to right.
#[cycle(push_carries)]
#[tactic(auto, using(crate::proofs::FitSteps::window_parts, crate::proofs::SumSteps::push_steps))]
pub(crate) fn push_carries(
    alloc: Global,
    e: &BExpr,
    t: &Table,
    from: usize,
    to: usize,
    carries: &mut Carries,
) -> Result<(), AllocError>
    requires fits { FitsRows t.now.columns e.now }
    requires order { from ≤ to }
    requires range { to ≤ length t.now.lines }
    ensures added { OnOk result (carries.new ≡ carries.old ++ carries_of (calls_of e.now) t.now from to) }
{
    match e {
        BExpr::Literal(_) => Ok(()),
        BExpr::Column(_) => Ok(()),
        BExpr::Step(_) => Ok(()),
        BExpr::Call(_, args) => {
            push_several(alloc, fit_parts(args, t), t, from, to, carries)?;
            Ok(())
        }
        BExpr::Chain(first, links) => {
            push_carries(alloc, fit_part(first, t), t, from, to, carries)?;
            push_links(alloc, fit_links(links, t), t, from, to, carries)?;
            Ok(())
        }
        BExpr::Path(whole, steps) => {
            push_carries(alloc, fit_part(whole, t), t, from, to, carries)?;
            push_several(alloc, fit_parts(steps, t), t, from, to, carries)?;
            Ok(())
        }
        BExpr::Window(f, args) => match f {
            Window::Prev => Ok(()),
            Window::Next => Ok(()),
            Window::RowCumsum => {
                let args = sum_args(e, args, t);
                push_carry(alloc, Window::RowCumsum, args, t, from, to, carries)?;
                Ok(())
            }
            Window::RowNumber => {
                let args = number_args(e, args, t);
                push_carry(alloc, Window::RowNumber, args, t, from, to, carries)?;
                Ok(())
            }
        },
        BExpr::Aggregate(_, _) => Ok(()),
    }
}

// The same for several expressions.
#[cycle(push_carries)]
#[tactic(auto, using(crate::proofs::FitSteps::item_steps, crate::proofs::SumSteps::several_steps))]
fn push_several(
    alloc: Global,
    es: &[BExpr],
    t: &Table,
    from: usize,
    to: usize,
    carries: &mut Carries,
) -> Result<(), AllocError>
    requires fits { AllFitRows t.now.columns es.now }
    requires order { from ≤ to }
    requires range { to ≤ length t.now.lines }
    ensures added { OnOk result (carries.new ≡ carries.old ++ carries_of (calls_in es.now) t.now from to) }
{
    'parts: for e in es {
        push_carries(alloc, e, t, from, to, carries)?;
    }
    Ok(())
}

// The same for the parts of a chain behind its first.
#[cycle(push_carries)]
#[tactic(auto, using(crate::proofs::FitSteps::item_steps, crate::proofs::SumSteps::links_steps))]
fn push_links(
    alloc: Global,
    links: &[Link],
    t: &Table,
    from: usize,
    to: usize,
    carries: &mut Carries,
) -> Result<(), AllocError>
    requires fits { LinksFitRows t.now.columns links.now }
    requires order { from ≤ to }
    requires range { to ≤ length t.now.lines }
    ensures added { OnOk result (carries.new ≡ carries.old ++ carries_of (calls_along links.now) t.now from to) }
{
    'links: for link in links {
        push_carries(alloc, fit_link(link, t), t, from, to, carries)?;
    }
    Ok(())
}

// Adds the carry of one call.
#[tactic(auto, using(crate::proofs::SumSteps::call_steps))]
fn push_carry(
    alloc: Global,
    f: Window,
    args: &[BExpr],
    t: &Table,
    from: usize,
    to: usize,
    carries: &mut Carries,
) -> Result<(), AllocError>
    requires fits { AllFitRows t.now.columns args.now }
    requires order { from ≤ to }
    requires range { to ≤ length t.now.lines }
    ensures added { OnOk result (carries.new ≡ carries.old ++ carry_of (call_of f args.now) t.now from to ∷ []) }
{
    let made = carry_of_call(alloc, f.name(), args, t, from, to)?;
    carries.push(made)?;
    Ok(())
}

/// The carry of the rows `from..to` for a call of a function of this name.
#[tactic(auto, using(crate::proofs::PieceSteps::piece_steps))]
pub(crate) fn carry_of_call(
    alloc: Global,
    name: &str,
    args: &[BExpr],
    t: &Table,
    from: usize,
    to: usize,
) -> Result<Carry, AllocError>
    requires fits { AllFitRows t.now.columns args.now }
    requires order { from ≤ to }
    requires range { to ≤ length t.now.lines }
    ensures carry { IfOk result (λ c. c ≡ carry_of (record { name = name.now; args = args.now }) t.now from to) }
{
    let _rows = t.len();
    let count = to - from;
    let restarts = second_column(alloc, args, t, from, count)?;
    let terms = term_column(alloc, name, args, t, from, count)?;
    let made = carry_over(&terms, &restarts, count, &Carry::none());
    Ok(made)
}

// The parts of an expression that fits, each with the fact that it fits.

fn fit_part<'a>(e: &'a Boxed<BExpr>, _t: &Table) -> &'a BExpr
    requires { FitsRows _t.now.columns e.now }
    ensures value { result.now ≡ e.now }
    ensures fits { FitsRows _t.now.columns result.now }
{
    e.get()
}

fn fit_parts<'a>(es: &'a Exprs, _t: &Table) -> &'a [BExpr]
    requires { AllFitRows _t.now.columns es.now }
    ensures items { result.now ≡ es.now }
    ensures fits { AllFitRows _t.now.columns result.now }
{
    es.as_slice()
}

fn fit_links<'a>(links: &'a Links, _t: &Table) -> &'a [Link]
    requires { LinksFitRows _t.now.columns links.now }
    ensures items { result.now ≡ links.now }
    ensures fits { LinksFitRows _t.now.columns result.now }
{
    links.as_slice()
}

fn fit_link<'a>(link: &'a Link, _t: &Table) -> &'a BExpr
    requires { FitsRows _t.now.columns link.now.1 }
    ensures value { result.now ≡ link.now.1 }
    ensures fits { FitsRows _t.now.columns result.now }
{
    &link.1
}

#[tactic(auto, using(crate::proofs::FitSteps::sum_parts))]
fn sum_args<'a>(_e: &BExpr, args: &'a Exprs, _t: &Table) -> &'a [BExpr]
    requires sum { _e.now ≡ expr.Window window.RowCumsum args.now }
    requires fits { FitsRows _t.now.columns _e.now }
    ensures items { result.now ≡ args.now }
    ensures fits { AllFitRows _t.now.columns result.now }
{
    args.as_slice()
}

#[tactic(auto, using(crate::proofs::FitSteps::number_parts))]
fn number_args<'a>(_e: &BExpr, args: &'a Exprs, _t: &Table) -> &'a [BExpr]
    requires number { _e.now ≡ expr.Window window.RowNumber args.now }
    requires fits { FitsRows _t.now.columns _e.now }
    ensures items { result.now ≡ args.now }
    ensures fits { AllFitRows _t.now.columns result.now }
{
    args.as_slice()
}
