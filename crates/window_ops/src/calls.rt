//! The calls of `row_cumsum` and `row_number` in an expression, and where their carries stand.
ghost use Rattle.std.specs.Prelude.{◌≡◌, drop, length};
ghost use Rattle.window_ops.specs.Calls.{calls_along, calls_in, calls_of, first_of};

use crate::carries::Carry;
use kql_bound::{BExpr, Link};
use kql_functions::Window;

/// Whether a `row_cumsum` or a `row_number` stands in an expression: then it is computed by columns. Both ways have the same values.
#[cycle(is_running)]
pub(crate) fn is_running(e: &BExpr) -> bool {
    match e {
        BExpr::Literal(_) => false,
        BExpr::Column(_) => false,
        BExpr::Step(_) => false,
        BExpr::Call(_, args) => are_running(args.as_slice()),
        BExpr::Chain(first, links) => {
            is_running(first.get()) || are_links_running(links.as_slice())
        }
        BExpr::Path(whole, steps) => is_running(whole.get()) || are_running(steps.as_slice()),
        BExpr::Window(f, args) => match f {
            Window::RowCumsum => true,
            Window::RowNumber => true,
            Window::Prev => are_running(args.as_slice()),
            Window::Next => are_running(args.as_slice()),
        },
        BExpr::Aggregate(_, _) => false,
    }
}

#[cycle(is_running)]
fn are_running(es: &[BExpr]) -> bool {
    for e in es {
        if is_running(e) {
            return true;
        }
    }
    false
}

#[cycle(is_running)]
fn are_links_running(links: &[Link]) -> bool {
    for link in links {
        if is_running(&link.1) {
            return true;
        }
    }
    false
}

/// The first of carries, and that of no row where there are none.
#[tactic(auto, using(crate::proofs::CallSteps::first_steps))]
pub(crate) fn first_carry(carries: &[Carry]) -> Carry
    ensures { result ≡ first_of carries.now }
{
    match carries {
        [] => Carry::none(),
        [first, ..] => first.copy(),
    }
}

// The carries behind the first.
#[tactic(auto, using(crate::proofs::CallSteps::other_steps))]
fn other_carries(carries: &[Carry]) -> &[Carry]
    ensures { result.now ≡ drop 1 carries.now }
{
    match carries {
        [] => carries,
        [_, others @ ..] => others,
    }
}

/// The carries behind those of the calls in an expression.
#[cycle(carries_behind)]
#[tactic(auto, using(crate::proofs::CallSteps::behind_steps))]
pub(crate) fn carries_behind<'a>(e: &BExpr, carries: &'a [Carry]) -> &'a [Carry]
    ensures { result.now ≡ drop (length (calls_of e.now)) carries.now }
{
    match e {
        BExpr::Literal(_) => carries,
        BExpr::Column(_) => carries,
        BExpr::Step(_) => carries,
        BExpr::Call(_, args) => behind_several(args.as_slice(), carries),
        BExpr::Chain(first, links) => {
            let rest = carries_behind(first.get(), carries);
            behind_links(links.as_slice(), rest)
        }
        BExpr::Path(whole, steps) => {
            let rest = carries_behind(whole.get(), carries);
            behind_several(steps.as_slice(), rest)
        }
        BExpr::Window(f, _) => match f {
            Window::Prev => carries,
            Window::Next => carries,
            Window::RowCumsum => other_carries(carries),
            Window::RowNumber => other_carries(carries),
        },
        BExpr::Aggregate(_, _) => carries,
    }
}

// The same of several expressions.
#[cycle(carries_behind)]
#[tactic(auto, using(crate::proofs::CallSteps::several_steps))]
fn behind_several<'a>(es: &[BExpr], carries: &'a [Carry]) -> &'a [Carry]
    ensures { result.now ≡ drop (length (calls_in es.now)) carries.now }
{
    let mut rest = carries;
    'parts: for e in es {
        let next = carries_behind(e, rest);
        rest = next;
    }
    rest
}

// The same of the parts of a chain behind its first.
#[cycle(carries_behind)]
#[tactic(auto, using(crate::proofs::CallSteps::links_steps))]
fn behind_links<'a>(links: &[Link], carries: &'a [Carry]) -> &'a [Carry]
    ensures { result.now ≡ drop (length (calls_along links.now)) carries.now }
{
    let mut rest = carries;
    'links: for link in links {
        let next = carries_behind(&link.1, rest);
        rest = next;
    }
    rest
}
