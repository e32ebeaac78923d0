//! The node of a call of a window function, once its arguments are bound.
ghost use Rattle.std.specs.Prelude.{◌≡◌, ◌&&◌, not};
ghost use Rattle.bind_expr.specs.Outcome.{Answers};
ghost use Rattle.bind_expr.specs.Windows.{is_distance, is_distance_value, look_forms, look_given, number_forms, number_given, running_forms, running_given, window_call, window_forms, window_given, window_typed};
ghost use Rattle.kql_meaning.specs.FittingExpressions.{takes_window};

use crate::arguments::Args;
use crate::fault::BindFault;
use crate::forms::{is_column, is_literal, literal_of};
use crate::kinds::{is_addable, kind_if};
use crate::scope::Scope;
use crate::typed::{Typed, with_kind};
use kql_bound::BExpr;
use kql_cells::{Kind, Value};
use kql_functions::{Window, same_kind};
use kql_lexer::Place;
use kql_meaning::Position;
use std::alloc::Global;

fn is_distance_value(value: &Value) -> bool
    ensures { result ≡ is_distance_value value.now }
{
    match value {
        Value::Null => false,
        Value::Long(n) => 0 <= *n,
        _ => true,
    }
}

#[tactic(auto, unfolding(crate::specs::Windows::is_distance))]
fn is_distance(e: &BExpr) -> bool
    ensures { result ≡ is_distance e.now }
{
    match literal_of(e) {
        None => false,
        Some(lit) => is_distance_value(&lit.value),
    }
}

#[tactic(auto, unfolding(crate::specs::Windows::look_forms))]
fn look_forms(exprs: &[BExpr]) -> bool
    ensures { result ≡ look_forms exprs.now }
{
    match exprs {
        [c] => is_column(c),
        [c, k] => is_column(c) && is_distance(k),
        [c, k, d] => is_column(c) && is_distance(k) && is_literal(d),
        _ => false,
    }
}

#[tactic(auto, unfolding(crate::specs::Windows::running_forms))]
fn running_forms(exprs: &[BExpr]) -> bool
    ensures { result ≡ running_forms exprs.now }
{
    match exprs {
        [_] => true,
        [_, _] => true,
        _ => false,
    }
}

#[tactic(auto, unfolding(crate::specs::Windows::number_forms))]
fn number_forms(exprs: &[BExpr]) -> bool
    ensures { result ≡ number_forms exprs.now }
{
    match exprs {
        [] => true,
        [start] => is_literal(start),
        [start, _] => is_literal(start),
        _ => false,
    }
}

/// Whether a window function takes arguments of this number and these forms.
#[tactic(auto, unfolding(crate::specs::Windows::window_forms))]
fn window_forms(f: Window, exprs: &[BExpr]) -> bool
    ensures { result ≡ window_forms f exprs.now }
{
    match f {
        Window::Prev => look_forms(exprs),
        Window::Next => look_forms(exprs),
        Window::RowCumsum => running_forms(exprs),
        Window::RowNumber => number_forms(exprs),
    }
}

#[tactic(auto, unfolding(crate::specs::Windows::look_given))]
fn look_given(kinds: &[Kind]) -> Option<Kind>
    ensures { result ≡ look_given kinds.now }
{
    match kinds {
        [c] => Some(*c),
        [c, k] => kind_if(same_kind(*k, Kind::Long), *c),
        [c, k, d] => kind_if(same_kind(*k, Kind::Long) && same_kind(*d, *c), *c),
        _ => None,
    }
}

#[tactic(auto, unfolding(crate::specs::Windows::running_given))]
fn running_given(kinds: &[Kind]) -> Option<Kind>
    ensures { result ≡ running_given kinds.now }
{
    match kinds {
        [term] => kind_if(is_addable(*term), *term),
        [term, restart] => kind_if(is_addable(*term) && same_kind(*restart, Kind::Bool), *term),
        _ => None,
    }
}

#[tactic(auto, unfolding(crate::specs::Windows::number_given))]
fn number_given(kinds: &[Kind]) -> Option<Kind>
    ensures { result ≡ number_given kinds.now }
{
    match kinds {
        [] => Some(Kind::Long),
        [start] => kind_if(same_kind(*start, Kind::Long), Kind::Long),
        [start, restart] => kind_if(
            same_kind(*start, Kind::Long) && same_kind(*restart, Kind::Bool),
            Kind::Long,
        ),
        _ => None,
    }
}

/// The type that a window function gives, or none where it does not take these.
#[tactic(auto, unfolding(crate::specs::Windows::window_given))]
fn window_given(f: Window, kinds: &[Kind]) -> Option<Kind>
    ensures { result ≡ window_given f kinds.now }
{
    match f {
        Window::Prev => look_given(kinds),
        Window::Next => look_given(kinds),
        Window::RowCumsum => running_given(kinds),
        Window::RowNumber => number_given(kinds),
    }
}

/// Whether a window function may stand in a position.
#[tactic(auto, unfolding(kql_meaning::specs::FittingExpressions::takes_window))]
fn takes_window(at: Position, f: Window) -> bool
    ensures { result ≡ takes_window at f }
{
    match (at, f) {
        (Position::Window, _) => true,
        (Position::Term, Window::Prev) => true,
        (Position::Term, Window::Next) => true,
        _ => false,
    }
}

#[tactic(auto, using(crate::proofs::AnswerFacts::answer_steps))]
fn window_typed(alloc: Global, place: Place, f: Window, args: Args) -> Result<Typed, BindFault>
    ensures exact { Answers result (window_typed place f args (not args.has_stray && window_forms f args.exprs)) }
{
    if !args.has_stray && window_forms(f, args.exprs.as_slice()) {
        let Args { exprs, kinds, .. } = args;
        match window_given(f, kinds.as_slice()) {
            Some(kind) => with_kind(alloc, BExpr::Window(f, exprs), kind),
            None => {
                drop(exprs);
                Err(BindFault::Refused { code: 404, place })
            }
        }
    } else {
        drop(args);
        Err(BindFault::Refused { code: 403, place })
    }
}

/// A call of a window function: 408, 407, 403, 404.
#[tactic(auto, using(crate::proofs::AnswerFacts::answer_steps), unfolding(crate::specs::Windows::window_call))]
pub(crate) fn window_call(
    alloc: Global,
    place: Place,
    f: Window,
    args: Args,
    scope: &Scope,
    at: Position,
) -> Result<Typed, BindFault>
    ensures exact { Answers result (window_call place f args scope.now at) }
{
    if !takes_window(at, f) {
        drop(args);
        return Err(BindFault::Refused { code: 408, place });
    }
    if !scope.serial {
        drop(args);
        return Err(BindFault::Refused { code: 407, place });
    }
    window_typed(alloc, place, f, args)
}
