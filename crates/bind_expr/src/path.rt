//! Looks into dynamic values, and columns of the records of a scan's steps.
ghost use Rattle.std.specs.Prelude.{◌≡◌, ◌<◌, ◌∷◌, [], Ok, length, option_copied};
ghost use Rattle.bind_expr.specs.Outcome.{Answers};
ghost use Rattle.bind_expr.specs.Paths.{look_link, with_look, looked_as, path_closed, path_opened, step_bound, step_column, step_named, step_or_fault};
ghost use Rattle.kql_functions.specs.Kinds.{result_kind};
ghost use Rattle.kql_meaning.specs.Expressions.{look};

use crate::fault::BindFault;
use crate::scope::StepNames;
use crate::typed::{Typed, with_kind};
use kql_bound::{BExpr, Exprs, Lit, StepColumn};
use kql_cells::{Column, KText, Kind, Value, clone_value};
use kql_functions::{DynamicFunc, Func, result_kind};
use kql_items::{Boxed, Items};
use kql_lexer::Place;
use kql_syntax::Word;
use std::alloc::{AllocError, Global};

/// A path so far, and its type.
#[derive(Debug, Drop)]
pub(crate) struct Looked {
    pub(crate) whole: Boxed<BExpr>,
    pub(crate) steps: Exprs,
    pub(crate) kind: Kind,
}

#[tactic(auto, using(crate::proofs::AnswerFacts::answer_steps), unfolding(crate::specs::Paths::path_opened, crate::specs::Paths::looked_from))]
pub(crate) fn path_opened(
    alloc: Global,
    first: Result<Typed, BindFault>,
) -> Result<Looked, BindFault>
    ensures exact { result ≡ path_opened first }
{
    match first {
        Ok(t) => {
            let Typed { expr, kind } = t;
            Ok(Looked {
                whole: expr,
                steps: Items::new(alloc),
                kind,
            })
        }
        Err(fault) => Err(fault),
    }
}

#[tactic(auto, using(crate::proofs::AnswerFacts::answer_steps), unfolding(crate::specs::Paths::path_closed, crate::specs::Paths::looked_whole))]
pub(crate) fn path_closed(
    alloc: Global,
    path: Result<Looked, BindFault>,
) -> Result<Typed, BindFault>
    ensures exact { Answers result (path_closed path) }
{
    match path {
        Ok(l) => {
            let Looked { whole, steps, kind } = l;
            if steps.is_empty() {
                Ok(Typed { expr: whole, kind })
            } else {
                with_kind(alloc, BExpr::Path(whole, steps), kind)
            }
        }
        Err(fault) => Err(fault),
    }
}

/// One look more, or 404 at its sign.
#[tactic(auto, using(crate::proofs::AnswerFacts::answer_steps), unfolding(crate::specs::Paths::with_look))]
fn with_look(place: Place, path: Looked, key: Typed) -> Result<Looked, BindFault>
    ensures exact { Answers result (with_look place path key) }
{
    let Looked {
        whole,
        mut steps,
        kind,
    } = path;
    let Typed {
        expr,
        kind: key_kind,
    } = key;
    match result_kind(Func::Dynamic(DynamicFunc::At), &[kind, key_kind]) {
        Some(kind) => match steps.push(expr.into_inner()) {
            Ok(_) => Ok(Looked { whole, steps, kind }),
            Err(_) => Err(BindFault::OutOfMemory),
        },
        None => Err(BindFault::Refused { code: 404, place }),
    }
}

/// The path with one look more, or the first fault.
#[tactic(auto, using(crate::proofs::AnswerFacts::answer_steps))]
pub(crate) fn next_look(
    place: Place,
    path: Result<Looked, BindFault>,
    key: Result<Typed, BindFault>,
) -> Result<Looked, BindFault>
    ensures exact { Answers result (look_link place path key) }
{
    match path {
        Ok(path) => match key {
            Ok(key) => with_look(place, path, key),
            Err(fault) => {
                drop(path);
                Err(fault)
            }
        },
        Err(fault) => {
            drop(key);
            Err(fault)
        }
    }
}
