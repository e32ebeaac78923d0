ghost use Rattle.std.specs.Prelude.{◌≡◌, IfOk, map};
ghost use Rattle.kql_texts.specs.Folding.{folded};
ghost use Rattle.kql_cells.specs.Seen.{seen};
ghost use Rattle.kql_cells.specs.Values.{IsWellFormed};
ghost use Rattle.kql_scalar_fns.specs.Search.{found, search_call, stands, turned_if};

use crate::arguments::{argument, bool_or_null};
use kql_cells::{CellRef, Value};
use kql_functions::{SearchFunc, SearchPlace};
use kql_texts::{Fold, begins, ends, has_term, holds};
use std::alloc::{AllocError, Global};

#[tactic(auto, unfolding(crate::specs::Search::search_call))]
pub(crate) fn apply_search(
    alloc: Global,
    f: SearchFunc,
    args: &[CellRef<'_>],
) -> Result<Value, AllocError>
    ensures value { IfOk result (λ v. v ≡ search_call f (map seen args.now)) }
    ensures form { IfOk result IsWellFormed }
{
    match found(alloc, f.place, f.fold, argument(args, 0), argument(args, 1))? {
        Some(b) => Ok(Value::Bool(turned_if(f.negated, b))),
        None => Ok(Value::Null),
    }
}

fn turned_if(negated: bool, b: bool) -> bool
    ensures { result ≡ turned_if negated b }
{
    if negated { !b } else { b }
}

// Whether one text stands in another.
#[tactic(auto, unfolding(crate::specs::Search::found))]
fn found(
    alloc: Global,
    place: SearchPlace,
    fold: Fold,
    t: CellRef<'_>,
    p: CellRef<'_>,
) -> Result<Option<bool>, AllocError>
    ensures { IfOk result (λ r. r ≡ found place fold (seen t.entry) (seen p.entry)) }
{
    match (t, p) {
        (CellRef::Text(t), CellRef::Text(p)) => Ok(Some(stands(alloc, place, fold, t, p)?)),
        _ => Ok(None),
    }
}

#[tactic(auto, unfolding(crate::specs::Search::stands))]
fn stands(
    alloc: Global,
    place: SearchPlace,
    fold: Fold,
    t: &str,
    p: &str,
) -> Result<bool, AllocError>
    ensures { IfOk result (λ r. r ≡ stands place (folded fold t.now) (folded fold p.now)) }
{
    match place {
        SearchPlace::Anywhere => holds(alloc, t, p, fold),
        SearchPlace::Start => begins(alloc, t, p, fold),
        SearchPlace::End => ends(alloc, t, p, fold),
        SearchPlace::Term => has_term(alloc, t, p, fold),
    }
}
