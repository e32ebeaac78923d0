ghost use Rattle.std.specs.Prelude.{◌≡◌, Bool, map};
ghost use Rattle.kql_cells.specs.Seen.{seen};
ghost use Rattle.kql_cells.specs.Values.{IsWellFormed};
ghost use Rattle.kql_scalar_fns.specs.Logic.{both, conjunction, disjunction, either, is_true, logic, opposite, truth};

use crate::arguments::{argument, bool_or_null};
use kql_cells::{CellRef, Value};
use kql_functions::LogicFunc;

#[tactic(auto, unfolding(crate::specs::Logic::logic))]
pub(crate) fn apply_logic(f: LogicFunc, args: &[CellRef<'_>]) -> Value
    ensures value { result ≡ logic f (map seen args.now) }
    ensures form { IsWellFormed result }
{
    match f {
        LogicFunc::And => bool_or_null(conjunction(args)),
        LogicFunc::Or => bool_or_null(disjunction(args)),
        LogicFunc::Not => bool_or_null(opposite(truth(argument(args, 0)))),
    }
}

#[tactic(auto, unfolding(crate::specs::Logic::conjunction))]
fn conjunction(args: &[CellRef<'_>]) -> Option<bool>
    ensures { result ≡ conjunction (map seen args.now) }
{
    let mut known = Some(true);
    let mut left = args;
    'terms: while let [first, more @ ..] = left {
        known = both(known, truth(*first));
        left = more;
    }
    known
}

#[tactic(auto, unfolding(crate::specs::Logic::disjunction))]
fn disjunction(args: &[CellRef<'_>]) -> Option<bool>
    ensures { result ≡ disjunction (map seen args.now) }
{
    let mut known = Some(false);
    let mut left = args;
    'terms: while let [first, more @ ..] = left {
        known = either(known, truth(*first));
        left = more;
    }
    known
}

// The bool that a value holds, if it holds one.
#[tactic(auto, unfolding(crate::specs::Logic::truth))]
pub(crate) fn truth(a: CellRef<'_>) -> Option<bool>
    ensures { result ≡ truth (seen a.entry) }
{
    match a {
        CellRef::Bool(b) => Some(b),
        _ => None,
    }
}

pub(crate) fn both(p: Option<bool>, q: Option<bool>) -> Option<bool>
    ensures { result ≡ both p q }
{
    match (p, q) {
        (Some(true), q) => q,
        (Some(false), _) => Some(false),
        (None, Some(false)) => Some(false),
        (None, _) => None,
    }
}

fn either(p: Option<bool>, q: Option<bool>) -> Option<bool>
    ensures { result ≡ either p q }
{
    match (p, q) {
        (Some(false), q) => q,
        (Some(true), _) => Some(true),
        (None, Some(true)) => Some(true),
        (None, _) => None,
    }
}

pub(crate) fn opposite(o: Option<bool>) -> Option<bool>
    ensures { result ≡ opposite o }
{
    match o {
        Some(b) => Some(!b),
        None => None,
    }
}

pub(crate) fn is_true(o: Option<bool>) -> bool
    ensures { result ≡ is_true o }
{
    match o {
        Some(b) => b,
        None => false,
    }
}
