ghost use Rattle.std.specs.Prelude.{◌≡◌, IfOk, map};
ghost use Rattle.kql_cells.specs.Seen.{seen};
ghost use Rattle.kql_scalar_fns.specs.Choice.{choice, chosen, first_case, first_given, greater, greatest, is_below, is_empty, least, lesser};

use crate::arguments::argument;
use crate::comparison::{is_less, order};
use crate::logic::{is_true, truth};
use kql_cells::{CellRef, Value};
use kql_functions::ChoiceFunc;
use std::alloc::{AllocError, Global};

#[tactic(auto, unfolding(crate::specs::Choice::choice))]
pub(crate) fn apply_choice(
    alloc: Global,
    f: ChoiceFunc,
    args: &[CellRef<'_>],
) -> Result<Value, AllocError>
    ensures value { IfOk result (λ v. v ≡ choice f (map seen args.now)) }
{
    match f {
        ChoiceFunc::IsNull => Ok(Value::Bool(argument(args, 0).is_null())),
        ChoiceFunc::IsNotNull => Ok(Value::Bool(!argument(args, 0).is_null())),
        ChoiceFunc::IsEmpty => Ok(Value::Bool(is_empty(argument(args, 0)))),
        ChoiceFunc::IsNotEmpty => Ok(Value::Bool(!is_empty(argument(args, 0)))),
        ChoiceFunc::Iff => chosen(argument(args, 0), argument(args, 1), argument(args, 2)).to_value(
            alloc,
        ),
        ChoiceFunc::Case => first_case(args).to_value(alloc),
        ChoiceFunc::Coalesce => first_given(args).to_value(alloc),
        ChoiceFunc::MinOf => least(args).to_value(alloc),
        ChoiceFunc::MaxOf => greatest(args).to_value(alloc),
    }
}

// Null or the empty text.
#[tactic(auto, unfolding(crate::specs::Choice::is_empty))]
fn is_empty(a: CellRef<'_>) -> bool
    ensures { result ≡ is_empty (seen a.entry) }
{
    match a {
        CellRef::Null => true,
        CellRef::Text(t) => t.is_empty(),
        _ => false,
    }
}

#[tactic(auto, unfolding(crate::specs::Choice::chosen))]
fn chosen<'a>(condition: CellRef<'a>, a: CellRef<'a>, b: CellRef<'a>) -> CellRef<'a>
    ensures { seen result ≡ chosen (seen condition.entry) (seen a.entry) (seen b.entry) }
{
    if is_true(truth(condition)) { a } else { b }
}

// The value after the first true condition, else the last.
#[tactic(auto, unfolding(crate::specs::Choice::first_case))]
fn first_case<'a>(args: &[CellRef<'a>]) -> CellRef<'a>
    ensures { seen result ≡ first_case (map seen args.now) }
{
    let mut left = args;
    'cases: while let [first, more @ ..] = left {
        let [value, rest @ ..] = more else {
            return *first;
        };
        if is_true(truth(*first)) {
            return *value;
        }
        left = rest;
    }
    CellRef::Null
}

// The first that is not empty, else the last.
#[tactic(auto, unfolding(crate::specs::Choice::first_given))]
fn first_given<'a>(args: &[CellRef<'a>]) -> CellRef<'a>
    ensures { seen result ≡ first_given (map seen args.now) }
{
    let mut left = args;
    'values: while let [value, more @ ..] = left {
        if more.is_empty() || !is_empty(*value) {
            return *value;
        }
        left = more;
    }
    CellRef::Null
}

// Whether a is below b.
fn is_below(a: CellRef<'_>, b: CellRef<'_>) -> bool
    ensures { result ≡ is_below (seen a.entry) (seen b.entry) }
{
    is_true(is_less(order(a, b)))
}

#[tactic(auto, unfolding(crate::specs::Choice::lesser))]
fn lesser<'a>(a: CellRef<'a>, b: CellRef<'a>) -> CellRef<'a>
    ensures { seen result ≡ lesser (seen a.entry) (seen b.entry) }
{
    if a.is_null() || is_below(b, a) { b } else { a }
}

#[tactic(auto, unfolding(crate::specs::Choice::greater))]
fn greater<'a>(a: CellRef<'a>, b: CellRef<'a>) -> CellRef<'a>
    ensures { seen result ≡ greater (seen a.entry) (seen b.entry) }
{
    if a.is_null() || is_below(a, b) { b } else { a }
}

// The least of those that are not null.
#[tactic(auto, unfolding(crate::specs::Choice::least))]
fn least<'a>(args: &[CellRef<'a>]) -> CellRef<'a>
    ensures { seen result ≡ least (map seen args.now) }
{
    let mut best = CellRef::Null;
    let mut left = args;
    'values: while let [value, more @ ..] = left {
        best = lesser(best, *value);
        left = more;
    }
    best
}

// The greatest of those that are not null.
#[tactic(auto, unfolding(crate::specs::Choice::greatest))]
fn greatest<'a>(args: &[CellRef<'a>]) -> CellRef<'a>
    ensures { seen result ≡ greatest (map seen args.now) }
{
    let mut best = CellRef::Null;
    let mut left = args;
    'values: while let [value, more @ ..] = left {
        best = greater(best, *value);
        left = more;
    }
    best
}
