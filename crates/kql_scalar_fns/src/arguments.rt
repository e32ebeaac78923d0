ghost use Rattle.std.specs.Prelude.{◌≡◌, IfSome, drop, map};
ghost use Rattle.kql_cells.specs.Seen.{seen};
ghost use Rattle.kql_cells.specs.Values.{IsMoment, IsWellFormed};
ghost use Rattle.kql_scalar_fns.specs.Arguments.{AreWellFormed, argument, bool_or_null, long_or_null, moment_or_null, span_or_null};

use kql_cells::{CellRef, Value};

// The argument at a place; one that is not given is null.
#[tactic(auto, using(crate::proofs::ArgumentFacts::argument_facts), unfolding(crate::specs::Arguments::argument))]
pub(crate) fn argument<'a>(args: &[CellRef<'a>], place: usize) -> CellRef<'a>
    ensures value { seen result ≡ argument (map seen args.now) place }
    ensures form { AreWellFormed (map seen args.now) → IsWellFormed (seen result) }
{
    if place < args.len() {
        args[place]
    } else {
        CellRef::Null
    }
}

// The arguments behind the first.
#[tactic(auto, using(crate::proofs::ArgumentFacts::argument_facts))]
pub(crate) fn others<'s, 'a>(args: &'s [CellRef<'a>]) -> &'s [CellRef<'a>]
    ensures value { map seen result.now ≡ drop 1 (map seen args.now) }
    ensures form { AreWellFormed (map seen args.now) → AreWellFormed (map seen result.now) }
{
    match args {
        [] => &[],
        [_, others @ ..] => others,
    }
}

pub(crate) fn bool_or_null(b: Option<bool>) -> Value
    ensures value { result ≡ bool_or_null b }
    ensures form { IsWellFormed result }
{
    match b {
        Some(b) => Value::Bool(b),
        None => Value::Null,
    }
}

pub(crate) fn long_or_null(n: Option<i64>) -> Value
    ensures value { result ≡ long_or_null n }
    ensures form { IsWellFormed result }
{
    match n {
        Some(n) => Value::Long(n),
        None => Value::Null,
    }
}

pub(crate) fn moment_or_null(n: Option<i64>) -> Value
    ensures value { result ≡ moment_or_null n }
    ensures form { IfSome n IsMoment → IsWellFormed result }
{
    match n {
        Some(n) => Value::Moment(n),
        None => Value::Null,
    }
}

pub(crate) fn span_or_null(n: Option<i64>) -> Value
    ensures value { result ≡ span_or_null n }
    ensures form { IsWellFormed result }
{
    match n {
        Some(n) => Value::Span(n),
        None => Value::Null,
    }
}
