ghost use Rattle.std.specs.Prelude.{◌≡◌, ◌++◌, IfOk, OnOk, drop, length, map};
ghost use Rattle.std.specs.List.{flat_map};
ghost use Rattle.kql_cells.specs.Seen.{seen};
ghost use Rattle.kql_cells.specs.Values.{IsWellFormed};
ghost use Rattle.kql_scalar_fns.specs.Arguments.{AreWellFormed};
ghost use Rattle.kql_scalar_fns.specs.Readings.{text_of};
ghost use Rattle.kql_scalar_fns.specs.Text.{char_count, joined, joined_with, lowered, order_number, part, pieces, place_of, raised, replaced, rest_from, reversed, text_call, text_order};

use crate::arguments::{argument, others};
use crate::readings::{push_text_of, text_of};
use kql_cells::{CellRef, Dyn, KText, Value};
use kql_functions::TextFunc;
use std::alloc::{AllocError, Global};
use std::cmp::Ordering;

#[tactic(auto, unfolding(crate::specs::Text::text_call))]
pub(crate) fn apply_text(
    alloc: Global,
    f: TextFunc,
    args: &[CellRef<'_>],
) -> Result<Value, AllocError>
    requires { AreWellFormed (map seen args.now) }
    ensures value { IfOk result (λ v. v ≡ text_call f (map seen args.now)) }
    ensures form { IfOk result IsWellFormed }
{
    let a = argument(args, 0);
    let b = argument(args, 1);
    match f {
        TextFunc::Length => Ok(char_count(a)),
        TextFunc::Substring => {
            if args.len() == 2 {
                rest_from(alloc, a, b)
            } else {
                part(alloc, a, b, argument(args, 2))
            }
        }
        TextFunc::IndexOf => Ok(place_of(a, b)),
        TextFunc::ToUpper => raised(alloc, a),
        TextFunc::ToLower => lowered(alloc, a),
        TextFunc::Reverse => reversed(alloc, a),
        TextFunc::Concat => Ok(Value::Text(joined(alloc, args)?)),
        TextFunc::ConcatDelimited => Ok(Value::Text(joined_with(alloc, a, others(args))?)),
        TextFunc::Replace => replaced(alloc, a, b, argument(args, 2)),
        TextFunc::Split => pieces(alloc, a, b),
        TextFunc::Compare => Ok(text_order(a, b)),
    }
}

#[tactic(auto, unfolding(crate::specs::Text::char_count))]
fn char_count(a: CellRef<'_>) -> Value
    ensures value { result ≡ char_count (seen a.entry) }
    ensures form { IsWellFormed result }
{
    match a {
        CellRef::Text(t) => Value::Long(kql_texts::char_count(t) as i64),
        _ => Value::Null,
    }
}

// So many characters from a place on.
#[tactic(auto, unfolding(crate::specs::Text::part))]
fn part(
    alloc: Global,
    a: CellRef<'_>,
    start: CellRef<'_>,
    count: CellRef<'_>,
) -> Result<Value, AllocError>
    ensures value { IfOk result (λ v. v ≡ part (seen a.entry) (seen start.entry) (seen count.entry)) }
    ensures form { IfOk result IsWellFormed }
{
    match (a, start, count) {
        (CellRef::Text(t), CellRef::Long(start), CellRef::Long(count)) => {
            Ok(Value::Text(kql_texts::sub_text(alloc, t, start, count)?))
        }
        (CellRef::Text(_), _, _) => Ok(Value::Text(KText::new(alloc))),
        _ => Ok(Value::Null),
    }
}

// All characters from a place on.
#[tactic(auto, unfolding(crate::specs::Text::rest_from))]
fn rest_from(alloc: Global, a: CellRef<'_>, start: CellRef<'_>) -> Result<Value, AllocError>
    ensures value { IfOk result (λ v. v ≡ rest_from (seen a.entry) (seen start.entry)) }
    ensures form { IfOk result IsWellFormed }
{
    match (a, start) {
        (CellRef::Text(t), CellRef::Long(start)) => {
            Ok(Value::Text(kql_texts::sub_text(alloc, t, start, t.len() as i64)?))
        }
        (CellRef::Text(_), _) => Ok(Value::Text(KText::new(alloc))),
        _ => Ok(Value::Null),
    }
}

#[tactic(auto, unfolding(crate::specs::Text::place_of))]
fn place_of(a: CellRef<'_>, b: CellRef<'_>) -> Value
    ensures value { result ≡ place_of (seen a.entry) (seen b.entry) }
    ensures form { IsWellFormed result }
{
    match (a, b) {
        (CellRef::Text(t), CellRef::Text(p)) => Value::Long(kql_texts::index_of(t, p)),
        _ => Value::Null,
    }
}

#[tactic(auto, unfolding(crate::specs::Text::raised))]
fn raised(alloc: Global, a: CellRef<'_>) -> Result<Value, AllocError>
    ensures value { IfOk result (λ v. v ≡ raised (seen a.entry)) }
    ensures form { IfOk result IsWellFormed }
{
    match a {
        CellRef::Text(t) => Ok(Value::Text(kql_texts::to_upper(alloc, t)?)),
        _ => Ok(Value::Null),
    }
}

#[tactic(auto, unfolding(crate::specs::Text::lowered))]
fn lowered(alloc: Global, a: CellRef<'_>) -> Result<Value, AllocError>
    ensures value { IfOk result (λ v. v ≡ lowered (seen a.entry)) }
    ensures form { IfOk result IsWellFormed }
{
    match a {
        CellRef::Text(t) => Ok(Value::Text(kql_texts::to_lower(alloc, t)?)),
        _ => Ok(Value::Null),
    }
}

#[tactic(auto, unfolding(crate::specs::Text::reversed))]
fn reversed(alloc: Global, a: CellRef<'_>) -> Result<Value, AllocError>
    ensures value { IfOk result (λ v. v ≡ reversed (seen a.entry)) }
    ensures form { IfOk result IsWellFormed }
{
    match a {
        CellRef::Text(t) => Ok(Value::Text(kql_texts::reverse_chars(alloc, t)?)),
        _ => Ok(Value::Null),
    }
}

// The texts of these, one after another.
#[tactic(auto, using(crate::proofs::ArgumentFacts::argument_facts), unfolding(crate::specs::Text::joined))]
fn joined(alloc: Global, args: &[CellRef<'_>]) -> Result<KText, AllocError>
    requires { AreWellFormed (map seen args.now) }
    ensures { IfOk result (λ t. t ≡ joined (map seen args.now)) }
{
    let mut text = KText::new(alloc);
    let mut left = args;
    'values: while let [value, more @ ..] = left {
        push_text_of(alloc, &mut text, *value)?;
        left = more;
    }
    Ok(text)
}

// The texts of these with a text between each two.
#[tactic(auto, using(crate::proofs::ArgumentFacts::argument_facts), unfolding(crate::specs::Text::joined_with))]
fn joined_with(
    alloc: Global,
    between: CellRef<'_>,
    args: &[CellRef<'_>],
) -> Result<KText, AllocError>
    requires between { IsWellFormed (seen between) }
    requires args { AreWellFormed (map seen args.now) }
    ensures { IfOk result (λ t. t ≡ joined_with (text_of (seen between.entry)) (map seen args.now)) }
{
    let mut text = KText::new(alloc);
    let [first, more @ ..] = args else {
        return Ok(text);
    };
    let between = text_of(alloc, between)?;
    push_text_of(alloc, &mut text, *first)?;
    push_behind(alloc, &mut text, between.as_str(), more)?;
    Ok(text)
}

// Adds the texts of these, each behind a text.
#[tactic(auto, using(crate::proofs::ArgumentFacts::argument_facts))]
fn push_behind(
    alloc: Global,
    text: &mut KText,
    between: &str,
    args: &[CellRef<'_>],
) -> Result<(), AllocError>
    requires { AreWellFormed (map seen args.now) }
    ensures { OnOk result (text.new ≡ text.old ++ flat_map (λ v. between.now ++ text_of v) (map seen args.now)) }
{
    let mut left = args;
    'values: while let [value, more @ ..] = left {
        text.push_str(between)?;
        push_text_of(alloc, text, *value)?;
        left = more;
    }
    Ok(())
}

#[tactic(auto, unfolding(crate::specs::Text::replaced))]
fn replaced(
    alloc: Global,
    t: CellRef<'_>,
    a: CellRef<'_>,
    b: CellRef<'_>,
) -> Result<Value, AllocError>
    ensures value { IfOk result (λ v. v ≡ replaced (seen t.entry) (seen a.entry) (seen b.entry)) }
    ensures form { IfOk result IsWellFormed }
{
    match (t, a, b) {
        (CellRef::Text(t), CellRef::Text(a), CellRef::Text(b)) => {
            Ok(Value::Text(kql_texts::replace(alloc, t, a, b)?))
        }
        _ => Ok(Value::Null),
    }
}

#[tactic(auto, unfolding(crate::specs::Text::pieces))]
fn pieces(alloc: Global, t: CellRef<'_>, d: CellRef<'_>) -> Result<Value, AllocError>
    ensures value { IfOk result (λ v. v ≡ pieces (seen t.entry) (seen d.entry)) }
    ensures form { IfOk result IsWellFormed }
{
    match (t, d) {
        (CellRef::Text(t), CellRef::Text(d)) => {
            Ok(Value::Dynamic(Dyn::Array(kql_texts::split_by(alloc, t, d)?)))
        }
        _ => Ok(Value::Null),
    }
}

#[tactic(auto, unfolding(crate::specs::Text::text_order))]
fn text_order(a: CellRef<'_>, b: CellRef<'_>) -> Value
    ensures value { result ≡ text_order (seen a.entry) (seen b.entry) }
    ensures form { IsWellFormed result }
{
    match (a, b) {
        (CellRef::Text(a), CellRef::Text(b)) => {
            Value::Long(order_number(kql_texts::compare(a, b)))
        }
        _ => Value::Null,
    }
}

fn order_number(order: Ordering) -> i64
    ensures { result ≡ order_number order }
{
    match order {
        Ordering::Less => -1,
        Ordering::Equal => 0,
        Ordering::Greater => 1,
    }
}
