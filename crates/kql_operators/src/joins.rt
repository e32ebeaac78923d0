//! The readers of kinds and keys of joins.

ghost use Rattle.std.specs.Prelude.{◌≡◌, ◌+◌, ◌<◌, ◌≤◌, [], ◌∷◌, length, IfOk};
ghost use Rattle.kql_syntax.specs.Levels.{Level};
ghost use Rattle.kql_syntax.specs.Forms.{level, many, mark, after, option, pair};
ghost use Rattle.kql_syntax.specs.Grammar.{hint, of_kind, on_pair, join_key, join_sign, commas};
ghost use Rattle.kql_syntax.specs.Reading.{Reads};

use crate::leaf::join_sign;
use crate::parts::{hints, name_after};
use kql_items::Items;
use kql_lexer::{Keyword, Place, Token};
use kql_syntax::reader::{Fault, expect, name, take};
use kql_syntax::{Class, Hint, JoinSign, Name, On, OnPair};
use std::alloc::Global;

/// Reads the column of the right side.
fn right_side(alloc: Global, ts: &[Token], at: usize) -> Result<((Place, Name), usize), Fault>
    requires { at ≤ length ts.now }
    ensures within { IfOk result (λ r. (at < r.1) × (r.1 ≤ length ts.now)) }
    ensures read { Reads (pair (mark (Class.Key Keyword.DollarRight ∷ [])) (after (Class.Dot ∷ []) (level Level.Name))) ts.now at result }
{
    let (place, k1) = expect(ts, at, &[Class::Key(Keyword::DollarRight)])?;
    let (right, end) = name_after(alloc, ts, k1, &[Class::Dot])?;
    Ok(((place, right), end))
}

/// Reads a column of each side.
fn on_pair(alloc: Global, ts: &[Token], at: usize) -> Result<(OnPair, usize), Fault>
    requires { at ≤ length ts.now }
    ensures within { IfOk result (λ r. (at < r.1) × (r.1 ≤ length ts.now)) }
    ensures read { Reads on_pair ts.now at result }
{
    let (left_place, k1) = expect(ts, at, &[Class::Key(Keyword::DollarLeft)])?;
    let (left, k2) = name_after(alloc, ts, k1, &[Class::Dot])?;
    let (sign, k3) = expect(ts, k2, &[Class::Equal])?;
    let (rest, end) = right_side(alloc, ts, k3)?;
    let (right_place, right) = rest;
    Ok((
        OnPair {
            left_place,
            left,
            sign,
            right_place,
            right,
        },
        end,
    ))
}

/// Reads the keys of a join.
fn join_keys(alloc: Global, ts: &[Token], at: usize) -> Result<(Items<On>, usize), Fault>
    requires { at ≤ length ts.now }
    ensures within { IfOk result (λ r. (at < r.1) × (r.1 ≤ length ts.now)) }
    ensures read { Reads (commas (join_key)) ts.now at result }
{
    let mut items = Items::new(alloc);
    let (first, start) = join_key(alloc, ts, at)?;
    items.push(first)?;
    let mut end = start;
    'list: while let Some(_between) = take(ts, end, &[Class::Comma]) {
        let (item, next) = join_key(alloc, ts, end + 1)?;
        items.push(item)?;
        end = next;
    }
    Ok((items, end))
}

/// Reads a key of a join.
fn join_key(alloc: Global, ts: &[Token], at: usize) -> Result<(On, usize), Fault>
    requires { at ≤ length ts.now }
    ensures within { IfOk result (λ r. (at < r.1) × (r.1 ≤ length ts.now)) }
    ensures read { Reads (join_key) ts.now at result }
{
    if let Some(_left) = take(ts, at, &[Class::Key(Keyword::DollarLeft)]) {
        let (pair, end) = on_pair(alloc, ts, at)?;
        return Ok((On::Pair(pair), end));
    }
    let (column, end) = name(alloc, ts, at)?;
    Ok((On::Column(column), end))
}

/// Reads the kind of a join and the hints after it, if it is given.
pub fn join_kind(
    alloc: Global,
    ts: &[Token],
    at: usize,
    kinds: &[Class],
) -> Result<(Option<(JoinSign, Items<Hint>)>, usize), Fault>
    requires { at ≤ length ts.now }
    ensures within { IfOk result (λ r. (at ≤ r.1) × (r.1 ≤ length ts.now)) }
    ensures read { Reads (option (pair (of_kind (join_sign kinds.now)) (many hint))) ts.now at result }
{
    if let Some(_word) = take(ts, at, &[Class::Key(Keyword::Kind)]) {
        let (_sign, k1) = expect(ts, at + 1, &[Class::Assign])?;
        let (kind, k2) = join_sign(ts, k1, kinds)?;
        let (hints, end) = hints(alloc, ts, k2)?;
        return Ok((Some((kind, hints)), end));
    }
    Ok((None, at))
}

/// Reads the keys of a join behind `on`.
pub fn on_keys(alloc: Global, ts: &[Token], at: usize) -> Result<(Items<On>, usize), Fault>
    requires { at ≤ length ts.now }
    ensures within { IfOk result (λ r. (at < r.1) × (r.1 ≤ length ts.now)) }
    ensures read { Reads (after (Class.Key Keyword.On ∷ []) (commas join_key)) ts.now at result }
{
    let (_on, k1) = expect(ts, at, &[Class::Key(Keyword::On)])?;
    let (list, end) = join_keys(alloc, ts, k1)?;
    Ok((list, end))
}
