//! The readers of what operators are made of.

ghost use Rattle.std.specs.Prelude.{◌≡◌, ◌+◌, ◌<◌, ◌≤◌, [], ◌∷◌, length, IfOk};
ghost use Rattle.kql_syntax.specs.Levels.{Level};
ghost use Rattle.kql_syntax.specs.Forms.{level, many, after, option, pair, some};
ghost use Rattle.kql_syntax.specs.Grammar.{any_word, hint, hint_value, names, items, maybe, by_items, of_kind, union_kind, range, renaming, sort_order, nulls_end, key, by_keys, distinct_columns, groups, summarize, series, make_series, expand_kind, expand, parse_kind, pattern, commas, round};
ghost use Rattle.kql_syntax.specs.Reading.{Reads};

use crate::leaf::{expand_kind, hint_value, nulls_end, parse_kind, sort_order, union_kind};
use crate::look::is_named;
use kql_items::Items;
use kql_lexer::{Keyword, Token};
use kql_syntax::reader::{Fault, expect, expr, name, take, token_at, word};
use kql_syntax::{
    Class, Distinct, EXPR_STARTS, Expand, ExpandKind, Expr, Groups, Hint, HintValue, Item, Key,
    MakeSeries, Name, NullsEnd, ParseKind, Pat, Range, Series, SortOrder, Summarize, UnionKind,
    Word, text_in,
};
use std::alloc::Global;

/// Reads a hint behind its word.
fn hint_rest(alloc: Global, ts: &[Token], at: usize) -> Result<((Word, HintValue), usize), Fault>
    requires { at ≤ length ts.now }
    ensures within { IfOk result (λ r. (at < r.1) × (r.1 ≤ length ts.now)) }
    ensures read { Reads (pair (after (Class.Dot ∷ []) any_word) (after (Class.Assign ∷ []) hint_value)) ts.now at result }
{
    let (_dot, k1) = expect(ts, at, &[Class::Dot])?;
    let (name, k2) = word(alloc, ts, k1, &[Class::Word])?;
    let (_sign, k3) = expect(ts, k2, &[Class::Assign])?;
    let (value, end) = hint_value(alloc, ts, k3)?;
    Ok(((name, value), end))
}

/// Reads hints.
pub fn hints(alloc: Global, ts: &[Token], at: usize) -> Result<(Items<Hint>, usize), Fault>
    requires { at ≤ length ts.now }
    ensures within { IfOk result (λ r. (at ≤ r.1) × (r.1 ≤ length ts.now)) }
    ensures read { Reads (many (hint)) ts.now at result }
{
    let mut more = Items::new(alloc);
    let mut end = at;
    'chain: while let Some(place) = take(ts, end, &[Class::Key(Keyword::Hint)]) {
        let (term, next) = hint_rest(alloc, ts, end + 1)?;
        more.push(Hint {
            place,
            name: term.0,
            value: term.1,
        })?;
        end = next;
    }
    Ok((more, end))
}

/// Reads names.
pub(crate) fn names(alloc: Global, ts: &[Token], at: usize) -> Result<(Items<Name>, usize), Fault>
    requires { at ≤ length ts.now }
    ensures within { IfOk result (λ r. (at < r.1) × (r.1 ≤ length ts.now)) }
    ensures read { Reads (names) ts.now at result }
{
    let mut items = Items::new(alloc);
    let (first, start) = name(alloc, ts, at)?;
    items.push(first)?;
    let mut end = start;
    'list: while let Some(_between) = take(ts, end, &[Class::Comma]) {
        let (item, next) = name(alloc, ts, end + 1)?;
        items.push(item)?;
        end = next;
    }
    Ok((items, end))
}

/// Reads a list of items.
pub fn items(alloc: Global, ts: &[Token], at: usize) -> Result<(Items<Item>, usize), Fault>
    requires { at ≤ length ts.now }
    ensures within { IfOk result (λ r. (at < r.1) × (r.1 ≤ length ts.now)) }
    ensures read { Reads (items) ts.now at result }
{
    let mut items = Items::new(alloc);
    let (first, start) = item(alloc, ts, at)?;
    items.push(first)?;
    let mut end = start;
    'list: while let Some(_between) = take(ts, end, &[Class::Comma]) {
        let (item, next) = item(alloc, ts, end + 1)?;
        items.push(item)?;
        end = next;
    }
    Ok((items, end))
}

/// Reads the items behind a `by`, if one stands here.
pub(crate) fn by_items(
    alloc: Global,
    ts: &[Token],
    at: usize,
) -> Result<(Items<Item>, usize), Fault>
    requires { at ≤ length ts.now }
    ensures within { IfOk result (λ r. (at ≤ r.1) × (r.1 ≤ length ts.now)) }
    ensures read { Reads (maybe by_items) ts.now at result }
{
    if let Some(_word) = take(ts, at, &[Class::Key(Keyword::By)]) {
        let (keys, end) = items(alloc, ts, at + 1)?;
        return Ok((keys, end));
    }
    Ok((Items::new(alloc), at))
}

/// Reads where nulls stand, if that is told.
fn nulls(alloc: Global, ts: &[Token], at: usize) -> Result<(Option<NullsEnd>, usize), Fault>
    requires { at ≤ length ts.now }
    ensures within { IfOk result (λ r. (at ≤ r.1) × (r.1 ≤ length ts.now)) }
    ensures read { Reads (option (after (Class.Key Keyword.Nulls ∷ []) nulls_end)) ts.now at result }
{
    if let Some(_word) = take(ts, at, &[Class::Key(Keyword::Nulls)]) {
        let (end_of, end) = nulls_end(ts, at + 1)?;
        return Ok((Some(end_of), end));
    }
    Ok((None, at))
}

/// Reads the order of a key, and where nulls stand.
fn key_order(
    alloc: Global,
    ts: &[Token],
    at: usize,
) -> Result<((Option<SortOrder>, Option<NullsEnd>), usize), Fault>
    requires { at ≤ length ts.now }
    ensures within { IfOk result (λ r. (at ≤ r.1) × (r.1 ≤ length ts.now)) }
    ensures read { Reads (pair (option sort_order) (option (after (Class.Key Keyword.Nulls ∷ []) nulls_end))) ts.now at result }
{
    let (order, k1) = sort_order(ts, at)?;
    let (nulls, end) = nulls(alloc, ts, k1)?;
    Ok(((order, nulls), end))
}

/// Reads a key to sort by.
pub(crate) fn key(alloc: Global, ts: &[Token], at: usize) -> Result<(Key, usize), Fault>
    requires { at ≤ length ts.now }
    ensures within { IfOk result (λ r. (at < r.1) × (r.1 ≤ length ts.now)) }
    ensures read { Reads (key) ts.now at result }
{
    let (value, k1) = expr(alloc, ts, at)?;
    match key_order(alloc, ts, k1) {
        Ok((rest, end)) => {
            let (order, nulls) = rest;
            Ok((
                Key {
                    value,
                    order,
                    nulls,
                },
                end,
            ))
        }
        Err(fault) => {
            drop(value);
            Err(fault)
        }
    }
}

/// Reads keys to sort by.
pub(crate) fn keys(alloc: Global, ts: &[Token], at: usize) -> Result<(Items<Key>, usize), Fault>
    requires { at ≤ length ts.now }
    ensures within { IfOk result (λ r. (at < r.1) × (r.1 ≤ length ts.now)) }
    ensures read { Reads (commas (key)) ts.now at result }
{
    let mut items = Items::new(alloc);
    let (first, start) = key(alloc, ts, at)?;
    items.push(first)?;
    let mut end = start;
    'list: while let Some(_between) = take(ts, end, &[Class::Comma]) {
        let (item, next) = key(alloc, ts, end + 1)?;
        items.push(item)?;
        end = next;
    }
    Ok((items, end))
}

/// Reads `by` and keys.
pub(crate) fn by_keys(alloc: Global, ts: &[Token], at: usize) -> Result<(Items<Key>, usize), Fault>
    requires { at ≤ length ts.now }
    ensures within { IfOk result (λ r. (at < r.1) × (r.1 ≤ length ts.now)) }
    ensures read { Reads (by_keys) ts.now at result }
{
    let (_by, k1) = expect(ts, at, &[Class::Key(Keyword::By)])?;
    let (keys, end) = keys(alloc, ts, k1)?;
    Ok((keys, end))
}

/// Reads a new name and the old one.
fn renaming(alloc: Global, ts: &[Token], at: usize) -> Result<((Name, Name), usize), Fault>
    requires { at ≤ length ts.now }
    ensures within { IfOk result (λ r. (at < r.1) × (r.1 ≤ length ts.now)) }
    ensures read { Reads (renaming) ts.now at result }
{
    let (new_name, k1) = name(alloc, ts, at)?;
    let (_sign, k2) = expect(ts, k1, &[Class::Assign])?;
    let (old_name, end) = name(alloc, ts, k2)?;
    Ok(((new_name, old_name), end))
}

/// Reads new names, each with the old one.
pub(crate) fn renamings(
    alloc: Global,
    ts: &[Token],
    at: usize,
) -> Result<(Items<(Name, Name)>, usize), Fault>
    requires { at ≤ length ts.now }
    ensures within { IfOk result (λ r. (at < r.1) × (r.1 ≤ length ts.now)) }
    ensures read { Reads (commas (renaming)) ts.now at result }
{
    let mut items = Items::new(alloc);
    let (first, start) = renaming(alloc, ts, at)?;
    items.push(first)?;
    let mut end = start;
    'list: while let Some(_between) = take(ts, end, &[Class::Comma]) {
        let (item, next) = renaming(alloc, ts, end + 1)?;
        items.push(item)?;
        end = next;
    }
    Ok((items, end))
}

/// Reads an expression behind one of these tokens.
pub(crate) fn expr_after(
    alloc: Global,
    ts: &[Token],
    at: usize,
    classes: &[Class],
) -> Result<(Expr, usize), Fault>
    requires { at ≤ length ts.now }
    ensures within { IfOk result (λ r. (at < r.1) × (r.1 ≤ length ts.now)) }
    ensures read { Reads (after classes.now (level Level.Expr)) ts.now at result }
{
    let (_word, k1) = expect(ts, at, classes)?;
    let (value, end) = expr(alloc, ts, k1)?;
    Ok((value, end))
}

/// Reads a name behind one of these tokens.
pub fn name_after(
    alloc: Global,
    ts: &[Token],
    at: usize,
    classes: &[Class],
) -> Result<(Name, usize), Fault>
    requires { at ≤ length ts.now }
    ensures within { IfOk result (λ r. (at < r.1) × (r.1 ≤ length ts.now)) }
    ensures read { Reads (after classes.now (level Level.Name)) ts.now at result }
{
    let (_word, k1) = expect(ts, at, classes)?;
    let (column, end) = name(alloc, ts, k1)?;
    Ok((column, end))
}

/// Reads a word behind one of these tokens.
pub(crate) fn word_after(
    alloc: Global,
    ts: &[Token],
    at: usize,
    classes: &[Class],
) -> Result<(Word, usize), Fault>
    requires { at ≤ length ts.now }
    ensures within { IfOk result (λ r. (at < r.1) × (r.1 ≤ length ts.now)) }
    ensures read { Reads (after classes.now any_word) ts.now at result }
{
    let (_sign, k1) = expect(ts, at, classes)?;
    let (text, end) = word(alloc, ts, k1, &[Class::Word])?;
    Ok((text, end))
}

/// Reads the end of a range and its step.
fn range_end(alloc: Global, ts: &[Token], at: usize) -> Result<((Expr, Expr), usize), Fault>
    requires { at ≤ length ts.now }
    ensures within { IfOk result (λ r. (at < r.1) × (r.1 ≤ length ts.now)) }
    ensures read { Reads (pair (after (Class.Key Keyword.To ∷ []) (level Level.Expr)) (after (Class.Key Keyword.Step ∷ []) (level Level.Expr))) ts.now at result }
{
    let (to, k1) = expr_after(alloc, ts, at, &[Class::Key(Keyword::To)])?;
    match expr_after(alloc, ts, k1, &[Class::Key(Keyword::Step)]) {
        Ok((step, end)) => Ok(((to, step), end)),
        Err(fault) => {
            drop(to);
            Err(fault)
        }
    }
}

/// Reads the start of a range and what follows it.
fn range_start(
    alloc: Global,
    ts: &[Token],
    at: usize,
) -> Result<((Expr, (Expr, Expr)), usize), Fault>
    requires { at ≤ length ts.now }
    ensures within { IfOk result (λ r. (at < r.1) × (r.1 ≤ length ts.now)) }
    ensures read { Reads (pair (after (Class.Key Keyword.From ∷ []) (level Level.Expr)) (pair (after (Class.Key Keyword.To ∷ []) (level Level.Expr)) (after (Class.Key Keyword.Step ∷ []) (level Level.Expr)))) ts.now at result }
{
    let (from, k1) = expr_after(alloc, ts, at, &[Class::Key(Keyword::From)])?;
    match range_end(alloc, ts, k1) {
        Ok((rest, end)) => Ok(((from, rest), end)),
        Err(fault) => {
            drop(from);
            Err(fault)
        }
    }
}

/// Reads a range behind its word.
pub fn range(alloc: Global, ts: &[Token], at: usize) -> Result<(Range, usize), Fault>
    requires { at ≤ length ts.now }
    ensures within { IfOk result (λ r. (at < r.1) × (r.1 ≤ length ts.now)) }
    ensures read { Reads range ts.now at result }
{
    let (column, k1) = name(alloc, ts, at)?;
    let (rest, end) = range_start(alloc, ts, k1)?;
    let (from, (to, step)) = rest;
    Ok((
        Range {
            column,
            from,
            to,
            step,
        },
        end,
    ))
}

/// Reads the value of an empty bin, if one is given.
fn default_value(alloc: Global, ts: &[Token], at: usize) -> Result<(Option<Expr>, usize), Fault>
    requires { at ≤ length ts.now }
    ensures within { IfOk result (λ r. (at ≤ r.1) × (r.1 ≤ length ts.now)) }
    ensures read { Reads (option (after (Class.Key Keyword.Default ∷ []) (after (Class.Assign ∷ []) (level Level.Expr)))) ts.now at result }
{
    if let Some(_word) = take(ts, at, &[Class::Key(Keyword::Default)]) {
        let (_sign, k1) = expect(ts, at + 1, &[Class::Assign])?;
        let (value, end) = expr(alloc, ts, k1)?;
        return Ok((Some(value), end));
    }
    Ok((None, at))
}

/// Reads a series.
fn series(alloc: Global, ts: &[Token], at: usize) -> Result<(Series, usize), Fault>
    requires { at ≤ length ts.now }
    ensures within { IfOk result (λ r. (at < r.1) × (r.1 ≤ length ts.now)) }
    ensures read { Reads (series) ts.now at result }
{
    let (item, k1) = item(alloc, ts, at)?;
    match default_value(alloc, ts, k1) {
        Ok((default, end)) => Ok((Series { item, default }, end)),
        Err(fault) => {
            drop(item);
            Err(fault)
        }
    }
}

/// Reads series.
fn series_list(alloc: Global, ts: &[Token], at: usize) -> Result<(Items<Series>, usize), Fault>
    requires { at ≤ length ts.now }
    ensures within { IfOk result (λ r. (at < r.1) × (r.1 ≤ length ts.now)) }
    ensures read { Reads (commas (series)) ts.now at result }
{
    let mut items = Items::new(alloc);
    let (first, start) = series(alloc, ts, at)?;
    items.push(first)?;
    let mut end = start;
    'list: while let Some(_between) = take(ts, end, &[Class::Comma]) {
        let (item, next) = series(alloc, ts, end + 1)?;
        items.push(item)?;
        end = next;
    }
    Ok((items, end))
}

/// Reads the step of an axis, and the keys of the series.
fn series_step(
    alloc: Global,
    ts: &[Token],
    at: usize,
) -> Result<((Expr, Items<Item>), usize), Fault>
    requires { at ≤ length ts.now }
    ensures within { IfOk result (λ r. (at < r.1) × (r.1 ≤ length ts.now)) }
    ensures read { Reads (pair (after (Class.Key Keyword.Step ∷ []) (level Level.Expr)) (maybe by_items)) ts.now at result }
{
    let (step, k1) = expr_after(alloc, ts, at, &[Class::Key(Keyword::Step)])?;
    match by_items(alloc, ts, k1) {
        Ok((keys, end)) => Ok(((step, keys), end)),
        Err(fault) => {
            drop(step);
            Err(fault)
        }
    }
}

/// Reads the end of an axis and what follows it.
fn series_to(
    alloc: Global,
    ts: &[Token],
    at: usize,
) -> Result<((Expr, (Expr, Items<Item>)), usize), Fault>
    requires { at ≤ length ts.now }
    ensures within { IfOk result (λ r. (at < r.1) × (r.1 ≤ length ts.now)) }
    ensures read { Reads (pair (after (Class.Key Keyword.To ∷ []) (level Level.Expr)) (pair (after (Class.Key Keyword.Step ∷ []) (level Level.Expr)) (maybe by_items))) ts.now at result }
{
    let (to, k1) = expr_after(alloc, ts, at, &[Class::Key(Keyword::To)])?;
    match series_step(alloc, ts, k1) {
        Ok((rest, end)) => Ok(((to, rest), end)),
        Err(fault) => {
            drop(to);
            Err(fault)
        }
    }
}

/// Reads the start of an axis and what follows it.
fn series_from(
    alloc: Global,
    ts: &[Token],
    at: usize,
) -> Result<((Expr, (Expr, (Expr, Items<Item>))), usize), Fault>
    requires { at ≤ length ts.now }
    ensures within { IfOk result (λ r. (at < r.1) × (r.1 ≤ length ts.now)) }
    ensures read { Reads (pair (after (Class.Key Keyword.From ∷ []) (level Level.Expr)) (pair (after (Class.Key Keyword.To ∷ []) (level Level.Expr)) (pair (after (Class.Key Keyword.Step ∷ []) (level Level.Expr)) (maybe by_items)))) ts.now at result }
{
    let (from, k1) = expr_after(alloc, ts, at, &[Class::Key(Keyword::From)])?;
    match series_to(alloc, ts, k1) {
        Ok((rest, end)) => Ok(((from, rest), end)),
        Err(fault) => {
            drop(from);
            Err(fault)
        }
    }
}

/// Reads the axis of series, and what follows it.
fn series_axis(
    alloc: Global,
    ts: &[Token],
    at: usize,
) -> Result<((Name, (Expr, (Expr, (Expr, Items<Item>)))), usize), Fault>
    requires { at ≤ length ts.now }
    ensures within { IfOk result (λ r. (at < r.1) × (r.1 ≤ length ts.now)) }
    ensures read { Reads (pair (after (Class.Key Keyword.On ∷ []) (level Level.Name)) (pair (after (Class.Key Keyword.From ∷ []) (level Level.Expr)) (pair (after (Class.Key Keyword.To ∷ []) (level Level.Expr)) (pair (after (Class.Key Keyword.Step ∷ []) (level Level.Expr)) (maybe by_items))))) ts.now at result }
{
    let (axis, k1) = name_after(alloc, ts, at, &[Class::Key(Keyword::On)])?;
    let (rest, end) = series_from(alloc, ts, k1)?;
    Ok(((axis, rest), end))
}

/// Reads series over an axis, behind the word.
pub(crate) fn make_series(
    alloc: Global,
    ts: &[Token],
    at: usize,
) -> Result<(MakeSeries, usize), Fault>
    requires { at ≤ length ts.now }
    ensures within { IfOk result (λ r. (at < r.1) × (r.1 ≤ length ts.now)) }
    ensures read { Reads make_series ts.now at result }
{
    let (items, k1) = series_list(alloc, ts, at)?;
    let (rest, end) = series_axis(alloc, ts, k1)?;
    let (axis, (from, (to, (step, keys)))) = rest;
    Ok((
        MakeSeries {
            items,
            axis,
            from,
            to,
            step,
            keys,
        },
        end,
    ))
}

/// Reads the word of a type in brackets, if one is given.
fn expand_type(alloc: Global, ts: &[Token], at: usize) -> Result<(Option<Word>, usize), Fault>
    requires { at ≤ length ts.now }
    ensures within { IfOk result (λ r. (at ≤ r.1) × (r.1 ≤ length ts.now)) }
    ensures read { Reads (option (after (Class.Key Keyword.To ∷ []) (after (Class.Key Keyword.Typeof ∷ []) (round any_word)))) ts.now at result }
{
    if let Some(_word) = take(ts, at, &[Class::Key(Keyword::To)]) {
        let (_typeof, k1) = expect(ts, at + 1, &[Class::Key(Keyword::Typeof)])?;
        let (_open, k2) = expect(ts, k1, &[Class::Open])?;
        let (kind, k3) = word(alloc, ts, k2, &[Class::Word])?;
        let (_close, end) = expect(ts, k3, &[Class::Close])?;
        return Ok((Some(kind), end));
    }
    Ok((None, at))
}

/// Reads what is expanded.
fn expand(alloc: Global, ts: &[Token], at: usize) -> Result<(Expand, usize), Fault>
    requires { at ≤ length ts.now }
    ensures within { IfOk result (λ r. (at < r.1) × (r.1 ≤ length ts.now)) }
    ensures read { Reads (expand) ts.now at result }
{
    let (item, k1) = item(alloc, ts, at)?;
    match expand_type(alloc, ts, k1) {
        Ok((to, end)) => Ok((Expand { item, to }, end)),
        Err(fault) => {
            drop(item);
            Err(fault)
        }
    }
}

/// Reads what is expanded, one after another.
pub(crate) fn expands(
    alloc: Global,
    ts: &[Token],
    at: usize,
) -> Result<(Items<Expand>, usize), Fault>
    requires { at ≤ length ts.now }
    ensures within { IfOk result (λ r. (at < r.1) × (r.1 ≤ length ts.now)) }
    ensures read { Reads (commas (expand)) ts.now at result }
{
    let mut items = Items::new(alloc);
    let (first, start) = expand(alloc, ts, at)?;
    items.push(first)?;
    let mut end = start;
    'list: while let Some(_between) = take(ts, end, &[Class::Comma]) {
        let (item, next) = expand(alloc, ts, end + 1)?;
        items.push(item)?;
        end = next;
    }
    Ok((items, end))
}

/// Reads the kind of an expansion, if one is given.
pub(crate) fn expand_kind_option(
    alloc: Global,
    ts: &[Token],
    at: usize,
) -> Result<(Option<ExpandKind>, usize), Fault>
    requires { at ≤ length ts.now }
    ensures within { IfOk result (λ r. (at ≤ r.1) × (r.1 ≤ length ts.now)) }
    ensures read { Reads (option (of_kind expand_kind)) ts.now at result }
{
    if let Some(_word) = take(ts, at, &[Class::Key(Keyword::Kind)]) {
        let (_sign, k1) = expect(ts, at + 1, &[Class::Assign])?;
        let (kind, end) = expand_kind(ts, k1)?;
        return Ok((Some(kind), end));
    }
    Ok((None, at))
}

/// Reads the kind of a pattern, if one is given.
pub(crate) fn parse_kind_option(
    alloc: Global,
    ts: &[Token],
    at: usize,
) -> Result<(Option<ParseKind>, usize), Fault>
    requires { at ≤ length ts.now }
    ensures within { IfOk result (λ r. (at ≤ r.1) × (r.1 ≤ length ts.now)) }
    ensures read { Reads (option (of_kind parse_kind)) ts.now at result }
{
    if let Some(_word) = take(ts, at, &[Class::Key(Keyword::Kind)]) {
        let (_sign, k1) = expect(ts, at + 1, &[Class::Assign])?;
        let (kind, end) = parse_kind(ts, k1)?;
        return Ok((Some(kind), end));
    }
    Ok((None, at))
}

/// Reads the kind of a union, if one is given.
pub fn union_kind_option(
    alloc: Global,
    ts: &[Token],
    at: usize,
) -> Result<(Option<UnionKind>, usize), Fault>
    requires { at ≤ length ts.now }
    ensures within { IfOk result (λ r. (at ≤ r.1) × (r.1 ≤ length ts.now)) }
    ensures read { Reads (option (of_kind union_kind)) ts.now at result }
{
    if let Some(_word) = take(ts, at, &[Class::Key(Keyword::Kind)]) {
        let (_sign, k1) = expect(ts, at + 1, &[Class::Assign])?;
        let (kind, end) = union_kind(ts, k1)?;
        return Ok((Some(kind), end));
    }
    Ok((None, at))
}

/// Reads the word of a type behind a colon, if one stands here.
fn column_type(alloc: Global, ts: &[Token], at: usize) -> Result<(Option<Word>, usize), Fault>
    requires { at ≤ length ts.now }
    ensures within { IfOk result (λ r. (at ≤ r.1) × (r.1 ≤ length ts.now)) }
    ensures read { Reads (option (after (Class.Colon ∷ []) any_word)) ts.now at result }
{
    if let Some(_word) = take(ts, at, &[Class::Colon]) {
        let (kind, end) = word(alloc, ts, at + 1, &[Class::Word])?;
        return Ok((Some(kind), end));
    }
    Ok((None, at))
}

/// Reads a part of a pattern.
fn pattern(alloc: Global, ts: &[Token], at: usize) -> Result<(Pat, usize), Fault>
    requires { at ≤ length ts.now }
    ensures within { IfOk result (λ r. (at < r.1) × (r.1 ≤ length ts.now)) }
    ensures read { Reads (pattern) ts.now at result }
{
    if let Some(star) = take(ts, at, &[Class::Star]) {
        return Ok((Pat::Star(star), at + 1));
    }
    if let Some(token) = token_at(ts, at, &[Class::Text]) {
        return Ok((Pat::Text(token.place, text_in(alloc, token)?), at + 1));
    }
    let (name, k1) = name(alloc, ts, at)?;
    let (kind, end) = column_type(alloc, ts, k1)?;
    Ok((Pat::Column(name, kind), end))
}

/// Reads a pattern.
pub(crate) fn patterns(alloc: Global, ts: &[Token], at: usize) -> Result<(Items<Pat>, usize), Fault>
    requires { at ≤ length ts.now }
    ensures within { IfOk result (λ r. (at < r.1) × (r.1 ≤ length ts.now)) }
    ensures read { Reads (some pattern) ts.now at result }
{
    let mut items = Items::new(alloc);
    let (first, start) = pattern(alloc, ts, at)?;
    items.push(first)?;
    let mut end = start;
    'list: while let Some(_start) = take(
        ts,
        end,
        &[Class::Star, Class::Text, Class::Name, Class::OpenSquare],
    ) {
        let (item, next) = pattern(alloc, ts, end)?;
        items.push(item)?;
        end = next;
    }
    Ok((items, end))
}

/// Reads all columns or some.
pub(crate) fn distinct_columns(
    alloc: Global,
    ts: &[Token],
    at: usize,
) -> Result<(Distinct, usize), Fault>
    requires { at ≤ length ts.now }
    ensures within { IfOk result (λ r. (at < r.1) × (r.1 ≤ length ts.now)) }
    ensures read { Reads (distinct_columns) ts.now at result }
{
    if let Some(star) = take(ts, at, &[Class::Star]) {
        return Ok((Distinct::Star(star), at + 1));
    }
    let (columns, end) = names(alloc, ts, at)?;
    Ok((Distinct::Columns(columns), end))
}

/// Reads aggregates and the keys of their groups, or keys alone.
fn groups(alloc: Global, ts: &[Token], at: usize) -> Result<(Groups, usize), Fault>
    requires { at ≤ length ts.now }
    ensures within { IfOk result (λ r. (at < r.1) × (r.1 ≤ length ts.now)) }
    ensures read { Reads (groups) ts.now at result }
{
    if let Some(_by) = take(ts, at, &[Class::Key(Keyword::By)]) {
        let (keys, end) = items(alloc, ts, at + 1)?;
        return Ok((Groups::Keys(keys), end));
    }
    let (items, k1) = items(alloc, ts, at)?;
    let (keys, end) = by_items(alloc, ts, k1)?;
    Ok((Groups::Aggregates(items, keys), end))
}

/// Reads what is summarized, behind the word.
pub(crate) fn summarize(alloc: Global, ts: &[Token], at: usize) -> Result<(Summarize, usize), Fault>
    requires { at ≤ length ts.now }
    ensures within { IfOk result (λ r. (at < r.1) × (r.1 ≤ length ts.now)) }
    ensures read { Reads (summarize) ts.now at result }
{
    let (hints, k1) = hints(alloc, ts, at)?;
    let (groups, end) = groups(alloc, ts, k1)?;
    Ok((Summarize { hints, groups }, end))
}

/// Reads an expression, with a name or without.
pub(crate) fn item(alloc: Global, ts: &[Token], at: usize) -> Result<(Item, usize), Fault>
    requires { at ≤ length ts.now }
    ensures within { IfOk result (λ r. (at < r.1) × (r.1 ≤ length ts.now)) }
    ensures read { Reads (level Level.Item) ts.now at result }
{
    if is_named(ts, at) {
        let (name, k1) = name(alloc, ts, at)?;
        let (_sign, k2) = expect(ts, k1, &[Class::Assign])?;
        let (value, end) = expr(alloc, ts, k2)?;
        let name = Some(name);
        return Ok((Item { name, value }, end));
    }
    let (value, end) = expr(alloc, ts, at)?;
    Ok((Item { name: None, value }, end))
}

/// Reads items, if some stand here.
pub(crate) fn items_option(
    alloc: Global,
    ts: &[Token],
    at: usize,
) -> Result<(Items<Item>, usize), Fault>
    requires { at ≤ length ts.now }
    ensures within { IfOk result (λ r. (at ≤ r.1) × (r.1 ≤ length ts.now)) }
    ensures read { Reads (maybe items) ts.now at result }
{
    if let Some(_start) = take(ts, at, &EXPR_STARTS) {
        let (list, end) = items(alloc, ts, at)?;
        return Ok((list, end));
    }
    Ok((Items::new(alloc), at))
}

/// Reads the pattern behind `with`.
fn with_pattern(alloc: Global, ts: &[Token], at: usize) -> Result<(Items<Pat>, usize), Fault>
    requires { at ≤ length ts.now }
    ensures within { IfOk result (λ r. (at < r.1) × (r.1 ≤ length ts.now)) }
    ensures read { Reads (after (Class.Key Keyword.With ∷ []) (some pattern)) ts.now at result }
{
    let (_with, k1) = expect(ts, at, &[Class::Key(Keyword::With)])?;
    let (pattern, end) = patterns(alloc, ts, k1)?;
    Ok((pattern, end))
}

/// Reads what a pattern is laid over, and the pattern.
pub(crate) fn parse_text(
    alloc: Global,
    ts: &[Token],
    at: usize,
) -> Result<((Expr, Items<Pat>), usize), Fault>
    requires { at ≤ length ts.now }
    ensures within { IfOk result (λ r. (at < r.1) × (r.1 ≤ length ts.now)) }
    ensures read { Reads (pair (level Level.Expr) (after (Class.Key Keyword.With ∷ []) (some pattern))) ts.now at result }
{
    let (text, k1) = expr(alloc, ts, at)?;
    match with_pattern(alloc, ts, k1) {
        Ok((pattern, end)) => Ok(((text, pattern), end)),
        Err(fault) => {
            drop(text);
            Err(fault)
        }
    }
}

/// Reads the key behind `by`.
fn by_key(alloc: Global, ts: &[Token], at: usize) -> Result<(Key, usize), Fault>
    requires { at ≤ length ts.now }
    ensures within { IfOk result (λ r. (at < r.1) × (r.1 ≤ length ts.now)) }
    ensures read { Reads (after (Class.Key Keyword.By ∷ []) key) ts.now at result }
{
    let (_by, k1) = expect(ts, at, &[Class::Key(Keyword::By)])?;
    let (order, end) = key(alloc, ts, k1)?;
    Ok((order, end))
}

/// Reads how many rows are taken, and by which key.
pub(crate) fn top_by(alloc: Global, ts: &[Token], at: usize) -> Result<((Expr, Key), usize), Fault>
    requires { at ≤ length ts.now }
    ensures within { IfOk result (λ r. (at < r.1) × (r.1 ≤ length ts.now)) }
    ensures read { Reads (pair (level Level.Expr) (after (Class.Key Keyword.By ∷ []) key)) ts.now at result }
{
    let (rows, k1) = expr(alloc, ts, at)?;
    match by_key(alloc, ts, k1) {
        Ok((order, end)) => Ok(((rows, order), end)),
        Err(fault) => {
            drop(rows);
            Err(fault)
        }
    }
}
