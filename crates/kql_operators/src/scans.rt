//! The readers of what a scan is made of.

ghost use Rattle.std.specs.Prelude.{◌≡◌, ◌+◌, ◌<◌, ◌≤◌, [], ◌∷◌, length, IfOk};
ghost use Rattle.kql_syntax.specs.Levels.{Level};
ghost use Rattle.kql_syntax.specs.Forms.{level, after, before, option, pair, some};
ghost use Rattle.kql_syntax.specs.Grammar.{any_word, maybe, decl, setting, output_word, step, scan, commas, round};
ghost use Rattle.kql_syntax.specs.Reading.{Reads};

use crate::leaf::output_word;
use crate::parts::{expr_after, word_after};
use kql_items::Items;
use kql_lexer::{Keyword, Token};
use kql_syntax::reader::{Fault, expect, expr, name, take};
use kql_syntax::{Class, Decl, Expr, Name, Output, Scan, Step, Word};
use std::alloc::Global;

/// Reads a first value, if one is given.
fn start_value(alloc: Global, ts: &[Token], at: usize) -> Result<(Option<Expr>, usize), Fault>
    requires { at ≤ length ts.now }
    ensures within { IfOk result (λ r. (at ≤ r.1) × (r.1 ≤ length ts.now)) }
    ensures read { Reads (option (after (Class.Assign ∷ []) (level Level.Expr))) ts.now at result }
{
    if let Some(_word) = take(ts, at, &[Class::Assign]) {
        let (value, end) = expr(alloc, ts, at + 1)?;
        return Ok((Some(value), end));
    }
    Ok((None, at))
}

/// Reads the type of a declared column, and its first value.
fn decl_rest(alloc: Global, ts: &[Token], at: usize) -> Result<((Word, Option<Expr>), usize), Fault>
    requires { at ≤ length ts.now }
    ensures within { IfOk result (λ r. (at < r.1) × (r.1 ≤ length ts.now)) }
    ensures read { Reads (pair (after (Class.Colon ∷ []) any_word) (option (after (Class.Assign ∷ []) (level Level.Expr)))) ts.now at result }
{
    let (kind, k1) = word_after(alloc, ts, at, &[Class::Colon])?;
    let (default, end) = start_value(alloc, ts, k1)?;
    Ok(((kind, default), end))
}

/// Reads a declared column.
fn decl(alloc: Global, ts: &[Token], at: usize) -> Result<(Decl, usize), Fault>
    requires { at ≤ length ts.now }
    ensures within { IfOk result (λ r. (at < r.1) × (r.1 ≤ length ts.now)) }
    ensures read { Reads decl ts.now at result }
{
    let (name, k1) = name(alloc, ts, at)?;
    let (rest, end) = decl_rest(alloc, ts, k1)?;
    let (kind, default) = rest;
    Ok((
        Decl {
            name,
            kind,
            default,
        },
        end,
    ))
}

/// Reads declared columns.
fn decls(alloc: Global, ts: &[Token], at: usize) -> Result<(Items<Decl>, usize), Fault>
    requires { at ≤ length ts.now }
    ensures within { IfOk result (λ r. (at < r.1) × (r.1 ≤ length ts.now)) }
    ensures read { Reads (commas (decl)) ts.now at result }
{
    let mut items = Items::new(alloc);
    let (first, start) = decl(alloc, ts, at)?;
    items.push(first)?;
    let mut end = start;
    'list: while let Some(_between) = take(ts, end, &[Class::Comma]) {
        let (item, next) = decl(alloc, ts, end + 1)?;
        items.push(item)?;
        end = next;
    }
    Ok((items, end))
}

/// Reads a name and the value that it is given.
fn setting(alloc: Global, ts: &[Token], at: usize) -> Result<((Name, Expr), usize), Fault>
    requires { at ≤ length ts.now }
    ensures within { IfOk result (λ r. (at < r.1) × (r.1 ≤ length ts.now)) }
    ensures read { Reads (setting) ts.now at result }
{
    let (name, k1) = name(alloc, ts, at)?;
    let (_sign, k2) = expect(ts, k1, &[Class::Assign])?;
    let (value, end) = expr(alloc, ts, k2)?;
    Ok(((name, value), end))
}

/// Reads names and their values.
fn settings(alloc: Global, ts: &[Token], at: usize) -> Result<(Items<(Name, Expr)>, usize), Fault>
    requires { at ≤ length ts.now }
    ensures within { IfOk result (λ r. (at < r.1) × (r.1 ≤ length ts.now)) }
    ensures read { Reads (commas (setting)) ts.now at result }
{
    let mut items = Items::new(alloc);
    let (first, start) = setting(alloc, ts, at)?;
    items.push(first)?;
    let mut end = start;
    'list: while let Some(_between) = take(ts, end, &[Class::Comma]) {
        let (item, next) = setting(alloc, ts, end + 1)?;
        items.push(item)?;
        end = next;
    }
    Ok((items, end))
}

/// Reads which rows of a step are given out, if that is told.
fn output(alloc: Global, ts: &[Token], at: usize) -> Result<(Option<Output>, usize), Fault>
    requires { at ≤ length ts.now }
    ensures within { IfOk result (λ r. (at ≤ r.1) × (r.1 ≤ length ts.now)) }
    ensures read { Reads (option (after (Class.Key Keyword.Output ∷ []) (after (Class.Assign ∷ []) output_word))) ts.now at result }
{
    if let Some(_word) = take(ts, at, &[Class::Key(Keyword::Output)]) {
        let (_sign, k1) = expect(ts, at + 1, &[Class::Assign])?;
        let (rows, end) = output_word(ts, k1)?;
        return Ok((Some(rows), end));
    }
    Ok((None, at))
}

/// Reads what a step sets, if it sets something.
fn sets(alloc: Global, ts: &[Token], at: usize) -> Result<(Items<(Name, Expr)>, usize), Fault>
    requires { at ≤ length ts.now }
    ensures within { IfOk result (λ r. (at ≤ r.1) × (r.1 ≤ length ts.now)) }
    ensures read { Reads (maybe (after (Class.Arrow ∷ []) (commas setting))) ts.now at result }
{
    if let Some(_word) = take(ts, at, &[Class::Arrow]) {
        let (list, end) = settings(alloc, ts, at + 1)?;
        return Ok((list, end));
    }
    Ok((Items::new(alloc), at))
}

/// Reads the name of the match number, if one is given.
fn match_id(alloc: Global, ts: &[Token], at: usize) -> Result<(Option<Name>, usize), Fault>
    requires { at ≤ length ts.now }
    ensures within { IfOk result (λ r. (at ≤ r.1) × (r.1 ≤ length ts.now)) }
    ensures read { Reads (option (after (Class.Key Keyword.WithMatchId ∷ []) (after (Class.Assign ∷ []) (level Level.Name)))) ts.now at result }
{
    if let Some(_word) = take(ts, at, &[Class::Key(Keyword::WithMatchId)]) {
        let (_sign, k1) = expect(ts, at + 1, &[Class::Assign])?;
        let (name, end) = name(alloc, ts, k1)?;
        return Ok((Some(name), end));
    }
    Ok((None, at))
}

/// Reads the declared columns, if there are some.
fn declared(alloc: Global, ts: &[Token], at: usize) -> Result<(Items<Decl>, usize), Fault>
    requires { at ≤ length ts.now }
    ensures within { IfOk result (λ r. (at ≤ r.1) × (r.1 ≤ length ts.now)) }
    ensures read { Reads (maybe (after (Class.Key Keyword.Declare ∷ []) (round (commas decl)))) ts.now at result }
{
    if let Some(_word) = take(ts, at, &[Class::Key(Keyword::Declare)]) {
        let (_open, k1) = expect(ts, at + 1, &[Class::Open])?;
        let (list, k2) = decls(alloc, ts, k1)?;
        let (_close, end) = expect(ts, k2, &[Class::Close])?;
        return Ok((list, end));
    }
    Ok((Items::new(alloc), at))
}

/// Reads what a step sets and the semicolon behind it.
fn sets_end(alloc: Global, ts: &[Token], at: usize) -> Result<(Items<(Name, Expr)>, usize), Fault>
    requires { at ≤ length ts.now }
    ensures within { IfOk result (λ r. (at < r.1) × (r.1 ≤ length ts.now)) }
    ensures read { Reads (before (maybe (after (Class.Arrow ∷ []) (commas setting))) (Class.Semicolon ∷ [])) ts.now at result }
{
    let (list, k1) = sets(alloc, ts, at)?;
    let (_semicolon, end) = expect(ts, k1, &[Class::Semicolon])?;
    Ok((list, end))
}

/// Reads the condition of a step, and what it sets.
fn step_rest(
    alloc: Global,
    ts: &[Token],
    at: usize,
) -> Result<((Expr, Items<(Name, Expr)>), usize), Fault>
    requires { at ≤ length ts.now }
    ensures within { IfOk result (λ r. (at < r.1) × (r.1 ≤ length ts.now)) }
    ensures read { Reads (pair (after (Class.Colon ∷ []) (level Level.Expr)) (before (maybe (after (Class.Arrow ∷ []) (commas setting))) (Class.Semicolon ∷ []))) ts.now at result }
{
    let (condition, k1) = expr_after(alloc, ts, at, &[Class::Colon])?;
    match sets_end(alloc, ts, k1) {
        Ok((list, end)) => Ok(((condition, list), end)),
        Err(fault) => {
            drop(condition);
            Err(fault)
        }
    }
}

/// Reads a step.
fn step(alloc: Global, ts: &[Token], at: usize) -> Result<(Step, usize), Fault>
    requires { at ≤ length ts.now }
    ensures within { IfOk result (λ r. (at < r.1) × (r.1 ≤ length ts.now)) }
    ensures read { Reads step ts.now at result }
{
    let (place, k1) = expect(ts, at, &[Class::Key(Keyword::Step)])?;
    let (name, k2) = name(alloc, ts, k1)?;
    let (output, k3) = output(alloc, ts, k2)?;
    let (rest, end) = step_rest(alloc, ts, k3)?;
    let (condition, sets) = rest;
    Ok((
        Step {
            place,
            name,
            output,
            condition,
            sets,
        },
        end,
    ))
}

/// Reads steps.
fn steps(alloc: Global, ts: &[Token], at: usize) -> Result<(Items<Step>, usize), Fault>
    requires { at ≤ length ts.now }
    ensures within { IfOk result (λ r. (at < r.1) × (r.1 ≤ length ts.now)) }
    ensures read { Reads (some step) ts.now at result }
{
    let mut items = Items::new(alloc);
    let (first, start) = step(alloc, ts, at)?;
    items.push(first)?;
    let mut end = start;
    'list: while let Some(_start) = take(ts, end, &[Class::Key(Keyword::Step)]) {
        let (item, next) = step(alloc, ts, end)?;
        items.push(item)?;
        end = next;
    }
    Ok((items, end))
}

/// Reads steps in brackets behind `with`.
fn with_steps(alloc: Global, ts: &[Token], at: usize) -> Result<(Items<Step>, usize), Fault>
    requires { at ≤ length ts.now }
    ensures within { IfOk result (λ r. (at < r.1) × (r.1 ≤ length ts.now)) }
    ensures read { Reads (after (Class.Key Keyword.With ∷ []) (round (some step))) ts.now at result }
{
    let (_with, k1) = expect(ts, at, &[Class::Key(Keyword::With)])?;
    let (_open, k2) = expect(ts, k1, &[Class::Open])?;
    let (list, k3) = steps(alloc, ts, k2)?;
    let (_close, end) = expect(ts, k3, &[Class::Close])?;
    Ok((list, end))
}

/// Reads the declared columns of a scan, and its steps.
fn scan_rest(
    alloc: Global,
    ts: &[Token],
    at: usize,
) -> Result<((Items<Decl>, Items<Step>), usize), Fault>
    requires { at ≤ length ts.now }
    ensures within { IfOk result (λ r. (at < r.1) × (r.1 ≤ length ts.now)) }
    ensures read { Reads (pair (maybe (after (Class.Key Keyword.Declare ∷ []) (round (commas decl)))) (after (Class.Key Keyword.With ∷ []) (round (some step)))) ts.now at result }
{
    let (declared, k1) = declared(alloc, ts, at)?;
    let (steps, end) = with_steps(alloc, ts, k1)?;
    Ok(((declared, steps), end))
}

/// Reads a scan behind its word.
pub fn scan(alloc: Global, ts: &[Token], at: usize) -> Result<(Scan, usize), Fault>
    requires { at ≤ length ts.now }
    ensures within { IfOk result (λ r. (at < r.1) × (r.1 ≤ length ts.now)) }
    ensures read { Reads scan ts.now at result }
{
    let (match_id, k1) = match_id(alloc, ts, at)?;
    let (rest, end) = scan_rest(alloc, ts, k1)?;
    let (declared, steps) = rest;
    Ok((
        Scan {
            match_id,
            declared,
            steps,
        },
        end,
    ))
}
