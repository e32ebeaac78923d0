//! The readers of let statements and of a whole query.

ghost use Rattle.std.specs.Prelude.{◌≡◌, ◌+◌, ◌<◌, ◌≤◌, [], ◌∷◌, length, IfOk};
ghost use Rattle.std.specs.Bool.{OnTrue, OnFalse};
ghost use Rattle.kql_syntax.specs.Levels.{Level};
ghost use Rattle.kql_syntax.specs.Forms.{level, many, option, pair, mark, before};
ghost use Rattle.kql_syntax.specs.Derives.{Found};
ghost use Rattle.kql_syntax.specs.Reading.{Reads};
ghost use Rattle.kql_parser.specs.Piped.{Piped, Unpiped};
ghost use Rattle.kql_parser.specs.Query.{let_body, let_statement, main_pipe, query};

use crate::bodies::body_of;
use crate::look::is_piped;
use crate::pipes::pipe;
use kql_items::Items;
use kql_lexer::{Keyword, Place, Token};
use kql_syntax::reader::{Fault, expect, expr, name, take};
use kql_syntax::{Class, Let, LetBody, Name, Pipe, Query};
use std::alloc::Global;

/// Reads the body of a let statement.
fn let_body(alloc: Global, ts: &[Token], at: usize) -> Result<(LetBody, usize), Fault>
    requires { at ≤ length ts.now }
    ensures within { IfOk result (λ r. (at < r.1) × (r.1 ≤ length ts.now)) }
    ensures read { Reads let_body ts.now at result }
{
    if is_piped(ts, at) {
        let (rows, end) = pipe(alloc, ts, at)?;
        return Ok((LetBody::Pipe(rows), end));
    }
    let (value, end) = expr(alloc, ts, at)?;
    let body = body_of(alloc, value)?;
    Ok((body, end))
}

/// Reads the name of a let statement and its `=`.
fn let_name(alloc: Global, ts: &[Token], at: usize) -> Result<(Name, usize), Fault>
    requires { at ≤ length ts.now }
    ensures within { IfOk result (λ r. (at < r.1) × (r.1 ≤ length ts.now)) }
    ensures read { Reads (before (level Level.Name) (Class.Assign ∷ [])) ts.now at result }
{
    let (name, k1) = name(alloc, ts, at)?;
    let (_sign, end) = expect(ts, k1, &[Class::Assign])?;
    Ok((name, end))
}

/// Reads the body of a let statement and its semicolon.
fn let_end(alloc: Global, ts: &[Token], at: usize) -> Result<(LetBody, usize), Fault>
    requires { at ≤ length ts.now }
    ensures within { IfOk result (λ r. (at < r.1) × (r.1 ≤ length ts.now)) }
    ensures read { Reads (before let_body (Class.Semicolon ∷ [])) ts.now at result }
{
    let (body, k1) = let_body(alloc, ts, at)?;
    match expect(ts, k1, &[Class::Semicolon]) {
        Ok((_semicolon, end)) => Ok((body, end)),
        Err(fault) => {
            drop(body);
            Err(fault)
        }
    }
}

/// Reads a let statement behind its word.
fn let_rest(alloc: Global, ts: &[Token], at: usize) -> Result<((Name, LetBody), usize), Fault>
    requires { at ≤ length ts.now }
    ensures within { IfOk result (λ r. (at < r.1) × (r.1 ≤ length ts.now)) }
    ensures read { Reads (pair (before (level Level.Name) (Class.Assign ∷ [])) (before let_body (Class.Semicolon ∷ []))) ts.now at result }
{
    let (name, k1) = let_name(alloc, ts, at)?;
    let (body, end) = let_end(alloc, ts, k1)?;
    Ok(((name, body), end))
}

/// Reads let statements.
fn lets(alloc: Global, ts: &[Token], at: usize) -> Result<(Items<Let>, usize), Fault>
    requires { at ≤ length ts.now }
    ensures within { IfOk result (λ r. (at ≤ r.1) × (r.1 ≤ length ts.now)) }
    ensures read { Reads (many let_statement) ts.now at result }
{
    let mut more = Items::new(alloc);
    let mut end = at;
    'chain: while let Some(place) = take(ts, end, &[Class::Key(Keyword::Let)]) {
        let (term, next) = let_rest(alloc, ts, end + 1)?;
        more.push(Let {
            place,
            name: term.0,
            body: term.1,
        })?;
        end = next;
    }
    Ok((more, end))
}

/// Reads a semicolon, if one stands here.
fn semicolon(ts: &[Token], at: usize) -> (Option<Place>, usize)
    requires { at ≤ length ts.now }
    ensures within { (at ≤ result.1) × (result.1 ≤ length ts.now) }
    ensures read { Found (option (mark (Class.Semicolon ∷ []))) ts.now at result.1 result.0 }
{
    if let Some(place) = take(ts, at, &[Class::Semicolon]) {
        return (Some(place), at + 1);
    }
    (None, at)
}

/// Reads a pipe, perhaps a semicolon, and the end mark.
fn pipe_end(alloc: Global, ts: &[Token], at: usize) -> Result<(Pipe, usize), Fault>
    requires { at ≤ length ts.now }
    ensures within { IfOk result (λ r. (at < r.1) × (r.1 ≤ length ts.now)) }
    ensures read { Reads (before main_pipe (Class.End ∷ [])) ts.now at result }
{
    let (main, k1) = pipe(alloc, ts, at)?;
    let (_semicolon, k2) = semicolon(ts, k1);
    match expect(ts, k2, &[Class::End]) {
        Ok((_mark, end)) => Ok((main, end)),
        Err(fault) => {
            drop(main);
            Err(fault)
        }
    }
}

/// Reads a query and the end mark.
pub(crate) fn query(alloc: Global, ts: &[Token], at: usize) -> Result<(Query, usize), Fault>
    requires { at ≤ length ts.now }
    ensures within { IfOk result (λ r. (at < r.1) × (r.1 ≤ length ts.now)) }
    ensures read { Reads query ts.now at result }
{
    let (lets, k1) = lets(alloc, ts, at)?;
    let (main, end) = pipe_end(alloc, ts, k1)?;
    Ok((Query { lets, main }, end))
}
