//! The readers of operators that hold no pipe.

ghost use Rattle.std.specs.Prelude.{◌≡◌, ◌+◌, ◌<◌, ◌≤◌, [], ◌∷◌, length, IfOk};
ghost use Rattle.kql_syntax.specs.Levels.{Level};
ghost use Rattle.kql_syntax.specs.Grammar.{column_op, row_op, group_op};
ghost use Rattle.kql_syntax.specs.Reading.{Reads};

use crate::parts::{
    by_keys, distinct_columns, expand_kind_option, expands, items, items_option, make_series,
    names, parse_kind_option, parse_text, renamings, summarize, top_by,
};
use kql_items::Boxed;
use kql_lexer::{Keyword, Token};
use kql_syntax::reader::{Fault, expr, take};
use kql_syntax::{Class, ColumnOp, GroupOp, RowOp};
use std::alloc::Global;

/// Reads an operator over columns, `where` among them.
pub fn column_op(alloc: Global, ts: &[Token], at: usize) -> Result<(ColumnOp, usize), Fault>
    requires { at ≤ length ts.now }
    ensures within { IfOk result (λ r. (at < r.1) × (r.1 ≤ length ts.now)) }
    ensures read { Reads (column_op) ts.now at result }
{
    if let Some(word) = take(ts, at, &[Class::Key(Keyword::Where)]) {
        let (condition, end) = expr(alloc, ts, at + 1)?;
        return Ok((ColumnOp::Where(word, condition), end));
    }
    if let Some(word) = take(ts, at, &[Class::Key(Keyword::Extend)]) {
        let (extended, end) = items(alloc, ts, at + 1)?;
        return Ok((ColumnOp::Extend(word, extended), end));
    }
    if let Some(word) = take(ts, at, &[Class::Key(Keyword::Project)]) {
        let (projected, end) = items(alloc, ts, at + 1)?;
        return Ok((ColumnOp::Project(word, projected), end));
    }
    if let Some(word) = take(ts, at, &[Class::Key(Keyword::Serialize)]) {
        let (added, end) = items_option(alloc, ts, at + 1)?;
        return Ok((ColumnOp::Serialize(word, added), end));
    }
    if let Some(word) = take(ts, at, &[Class::Key(Keyword::ProjectAway)]) {
        let (away, end) = names(alloc, ts, at + 1)?;
        return Ok((ColumnOp::ProjectAway(word, away), end));
    }
    if let Some(word) = take(ts, at, &[Class::Key(Keyword::ProjectKeep)]) {
        let (kept, end) = names(alloc, ts, at + 1)?;
        return Ok((ColumnOp::ProjectKeep(word, kept), end));
    }
    if let Some(word) = take(ts, at, &[Class::Key(Keyword::ProjectRename)]) {
        let (renamed, end) = renamings(alloc, ts, at + 1)?;
        return Ok((ColumnOp::ProjectRename(word, renamed), end));
    }
    Err(Fault::Refused(at))
}

/// Reads an operator that chooses or orders rows.
pub fn row_op(alloc: Global, ts: &[Token], at: usize) -> Result<(RowOp, usize), Fault>
    requires { at ≤ length ts.now }
    ensures within { IfOk result (λ r. (at < r.1) × (r.1 ≤ length ts.now)) }
    ensures read { Reads (row_op) ts.now at result }
{
    if let Some(word) = take(ts, at, &[Class::Key(Keyword::Take)]) {
        let (number, end) = expr(alloc, ts, at + 1)?;
        return Ok((RowOp::Take(word, number), end));
    }
    if let Some(word) = take(ts, at, &[Class::Key(Keyword::Limit)]) {
        let (limit, end) = expr(alloc, ts, at + 1)?;
        return Ok((RowOp::Limit(word, limit), end));
    }
    if let Some(word) = take(ts, at, &[Class::Key(Keyword::Count)]) {
        return Ok((RowOp::Count(word), at + 1));
    }
    if let Some(word) = take(ts, at, &[Class::Key(Keyword::Sort)]) {
        let (keys, end) = by_keys(alloc, ts, at + 1)?;
        return Ok((RowOp::Sort(word, keys), end));
    }
    if let Some(word) = take(ts, at, &[Class::Key(Keyword::Order)]) {
        let (order, end) = by_keys(alloc, ts, at + 1)?;
        return Ok((RowOp::Order(word, order), end));
    }
    if let Some(word) = take(ts, at, &[Class::Key(Keyword::Top)]) {
        let (top, end) = top_by(alloc, ts, at + 1)?;
        let both = Boxed::new(alloc, top)?;
        return Ok((RowOp::Top(word, both), end));
    }
    if let Some(word) = take(ts, at, &[Class::Key(Keyword::Distinct)]) {
        let (columns, end) = distinct_columns(alloc, ts, at + 1)?;
        return Ok((RowOp::Distinct(word, columns), end));
    }
    Err(Fault::Refused(at))
}

/// Reads an operator over groups of rows, or over parts of cells.
pub fn group_op(alloc: Global, ts: &[Token], at: usize) -> Result<(GroupOp, usize), Fault>
    requires { at ≤ length ts.now }
    ensures within { IfOk result (λ r. (at < r.1) × (r.1 ≤ length ts.now)) }
    ensures read { Reads (group_op) ts.now at result }
{
    if let Some(word) = take(ts, at, &[Class::Key(Keyword::Summarize)]) {
        let (summary, end) = summarize(alloc, ts, at + 1)?;
        return Ok((GroupOp::Summarize(word, summary), end));
    }
    if let Some(word) = take(ts, at, &[Class::Key(Keyword::MakeSeries)]) {
        let (series, end) = make_series(alloc, ts, at + 1)?;
        let boxed = Boxed::new(alloc, series)?;
        return Ok((GroupOp::MakeSeries(word, boxed), end));
    }
    if let Some(word) = take(ts, at, &[Class::Key(Keyword::MvExpand)]) {
        let (kind, k1) = expand_kind_option(alloc, ts, at + 1)?;
        let (list, end) = expands(alloc, ts, k1)?;
        return Ok((GroupOp::MvExpand(word, kind, list), end));
    }
    if let Some(word) = take(ts, at, &[Class::Key(Keyword::Parse)]) {
        let (parse_kind, k1) = parse_kind_option(alloc, ts, at + 1)?;
        let (rest, end) = parse_text(alloc, ts, k1)?;
        let (text, pattern) = rest;
        return Ok((GroupOp::Parse(word, parse_kind, text, pattern), end));
    }
    Err(Fault::Refused(at))
}
