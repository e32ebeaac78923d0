//! The readers of sources, pipes and the operators that may hold pipes.

ghost use Rattle.std.specs.Prelude.{◌≡◌, ◌+◌, ◌<◌, ◌≤◌, [], ◌∷◌, length, IfOk};
ghost use Rattle.kql_syntax.specs.Levels.{Level};
ghost use Rattle.kql_syntax.specs.Forms.{level, many, after, listed, option, pair};
ghost use Rattle.kql_syntax.specs.Grammar.{hint, of_kind, union, join, join_sign, partition, table_op, join_key, commas, round};
ghost use Rattle.kql_syntax.specs.Reading.{Reads};

use kql_items::{Boxed, Items};
use kql_lexer::{Keyword, Token};
use kql_operators::{
    column_op, group_op, hints, items, join_kind, name_after, on_keys, range, row_op, scan,
    union_kind_option,
};
use kql_syntax::reader::{Fault, expect, name, take};
use kql_syntax::{
    Class, Hint, Join, JoinSign, Name, On, Op, Partition, Pipe, Source, TableArg, TableOp, Union,
};
use std::alloc::Global;

/// The kinds of a join.
const JOIN_KINDS: [Class; 9] = [
    Class::Key(Keyword::Innerunique),
    Class::Key(Keyword::Inner),
    Class::Key(Keyword::Leftouter),
    Class::Key(Keyword::Rightouter),
    Class::Key(Keyword::Fullouter),
    Class::Key(Keyword::Leftsemi),
    Class::Key(Keyword::Rightsemi),
    Class::Key(Keyword::Leftanti),
    Class::Key(Keyword::Rightanti),
];

/// The kinds of a lookup.
const LOOKUP_KINDS: [Class; 2] = [Class::Key(Keyword::Leftouter), Class::Key(Keyword::Inner)];

/// The names of operators over columns.
const COLUMN_OPS: [Class; 7] = [
    Class::Key(Keyword::Where),
    Class::Key(Keyword::Extend),
    Class::Key(Keyword::Project),
    Class::Key(Keyword::Serialize),
    Class::Key(Keyword::ProjectAway),
    Class::Key(Keyword::ProjectKeep),
    Class::Key(Keyword::ProjectRename),
];

/// The names of operators that choose or order rows.
const ROW_OPS: [Class; 7] = [
    Class::Key(Keyword::Take),
    Class::Key(Keyword::Limit),
    Class::Key(Keyword::Count),
    Class::Key(Keyword::Sort),
    Class::Key(Keyword::Order),
    Class::Key(Keyword::Top),
    Class::Key(Keyword::Distinct),
];

/// The names of operators over groups of rows, or over parts of cells.
const GROUP_OPS: [Class; 4] = [
    Class::Key(Keyword::Summarize),
    Class::Key(Keyword::MakeSeries),
    Class::Key(Keyword::MvExpand),
    Class::Key(Keyword::Parse),
];

/// The kind of a join with the hints after it, its table and its keys.
type Kinded = (Option<(JoinSign, Items<Hint>)>, (TableArg, Items<On>));

/// Reads tables.
#[cycle(pipe)]
fn tables(alloc: Global, ts: &[Token], at: usize) -> Result<(Items<TableArg>, usize), Fault>
    requires { at ≤ length ts.now }
    ensures within { IfOk result (λ r. (at < r.1) × (r.1 ≤ length ts.now)) }
    ensures read { Reads (commas (level Level.TableArg)) ts.now at result }
{
    let mut items = Items::new(alloc);
    let (first, start) = table_arg(alloc, ts, at)?;
    items.push(first)?;
    let mut end = start;
    'list: while let Some(_between) = take(ts, end, &[Class::Comma]) {
        let (item, next) = table_arg(alloc, ts, end + 1)?;
        items.push(item)?;
        end = next;
    }
    Ok((items, end))
}

/// Reads a table by name, or a pipe in brackets.
#[cycle(pipe)]
fn table_arg(alloc: Global, ts: &[Token], at: usize) -> Result<(TableArg, usize), Fault>
    requires { at ≤ length ts.now }
    ensures within { IfOk result (λ r. (at < r.1) × (r.1 ≤ length ts.now)) }
    ensures read { Reads (level Level.TableArg) ts.now at result }
{
    if let Some(open) = take(ts, at, &[Class::Open]) {
        let (inner, k1) = boxed_pipe(alloc, ts, at + 1)?;
        let (_close, end) = expect(ts, k1, &[Class::Close])?;
        return Ok((TableArg::Pipe(open, inner), end));
    }
    let (table, end) = name(alloc, ts, at)?;
    Ok((TableArg::Table(table), end))
}

/// Reads a union behind its word.
#[cycle(pipe)]
fn union(alloc: Global, ts: &[Token], at: usize) -> Result<(Union, usize), Fault>
    requires { at ≤ length ts.now }
    ensures within { IfOk result (λ r. (at < r.1) × (r.1 ≤ length ts.now)) }
    ensures read { Reads (union) ts.now at result }
{
    let (kind, k1) = union_kind_option(alloc, ts, at)?;
    let (tables, end) = tables(alloc, ts, k1)?;
    Ok((Union { kind, tables }, end))
}

/// Reads the operators of a partition in brackets.
#[cycle(pipe)]
fn part_body(alloc: Global, ts: &[Token], at: usize) -> Result<(Items<Op>, usize), Fault>
    requires { at ≤ length ts.now }
    ensures within { IfOk result (λ r. (at < r.1) × (r.1 ≤ length ts.now)) }
    ensures read { Reads (round (listed (Class.Bar ∷ []) (level Level.Op))) ts.now at result }
{
    let (_open, k1) = expect(ts, at, &[Class::Open])?;
    let (list, k2) = part_ops(alloc, ts, k1)?;
    let (_close, end) = expect(ts, k2, &[Class::Close])?;
    Ok((list, end))
}

/// Reads the column of a partition, and its operators.
#[cycle(pipe)]
fn partition_rest(
    alloc: Global,
    ts: &[Token],
    at: usize,
) -> Result<((Name, Items<Op>), usize), Fault>
    requires { at ≤ length ts.now }
    ensures within { IfOk result (λ r. (at < r.1) × (r.1 ≤ length ts.now)) }
    ensures read { Reads (pair (after (Class.Key Keyword.By ∷ []) (level Level.Name)) (round (listed (Class.Bar ∷ []) (level Level.Op)))) ts.now at result }
{
    let (column, k1) = name_after(alloc, ts, at, &[Class::Key(Keyword::By)])?;
    let (ops, end) = part_body(alloc, ts, k1)?;
    Ok(((column, ops), end))
}

/// Reads a partition behind its word.
#[cycle(pipe)]
fn partition(alloc: Global, ts: &[Token], at: usize) -> Result<(Partition, usize), Fault>
    requires { at ≤ length ts.now }
    ensures within { IfOk result (λ r. (at < r.1) × (r.1 ≤ length ts.now)) }
    ensures read { Reads partition ts.now at result }
{
    let (hints, k1) = hints(alloc, ts, at)?;
    let (rest, end) = partition_rest(alloc, ts, k1)?;
    let (column, ops) = rest;
    Ok((Partition { hints, column, ops }, end))
}

/// Reads operators with bars between them.
#[cycle(pipe)]
fn part_ops(alloc: Global, ts: &[Token], at: usize) -> Result<(Items<Op>, usize), Fault>
    requires { at ≤ length ts.now }
    ensures within { IfOk result (λ r. (at < r.1) × (r.1 ≤ length ts.now)) }
    ensures read { Reads (listed (Class.Bar ∷ []) (level Level.Op)) ts.now at result }
{
    let mut items = Items::new(alloc);
    let (first, start) = op(alloc, ts, at)?;
    items.push(first)?;
    let mut end = start;
    'list: while let Some(_between) = take(ts, end, &[Class::Bar]) {
        let (item, next) = op(alloc, ts, end + 1)?;
        items.push(item)?;
        end = next;
    }
    Ok((items, end))
}

/// Reads operators, each after a bar.
#[cycle(pipe)]
fn ops(alloc: Global, ts: &[Token], at: usize) -> Result<(Items<Op>, usize), Fault>
    requires { at ≤ length ts.now }
    ensures within { IfOk result (λ r. (at ≤ r.1) × (r.1 ≤ length ts.now)) }
    ensures read { Reads (many (after (Class.Bar ∷ []) (level Level.Op))) ts.now at result }
{
    let mut more = Items::new(alloc);
    let mut end = at;
    'chain: while let Some(_bar) = take(ts, end, &[Class::Bar]) {
        let (term, next) = op(alloc, ts, end + 1)?;
        more.push(term)?;
        end = next;
    }
    Ok((more, end))
}

/// Reads a source and the operators over it.
#[cycle(pipe)]
pub fn pipe(alloc: Global, ts: &[Token], at: usize) -> Result<(Pipe, usize), Fault>
    requires { at ≤ length ts.now }
    ensures within { IfOk result (λ r. (at < r.1) × (r.1 ≤ length ts.now)) }
    ensures read { Reads (level Level.Pipe) ts.now at result }
{
    let (source, k1) = source(alloc, ts, at)?;
    match ops(alloc, ts, k1) {
        Ok((ops, end)) => Ok((Pipe { source, ops }, end)),
        Err(fault) => {
            drop(source);
            Err(fault)
        }
    }
}

/// Reads a pipe into a box.
#[cycle(pipe)]
fn boxed_pipe(alloc: Global, ts: &[Token], at: usize) -> Result<(Boxed<Pipe>, usize), Fault>
    requires { at ≤ length ts.now }
    ensures within { IfOk result (λ r. (at < r.1) × (r.1 ≤ length ts.now)) }
    ensures read { Reads (level Level.Pipe) ts.now at result }
{
    let (tree, end) = pipe(alloc, ts, at)?;
    Ok((Boxed::new(alloc, tree)?, end))
}

/// Reads the table of a join, and its keys.
#[cycle(pipe)]
fn join_rest(
    alloc: Global,
    ts: &[Token],
    at: usize,
) -> Result<((TableArg, Items<On>), usize), Fault>
    requires { at ≤ length ts.now }
    ensures within { IfOk result (λ r. (at < r.1) × (r.1 ≤ length ts.now)) }
    ensures read { Reads (pair (level Level.TableArg) (after (Class.Key Keyword.On ∷ []) (commas join_key))) ts.now at result }
{
    let (table, k1) = table_arg(alloc, ts, at)?;
    let (list, end) = on_keys(alloc, ts, k1)?;
    Ok(((table, list), end))
}

/// Reads the kind of a join, its table and its keys.
#[cycle(pipe)]
fn join_kinded(
    alloc: Global,
    ts: &[Token],
    at: usize,
    kinds: &[Class],
) -> Result<(Kinded, usize), Fault>
    requires { at ≤ length ts.now }
    ensures within { IfOk result (λ r. (at < r.1) × (r.1 ≤ length ts.now)) }
    ensures read { Reads (pair (option (pair (of_kind (join_sign kinds.now)) (many hint))) (pair (level Level.TableArg) (after (Class.Key Keyword.On ∷ []) (commas join_key)))) ts.now at result }
{
    let (kind, k1) = join_kind(alloc, ts, at, kinds)?;
    let (rest, end) = join_rest(alloc, ts, k1)?;
    Ok(((kind, rest), end))
}

/// Reads a join behind its word.
#[cycle(pipe)]
fn join(alloc: Global, ts: &[Token], at: usize, kinds: &[Class]) -> Result<(Join, usize), Fault>
    requires { at ≤ length ts.now }
    ensures within { IfOk result (λ r. (at < r.1) × (r.1 ≤ length ts.now)) }
    ensures read { Reads (join kinds.now) ts.now at result }
{
    let (hints, k1) = hints(alloc, ts, at)?;
    let (rest, end) = join_kinded(alloc, ts, k1, kinds)?;
    let (kind, (table, on)) = rest;
    Ok((
        Join {
            hints,
            kind,
            table,
            on,
        },
        end,
    ))
}

/// Reads an operator over other tables, or over runs of rows.
#[cycle(pipe)]
fn table_op(alloc: Global, ts: &[Token], at: usize) -> Result<(TableOp, usize), Fault>
    requires { at ≤ length ts.now }
    ensures within { IfOk result (λ r. (at < r.1) × (r.1 ≤ length ts.now)) }
    ensures read { Reads (table_op) ts.now at result }
{
    if let Some(word) = take(ts, at, &[Class::Key(Keyword::Join)]) {
        let (joined, end) = join(alloc, ts, at + 1, &JOIN_KINDS)?;
        return Ok((TableOp::Join(word, joined), end));
    }
    if let Some(word) = take(ts, at, &[Class::Key(Keyword::Lookup)]) {
        let (looked_up, end) = join(alloc, ts, at + 1, &LOOKUP_KINDS)?;
        return Ok((TableOp::Lookup(word, looked_up), end));
    }
    if let Some(word) = take(ts, at, &[Class::Key(Keyword::Union)]) {
        let (tables, end) = union(alloc, ts, at + 1)?;
        return Ok((TableOp::Union(word, tables), end));
    }
    if let Some(word) = take(ts, at, &[Class::Key(Keyword::Scan)]) {
        let (steps, end) = scan(alloc, ts, at + 1)?;
        return Ok((TableOp::Scan(word, steps), end));
    }
    if let Some(word) = take(ts, at, &[Class::Key(Keyword::Partition)]) {
        let (parts, end) = partition(alloc, ts, at + 1)?;
        return Ok((TableOp::Partition(word, parts), end));
    }
    Err(Fault::Refused(at))
}

/// Reads an operator.
#[cycle(pipe)]
fn op(alloc: Global, ts: &[Token], at: usize) -> Result<(Op, usize), Fault>
    requires { at ≤ length ts.now }
    ensures within { IfOk result (λ r. (at < r.1) × (r.1 ≤ length ts.now)) }
    ensures read { Reads (level Level.Op) ts.now at result }
{
    if let Some(_word) = take(ts, at, &COLUMN_OPS) {
        let (columns, end) = column_op(alloc, ts, at)?;
        return Ok((Op::Columns(columns), end));
    }
    if let Some(_word) = take(ts, at, &ROW_OPS) {
        let (rows, end) = row_op(alloc, ts, at)?;
        return Ok((Op::Rows(rows), end));
    }
    if let Some(_word) = take(ts, at, &GROUP_OPS) {
        let (groups, end) = group_op(alloc, ts, at)?;
        return Ok((Op::Groups(groups), end));
    }
    let (tables, end) = table_op(alloc, ts, at)?;
    Ok((Op::Tables(tables), end))
}

/// Reads where rows come from.
#[cycle(pipe)]
fn source(alloc: Global, ts: &[Token], at: usize) -> Result<(Source, usize), Fault>
    requires { at ≤ length ts.now }
    ensures within { IfOk result (λ r. (at < r.1) × (r.1 ≤ length ts.now)) }
    ensures read { Reads (level Level.Source) ts.now at result }
{
    if let Some(word) = take(ts, at, &[Class::Key(Keyword::Range)]) {
        let (numbers, end) = range(alloc, ts, at + 1)?;
        let boxed = Boxed::new(alloc, numbers)?;
        return Ok((Source::Range(word, boxed), end));
    }
    if let Some(word) = take(ts, at, &[Class::Key(Keyword::Print)]) {
        let (columns, end) = items(alloc, ts, at + 1)?;
        return Ok((Source::Print(word, columns), end));
    }
    if let Some(word) = take(ts, at, &[Class::Key(Keyword::Union)]) {
        let (tables, end) = union(alloc, ts, at + 1)?;
        return Ok((Source::Union(word, tables), end));
    }
    let (table, end) = name(alloc, ts, at)?;
    Ok((Source::Table(table), end))
}
