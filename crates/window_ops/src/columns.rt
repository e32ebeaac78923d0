//! The values of an expression at so many rows of a table from one on.
ghost use Rattle.std.specs.Prelude.{◌≡◌, IfOk};
ghost use Rattle.window_ops.specs.Columns.{IsColumn, call_down, chain_down, columns_of, linked_down, path_down, values_from};
ghost use Rattle.window_ops.specs.Fitting.{AreReady, IsReady, LinksReady};

use crate::applied::{applied_rows, pair};
use crate::calls::{carries_behind, is_running};
use crate::carries::Carry;
use crate::parts::{item_part, link_part, link_parts, part, parts, table_facts};
use crate::windows::{plain_part, window_column};
use kql_bound::{BExpr, Link};
use kql_cells::Kind;
use kql_functions::{DynamicFunc, Func, result_kind};
use kql_meaning::kind_of;
use kql_values::{Table, Vector};
use std::alloc::{AllocError, Global};

/// The values of an expression at so many rows from one on. The carries of its calls of `row_cumsum` and `row_number` are those of the
/// rows before these, in the order in which the calls stand; others may stand behind them, and before the first row there may be none.
#[cycle(column)]
#[tactic(auto, using(crate::proofs::DownSteps::down_steps))]
pub(crate) fn column(
    alloc: Global,
    e: &BExpr,
    t: &Table,
    from: usize,
    count: usize,
    carries: &[Carry],
) -> Result<Vector, AllocError>
    requires ready { IsReady e.now t.now from count carries.now }
    ensures values { IfOk result (λ v. v ≡ values_from e.now t.now from count) }
{
    if !is_running(e) {
        return plain_part(alloc, e, t, from, count, carries);
    }
    match e {
        BExpr::Literal(_) => plain_part(alloc, e, t, from, count, carries),
        BExpr::Column(_) => plain_part(alloc, e, t, from, count, carries),
        BExpr::Step(_) => plain_part(alloc, e, t, from, count, carries),
        BExpr::Call(f, args) => {
            let kind = stored_kind(alloc, e, t)?;
            let args = parts(args, t, from, count, carries);
            call_column(alloc, *f, kind, args, t, from, count, carries)
        }
        BExpr::Chain(first, links) => {
            let first = part(first, t, from, count, carries);
            let rest = carries_behind(first, carries);
            let links = link_parts(links, t, from, count, rest);
            let kind = kind_of(alloc, first, t.schema().columns())?;
            let values = column(alloc, first, t, from, count, carries)?;
            let left = formed(values, first, t, from, count, carries);
            chain_column(alloc, kind, left, links, t, from, count, rest)
        }
        BExpr::Path(whole, steps) => {
            let whole = part(whole, t, from, count, carries);
            let rest = carries_behind(whole, carries);
            let steps = parts(steps, t, from, count, rest);
            let values = column(alloc, whole, t, from, count, carries)?;
            let left = formed(values, whole, t, from, count, carries);
            path_column(alloc, left, steps, t, from, count, rest)
        }
        BExpr::Window(f, args) => window_column(alloc, e, *f, args, t, from, count, carries),
        BExpr::Aggregate(_, _) => plain_part(alloc, e, t, from, count, carries),
    }
}

// The values of several expressions.
#[cycle(column)]
#[tactic(auto, using(crate::proofs::ReadySteps::item_steps, crate::proofs::DownSteps::list_steps))]
fn columns(
    alloc: Global,
    es: &[BExpr],
    t: &Table,
    from: usize,
    count: usize,
    carries: &[Carry],
) -> Result<Vec<Vector>, AllocError>
    requires ready { AreReady es.now t.now from count carries.now }
    ensures values { IfOk result (λ vs. vs.items ≡ columns_of es.now t.now from count) }
{
    let mut vectors = Vec::with_capacity(alloc, es.len())?;
    let mut rest = carries;
    'parts: for e in es {
        let e = item_part(e, t, from, count, rest);
        let vector = column(alloc, e, t, from, count, rest)?;
        vectors.push(vector)?;
        let next = carries_behind(e, rest);
        rest = next;
    }
    Ok(vectors)
}

// What a function gives for the values of its arguments.
#[cycle(column)]
#[tactic(auto, using(crate::proofs::DownSteps::call_steps))]
fn call_column(
    alloc: Global,
    f: Func,
    kind: Kind,
    args: &[BExpr],
    t: &Table,
    from: usize,
    count: usize,
    carries: &[Carry],
) -> Result<Vector, AllocError>
    requires ready { AreReady args.now t.now from count carries.now }
    ensures values { IfOk result (λ v. v ≡ call_down f args.now t.now from count) }
{
    table_facts(t);
    let vectors = columns(alloc, args, t, from, count, carries)?;
    applied_rows(alloc, f, kind, vectors.as_slice(), count)
}

// What the signs of a chain make of a first column of a type.
#[cycle(column)]
#[tactic(auto, using(crate::proofs::ReadySteps::link_steps, crate::proofs::DownSteps::chain_steps))]
fn chain_column(
    alloc: Global,
    kind: Option<Kind>,
    first: Vector,
    links: &[Link],
    t: &Table,
    from: usize,
    count: usize,
    carries: &[Carry],
) -> Result<Vector, AllocError>
    requires ready { LinksReady links.now t.now from count carries.now }
    requires column { IsColumn count first }
    ensures values { IfOk result (λ v. v ≡ chain_down links.now t.now from count first) }
{
    let mut left = first;
    let mut kind = kind;
    let mut rest = carries;
    'links: for link in links {
        kind = kind_after(alloc, kind, link, t)?;
        let stored = kind.unwrap_or(Kind::Dynamic);
        let right = link_part(link, t, from, count, rest);
        let next = linked_column(
            alloc,
            link.0.func(),
            stored,
            left,
            right,
            t,
            from,
            count,
            rest,
        )?;
        left = next;
        let behind = carries_behind(right, rest);
        rest = behind;
    }
    Ok(left)
}

// What the steps of a path make of a first column.
#[cycle(column)]
#[tactic(auto, using(crate::proofs::ReadySteps::item_steps, crate::proofs::DownSteps::path_steps))]
fn path_column(
    alloc: Global,
    whole: Vector,
    steps: &[BExpr],
    t: &Table,
    from: usize,
    count: usize,
    carries: &[Carry],
) -> Result<Vector, AllocError>
    requires ready { AreReady steps.now t.now from count carries.now }
    requires column { IsColumn count whole }
    ensures values { IfOk result (λ v. v ≡ path_down steps.now t.now from count whole) }
{
    let mut left = whole;
    let mut rest = carries;
    'steps: for step in steps {
        let look = Func::Dynamic(DynamicFunc::At);
        let step = item_part(step, t, from, count, rest);
        let next = linked_column(alloc, look, Kind::Dynamic, left, step, t, from, count, rest)?;
        left = next;
        let behind = carries_behind(step, rest);
        rest = behind;
    }
    Ok(left)
}

// The column of a part. Its values are well formed.
#[tactic(auto, using(crate::proofs::DownSteps::formed_steps))]
fn formed(
    values: Vector,
    _e: &BExpr,
    t: &Table,
    _from: usize,
    _count: usize,
    _carries: &[Carry],
) -> Vector
    requires ready { IsReady _e.now t.now _from _count _carries.now }
    requires values { values ≡ values_from _e.now t.now _from _count }
    ensures same { result ≡ values }
    ensures column { IsColumn _count result }
{
    table_facts(t);
    values
}

// What a function of two values gives for a column and a part.
#[cycle(column)]
#[tactic(auto, using(crate::proofs::DownSteps::linked_steps))]
fn linked_column(
    alloc: Global,
    f: Func,
    kind: Kind,
    left: Vector,
    right: &BExpr,
    t: &Table,
    from: usize,
    count: usize,
    carries: &[Carry],
) -> Result<Vector, AllocError>
    requires ready { IsReady right.now t.now from count carries.now }
    requires column { IsColumn count left }
    ensures values { IfOk result (λ v. v ≡ linked_down f right.now t.now from count left) }
    ensures column { IfOk result (IsColumn count) }
{
    table_facts(t);
    let values = column(alloc, right, t, from, count, carries)?;
    let both = pair(alloc, left, values)?;
    applied_rows(alloc, f, kind, both.as_slice(), count)
}

// The type as which the values of an expression are stored.
fn stored_kind(alloc: Global, e: &BExpr, t: &Table) -> Result<Kind, AllocError> {
    let kind = kind_of(alloc, e, t.schema().columns())?;
    Ok(kind.unwrap_or(Kind::Dynamic))
}

// The type of a chain behind a sign, from that in front of it.
fn kind_after(
    alloc: Global,
    left: Option<Kind>,
    link: &Link,
    t: &Table,
) -> Result<Option<Kind>, AllocError> {
    let right = kind_of(alloc, &link.1, t.schema().columns())?;
    match (left, right) {
        (Some(a), Some(b)) => Ok(result_kind(link.0.func(), &[a, b])),
        _ => Ok(None),
    }
}
