//! Items with window functions over the columns `n` and `b`.

use crate::table::Made;
use kql_bound::{BExpr, BItem, BItems, ChainSign, Exprs, Link, Lit};
use kql_cells::{KText, Kind, Value};
use kql_functions::Window;
use kql_items::{Boxed, Items};
use std::alloc::Global;

fn both<A: Drop, B: Drop>(a: Made<A>, b: Made<B>) -> Made<(A, B)> {
    let a = a?;
    let b = b?;
    Ok((a, b))
}

fn with<T: Drop>(list: Made<Items<T>>, x: Made<T>) -> Made<Items<T>> {
    let (mut list, x) = both(list, x)?;
    list.push(x)?;
    Ok(list)
}

fn none<T: Drop>(alloc: Global) -> Made<Items<T>> {
    Ok(Items::new(alloc))
}

fn one<T: Drop>(alloc: Global, x: Made<T>) -> Made<Items<T>> {
    with(none(alloc), x)
}

fn column(alloc: Global, name: &str) -> Made<BExpr> {
    Ok(BExpr::Column(KText::from_str(alloc, name)?))
}

fn long(n: i64) -> Made<BExpr> {
    Ok(BExpr::Literal(Lit {
        kind: Kind::Long,
        value: Value::Long(n),
    }))
}

fn window(f: Window, args: Made<Exprs>) -> Made<BExpr> {
    Ok(BExpr::Window(f, args?))
}

fn link(sign: ChainSign, e: Made<BExpr>) -> Made<Link> {
    Ok((sign, e?))
}

fn chain(alloc: Global, first: Made<BExpr>, links: Made<Items<Link>>) -> Made<BExpr> {
    match both(first, links) {
        Ok((first, links)) => Ok(BExpr::Chain(Boxed::new(alloc, first)?, links)),
        Err(e) => Err(e),
    }
}

fn item(alloc: Global, name: &str, e: Made<BExpr>) -> Made<BItem> {
    match both(one(alloc, KText::from_str(alloc, name)), e) {
        Ok((names, expr)) => Ok(BItem { names, expr }),
        Err(e) => Err(e),
    }
}

// `row_cumsum(n, b)`
fn running_sum(alloc: Global) -> Made<BExpr> {
    let args = with(one(alloc, column(alloc, "n")), column(alloc, "b"));
    window(Window::RowCumsum, args)
}

// `row_number(start, b)`
fn number_from(alloc: Global, start: i64) -> Made<BExpr> {
    let args = with(one(alloc, long(start)), column(alloc, "b"));
    window(Window::RowNumber, args)
}

// `prev(n)`
fn before(alloc: Global) -> Made<BExpr> {
    window(Window::Prev, one(alloc, column(alloc, "n")))
}

// `next(n, 2, 77)`
fn after(alloc: Global) -> Made<BExpr> {
    let args = with(one(alloc, column(alloc, "n")), long(2));
    window(Window::Next, with(args, long(77)))
}

// `row_number() * 1000 + row_number(5, b)`
fn two_numbers(alloc: Global) -> Made<BExpr> {
    let number = window(Window::RowNumber, none(alloc));
    let times = link(ChainSign::Multiply, long(1000));
    let plus = link(ChainSign::Add, number_from(alloc, 5));
    chain(alloc, number, with(one(alloc, times), plus))
}

// `n + 1`
fn one_more(alloc: Global) -> Made<BExpr> {
    chain(
        alloc,
        column(alloc, "n"),
        one(alloc, link(ChainSign::Add, long(1))),
    )
}

/// `s = row_cumsum(n, b), n = row_number(10, b), p = prev(n), q = next(n, 2, 77), m = row_number() * 1000 + row_number(5, b)`.
pub(crate) fn window_items(alloc: Global) -> Made<BItems> {
    let list = one(alloc, item(alloc, "s", running_sum(alloc)));
    let list = with(list, item(alloc, "n", number_from(alloc, 10)));
    let list = with(list, item(alloc, "p", before(alloc)));
    let list = with(list, item(alloc, "q", after(alloc)));
    with(list, item(alloc, "m", two_numbers(alloc)))
}

/// `x = n + 1, n = b, p = prev(n)`.
pub(crate) fn plain_items(alloc: Global) -> Made<BItems> {
    let list = one(alloc, item(alloc, "x", one_more(alloc)));
    let list = with(list, item(alloc, "n", column(alloc, "b")));
    with(list, item(alloc, "p", before(alloc)))
}

/// `b = b, n = n, s = row_cumsum(n, b), t = n`.
pub(crate) fn columns_in_front(alloc: Global) -> Made<BItems> {
    let list = one(alloc, item(alloc, "b", column(alloc, "b")));
    let list = with(list, item(alloc, "n", column(alloc, "n")));
    let list = with(list, item(alloc, "s", running_sum(alloc)));
    with(list, item(alloc, "t", column(alloc, "n")))
}

/// `m = n, b = b`.
pub(crate) fn columns_alone(alloc: Global) -> Made<BItems> {
    let list = one(alloc, item(alloc, "m", column(alloc, "n")));
    with(list, item(alloc, "b", column(alloc, "b")))
}
