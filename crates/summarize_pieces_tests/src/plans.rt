//! Plans over the columns `k`, `x`, `y` and `z`.

use crate::table::Made;
use kql_bound::{BExpr, BItem, BItems, ChainSign, Exprs, GroupPlan, Link, Lit};
use kql_cells::{KText, Kind, Value};
use kql_functions::{Aggregate, ComparisonFunc, ConversionFunc, DynamicFunc, Func, TextFunc};
use kql_items::{Boxed, Items};
use std::alloc::Global;

fn both<A: Drop, B: Drop>(a: Made<A>, b: Made<B>) -> Made<(A, B)> {
    let a = a?;
    let b = b?;
    Ok((a, b))
}

fn with<T: Drop>(list: Made<Items<T>>, x: Made<T>) -> Made<Items<T>> {
    let (mut list, x) = both(list, x)?;
    list.push(x)?;
    Ok(list)
}

fn none<T: Drop>(alloc: Global) -> Made<Items<T>> {
    Ok(Items::new(alloc))
}

fn one<T: Drop>(alloc: Global, x: Made<T>) -> Made<Items<T>> {
    with(none(alloc), x)
}

fn column(alloc: Global, name: &str) -> Made<BExpr> {
    Ok(BExpr::Column(KText::from_str(alloc, name)?))
}

fn long(n: i64) -> Made<BExpr> {
    Ok(BExpr::Literal(Lit {
        kind: Kind::Long,
        value: Value::Long(n),
    }))
}

fn call(f: Func, args: Made<Exprs>) -> Made<BExpr> {
    Ok(BExpr::Call(f, args?))
}

fn aggregate(f: Aggregate, args: Made<Exprs>) -> Made<BExpr> {
    Ok(BExpr::Aggregate(f, args?))
}

// An aggregate of one column.
fn of(alloc: Global, f: Aggregate, name: &str) -> Made<BExpr> {
    aggregate(f, one(alloc, column(alloc, name)))
}

fn link(sign: ChainSign, e: Made<BExpr>) -> Made<Link> {
    Ok((sign, e?))
}

fn chain(alloc: Global, first: Made<BExpr>, links: Made<Items<Link>>) -> Made<BExpr> {
    match both(first, links) {
        Ok((first, links)) => Ok(BExpr::Chain(Boxed::new(alloc, first)?, links)),
        Err(e) => Err(e),
    }
}

fn path(alloc: Global, whole: Made<BExpr>, steps: Made<Exprs>) -> Made<BExpr> {
    match both(whole, steps) {
        Ok((whole, steps)) => Ok(BExpr::Path(Boxed::new(alloc, whole)?, steps)),
        Err(e) => Err(e),
    }
}

fn item(names: Made<Items<KText>>, e: Made<BExpr>) -> Made<BItem> {
    match both(names, e) {
        Ok((names, expr)) => Ok(BItem { names, expr }),
        Err(e) => Err(e),
    }
}

fn named(alloc: Global, name: &str, e: Made<BExpr>) -> Made<BItem> {
    item(one(alloc, KText::from_str(alloc, name)), e)
}

fn plan(items: Made<BItems>, keys: Made<BItems>) -> Made<GroupPlan> {
    match both(items, keys) {
        Ok((items, keys)) => Ok(GroupPlan { items, keys }),
        Err(e) => Err(e),
    }
}

fn by_key(alloc: Global, items: Made<BItems>) -> Made<GroupPlan> {
    plan(items, one(alloc, named(alloc, "k", column(alloc, "k"))))
}

// `x > 5`
fn is_large(alloc: Global) -> Made<BExpr> {
    let args = with(one(alloc, column(alloc, "x")), long(5));
    call(Func::Comparison(ComparisonFunc::Greater), args)
}

/// `summarize n = count(), s = sum(x), c = countif(x > 5), f = sumif(x, x > 5), g = max(x), l = min(x) by k`
pub(crate) fn totals(alloc: Global) -> Made<GroupPlan> {
    let count = aggregate(Aggregate::Count, none(alloc));
    let count_if = aggregate(Aggregate::CountIf, one(alloc, is_large(alloc)));
    let sum_if = with(one(alloc, column(alloc, "x")), is_large(alloc));
    let items = one(alloc, named(alloc, "n", count));
    let items = with(items, named(alloc, "s", of(alloc, Aggregate::Sum, "x")));
    let items = with(items, named(alloc, "c", count_if));
    let items = with(
        items,
        named(alloc, "f", aggregate(Aggregate::SumIf, sum_if)),
    );
    let items = with(items, named(alloc, "g", of(alloc, Aggregate::Max, "x")));
    by_key(
        alloc,
        with(items, named(alloc, "l", of(alloc, Aggregate::Min, "x"))),
    )
}

// `sum(x) * 2 + count()`
fn twice_and_count(alloc: Global) -> Made<BExpr> {
    let count = aggregate(Aggregate::Count, none(alloc));
    let twice = one(alloc, link(ChainSign::Multiply, long(2)));
    let product = chain(alloc, of(alloc, Aggregate::Sum, "x"), twice);
    chain(alloc, product, one(alloc, link(ChainSign::Add, count)))
}

// `sum(x) - count() - min(y)`
fn less(alloc: Global) -> Made<BExpr> {
    let count = link(
        ChainSign::Subtract,
        aggregate(Aggregate::Count, none(alloc)),
    );
    let least = link(ChainSign::Subtract, of(alloc, Aggregate::Min, "y"));
    let links = with(one(alloc, count), least);
    chain(alloc, of(alloc, Aggregate::Sum, "x"), links)
}

// `array_length(make_list(x))`
fn list_length(alloc: Global) -> Made<BExpr> {
    let list = of(alloc, Aggregate::MakeList, "x");
    call(Func::Dynamic(DynamicFunc::ArrayLength), one(alloc, list))
}

// `tolong(make_list(x)[1])`
fn second_listed(alloc: Global) -> Made<BExpr> {
    let list = of(alloc, Aggregate::MakeList, "x");
    let second = path(alloc, list, one(alloc, long(1)));
    call(Func::Conversion(ConversionFunc::ToLong), one(alloc, second))
}

/// `summarize e = sum(x) * 2 + count(), d = sum(x) - count() - min(y), a = array_length(make_list(x)), p = tolong(make_list(x)[1]) by k`
pub(crate) fn expressions(alloc: Global) -> Made<GroupPlan> {
    let items = one(alloc, named(alloc, "e", twice_and_count(alloc)));
    let items = with(items, named(alloc, "d", less(alloc)));
    let items = with(items, named(alloc, "a", list_length(alloc)));
    by_key(alloc, with(items, named(alloc, "p", second_listed(alloc))))
}

// `(t, m) = take_any(y, x)`
fn first_pair(alloc: Global) -> Made<BItem> {
    let columns = with(one(alloc, column(alloc, "y")), column(alloc, "x"));
    let names = with(
        one(alloc, KText::from_str(alloc, "t")),
        KText::from_str(alloc, "m"),
    );
    item(names, aggregate(Aggregate::TakeAny, columns))
}

// `strlen(take_any(z))`
fn first_length(alloc: Global) -> Made<BExpr> {
    let first = of(alloc, Aggregate::TakeAny, "z");
    call(Func::Text(TextFunc::Length), one(alloc, first))
}

/// `summarize (t, m) = take_any(y, x), g = arg_max(x), z = strlen(take_any(z)) by k`
pub(crate) fn firsts(alloc: Global) -> Made<GroupPlan> {
    let items = one(alloc, first_pair(alloc));
    let items = with(items, named(alloc, "g", of(alloc, Aggregate::ArgMax, "x")));
    by_key(alloc, with(items, named(alloc, "z", first_length(alloc))))
}

/// `summarize n = count(), (t, m) = take_any(y, x), z = strlen(take_any(z))`
pub(crate) fn whole(alloc: Global) -> Made<GroupPlan> {
    let count = aggregate(Aggregate::Count, none(alloc));
    let items = one(alloc, named(alloc, "n", count));
    let items = with(items, first_pair(alloc));
    plan(
        with(items, named(alloc, "z", first_length(alloc))),
        none(alloc),
    )
}

// The value of an aggregate of `x`, and `y` and `k` at its row.
fn best_row(alloc: Global, f: Aggregate, value: &str, y: &str, k: &str) -> Made<BItem> {
    let columns = with(one(alloc, column(alloc, "x")), column(alloc, "y"));
    let names = with(
        one(alloc, KText::from_str(alloc, value)),
        KText::from_str(alloc, y),
    );
    let names = with(names, KText::from_str(alloc, k));
    item(names, aggregate(f, with(columns, column(alloc, "k"))))
}

/// `summarize (g, h, i) = arg_max(x, y, k), (l, m, n) = arg_min(x, y, k) by k`
pub(crate) fn bests(alloc: Global) -> Made<GroupPlan> {
    let items = one(alloc, best_row(alloc, Aggregate::ArgMax, "g", "h", "i"));
    let least = best_row(alloc, Aggregate::ArgMin, "l", "m", "n");
    by_key(alloc, with(items, least))
}

/// `summarize n = count(), (g, h, i) = arg_max(x, y, k), m = max(k)`
pub(crate) fn best(alloc: Global) -> Made<GroupPlan> {
    let count = aggregate(Aggregate::Count, none(alloc));
    let items = one(alloc, named(alloc, "n", count));
    let items = with(items, best_row(alloc, Aggregate::ArgMax, "g", "h", "i"));
    plan(
        with(items, named(alloc, "m", of(alloc, Aggregate::Max, "k"))),
        none(alloc),
    )
}
