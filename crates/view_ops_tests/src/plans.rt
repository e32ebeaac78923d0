//! Plans over the columns `g`, `k` and `x`.

use crate::table::Made;
use kql_bound::{BExpr, BItem, BItems, Exprs, GroupPlan, Lit};
use kql_cells::{KText, Kind, Value};
use kql_functions::{Aggregate, ComparisonFunc, Func};
use kql_items::Items;
use std::alloc::Global;

fn both<A: Drop, B: Drop>(a: Made<A>, b: Made<B>) -> Made<(A, B)> {
    let a = a?;
    let b = b?;
    Ok((a, b))
}

fn with<T: Drop>(list: Made<Items<T>>, x: Made<T>) -> Made<Items<T>> {
    let (mut list, x) = both(list, x)?;
    list.push(x)?;
    Ok(list)
}

fn none<T: Drop>(alloc: Global) -> Made<Items<T>> {
    Ok(Items::new(alloc))
}

fn one<T: Drop>(alloc: Global, x: Made<T>) -> Made<Items<T>> {
    with(none(alloc), x)
}

fn column(alloc: Global, name: &str) -> Made<BExpr> {
    Ok(BExpr::Column(KText::from_str(alloc, name)?))
}

fn long(n: i64) -> Made<BExpr> {
    Ok(BExpr::Literal(Lit {
        kind: Kind::Long,
        value: Value::Long(n),
    }))
}

fn call(f: Func, args: Made<Exprs>) -> Made<BExpr> {
    Ok(BExpr::Call(f, args?))
}

fn aggregate(f: Aggregate, args: Made<Exprs>) -> Made<BExpr> {
    Ok(BExpr::Aggregate(f, args?))
}

fn item(names: Made<Items<KText>>, e: Made<BExpr>) -> Made<BItem> {
    match both(names, e) {
        Ok((names, expr)) => Ok(BItem { names, expr }),
        Err(e) => Err(e),
    }
}

fn named(alloc: Global, name: &str, e: Made<BExpr>) -> Made<BItem> {
    item(one(alloc, KText::from_str(alloc, name)), e)
}

fn plan(items: Made<BItems>, keys: Made<BItems>) -> Made<GroupPlan> {
    match both(items, keys) {
        Ok((items, keys)) => Ok(GroupPlan { items, keys }),
        Err(e) => Err(e),
    }
}

fn key(alloc: Global, name: &str) -> Made<BItems> {
    one(alloc, named(alloc, name, column(alloc, name)))
}

/// What an aggregate takes.
#[derive(Clone, Copy, Debug, PartialEq, Eq)]
pub(crate) enum Takes {
    Nothing,
    /// `x > 5`
    Test,
    /// `x`
    Number,
    /// `x, x > 5`
    NumberWhere,
    /// `g`
    Label,
    /// `x, g`
    Best,
}

/// A name of the answer, the aggregate, and what it takes.
pub(crate) type Row = (&'static str, Aggregate, Takes);

// `x > 5`
fn is_large(alloc: Global) -> Made<BExpr> {
    let args = with(one(alloc, column(alloc, "x")), long(5));
    call(Func::Comparison(ComparisonFunc::Greater), args)
}

fn args_of(alloc: Global, takes: Takes) -> Made<Exprs> {
    match takes {
        Takes::Nothing => none(alloc),
        Takes::Test => one(alloc, is_large(alloc)),
        Takes::Number => one(alloc, column(alloc, "x")),
        Takes::NumberWhere => with(one(alloc, column(alloc, "x")), is_large(alloc)),
        Takes::Label => one(alloc, column(alloc, "g")),
        Takes::Best => with(one(alloc, column(alloc, "x")), column(alloc, "g")),
    }
}

// The name of the label of a best row.
fn label_name(alloc: Global, name: &str) -> Made<KText> {
    let mut label = KText::from_str(alloc, name)?;
    label.push_str("_g")?;
    Ok(label)
}

// The name, and of a best row that of its label too.
fn names_of(alloc: Global, name: &str, takes: Takes) -> Made<Items<KText>> {
    let names = one(alloc, KText::from_str(alloc, name));
    if takes == Takes::Best {
        with(names, label_name(alloc, name))
    } else {
        names
    }
}

/// `summarize NAME = AGGREGATE(..), .. by KEY`
pub(crate) fn by(alloc: Global, rows: &[Row], name: &str) -> Made<GroupPlan> {
    let mut items = Items::new(alloc);
    for row in rows {
        let e = aggregate(row.1, args_of(alloc, row.2));
        items.push(item(names_of(alloc, row.0, row.2), e)?)?;
    }
    plan(Ok(items), key(alloc, name))
}

/// `summarize n = count()`
pub(crate) fn count(alloc: Global) -> Made<GroupPlan> {
    let count = aggregate(Aggregate::Count, none(alloc));
    plan(one(alloc, named(alloc, "n", count)), none(alloc))
}

/// `distinct k`
pub(crate) fn keys(alloc: Global) -> Made<GroupPlan> {
    plan(none(alloc), key(alloc, "k"))
}
