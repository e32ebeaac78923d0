//! Scans as constants.

use crate::table::{DEFAULT, Made};
use kql_bound::{
    BExpr, BItem, BItems, ChainSign, Decl, Exprs, Lit, Output, ScanPlan, ScanStep, ScanSteps,
    StepColumn,
};
use kql_cells::{KText, Kind, Value};
use kql_functions::{ComparisonFunc, Func, LogicFunc};
use kql_items::{Boxed, Items};
use std::alloc::Global;

/// What is assigned to the declared column: a column of the record of a step, by its number and the column's place, and a number more.
pub(crate) type Assigned = Option<(usize, usize, i64)>;

/// A step: its output, the event that it waits for, the step whose record is of the same one where there is such a condition, and what is
/// assigned.
pub(crate) type Step = (Output, i64, Option<usize>, Assigned);

fn both<A: Drop, B: Drop>(a: Made<A>, b: Made<B>) -> Made<(A, B)> {
    let a = a?;
    let b = b?;
    Ok((a, b))
}

fn with<T: Drop>(list: Made<Items<T>>, x: Made<T>) -> Made<Items<T>> {
    let (mut list, x) = both(list, x)?;
    list.push(x)?;
    Ok(list)
}

fn one<T: Drop>(alloc: Global, x: Made<T>) -> Made<Items<T>> {
    with(Ok(Items::new(alloc)), x)
}

fn text(alloc: Global, t: &str) -> Made<KText> {
    KText::from_str(alloc, t)
}

fn column(alloc: Global, name: &str) -> Made<BExpr> {
    Ok(BExpr::Column(text(alloc, name)?))
}

fn long(n: i64) -> Lit {
    Lit {
        kind: Kind::Long,
        value: Value::Long(n),
    }
}

// What the column at a place gives where there is no record.
fn absent(place: usize) -> Lit {
    if place == 3 {
        long(DEFAULT)
    } else {
        Lit {
            kind: Kind::Long,
            value: Value::Null,
        }
    }
}

fn step_column(alloc: Global, number: usize, place: usize) -> Made<BExpr> {
    let (step, column) = both(text(alloc, "s"), text(alloc, "c"))?;
    Ok(BExpr::Step(StepColumn {
        step,
        column,
        number,
        place,
        default: absent(place),
    }))
}

fn call(f: Func, args: Made<Exprs>) -> Made<BExpr> {
    Ok(BExpr::Call(f, args?))
}

fn equal(alloc: Global, a: Made<BExpr>, b: Made<BExpr>) -> Made<BExpr> {
    call(
        Func::Comparison(ComparisonFunc::Equal),
        with(one(alloc, a), b),
    )
}

fn condition(alloc: Global, event: i64, same: Option<usize>) -> Made<BExpr> {
    let waits = equal(alloc, column(alloc, "e"), Ok(BExpr::Literal(long(event))));
    match same {
        None => waits,
        Some(number) => call(
            Func::Logic(LogicFunc::And),
            with(
                one(alloc, waits),
                equal(alloc, column(alloc, "k"), step_column(alloc, number, 2)),
            ),
        ),
    }
}

fn boxed<T: Drop>(alloc: Global, x: Made<T>) -> Made<Boxed<T>> {
    Boxed::new(alloc, x?)
}

fn sum(alloc: Global, first: Made<BExpr>, n: i64) -> Made<BExpr> {
    let link = Ok((ChainSign::Add, BExpr::Literal(long(n))));
    match both(boxed(alloc, first), one(alloc, link)) {
        Ok((first, links)) => Ok(BExpr::Chain(first, links)),
        Err(e) => Err(e),
    }
}

fn item(alloc: Global, e: Made<BExpr>) -> Made<BItem> {
    match both(one(alloc, text(alloc, "d")), e) {
        Ok((names, expr)) => Ok(BItem { names, expr }),
        Err(e) => Err(e),
    }
}

fn sets(alloc: Global, assigned: Assigned) -> Made<BItems> {
    match assigned {
        None => Ok(Items::new(alloc)),
        Some((number, place, n)) => one(
            alloc,
            item(alloc, sum(alloc, step_column(alloc, number, place), n)),
        ),
    }
}

fn step(
    name: Made<KText>,
    output: Output,
    condition: Made<BExpr>,
    sets: Made<BItems>,
) -> Made<ScanStep> {
    match both(both(name, sets), condition) {
        Ok(((name, sets), condition)) => Ok(ScanStep {
            name,
            output,
            condition,
            sets,
        }),
        Err(e) => Err(e),
    }
}

fn steps_of(alloc: Global, steps: &[Step]) -> Made<ScanSteps> {
    let mut made = Ok(Items::new(alloc));
    for it in steps {
        let (output, event, same, assigned) = *it;
        made = with(
            made,
            step(
                text(alloc, "s"),
                output,
                condition(alloc, event, same),
                sets(alloc, assigned),
            ),
        );
    }
    made
}

fn decl(alloc: Global) -> Made<Decl> {
    Ok(Decl {
        name: text(alloc, "d")?,
        default: long(DEFAULT),
    })
}

/// The scan of these steps, with the match id `m` and the declared column `d`.
pub(crate) fn scan_of(alloc: Global, steps: &[Step]) -> Made<ScanPlan> {
    match both(
        both(text(alloc, "m"), one(alloc, decl(alloc))),
        steps_of(alloc, steps),
    ) {
        Ok(((name, declared), steps)) => Ok(ScanPlan {
            match_id: Some(name),
            declared,
            steps,
        }),
        Err(e) => Err(e),
    }
}
