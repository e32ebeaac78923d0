//! A thousand tables of a thousand rows each, one after another, and all of these rows at once.

use crate::plans::{Row, Takes, by};
use crate::table::{Made, numbered};
use crate::tests::{opened, shows};
use kql_functions::Aggregate;
use kql_values::Table;
use live_catalogue::Grows;
use std::alloc::Global;
use std::test::Fail;
use view_ops::View;

// Rows stay below it.
const LIMIT: u64 = 1 << 63;

const COUNT_AND_SUM: &[Row] = &[
    ("c", Aggregate::Count, Takes::Nothing),
    ("s", Aggregate::Sum, Takes::Number),
];

// Of each thousand rows a hundred have a key k, and k, k + 10, .. to k + 990 for a number.
const MILLION_BY_KEY: &str = "k,c,s\n\
    0,100000,49500000\n\
    1,100000,49600000\n\
    2,100000,49700000\n\
    3,100000,49800000\n\
    4,100000,49900000\n\
    5,100000,50000000\n\
    6,100000,50100000\n\
    7,100000,50200000\n\
    8,100000,50300000\n\
    9,100000,50400000\n";

// Gives a view a table so many times, where it takes it.
fn feed_often(view: &mut View, t: &Table, times: u32) -> Made<bool> {
    for _ in 0..times {
        if !view.takes(t) || view.fed() >= LIMIT - t.len() as u64 {
            return Ok(false);
        }
        view.append(t)?;
    }
    Ok(true)
}

// Whether a view that is given a table of so many rows so many times has counted a million rows rightly.
fn counts_a_million(alloc: Global, rows: u32, times: u32) -> Made<bool> {
    let Some(mut view) = opened(alloc, by(alloc, COUNT_AND_SUM, "k"))? else {
        return Ok(false);
    };
    let t = numbered(alloc, rows)?;
    if !feed_often(&mut view, &t, times)? {
        return Ok(false);
    }
    Ok(view.fed() == 1_000_000 && shows(alloc, &view, MILLION_BY_KEY)?)
}

#[test]
fn a_thousand_tables_of_a_thousand_rows(rt: HostRuntime) -> Result<(), Fail> {
    assert!(rt; counts_a_million(rt.alloc(), 1_000, 1_000)?);
    Ok(())
}

#[test]
fn a_million_rows_at_once(rt: HostRuntime) -> Result<(), Fail> {
    assert!(rt; counts_a_million(rt.alloc(), 1_000_000, 1)?);
    Ok(())
}
