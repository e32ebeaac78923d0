//! Queries and files that are refused, each at its place.
use crate::calls::{
    Case, NUMBERS, QUERY, first_wrong, left_by, left_by_bytes, repeated, wrong_refusal,
};
use std::alloc::{AllocError, Global};
use std::test::Fail;
use std::thread::Threads;

const SMALL: &str = "x:long,s\n5,a\n";

// Each row is a query and the line of its refusal. The others are rows of `kql_rows`.
const UNPARSED: &str = "T T | count -> 1:3: 201 Unexpected
T | where x == \"a -> 1:16: 102 OpenText";

const SHORT: &[Case] = &[
    ("run q", "", "", "1 |kql: 1:1: 201 Unexpected\n"),
    (
        "run q",
        "T |\n  where x == ",
        "",
        "1 |kql: 2:14: 201 Unexpected\n",
    ),
];

// A query that is refused by itself is refused before a table file is started, here one that there is not.
#[test]
fn refuses_queries(rt: HostRuntime) -> Result<(), Fail> {
    let alloc = rt.alloc();
    assert_eq!(rt;
        wrong_refusal(&rt, alloc, "run q T=none", SMALL, UNPARSED)?,
        ""
    );
    assert_eq!(rt; first_wrong(&rt, alloc, SHORT)?, "");
    Ok(())
}

// What is left of a query of so many operators.
fn left_of_operators(
    rt: &(impl Threads + Sync),
    alloc: Global,
    count: u32,
) -> Result<String, AllocError> {
    let query = repeated(alloc, "T", " | where x == 5", count, "")?;
    left_by(rt, alloc, "run q T=t", query.as_str(), NUMBERS)
}

#[test]
fn counts_operators(rt: HostRuntime) -> Result<(), Fail> {
    let alloc = rt.alloc();
    assert_eq!(rt;
        left_of_operators(&rt, alloc, 256)?.as_str(),
        "0 x\n5\n5\n|"
    );
    assert_eq!(rt;
        left_of_operators(&rt, alloc, 257)?.as_str(),
        "1 |kql: 1:3845: 203 TooManyOperators\n"
    );
    Ok(())
}

// The same of a query that prints so many items behind the first.
fn left_of_items(
    rt: &(impl Threads + Sync),
    alloc: Global,
    more: u32,
) -> Result<String, AllocError> {
    let query = repeated(alloc, "print 1", ",1", more, "| count")?;
    left_by(rt, alloc, "run q", query.as_str(), "")
}

#[test]
fn counts_columns(rt: HostRuntime) -> Result<(), Fail> {
    let alloc = rt.alloc();
    assert_eq!(rt; left_of_items(&rt, alloc, 255)?.as_str(), "0 Count\n1\n|");
    assert_eq!(rt;
        left_of_items(&rt, alloc, 256)?.as_str(),
        "1 |kql: 1:1: 412 TooManyColumns\n"
    );
    Ok(())
}

// What is left of a query of so many blanks.
fn left_of_blanks(
    rt: &(impl Threads + Sync),
    alloc: Global,
    count: u32,
) -> Result<String, AllocError> {
    let query = repeated(alloc, "", " ", count, "")?;
    left_by(rt, alloc, "run q", query.as_str(), "")
}

#[test]
fn refuses_long_queries(rt: HostRuntime) -> Result<(), Fail> {
    let alloc = rt.alloc();
    assert_eq!(rt;
        left_of_blanks(&rt, alloc, 262_144)?.as_str(),
        "1 |kql: 1:262145: 201 Unexpected\n"
    );
    assert_eq!(rt;
        left_of_blanks(&rt, alloc, 262_145)?.as_str(),
        "1 |kql: 1:1: 104 TextTooLong\n"
    );
    Ok(())
}

#[test]
fn refuses_bytes(rt: HostRuntime) -> Result<(), Fail> {
    let alloc = rt.alloc();
    let left = left_by_bytes(&rt, alloc, "run q T=t", QUERY, b"a\xff")?;
    assert_eq!(rt; left.as_str(), "3 |kql: file 1: 301 NotUtf8 at 0:1\n");
    let table = vec![in alloc; b'\n'; 67_108_865]?;
    let left = left_by_bytes(&rt, alloc, "run q T=t", QUERY, &table)?;
    assert_eq!(rt; left.as_str(), "3 |kql: file 1: 308 TooLong at 0:0\n");
    Ok(())
}
