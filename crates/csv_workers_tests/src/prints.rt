//! Tables that are printed by workers.

use csv_io::{DataFault, load, table_text, typed_text};
use csv_workers::*;
use kql_outside::OpenGate;
use kql_values::Table;
use std::alloc::{AllocError, Global};
use std::test::Fail;
use std::thread::Threads;

// Workers, and rows of a range.
const CUTS: &[(u32, usize)] = &[
    (1, 1),
    (1, 2),
    (1, 100),
    (2, 1),
    (2, 2),
    (2, 100),
    (4, 1),
    (4, 3),
    (4, 100),
    (2, 0),
];

// Whether a table is printed in ranges, and by workers, as it is printed at once.
fn is_alike<R: Threads + Sync>(
    rt: &R,
    alloc: Global,
    t: &Table,
    workers: u32,
    rows: usize,
) -> Result<bool, AllocError> {
    if workers == 0 || workers > 64 {
        return Ok(false);
    }
    let plain = table_text(alloc, t)?;
    let ranges = text_by_ranges(rt, &OpenGate, alloc, workers, rows, t)?;
    let whole = text_by_workers(rt, &OpenGate, alloc, workers, t)?;
    Ok(plain.as_slice() == ranges.as_slice() && plain.as_slice() == whole.as_slice())
}

// The same with the types in the header.
fn is_typed_alike<R: Threads + Sync>(
    rt: &R,
    alloc: Global,
    t: &Table,
    workers: u32,
    rows: usize,
) -> Result<bool, AllocError> {
    if workers == 0 || workers > 64 {
        return Ok(false);
    }
    let plain = typed_text(alloc, t)?;
    let ranges = typed_text_by_ranges(rt, &OpenGate, alloc, workers, rows, t)?;
    let whole = typed_text_by_workers(rt, &OpenGate, alloc, workers, t)?;
    Ok(plain.as_slice() == ranges.as_slice() && plain.as_slice() == whole.as_slice())
}

// Whether each cut prints a table alike.
fn are_alike<R: Threads + Sync>(rt: &R, alloc: Global, t: &Table) -> Result<bool, AllocError> {
    for (workers, rows) in CUTS {
        if !is_alike(rt, alloc, t, *workers, *rows)? {
            return Ok(false);
        }
        if !is_typed_alike(rt, alloc, t, *workers, *rows)? {
            return Ok(false);
        }
    }
    Ok(true)
}

// The place of the first file whose table is printed otherwise; how many there are where none is.
fn first_unlike<R: Threads + Sync>(
    rt: &R,
    alloc: Global,
    files: &[&[u8]],
) -> Result<usize, DataFault> {
    for i in 0..files.len() {
        let table = load(alloc, files[i])?;
        if !are_alike(rt, alloc, &table)? {
            return Ok(i);
        }
    }
    Ok(files.len())
}

const TABLES: &[&[u8]] = &[
    b"a,b\n1,2\n3,4\n5,6\n7,8\n9,10\n11,12\n13,14\n",
    b"a:long,b:datetime,c:timespan\n1,2024-01-01,1d\n,2024-01-01T00:00:01,\n3,,2h\n4,2024-01-02,3h\n",
    b"a:dynamic,b:bool,c\n[1],true,\"x\ny\"\n\"{\"\"k\"\":\"\"v\"\"}\",,\"\"\"\"\n,false,z\n",
    b"a\n\"\"\nb\n\"\"\n",
    b"a,b\n",
];

#[test]
fn tables_are_printed_alike(rt: HostRuntime) -> Result<(), Fail> {
    assert_eq!(rt; first_unlike(&rt, rt.alloc(), TABLES).unwrap_or(0), 5);
    Ok(())
}

// A table of so many rows of three columns.
fn long_table(alloc: Global, rows: u32) -> Result<Table, DataFault> {
    let mut file = String::new(alloc);
    file.push_str("a:long,b:datetime,c\n")?;
    for i in 0..rows {
        write!(file, "{i},2024-01-01,\"text {i}\"\n")?;
    }
    load(alloc, file.as_str().as_bytes())
}

// Whether one of more cells than the calling thread prints alone is printed alike.
fn is_long_alike<R: Threads + Sync>(rt: &R, alloc: Global) -> Result<bool, DataFault> {
    let table = long_table(alloc, 11_000)?;
    let plain = is_alike(rt, alloc, &table, 4, 1000)?;
    let typed = is_typed_alike(rt, alloc, &table, 3, 777)?;
    Ok(plain && typed)
}

#[test]
fn a_long_table_is_printed_alike(rt: HostRuntime) -> Result<(), Fail> {
    assert_eq!(rt; is_long_alike(&rt, rt.alloc()).unwrap_or(false), true);
    Ok(())
}
