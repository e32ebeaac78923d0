//! Files that are read by workers.

use csv_io::{DataFault, load, load_typed, typed_text};
use csv_workers::*;
use kql_cells::{Bytes, Schema};
use kql_outside::OpenGate;
use kql_values::Table;
use std::alloc::{AllocError, Global};
use std::test::Fail;
use std::thread::Threads;

// Workers, and bytes of a range.
const CUTS: &[(u32, usize)] = &[
    (1, 1),
    (1, 7),
    (1, 4096),
    (2, 1),
    (2, 7),
    (2, 4096),
    (4, 1),
    (4, 7),
    (4, 4096),
    (64, 3),
    (2, 0),
];

// What a table prints as with its types, or the fault of its file.
fn shown(alloc: Global, read: Result<Table, DataFault>) -> Result<Bytes, DataFault> {
    let table = read?;
    let text = typed_text(alloc, &table)?;
    Ok(text)
}

// Whether a file is read in ranges as it is read at once.
fn is_alike<R: Threads + Sync>(
    rt: &R,
    alloc: Global,
    file: &[u8],
    workers: u32,
    range: usize,
) -> bool {
    if workers == 0 || workers > 64 {
        return false;
    }
    let at_once = shown(alloc, load(alloc, file));
    let by_ranges = shown(
        alloc,
        load_by_ranges(rt, &OpenGate, alloc, workers, range, file),
    );
    are_same(&at_once, &by_ranges)
}

fn are_same(a: &Result<Bytes, DataFault>, b: &Result<Bytes, DataFault>) -> bool {
    match (a, b) {
        (Ok(a), Ok(b)) => a.as_slice() == b.as_slice(),
        (Err(a), Err(b)) => a == b,
        _ => false,
    }
}

// The place of the first file that some cut reads otherwise; how many there are where none does.
fn first_unlike<R: Threads + Sync>(rt: &R, alloc: Global, files: &[&[u8]]) -> usize {
    for i in 0..files.len() {
        for (workers, range) in CUTS {
            if !is_alike(rt, alloc, files[i], *workers, *range) {
                return i;
            }
        }
    }
    files.len()
}

const TABLES: &[&[u8]] = &[
    b"a,b\n1,2\n3,4\n5,6\n7,8\n9,10\n11,12\n",
    b"a,b\n1,2\n3,4\n5,6",
    b"\xef\xbb\xbfa,b\r\n\r\n1,2\r\n\r\n\r\n3,4\r\n5,6\r\n\r\n",
    b"a,b\r1,2\r3,4\r5,6\r",
    b"\n\r\na:long,b\n1,2\n\n\n3,4\n",
    b"a,b\n\"1\n1\",2\n3,\"4\n,\n4\"\n\"5\"\"\n\"\"5\",6\n7,\"\"\n",
    b"a,b\n1,\"a quote\nthat\nspans\nmany,ranges\n1,2\n3,4\nof seven bytes\"\n5,6\n7,8\n",
    b"a,b\n1,\"an open quote\n2,3\n4,5\n6,7\n",
    b"\"a\n:long\",\"b\nc\"\n1,2\n3,4\n",
    b"a,b\n1,\xc3\xa4\xc3\xb6\xc3\xbc\n\xe2\x82\xac\xe2\x82\xac,\xf0\x9f\x8e\x89\xf0\x9f\x8e\x89\n3,4\n",
    b"a:long,b:datetime,c:dynamic\n1,2024-01-01,[1]\n,2024-01-02T00:00:01,\"{\"\"k\"\":1}\"\n3,,\n",
    b"a\n\"\"\nb\n\"\"\n",
    b"a,b\n",
    b"a,b",
];

#[test]
fn tables_are_read_alike(rt: HostRuntime) {
    assert_eq!(rt; first_unlike(&rt, rt.alloc(), TABLES), 14);
}

// Faults in the first, a middle and the last range, and two in two ranges.
const FAULTS: &[&[u8]] = &[
    b"",
    b"\n\r\n",
    b"\xef\xbb\xbf",
    b"a,:long\n1,2\n",
    b"a,a\n1,2\n3\n",
    b"a,a\n1,\xff\n",
    b"\n\xff",
    b"a:long,b\n1\n2,3\n4,5\n6,7\n8,9\n",
    b"a:long,b\n2,3\n4,5\n1,2,3\n6,7\n8,9\n",
    b"a:long,b\n2,3\n4,5\n6,7\n8,9\n1",
    b"a:long,b\nx,1\n2,3\n4,5\n6,7\n8,9\n",
    b"a:long,b\n2,3\n4,5\nx,1\n6,7\n8,9\n",
    b"a:long,b\n2,3\n4,5\n6,7\n8,9\nx,1\n",
    b"a:long,b\n2,3\nx,5\n6,7\n8\n9,1\n",
    b"a:long,b\n2,3\n4\n6,7\nx,8\n9,1\n",
    b"a:long,b\n2,3\nx,5\n6,7\n8,\xff\n9,1\n",
    b"a:long,b\n\xff,3\nx,5\n6,7\n8,1\n9,1\n",
    b"a:long,b\n2,3\nx,5\n6,7\n8,1\n9,\xc3",
    b"a:long,b\n2,3\n4,5\n6,\xe2\x82\n8,1\n9,1\n",
    b"a:long,b\n1,\"one\nx,2\nx,3\nx,4\"\n2,3\nx,4\n5,6\n",
    b"a:long,b\n1,\"one\n2\n3\n4\"\n2,3\n4\n5,6\n",
];

#[test]
fn faults_are_told_alike(rt: HostRuntime) {
    assert_eq!(rt; first_unlike(&rt, rt.alloc(), FAULTS), 21);
}

// The code, row and column of a fault.
fn fault_of(read: Result<Table, DataFault>) -> (u32, u64, u64) {
    match read {
        Err(DataFault::Refused { code, row, column }) => (code, row, column),
        _ => (0, 0, 0),
    }
}

// Files, and the places of their first faults.
const PLACES: &[(&[u8], (u32, u64, u64))] = &[
    (b"a:long,b\n2,3\nx,5\n6,7\n8\n9,1\n", (306, 2, 1)),
    (b"a:long,b\n2,3\n4,5\n1,2,3\n6,7\n8,9\n", (305, 3, 3)),
    (b"a:long,b\n2,3\n4,5\n6,7\n8,9\nx,1\n", (306, 5, 1)),
    (b"a:long,b\n2,3\nx,5\n6,7\n8,\xff\n9,1\n", (301, 0, 23)),
    (b"a,a\n1,\xff\n", (301, 0, 6)),
    (b"a,a\n1,2\n3\n", (304, 0, 2)),
];

// The place of the first file of which another fault is told; how many there are where none is.
fn first_misplaced<R: Threads + Sync>(
    rt: &R,
    alloc: Global,
    files: &[(&[u8], (u32, u64, u64))],
) -> usize {
    for (i, (file, want)) in files.iter().enumerate() {
        if fault_of(load_by_ranges(rt, &OpenGate, alloc, 2, 7, file)) != *want {
            return i;
        }
    }
    files.len()
}

#[test]
fn faults_are_told_where_they_are(rt: HostRuntime) {
    assert_eq!(rt; first_misplaced(&rt, rt.alloc(), PLACES), 6);
}

// A file of 620 lines of 23 bytes, four ranges of 4,096, with this line in the place of one.
fn with_line(alloc: Global, at: u32, line: &[u8]) -> Result<Vec<u8>, AllocError> {
    let mut file = Vec::new(alloc);
    file.extend_from_slice(b"a:long,b\n")?;
    for i in 0..620 {
        if i == at {
            file.extend_from_slice(line)?;
        } else {
            file.extend_from_slice(b"1234567890,a short one\n")?;
        }
    }
    Ok(file)
}

// Lines of such a file, and the places of its first fault.
const LINES: &[(u32, &[u8], (u32, u64, u64))] = &[
    (0, b"1\n", (305, 1, 1)),
    (300, b"1\n", (305, 301, 1)),
    (619, b"1\n", (305, 620, 1)),
    (0, b"x,2\n", (306, 1, 1)),
    (300, b"x,2\n", (306, 301, 1)),
    (619, b"x,2\n", (306, 620, 1)),
    (0, b"1,\xff\n", (301, 0, 11)),
    (300, b"1,\xff\n", (301, 0, 6911)),
    (619, b"1,\xff\n", (301, 0, 14_248)),
    (10, b"1,\"a quote that is not closed\n", (0, 0, 0)),
];

// Whether such a file is read in ranges of 4,096 bytes as it is read at once, with this fault.
fn is_placed<R: Threads + Sync>(
    rt: &R,
    alloc: Global,
    file: &[u8],
    workers: u32,
    want: (u32, u64, u64),
) -> bool {
    if workers == 0 || workers > 64 {
        return false;
    }
    let read = fault_of(load_by_ranges(rt, &OpenGate, alloc, workers, 4096, file));
    read == want && is_alike(rt, alloc, file, workers, 4096)
}

// The place of the first line that is read otherwise; how many there are where none is.
fn first_line_unlike<R: Threads + Sync>(
    rt: &R,
    alloc: Global,
    lines: &[(u32, &[u8], (u32, u64, u64))],
) -> Result<usize, AllocError> {
    for (i, (at, line, want)) in lines.iter().enumerate() {
        let file = with_line(alloc, *at, line)?;
        for workers in [1, 2, 4] {
            if !is_placed(rt, alloc, file.as_slice(), workers, *want) {
                return Ok(i);
            }
        }
    }
    Ok(lines.len())
}

#[test]
fn faults_in_each_range_are_told_alike(rt: HostRuntime) -> Result<(), Fail> {
    assert_eq!(rt; first_line_unlike(&rt, rt.alloc(), LINES)?, 10);
    Ok(())
}

// A file with a cell of 9,000 bytes, of line feeds and commas within quotes, and this line behind it.
fn with_cell(alloc: Global, last: &[u8]) -> Result<Vec<u8>, AllocError> {
    let mut file = Vec::new(alloc);
    file.extend_from_slice(b"a:long,b\n1,\"")?;
    for _ in 0..900 {
        file.extend_from_slice(b"x,234567\n\n")?;
    }
    file.extend_from_slice(b"\"\n2,3\n")?;
    file.extend_from_slice(last)?;
    Ok(file)
}

// Whether such a file is read in ranges of 4,096 bytes as it is read at once, with this fault.
fn is_cell_placed<R: Threads + Sync>(
    rt: &R,
    alloc: Global,
    last: &[u8],
    want: (u32, u64, u64),
) -> Result<bool, AllocError> {
    let file = with_cell(alloc, last)?;
    for workers in [1, 2, 4] {
        if !is_placed(rt, alloc, file.as_slice(), workers, want) {
            return Ok(false);
        }
    }
    Ok(true)
}

#[test]
fn a_cell_over_three_ranges_is_read_alike(rt: HostRuntime) -> Result<(), Fail> {
    let alloc = rt.alloc();
    assert_eq!(rt; is_cell_placed(&rt, alloc, b"4,5\n", (0, 0, 0))?, true);
    assert_eq!(rt;
        is_cell_placed(&rt, alloc, b"4,5\nx,6\n", (306, 4, 1))?,
        true
    );
    Ok(())
}

// A file of so many rows, with a line before them and one behind them.
fn long_file(alloc: Global, rows: u32, first: &str, last: &str) -> Result<String, AllocError> {
    let mut file = String::new(alloc);
    file.push_str("a:long,b:string\n")?;
    file.push_str(first)?;
    for i in 0..rows {
        write!(file, "{i},\"line {i}\n\"\"and\"\" more\"\n")?;
    }
    file.push_str(last)?;
    Ok(file)
}

// Whether a long file is read by so many workers as it is read by one.
fn is_long_alike<R: Threads + Sync>(
    rt: &R,
    alloc: Global,
    workers: u32,
    first: &str,
    last: &str,
) -> Result<bool, AllocError> {
    if workers == 0 || workers > 64 {
        return Ok(false);
    }
    let file = long_file(alloc, 9000, first, last)?;
    let bytes = file.as_str().as_bytes();
    let at_once = shown(alloc, load(alloc, bytes));
    let by_workers = shown(alloc, load_by_workers(rt, &OpenGate, alloc, workers, bytes));
    Ok(bytes.len() > 262_144 && are_same(&at_once, &by_workers))
}

#[test]
fn long_files_are_read_alike(rt: HostRuntime) -> Result<(), Fail> {
    let alloc = rt.alloc();
    assert_eq!(rt; is_long_alike(&rt, alloc, 1, "", "1,2\n")?, true);
    assert_eq!(rt; is_long_alike(&rt, alloc, 4, "", "1,2\n")?, true);
    assert_eq!(rt; is_long_alike(&rt, alloc, 4, "", "x,2\n")?, true);
    assert_eq!(rt; is_long_alike(&rt, alloc, 4, "x,2\n", "1\n")?, true);
    Ok(())
}

// Whether a file is read under these columns in ranges, and by workers, as it is read at once.
fn is_typed_alike<R: Threads + Sync>(
    rt: &R,
    alloc: Global,
    file: &[u8],
    schema: &Schema,
    workers: u32,
    range: usize,
) -> bool {
    if workers == 0 || workers > 64 {
        return false;
    }
    let at_once = shown(alloc, load_typed(alloc, file, schema));
    let by_ranges = shown(
        alloc,
        load_typed_by_ranges(rt, &OpenGate, alloc, workers, range, file, schema),
    );
    let by_workers = shown(
        alloc,
        load_typed_by_workers(rt, &OpenGate, alloc, workers, file, schema),
    );
    are_same(&at_once, &by_ranges) && are_same(&at_once, &by_workers)
}

// The same of all cuts and files.
fn first_typed_unlike<R: Threads + Sync>(
    rt: &R,
    alloc: Global,
    files: &[&[u8]],
) -> Result<usize, DataFault> {
    let table = load(alloc, b"a:long,b\n")?;
    for i in 0..files.len() {
        for (workers, range) in CUTS {
            if !is_typed_alike(rt, alloc, files[i], table.schema(), *workers, *range) {
                return Ok(i);
            }
        }
    }
    Ok(files.len())
}

const TYPED: &[&[u8]] = &[
    b"a:long,b\n1,2\n3,4\n5,6\n7,8\n9,10\n11,12\n",
    b"a,b:string\n1,2\n3,4\n5,6\n7,8\n9,10\n11,12\n",
    b"a,c\n1,2\n3,4\n",
    b"a,b,c\n1,2\n3,4\n",
    b"a,b\n1,2\nx,4\n5\n",
    b"a,b\n1,2\n3,\xff\nx,6\n",
    b"",
];

#[test]
fn typed_files_are_read_alike(rt: HostRuntime) -> Result<(), Fail> {
    assert_eq!(rt; first_typed_unlike(&rt, rt.alloc(), TYPED).unwrap_or(0), 7);
    Ok(())
}
