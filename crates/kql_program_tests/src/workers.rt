//! Answers by workers: one, three, and as many as the machine has; in pieces of two rows and of 4,096.
use crate::calls::{file, files, name_of, words_of};
use kql_outside::{Gate, HoldGate, MemShelf, MemSink, OpenGate};
use kql_program::{Ended, PhaseReport, Report, Sizes, kql, kql_in_pieces};
use pattern_ops::LiteralMaker;
use std::alloc::{AllocError, Global};
use std::test::Fail;
use std::thread::Threads;

// A query, its table, and what it is answered.
type Row = (&'static str, &'static str, &'static str);

const ROWS: &[Row] = &[
    (
        "T | where x > 1 | extend y = x * 2",
        "x:long\n1\n2\n3\n4\n5\n",
        "x,y\n2,4\n3,6\n4,8\n5,10\n",
    ),
    (
        "T | where x > 9 | project y = x",
        "x:long\n1\n2\n3\n",
        "y\n",
    ),
    (
        "T | summarize n = count(), s = sum(x) by k | sort by k asc",
        "k,x:long\na,1\nb,2\na,3\nb,4\na,5\n",
        "k,n,s\na,3,9\nb,2,6\n",
    ),
    (
        "T | sort by x desc | extend p = prev(x)",
        "x:long\n1\n3\n2\n",
        "x,p\n3,\n2,3\n1,2\n",
    ),
    (
        "T | where x > 0 | join kind=inner (T | where x > 1) on k",
        "k,x:long\na,1\nb,2\na,3\n",
        "k,x,k1,x1\na,1,a,3\nb,2,b,2\na,3,a,3\n",
    ),
    ("T | where y > 0", "x:long\n1\n", ""),
];

// What `kql_in_pieces` writes to the output for a query and its table, by these words.
fn output_of(
    rt: &(impl Threads + Sync),
    alloc: Global,
    command: &str,
    row: &Row,
    piece_rows: u32,
) -> Result<MemSink, AllocError> {
    let (query, table, _) = row;
    let words = words_of(alloc, command)?;
    let mut shelf = MemShelf::new(files(alloc, query, table.as_bytes())?, Vec::new(alloc));
    let mut out = MemSink::new(alloc, 4096, 4096, Vec::new(alloc))?;
    let mut err = MemSink::new(alloc, 4096, 4096, Vec::new(alloc))?;
    let sizes = Sizes {
        piece_rows: piece_rows.max(1),
    };
    let mut patterns = LiteralMaker::new(alloc, Vec::new(alloc));
    let ended = kql_in_pieces(
        rt,
        alloc,
        &words,
        &mut shelf,
        &mut out,
        &mut err,
        &OpenGate,
        &mut patterns,
        sizes,
    );
    drop(ended);
    Ok(out)
}

// Whether a row is answered as it says by these words.
fn is_answered(
    rt: &(impl Threads + Sync),
    alloc: Global,
    command: &str,
    row: &Row,
    piece_rows: u32,
) -> Result<bool, AllocError> {
    let (_, _, want) = row;
    let out = output_of(rt, alloc, command, row, piece_rows)?;
    Ok(out.bytes() == want.as_bytes())
}

// The first query that is answered otherwise than its row says.
fn first_wrong(
    rt: &(impl Threads + Sync),
    alloc: Global,
    command: &str,
    rows: &'static [Row],
    piece_rows: u32,
) -> Result<&'static str, AllocError> {
    for row in rows {
        if !is_answered(rt, alloc, command, row, piece_rows)? {
            return Ok(row.0);
        }
    }
    Ok("")
}

#[test]
fn every_number_of_workers_answers_the_same(rt: HostRuntime) -> Result<(), Fail> {
    let alloc = rt.alloc();
    for command in [
        "run --workers 1 q T=t",
        "run --workers 3 q T=t",
        "run q T=t",
    ] {
        assert_eq!(rt; first_wrong(&rt, alloc, command, ROWS, 2)?, "");
        assert_eq!(rt; first_wrong(&rt, alloc, command, ROWS, 4096)?, "");
    }
    Ok(())
}

// A table of the numbers from 1 to this one.
fn numbers_to(alloc: Global, last: u32) -> Result<String, AllocError> {
    let mut text = String::from_str(alloc, "x:long\n")?;
    for n in 1..=last {
        let line = format!(in alloc; "{n}\n")?;
        text.push_str(line.as_str())?;
    }
    Ok(text)
}

// How `kql` ends over three pieces of rows, whose workers enter this gate.
fn ended_behind<G: Gate + Sync>(
    rt: &(impl Threads + Sync),
    alloc: Global,
    command: &str,
    gate: &G,
) -> Result<Ended, AllocError> {
    let table = numbers_to(alloc, 8193)?;
    let words = words_of(alloc, command)?;
    let mut given = Vec::new(alloc);
    given.push(file(alloc, "q", b"S | where x > 0")?)?;
    given.push(file(alloc, "s", table.as_bytes())?)?;
    let mut shelf = MemShelf::new(given, Vec::new(alloc));
    let mut out = MemSink::new(alloc, 4096, 1_048_576, Vec::new(alloc))?;
    let mut err = MemSink::new(alloc, 4096, 1_048_576, Vec::new(alloc))?;
    let mut patterns = LiteralMaker::new(alloc, Vec::new(alloc));
    Ok(kql(
        rt,
        alloc,
        &words,
        &mut shelf,
        &mut out,
        &mut err,
        gate,
        &mut patterns,
    ))
}

// Whether a report is that of one phase of three pieces by so many workers.
fn is_one_phase(report: &Report, workers: u32) -> bool {
    if report.len() != 1 {
        return false;
    }
    match report.as_slice().first() {
        Some(PhaseReport::Pieces(gathered)) => {
            gathered.pieces() == 3 && gathered.workers() == workers
        }
        _ => false,
    }
}

fn ran_in_three(ended: &Ended, workers: u32) -> bool {
    match ended {
        Ended::Table { report, .. } => is_one_phase(report, workers),
        _ => false,
    }
}

// Two workers meet at the gate, each with a piece of its own; one worker meets nobody.
#[test]
fn two_workers_run_beside_each_other(rt: HostRuntime) -> Result<(), Fail> {
    let alloc = rt.alloc();
    let gate = HoldGate::new(2_000_000_000);
    let ended = ended_behind(&rt, alloc, "run --workers 2 q S=s", &gate)?;
    let ran = ran_in_three(&ended, 2);
    drop(ended);
    assert!(rt; ran);
    assert!(rt; gate.met());
    let gate = HoldGate::new(1000);
    let ended = ended_behind(&rt, alloc, "run --workers 1 q S=s", &gate)?;
    let ran = ran_in_three(&ended, 1);
    drop(ended);
    assert!(rt; ran);
    assert!(rt; !gate.met());
    Ok(())
}

// A trial tells of each stored query.
#[test]
fn trials_tell_of_each_query(rt: HostRuntime) -> Result<(), Fail> {
    let alloc = rt.alloc();
    let ended = ended_behind(&rt, alloc, "trial 100 7 --workers 3", &OpenGate)?;
    let count = match &ended {
        Ended::Trial { reports } => reports.len(),
        _ => 0,
    };
    let name = name_of(&ended);
    drop(ended);
    assert_eq!(rt; name, "Trial");
    assert_eq!(rt; count, 5);
    Ok(())
}
