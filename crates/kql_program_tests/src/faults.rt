//! Calls of the outside that fail, and files and sinks in memory.
use crate::calls::{NUMBERS, QUERY, call, files, name_of, no_faults, words_of};
use kql_outside::{CleanShelf, CleanSink, MemShelf, MemSink, OpenGate, Shelf};
use kql_program::{Ended, kql, kql_in_memory};
use pattern_ops::LiteralMaker;
use std::alloc::{AllocError, Global};
use std::process::Abort;
use std::test::Fail;
use std::thread::Threads;

#[test]
fn answers_in_memory(rt: HostRuntime) -> Result<(), Fail> {
    let alloc = rt.alloc();
    let mut shelf = CleanShelf::new(files(alloc, QUERY, NUMBERS.as_bytes())?);
    let mut out = CleanSink::new(alloc, 4, 4096)?;
    let mut err = CleanSink::new(alloc, 4, 4096)?;
    let words = words_of(alloc, "run q T=t")?;
    let mut patterns = LiteralMaker::new(alloc, Vec::new(alloc));
    let ended = kql_in_memory(
        &rt,
        alloc,
        &words,
        &mut shelf,
        &mut out,
        &mut err,
        &OpenGate,
        &mut patterns,
    );
    assert_eq!(rt; name_of(&ended), "Table");
    assert_eq!(rt; out.bytes(), b"x\n5\n5\n".as_slice());
    assert_eq!(rt; err.bytes().len(), 0);
    Ok(())
}

// The plan of the first query.
const PLAN: &str = "T\n| where ==(x,5)\n";

const FOUR: &str = "print a=-14 % 12, b=14 % -12, c=bin(-1, 5), d=1/0";

// A call whose shelf fails, and one whose output does after ten bytes.
#[test]
fn meets_faults_of_a_print(rt: HostRuntime) -> Result<(), Fail> {
    let alloc = rt.alloc();
    let mut faults = no_faults(alloc);
    faults.shelf.push(1)?;
    let left = call(&rt, alloc, "run q", FOUR, "", faults)?;
    assert_eq!(rt; left.ended, "ReadFault");
    assert_eq!(rt; left.out.as_str(), "");
    assert_eq!(rt; left.err.as_str(), "kql: read fault\n");
    let mut faults = no_faults(alloc);
    faults.out.push(1)?;
    faults.chunk = 10;
    let left = call(&rt, alloc, "run q", FOUR, "", faults)?;
    assert_eq!(rt; left.ended, "WriteFault");
    assert_eq!(rt; left.out.as_str(), "a,b,c,d\n10");
    Ok(())
}

// A trial reads no file, and ends as the command that it is; so does `plain`.
#[test]
fn ends_as_the_command(rt: HostRuntime) -> Result<(), Fail> {
    let alloc = rt.alloc();
    let mut faults = no_faults(alloc);
    faults.shelf.push(0)?;
    let left = call(&rt, alloc, "trial 1 0", "", "", faults)?;
    assert_eq!(rt; left.ended, "Trial");
    assert_eq!(rt; left.status, 0);
    let left = call(&rt, alloc, "plain q T=t", QUERY, NUMBERS, no_faults(alloc))?;
    assert_eq!(rt; left.ended, "PlainTable");
    assert_eq!(rt; left.out.as_str(), "x\n5\n5\n");
    let left = call(
        &rt,
        alloc,
        "explain q T=t",
        QUERY,
        NUMBERS,
        no_faults(alloc),
    )?;
    assert_eq!(rt; left.ended, "Explained");
    assert_eq!(rt; left.out.as_str(), PLAN);
    Ok(())
}

// How a query of two patterns ends whose maker refuses the one of this number, and the line for errors.
fn ended_by_maker(
    rt: &(impl Threads + Sync),
    alloc: Global,
    refused: u64,
) -> Result<(Ended, String), AllocError> {
    let mut failing = Vec::new(alloc);
    failing.push(refused)?;
    let mut patterns = LiteralMaker::new(alloc, failing);
    let query = r#"T | where s matches regex "(" | extend n = extract("b", 0, s)"#;
    let mut shelf = CleanShelf::new(files(alloc, query, b"s\na(b\nab\n")?);
    let mut out = CleanSink::new(alloc, 4096, 4096)?;
    let mut err = CleanSink::new(alloc, 4096, 4096)?;
    let words = words_of(alloc, "run q T=t")?;
    let ended = kql_in_memory(
        rt,
        alloc,
        &words,
        &mut shelf,
        &mut out,
        &mut err,
        &OpenGate,
        &mut patterns,
    );
    let mut written = String::from_utf8_lossy(alloc, out.bytes())?;
    let line = String::from_utf8_lossy(alloc, err.bytes())?;
    written.push_str(line.as_str())?;
    Ok((ended, written))
}

// The maker tells what patterns find, and which it refuses: the literal of that is the place of the refusal.
#[test]
fn asks_the_maker(rt: HostRuntime) -> Result<(), Fail> {
    let alloc = rt.alloc();
    let (ended, written) = ended_by_maker(&rt, alloc, 0)?;
    assert_eq!(rt; name_of(&ended), "QueryRefused");
    assert_eq!(rt; written.as_str(), "kql: 1:27: 501 BadPattern\n");
    let (ended, written) = ended_by_maker(&rt, alloc, 1)?;
    assert_eq!(rt; name_of(&ended), "QueryRefused");
    assert_eq!(rt; written.as_str(), "kql: 1:52: 501 BadPattern\n");
    let (ended, written) = ended_by_maker(&rt, alloc, 2)?;
    assert_eq!(rt; name_of(&ended), "Table");
    assert_eq!(rt; written.as_str(), "s,n\na(b,b\n");
    Ok(())
}

// An output with room for four bytes.
#[test]
fn fills_an_output(rt: HostRuntime) -> Result<(), Fail> {
    let alloc = rt.alloc();
    let mut shelf = CleanShelf::new(files(alloc, FOUR, b"")?);
    let mut out = CleanSink::new(alloc, 10, 4)?;
    let mut err = CleanSink::new(alloc, 10, 4096)?;
    let words = words_of(alloc, "run q")?;
    let mut patterns = LiteralMaker::new(alloc, Vec::new(alloc));
    let ended = kql_in_memory(
        &rt,
        alloc,
        &words,
        &mut shelf,
        &mut out,
        &mut err,
        &OpenGate,
        &mut patterns,
    );
    assert_eq!(rt; name_of(&ended), "WriteFault");
    assert_eq!(rt; out.bytes(), b"a,b,".as_slice());
    assert_eq!(rt; err.bytes().len(), 0);
    Ok(())
}

// A call of the first query with one failing call each; `false` where there was no fault.
fn faulty_read(
    rt: &(impl Abort + Threads + Sync),
    alloc: Global,
    k: u64,
) -> Result<bool, AllocError> {
    let mut faults = no_faults(alloc);
    faults.shelf.push(k)?;
    let left = call(rt, alloc, "run q T=t", QUERY, NUMBERS, faults)?;
    if left.ended == "Table" {
        assert_eq!(rt; left.out.as_str(), "x\n5\n5\n");
        return Ok(false);
    }
    assert_eq!(rt; left.status, 4, "call {k}");
    assert_eq!(rt; left.out.as_str(), "", "call {k}");
    assert_eq!(rt; left.err.as_str(), "kql: read fault\n", "call {k}");
    Ok(true)
}

fn faulty_write(
    rt: &(impl Abort + Threads + Sync),
    alloc: Global,
    k: u64,
) -> Result<bool, AllocError> {
    let mut faults = no_faults(alloc);
    faults.out.push(k)?;
    faults.chunk = 1;
    let left = call(rt, alloc, "run q T=t", QUERY, NUMBERS, faults)?;
    if left.ended == "Table" {
        return Ok(false);
    }
    assert_eq!(rt; left.status, 5, "call {k}");
    assert_eq!(rt; left.out.len() as u64, k, "call {k}");
    assert!(rt; "x\n5\n5\n".starts_with(left.out.as_str()), "call {k}");
    assert_eq!(rt; left.err.as_str(), "", "call {k}");
    Ok(true)
}

#[test]
fn meets_faults(rt: HostRuntime) -> Result<(), Fail> {
    let alloc = rt.alloc();
    let mut reads = 0u64;
    for k in 0..100 {
        if !faulty_read(&rt, alloc, k)? {
            break;
        }
        reads = k + 1;
    }
    assert!(rt; reads >= 4 && reads < 100);
    let mut writes = 0u64;
    for k in 0..100 {
        if !faulty_write(&rt, alloc, k)? {
            break;
        }
        writes = k + 1;
    }
    assert_eq!(rt; writes, 6);
    Ok(())
}

// `explain` with one failing call of the output, which takes a byte at a time; `false` where there was no fault.
fn faulty_plan(
    rt: &(impl Abort + Threads + Sync),
    alloc: Global,
    k: u64,
) -> Result<bool, AllocError> {
    let mut faults = no_faults(alloc);
    faults.out.push(k)?;
    faults.chunk = 1;
    let left = call(rt, alloc, "explain q T=t", QUERY, NUMBERS, faults)?;
    if left.ended == "Explained" {
        assert_eq!(rt; left.out.as_str(), PLAN);
        return Ok(false);
    }
    assert_eq!(rt; left.ended, "WriteFault", "call {k}");
    assert_eq!(rt; left.out.len() as u64, k, "call {k}");
    assert!(rt; PLAN.starts_with(left.out.as_str()), "call {k}");
    assert_eq!(rt; left.err.as_str(), "", "call {k}");
    Ok(true)
}

#[test]
fn meets_faults_of_a_plan(rt: HostRuntime) -> Result<(), Fail> {
    let alloc = rt.alloc();
    let mut writes = 0u64;
    for k in 0..100 {
        if !faulty_plan(&rt, alloc, k)? {
            break;
        }
        writes = k + 1;
    }
    assert_eq!(rt; writes, PLAN.len() as u64);
    let mut faults = no_faults(alloc);
    faults.shelf.push(2)?;
    let left = call(&rt, alloc, "explain q T=t", QUERY, NUMBERS, faults)?;
    assert_eq!(rt; left.ended, "ReadFault");
    assert_eq!(rt; left.out.as_str(), "");
    assert_eq!(rt; left.err.as_str(), "kql: read fault\n");
    Ok(())
}

#[test]
fn meets_a_fault_at_a_refusal(rt: HostRuntime) -> Result<(), Fail> {
    let mut faults = no_faults(rt.alloc());
    faults.err.push(0)?;
    let left = call(&rt, rt.alloc(), "run", "", "", faults)?;
    assert_eq!(rt; left.status, 5);
    assert_eq!(rt; left.out.as_str(), "");
    assert_eq!(rt; left.err.as_str(), "");
    Ok(())
}

// How a call over the first files ended, and whether the call of the shelf behind its last is the one of this number. The first write of one of
// these sinks may fail.
fn ending_and_next(
    rt: &(impl Threads + Sync),
    alloc: Global,
    query: &str,
    number: u64,
    out: Vec<u64>,
    err: Vec<u64>,
) -> Result<(&'static str, bool), AllocError> {
    let words = words_of(alloc, "run q T=t")?;
    let mut failing = Vec::new(alloc);
    failing.push(number)?;
    let mut shelf = MemShelf::new(files(alloc, query, NUMBERS.as_bytes())?, failing);
    let mut out = MemSink::new(alloc, 4096, 4096, out)?;
    let mut err = MemSink::new(alloc, 4096, 4096, err)?;
    let mut patterns = LiteralMaker::new(alloc, Vec::new(alloc));
    let ended = kql(
        rt,
        alloc,
        &words,
        &mut shelf,
        &mut out,
        &mut err,
        &OpenGate,
        &mut patterns,
    );
    let name = name_of(&ended);
    drop(ended);
    Ok((name, shelf.start("q").is_err()))
}

// How many calls of the shelf a query makes.
fn reads_of(rt: &(impl Threads + Sync), alloc: Global, query: &str) -> Result<u64, AllocError> {
    for number in 0..100 {
        let (ended, _) = ending_and_next(
            rt,
            alloc,
            query,
            number,
            Vec::new(alloc),
            Vec::new(alloc),
        )?;
        if ended != "ReadFault" {
            return Ok(number);
        }
    }
    Ok(0)
}

// The shelf is not called again once the first write failed, of an answer or of the line of a refusal.
#[test]
fn reads_nothing_after_a_failed_write(rt: HostRuntime) -> Result<(), Fail> {
    let alloc = rt.alloc();
    for query in [QUERY, "T | where y == 5"] {
        let reads = reads_of(&rt, alloc, query)?;
        assert!(rt; reads >= 4, "{query}");
        let mut out = Vec::new(alloc);
        out.push(0)?;
        let mut err = Vec::new(alloc);
        err.push(0)?;
        let (ended, is_next) = ending_and_next(&rt, alloc, query, reads, out, err)?;
        assert_eq!(rt; ended, "WriteFault", "{query}");
        assert!(rt; is_next, "{query}");
    }
    Ok(())
}
