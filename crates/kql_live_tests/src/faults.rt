//! Calls of the outside that fail.
use crate::calls::{Left, Made, call_with, no_faults, words_of};
use kql_outside::OpenGate;
use std::alloc::Global;
use std::sync::Wait;
use std::test::Fail;
use std::thread::Threads;

const ANSWER: &str = "Count\n3\n";

// So many calls of the shelf: three files, each started, read, and read to its end.
const CALLS: u64 = 9;

// What a call leaves where the call of the shelf of this number fails.
fn over_shelf<R: Threads + Wait + Sync>(rt: &R, alloc: Global, failing: u64) -> Made<Left> {
    let words = words_of(alloc, "live q T=two one")?;
    let mut faults = no_faults(alloc);
    faults.shelf.push(failing)?;
    call_with(rt, alloc, words.as_slice(), 1, &OpenGate, faults)
}

// The first call of the shelf whose failure is not told as it has to be.
fn first_unread<R: Threads + Wait + Sync>(rt: &R, alloc: Global) -> Made<Option<u64>> {
    for k in 0..CALLS {
        let left = over_shelf(rt, alloc, k)?;
        let told = left.err.as_slice() == "kql: read fault\n".as_bytes();
        if left.status != 4 || !left.out.is_empty() || !told {
            return Ok(Some(k));
        }
    }
    let left = over_shelf(rt, alloc, CALLS)?;
    if left.status != 0 || left.out.as_slice() != ANSWER.as_bytes() {
        return Ok(Some(CALLS));
    }
    Ok(None)
}

#[test]
fn each_failing_call_of_the_shelf_is_a_read_fault(rt: HostRuntime) -> Result<(), Fail> {
    let wrong = first_unread(&rt, rt.alloc())?;
    assert_eq!(rt; wrong, None);
    Ok(())
}

// Whether a text is left unfinished behind its first bytes.
fn is_cut(bytes: &[u8], text: &str, count: usize) -> bool {
    count <= text.len() && bytes == &text.as_bytes()[..count]
}

// What a command leaves where the sinks take a byte at once, and their call of this number fails.
fn over_sinks<R: Threads + Wait + Sync>(
    rt: &R,
    alloc: Global,
    command: &str,
    failing: u64,
) -> Made<Left> {
    let words = words_of(alloc, command)?;
    let mut faults = no_faults(alloc);
    faults.out.push(failing)?;
    faults.err.push(failing)?;
    faults.chunk = 1;
    call_with(rt, alloc, words.as_slice(), 1, &OpenGate, faults)
}

// The first byte whose failure is not told as it has to be, of an answer and of a line.
fn first_unwritten<R: Threads + Wait + Sync>(rt: &R, alloc: Global) -> Made<Option<usize>> {
    for k in 0..ANSWER.len() {
        let left = over_sinks(rt, alloc, "live q T=two one", k as u64)?;
        if left.status != 5 || !is_cut(left.out.as_slice(), ANSWER, k) || !left.err.is_empty() {
            return Ok(Some(k));
        }
        let left = over_sinks(rt, alloc, "live q", k as u64)?;
        let cut = is_cut(left.err.as_slice(), "kql: word 2: 612 NoTable\n", k);
        if left.status != 5 || !cut || !left.out.is_empty() {
            return Ok(Some(k));
        }
    }
    Ok(None)
}

#[test]
fn each_failing_write_is_a_write_fault(rt: HostRuntime) -> Result<(), Fail> {
    let wrong = first_unwritten(&rt, rt.alloc())?;
    assert_eq!(rt; wrong, None);
    Ok(())
}
