//! Commands of many paths, of an empty one, and readers that run beside each other.
use crate::calls::{Made, call, have_rows, words_of};
use kql_outside::{HoldGate, OpenGate};
use std::alloc::Global;
use std::sync::Wait;
use std::test::Fail;
use std::thread::Threads;

// What `met()` is true within, on a machine that runs two threads at once.
const TURNS: u64 = 2_000_000_000;

// The words of a command of so many further paths.
fn many_words(alloc: Global, further: usize) -> Made<Vec<String>> {
    let mut words = words_of(alloc, "live q T=two")?;
    for _ in 0..further {
        words.push(String::from_str(alloc, "one")?)?;
    }
    Ok(words)
}

// Whether a command of so many further paths ends with this status and this output.
fn ends<R: Threads + Wait + Sync>(
    rt: &R,
    alloc: Global,
    further: usize,
    status: u8,
    out: &str,
    err: &str,
) -> Made<bool> {
    let words = many_words(alloc, further)?;
    let left = call(rt, alloc, words.as_slice(), further as u64, &OpenGate)?;
    Ok(
        left.status == status
            && left.readers.is_some()
            && left.out.as_slice() == out.as_bytes()
            && left.err.as_slice() == err.as_bytes(),
    )
}

#[test]
fn sixty_four_paths_and_no_more(rt: HostRuntime) -> Result<(), Fail> {
    let most = ends(&rt, rt.alloc(), 63, 0, "Count\n65\n", "")?;
    let more = ends(
        &rt,
        rt.alloc(),
        64,
        2,
        "",
        "kql: word 66: 610 TooManyTables\n",
    )?;
    assert!(rt; most);
    assert!(rt; more);
    Ok(())
}

// The line of an empty further path.
fn of_empty<R: Threads + Wait + Sync>(rt: &R, alloc: Global) -> Made<bool> {
    let mut words = many_words(alloc, 1)?;
    words.push(String::new(alloc))?;
    let left = call(rt, alloc, words.as_slice(), 0, &OpenGate)?;
    Ok(left.err.as_slice() == "kql: word 4: 611 EmptyPath\n".as_bytes())
}

#[test]
fn an_empty_path_is_refused(rt: HostRuntime) -> Result<(), Fail> {
    let refused = of_empty(&rt, rt.alloc())?;
    assert!(rt; refused);
    Ok(())
}

// How many readers saw what they may see, where each sight of a command of one batch has one row.
fn beside<R: Threads + Wait + Sync>(
    rt: &R,
    alloc: Global,
    command: &str,
    gate: &HoldGate,
) -> Made<Option<usize>> {
    let words = words_of(alloc, command)?;
    let left = call(rt, alloc, words.as_slice(), 1, gate)?;
    if !have_rows(left.sights.as_slice(), &[1, 1]) {
        return Ok(None);
    }
    Ok(left.readers)
}

#[test]
fn readers_run_beside_each_other(rt: HostRuntime) -> Result<(), Fail> {
    let gate = HoldGate::new(TURNS);
    let readers = beside(&rt, rt.alloc(), "live q T=two one", &gate)?;
    assert_eq!(rt; readers, Some(2));
    assert!(rt; gate.met());
    Ok(())
}

#[test]
fn readers_of_a_view_run_beside_each_other(rt: HostRuntime) -> Result<(), Fail> {
    let gate = HoldGate::new(TURNS);
    let readers = beside(&rt, rt.alloc(), "live --view sum T=two one", &gate)?;
    assert_eq!(rt; readers, Some(2));
    assert!(rt; gate.met());
    Ok(())
}

// A command, its number of batches, and how many rows the answer has after each number of batches.
type Watched = (&'static str, u64, &'static [u64]);

const WATCHED: &[Watched] = &[
    ("live each T=none two one two", 3, &[0, 2, 3, 3]),
    ("live --view each T=none two one two", 3, &[0, 2, 3, 3]),
];

// Whether each sight of each reader has the rows of the answer after its number of batches.
fn is_watched<R: Threads + Wait + Sync>(rt: &R, alloc: Global, row: &Watched) -> Made<bool> {
    let words = words_of(alloc, row.0)?;
    let left = call(rt, alloc, words.as_slice(), row.1, &OpenGate)?;
    Ok(left.readers == Some(2) && have_rows(left.sights.as_slice(), row.2))
}

#[test]
fn readers_of_a_view_see_the_same(rt: HostRuntime) -> Result<(), Fail> {
    let table = is_watched(&rt, rt.alloc(), &WATCHED[0])?;
    let view = is_watched(&rt, rt.alloc(), &WATCHED[1])?;
    assert!(rt; table);
    assert!(rt; view);
    Ok(())
}
