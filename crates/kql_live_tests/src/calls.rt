//! Calls of the command over files in memory, and what they leave.
use kql_live::{LiveEnded, kql_live, live_status};
use kql_outside::{Gate, MemShelf, MemSink};
use live_run::{Seen, SeenList, SeenLists};
use std::alloc::{AllocError, Global};
use std::sync::Wait;
use std::thread::Threads;

pub(crate) type Made<T> = Result<T, AllocError>;

// The files of each test, by their paths.
const FILES: &[(&str, &str)] = &[
    ("q", "T | count"),
    ("sum", "T | summarize s=sum(x)"),
    ("high", "T | where x > 1"),
    ("now", "T | count | extend t=now()"),
    ("unbound", "T | where z > 1"),
    ("cut", "T |"),
    ("pattern", r#"T | where x matches regex "a""#),
    (
        "groups",
        "T | summarize c=count(), s=sum(x), l=make_list(x) by g",
    ),
    (
        "calls",
        "T | summarize n=sum(x) + count(), l=make_list(x, 2) by g",
    ),
    ("each", "T | distinct x"),
    ("all", "T | distinct *"),
    ("limit", "let n = 1; T | summarize c=countif(x > n)"),
    ("joined", "T | join (T) on x"),
    ("let", "let a = T; T | summarize count()"),
    ("over_let", "let a = T; a | summarize count()"),
    ("twice", "T | summarize c=count() by x | summarize sum(c)"),
    ("behind", "T | where x > 1 | summarize count()"),
    ("sorted", "T | summarize c=count() by x | sort by x"),
    ("both", "union T, T | summarize count()"),
    ("alone", "union T | summarize count()"),
    ("below", "// how many\n\n  T | count"),
    ("whole", "T"),
    ("range", "range x from 1 to 3 step 1 | summarize count()"),
    ("printed", "print x=1 | summarize count()"),
    ("unbound_sum", "T | summarize sum(z)"),
    ("g1", "g,x:long\na,1\nb,2\n"),
    ("g2", "g,x:long\nb,3\na,4\n"),
    ("two", "x:long\n1\n2\n"),
    ("one", "x:long\n3\n"),
    ("none", "x:long\n"),
    ("other", "y:long\n3\n"),
    ("text", "x:string\na\n"),
    ("wide", "x:long,y:long\n3,4\n"),
    ("cell", "x:long\nz\n"),
    ("empty", ""),
];

/// What a call left: its status, what was written, how many readers saw what they may see, none where one did not, and all that they saw.
#[derive(Drop)]
pub(crate) struct Left {
    pub status: u8,
    pub out: Vec<u8>,
    pub err: Vec<u8>,
    pub readers: Option<usize>,
    pub sights: Vec<Seen>,
}

/// The failing calls of the shelf, of the output and of the sink for errors, and how many bytes these take at once.
#[derive(Drop)]
pub(crate) struct Faults {
    pub shelf: Vec<u64>,
    pub out: Vec<u64>,
    pub err: Vec<u64>,
    pub chunk: usize,
}

pub(crate) fn no_faults(alloc: Global) -> Faults {
    Faults {
        shelf: Vec::new(alloc),
        out: Vec::new(alloc),
        err: Vec::new(alloc),
        chunk: 4096,
    }
}

/// The words of a command, which blanks part.
pub(crate) fn words_of(alloc: Global, command: &str) -> Made<Vec<String>> {
    let mut words = Vec::new(alloc);
    for word in command.split_whitespace() {
        words.push(String::from_str(alloc, word)?)?;
    }
    Ok(words)
}

fn shelf_of(alloc: Global, failing: Vec<u64>) -> Made<MemShelf> {
    let mut files = Vec::new(alloc);
    for (path, text) in FILES {
        files.push((
            String::from_str(alloc, path)?,
            Vec::from_slice(alloc, text.as_bytes())?,
        ))?;
    }
    Ok(MemShelf::new(files, failing))
}

// Whether the numbers of a list never fall, and the last is that of all batches.
fn is_list(seen: &SeenList, batches: u64) -> bool {
    let mut last = 0;
    for sight in seen.as_slice() {
        if sight.batches < last {
            return false;
        }
        last = sight.batches;
    }
    last == batches && seen.len() as u64 == batches.saturating_add(2)
}

fn readers_in(lists: &SeenLists, batches: u64) -> Option<usize> {
    for seen in lists.as_slice() {
        if !is_list(seen, batches) {
            return None;
        }
    }
    Some(lists.len())
}

fn readers_of(ended: &LiveEnded, batches: u64) -> Option<usize> {
    match ended {
        LiveEnded::Table { seen } => readers_in(seen, batches),
        _ => Some(0),
    }
}

// What all readers saw.
fn sights_of(alloc: Global, ended: &LiveEnded) -> Made<Vec<Seen>> {
    let mut sights = Vec::new(alloc);
    if let LiveEnded::Table { seen } = ended {
        for list in seen.as_slice() {
            sights.extend_from_slice(list.as_slice())?;
        }
    }
    Ok(sights)
}

/// Whether each sight has as many rows as stand at its number of batches, and there is one.
pub(crate) fn have_rows(sights: &[Seen], rows: &[u64]) -> bool {
    for sight in sights {
        if rows.get(sight.batches as usize) != Some(&sight.rows) {
            return false;
        }
    }
    !sights.is_empty()
}

/// Answers a command of so many batches.
pub(crate) fn call<R: Threads + Wait + Sync, G: Gate + Sync>(
    rt: &R,
    alloc: Global,
    words: &[String],
    batches: u64,
    gate: &G,
) -> Made<Left> {
    call_with(rt, alloc, words, batches, gate, no_faults(alloc))
}

/// The same, where these calls fail.
pub(crate) fn call_with<R: Threads + Wait + Sync, G: Gate + Sync>(
    rt: &R,
    alloc: Global,
    words: &[String],
    batches: u64,
    gate: &G,
    faults: Faults,
) -> Made<Left> {
    let Faults {
        shelf,
        out,
        err,
        chunk,
    } = faults;
    let mut shelf = shelf_of(alloc, shelf)?;
    let mut out = MemSink::new(alloc, chunk.max(1), 1_048_576, out)?;
    let mut err = MemSink::new(alloc, chunk.max(1), 1_048_576, err)?;
    let ended = kql_live(rt, alloc, words, &mut shelf, &mut out, &mut err, gate);
    let status = live_status(&ended);
    let readers = readers_of(&ended, batches);
    let sights = sights_of(alloc, &ended);
    drop(ended);
    let sights = sights?;
    let out = Vec::from_slice(alloc, out.bytes())?;
    let err = Vec::from_slice(alloc, err.bytes())?;
    Ok(Left {
        status,
        out,
        err,
        readers,
        sights,
    })
}
