//! Calls of the program over files in memory, and what they leave.
use kql_outside::{MemShelf, MemSink, OpenGate};
use kql_program::{Ended, kql, status};
use pattern_ops::LiteralMaker;
use std::alloc::{AllocError, Global};
use std::str;
use std::thread::Threads;

/// What a call left.
#[derive(Drop)]
pub(crate) struct Left {
    pub ended: &'static str,
    pub status: u8,
    pub out: String,
    pub err: String,
}

/// The failing calls of the shelf, the output and the sink for errors, and the chunk of the output.
#[derive(Drop)]
pub(crate) struct Faults {
    pub shelf: Vec<u64>,
    pub out: Vec<u64>,
    pub err: Vec<u64>,
    pub chunk: usize,
}

pub(crate) fn no_faults(alloc: Global) -> Faults {
    Faults {
        shelf: Vec::new(alloc),
        out: Vec::new(alloc),
        err: Vec::new(alloc),
        chunk: 4096,
    }
}

// The words of a command, which blanks part.
pub(crate) fn words_of(alloc: Global, command: &str) -> Result<Vec<String>, AllocError> {
    let mut words = Vec::new(alloc);
    for word in command.split_whitespace() {
        words.push(String::from_str(alloc, word)?)?;
    }
    Ok(words)
}

pub(crate) fn file(
    alloc: Global,
    path: &str,
    bytes: &[u8],
) -> Result<(String, Vec<u8>), AllocError> {
    Ok((
        String::from_str(alloc, path)?,
        Vec::from_slice(alloc, bytes)?,
    ))
}

fn shown(alloc: Global, bytes: &[u8]) -> Result<String, AllocError> {
    match str::from_utf8(bytes) {
        Ok(text) => String::from_str(alloc, text),
        Err(_) => String::from_str(alloc, "no text"),
    }
}

// A file `q` of a query and a file `t` of a table.
pub(crate) fn files(
    alloc: Global,
    query: &str,
    table: &[u8],
) -> Result<Vec<(String, Vec<u8>)>, AllocError> {
    let mut files = Vec::new(alloc);
    files.push(file(alloc, "q", query.as_bytes())?)?;
    files.push(file(alloc, "t", table)?)?;
    files.push(file(alloc, "u", b"y\n")?)?;
    Ok(files)
}

// The name of an ending.
pub(crate) fn name_of(ended: &Ended) -> &'static str {
    match ended {
        Ended::Table { .. } => "Table",
        Ended::PlainTable => "PlainTable",
        Ended::Explained { .. } => "Explained",
        Ended::Trial { .. } => "Trial",
        Ended::QueryRefused { .. } => "QueryRefused",
        Ended::Usage { .. } => "Usage",
        Ended::DataRefused { .. } => "DataRefused",
        Ended::ReadFault => "ReadFault",
        Ended::WriteFault => "WriteFault",
        Ended::OutOfMemory => "OutOfMemory",
    }
}

fn left_in(ended: &Ended, alloc: Global, out: &MemSink, err: &MemSink) -> Result<Left, AllocError> {
    let out = shown(alloc, out.bytes())?;
    let err = shown(alloc, err.bytes())?;
    Ok(Left {
        ended: name_of(ended),
        status: status(ended),
        out,
        err,
    })
}

// Calls `kql` over these files and sinks.
pub(crate) fn call_over(
    rt: &(impl Threads + Sync),
    alloc: Global,
    words: &[String],
    shelf: &mut MemShelf,
    out: &mut MemSink,
    err: &mut MemSink,
) -> Result<Left, AllocError> {
    let mut patterns = LiteralMaker::new(alloc, Vec::new(alloc));
    let ended = kql(rt, alloc, words, shelf, out, err, &OpenGate, &mut patterns);
    let left = left_in(&ended, alloc, out, err);
    drop(ended);
    left
}

// Calls `kql` with the words of a command, a file `q` of the query and files `t` and `u` of tables.
fn call_on_bytes(
    rt: &(impl Threads + Sync),
    alloc: Global,
    command: &str,
    query: &str,
    table: &[u8],
    faults: Faults,
) -> Result<Left, AllocError> {
    let words = words_of(alloc, command)?;
    let Faults {
        shelf,
        out,
        err,
        chunk,
    } = faults;
    let mut out = MemSink::new(alloc, chunk.max(1), 1_048_576, out)?;
    let mut err = MemSink::new(alloc, 4096, 1_048_576, err)?;
    let mut shelf = MemShelf::new(files(alloc, query, table)?, shelf);
    call_over(rt, alloc, &words, &mut shelf, &mut out, &mut err)
}

pub(crate) fn call(
    rt: &(impl Threads + Sync),
    alloc: Global,
    command: &str,
    query: &str,
    table: &str,
    faults: Faults,
) -> Result<Left, AllocError> {
    call_on_bytes(rt, alloc, command, query, table.as_bytes(), faults)
}

pub(crate) const QUERY: &str = "T | where x == 5";

pub(crate) const NUMBERS: &str = "x:long\n5\n\"\"\n6\n5\n";

// The status, the output, and behind a bar the errors.
pub(crate) fn as_text(alloc: Global, left: &Left) -> Result<String, AllocError> {
    format!(in alloc;
        "{} {}|{}",
        left.status,
        left.out.as_str(),
        left.err.as_str()
    )
}

// What a call left, without a fault.
pub(crate) fn left_by_bytes(
    rt: &(impl Threads + Sync),
    alloc: Global,
    command: &str,
    query: &str,
    table: &[u8],
) -> Result<String, AllocError> {
    let left = call_on_bytes(rt, alloc, command, query, table, no_faults(alloc))?;
    as_text(alloc, &left)
}

pub(crate) fn left_by(
    rt: &(impl Threads + Sync),
    alloc: Global,
    command: &str,
    query: &str,
    table: &str,
) -> Result<String, AllocError> {
    left_by_bytes(rt, alloc, command, query, table.as_bytes())
}

// A call: its words, its query, its table, and what it leaves.
pub(crate) type Case = (&'static str, &'static str, &'static str, &'static str);

// What the first call was to leave that leaves something else; nothing where each leaves that.
pub(crate) fn first_wrong(
    rt: &(impl Threads + Sync),
    alloc: Global,
    cases: &[Case],
) -> Result<&'static str, AllocError> {
    for (command, query, table, want) in cases {
        let left = left_by(rt, alloc, command, query, table)?;
        if left.as_str() != *want {
            return Ok(*want);
        }
    }
    Ok("")
}

// The first row `QUERY -> LINE` whose query is refused otherwise over this table; nothing where each is refused as its row says.
pub(crate) fn wrong_refusal(
    rt: &(impl Threads + Sync),
    alloc: Global,
    command: &str,
    table: &str,
    rows: &'static str,
) -> Result<&'static str, AllocError> {
    for row in rows.lines() {
        let (query, want) = row.split_once(" -> ").unwrap_or((row, ""));
        let left = left_by(rt, alloc, command, query, table)?;
        let line = format!(in alloc; "1 |kql: {want}\n")?;
        if left.as_str() != line.as_str() {
            return Ok(row);
        }
    }
    Ok("")
}

// A text, another so many times, and a third.
pub(crate) fn repeated(
    alloc: Global,
    first: &str,
    part: &str,
    count: u32,
    last: &str,
) -> Result<String, AllocError> {
    let mut text = String::from_str(alloc, first)?;
    for _ in 0..count {
        text.push_str(part)?;
    }
    text.push_str(last)?;
    Ok(text)
}
