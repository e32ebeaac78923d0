//! Catalogue files that no row of `kql_rows` can hold: of many bytes, of bytes that are no text, and of no path.
use crate::calls::{as_text, call_over, file, repeated, words_of};
use kql_outside::{MemShelf, MemSink};
use std::alloc::{AllocError, Global};
use std::test::Fail;
use std::thread::Threads;

const NONE: &str = "{\"version\":2,\"tables\":[]}";

const ONE: &str =
    "{\"version\":2,\"tables\":[{\"name\":\"T\",\"columns\":[{\"name\":\"x\",\"type\":\"long\"}],\"files\":[\"t\"]}]}";

// What a call with these words leaves over a file `q` of a query, a file `c` of a catalogue, and a file `t` of a table.
fn left_by_words(
    rt: &(impl Threads + Sync),
    alloc: Global,
    words: &[String],
    query: &str,
    catalogue: &[u8],
    table: &[u8],
) -> Result<String, AllocError> {
    let mut files = Vec::new(alloc);
    files.push(file(alloc, "q", query.as_bytes())?)?;
    files.push(file(alloc, "c", catalogue)?)?;
    files.push(file(alloc, "t", table)?)?;
    let mut out = MemSink::new(alloc, 4096, 1_048_576, Vec::new(alloc))?;
    let mut err = MemSink::new(alloc, 4096, 1_048_576, Vec::new(alloc))?;
    let mut shelf = MemShelf::new(files, Vec::new(alloc));
    let left = call_over(rt, alloc, words, &mut shelf, &mut out, &mut err)?;
    as_text(alloc, &left)
}

// The same with the words of `run` that give the catalogue.
fn left_by(
    rt: &(impl Threads + Sync),
    alloc: Global,
    query: &str,
    catalogue: &[u8],
    table: &[u8],
) -> Result<String, AllocError> {
    let words = words_of(alloc, "run --catalogue c q")?;
    left_by_words(rt, alloc, &words, query, catalogue, table)
}

// What is left of a catalogue file that begins so and has so many blanks behind it.
fn left_of_blanks(
    rt: &(impl Threads + Sync),
    alloc: Global,
    first: &str,
    count: u32,
) -> Result<String, AllocError> {
    let text = repeated(alloc, first, " ", count, "")?;
    left_by(rt, alloc, "print 1", text.as_bytes(), b"")
}

// A catalogue of 1,048,576 bytes is read, and one of a byte more is refused before it is looked at.
#[test]
fn refuses_long_catalogues(rt: HostRuntime) -> Result<(), Fail> {
    let alloc = rt.alloc();
    let left = left_of_blanks(&rt, alloc, NONE, 1_048_551)?;
    assert_eq!(rt; left.as_str(), "0 print_0\n1\n|");
    let left = left_of_blanks(&rt, alloc, NONE, 1_048_552)?;
    assert_eq!(rt;
        left.as_str(),
        "3 |kql: file 1: 314 CatalogueTooLong at 0:0\n"
    );
    let left = left_of_blanks(&rt, alloc, "", 1_048_576)?;
    assert_eq!(rt; left.as_str(), "3 |kql: file 1: 309 NotJson at 0:0\n");
    let left = left_of_blanks(&rt, alloc, "", 1_048_577)?;
    assert_eq!(rt;
        left.as_str(),
        "3 |kql: file 1: 314 CatalogueTooLong at 0:0\n"
    );
    Ok(())
}

// Bytes that are no text, in the catalogue and in an entry's file.
#[test]
fn refuses_catalogues_of_bytes(rt: HostRuntime) -> Result<(), Fail> {
    let alloc = rt.alloc();
    let left = left_by(&rt, alloc, "print 1", b"{\"version\":2,\"tab\xff", b"")?;
    assert_eq!(rt; left.as_str(), "3 |kql: file 1: 301 NotUtf8 at 0:17\n");
    let left = left_by(&rt, alloc, "print 1", b"\xef\xbb\xbf{\xff", b"")?;
    assert_eq!(rt; left.as_str(), "3 |kql: file 1: 301 NotUtf8 at 0:4\n");
    let long = vec![in alloc; b'\xff'; 1_048_577]?;
    let left = left_by(&rt, alloc, "print 1", &long, b"")?;
    assert_eq!(rt;
        left.as_str(),
        "3 |kql: file 1: 314 CatalogueTooLong at 0:0\n"
    );
    let left = left_by(&rt, alloc, "T", ONE.as_bytes(), b"x\n5\n\xff\n")?;
    assert_eq!(rt; left.as_str(), "3 |kql: file 2: 301 NotUtf8 at 0:4\n");
    Ok(())
}

#[test]
fn reads_a_file_of_an_entry(rt: HostRuntime) -> Result<(), Fail> {
    let alloc = rt.alloc();
    let left = left_by(&rt, alloc, "T", ONE.as_bytes(), b"\xef\xbb\xbfx\n5\n")?;
    assert_eq!(rt; left.as_str(), "0 x\n5\n|");
    let mut words = words_of(alloc, "run --catalogue")?;
    words.push(String::new(alloc))?;
    words.push(String::from_str(alloc, "q")?)?;
    let left = left_by_words(&rt, alloc, &words, "T", ONE.as_bytes(), b"")?;
    assert_eq!(rt; left.as_str(), "2 |kql: word 2: 605 OptionValue\n");
    Ok(())
}
