//! Which columns the rows have at a place of a refused query: what the query before the place answers over the tables without their rows.

use crate::advice::{asked_in, front_of};
use catalogue_file::{CatalogueFile, Entry, read_catalogue};
use csv_io::typed_text;
use kql_cells::Kind;
use kql_messages::{KnownColumn, header_end, queries_before};
use kql_outside::{CleanShelf, CleanSink, OpenGate};
use kql_program::{kql, status};
use kql_values::Table;
use kql_words::table_parts;
use pattern_ops::RegexMaker;
use std::alloc::{AllocError, Global};
use std::str;
use std::thread::Threads;

// The path of the query; no table has a name with a point in it.
const QUERY: &str = "q.kql";

// How long the headers are that are read again.
const HEADER_TOP: u64 = 65_536;

// How long the catalogue may be.
const CATALOGUE_TOP: u64 = 1_048_576;

// Room for an answer's header, and how much of it is written at once.
const ROOM: usize = 65_536;

const CHUNK: usize = 4_096;

// Of how many columns the types are looked for.
const TYPED: usize = 64;

/// A column, and its type where it is known.
#[derive(Drop)]
pub(crate) struct SeenColumn {
    name: String,
    kind: Option<Kind>,
}

impl SeenColumn {
    /// The column as the messages take it.
    pub(crate) fn known(&self) -> KnownColumn<'_> {
        KnownColumn {
            name: self.name.as_str(),
            kind: self.kind,
        }
    }
}

/// A table without its rows: its name, and its header; none where that cannot be read again.
#[derive(Drop)]
pub(crate) struct Header {
    pub(crate) name: String,
    bytes: Vec<u8>,
}

// A command without the rows of its tables: the words before the query, and the headers of the tables.
#[derive(Drop)]
struct Bare<'a, T> {
    threads: &'a T,
    alloc: Global,
    options: &'a [String],
    headers: &'a [Header],
}

/// The tables of a command: those that its words name, and those of its catalogue.
pub(crate) fn headers_of(rt: &HostRuntime, words: &[String]) -> Result<Vec<Header>, AllocError> {
    let alloc = rt.alloc();
    let mut headers = Vec::new(alloc);
    for word in words {
        if let Some((name, path)) = table_parts(word.as_str()) {
            headers.push(Header {
                name: String::from_str(alloc, name)?,
                bytes: header_in(rt, path),
            })?;
        }
    }
    if let Some(catalogue) = catalogue_of(rt, words) {
        push_entries(alloc, &mut headers, catalogue.tables.as_slice())?;
    }
    Ok(headers)
}

// The header of a file.
fn header_in(rt: &HostRuntime, path: &str) -> Vec<u8> {
    let alloc = rt.alloc();
    let Some(mut bytes) = front_of(rt, path, HEADER_TOP) else {
        return Vec::new(alloc);
    };
    let end = header_end(alloc, bytes.as_slice());
    if end as u64 == HEADER_TOP {
        return Vec::new(alloc);
    }
    bytes.truncate(end);
    bytes
}

/// The catalogue of a command, where it can be read again.
pub(crate) fn catalogue_of(rt: &HostRuntime, words: &[String]) -> Option<CatalogueFile> {
    let path = words.get(asked_in(words)?.options.catalogue?)?;
    let bytes = front_of(rt, path.as_str(), CATALOGUE_TOP)?;
    read_catalogue(rt.alloc(), bytes.as_slice()).ok()
}

// Adds the tables of a catalogue behind those whose names count.
fn push_entries(
    alloc: Global,
    headers: &mut Vec<Header>,
    entries: &[Entry],
) -> Result<(), AllocError> {
    for entry in entries {
        if has_name(headers, entry.name.as_str()) {
            continue;
        }
        let columns = Table::empty(alloc, entry.schema.copy(alloc)?)?;
        let header = typed_text(alloc, &columns)?;
        headers.push(Header {
            name: String::from_str(alloc, entry.name.as_str())?,
            bytes: header.into_vec(),
        })?;
    }
    Ok(())
}

// Whether a table has a name.
fn has_name(headers: &[Header], name: &str) -> bool {
    for header in headers {
        if header.name.as_str() == name {
            return true;
        }
    }
    false
}

// What `--now` is among the words in front of a query.
fn moment_in(options: &[String]) -> Option<&str> {
    for i in 0..options.len() {
        if options[i].as_str() == "--now" {
            return Some(options.get(i + 1)?.as_str());
        }
    }
    None
}

impl<T: Threads + Sync> Bare<'_, T> {
    // The words of a call.
    fn words(&self) -> Result<Vec<String>, AllocError> {
        let alloc = self.alloc;
        let mut words = Vec::new(alloc);
        words.push(String::from_str(alloc, "run")?)?;
        if let Some(moment) = moment_in(self.options) {
            words.push(String::from_str(alloc, "--now")?)?;
            words.push(String::from_str(alloc, moment)?)?;
        }
        words.push(String::from_str(alloc, QUERY)?)?;
        for header in self.headers {
            if !header.bytes.is_empty() {
                let name = header.name.as_str();
                words.push(format!(in alloc; "{name}={name}")?)?;
            }
        }
        Ok(words)
    }

    // The files of a call.
    fn files(&self, query: &str) -> Result<Vec<(String, Vec<u8>)>, AllocError> {
        let alloc = self.alloc;
        let mut files = Vec::new(alloc);
        let text = Vec::from_slice(alloc, query.as_bytes())?;
        files.push((String::from_str(alloc, QUERY)?, text))?;
        for header in self.headers {
            let bytes = Vec::from_slice(alloc, header.bytes.as_slice())?;
            files.push((String::from_str(alloc, header.name.as_str())?, bytes))?;
        }
        Ok(files)
    }

    // What a query answers, if it is answered.
    fn answer(&self, query: &str) -> Result<Option<String>, AllocError> {
        let alloc = self.alloc;
        let words = self.words()?;
        let mut shelf = CleanShelf::new(self.files(query)?);
        let mut out = CleanSink::new(alloc, CHUNK, ROOM)?;
        let mut err = CleanSink::new(alloc, CHUNK, ROOM)?;
        let mut patterns = RegexMaker::new(alloc);
        let ended = kql(
            self.threads,
            alloc,
            &words,
            &mut shelf,
            &mut out,
            &mut err,
            &OpenGate,
            &mut patterns,
        );
        if status(&ended) != 0 {
            return Ok(None);
        }
        let text = str::from_utf8(out.bytes()).unwrap_or("");
        Ok(Some(String::from_str(alloc, text)?))
    }

    // Whether a call takes a column of the rows that a query gives.
    fn takes(&self, query: &str, call: &str, name: &str) -> Result<bool, AllocError> {
        let probe = format!(in self.alloc; "{query}| project p = {call}(['{name}'])\n| take 0\n")?;
        Ok(self.answer(probe.as_str())?.is_some())
    }

    // The type of a column of the rows that a query gives: that of the first call that takes it.
    fn kind_in(&self, query: &str, name: &str) -> Result<Option<Kind>, AllocError> {
        if self.takes(query, "binary_not", name)? {
            return Ok(Some(Kind::Long));
        }
        if self.takes(query, "strlen", name)? {
            return Ok(Some(Kind::Text));
        }
        if self.takes(query, "getyear", name)? {
            return Ok(Some(Kind::Moment));
        }
        if self.takes(query, "not", name)? {
            return Ok(Some(Kind::Bool));
        }
        if self.takes(query, "array_length", name)? {
            return Ok(Some(Kind::Dynamic));
        }
        if self.takes(query, "abs", name)? {
            return Ok(Some(Kind::Span));
        }
        Ok(None)
    }

    // The columns of an answer's header, with the types of those that a text names.
    fn columns(
        &self,
        query: &str,
        header: &str,
        text: &str,
    ) -> Result<Vec<SeenColumn>, AllocError> {
        let mut seen = Vec::new(self.alloc);
        for name in header.split(',') {
            let is_plain = !name.contains('\'') && !name.contains('\\');
            let kind = if is_plain && text.contains(name) && seen.len() < TYPED {
                self.kind_in(query, name)?
            } else {
                None
            };
            seen.push(SeenColumn {
                name: String::from_str(self.alloc, name)?,
                kind,
            })?;
        }
        Ok(seen)
    }
}

/// The columns of the rows at a place of a query, where they can be known, and the types of those that it names.
pub(crate) fn columns_at<T: Threads + Sync>(
    rt: &HostRuntime,
    threads: &T,
    words: &[String],
    headers: &[Header],
    text: &str,
    code: u32,
    byte: usize,
) -> Result<Vec<SeenColumn>, AllocError> {
    let alloc = rt.alloc();
    let query = match asked_in(words) {
        Some(asked) if code == 401 || code == 404 => asked.query,
        _ => return Ok(Vec::new(alloc)),
    };
    let bare = Bare {
        threads,
        alloc,
        options: words.get(..query).unwrap_or(&[]),
        headers,
    };
    for query in queries_before(alloc, text, byte)? {
        let none = format!(in alloc; "{}| take 0\n", query.as_str())?;
        if let Some(answer) = bare.answer(none.as_str())? {
            let header = answer.as_str().lines().next().unwrap_or("");
            if header.contains('"') {
                return Ok(Vec::new(alloc));
            }
            return bare.columns(query.as_str(), header, text);
        }
    }
    Ok(Vec::new(alloc))
}
