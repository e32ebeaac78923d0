//! What a terminal is told of a refusal under its line: sentences by what the query and the files have.

use crate::caret;
use crate::probe::{columns_at, headers_of};
use crate::shown::Asked as Call;
use kql_messages::{
    KnownColumn, RefusedFile, RefusedQuery, Sizes, file_message, query_message, sizes_message,
};
use kql_outside::{DirShelf, Shelf, read_up_to};
use kql_program::Ended;
use kql_words::{Asked, Command, read_command, table_parts};
use std::thread::Threads;
use std::{fs, io};

// For how long a word at the place of a refusal another one is looked for: each is compared with all others there are, byte by byte.
const WORD_TOP: usize = 1_000;

// The code of a pattern that is refused.
const BAD_PATTERN: u32 = 501;

// What is told where `run` has `-e` or `-q`.
const WITHOUT_RUN: &str =
    "A query on the command line stands without run: kql -e 'QUERY' NAME=PATH";

// What is told where `run` has a word of a second file of a query.
const SEVERAL_FILES: &str = "\
Several files are one query behind -q each, without run: kql -q lets.kql -q q.kql NAME=PATH";

/// What the words of a command ask for, where they ask for a query.
pub(crate) fn asked_in(words: &[String]) -> Option<Asked> {
    match read_command(words).ok()? {
        Command::Run(asked) => Some(asked),
        Command::Plain(asked) => Some(asked),
        Command::Explain(asked) => Some(asked),
        Command::Trial(_) => None,
    }
}

/// The first bytes of a plain file, at most so many.
pub(crate) fn front_of(rt: &HostRuntime, path: &str, most: u64) -> Option<Vec<u8>> {
    if !fs::metadata(rt, path).ok()?.is_file() {
        return None;
    }
    let mut shelf = DirShelf::new(rt);
    if !shelf.start(path).ok()? {
        return None;
    }
    let most = usize::try_from(most).unwrap_or(usize::MAX);
    read_up_to(rt.alloc(), &mut shelf, most).ok()
}

/// Tells a terminal of a call that is refused. Where nothing more is known, it is what the code means.
pub(crate) fn tell<T: Threads + Sync>(
    rt: &HostRuntime,
    threads: &T,
    call: Call<'_, '_>,
    ended: &Ended,
) -> io::Result<()> {
    let words = call.words;
    let (code, told) = match ended {
        Ended::QueryRefused { code, .. } if *code == BAD_PATTERN => {
            (*code, String::from_str(rt.alloc(), call.pattern)?)
        }
        Ended::QueryRefused { code, place } => {
            let byte = place.byte as usize;
            (
                *code,
                query_told(rt, threads, words, call.query, *code, byte)?,
            )
        }
        Ended::DataRefused {
            file,
            code,
            row,
            column,
        } => (*code, file_told(rt, words, *file, *code, *row, *column)?),
        Ended::Usage { code, word } => (*code, word_told(rt, words, *word, *code)?),
        _ => return Ok(()),
    };
    write_told(rt, code, told.as_str())
}

/// Tells a terminal of a file that is refused.
pub(crate) fn tell_file(rt: &HostRuntime, refused: RefusedFile<'_>) -> io::Result<()> {
    let told = sentences_of(rt, refused)?;
    write_told(rt, refused.code, told.as_str())
}

// Writes the sentences on a code, or what it means where there are none.
fn write_told(rt: &HostRuntime, code: u32, told: &str) -> io::Result<()> {
    if told.is_empty() {
        return caret::tell(rt, code);
    }
    eprintln!(rt; "{told}")?;
    eprintln!(rt; "More: kql help {code}")
}

// The sentence for a refused word, where there is one.
fn word_told(rt: &HostRuntime, words: &[String], word: u32, code: u32) -> io::Result<String> {
    let told = match words.get(word as usize) {
        Some(_) if code == 607 && has_part(words) => WITHOUT_RUN,
        Some(path) if code == 607 && path.as_str().ends_with(".kql") => SEVERAL_FILES,
        _ => "",
    };
    Ok(String::from_str(rt.alloc(), told)?)
}

// Whether a word is one of the shell's, in front of a query.
fn has_part(words: &[String]) -> bool {
    for word in words {
        if word.as_str() == "-e" || word.as_str() == "-q" {
            return true;
        }
    }
    false
}

// The text of a query: what is given, or that of its file; empty where it cannot be read again.
fn query_text(rt: &HostRuntime, words: &[String], query: Option<&str>) -> io::Result<String> {
    if let Some(text) = query {
        return Ok(String::from_str(rt.alloc(), text)?);
    }
    let path = match asked_in(words) {
        Some(asked) => words.get(asked.query),
        None => None,
    };
    match path.and_then(|path| caret::text_of(rt, path.as_str())) {
        Some(text) => Ok(text),
        None => Ok(String::new(rt.alloc())),
    }
}

// The sentences for a refused query.
fn query_told<T: Threads + Sync>(
    rt: &HostRuntime,
    threads: &T,
    words: &[String],
    query: Option<&str>,
    code: u32,
    byte: usize,
) -> io::Result<String> {
    let text = query_text(rt, words, query)?;
    if text.is_empty() || has_long_word(text.as_bytes(), byte) {
        return Ok(String::new(rt.alloc()));
    }
    let headers = headers_of(rt, words)?;
    let seen = columns_at(rt, threads, words, &headers, text.as_str(), code, byte)?;
    let mut columns: Vec<KnownColumn<'_>> = Vec::new(rt.alloc());
    for column in &seen {
        columns.push(column.known())?;
    }
    let mut tables: Vec<&str> = Vec::new(rt.alloc());
    for header in &headers {
        tables.push(header.name.as_str())?;
    }
    let refused = RefusedQuery {
        code,
        byte,
        text: text.as_str(),
        tables: tables.as_slice(),
        columns: columns.as_slice(),
    };
    Ok(query_message(rt.alloc(), &refused)?)
}

// Whether what stands at a place is long up to the next sign that ends a name.
fn has_long_word(text: &[u8], byte: usize) -> bool {
    let mut length = 0usize;
    for c in text.get(byte..).unwrap_or(&[]) {
        if matches!(
            *c,
            b'\n' | b'|' | b',' | b';' | b'(' | b')' | b'=' | b'<' | b'>' | b'!'
        ) {
            return false;
        }
        length = length.saturating_add(1);
        if length > WORD_TOP {
            return true;
        }
    }
    false
}

// The names of the files in the folder of a path.
fn files_beside(rt: &HostRuntime, path: &str) -> io::Result<Vec<String>> {
    let folder = match path.rsplit_once('/') {
        Some(("", _)) => "/",
        Some((folder, _)) => folder,
        None => ".",
    };
    let mut names = Vec::new(rt.alloc());
    let Ok(entries) = fs::read_dir(rt, folder) else {
        return Ok(names);
    };
    for entry in entries {
        if let Ok(entry) = entry {
            names.push(String::from_str(rt.alloc(), entry.file_name())?)?;
        }
    }
    names.sort()?;
    Ok(names)
}

// The sentences for a file: with the names of those beside it.
fn sentences_of(rt: &HostRuntime, refused: RefusedFile<'_>) -> io::Result<String> {
    let names = files_beside(rt, refused.path)?;
    let mut beside: Vec<&str> = Vec::new(rt.alloc());
    for name in &names {
        beside.push(name.as_str())?;
    }
    let refused = RefusedFile {
        beside: beside.as_slice(),
        ..refused
    };
    Ok(file_message(rt.alloc(), &refused)?)
}

// The word of a file: 0 is that of the query, and k that of the k-th table; behind the tables stands the catalogue, whose own files have no word.
fn word_of_file(words: &[String], asked: Asked, file: u32) -> Option<&String> {
    let at = asked.query.saturating_add(file as usize);
    if at == words.len() {
        return words.get(asked.options.catalogue?);
    }
    words.get(at)
}

// How many bytes the table files have, where all are plain files of words.
fn sizes_of(rt: &HostRuntime, words: &[String], asked: Asked) -> Option<Sizes> {
    if asked.options.catalogue.is_some() {
        return None;
    }
    let mut bytes = 0u64;
    for word in words {
        if let Some((_, path)) = table_parts(word.as_str()) {
            let about = fs::metadata(rt, path).ok()?;
            if !about.is_file() {
                return None;
            }
            bytes = bytes.saturating_add(about.len());
        }
    }
    Some(Sizes {
        bytes,
        limit: asked.options.limit,
    })
}

// The sentences for a refused file.
fn file_told(
    rt: &HostRuntime,
    words: &[String],
    file: u32,
    code: u32,
    row: u64,
    column: u64,
) -> io::Result<String> {
    let Some(asked) = asked_in(words) else {
        return Ok(String::new(rt.alloc()));
    };
    if code == 308 {
        if let Some(sizes) = sizes_of(rt, words, asked) {
            return Ok(sizes_message(rt.alloc(), sizes)?);
        }
    }
    let Some(word) = word_of_file(words, asked, file) else {
        return Ok(String::new(rt.alloc()));
    };
    let (table, path) = match table_parts(word.as_str()) {
        Some((name, path)) if file > 0 => (Some(name), path),
        _ => (None, word.as_str()),
    };
    let bytes = front_of(rt, path, asked.options.limit).unwrap_or(Vec::new(rt.alloc()));
    sentences_of(
        rt,
        RefusedFile {
            code,
            row,
            column,
            table,
            path,
            bytes: bytes.as_slice(),
            beside: &[],
        },
    )
}
