//! What the program answers.
ghost use Rattle.std.specs.Prelude.{◌<◌};

use crate::answers::seat::{NamedText, Seat, words_in};
use kql_outside::{CleanShelf, CleanSink, OpenGate};
use kql_program::{Sizes, kql_in_pieces, status};
use pattern_ops::RegexMaker;
use std::alloc::{AllocError, Global};
use std::str;
use std::thread::Threads;

/// Room for a text that is written.
const ROOM: usize = 1_048_576;

/// Pieces of two rows.
const PAIRS: Sizes = Sizes { piece_rows: 2 };

fn file(alloc: Global, path: &str, text: &str) -> Result<(String, Vec<u8>), AllocError> {
    let path = String::from_str(alloc, path)?;
    let bytes = Vec::from_slice(alloc, text.as_bytes())?;
    Ok((path, bytes))
}

// The words of a query's command: this one, where the seat has no words, and behind it these options.
fn words_of(
    alloc: Global,
    seat: &Seat,
    command: &str,
    options: &str,
) -> Result<Vec<String>, AllocError> {
    let mut words = Vec::new(alloc);
    let first = match seat.words.first() {
        Some(word) => word.as_str(),
        None => command,
    };
    words.push(String::from_str(alloc, first)?)?;
    for option in options.split_whitespace() {
        words.push(String::from_str(alloc, option)?)?;
    }
    for word in seat.words.iter().skip(1) {
        words.push(String::from_str(alloc, word.as_str())?)?;
    }
    words.push(String::from_str(alloc, "q")?)?;
    for table in &seat.tables {
        let name = table.name.as_str();
        if !name.contains('.') {
            words.push(format!(in alloc; "{name}={name}")?)?;
        }
    }
    Ok(words)
}

// The files: that of the query, and those of the tables.
fn shelf_of(alloc: Global, query: &str, tables: &[NamedText]) -> Result<CleanShelf, AllocError> {
    let mut files = Vec::new(alloc);
    let query = query.replace(alloc, "⏎", "\n")?;
    files.push(file(alloc, "q", query.as_str())?)?;
    for table in tables {
        files.push(file(alloc, table.name.as_str(), table.text.as_str())?)?;
    }
    Ok(CleanShelf::new(files))
}

// A text that was written, without its last end of a line.
fn shown(alloc: Global, before: &str, bytes: &[u8]) -> Result<String, AllocError> {
    let text = str::from_utf8(bytes).unwrap_or("no text");
    let text = text.strip_suffix('\n').unwrap_or(text);
    let text = text.replace(alloc, "\n", "⏎")?;
    format!(in alloc; "{before}{}", text.as_str())
}

// What the program answers to words, in pieces of these sizes.
fn answer_to(
    rt: &(impl Threads + Sync),
    alloc: Global,
    words: &[String],
    shelf: &mut CleanShelf,
    sizes: Sizes,
) -> Result<String, AllocError>
    requires { 0 < sizes.piece_rows }
{
    let mut out = CleanSink::new(alloc, 4096, ROOM)?;
    let mut err = CleanSink::new(alloc, 4096, ROOM)?;
    let mut patterns = RegexMaker::new(alloc);
    let ended = kql_in_pieces(
        rt,
        alloc,
        words,
        shelf,
        &mut out,
        &mut err,
        &OpenGate,
        &mut patterns,
        sizes,
    );
    if status(&ended) == 0 {
        shown(alloc, "", out.bytes())
    } else {
        shown(alloc, "! ", err.bytes())
    }
}

/// What the program answers a query over the tables of the seat by a command, or to all words where they begin with `$ `: the text, or the line of
/// a refusal.
pub(crate) fn answer(
    rt: &(impl Threads + Sync),
    alloc: Global,
    seat: &Seat,
    command: &str,
    asked: &str,
) -> Result<String, AllocError> {
    if let Some(all) = asked.strip_prefix("$ ") {
        let words = words_in(alloc, all)?;
        let mut shelf = shelf_of(alloc, "print 1", &seat.tables)?;
        return answer_to(rt, alloc, &words, &mut shelf, Sizes::usual());
    }
    let words = words_of(alloc, seat, command, "")?;
    let mut shelf = shelf_of(alloc, asked, &seat.tables)?;
    answer_to(rt, alloc, &words, &mut shelf, Sizes::usual())
}

/// What the program answers a query by so many workers, who take two rows at a time, where that is otherwise than it answers it without
/// these options. A seat whose words tell how many workers there are keeps their number.
pub(crate) fn other_by_workers(
    rt: &(impl Threads + Sync),
    alloc: Global,
    seat: &Seat,
    options: &str,
    asked: &str,
    found: &str,
) -> Result<Option<String>, AllocError> {
    if asked.starts_with("$ ") {
        return Ok(None);
    }
    let options = if seat.tells_workers() { "" } else { options };
    let words = words_of(alloc, seat, "run", options)?;
    let mut shelf = shelf_of(alloc, asked, &seat.tables)?;
    let other = answer_to(rt, alloc, &words, &mut shelf, PAIRS)?;
    if other.as_str() == found {
        return Ok(None);
    }
    Ok(Some(other))
}

/// What `plain` answers a query, where that is otherwise than `run` answers it. A seat with words of its own names its command.
pub(crate) fn other_by_plain(
    rt: &(impl Threads + Sync),
    alloc: Global,
    seat: &Seat,
    asked: &str,
    found: &str,
) -> Result<Option<String>, AllocError> {
    if !seat.words.is_empty() || asked.starts_with("$ ") {
        return Ok(None);
    }
    let plain = answer(rt, alloc, seat, "plain", asked)?;
    if plain.as_str() == found {
        return Ok(None);
    }
    Ok(Some(plain))
}

/// What `explain` answers a query, where it is refused and `run` is not, or where it is refused otherwise or not at all. A seat with words of its
/// own names its command.
pub(crate) fn other_by_explain(
    rt: &(impl Threads + Sync),
    alloc: Global,
    seat: &Seat,
    asked: &str,
    found: &str,
) -> Result<Option<String>, AllocError> {
    if !seat.words.is_empty() || asked.starts_with("$ ") {
        return Ok(None);
    }
    let plan = answer(rt, alloc, seat, "explain", asked)?;
    let refused = found.starts_with("! ");
    if plan.as_str() == found || !refused && !plan.as_str().starts_with("! ") {
        return Ok(None);
    }
    Ok(Some(plan))
}
