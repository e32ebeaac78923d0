//! What a terminal is shown of a refusal beside its line.

use crate::advice::{self, asked_in};
use crate::{caret, under};
use kql_lexer::Place;
use kql_program::Ended;
use pattern_ops::RegexMaker;
use std::io;
use std::io::IsTerminal;
use std::thread::Threads;

/// What is known of a refused call: its words, the text of its query where that stands in no file, and what is wrong with a pattern that is refused.
#[derive(Clone, Copy)]
pub(crate) struct Asked<'a, 'p> {
    pub words: &'a [String],
    pub query: Option<&'a str>,
    pub pattern: &'p str,
}

/// What is wrong with the last pattern that a maker refused, where there is one.
pub(crate) fn pattern_told(rt: &HostRuntime, patterns: &RegexMaker) -> String {
    match patterns.last_error() {
        Some(error) => match format!(in rt.alloc(); "{error}") {
            Ok(text) => text,
            Err(_) => String::new(rt.alloc()),
        },
        None => String::new(rt.alloc()),
    }
}

/// Shows a terminal more of a call that ended, behind what it wrote: of a refusal more than its line, and of an answer what its files have that may
/// surprise. What cannot be shown is left out.
pub(crate) fn show_more<T: Threads + Sync>(
    rt: &HostRuntime,
    threads: &T,
    asked: Asked<'_, '_>,
    ended: &Ended,
) {
    if rt.stderr().is_terminal() {
        let _ = told(rt, threads, asked, ended);
    }
}

/// Shows a terminal what a code means.
pub(crate) fn show_meaning(rt: &HostRuntime, code: u32) {
    if rt.stderr().is_terminal() {
        let _ = caret::tell(rt, code);
    }
}

// Tells more of a call: of a refusal its place in the query, and sentences.
fn told<T: Threads + Sync>(
    rt: &HostRuntime,
    threads: &T,
    asked: Asked<'_, '_>,
    ended: &Ended,
) -> io::Result<()> {
    match ended {
        // Lines under an answer are told here.
        Ended::Table { plan, .. } => return under::tell(
            rt,
            asked.words,
            plan.get().tables.schemas(),
        ),
        Ended::PlainTable => return Ok(()),
        Ended::QueryRefused { place, .. } => show_place(rt, asked, *place)?,
        _ => {}
    }
    advice::tell(rt, threads, asked, ended)
}

// Shows a place of the query.
fn show_place(rt: &HostRuntime, asked: Asked<'_, '_>, place: Place) -> io::Result<()> {
    if let Some(text) = asked.query {
        return caret::show_line(rt, text, place.line, place.column);
    }
    match query_path(asked.words) {
        Some(path) => caret::show(rt, path, place.line, place.column),
        None => Ok(()),
    }
}

// The path of the query's file, where the words have one.
fn query_path(words: &[String]) -> Option<&str> {
    let asked = asked_in(words)?;
    Some(words.get(asked.query)?.as_str())
}
