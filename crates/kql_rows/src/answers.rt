//! Queries over tables and what the program answers, checked by the top call.
//!
//! A line that begins with `#` is a heading, which tells what the lines under it show and forgets the tables so far. A line `NAME=TEXT` gives the
//! table NAME its text of CSV, or where there is a `.` in NAME the file of that path its text, and a line `> WORDS` the words in front of the query's, which are `run` where there is no such line. Every other
//! line is a row: a query, a tab, and the text that it is answered, or `! ` and the line of its refusal; where there is no `> `, `plain` must
//! answer the same, and `explain` must be refused alike or not at all. One worker and three, who take two rows at a time, must answer as
//! `run` does, or as the words say. What stands behind a second tab is a row of its own: the text that
//! `explain` prints of the query. `⏎` stands for the end of a line, and none stands at the end of a text. A row that begins with `$ ` has all
//! words of the command in place of a query, where the file `q` has the query `print 1`.

mod asked;
mod seat;

use crate::answers::asked::{answer, other_by_explain, other_by_plain, other_by_workers};
use crate::answers::seat::Seat;
use crate::counts::{Counts, tell, tell_no_row};
use std::io;
use std::thread::Threads;

// Counts a row, and tells it where it is answered otherwise.
fn counted<R: Print>(
    rt: &R,
    counts: Counts,
    asked: &str,
    found: &str,
    wanted: &str,
) -> io::Result<Counts> {
    let is_wrong = found != wanted;
    if is_wrong {
        tell(rt, asked, found, wanted)?;
    }
    Ok(counts.with_row(is_wrong))
}

// Tells what a command answers otherwise than it should, and counts it.
fn told<R: Print>(
    rt: &R,
    counts: Counts,
    asked: &str,
    command: &str,
    other: Option<String>,
) -> io::Result<Counts> {
    let Some(other) = other else {
        return Ok(counts);
    };
    let other = other.as_str();
    println!(rt; "{asked}: by {command} {other}")?;
    Ok(counts.with_wrong())
}

// Checks that one worker and three answer as is found.
fn by_workers<R: Print + AllocGlobal + Threads + Sync>(
    rt: &R,
    counts: Counts,
    seat: &Seat,
    asked: &str,
    found: &str,
) -> io::Result<Counts> {
    let other = other_by_workers(rt, rt.alloc(), seat, "--workers 1", asked, found)?;
    let counts = told(rt, counts, asked, "one worker", other)?;
    let other = other_by_workers(rt, rt.alloc(), seat, "--workers 3", asked, found)?;
    told(rt, counts, asked, "three workers", other)
}

// Checks a row: a query, what it is answered, and the text of its plan where that is told.
fn checked<R: Print + AllocGlobal + Threads + Sync>(
    rt: &R,
    counts: Counts,
    seat: &Seat,
    asked: &str,
    wanted: &str,
) -> io::Result<Counts> {
    let (wanted, plan) = match wanted.split_once('\t') {
        Some((wanted, plan)) => (wanted, Some(plan)),
        None => (wanted, None),
    };
    let found = answer(rt, rt.alloc(), seat, "run", asked)?;
    let counts = counted(rt, counts, asked, found.as_str(), wanted)?;
    let other = other_by_plain(rt, rt.alloc(), seat, asked, found.as_str())?;
    let counts = told(rt, counts, asked, "plain", other)?;
    let other = other_by_explain(rt, rt.alloc(), seat, asked, found.as_str())?;
    let counts = told(rt, counts, asked, "explain", other)?;
    let counts = by_workers(rt, counts, seat, asked, found.as_str())?;
    let Some(plan) = plan else {
        return Ok(counts);
    };
    let found = answer(rt, rt.alloc(), seat, "explain", asked)?;
    counted(rt, counts, asked, found.as_str(), plan)
}

/// Checks the rows of a text.
pub(crate) fn check_all<R: Print + AllocGlobal + Threads + Sync>(
    rt: &R,
    text: &str,
) -> io::Result<Counts> {
    let mut seat = Seat::new(rt.alloc());
    let mut counts = Counts::new();
    for line in text.lines() {
        if line.starts_with('#') {
            seat = Seat::new(rt.alloc());
        } else if let Some(words) = line.strip_prefix("> ") {
            seat.set_words(rt.alloc(), words)?;
        } else if let Some((asked, wanted)) = line.split_once('\t') {
            counts = checked(rt, counts, &seat, asked, wanted)?;
        } else if let Some((name, text)) = line.split_once('=') {
            seat.add_table(rt.alloc(), name, text)?;
        } else {
            tell_no_row(rt, line)?;
        }
    }
    Ok(counts)
}
