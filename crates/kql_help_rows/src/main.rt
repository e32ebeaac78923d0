//! What the documents tell of each operator, function, aggregate and code, looked for in the texts of `kql help`.
//!
//! A line of the input is a topic, a tab, a word, a tab, and what the topic's text has to hold: with the word `line` as one of its lines, with `part` in
//! one of its lines, and with `word` as a word between blanks, a sign of the end of a sentence behind it left out. Several blanks count as one. The lines
//! are made of the documents by `docs/help-rows`. The output tells what is missing, and how many topics and lines there are.
#![tactic(auto)]

mod row;

use crate::row::{Row, holds};
use kql_help::topic_text;
use std::io;
use std::process::ExitCode;

/// How many rows were looked for, and how many were not found.
#[derive(Clone, Copy, Drop)]
struct Counts {
    rows: u32,
    missing: u32,
}

// Counts a row, and tells it where the topic's text does not hold it.
fn counted(rt: &HostRuntime, counts: Counts, row: &Row) -> io::Result<Counts> {
    let topic = row.topic;
    let found = match topic_text(topic) {
        Some(text) => holds(rt.alloc(), text, row)?,
        None => false,
    };
    if !found {
        println!(rt; "help {topic} does not have {}", row.held)?;
    }
    Ok(Counts {
        rows: counts.rows.saturating_add(1),
        missing: counts.missing.saturating_add(u32::from(!found)),
    })
}

fn main(rt: HostRuntime) -> io::Result<ExitCode> {
    let mut counts = Counts {
        rows: 0,
        missing: 0,
    };
    let mut topics: Vec<String> = Vec::new(rt.alloc());
    for line in rt.lines(rt.alloc()) {
        let line = line?;
        if let Some(row) = Row::read(line.as_str()) {
            counts = counted(&rt, counts, &row)?;
            if !topics.iter().any(|topic| topic.as_str() == row.topic) {
                topics.push(String::from_str(rt.alloc(), row.topic)?)?;
            }
        } else {
            println!(rt; "no row: {line}")?;
        }
    }
    let Counts { rows, missing } = counts;
    println!(rt; "{} topics, {rows} rows, {missing} missing", topics.len())?;
    Ok(ExitCode::SUCCESS)
}
