//! Mistakes and what a terminal is told of them, checked by the functions that choose the sentences.
//!
//! A line of the input that begins with `#` is a heading, which forgets the tables so far. A line `NAME=TEXT` gives the table NAME its text of CSV, and
//! a line `> NAME, ..` the columns at the places of the rows that follow, where they are others than those of all tables. Every other line is a row of
//! three parts with tabs between. Of a query they are `CODE at LINE:COLUMN`, the query, and its sentences; of a file `file CODE at ROW:COLUMN`, a word
//! `NAME=PATH`, and the sentences, where the table NAME has what the file holds. With the code 0 they are the queries that have the columns of a place, one
//! behind another, and how many bytes the header of a file has. `⏎` stands for the end of a line, and `\xNN` for a byte of a file.
//! The output tells the rows that are answered otherwise, and how many there are.
#![tactic(auto)]

mod row;
mod seat;

use crate::row::{Asked, Row};
use crate::seat::Seat;
use std::io;
use std::process::ExitCode;

/// How many rows were checked, and how many were wrong.
#[derive(Clone, Copy, Drop)]
struct Counts {
    rows: u32,
    wrong: u32,
}

// Counts a row, and tells it where it is answered otherwise.
fn counted(rt: &HostRuntime, counts: Counts, seat: &Seat, row: &Row<'_>) -> io::Result<Counts> {
    let alloc = rt.alloc();
    let found = match row.asked {
        Asked::Query { code, line, column } => seat.query_told(
            alloc, code, line, column, row.text,
        )?,
        Asked::File {
            code,
            row: at,
            column,
        } => seat.file_told(alloc, code, at, column, row.text)?,
    };
    let found = found.replace(alloc, "\n", "⏎")?;
    let is_wrong = found.as_str() != row.told;
    if is_wrong {
        println!(rt;
            "{}\t{}\n  is told\n{}\n  and not\n{}",
            row.head,
            row.text,
            found.as_str(),
            row.told
        )?;
    }
    Ok(Counts {
        rows: counts.rows.saturating_add(1),
        wrong: counts.wrong.saturating_add(u32::from(is_wrong)),
    })
}

fn main(rt: HostRuntime) -> io::Result<ExitCode> {
    let mut counts = Counts { rows: 0, wrong: 0 };
    let mut seat = Seat::new(rt.alloc());
    for line in rt.lines(rt.alloc()) {
        let line = line?;
        let line = line.as_str();
        if line.starts_with('#') {
            seat = Seat::new(rt.alloc());
        } else if let Some(names) = line.strip_prefix("> ") {
            seat.set_columns(rt.alloc(), names)?;
        } else if let Some(row) = Row::read(line) {
            counts = counted(&rt, counts, &seat, &row)?;
        } else if let Some((name, text)) = line.split_once('=') {
            seat.add_table(rt.alloc(), name, text)?;
        } else {
            println!(rt; "no row: {line}")?;
        }
    }
    let Counts { rows, wrong } = counts;
    println!(rt; "{rows} rows, {wrong} wrong")?;
    Ok(ExitCode::SUCCESS)
}
