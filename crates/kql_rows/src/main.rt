//! Rows of expressions and queries, and what each is bound to, has as its value, or is answered.
//!
//! Each word names a file of rows, and the beginning of its name tells what the rows in it say: `expression_`, what an expression is bound to
//! (`expressions.rt`); `query_`, what a query is bound to (`queries.rt`); `value_`, the values of an expression (`values.rt`); `answer_`, what
//! the program answers (`answers.rt`). The rows are written by hand from the reference of the language. The output tells the rows that are
//! wrong, and of each file how many rows there are.
#![tactic(auto)]

mod answers;
mod counts;
mod expressions;
mod queries;
mod trees;
mod values;

use crate::counts::Counts;
use std::process::ExitCode;
use std::rt::Env;
use std::thread::Threads;
use std::{env, fs, io};

// Checks the rows of a file, by the beginning of its name.
fn checked<R: Print + AllocGlobal + Threads + Sync>(
    rt: &R,
    name: &str,
    text: &str,
) -> io::Result<Counts> {
    if name.starts_with("expression_") {
        expressions::check_all(rt, text)
    } else if name.starts_with("query_") {
        queries::check_all(rt, text)
    } else if name.starts_with("value_") {
        values::check_all(rt, text)
    } else {
        answers::check_all(rt, text)
    }
}

// The names of the files: the words behind the program's name.
fn names_of<R: Env + AllocGlobal>(rt: &R) -> io::Result<Vec<String>> {
    let mut names = Vec::new(rt.alloc());
    for name in env::args(rt)?.skip(1) {
        names.push(name)?;
    }
    Ok(names)
}

fn main(rt: HostRuntime) -> io::Result<ExitCode> {
    let names = names_of(&rt)?;
    for name in &names {
        let text = fs::read_to_string(&rt, name.as_str())?;
        let Counts { rows, wrong } = checked(&rt, name.as_str(), text.as_str())?;
        println!(&rt; "{name}: {rows} rows, {wrong} wrong")?;
    }
    Ok(ExitCode::SUCCESS)
}
