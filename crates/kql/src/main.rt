//! The program `kql`: the top call over the files and the streams of the system. Its words are those of the command.
#![tactic(auto)]

mod advice;
mod caret;
mod help;
mod output;
mod probe;
mod query;
mod refuse;
mod screen;
mod shell;
mod shown;
mod types;
mod under;

use help::{Help, USAGE, told};
use kql_live::{kql_live, live_status};
use kql_outside::{DirShelf, OpenGate, StreamSink};
use kql_program::{Ended, kql, status};
use kql_shell::Verb;
use output::{tell_cause, tell_fault, watched};
use pattern_ops::RegexMaker;
use shell::run_shell;
use shown::{Asked, pattern_told, show_more};
use std::io::{ErrorKind, IsTerminal};
use std::process::ExitCode;
use std::rt::Env;
use std::sync::Wait;
use std::thread::Threads;
use std::{env, io};
use types::run_types;

// The words behind the program's name.
fn words_of<R: Env + AllocGlobal>(rt: &R) -> io::Result<Vec<String>> {
    let mut words = Vec::new(rt.alloc());
    for word in env::args(rt)?.skip(1) {
        words.push(word)?;
    }
    Ok(words)
}

// Tells of the program, and answers the status.
fn tell(rt: &HostRuntime, help: Help) -> io::Result<ExitCode> {
    match help {
        Help::Text(text) => match rt.print(text) {
            Ok(()) => Ok(ExitCode::SUCCESS),
            Err(error) => {
                tell_cause(rt, error.kind());
                Ok(ExitCode::from(status(&Ended::WriteFault)))
            }
        },
        Help::Usage => {
            rt.print(USAGE)?;
            Ok(ExitCode::from(2))
        }
        Help::NoTopic(nearest) => {
            match nearest {
                Some(topic) => eprintln!(rt;
                    "kql: there is no help on that; is it kql help {topic}?"
                )?,
                None => eprintln!(rt; "kql: there is no help on that: kql help names the topics")?,
            }
            Ok(ExitCode::from(2))
        }
    }
}

// The status after words that could not be read.
fn wordless(rt: &HostRuntime, error: io::Error) -> io::Result<ExitCode> {
    if error.kind() == ErrorKind::OutOfMemory {
        rt.eprint("kql: out of memory\n")?;
        return Ok(ExitCode::from(status(&Ended::OutOfMemory)));
    }
    rt.eprint("kql: a word is not UTF-8\n")?;
    Ok(ExitCode::from(2))
}

// The command of the shell that the words are: `show`, `schema`, `types`, or no command and a query among options and files.
fn verb_of(words: &[String]) -> Option<Verb> {
    match words.first()?.as_str() {
        "show" => Some(Verb::Show),
        "schema" => Some(Verb::Schema),
        "types" => Some(Verb::Types),
        "run" | "plain" | "explain" | "trial" => None,
        _ if has_query(words) => Some(Verb::Answer),
        _ => None,
    }
}

// Whether a word gives a part of a query.
fn has_query(words: &[String]) -> bool {
    for word in words {
        if word.as_str() == "-e" || word.as_str() == "-q" {
            return true;
        }
    }
    false
}

// Answers the words by the top call.
fn run_top<T: Threads + Sync>(
    rt: &HostRuntime,
    threads: &T,
    words: &[String],
) -> io::Result<ExitCode> {
    let mut shelf = DirShelf::new(rt);
    let mut out = watched(rt);
    let mut sink = StreamSink::new(&mut out);
    let mut err = StreamSink::new(rt.stderr());
    let mut patterns = RegexMaker::new(rt.alloc());
    let ended = kql(
        threads,
        rt.alloc(),
        words,
        &mut shelf,
        &mut sink,
        &mut err,
        &OpenGate,
        &mut patterns,
    );
    drop(sink);
    tell_fault(rt, &out);
    let told = pattern_told(rt, &patterns);
    let pattern = told.as_str();
    let asked = Asked {
        words,
        query: None,
        pattern,
    };
    show_more(rt, threads, asked, &ended);
    Ok(ExitCode::from(status(&ended)))
}

// Answers the words of `live`, by a top call of their own.
fn run_live<T: Threads + Wait + Sync>(
    rt: &HostRuntime,
    threads: &T,
    words: &[String],
) -> io::Result<ExitCode> {
    let mut shelf = DirShelf::new(rt);
    let mut out = watched(rt);
    let mut sink = StreamSink::new(&mut out);
    let mut err = StreamSink::new(rt.stderr());
    let ended = kql_live(
        threads,
        rt.alloc(),
        words,
        &mut shelf,
        &mut sink,
        &mut err,
        &OpenGate,
    );
    drop(sink);
    tell_fault(rt, &out);
    Ok(ExitCode::from(live_status(&ended)))
}

// Whether the words are those of `live`.
fn is_live(words: &[String]) -> bool {
    match words.first() {
        Some(word) => word.as_str() == "live",
        None => false,
    }
}

fn main(rt: HostRuntime) -> io::Result<ExitCode> {
    let words = match words_of(&rt) {
        Ok(words) => words,
        Err(error) => return wordless(&rt, error),
    };
    if let Some(help) = told(&rt, &words) {
        return tell(&rt, help);
    }
    if words.is_empty() && rt.stdout().is_terminal() {
        return tell(&rt, Help::Usage);
    }
    if is_live(&words) {
        return run_live(&rt, &rt, &words);
    }
    match verb_of(&words) {
        Some(Verb::Types) => run_types(&rt, &words),
        Some(verb) => run_shell(&rt, &rt, verb, &words),
        None => run_top(&rt, &rt, &words),
    }
}
