//! The lines that the shell itself writes, and the endings after them.

use crate::advice;
use crate::output::{tell_fault, watched};
use crate::shown::show_meaning;
use kql_help::topic_text;
use kql_messages::RefusedFile;
use kql_outside::{StreamSink, write_all};
use kql_program::{Ended, status};
use std::io;
use std::io::IsTerminal;
use std::process::ExitCode;

/// Refuses a word by its number, from 0, in the form of the top call's line.
pub(crate) fn refuse_word(rt: &HostRuntime, word: u32, code: u32) -> io::Result<ExitCode> {
    let name = title_of(rt, code)?;
    eprintln!(rt; "kql: word {word}: {name}")?;
    show_meaning(rt, code);
    Ok(ExitCode::from(status(&Ended::Usage { word, code })))
}

/// Refuses a file in the form of the top call's line: 0 is the query, and 1 the one table.
pub(crate) fn refuse_file(
    rt: &HostRuntime,
    file: u32,
    refused: RefusedFile<'_>,
) -> io::Result<ExitCode> {
    let RefusedFile {
        code,
        row,
        column,
        ..
    } = refused;
    let name = title_of(rt, code)?;
    eprintln!(rt; "kql: file {file}: {name} at {row}:{column}")?;
    if rt.stderr().is_terminal() {
        let _ = advice::tell_file(rt, refused);
    }
    Ok(ExitCode::from(status(&Ended::DataRefused {
        file,
        code,
        row,
        column,
    })))
}

// A code and its name, which are the first line of its text.
fn title_of(rt: &HostRuntime, code: u32) -> io::Result<&'static str> {
    let topic = format!(in rt.alloc(); "{code}")?;
    let Some(text) = topic_text(topic.as_str()) else {
        return Ok("");
    };
    match text.split('\n').next() {
        Some(line) => Ok(line),
        None => Ok(""),
    }
}

/// Tells that there is no memory.
pub(crate) fn no_memory(rt: &HostRuntime) -> io::Result<ExitCode> {
    rt.eprint("kql: out of memory\n")?;
    Ok(ExitCode::from(status(&Ended::OutOfMemory)))
}

/// Tells that a file could not be read.
pub(crate) fn read_fault(rt: &HostRuntime) -> io::Result<ExitCode> {
    rt.eprint("kql: read fault\n")?;
    Ok(ExitCode::from(status(&Ended::ReadFault)))
}

/// Tells that a file could not be written anew, and a terminal how it is written.
pub(crate) fn write_fault(rt: &HostRuntime, path: &str) -> io::Result<ExitCode> {
    rt.eprint("kql: write fault\n")?;
    if rt.stderr().is_terminal() {
        eprintln!(rt;
            "A plain file is written as {path}.new first, which must not be there before"
        )?;
    }
    Ok(ExitCode::from(status(&Ended::WriteFault)))
}

/// Tells that an answer has columns that only CSV can have: more than a file may, or one without a name.
pub(crate) fn csv_alone(rt: &HostRuntime) -> io::Result<ExitCode> {
    rt.eprint(
        "kql: an answer that no file of CSV can be read as is written by --output csv alone\n",
    )?;
    Ok(ExitCode::from(2))
}

/// Tells that no header is proposed, since the rows behind it would not be the same.
pub(crate) fn no_proposal(rt: &HostRuntime) -> io::Result<ExitCode> {
    rt.eprint("kql: file 1: no header can be told from the rows\n")?;
    Ok(ExitCode::from(3))
}

/// Writes a text to the output, and answers the status.
pub(crate) fn write_out(rt: &HostRuntime, text: &[u8]) -> ExitCode {
    let mut out = watched(rt);
    let mut sink = StreamSink::new(&mut out);
    let written = write_all(&mut sink, text);
    drop(sink);
    tell_fault(rt, &out);
    match written {
        Ok(()) => ExitCode::SUCCESS,
        Err(_) => ExitCode::from(status(&Ended::WriteFault)),
    }
}
