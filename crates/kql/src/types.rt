//! The command `types`: a header with types for a file.

use crate::query::{Read, read_file};
use crate::refuse::{
    no_memory, no_proposal, read_fault, refuse_file, refuse_word, write_fault, write_out,
};
use crate::shell::{NO_PATH, origin_of};
use csv_io::DataFault;
use kql_messages::RefusedFile;
use kql_proposal::propose;
use kql_shell::{RunWords, Stop, Verb, read_request, run_words};
use kql_words::{Command, Refusal, read_command, table_parts};
use std::fs::Permissions;
use std::io::ErrorKind;
use std::process::ExitCode;
use std::{fs, io};

/// Answers the words of `types`.
pub(crate) fn run_types(rt: &HostRuntime, words: &[String]) -> io::Result<ExitCode> {
    let request = match read_request(rt.alloc(), Verb::Types, words) {
        Ok(request) => request,
        Err(Stop::Refused(Refusal::Usage { word, code })) => return refuse_word(rt, word, code),
        Err(_) => return no_memory(rt),
    };
    let Ok(made) = run_words(rt.alloc(), words, &request, NO_PATH) else {
        return no_memory(rt);
    };
    match read_command(&made.words) {
        Ok(Command::Run(asked)) => { propose_types(rt, &made, asked.options.limit, request.writes) }
        Err(Refusal::Usage { word, code }) => {
            refuse_word(rt, origin_of(&made, word, words.len()), code)
        }
        _ => no_memory(rt),
    }
}

// Proposes types for the file of the last of these words, which may have so many bytes.
fn propose_types(
    rt: &HostRuntime,
    made: &RunWords,
    limit: u64,
    writes: bool,
) -> io::Result<ExitCode> {
    let word = match made.words.last() {
        Some(word) => word.as_str(),
        None => "",
    };
    let (name, path) = match table_parts(word) {
        Some(parts) => parts,
        None => ("T", word),
    };
    let file = File { name, path };
    let most = usize::try_from(limit).unwrap_or(usize::MAX);
    match read_file(rt, path, most) {
        Read::Bytes(bytes) => {
            if bytes.len() > most {
                return refuse_file(rt, 1, file.refused(308, 0, 0, &[]));
            }
            write_types(rt, file, bytes.as_slice(), writes)
        }
        Read::Missing => refuse_file(rt, 1, file.refused(307, 0, 0, &[])),
        Read::Fault => read_fault(rt),
        Read::OutOfMemory => no_memory(rt),
    }
}

// The file, and the name that a table of it has.
#[derive(Clone, Copy)]
struct File<'a> {
    name: &'a str,
    path: &'a str,
}

impl<'a> File<'a> {
    // The refusal of the file.
    fn refused(self, code: u32, row: u64, column: u64, bytes: &'a [u8]) -> RefusedFile<'a> {
        let table = Some(self.name);
        RefusedFile {
            code,
            row,
            column,
            table,
            path: self.path,
            bytes,
            beside: &[],
        }
    }
}

// Writes the header with types of a file's bytes to the output, or the file with it to its place.
fn write_types(
    rt: &HostRuntime,
    file: File<'_>,
    bytes: &[u8],
    writes: bool,
) -> io::Result<ExitCode> {
    match propose(rt.alloc(), bytes) {
        Ok(Some(proposal)) => {
            if writes && replace(rt, file.path, proposal.text.as_slice()).is_err() {
                return write_fault(rt, file.path);
            }
            Ok(write_out(rt, proposal.header.as_slice()))
        }
        Ok(None) => no_proposal(rt),
        Err(DataFault::Refused { code, row, column }) => {
            refuse_file(rt, 1, file.refused(code, row, column, bytes))
        }
        Err(DataFault::OutOfMemory) => no_memory(rt),
    }
}

// Writes a plain file anew: beside it first, and then in its place, so that it is whole at each moment.
fn replace(rt: &HostRuntime, path: &str, bytes: &[u8]) -> io::Result<()> {
    let about = fs::symlink_metadata(rt, path)?;
    let beside = format!(in rt.alloc(); "{path}.new")?;
    if !about.is_file() || fs::exists(rt, beside.as_str())? {
        return Err(io::Error::from(ErrorKind::AlreadyExists));
    }
    let moved = move_over(rt, beside.as_str(), path, bytes, about.permissions());
    if moved.is_err() {
        let _ = fs::remove_file(rt, beside.as_str());
    }
    moved
}

// Writes a file and gives it the place of another.
fn move_over(
    rt: &HostRuntime,
    from: &str,
    to: &str,
    bytes: &[u8],
    permissions: Permissions,
) -> io::Result<()> {
    fs::write(rt, from, bytes)?;
    fs::set_permissions(rt, from, permissions)?;
    fs::rename(rt, from, to)
}
