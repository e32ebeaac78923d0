//! The commands around the top call: a query of the command line, `show` and `schema`.

use crate::output::{tell_fault, watched};
use crate::query::{Query, path_of, query_of, word_at};
use crate::refuse::{csv_alone, no_memory, read_fault, refuse_file, refuse_word, write_out};
use crate::screen::look;
use crate::shown::{Asked, pattern_told, show_more};
use csv_io::{DataFault, load};
use kql_bound::Program;
use kql_cells::{Bytes, CellRef, NamedSchema};
use kql_messages::RefusedFile;
use kql_outside::{DirShelf, OpenGate, Sink, StreamSink};
use kql_overlay::{KeptSink, Overlay};
use kql_program::{Ended, kql, status};
use kql_proposal::schema_table;
use kql_shell::{Form, Request, RunWords, Stop, Verb, read_request, run_words};
use kql_values::Table;
use kql_views::{json_lines, json_text, table_view};
use kql_words::{Refusal, read_command, table_parts};
use pattern_ops::RegexMaker;
use std::alloc::AllocError;
use std::io;
use std::io::IsTerminal;
use std::process::ExitCode;
use std::thread::Threads;

/// The path of a query that stands in no file. No table has it, since a table's path is not empty.
pub(crate) const NO_PATH: &str = "";

// A call of the top call, as the shell makes it: its words, and the text of its query.
#[derive(Drop)]
struct Call {
    made: RunWords,
    text: Vec<u8>,
}

/// Answers the words of a command of the shell.
pub(crate) fn run_shell<T: Threads + Sync>(
    rt: &HostRuntime,
    threads: &T,
    verb: Verb,
    words: &[String],
) -> io::Result<ExitCode> {
    match read_request(rt.alloc(), verb, words) {
        Ok(request) => match verb {
            Verb::Schema => run_schema(rt, threads, words, request),
            _ => run_query(rt, threads, verb, words, request),
        },
        Err(stop) => stopped(rt, stop),
    }
}

// Answers a query.
fn run_query<T: Threads + Sync>(
    rt: &HostRuntime,
    threads: &T,
    verb: Verb,
    words: &[String],
    mut request: Request,
) -> io::Result<ExitCode> {
    let form = form_of(rt, verb, request.form);
    if form != Form::Csv {
        // With types in its header the text is loaded as the table that it is.
        request.types = Some(0);
    }
    let text = match query_of(rt, words, &request) {
        Ok(Query::Text(text)) => text,
        Ok(Query::Missing(number)) => return no_part(rt, path_of(word_at(words, number))),
        Ok(Query::Fault) => return read_fault(rt),
        Err(_) => return no_memory(rt),
    };
    match call_of(rt, words, &request, text) {
        Ok(call) => answer(rt, threads, &call, form, request.shows_all),
        Err(stop) => stopped(rt, stop),
    }
}

// A part of the query is missing.
fn no_part(rt: &HostRuntime, path: &str) -> io::Result<ExitCode> {
    refuse_file(rt, 0, missing(path, None))
}

fn missing<'a>(path: &'a str, table: Option<&'a str>) -> RefusedFile<'a> {
    RefusedFile {
        code: 307,
        row: 0,
        column: 0,
        table,
        path,
        bytes: &[],
        beside: &[],
    }
}

// The call for a request that these words are, or their first fault.
fn call_of(
    rt: &HostRuntime,
    words: &[String],
    request: &Request,
    text: Vec<u8>,
) -> Result<Call, Stop> {
    let Ok(made) = run_words(rt.alloc(), words, request, NO_PATH) else {
        return Err(Stop::OutOfMemory);
    };
    match read_command(&made.words) {
        Err(Refusal::Usage { word, code }) => Err(Stop::Refused(Refusal::Usage {
            word: origin_of(&made, word, words.len()),
            code,
        })),
        _ => Ok(Call { made, text }),
    }
}

// Ends a call whose words cannot be read.
fn stopped(rt: &HostRuntime, stop: Stop) -> io::Result<ExitCode> {
    match stop {
        Stop::Refused(Refusal::Usage { word, code }) => refuse_word(rt, word, code),
        _ => no_memory(rt),
    }
}

/// The number of the word from which a word of `run` comes; what is missing is missing behind the last.
pub(crate) fn origin_of(made: &RunWords, word: u32, count: usize) -> u32 {
    let number = match made.origins.get(word as usize) {
        Some(number) => *number,
        None => count,
    };
    u32::try_from(number).unwrap_or(u32::MAX)
}

// The form of the answer: that which is asked for, and else a table to look at where one is looked at.
fn form_of(rt: &HostRuntime, verb: Verb, asked: Option<Form>) -> Form {
    match asked {
        Some(form) => form,
        None if verb != Verb::Answer || rt.stdout().is_terminal() => Form::Table,
        None => Form::Csv,
    }
}

// Answers a call in a form, and tells a terminal what stands under the answer.
fn answer<T: Threads + Sync>(
    rt: &HostRuntime,
    threads: &T,
    call: &Call,
    form: Form,
    shows_all: bool,
) -> io::Result<ExitCode> {
    let mut patterns = RegexMaker::new(rt.alloc());
    if form == Form::Csv {
        let mut out = watched(rt);
        let mut sink = StreamSink::new(&mut out);
        let ended = run_call(rt, threads, call, &mut sink, &mut patterns);
        drop(sink);
        tell_fault(rt, &out);
        show_call(rt, threads, call, &patterns, &ended);
        return Ok(ExitCode::from(status(&ended)));
    }
    let mut out = KeptSink::new(rt.alloc());
    let ended = run_call(rt, threads, call, &mut out, &mut patterns);
    if out.has_failed() {
        return no_memory(rt);
    }
    let code = match &ended {
        Ended::Table { .. } => write_form(rt, out.bytes(), form, shows_all),
        _ => Ok(ExitCode::from(status(&ended))),
    };
    show_call(rt, threads, call, &patterns, &ended);
    code
}

// Writes an answer's text with types in a form.
fn write_form(rt: &HostRuntime, text: &[u8], form: Form, shows_all: bool) -> io::Result<ExitCode> {
    match load(rt.alloc(), text) {
        Ok(table) => write_table(rt, &table, form, shows_all),
        Err(DataFault::Refused { .. }) => csv_alone(rt),
        Err(DataFault::OutOfMemory) => no_memory(rt),
    }
}

// Makes a call of the top call.
fn run_call<T: Threads + Sync, O: Sink>(
    rt: &HostRuntime,
    threads: &T,
    call: &Call,
    out: &mut O,
    patterns: &mut RegexMaker,
) -> Ended {
    let Ok(files) = files_of(rt, call) else {
        let _ = no_memory(rt);
        return Ended::OutOfMemory;
    };
    let mut shelf = Overlay::new(files, DirShelf::new(rt));
    let mut err = StreamSink::new(rt.stderr());
    kql(
        threads,
        rt.alloc(),
        &call.made.words,
        &mut shelf,
        out,
        &mut err,
        &OpenGate,
        patterns,
    )
}

// Shows a terminal more of a refusal of a call, or of its answer.
fn show_call<T: Threads + Sync>(
    rt: &HostRuntime,
    threads: &T,
    call: &Call,
    patterns: &RegexMaker,
    ended: &Ended,
) {
    let Ok(text) = String::from_utf8_lossy(rt.alloc(), call.text.as_slice()) else {
        return;
    };
    let pattern = pattern_told(rt, patterns);
    show_asked(
        rt,
        threads,
        call.made.words.as_slice(),
        text.as_str(),
        pattern.as_str(),
        ended,
    );
}

fn show_asked<'a, T: Threads + Sync>(
    rt: &HostRuntime,
    threads: &T,
    words: &'a [String],
    text: &'a str,
    pattern: &'a str,
    ended: &Ended,
) {
    let query = Some(text);
    let asked = Asked {
        words,
        query,
        pattern,
    };
    show_more(rt, threads, asked, ended);
}

// The files in memory that a call finds: the text of its query.
fn files_of(rt: &HostRuntime, call: &Call) -> Result<Vec<(String, Vec<u8>)>, AllocError> {
    let mut files = Vec::new(rt.alloc());
    let path = String::from_str(rt.alloc(), NO_PATH)?;
    let bytes = Vec::from_slice(rt.alloc(), call.text.as_slice())?;
    files.push((path, bytes))?;
    Ok(files)
}

// Writes a table in a form.
fn write_table(
    rt: &HostRuntime,
    table: &Table,
    form: Form,
    shows_all: bool,
) -> io::Result<ExitCode> {
    match text_of(rt, table, form, shows_all) {
        Ok(text) => Ok(write_out(rt, text.as_slice())),
        Err(_) => no_memory(rt),
    }
}

// The text of a table in a form.
fn text_of(
    rt: &HostRuntime,
    table: &Table,
    form: Form,
    shows_all: bool,
) -> Result<Bytes, AllocError> {
    match form {
        Form::Csv => csv_io::table_text(rt.alloc(), table),
        Form::Table => {
            let text = table_view(rt.alloc(), table, look(rt, shows_all))?;
            let bytes = Vec::from_slice(rt.alloc(), text.as_bytes())?;
            Ok(Bytes::from_vec(bytes))
        }
        Form::Json => json_text(rt.alloc(), table),
        Form::JsonLines => json_lines(rt.alloc(), table),
    }
}

// Tells the columns of tables, and how many rows they have: by a query that counts them.
fn run_schema<T: Threads + Sync>(
    rt: &HostRuntime,
    threads: &T,
    words: &[String],
    mut request: Request,
) -> io::Result<ExitCode> {
    let form = form_of(rt, Verb::Answer, request.form);
    request.types = Some(0);
    let mut call = match call_of(rt, words, &request, Vec::new(rt.alloc())) {
        Ok(call) => call,
        Err(stop) => return stopped(rt, stop),
    };
    match counting_query(rt, &call.made.words) {
        Ok(text) => call.text = text,
        Err(_) => return no_memory(rt),
    }
    let mut out = KeptSink::new(rt.alloc());
    let mut patterns = RegexMaker::new(rt.alloc());
    let ended = run_call(rt, threads, &call, &mut out, &mut patterns);
    if out.has_failed() {
        return no_memory(rt);
    }
    let code = match &ended {
        Ended::Table { plan, .. } => match listing(rt, plan.get(), &call.made.words, out.bytes()) {
            Ok(table) => write_table(rt, &table, form, request.shows_all),
            Err(_) => no_memory(rt),
        },
        _ => Ok(ExitCode::from(status(&ended))),
    };
    show_call(rt, threads, &call, &patterns, &ended);
    code
}

// The query that counts the rows of each table that these words name.
fn counting_query(rt: &HostRuntime, words: &[String]) -> Result<Vec<u8>, AllocError> {
    let mut text = Vec::new(rt.alloc());
    for word in words {
        if let Some((name, _path)) = table_parts(word.as_str()) {
            if text.is_empty() {
                text.extend_from_slice(name.as_bytes())?;
                text.extend_from_slice(b" | count")?;
            } else {
                text.extend_from_slice(b" | union (")?;
                text.extend_from_slice(name.as_bytes())?;
                text.extend_from_slice(b" | count)")?;
            }
        }
    }
    Ok(text)
}

// The listing of the tables of a plan, in the order of the words, with the counts that its answer has.
fn listing(
    rt: &HostRuntime,
    plan: &Program,
    words: &[String],
    text: &[u8],
) -> Result<Table, AllocError> {
    let counts = counts_of(rt, text)?;
    let mut tables = Vec::new(rt.alloc());
    for word in words {
        if let Some((name, _path)) = table_parts(word.as_str()) {
            if let Some(named) = table_named(plan.tables.schemas(), name) {
                tables.push(copy_named(rt, named)?)?;
            }
        }
    }
    schema_table(rt.alloc(), tables.as_slice(), counts.as_slice())
}

// The table of a name.
fn table_named<'a>(tables: &'a [NamedSchema], name: &str) -> Option<&'a NamedSchema> {
    for named in tables {
        if named.name.as_str() == name {
            return Some(named);
        }
    }
    None
}

fn copy_named(rt: &HostRuntime, named: &NamedSchema) -> Result<NamedSchema, AllocError> {
    Ok(NamedSchema {
        name: named.name.copy(rt.alloc())?,
        schema: named.schema.copy(rt.alloc())?,
    })
}

// The counts that an answer has in its first column; none of an answer that does not load.
fn counts_of(rt: &HostRuntime, text: &[u8]) -> Result<Vec<i64>, AllocError> {
    let mut counts = Vec::new(rt.alloc());
    let table = match load(rt.alloc(), text) {
        Ok(table) => table,
        Err(DataFault::Refused { .. }) => return Ok(counts),
        Err(DataFault::OutOfMemory) => return Err(AllocError),
    };
    if table.schema().len() == 0 {
        return Ok(counts);
    }
    for i in 0..table.len() {
        if let CellRef::Long(count) = table.cell(i, 0) {
            counts.push(count)?;
        }
    }
    Ok(counts)
}
