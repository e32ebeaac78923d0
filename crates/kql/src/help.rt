//! The answers of `kql help`, and of the other words that ask for help.

use kql_help::{nearest_topic, topic_text};

pub(crate) const USAGE: &str = "\
kql: answers queries of the Kusto Query Language over tables in CSV files.

    kql -e 'log | where ms > 100' log.csv       a query on the command line
    kql -q q.kql log.csv                        a query in a file
    kql show q.kql Log=log.csv                  the answer as a table to look at
    kql run q.kql Log=log.csv                   the answer as CSV, always
    kql schema log.csv                          the columns of a file
    kql types log.csv                           a header with types for it
    kql help where                              on an operator, a function or a code
    kql --help                                  all words
";

const HELP: &str = "\
kql: answers a query of the Kusto Query Language over tables in CSV files.

    kql -e QUERY .. [-q FILE ..] [--output FORM] [--all] FILE ..
    kql show [--output FORM] [--all] QUERY FILE ..
    kql schema [--output FORM] [--all] [--limit SIZE] FILE ..
    kql types [--limit SIZE] [--write] FILE
    kql run [OPTION ..] QUERY NAME=PATH ..
    kql plain [OPTION ..] QUERY NAME=PATH ..
    kql explain [OPTION ..] QUERY NAME=PATH ..
    kql trial ROWS SEED [--workers N]
    kql live [--readers R] [--now T] [--watch] [--view] QUERY NAME=PATH PATH ..

Behind -e stands a query, and behind -q its file; FILE is NAME=PATH or a path, whose
table has the file's name, and - is the standard input. FORM is csv, table, json or
jsonl. show answers as a table to look at, as -e does on a terminal. schema tells
the columns of files, and types proposes a header with types.

Behind run, QUERY is the path of a file with the query, and each NAME=PATH gives the
CSV file of a table. The answer is CSV on standard output. A query or file that is refused
is told in one line on standard error, with its place. plain answers as run, one
operator after another on one thread. explain prints the plan by which run
answers. trial answers five stored queries over a log of ROWS lines that SEED
makes up, with a line for each. live answers over a table that grows by the further
files while R readers ask, 2 where R is not given; --watch shows each answer that
differs from the one before; --view keeps the groups of one summarize for readers.

    --now T           the datetime that now() is, as 2024-03-01 or 2024-03-01T10:00
    --limit SIZE      how many bytes the files may have together, as 1GiB; else 64 MiB
    --catalogue FILE  a file of JSON that names tables, with their columns and files
    --types           the header of an answer as CSV has the types too; not of explain
    --workers N       how many workers share the work, 1 to 64; else a processor each, to 8
    kql --help        this text
    kql --version     the version
    kql help          the topics of help: each operator, function and refusal

Exit status: 0 the answer was written, 1 the query is refused, 2 a word of the
command is refused, 3 a file is refused, 4 a file could not be read, 5 the answer
could not be written, 6 there was no memory.
";

const VERSION: &str = "kql 0.1.0\n";

/// What the words ask to be told.
#[derive(Clone, Copy, Debug)]
pub(crate) enum Help {
    /// A text.
    Text(&'static str),
    /// The usage, since there is no word.
    Usage,
    /// There is no such topic; the nearest is told, where one is near.
    NoTopic(Option<&'static str>),
}

/// What is told of the program itself, if the words ask for it.
pub(crate) fn told<R: AllocGlobal>(rt: &R, words: &[String]) -> Option<Help> {
    let (first, rest) = words.split_first()?;
    match first.as_str() {
        "--help" | "-h" => Some(Help::Text(HELP)),
        "--version" => Some(Help::Text(VERSION)),
        "help" => Some(help_of(rt, rest)),
        command if asks_for_help(rest) => Some(help_on(command)),
        _ => None,
    }
}

// The answer to the words behind `help`: none, or a topic, of which the first word counts.
fn help_of<R: AllocGlobal>(rt: &R, words: &[String]) -> Help {
    let topic = match words {
        [] => "overview",
        [word, ..] => word.as_str(),
    };
    match topic_text(topic) {
        Some(text) => Help::Text(text),
        None => match nearest_topic(rt.alloc(), topic) {
            Ok(nearest) => Help::NoTopic(nearest),
            Err(_) => Help::NoTopic(None),
        },
    }
}

// Whether a word asks for help.
fn asks_for_help(words: &[String]) -> bool {
    for word in words {
        if word.as_str() == "--help" || word.as_str() == "-h" {
            return true;
        }
    }
    false
}

// The text of a command, or that of all.
fn help_on(command: &str) -> Help {
    match command {
        "run" | "plain" | "explain" | "trial" | "live" | "show" | "schema" | "types" => {
            match topic_text(command) {
                Some(text) => Help::Text(text),
                None => Help::Text(HELP),
            }
        }
        _ => Help::Text(HELP),
    }
}
