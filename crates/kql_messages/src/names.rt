//! Names that there are not: of columns, functions and tables.

ghost use Rattle.std.specs.Prelude.{◌≡◌, IfOk, IfSome, IfNone, map};
ghost use Rattle.kql_near.specs.Nearest.{texts, IsNearest, NoneIsNear};

use crate::kinds::{kind_named, word_of};
use crate::mistakes::{call_told, opening_told, word_told};
use crate::pieces::Sort;
use crate::query::KnownColumn;
use crate::seen::Seen;
use crate::sentence::{Advice, Sentence, Word};
use crate::words::{COMPARISONS, front, one_of};
use kql_cells::Kind;
use kql_functions::{Found, aggregates, find, functions, windows};
use kql_near::nearest_name;
use std::alloc::{AllocError, Global};
use std::fmt::Write;

// How many names are listed.
const LISTED: usize = 16;

// How many first characters names have in common that are listed.
const ALIKE: usize = 3;

// Adds a name to a list whose line begins with a text, of which it is the one at a place, from 0.
fn write_listed(begins: &str, at: usize, name: &str, out: &mut String) -> Result<(), AllocError> {
    if at >= LISTED {
        return Ok(());
    }
    if at > 0 {
        out.push_str(", ")?;
    } else {
        if !out.is_empty() {
            out.push('\n')?;
        }
        write!(out, "{begins} ")?;
    }
    Word::Text(name).write(out)
}

// Adds how many names of a list are not told.
fn write_more(count: usize, out: &mut String) -> Result<(), AllocError> {
    if count <= LISTED {
        return Ok(());
    }
    write!(out, ", and {} more", count - LISTED)
}

/// Adds the columns that there are.
pub(crate) fn write_columns(
    columns: &[KnownColumn<'_>],
    out: &mut String,
) -> Result<(), AllocError> {
    for at in 0..columns.len() {
        write_listed("The columns here are", at, columns[at].name, out)?;
    }
    write_more(columns.len(), out)
}

/// Adds the tables that there are.
pub(crate) fn write_tables(tables: &[&str], out: &mut String) -> Result<(), AllocError> {
    for at in 0..tables.len() {
        write_listed("The tables of the command are", at, tables[at], out)?;
    }
    write_more(tables.len(), out)
}

// A name whose type in the header is not read as one.
fn type_in_name<'a>(seen: &Seen<'a>, name: &'a str) -> Option<Sentence<'a>> {
    for column in seen.refused.columns {
        if let Some((front, word)) = column.name.rsplit_once(':') {
            if front == name {
                return Some(match kind_named(word) {
                    Some(kind) => Sentence::with_three(
                        "The header has {}, all of which is the name: write the type in lower case, {}:{}",
                        column.name,
                        name,
                        word_of(kind),
                    ),
                    None => Sentence::with(
                        "The header has {}, all of which is the name: the types are bool, long, string, datetime, timespan and dynamic",
                        column.name,
                    ),
                });
            }
        }
    }
    None
}

// A table where a value stands.
fn table_as_value<'a>(seen: &Seen<'a>, name: &'a str) -> Option<Sentence<'a>> {
    if !seen.is_table(name) {
        return None;
    }
    if seen.after(1).text == "." {
        return Some(Sentence::with_two(
            "{} is a table, and a column is named without it: {}",
            name,
            seen.after(2).text,
        ));
    }
    let compared = seen.listed_for()?;
    Some(Sentence::with_three(
        "{} is a table, and in takes values: keep the rows that match it by | join kind=leftsemi ({}) on {}",
        name,
        name,
        compared.text,
    ))
}

// A bare word beside a sign that compares texts, or in the list of an `in`.
fn bare_word<'a>(seen: &Seen<'a>, name: &'a str) -> Option<Sentence<'a>> {
    let compared = match seen.listed_for() {
        Some(piece) => piece,
        None if one_of(COMPARISONS, seen.before(1).text).is_some() => seen.before(2),
        None => return None,
    };
    if compared.sort != Sort::Word || seen.is_table(name) {
        return None;
    }
    match seen.kind_of_column(compared.text) {
        None | Some(Kind::Text) => Some(Sentence::with("A text stands in quotes: \"{}\"", name)),
        _ => None,
    }
}

// Words that stand for a value, or turn one round, in other languages too.
const VALUES: &[&str] = &["null", "none", "nil", "not"];

// A word of a language where a column stands.
fn known_word<'a>(name: &'a str) -> Option<Sentence<'a>> {
    if one_of(VALUES, name).is_some() {
        return Some(Sentence::plain(word_told(name)?));
    }
    let word = one_of(&["true", "false"], name)?;
    Some(Sentence::with("Words of the language are in lower case: {}", word))
}

// A function without its brackets, where one may stand.
fn function_name<'a>(seen: &Seen<'a>, name: &'a str) -> Option<Sentence<'a>> {
    let takes_rows = seen.opening().text == "summarize" || seen.opening().text == "make-series";
    match find(name) {
        Found::Aggregate(_) if !takes_rows => None,
        Found::Scalar(_) | Found::Window(_) | Found::Aggregate(_) => {
            Some(Sentence::with_two(
                "{} is a function, which is called with brackets: {}()",
                name,
                name,
            ))
        }
        _ => None,
    }
}

// The names of some columns.
fn column_names<'a>(alloc: Global, columns: &[KnownColumn<'a>]) -> Result<Vec<&'a str>, AllocError>
    ensures { IfOk result (λ names. texts names.items ≡ map (λ c. c.name.now) columns.now) }
{
    let mut names: Vec<&'a str> = Vec::new(alloc);
    let mut left = columns;
    while let [column, others @ ..] = left {
        names.push(column.name)?;
        left = others;
    }
    Ok(names)
}

// The column that is nearest to a name.
fn nearest_column<'a>(
    alloc: Global,
    name: &str,
    columns: &[KnownColumn<'a>],
) -> Result<Option<&'a str>, AllocError>
    ensures near { IfOk result (λ found. IfSome found (λ other. IsNearest name.now (map (λ c. c.name.now) columns.now) other.now)) }
    ensures none { IfOk result (λ found. IfNone found (NoneIsNear name.now (map (λ c. c.name.now) columns.now))) }
{
    let names = column_names(alloc, columns)?;
    nearest_name(alloc, name, &names)
}

// The name of a `let` before the place that is nearest to a name.
fn nearest_let<'a>(
    alloc: Global,
    seen: &Seen<'a>,
    name: &str,
) -> Result<Option<&'a str>, AllocError> {
    let names = seen.lets(alloc)?;
    nearest_name(alloc, name, &names)
}

/// A column that there is not: 401.
pub(crate) fn unknown_column<'a>(alloc: Global, seen: &Seen<'a>) -> Result<Advice<'a>, AllocError> {
    let name = seen.name();
    let near = match nearest_column(alloc, name, seen.refused.columns)? {
        Some(column) => Some(column),
        None => nearest_let(alloc, seen, name)?.filter(|other| *other != name),
    };
    let told = type_in_name(seen, name)
        .or(table_as_value(seen, name))
        .or(bare_word(seen, name));
    let first = match near {
        Some(_) => told,
        None => told.or(known_word(name)).or(function_name(seen, name)),
    };
    let second = if seen.is_made_here(name) {
        Some(Sentence::with(
            "{} is made by this operator and is there only behind it: put what uses it into another | extend",
            name,
        ))
    } else if let Some(other) = near {
        Some(Sentence::with_two("There is no column {} here; did you mean {}?", name, other))
    } else if first.is_none() {
        Some(Sentence::with("There is no column {} here", name))
    } else {
        None
    };
    Ok(Advice { first, second })
}

/// Adds the functions whose names begin as that at the place does, where no more is known of it.
pub(crate) fn write_alike(seen: &Seen<'_>, out: &mut String) -> Result<(), AllocError> {
    let name = seen.here().text;
    let begins = front(name, ALIKE);
    let is_known = call_told(name).or(word_told(name)).is_some();
    if is_known || begins.len() < ALIKE || find(name) != Found::Unknown {
        return Ok(());
    }
    let mut count = 0usize;
    for function in functions() {
        if function.name().starts_with(begins) {
            write_listed(
                "The functions that begin so are",
                count,
                function.name(),
                out,
            )?;
            count = count.saturating_add(1);
        }
    }
    write_more(count, out)
}

// The names of all functions.
fn function_names(alloc: Global) -> Result<Vec<&'static str>, AllocError> {
    let mut names: Vec<&'static str> = Vec::new(alloc);
    for function in functions() {
        names.push(function.name())?;
    }
    for window in windows() {
        names.push(window.name())?;
    }
    for aggregate in aggregates() {
        names.push(aggregate.name())?;
    }
    Ok(names)
}

/// A function that there is not, or not at this place: 402.
pub(crate) fn unknown_function<'a>(
    alloc: Global,
    seen: &Seen<'a>,
) -> Result<Sentence<'a>, AllocError> {
    let name = seen.here().text;
    if let Found::Aggregate(_) = find(name) {
        return Ok(Sentence::with_two(
            "{} is over many rows, and stands in summarize: | summarize {}(..) by COLUMN",
            name,
            name,
        ));
    }
    if let Some(told) = call_told(name).or(word_told(name)) {
        return Ok(Sentence::plain(told));
    }
    let names = function_names(alloc)?;
    Ok(match nearest_name(alloc, name, names.as_slice())? {
        Some(other) => Sentence::with_two("There is no function {}; did you mean {}?", name, other),
        None => Sentence::with(
            "There is no function {}: kql help functions lists them",
            name,
        ),
    })
}

// Whether a name has no capital letter of ASCII.
fn is_lower(name: &str) -> bool {
    for c in name.chars() {
        if c.is_ascii_uppercase() {
            return false;
        }
    }
    true
}

/// A table that there is not: 410.
pub(crate) fn unknown_table<'a>(alloc: Global, seen: &Seen<'a>) -> Result<Advice<'a>, AllocError> {
    let name = seen.name();
    let near = match nearest_name(alloc, name, seen.refused.tables)? {
        Some(table) => Some(table),
        None => nearest_let(alloc, seen, name)?,
    };
    if let Some(other) = near {
        return Ok(Advice::of(Some(Sentence::with_two(
            "There is no table {}; did you mean {}?",
            name,
            other,
        ))));
    }
    let second = match opening_told(name) {
        Some(told) if is_lower(name) => Some(Sentence::plain(told)),
        _ => None,
    };
    Ok(Advice {
        first: Some(Sentence::with_two(
            "There is no table {}: give its file in the command, as {}=PATH",
            name,
            name,
        )),
        second,
    })
}
