//! Calls of functions: the forms that they have, and what stands for those that there are not.

use crate::mistakes::call_told;
use crate::pieces::Sort;
use crate::seen::{Seen, bare};
use crate::sentence::Sentence;
use crate::words::one_of;
use kql_help::topic_text;

// Whether a text has a word between blanks.
fn has_word(text: &str, name: &str) -> bool {
    for word in text.split(' ') {
        if word == name {
            return true;
        }
    }
    false
}

// What stands between the brackets of a function in a line of its topic, as `s, start`. Several names may share the brackets behind them.
fn arguments_in<'a>(line: &'a str, name: &str) -> Option<&'a str> {
    let rest = line.strip_prefix("    ")?;
    if rest.starts_with(' ') {
        return None;
    }
    let mut is_found = false;
    for part in rest.split('(') {
        if is_found {
            let (arguments, _) = part.split_once(')')?;
            return Some(arguments);
        }
        is_found = has_word(part, name);
    }
    None
}

// What an operator is told whose counts and bounds are constants, or summarize.
fn operator_form(name: &str) -> Option<&'static str> {
    match name {
        "summarize" => Some(
            "An item of summarize is an aggregate, as sum(ms) or count(), and a column alone stands behind by: summarize count() by host",
        ),
        "make-series" => Some(
            "An item of make-series is one aggregate alone, as n = count(), and its ends and step are constants",
        ),
        "take" | "limit" | "top" => Some("How many rows is a constant, as take 10"),
        "range" => Some("The ends and the step are constants: range x from 1 to 10 step 1"),
        "scan" => Some("The start of a declared column is a constant: declare (n:long = 0)"),
        _ => None,
    }
}

// The parts of a time that a function is asked for by a word.
const PARTS: &[&str] = &[
    "year",
    "quarter",
    "month",
    "week",
    "day",
    "dayofyear",
    "hour",
    "minute",
    "second",
    "millisecond",
    "microsecond",
];

// A word in quotes that is no part of a time.
fn part_told<'a>(seen: &Seen<'a>, name: &'a str) -> Option<Sentence<'a>> {
    let given = seen.after(2);
    if !name.starts_with("datetime_") || given.sort != Sort::Text {
        return None;
    }
    let word = bare(given.text);
    match one_of(PARTS, word) {
        Some(part) if part == word => None,
        Some(part) => Some(Sentence::with_two(
            "Write the part in lower case: {}(\"{}\", ..)",
            name,
            part,
        )),
        None => Some(Sentence::with_two(
            "{} is no part of a time; kql help {} has them, as day, hour and minute",
            given.text,
            name,
        )),
    }
}

/// The forms that a call may have, of a function at most two: 403.
pub(crate) fn call_forms<'a>(seen: &Seen<'a>) -> Option<Sentence<'a>> {
    let name = seen.here().text;
    if let Some(told) = operator_form(name) {
        return Some(Sentence::plain(told));
    }
    if let Some(told) = part_told(seen, name) {
        return Some(told);
    }
    let text = topic_text(name)?;
    let mut first = None;
    for line in text.lines() {
        if let Some(arguments) = arguments_in(line, name) {
            match first {
                None => first = Some(arguments),
                Some(others) => {
                    return Some(Sentence::with_four(
                        "Write {}({}) or {}({})",
                        name,
                        others,
                        name,
                        arguments,
                    ));
                }
            }
        }
    }
    match first {
        Some(arguments) => Some(Sentence::with_two("Write {}({})", name, arguments)),
        None => Some(Sentence::with("kql help {} has the arguments that it takes", name)),
    }
}

/// A type or a function that the language leaves out: 405 and 406.
pub(crate) fn unsupported<'a>(seen: &Seen<'a>) -> Sentence<'a> {
    let here = seen.here().text;
    let name = here.split('(').next().unwrap_or("").trim_end();
    Sentence::plain(call_told(name).unwrap_or(
        "The types are bool, long, string, datetime, timespan and dynamic, in lower case",
    ))
}

/// A call that asks for rows in an order: 407.
pub(crate) fn needs_order<'a>(seen: &Seen<'a>) -> Sentence<'a> {
    Sentence::with(
        "{} looks at other rows, which have no order yet: put | sort by COLUMN asc before this operator, or | serialize to take them as they come",
        seen.here().text,
    )
}
