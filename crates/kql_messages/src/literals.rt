//! Literals that do not read: 418, and texts that stand for values of other types.

use crate::seen::{Seen, bare};
use crate::sentence::Sentence;
use crate::signs::digits_in;
use kql_cells::Kind;
use kql_ticks::read_moment;

/// How a text in quotes is written as a value of a type.
pub(crate) fn text_as<'a>(kind: Kind, text: &'a str) -> Option<Sentence<'a>> {
    match kind {
        Kind::Long if digits_in(bare(text)).len() < bare(text).len() => Some(Sentence::plain(
            "Write a whole number, without quotes",
        )),
        Kind::Long => Some(Sentence::with("Write the number without quotes: {}", bare(text))),
        Kind::Moment if read_moment(bare(text)).is_some() => {
            Some(Sentence::with("Write the time as datetime({})", bare(text)))
        }
        Kind::Moment => Some(Sentence::plain(
            "Write a time as datetime(2024-03-01) or datetime(2024-03-01 10:04)",
        )),
        Kind::Span => Some(Sentence::plain(
            "Write the timespan with its unit, as 5m or 1.5h, or as timespan(00:05:00)",
        )),
        Kind::Bool => Some(Sentence::plain("Write true or false without quotes")),
        _ => None,
    }
}

/// A literal of a type whose text does not read: 418.
pub(crate) fn bad_literal<'a>(seen: &Seen<'a>) -> Option<Sentence<'a>> {
    let (word, inner) = seen.here().text.split_once('(')?;
    let word = word.trim_end();
    let inner = inner.trim_end_matches(')').trim();
    let is_quoted = inner.starts_with('"') || inner.starts_with('\'');
    if is_quoted && word != "dynamic" {
        return Some(Sentence::with_two("Write the text without quotes: {}({})", word, bare(inner)));
    }
    let told = match word {
        "dynamic" => "Write JSON between the brackets, with double quotes: dynamic({\"a\":[1,2]})",
        "bool" => "Write true or false in lower case: bool(true)",
        "datetime" =>
            "Write the time as 2024-03-01, 2024-03-01 10:04, 2024-03-01T10:04:59 or with up to 9 digits behind a point",
        "timespan" | "time" =>
            "Write the timespan as 5m, 1.5h, 00:05:00 or 1.00:05:00, with days before the point",
        "long" => "Write digits, with a - before them or none: long(-5)",
        _ => return None,
    };
    Some(Sentence::plain(told))
}
