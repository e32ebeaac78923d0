//! What stands where no query goes on: 201.

use crate::mistakes::{opening_told, word_told};
use crate::pieces::Sort;
use crate::seen::{Seen, ends_value};
use crate::sentence::{NONE, Sentence, Word};
use crate::signs::on_sign;
use crate::words::{INNER, OPERATORS, is_operator, one_of, word_in};
use kql_near::nearest_name;
use std::alloc::{AllocError, Global};

const JOIN_COLUMNS: &str =
    "Write the columns to join by behind on: on host, or on $left.host == $right.name where the names differ";

const JOIN_KINDS: &str =
    "The kinds of a join are innerunique, inner, leftouter, rightouter, fullouter, leftsemi, rightsemi, leftanti and rightanti";

// The place of a byte: its line and its column, both from 1.
fn place_of(text: &str, byte: usize) -> (u64, u64) {
    let mut line = 1u64;
    let mut column = 1u64;
    for c in text.get(..byte).unwrap_or("").chars() {
        if c == '\n' {
            line = line.saturating_add(1);
            column = 1;
        } else {
            column = column.saturating_add(1);
        }
    }
    (line, column)
}

// Whether a value ends before the place; the name of an operator behind its bar is none.
fn is_behind_value(seen: &Seen<'_>) -> bool {
    let before = seen.before(1);
    ends_value(before) && !(is_operator(before.text) && seen.before(2).text == "|")
}

// What a sign in front of another one, or the sign at the place, is told.
fn sign_at(seen: &Seen<'_>) -> Option<&'static str> {
    let here = seen.here();
    let before = seen.before(1);
    if here.sort == Sort::End {
        return None;
    }
    if before.text == "<" || before.text == "|" || before.text == "=" {
        if let Some(told) = on_sign(seen.text_from(before.byte)) {
            return Some(told);
        }
    }
    on_sign(seen.text_from(here.byte))
}

// What an operator is told whose form is missed at the place.
fn form_told(seen: &Seen<'_>) -> Option<&'static str> {
    let opening = seen.opening().text;
    let here = seen.here();
    let before = seen.before(1).text;
    if opening == "join" || opening == "lookup" {
        if seen.before(2).text == "kind" {
            return Some(JOIN_KINDS);
        }
        let is_end = here.sort == Sort::End && seen.open_bracket().is_none();
        if is_end || matches!(here.text, "." | "=" | "==") {
            return Some(JOIN_COLUMNS);
        }
    }
    if opening == "count" && here.text == "by" {
        return Some("Write summarize: summarize count() by host");
    }
    if before == "distinct" && seen.before(2).text == "(" {
        return Some("Write count_distinct(x)");
    }
    if opening == "project" && here.text == "*" {
        return Some("Write each column, or leave project out for all of them: project host, ms");
    }
    let is_between = seen.before(2).text == "between" || seen.before(3).text == "between";
    if is_between || before == "between" && here.text != "(" {
        return Some("Write between with brackets and two points: ms between (1 .. 5)");
    }
    if here.text == "=" {
        return Some("Write == to compare: where x == 5");
    }
    if opening == "where" && here.text == "," && seen.open_bracket().is_none() {
        return Some(
            "Write and or or between conditions, and numbers without commas: where a > 1000 and b > 1",
        );
    }
    None
}

// A query that begins with no table.
fn tableless<'a>(seen: &Seen<'a>) -> Option<Sentence<'a>> {
    let opening = seen.opening();
    let is_begin = seen.before(1).sort == Sort::End;
    let is_empty = is_begin && seen.here().sort == Sort::End;
    let is_bar = is_begin && seen.here().text == "|";
    if !is_empty && !is_bar && !(seen.is_in_first() && is_operator(opening.text)) {
        return None;
    }
    let table = match seen.refused.tables {
        [first, ..] => *first,
        [] => "T",
    };
    Some(Sentence::with(
        if is_empty {
            "The query is empty: begin with a table, as {} | take 10"
        } else {
            "A query begins with its table, and each operator with a |: {} | where .."
        },
        table,
    ))
}

const BAG_PARTS: &str = "Write each part as a column: T | extend a = d.a, b = d.b";

// Whether the operator that begins at a byte calls a plugin that makes columns of a bag's parts.
fn unpacks_bag(seen: &Seen<'_>, byte: usize) -> bool {
    match seen.text_from(byte).split('|').next() {
        Some(operator) => operator.contains("bag_unpack"),
        None => false,
    }
}

// The word with which the operator begins, if that is none.
fn opening_word<'a>(alloc: Global, seen: &Seen<'a>) -> Result<Option<Sentence<'a>>, AllocError> {
    let opening = seen.opening();
    let word = word_in(seen.text_from(opening.byte));
    if word.is_empty() || is_operator(word) || opening.reserved || seen.is_table(word) {
        return Ok(None);
    }
    if word == "evaluate" && unpacks_bag(seen, opening.byte) {
        return Ok(Some(Sentence::plain(BAG_PARTS)));
    }
    if let Some(told) = opening_told(word) {
        return Ok(Some(Sentence::plain(told)));
    }
    if seen.is_in_first() {
        return Ok(None);
    }
    if let Some(operator) = one_of(OPERATORS, word) {
        return Ok(Some(Sentence::with("Operators are written in lower case: {}", operator)));
    }
    if let Some(operator) = nearest_name(alloc, word, OPERATORS)? {
        return Ok(Some(Sentence::with_two(
            "There is no operator {}; did you mean {}?",
            word,
            operator,
        )));
    }
    if seen.before(1).text == "|" {
        return Ok(Some(Sentence::with("There is no operator {}: kql help lists them", word)));
    }
    Ok(None)
}

// A word at the place that has another place.
fn misplaced<'a>(seen: &Seen<'a>) -> Option<Sentence<'a>> {
    let here = seen.here();
    let before = seen.before(1);
    if here.sort != Sort::Word {
        return None;
    }
    if (before.text == "sort" || before.text == "order") && here.text != "by" {
        return Some(Sentence::with_three(
            "Write by behind {}: {} by {}",
            before.text,
            before.text,
            here.text,
        ));
    }
    if seen.opening().text == "top" && seen.before(2).text == "top" && here.text != "by" {
        return Some(Sentence::with_two(
            "Write by behind the number: top {} by {}",
            before.text,
            here.text,
        ));
    }
    let is_negated = here.text.starts_with('!');
    if here.reserved && !is_negated && before.text != "|" && !is_behind_value(seen) {
        return Some(Sentence::with_two(
            "{} is a word of the language; a column of that name is written ['{}']",
            here.text,
            here.text,
        ));
    }
    let operator = one_of(OPERATORS, here.text)?;
    if is_behind_value(seen) {
        Some(Sentence::with_two("Before {} a | is missing: | {}", here.text, operator))
    } else {
        None
    }
}

// A word at the place, or before it, that other languages have.
fn strange_word<'a>(seen: &Seen<'a>) -> Option<Sentence<'a>> {
    let here = seen.here();
    if here.sort != Sort::Word {
        return None;
    }
    let told = word_told(here.text).or(word_told(seen.before(1).text))?;
    Some(Sentence::plain(told))
}

// How many characters a word has at least that is taken for one of the language behind a value.
const LONG: usize = 5;

// Words of the language that are names more often than not where they are written with another case.
const NAMES: &[&str] = &[
    "from", "to", "step", "with", "kind", "let", "range", "print",
];

// Whether a word, behind a value, may be a name: a short one that is none of the language but for its case.
fn may_be_name(here: &str, word: &'static str) -> bool {
    if word.eq_ignore_ascii_case(here) {
        return one_of(NAMES, word).is_some() && here.contains(word.get(1..).unwrap_or(word));
    }
    here.len() < LONG
}

// A word at the place that is nearly one of the language.
fn near_word<'a>(alloc: Global, seen: &Seen<'a>) -> Result<Option<Sentence<'a>>, AllocError> {
    let here = seen.here().text;
    let Some(word) = nearest_name(alloc, here, INNER)? else {
        return Ok(None);
    };
    if word == here || ends_value(seen.before(1)) && may_be_name(here, word) {
        return Ok(None);
    }
    if word.eq_ignore_ascii_case(here) {
        return Ok(Some(Sentence::with("Words of the language are in lower case: {}", word)));
    }
    Ok(Some(Sentence::with_two(
        "{} is no word of the language; did you mean {}?",
        here,
        word,
    )))
}

// A bracket that is not closed before the place, or closes none at it.
fn bracket<'a>(seen: &Seen<'a>) -> Option<Sentence<'a>> {
    let here = seen.here();
    let Some((open, count)) = seen.open_bracket() else {
        if here.text == ")" || here.text == "]" {
            return Some(Sentence::with(
                "This {} closes nothing: no bracket is open before it",
                here.text,
            ));
        }
        return None;
    };
    let before = seen.before(1);
    let may_end = ends_value(before) || before.byte == open.byte;
    let is_ended = may_end && (here.text == "|" || here.text == ";");
    if here.sort != Sort::End && !is_ended {
        return None;
    }
    if let Some(compared) = seen.listed_for() {
        if here.text == "|" && seen.before(count.saturating_sub(1)).sort == Sort::Word {
            return Some(Sentence::with(
                "in takes values and no table: keep the rows that match one by | join kind=leftsemi (..) on {}",
                compared.text,
            ));
        }
    }
    let (line, column) = place_of(seen.refused.text, open.byte);
    Some(Sentence {
        form: "The {} at {}:{} is not closed",
        words: [
            Word::Text(open.text),
            Word::Number(line),
            Word::Number(column),
            NONE,
            NONE,
            NONE,
        ],
    })
}

// What is missing at the place.
fn missing<'a>(seen: &Seen<'a>) -> Option<Sentence<'a>> {
    let here = seen.here();
    let before = seen.before(1);
    if before.text == "|" && (here.sort == Sort::End || here.text == "|" || here.text == ";") {
        return Some(Sentence::plain(
            "Behind this | stands no operator: take the | away, or write one, as | count",
        ));
    }
    if before.text == ";" && here.sort != Sort::End {
        return Some(Sentence::plain(
            "Before a ; stands a let, and behind the last one the query: let Slow = T | where ms > 100; Slow | count",
        ));
    }
    if here.sort == Sort::End {
        return Some(Sentence::with(
            "The query ends behind {}, and something is still to come",
            before.text,
        ));
    }
    let is_sign = before.sort == Sort::Sign || before.reserved;
    if is_sign && !ends_value(before) && matches!(here.text, "|" | ")" | "," | "]" | ";") {
        return Some(Sentence::with_two(
            "Between {} and {} something is missing",
            before.text,
            here.text,
        ));
    }
    if !ends_value(before) || !ends_value(here) && here.sort != Sort::Word {
        return None;
    }
    if seen.opening().text == "let" {
        return Some(Sentence::with("A let ends with a ;: put it before {}", here.text));
    }
    Some(Sentence::with_two(
        "Between {} and {} something is missing: a comma, a sign or a |",
        before.text,
        here.text,
    ))
}

/// A piece with which no query goes on.
pub(crate) fn unexpected<'a>(
    alloc: Global,
    seen: &Seen<'a>,
) -> Result<Option<Sentence<'a>>, AllocError> {
    if let Some(told) = sign_at(seen).or(form_told(seen)) {
        return Ok(Some(Sentence::plain(told)));
    }
    if let Some(sentence) = tableless(seen) {
        return Ok(Some(sentence));
    }
    let opening = opening_word(alloc, seen)?;
    let near = near_word(alloc, seen)?;
    Ok(
        opening
            .or(misplaced(seen))
            .or(strange_word(seen))
            .or(near)
            .or(bracket(seen))
            .or(missing(seen)),
    )
}
