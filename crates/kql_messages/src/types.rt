//! Values of types that do not go together: 404.

use crate::arguments::call_told;
use crate::kinds::{conversion_to, value_of, word_of};
use crate::literals::text_as;
use crate::operands::{Form, Operand, left_operand, listed, operand_of, right_operand};
use crate::pieces::Sort;
use crate::seen::Seen;
use crate::sentence::{Advice, Sentence};
use crate::sides::{rank_of, right_from};
use crate::values::kind_of_call;
use crate::words::{COMPARISONS, one_of};
use kql_cells::Kind;
use std::alloc::{AllocError, Global};

/// How a column of texts becomes one of another type.
pub(crate) fn column_as<'a>(seen: &Seen<'a>, column: &'a str, kind: Kind) -> Sentence<'a> {
    let conversion = conversion_to(kind);
    if seen.is_parsed_before(column) {
        return Sentence::with_four(
            "Write {}:{} in the pattern of parse, or {}({}) behind it",
            column,
            word_of(kind),
            conversion,
            column,
        );
    }
    if seen.is_made_before(column) {
        return Sentence::with_two("Write {}({})", conversion, column);
    }
    Sentence::with_four(
        "Write {}:{} in the header of its file, or {}({}) in the query",
        column,
        word_of(kind),
        conversion,
        column,
    )
}

/// How an operand becomes one of another type.
pub(crate) fn operand_as<'a>(
    seen: &Seen<'a>,
    given: Operand<'a>,
    kind: Kind,
) -> Option<Sentence<'a>> {
    if given.is_quoted() {
        return text_as(kind, given.text);
    }
    if given.kind == Kind::Text && given.form == Form::Column {
        return Some(column_as(seen, given.text, kind));
    }
    if given.kind == Kind::Long && kind == Kind::Moment {
        return Some(Sentence::with(
            "unixtime_seconds_todatetime({}) makes a datetime of seconds since 1970",
            given.text,
        ));
    }
    let conversion = conversion_to(kind);
    if kind_of_call(conversion, &[given.kind]) != Some(kind) {
        return None;
    }
    Some(Sentence::with_three(
        "{}({}) makes {} of it",
        conversion,
        given.text,
        value_of(kind),
    ))
}

// What two types are told that a sign does not take together.
fn kinds_told(sign: &str, left: Kind, right: Kind) -> Option<&'static str> {
    match (left, right) {
        (Kind::Dynamic, Kind::Dynamic) => Some(
            "Convert one of the two dynamic values: tolong(..), tostring(..), todatetime(..), totimespan(..) or tobool(..)",
        ),
        (Kind::Span, Kind::Long) | (Kind::Long, Kind::Span) => Some(
            "Write a timespan with its unit, as 5s, 5m or 5h; x / 1s is how many seconds it has",
        ),
        (Kind::Moment, Kind::Long) | (Kind::Long, Kind::Moment) if sign == "+" || sign == "-" => {
            Some("Write a timespan with its unit, as 5s, 5m or 5h; x * 1s is x seconds")
        }
        (Kind::Moment, Kind::Long) | (Kind::Long, Kind::Moment) => Some(
            "Write a time as datetime(2024-03-01 10:00); seconds since 1970 become one by unixtime_seconds_todatetime(x)",
        ),
        (Kind::Moment, Kind::Span) | (Kind::Span, Kind::Moment) => {
            Some("Compare a time with a time: ago(1h) is one hour before the moment of --now")
        }
        (Kind::Bool, _) | (_, Kind::Bool) => {
            Some("Write a condition, as x > 5, or tobool(x), for a bool")
        }
        _ => None,
    }
}

// How two texts go together.
fn texts_told(sign: &str) -> &'static str {
    if sign == "+" {
        "Put texts together by strcat(a, b)"
    } else {
        "Compare texts by == and !=, and their order by strcmp(a, b) < 0"
    }
}

// Whether a sign or word looks into texts alone.
fn asks_for_texts(sign: &str) -> bool {
    sign != "==" && sign != "!=" && one_of(COMPARISONS, sign).is_some()
}

// A text beside a number: the number in quotes, or where the sign compares numbers too, the text as a number.
fn number_as<'a>(
    seen: &Seen<'a>,
    sign: &'a str,
    left: Operand<'a>,
    right: Operand<'a>,
) -> Sentence<'a> {
    if asks_for_texts(sign) {
        return Sentence::with("Write the text in quotes: \"{}\"", right.text);
    }
    match operand_as(seen, left, Kind::Long) {
        Some(told) => told,
        None => Sentence::with("Write the text in quotes: \"{}\"", right.text),
    }
}

// How the operands of a sign become of types that it takes.
fn pair_as<'a>(
    seen: &Seen<'a>,
    sign: &'a str,
    left: Operand<'a>,
    right: Operand<'a>,
) -> Option<Sentence<'a>> {
    if right.form == Form::Literal
        && left.kind == Kind::Text
        && right.kind == Kind::Long
        && sign != "+"
    {
        return Some(number_as(seen, sign, left, right));
    }
    if asks_for_texts(sign) {
        return Some(Sentence::with("{} looks into texts: tostring(..) makes one", sign));
    }
    if left.kind == Kind::Text && right.kind == Kind::Text {
        return Some(Sentence::plain(texts_told(sign)));
    }
    if left.kind == Kind::Text {
        return operand_as(seen, left, right.kind);
    }
    if right.kind == Kind::Text {
        return operand_as(seen, right, left.kind);
    }
    Some(Sentence::plain(kinds_told(sign, left.kind, right.kind)?))
}

// Two operands and how they go together.
fn pair_told<'a>(
    seen: &Seen<'a>,
    sign: &'a str,
    left: Operand<'a>,
    right: Operand<'a>,
) -> Advice<'a> {
    let are_dynamic = left.kind == Kind::Dynamic && right.kind == Kind::Dynamic;
    let first = Sentence::with_four(
        "{} is {}, and {} is {}",
        left.text,
        left.told(),
        right.text,
        right.told(),
    );
    Advice {
        first: if are_dynamic { None } else { Some(first) },
        second: pair_as(seen, sign, left, right),
    }
}

// The first of these operands whose type is another, or the first of all.
fn other_than<'a>(operands: &[Operand<'a>], kind: Kind) -> Option<Operand<'a>> {
    for operand in operands {
        if operand.kind != kind {
            return Some(*operand);
        }
    }
    operands.first().copied()
}

// The operands of the sign at the place, of the list behind an `in` or `between` the first of another type.
fn sign_told<'a>(alloc: Global, seen: &Seen<'a>, rank: u32) -> Result<Advice<'a>, AllocError> {
    let sign = seen.here();
    let Some(left) = left_operand(alloc, seen, rank)? else {
        return Ok(Advice::of(None));
    };
    let right = if sign.sort == Sort::Word && seen.after(1).text == "(" {
        let operands = listed(alloc, seen, seen.at().saturating_add(1))?;
        other_than(operands.as_slice(), left.kind)
    } else {
        right_operand(alloc, seen, rank)?
    };
    Ok(match right {
        Some(right) => pair_told(seen, sign.text, left, right),
        None => Advice::of(None),
    })
}

// An expression whose operator wants another type.
fn expression_told<'a>(alloc: Global, seen: &Seen<'a>) -> Result<Option<Sentence<'a>>, AllocError> {
    let before = seen.before(1).text;
    let part = right_from(seen, seen.at(), 0);
    let given = operand_of(alloc, seen, part, "what stands here")?;
    if before == "where" {
        let Some(given) = given else {
            return Ok(Some(Sentence::plain(
                "where asks for a condition, as x > 5 or level == \"error\"",
            )));
        };
        return Ok(Some(Sentence::with_two(
            "where asks for a condition, as x > 5 or level == \"error\", and {} is {}",
            given.text,
            given.told(),
        )));
    }
    if let Some(given) = given {
        if before == "mv-expand" {
            return Ok(Some(Sentence::with_three(
                "mv-expand asks for a dynamic value, and {} is {}: parse_json({})",
                given.text,
                given.told(),
                given.text,
            )));
        }
    }
    let is_dynamic = match given {
        Some(given) => given.kind == Kind::Dynamic,
        None => false,
    };
    if is_dynamic && (before == "by" || before == "," || before == "=") {
        return Ok(Some(Sentence::plain(
            "Convert a dynamic value to group or sort by it: by host = tostring(d.host)",
        )));
    }
    Ok(None)
}

// A look into a value that has no parts.
fn look_told<'a>(alloc: Global, seen: &Seen<'a>) -> Result<Option<Sentence<'a>>, AllocError> {
    let Some(given) = left_operand(alloc, seen, 6)? else {
        return Ok(None);
    };
    Ok(Some(Sentence::with_three(
        "{} is {}, and only a dynamic value has parts: parse_json({})",
        given.text,
        given.told(),
        given.text,
    )))
}

// One side of an `and` or `or` that is no condition.
fn condition_told<'a>(
    alloc: Global,
    seen: &Seen<'a>,
    rank: u32,
) -> Result<Option<Sentence<'a>>, AllocError> {
    let left = left_operand(alloc, seen, rank)?;
    let right = right_operand(alloc, seen, rank)?;
    let given = match (left, right) {
        (Some(left), _) if left.kind != Kind::Bool => left,
        (_, Some(right)) if right.kind != Kind::Bool => right,
        _ => return Ok(None),
    };
    Ok(Some(Sentence::with_three(
        "{} joins conditions, as x > 5 or level == \"error\", and {} is {}",
        seen.here().text,
        given.text,
        given.told(),
    )))
}

/// A sign, a call or an expression over types that it does not take: 404.
pub(crate) fn wrong_type<'a>(alloc: Global, seen: &Seen<'a>) -> Result<Advice<'a>, AllocError> {
    let piece = seen.here();
    let here = piece.text;
    if here == "." || here == "[" {
        return Ok(Advice::of(look_told(alloc, seen)?));
    }
    if here == "and" || here == "or" {
        let rank = rank_of(piece).unwrap_or(1);
        return Ok(Advice::of(condition_told(alloc, seen, rank)?));
    }
    if piece.sort == Sort::Word && rank_of(piece).is_none() && seen.after(1).text == "(" {
        if let Some(told) = call_told(alloc, seen)? {
            return Ok(told);
        }
    }
    match rank_of(piece) {
        Some(rank) if rank > 0 => sign_told(alloc, seen, rank),
        _ => Ok(Advice::of(expression_told(alloc, seen)?)),
    }
}
