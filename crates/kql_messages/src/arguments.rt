//! Calls whose arguments are of types that they do not take.

use crate::kinds::{KINDS, value_of};
use crate::operands::{Operand, listed};
use crate::seen::Seen;
use crate::sentence::{Advice, NONE, Sentence, Word};
use crate::types::operand_as;
use kql_cells::Kind;
use kql_functions::{Aggregate, Found, find, result_kind};
use std::alloc::{AllocError, Global};

// Whether a function takes arguments of these types.
fn takes(found: Found, kinds: &[Kind]) -> bool {
    let first = kinds.first().copied();
    match found {
        Found::Scalar(function) => result_kind(function, kinds).is_some(),
        Found::Aggregate(Aggregate::Sum | Aggregate::SumIf) => {
            first == Some(Kind::Long) || first == Some(Kind::Span)
        }
        Found::Aggregate(Aggregate::Min | Aggregate::Max | Aggregate::MinIf | Aggregate::MaxIf) =>
            first == Some(Kind::Long) || first == Some(Kind::Span) || first == Some(Kind::Moment),
        _ => false,
    }
}

// The first three of the types that a function takes in the place of one of its arguments.
fn taken(
    alloc: Global,
    found: Found,
    kinds: &[Kind],
    at: usize,
) -> Result<[Option<Kind>; 3], AllocError> {
    let mut taken = [None, None, None];
    let mut count = 0;
    for kind in &KINDS {
        let mut tried = Vec::from_slice(alloc, kinds)?;
        if let Some(place) = tried.get_mut(at) {
            *place = *kind;
        }
        if count < 3 && takes(found, tried.as_slice()) {
            taken[count] = Some(*kind);
            count += 1;
        }
    }
    Ok(taken)
}

// What a value of a type is.
fn one_of(kind: Kind) -> Word<'static> {
    Word::Text(value_of(kind))
}

// What a function takes, and what its one argument is.
fn alone_told<'a>(name: &'a str, taken: [Option<Kind>; 3], given: Operand<'a>) -> Sentence<'a> {
    let text = Word::Text(given.text);
    let told = Word::Text(given.told());
    let name = Word::Text(name);
    match taken {
        [Some(a), Some(b), Some(c)] => Sentence {
            form: "{} takes {}, {} or {}, and {} is {}",
            words: [name, one_of(a), one_of(b), one_of(c), text, told],
        },
        [Some(a), Some(b), None] => Sentence {
            form: "{} takes {} or {}, and {} is {}",
            words: [name, one_of(a), one_of(b), text, told, NONE],
        },
        [Some(a), _, _] => Sentence {
            form: "{} takes {}, and {} is {}",
            words: [name, one_of(a), text, told, NONE, NONE],
        },
        _ => Sentence {
            form: "{} is {}, which {} does not take here",
            words: [text, told, name, NONE, NONE, NONE],
        },
    }
}

// What a function takes in the place of one of its arguments, and what that is.
fn placed_told<'a>(name: &'a str, taken: [Option<Kind>; 3], given: Operand<'a>) -> Sentence<'a> {
    let text = Word::Text(given.text);
    let told = Word::Text(given.told());
    let name = Word::Text(name);
    match taken {
        [Some(a), Some(b), Some(c)] => Sentence {
            form: "{} takes {}, {} or {} in the place of {}, which is {}",
            words: [name, one_of(a), one_of(b), one_of(c), text, told],
        },
        [Some(a), Some(b), None] => Sentence {
            form: "{} takes {} or {} in the place of {}, which is {}",
            words: [name, one_of(a), one_of(b), text, told, NONE],
        },
        [Some(a), _, _] => Sentence {
            form: "{} takes {} in the place of {}, which is {}",
            words: [name, one_of(a), text, told, NONE, NONE],
        },
        _ => Sentence {
            form: "kql help {} has the types that it takes",
            words: [name, NONE, NONE, NONE, NONE, NONE],
        },
    }
}

// How many arguments of a function stand before its values, which are of one type.
fn values_from(name: &str) -> Option<usize> {
    match name {
        "iff" => Some(1),
        "coalesce" | "min_of" | "max_of" => Some(0),
        _ => None,
    }
}

// The first of these operands whose type is another.
fn of_another<'a>(operands: &[Operand<'a>], kind: Kind) -> Option<Operand<'a>> {
    for operand in operands {
        if operand.kind != kind {
            return Some(*operand);
        }
    }
    None
}

// Two values of a call that are of two types and have to be of one.
fn two_told<'a>(name: &'a str, given: &[Operand<'a>]) -> Option<Sentence<'a>> {
    let values = given.get(values_from(name)?..)?;
    let first = values.first().copied()?;
    let other = of_another(values, first.kind)?;
    Some(Sentence {
        form: "The values of {} are of one type: {} is {}, and {} is {}",
        words: [
            Word::Text(name),
            Word::Text(first.text),
            Word::Text(first.told()),
            Word::Text(other.text),
            Word::Text(other.told()),
            NONE,
        ],
    })
}

/// A call at the place with an argument of a type that it does not take, where the types of all are known.
pub(crate) fn call_told<'a>(
    alloc: Global,
    seen: &Seen<'a>,
) -> Result<Option<Advice<'a>>, AllocError> {
    let name = seen.here().text;
    let found = find(name);
    let given = listed(alloc, seen, seen.at().saturating_add(1))?;
    if let Some(told) = two_told(name, given.as_slice()) {
        return Ok(Some(Advice::of(Some(told))));
    }
    let mut kinds: Vec<Kind> = Vec::new(alloc);
    for operand in &given {
        kinds.push(operand.kind)?;
    }
    for at in 0..given.len() {
        let taken = taken(alloc, found, kinds.as_slice(), at)?;
        if let [Some(kind), _, _] = taken {
            let first = if given.len() == 1 {
                alone_told(name, taken, given[at])
            } else {
                placed_told(name, taken, given[at])
            };
            return Ok(Some(Advice {
                first: Some(first),
                second: operand_as(seen, given[at], kind),
            }));
        }
    }
    Ok(match given.first() {
        Some(operand) if given.len() == 1 => Some(Advice::of(Some(alone_told(
            name,
            [None, None, None],
            *operand,
        )))),
        _ => None,
    })
}
