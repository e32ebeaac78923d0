//! Long queries and deep ones: how many operators and brackets may stand. Other queries and their refusals are rows of queries.
use kql_lexer::{LexFault, lex};
use kql_parser::parse;
use kql_syntax::{Query, SyntaxFault};
use std::alloc::{AllocError, Global};
use std::test::Fail;

/// What `parse` answers on a text.
fn parsed(alloc: Global, text: &str) -> Result<Query, SyntaxFault> {
    match lex(alloc, text.as_bytes()) {
        Ok(tokens) => parse(alloc, &tokens),
        Err(LexFault::Refused { code, place }) => Err(SyntaxFault::Refused { code, place }),
        Err(LexFault::OutOfMemory) => Err(SyntaxFault::OutOfMemory),
    }
}

/// The code, the line and the column of the refusal of a text, or zeros.
fn outcome(alloc: Global, text: &str) -> (u32, u32, u32) {
    match parsed(alloc, text) {
        Ok(tree) => {
            drop(tree);
            (0, 0, 0)
        }
        Err(SyntaxFault::Refused { code, place }) => (code, place.line, place.column),
        Err(SyntaxFault::OutOfMemory) => (1, 0, 0),
    }
}

/// A start, so many times a middle, and an end.
fn long(
    alloc: Global,
    start: &str,
    middle: &str,
    count: usize,
    end: &str,
) -> Result<String, AllocError> {
    let mut text = String::new(alloc);
    text.push_str(start)?;
    for _ in 0..count {
        text.push_str(middle)?;
    }
    text.push_str(end)?;
    Ok(text)
}

/// The outcome of an expression in so many brackets.
fn nested(alloc: Global, count: usize) -> Result<(u32, u32, u32), AllocError> {
    let open = long(alloc, "print ", "(", count, "1")?;
    let text = long(alloc, open.as_str(), ")", count, "")?;
    Ok(outcome(alloc, text.as_str()))
}

#[test]
fn depth(rt: HostRuntime) -> Result<(), Fail> {
    let alloc = rt.alloc();
    assert_eq!(rt; nested(alloc, 64)?, (0, 0, 0));
    assert_eq!(rt; nested(alloc, 65)?, (202, 1, 71));
    assert_eq!(rt; nested(alloc, 80)?, (202, 1, 71));
    Ok(())
}

/// The outcome of a start, so many times ` | count`, and an end.
fn counted(
    alloc: Global,
    start: &str,
    count: usize,
    end: &str,
) -> Result<(u32, u32, u32), AllocError> {
    let text = long(alloc, start, " | count", count, end)?;
    Ok(outcome(alloc, text.as_str()))
}

/// Each line is how many operators stand behind its start, the code and the column of the refusal, or zeros, the start, and perhaps
/// an end behind `#`. The first line that is wrong, or nothing.
fn wrong_counts(alloc: Global, rows: &'static str) -> Result<&'static str, AllocError> {
    for row in rows.lines() {
        let Some((count, code, column, texts)) = cells(row) else {
            return Ok(row);
        };
        let (start, end) = match texts.split_once('#') {
            Some((start, end)) => (start, end),
            None => (texts, ""),
        };
        let (found, _line, at) = counted(alloc, start, count, end)?;
        if (found, at) != (code, column) {
            return Ok(row);
        }
    }
    Ok("")
}

/// Three numbers and a text.
fn cells(row: &str) -> Option<(usize, u32, u32, &str)> {
    let (first, rest) = row.split_once(' ')?;
    let (second, rest) = rest.split_once(' ')?;
    let (third, rest) = rest.split_once(' ')?;
    let first = first.parse::<usize>().unwrap_or(0);
    let second = second.parse::<u32>().unwrap_or(0);
    Some((first, second, third.parse::<u32>().unwrap_or(0), rest))
}

const COUNTS: &str = "256 0 0 T
257 203 2053 T
300 203 2053 T# count
300 201 3 T T
256 201 2052 T# |
255 0 0 print 1
256 203 2051 print 1
254 0 0 union (print 1), T
255 203 2054 union (print 1), T
255 0 0 let a = range x from 1 to 2 step 3; a
256 203 2081 let a = range x from 1 to 2 step 3; a
253 0 0 T | partition by a (count | count)
254 203 2062 T | partition by a (count | count)
255 0 0 T | join hint.print = range U on x
255 0 0 T | parse a with b : print
255 0 0 T | mv-expand a to typeof(union)
255 201 28 T | where a.range.partition(b)
256 201 2053 T# | foo
255 201 2050 T# | join print 1 on x
255 203 2051 T# | join (print 1) on x
255 0 0 T | summarize partition(a) by b";

#[test]
fn many_operators(rt: HostRuntime) -> Result<(), Fail> {
    assert_eq!(rt; wrong_counts(rt.alloc(), COUNTS)?, "");
    Ok(())
}

/// The outcome of a start, 65 brackets that open, and 300 operators.
fn deep_before_many(alloc: Global, start: &str) -> Result<(u32, u32, u32), AllocError> {
    let deep = long(alloc, start, "(", 65, "1")?;
    counted(alloc, deep.as_str(), 300, "")
}

/// The outcome of 257 operators and 65 brackets that open.
fn many_before_deep(alloc: Global) -> Result<(u32, u32, u32), AllocError> {
    let many = long(alloc, "T", " | count", 256, " | where ")?;
    let text = long(alloc, many.as_str(), "(", 65, "")?;
    Ok(outcome(alloc, text.as_str()))
}

#[test]
fn deep_and_many(rt: HostRuntime) -> Result<(), Fail> {
    let alloc = rt.alloc();
    assert_eq!(rt; many_before_deep(alloc)?, (203, 1, 2053));
    assert_eq!(rt; deep_before_many(alloc, "T | where ")?, (202, 1, 75));
    assert_eq!(rt; deep_before_many(alloc, "T | where ) ")?, (201, 1, 11));
    Ok(())
}
