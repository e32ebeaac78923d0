use crate::shared::{Made, Row, answered, texts};
use pattern_ops::{LiteralMaker, PatternMaker, RegexMaker};
use std::alloc::{AllocError, Global};
use std::test::Fail;

const EXPRESSIONS: &[Row] = &[
    (
        "id=[0-9]+",
        None,
        "true|false|false|false|true|true|false|false|",
    ),
    ("id=([0-9]+)", Some(1), "42||||7|9|||"),
    ("id=([0-9]+)", Some(0), "id=42||||id=7|id=9|||"),
    ("id=([0-9]+)", Some(2), "||||||||"),
    ("(x)|id=", Some(1), "||||||||"),
    ("(x)|id=", Some(0), "id=||||id=|id=|||"),
    ("", None, "true|true|true|true|true|true|true|true|"),
    ("", Some(0), "||||||||"),
    ("^$", None, "false|false|true|true|false|false|false|false|"),
    (
        "ID=",
        None,
        "false|false|false|false|false|false|false|false|",
    ),
    (
        "(?i)ID=",
        None,
        "true|false|false|false|true|true|false|false|",
    ),
    ("^(.)", Some(1), "u|n|||i|ü|€|a|"),
    ("(.)$", Some(1), "k|g|||8|ü|😀|j|"),
    (
        "^.{6}$",
        None,
        "false|false|false|false|false|false|true|false|",
    ),
    ("[€😀]", Some(0), "||||||€||"),
];

const GROUPS: &[Row] = &[
    ("(a)(b)(c)(d)(e)(f)(g)(h)(i)", Some(0), "|||||||abcdefghi|"),
    ("(a)(b)(c)(d)(e)(f)(g)(h)(i)", Some(1), "|||||||a|"),
    ("(a)(b)(c)(d)(e)(f)(g)(h)(i)", Some(9), "|||||||i|"),
    ("(a)(b)(c)(d)(e)(f)(g)(h)(i)", Some(10), "||||||||"),
    ("(a)(b)(c)(d)(e)(f)(g)(h)(i)", Some(4294967295), "||||||||"),
    ("((a)|(b))+", Some(1), "|||||||b|"),
    ("((a)|(b))+", Some(2), "|||||||a|"),
    ("a|ab", Some(0), "|||||||a|"),
    ("ab|a", Some(0), "|||||||ab|"),
    ("b.*?d", Some(0), "|||||||bcd|"),
];

// Texts that are no expressions, and an expression between them.
const REFUSED: &[Row] = &[
    ("(", None, "-"),
    ("[", Some(0), "-"),
    ("*", None, "-"),
    ("b|c", Some(0), "|||||||b|"),
    (r"(a)\1", None, "-"),
    ("(?=a)", None, "-"),
    ("(?<n>a)(?<n>b)", Some(1), "-"),
];

// The calls 2 and 5 fail. A text stands for itself, whatever its characters.
const LITERALS: &[Row] = &[
    ("id=", Some(0), "id=||||id=|id=|||"),
    ("id=", Some(1), "||||||||"),
    ("id=", None, "-"),
    (
        "zz",
        None,
        "false|false|false|false|false|false|false|false|",
    ),
    ("", Some(0), "||||||||"),
    ("id=", None, "-"),
    ("", None, "true|true|true|true|true|true|true|true|"),
    (
        ".",
        None,
        "false|false|false|false|false|false|false|false|",
    ),
    (
        "(",
        None,
        "false|false|false|false|false|false|false|false|",
    ),
    ("😀", Some(0), "||||||😀||"),
];

// What an expression answers to the texts; `-` where none is made.
fn expression(
    alloc: Global,
    maker: &mut RegexMaker,
    text: &str,
    group: Option<u32>,
) -> Made<String> {
    match maker.make(text) {
        Ok(made) => answered(alloc, &made, &texts(alloc)?, group),
        Err(_) => String::from_str(alloc, "-"),
    }
}

// The number of the first row that is answered otherwise, and how many there are where none is.
fn first_wrong_expression(alloc: Global, rows: &[Row]) -> Made<usize> {
    let mut maker = RegexMaker::new(alloc);
    for (i, (pattern, group, want)) in rows.iter().enumerate() {
        let got = expression(alloc, &mut maker, pattern, *group)?;
        if got.as_str() != *want {
            return Ok(i);
        }
    }
    Ok(rows.len())
}

// The same of texts that stand for themselves, of which the calls 2 and 5 fail.
fn literal(
    alloc: Global,
    maker: &mut LiteralMaker,
    text: &str,
    group: Option<u32>,
) -> Made<String> {
    match maker.make(text) {
        Ok(made) => answered(alloc, &made, &texts(alloc)?, group),
        Err(_) => String::from_str(alloc, "-"),
    }
}

fn first_wrong_literal(alloc: Global, rows: &[Row]) -> Made<usize> {
    let mut maker = LiteralMaker::new(alloc, vec![in alloc; 2, 5]?);
    for (i, (pattern, group, want)) in rows.iter().enumerate() {
        let got = literal(alloc, &mut maker, pattern, *group)?;
        if got.as_str() != *want {
            return Ok(i);
        }
    }
    Ok(rows.len())
}

#[test]
fn expressions(rt: HostRuntime) -> Result<(), Fail> {
    let alloc = rt.alloc();
    assert_eq!(rt;
        first_wrong_expression(alloc, EXPRESSIONS)?,
        EXPRESSIONS.len()
    );
    Ok(())
}

#[test]
fn groups(rt: HostRuntime) -> Result<(), Fail> {
    let alloc = rt.alloc();
    assert_eq!(rt; first_wrong_expression(alloc, GROUPS)?, GROUPS.len());
    Ok(())
}

#[test]
fn refused(rt: HostRuntime) -> Result<(), Fail> {
    let alloc = rt.alloc();
    assert_eq!(rt; first_wrong_expression(alloc, REFUSED)?, REFUSED.len());
    Ok(())
}

#[test]
fn literals(rt: HostRuntime) -> Result<(), Fail> {
    let alloc = rt.alloc();
    assert_eq!(rt; first_wrong_literal(alloc, LITERALS)?, LITERALS.len());
    Ok(())
}

// A text, and what is said against it; empty where nothing is.
const SAID: &[(&str, &str)] = &[
    ("a", ""),
    ("x(", "regex parse error at 1..2: unclosed group"),
    (
        "ü[z-a]",
        "regex parse error at 3..6: invalid character class range, the start must be <= the end",
    ),
];

// What is said against a text.
fn said(alloc: Global, text: &str) -> Result<String, AllocError> {
    let mut maker = RegexMaker::new(alloc);
    let _ = maker.make(text);
    match maker.last_error() {
        Some(error) => format!(in alloc; "{error}"),
        None => Ok(String::new(alloc)),
    }
}

fn first_unsaid(alloc: Global) -> Result<usize, AllocError> {
    for (i, (text, want)) in SAID.iter().enumerate() {
        if said(alloc, text)?.as_str() != *want {
            return Ok(i);
        }
    }
    Ok(SAID.len())
}

#[test]
fn reasons(rt: HostRuntime) -> Result<(), Fail> {
    let alloc = rt.alloc();
    assert_eq!(rt; first_unsaid(alloc)?, SAID.len());
    Ok(())
}

#[test]
fn too_large(rt: HostRuntime) -> Result<(), Fail> {
    let said = said(rt.alloc(), "a{100000}{100000}")?;
    assert_eq!(rt;
        said.as_str(),
        "the compiled pattern exceeds the size limit, which `RegexBuilder::size_limit` sets"
    );
    Ok(())
}
