use kql_lexer::*;
use std::alloc::{AllocError, Global};
use std::test::Fail;

fn sign_text(form: &TokenForm) -> &'static str {
    match form {
        TokenForm::End => "end",
        TokenForm::Bar => "|",
        TokenForm::Open => "(",
        TokenForm::Close => ")",
        TokenForm::OpenSquare => "[",
        TokenForm::CloseSquare => "]",
        TokenForm::Comma => ",",
        TokenForm::Semicolon => ";",
        TokenForm::Colon => ":",
        TokenForm::Dot => ".",
        TokenForm::DotDot => "..",
        TokenForm::Assign => "=",
        TokenForm::Equal => "==",
        TokenForm::NotEqual => "!=",
        TokenForm::Alike => "=~",
        TokenForm::NotAlike => "!~",
        TokenForm::Less => "<",
        TokenForm::LessEqual => "<=",
        TokenForm::Greater => ">",
        TokenForm::GreaterEqual => ">=",
        TokenForm::Arrow => "=>",
        TokenForm::Plus => "+",
        TokenForm::Minus => "-",
        TokenForm::Star => "*",
        TokenForm::Slash => "/",
        TokenForm::Percent => "%",
        _ => "?",
    }
}

fn add_token(out: &mut String, token: &Token) -> Result<(), AllocError> {
    let line = token.place.line;
    let column = token.place.column;
    let byte = token.place.byte;
    write!(out, "{line}:{column}:{byte} ")?;
    match &token.form {
        TokenForm::Word(keyword, text) => {
            if keyword.is_reserved() {
                out.push_str("reserved ")?;
            }
            out.push_str(text.as_str())
        }
        TokenForm::Negated(keyword) => {
            out.push_str("not ")?;
            out.push_str(keyword.text())
        }
        TokenForm::Number(value) => write!(out, "{value}"),
        TokenForm::Span(ticks) => write!(out, "{ticks} ticks"),
        TokenForm::Text(text) => {
            out.push_str("text ")?;
            out.push_str(text.as_str())
        }
        TokenForm::Typed(keyword, text) => {
            out.push_str("typed ")?;
            out.push_str(keyword.text())?;
            out.push_str(" ")?;
            out.push_str(text.as_str())
        }
        form => out.push_str(sign_text(form)),
    }
}

/// The tokens of an answer with their places, or the refusal.
fn told(alloc: Global, answer: Result<Tokens, LexFault>) -> Result<String, AllocError> {
    let mut out = String::new(alloc);
    match answer {
        Ok(tokens) => {
            for token in tokens.as_slice() {
                if !out.is_empty() {
                    out.push_str(", ")?;
                }
                add_token(&mut out, token)?;
            }
        }
        Err(LexFault::Refused { code, place }) => {
            let line = place.line;
            let column = place.column;
            let byte = place.byte;
            write!(out, "{code} at {line}:{column}:{byte}")?;
        }
        Err(LexFault::OutOfMemory) => out.push_str("out of memory")?,
    }
    Ok(out)
}

/// The tokens of a text with their places, or the refusal.
fn shown(alloc: Global, text: &[u8]) -> Result<String, AllocError> {
    told(alloc, lex(alloc, text))
}

// A text, and its tokens with their places or its refusal.
type Row = (&'static str, &'static str);

// Words, blanks and comments.
const WORDS: &[Row] = &[
    (
        "T | where x == 5",
        "1:1:0 T, 1:3:2 |, 1:5:4 where, 1:11:10 x, 1:13:12 ==, 1:16:15 5, 1:17:16 end",
    ),
    (
        "T\r\n|\n where\t_x9 by",
        "1:1:0 T, 2:1:3 |, 3:2:6 where, 3:8:12 _x9, 3:12:16 reserved by, 3:14:18 end",
    ),
    ("", "1:1:0 end"),
    ("a//b", "1:1:0 a, 1:5:4 end"),
    ("a//b\nc/d", "1:1:0 a, 2:1:5 c, 2:2:6 /, 2:3:7 d, 2:4:8 end"),
    (
        "mv-expandx",
        "1:1:0 reserved mv-expand, 1:10:9 x, 1:11:10 end",
    ),
    ("mv-x", "1:1:0 mv, 1:3:2 -, 1:4:3 x, 1:5:4 end"),
    (
        "project-rename project-away",
        "1:1:0 reserved project-rename, 1:16:15 reserved project-away, 1:28:27 end",
    ),
    (
        "make-series project-keep",
        "1:1:0 reserved make-series, 1:13:12 reserved project-keep, 1:25:24 end",
    ),
    (
        "in in~x $left.a $rightb",
        "1:1:0 reserved in, 1:4:3 reserved in~, 1:7:6 x, 1:9:8 reserved $left, 1:14:13 ., 1:15:14 a, 1:17:16 reserved $right, 1:23:22 b, 1:24:23 end",
    ),
    ("inx~", "101 at 1:4:3"),
    ("$lef", "101 at 1:1:0"),
    (
        "!contains_cs !in~ !inx",
        "1:1:0 not contains_cs, 1:14:13 not in~, 1:19:18 not in, 1:22:21 x, 1:23:22 end",
    ),
    ("!has_css", "1:1:0 not has_cs, 1:8:7 s, 1:9:8 end"),
    ("!matches", "101 at 1:1:0"),
    ("! in", "101 at 1:1:0"),
];

// Numbers.
const NUMBERS: &[Row] = &[
    (
        "9223372036854775807|007",
        "1:1:0 9223372036854775807, 1:20:19 |, 1:21:20 7, 1:24:23 end",
    ),
    ("T | 9223372036854775808", "103 at 1:5:4"),
    ("T | 18446744073709551617", "103 at 1:5:4"),
    ("T | 18446744073709551620", "103 at 1:5:4"),
    (
        "0x7FffFFFFffffffff 0xa",
        "1:1:0 9223372036854775807, 1:20:19 10, 1:23:22 end",
    ),
    ("0x8000000000000000", "103 at 1:1:0"),
    ("0x10000000000000001", "103 at 1:1:0"),
    ("0x", "103 at 1:1:0"),
    ("0X1", "103 at 1:1:0"),
    ("0xg", "103 at 1:1:0"),
    ("0x1.5", "1:1:0 1, 1:4:3 ., 1:5:4 5, 1:6:5 end"),
    ("T | where x == 5a", "103 at 1:16:15"),
    ("5_", "103 at 1:1:0"),
    ("1.5", "103 at 1:1:0"),
];

// Timespans, and numbers between dots.
const SPANS: &[Row] = &[
    (
        "1.5h 2d 3m 4s 5ms",
        "1:1:0 54000000000 ticks, 1:6:5 1728000000000 ticks, 1:9:8 1800000000 ticks, 1:12:11 40000000 ticks, 1:15:14 50000 ticks, 1:18:17 end",
    ),
    (
        "1tick 2microsecond 0.5ms",
        "1:1:0 1 ticks, 1:7:6 20 ticks, 1:20:19 5000 ticks, 1:25:24 end",
    ),
    ("0.00000001s", "103 at 1:1:0"),
    ("0.0000001s", "1:1:0 1 ticks, 1:11:10 end"),
    ("5min", "103 at 1:1:0"),
    ("5dx", "103 at 1:1:0"),
    (
        "9223372036854775807tick",
        "1:1:0 9223372036854775807 ticks, 1:24:23 end",
    ),
    ("9223372036854775808tick", "103 at 1:1:0"),
    ("1..5", "1:1:0 1, 1:2:1 .., 1:4:3 5, 1:5:4 end"),
    ("1.x", "1:1:0 1, 1:2:1 ., 1:3:2 x, 1:4:3 end"),
    (".5", "1:1:0 ., 1:2:1 5, 1:3:2 end"),
    ("a.5", "1:1:0 a, 1:2:1 ., 1:3:2 5, 1:4:3 end"),
    ("5.", "1:1:0 5, 1:2:1 ., 1:3:2 end"),
    ("1.5.2h", "103 at 1:1:0"),
    (
        "1h..2h",
        "1:1:0 36000000000 ticks, 1:3:2 .., 1:5:4 72000000000 ticks, 1:7:6 end",
    ),
    (
        "1.5h..2h",
        "1:1:0 54000000000 ticks, 1:5:4 .., 1:7:6 72000000000 ticks, 1:9:8 end",
    ),
    ("1.5tick", "103 at 1:1:0"),
    ("0.1microsecond", "1:1:0 1 ticks, 1:15:14 end"),
    (
        "922337203685.4775807s",
        "1:1:0 9223372036854775807 ticks, 1:22:21 end",
    ),
    ("922337203685.4775808s", "103 at 1:1:0"),
    ("5D", "103 at 1:1:0"),
];

// Strings.
const STRINGS: &[Row] = &[
    (
        "'a\"b' \"c'd\"",
        "1:1:0 text a\"b, 1:7:6 text c'd, 1:12:11 end",
    ),
    (
        "\"\\\\ \\\" \\' \\n \\r \\t\"",
        "1:1:0 text \\ \" ' \n \r \t, 1:20:19 end",
    ),
    ("'' \"\"", "1:1:0 text , 1:4:3 text , 1:6:5 end"),
    ("x 'a\\q'", "103 at 1:3:2"),
    ("'a\\q", "102 at 1:1:0"),
    ("'a\\", "102 at 1:1:0"),
    ("'a\\'", "102 at 1:1:0"),
    ("T | where x == \"a", "102 at 1:16:15"),
    ("x \"a\n\"", "102 at 1:3:2"),
    ("\"a\rb\"", "1:1:0 text a\rb, 1:6:5 end"),
    (
        "@\"a\"\"b\" @'c\\' @'''d'",
        "1:1:0 text a\"b, 1:9:8 text c\\, 1:15:14 text 'd, 1:21:20 end",
    ),
    ("\"a\\\n\"", "102 at 1:1:0"),
    ("\"a//b\"", "1:1:0 text a//b, 1:7:6 end"),
    ("@\"a\"\"", "102 at 1:1:0"),
    ("@\"a\n\"", "102 at 1:1:0"),
    ("@ \"a\"", "101 at 1:1:0"),
    (
        "'\u{e9}\u{1d11e}'x",
        "1:1:0 text \u{e9}\u{1d11e}, 1:5:8 x, 1:6:9 end",
    ),
];

// Typed literals.
const LITERALS: &[Row] = &[
    (
        "datetime(2024-01-01) long ( -5 )",
        "1:1:0 typed datetime 2024-01-01, 1:22:21 typed long  -5 , 1:33:32 end",
    ),
    ("x datetime(2024-01-01", "102 at 1:3:2"),
    (
        "dynamic({\"a\":\")\"})",
        "1:1:0 typed dynamic {\"a\":\")\"}, 1:19:18 end",
    ),
    (
        "dynamic(\"\\\")\") y",
        "1:1:0 typed dynamic \"\\\")\", 1:16:15 y, 1:17:16 end",
    ),
    ("dynamic(\\\")", "1:1:0 typed dynamic \\\", 1:12:11 end"),
    (
        "datetime(2024\")",
        "1:1:0 typed datetime 2024\", 1:16:15 end",
    ),
    ("datetime(2024\") \"x", "102 at 1:1:0"),
    (
        "datetime(2024\") datetime(\")",
        "1:1:0 typed datetime 2024\") datetime(\", 1:28:27 end",
    ),
    (
        "bool // c (\n /* ",
        "1:1:0 bool, 2:2:13 /, 2:3:14 *, 2:5:16 end",
    ),
    (
        "guid //x(\n (y\n//)) z",
        "1:1:0 typed guid y\n//, 3:4:17 ), 3:6:19 z, 3:7:20 end",
    ),
    (
        "int(1)real()double(2)decimal(3)time(4)timespan(5)string(6)",
        "1:1:0 typed int 1, 1:7:6 typed real , 1:13:12 typed double 2, 1:22:21 typed decimal 3, 1:32:31 typed time 4, 1:39:38 typed timespan 5, 1:50:49 string, 1:56:55 (, 1:57:56 6, 1:58:57 ), 1:59:58 end",
    ),
    ("bool(true)", "1:1:0 typed bool true, 1:11:10 end"),
    (
        "Bool(1)",
        "1:1:0 Bool, 1:5:4 (, 1:6:5 1, 1:7:6 ), 1:8:7 end",
    ),
];

// Signs, and bytes that begin no token.
const SIGNS: &[Row] = &[
    (
        "|()[],;:.+-*/%",
        "1:1:0 |, 1:2:1 (, 1:3:2 ), 1:4:3 [, 1:5:4 ], 1:6:5 ,, 1:7:6 ;, 1:8:7 :, 1:9:8 ., 1:10:9 +, 1:11:10 -, 1:12:11 *, 1:13:12 /, 1:14:13 %, 1:15:14 end",
    ),
    (
        "..=====~!=!~<<=>>==>=",
        "1:1:0 .., 1:3:2 ==, 1:5:4 ==, 1:7:6 =~, 1:9:8 !=, 1:11:10 !~, 1:13:12 <, 1:14:13 <=, 1:16:15 >, 1:17:16 >=, 1:19:18 =>, 1:21:20 =, 1:22:21 end",
    ),
    ("...", "1:1:0 .., 1:3:2 ., 1:4:3 end"),
    ("/ /", "1:1:0 /, 1:3:2 /, 1:4:3 end"),
    ("a ~ b", "101 at 1:3:2"),
    ("a & b", "101 at 1:3:2"),
    ("\u{feff}T", "101 at 1:1:0"),
    ("T == \u{e9} \u{1d11e}", "101 at 1:6:5"),
    ("'\u{e9}' '\u{1d11e}' ?", "101 at 1:9:12"),
    ("// \u{1d11e}\n?", "101 at 2:1:8"),
    ("5a 'b", "103 at 1:1:0"),
    ("'b\n5a", "102 at 1:1:0"),
];

// The first text that is cut otherwise.
fn first_cut_otherwise(alloc: Global, rows: &[Row]) -> Result<Option<usize>, AllocError> {
    for i in 0..rows.len() {
        let got = shown(alloc, rows[i].0.as_bytes())?;
        if got.as_str() != rows[i].1 {
            return Ok(Some(i));
        }
    }
    Ok(None)
}

#[test]
fn words_and_numbers(rt: HostRuntime) -> Result<(), Fail> {
    let alloc = rt.alloc();
    assert_eq!(rt; first_cut_otherwise(alloc, WORDS)?, None);
    assert_eq!(rt; first_cut_otherwise(alloc, NUMBERS)?, None);
    assert_eq!(rt; first_cut_otherwise(alloc, SPANS)?, None);
    Ok(())
}

#[test]
fn strings_and_literals(rt: HostRuntime) -> Result<(), Fail> {
    let alloc = rt.alloc();
    assert_eq!(rt; first_cut_otherwise(alloc, STRINGS)?, None);
    assert_eq!(rt; first_cut_otherwise(alloc, LITERALS)?, None);
    assert_eq!(rt; first_cut_otherwise(alloc, SIGNS)?, None);
    Ok(())
}

// The most tokens of a text, the end mark not counted.
const TOKENS_TOP: usize = 65_536;

/// A text that is not UTF-8, and where it is refused.
fn broken(i: usize) -> (&'static [u8], &'static str) {
    match i {
        0 => (b"x \xff", "101 at 1:3:2"),
        1 => (b"'a\xff' 5a", "101 at 1:3:2"),
        2 => (b"// \xff", "101 at 1:4:3"),
        3 => (b"dynamic(\xc3)", "101 at 1:9:8"),
        4 => (b"'a\xff", "102 at 1:1:0"),
        5 => (b"'\\q\xff'", "103 at 1:1:0"),
        6 => (b"@'\xc3\xa9\xc3' ?", "101 at 1:4:4"),
        7 => (b"\n  \xf0\x9d\x84", "101 at 2:3:3"),
        8 => (b"? \xff", "101 at 1:1:0"),
        _ => (b"// \xc3\na", "101 at 1:4:3"),
    }
}

fn first_broken_otherwise(alloc: Global) -> Result<Option<usize>, AllocError> {
    for i in 0..10 {
        let (text, want) = broken(i);
        let got = shown(alloc, text)?;
        if got.as_str() != want {
            return Ok(Some(i));
        }
    }
    Ok(None)
}

#[test]
fn not_utf8(rt: HostRuntime) -> Result<(), Fail> {
    assert_eq!(rt; first_broken_otherwise(rt.alloc())?, None);
    Ok(())
}

/// So many bytes `|`, and then some more.
fn crowded(alloc: Global, bars: usize, more: &[u8]) -> Result<String, AllocError> {
    let mut text = vec![in alloc; b'|'; bars]?;
    text.extend_from_slice(more)?;
    shown(alloc, text.as_slice())
}

/// What follows 65,536 tokens of a byte each, and where that text is refused.
fn beyond(i: usize) -> (&'static [u8], &'static str) {
    match i {
        0 => (b"|", "105 at 1:65537:65536"),
        1 => (b" x", "105 at 1:65538:65537"),
        2 => (b" ?", "101 at 1:65538:65537"),
        3 => (b" 'a", "102 at 1:65538:65537"),
        4 => (b"|?", "105 at 1:65537:65536"),
        _ => (b" 'a\xff'", "105 at 1:65538:65537"),
    }
}

// The first of these that is refused otherwise.
fn first_crowd_otherwise(alloc: Global) -> Result<Option<usize>, AllocError> {
    for i in 0..6 {
        let (more, want) = beyond(i);
        let got = crowded(alloc, TOKENS_TOP, more)?;
        if got.as_str() != want {
            return Ok(Some(i));
        }
    }
    Ok(None)
}

// How many tokens a text of so many equal bytes has, the end mark counted.
fn count_of(alloc: Global, byte: u8, len: usize) -> Result<Option<usize>, AllocError> {
    let text = vec![in alloc; byte; len]?;
    match lex(alloc, text.as_slice()) {
        Ok(tokens) => Ok(Some(tokens.len())),
        Err(_) => Ok(None),
    }
}

// What a text of so many equal bytes is cut into.
fn repeated(alloc: Global, byte: u8, len: usize) -> Result<String, AllocError> {
    let text = vec![in alloc; byte; len]?;
    shown(alloc, text.as_slice())
}

#[test]
fn limits(rt: HostRuntime) -> Result<(), Fail> {
    let alloc = rt.alloc();
    assert_eq!(rt; count_of(alloc, b'a', 262_144)?, Some(2));
    assert_eq!(rt; count_of(alloc, b'|', TOKENS_TOP)?, Some(65_537));
    assert_eq!(rt; repeated(alloc, b'\xff', 262_145)?.as_str(), "104 at 1:1:0");
    assert_eq!(rt; first_crowd_otherwise(alloc)?, None);
    Ok(())
}

#[test]
fn reads_in_one_way(rt: HostRuntime) -> Result<(), Fail> {
    let got = told(rt.alloc(), one_reading(rt.alloc(), b"T\n|'a'"))?;
    assert_eq!(rt; got.as_str(), "1:1:0 T, 2:1:2 |, 2:2:3 text a, 2:5:6 end");
    Ok(())
}

const RESERVED: &str =
    "and or in in~ between contains contains_cs startswith startswith_cs endswith endswith_cs has has_cs \
    matches true false by on asc desc nulls from to step with kind hint default typeof let range print union \
    $left $right mv-expand make-series project-away project-keep project-rename";

#[test]
fn reserved_words(rt: HostRuntime) {
    assert_eq!(rt;
        KEYWORDS
            .iter()
            .position(|word| keyword_of(word.text()) != *word),
        None
    );
    let count = KEYWORDS.iter().filter(|word| word.is_reserved()).count();
    assert_eq!(rt; count, 40);
    assert_eq!(rt;
        RESERVED
            .split_whitespace()
            .filter(|word| is_reserved(word))
            .count(),
        count
    );
}

/// The first token of a text made of a word and what stands on both sides of it.
fn first(alloc: Global, before: &str, word: &str, after: &str) -> Result<String, AllocError> {
    let text = format!(in alloc; "{before}{word}{after}")?;
    let mut out = String::new(alloc);
    match lex(alloc, text.as_bytes()) {
        Ok(tokens) => {
            if let Some(token) = tokens.as_slice().first() {
                add_token(&mut out, token)?;
            }
        }
        Err(_) => out.push_str("refused")?,
    }
    Ok(out)
}

// The first of these words that a `!` before it does not negate.
fn first_not_negated<'a>(alloc: Global, words: &'a str) -> Result<Option<&'a str>, AllocError> {
    for word in words.split_whitespace() {
        let got = first(alloc, "!", word, "")?;
        let want = format!(in alloc; "1:1:0 not {word}")?;
        if got.as_str() != want.as_str() {
            return Ok(Some(word));
        }
    }
    Ok(None)
}

// The first of these words that begins no typed literal.
fn first_not_typed<'a>(alloc: Global, words: &'a str) -> Result<Option<&'a str>, AllocError> {
    for word in words.split_whitespace() {
        let got = first(alloc, "", word, "(1)")?;
        let want = format!(in alloc; "1:1:0 typed {word} 1")?;
        if got.as_str() != want.as_str() {
            return Ok(Some(word));
        }
    }
    Ok(None)
}

const NEGATED: &str =
    "in in~ between contains contains_cs startswith startswith_cs endswith endswith_cs has has_cs";

const TYPES: &str = "bool long datetime timespan time dynamic int real double decimal guid";

#[test]
fn negated_and_literal_words(rt: HostRuntime) -> Result<(), Fail> {
    assert_eq!(rt; first_not_negated(rt.alloc(), NEGATED)?, None);
    assert_eq!(rt; first_not_typed(rt.alloc(), TYPES)?, None);
    Ok(())
}

// A text, whether it is a word, and whether it is reserved.
const NAMES: &[(&'static str, bool, bool)] = &[
    ("T", true, false),
    ("_a9", true, false),
    ("where", true, false),
    ("by", true, true),
    ("has_cs", true, true),
    ("in~", false, true),
    ("$left", false, true),
    ("mv-expand", false, true),
    ("9a", false, false),
    ("a-b", false, false),
    ("\u{e9}", false, false),
    ("", false, false),
];

// The first row of which something else is told.
fn first_misnamed(rows: &[(&str, bool, bool)]) -> Option<usize> {
    rows.iter().position(|row| is_word(row.0) != row.1 || is_reserved(row.0) != row.2)
}

#[test]
fn words(rt: HostRuntime) {
    assert_eq!(rt; first_misnamed(NAMES), None);
    assert_eq!(rt; keyword_of("where"), Keyword::Where);
    assert_eq!(rt; keyword_of(""), Keyword::Other);
}
