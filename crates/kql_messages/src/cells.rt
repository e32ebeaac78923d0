//! Why a cell does not read as the type of its column.

use kql_cells::Kind;

// How many bytes stand behind the last point.
fn count_behind_point(text: &str) -> usize {
    match text.rsplit_once('.') {
        Some((_, behind)) => behind.len(),
        None => 0,
    }
}

// Whether a text is one or more of ASCII's digits and of these signs.
fn is_of(text: &str, signs: &str) -> bool {
    for c in text.chars() {
        if !c.is_ascii_digit() && !signs.contains(c) {
            return false;
        }
    }
    !text.is_empty()
}

// Whether a text has one of ASCII's digits.
fn has_digit(text: &str) -> bool {
    for c in text.chars() {
        if c.is_ascii_digit() {
            return true;
        }
    }
    false
}

// Why a cell is no number.
fn no_long(cell: &str) -> &'static str {
    let digits = cell.strip_prefix('-').unwrap_or(cell);
    if is_of(digits, "") {
        "is beyond -9223372036854775808 to 9223372036854775807"
    } else if is_of(cell.strip_prefix('+').unwrap_or(""), "") {
        "has a + before it; only a - may stand there"
    } else if is_of(digits, ".") && digits.split('.').count() == 2 {
        "has decimals, and numbers are whole: without :long it is a text, and docs/COOKBOOK.md has sums of decimal texts"
    } else if is_of(digits, ",.") && digits.contains(',') {
        "has a comma in it; a number is digits alone"
    } else if !has_digit(cell) {
        "is no number; where a value is missing, the cell is empty"
    } else {
        "is no whole number: digits, and a - before them or none"
    }
}

// The word that stands last in a text, behind a blank.
fn last_word(text: &str) -> &str {
    match text.rsplit_once(' ') {
        Some((_, word)) => word,
        None => "",
    }
}

// Whether a word is the name of a zone or of a half of a day.
fn is_zone(word: &str) -> bool {
    for c in word.chars() {
        if !c.is_ascii_alphabetic() && c != '/' && c != '_' {
            return false;
        }
    }
    word.len() > 1
}

// Why a time of a day, behind its date, does not read.
fn no_clock(clock: &str) -> &'static str {
    let word = last_word(clock);
    if clock.is_empty() {
        "is no date of the calendar"
    } else if clock == "Z" || clock == " UTC" {
        "has a zone behind a date; one stands behind a time alone"
    } else if is_of(clock, " T:,") && clock.contains(',') {
        "has a comma before the fraction; a point stands there, as 10:04:59.123"
    } else if word.eq_ignore_ascii_case("am") || word.eq_ignore_ascii_case("pm") {
        "has AM or PM behind it; hours go to 23, as 2024-03-01 22:04"
    } else if is_zone(word) {
        "has the name of a zone behind it; Z, UTC, an offset as +02:00 or nothing stands there"
    } else if clock.contains('+') || clock.contains('-') {
        "has an offset that does not read; it is written +02:00 or +0200"
    } else if is_of(clock, " T:.Z") && count_behind_point(clock) > 9 {
        "has more than 9 digits behind the point"
    } else {
        "is no date of the calendar or no time of a day, or has more behind it"
    }
}

// Why a cell is no datetime.
fn no_moment(cell: &str) -> &'static str {
    let date = cell.get(..10).unwrap_or("");
    if is_of(cell, "") && cell.len() == 8 {
        "has no dashes; a date is written 2024-03-01"
    } else if is_of(cell, "") {
        "is a number; with :long it is one, and unixtime_seconds_todatetime(x) or unixtime_milliseconds_todatetime(x) makes it a time"
    } else if date.contains('/') || cell.len() < 10 && cell.contains('/') {
        "has slashes; a date is written 2024-03-01"
    } else if is_of(date, "-") {
        no_clock(cell.get(10..).unwrap_or(""))
    } else {
        "is no time: 2024-03-01, 2024-03-01 10:04, 2024-03-01T10:04:59 or with up to 9 digits behind a point"
    }
}

// How many digits of a fraction are too many.
fn long_fraction(digits: usize) -> &'static str {
    match digits {
        8 => "has 8 digits behind the point, and 7 are the most",
        9 => "has 9 digits behind the point, and 7 are the most: leave the last two out",
        _ => "has more than 7 digits behind the point",
    }
}

// Why a cell is no timespan.
fn no_span(cell: &str) -> &'static str {
    if is_of(cell, "") {
        "has no unit: 5s, 5m and 5ms have one, and with :long it is a number"
    } else if is_of(cell, ":") {
        "is hh:mm or beyond the hours of a day; hh:mm:ss is a timespan, and days stand before a point, as 1.02:00:00"
    } else if is_of(cell, "-:.") && count_behind_point(cell) > 7 {
        long_fraction(count_behind_point(cell))
    } else {
        "is no timespan: 00:05:00, 1.00:05:00, or a number with d, h, m, s, ms, microsecond or tick"
    }
}

/// Why a cell does not read as a type.
pub(crate) fn why_not(kind: Kind, cell: &str) -> &'static str {
    match kind {
        Kind::Long => no_long(cell),
        Kind::Moment => no_moment(cell),
        Kind::Span => no_span(cell),
        Kind::Bool => "is neither true nor false",
        _ => "does not read as its type",
    }
}
