//! Pattern calls that may not stand, or not as they do.

use crate::pieces::{Piece, Sort};
use crate::seen::Seen;
use crate::sentence::Sentence;

const ELSEWHERE: &str = "Put it into a where or extend that directly follows the table's name";

const NO_TEXT: &str = "Write the pattern as a text in quotes";

const NO_GROUP: &str = "Write the group as a number: 0 is the whole match";

const FORM: &str =
    "extract takes a pattern, a group and a column: extract(\"id=([0-9]+)\", 1, message)";

const NO_COLUMN: &str = "Name a string column of the table, which no extend before it sets";

// Whether a word is that of an operator in which patterns may stand.
fn may_hold(word: &str) -> bool {
    word == "where" || word == "extend"
}

// Whether the operators between the name of a table and the place are all such that patterns may stand in them.
fn follows_table(seen: &Seen<'_>) -> bool {
    let mut closed = 0usize;
    let mut is_behind = false;
    let mut first = seen.at();
    for count in 1..seen.count_before().saturating_add(1) {
        let at = seen.at().saturating_sub(count);
        let text = seen.piece(at).text;
        if text == ")" || text == "]" {
            closed = closed.saturating_add(1);
        } else if (text == "(" || text == "[") && closed > 0 {
            closed = closed.saturating_sub(1);
        } else if closed == 0 && (text == ";" || text == "(" && is_behind) {
            return is_behind && is_of_file(seen, first);
        } else if closed == 0 && text == "|" {
            if !may_hold(seen.piece(first).text) {
                return false;
            }
            is_behind = true;
        }
        first = at;
    }
    is_behind && is_of_file(seen, first)
}

// Whether the pipe whose first piece, or that of its `let`, stands here reads a table of a file, and no more.
fn is_of_file(seen: &Seen<'_>, first: usize) -> bool {
    let source = if seen.piece(first).text == "let" {
        first.saturating_add(3)
    } else {
        first
    };
    if seen.piece(source.saturating_add(1)).text != "|" {
        return false;
    }
    for table in seen.refused.tables {
        if *table == seen.piece(source).text {
            return true;
        }
    }
    false
}

// How many arguments the call has that opens behind the place.
fn count_arguments(seen: &Seen<'_>) -> usize {
    let mut open = 0usize;
    let mut commas = 0usize;
    for at in seen.at().saturating_add(1)..seen.count() {
        match seen.piece(at).text {
            "(" | "[" => open = open.saturating_add(1),
            ")" | "]" => {
                open = open.saturating_sub(1);
                if open == 0 {
                    return commas.saturating_add(1);
                }
            }
            "," if open == 1 => commas = commas.saturating_add(1),
            _ => {}
        }
    }
    0
}

// Whether a piece is a number in digits.
fn is_whole(piece: Piece<'_>) -> bool {
    if piece.sort != Sort::Number {
        return false;
    }
    for byte in piece.text.as_bytes() {
        if !byte.is_ascii_digit() {
            return false;
        }
    }
    true
}

/// The sentence for a pattern call that may not stand at the place, or not as it does.
pub(crate) fn pattern_here(seen: &Seen<'_>) -> Sentence<'static> {
    let is_extract = seen.here().text == "extract";
    let form = if !follows_table(seen) {
        ELSEWHERE
    } else if is_extract && count_arguments(seen) != 3 {
        FORM
    } else if seen.after(2).sort != Sort::Text {
        NO_TEXT
    } else if is_extract && !is_whole(seen.after(4)) {
        NO_GROUP
    } else {
        NO_COLUMN
    };
    Sentence::plain(form)
}
