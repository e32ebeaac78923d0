//! Characters and numbers that no query has.

use crate::mistakes::sign_told;
use crate::seen::Seen;
use crate::sentence::Sentence;
use crate::words::{front, word_in};

/// What is told of the sign that a text begins with.
pub(crate) fn on_sign(text: &str) -> Option<&'static str> {
    sign_told(front(text, 2)).or(sign_told(front(text, 1)))
}

/// A character that no query has: 101.
pub(crate) fn bad_character<'a>(seen: &Seen<'a>) -> Option<Sentence<'a>> {
    let told = on_sign(seen.text_from(seen.refused.byte))?;
    Some(Sentence::plain(told))
}

/// The digits that a text begins with.
pub(crate) fn digits_in(text: &str) -> &str {
    for (byte, c) in text.char_indices() {
        if !c.is_ascii_digit() {
            return text.get(..byte).unwrap_or("");
        }
    }
    text
}

// The unit of a timespan that a word means.
fn unit_of(word: &str) -> Option<&'static str> {
    match word {
        "day" | "days" => Some("d"),
        "hr" | "hrs" | "hour" | "hours" => Some("h"),
        "min" | "mins" | "minute" | "minutes" => Some("m"),
        "sec" | "secs" | "second" | "seconds" => Some("s"),
        "msec" | "millis" | "millisecond" | "milliseconds" => Some("ms"),
        "us" | "micros" | "microseconds" => Some("microsecond"),
        _ => None,
    }
}

/// A number or a text that does not read: 103.
pub(crate) fn bad_number<'a>(seen: &Seen<'a>) -> Option<Sentence<'a>> {
    let text = seen.text_from(seen.refused.byte);
    if text.starts_with('"') || text.starts_with('\'') {
        return Some(Sentence::plain(
            "Write each backslash twice, or @ before the text: \"C:\\\\logs\", @\"C:\\logs\"",
        ));
    }
    let digits = digits_in(text);
    let behind = text.get(digits.len()..).unwrap_or("");
    let unit = word_in(behind);
    if let Some(short) = unit_of(unit) {
        return Some(Sentence::with_two(
            "Write {}{}: the units are d, h, m, s, ms, microsecond and tick",
            digits,
            short,
        ));
    }
    let told = match unit {
        "w" | "week" | "weeks" => "Write the days of the weeks, as 7d",
        "" if behind.starts_with('.') => {
            "Numbers are whole: count in hundredths or thousandths, as 150 for 1.5; a timespan may have decimals, as 1.5s"
        }
        "" => "Numbers go up to 9223372036854775807; write a longer one as a text in quotes",
        _ =>
            "Behind a number stands nothing but the unit of a timespan: d, h, m, s, ms, microsecond or tick",
    };
    Some(Sentence::plain(told))
}
