//! Words of the language.

/// The operators of tables.
pub(crate) const OPERATORS: &[&str] = &[
    "where",
    "extend",
    "project",
    "project-away",
    "project-keep",
    "project-rename",
    "take",
    "limit",
    "count",
    "sort",
    "order",
    "top",
    "distinct",
    "summarize",
    "make-series",
    "mv-expand",
    "parse",
    "join",
    "lookup",
    "union",
    "serialize",
    "scan",
    "partition",
];

/// Words that are no operators and no functions.
pub(crate) const INNER: &[&str] = &[
    "and",
    "or",
    "in",
    "between",
    "contains",
    "startswith",
    "endswith",
    "has",
    "by",
    "on",
    "asc",
    "desc",
    "nulls",
    "from",
    "to",
    "step",
    "with",
    "kind",
    "let",
    "range",
    "print",
    "true",
    "false",
];

/// Words and signs that compare two texts.
pub(crate) const COMPARISONS: &[&str] = &[
    "==",
    "!=",
    "=~",
    "!~",
    "contains",
    "!contains",
    "startswith",
    "!startswith",
    "endswith",
    "!endswith",
    "has",
    "!has",
    "contains_cs",
    "!contains_cs",
    "startswith_cs",
    "!startswith_cs",
    "endswith_cs",
    "!endswith_cs",
    "has_cs",
    "!has_cs",
];

/// The one of these words that a word is, but for the case of ASCII letters.
pub(crate) fn one_of(words: &[&'static str], asked: &str) -> Option<&'static str> {
    for word in words {
        if word.eq_ignore_ascii_case(asked) {
            return Some(*word);
        }
    }
    None
}

/// Whether a word is an operator, as it is written.
pub(crate) fn is_operator(word: &str) -> bool {
    one_of(OPERATORS, word) == Some(word)
}

/// The word that a text begins with, dashes in it too.
pub(crate) fn word_in(text: &str) -> &str {
    for (byte, c) in text.char_indices() {
        if !c.is_ascii_alphanumeric() && c != '_' && c != '-' {
            return text.get(..byte).unwrap_or("");
        }
    }
    text
}

/// The first characters of a text, at most so many.
pub(crate) fn front(text: &str, count: usize) -> &str {
    match text.char_indices().nth(count) {
        Some((byte, _)) => text.get(..byte).unwrap_or(text),
        None => text,
    }
}
