//! The types of columns and values, in words.

ghost use Rattle.std.specs.Prelude.{◌≡◌};
ghost use Rattle.kql_messages.specs.Facts.{column_words, kind_among, type_word, value_words};

use crate::query::KnownColumn;
use kql_cells::Kind;

/// All types, the more usual ones first.
pub(crate) const KINDS: [Kind; 6] = [
    Kind::Long,
    Kind::Moment,
    Kind::Span,
    Kind::Text,
    Kind::Bool,
    Kind::Dynamic,
];

/// The word of a type.
#[tactic(auto, unfolding(crate::specs::Facts::type_word))]
pub(crate) fn word_of(kind: Kind) -> &'static str
    ensures { result.now ≡ type_word kind }
{
    match kind {
        Kind::Long => "long",
        Kind::Moment => "datetime",
        Kind::Span => "timespan",
        Kind::Text => "string",
        Kind::Bool => "bool",
        Kind::Dynamic => "dynamic",
    }
}

/// What a value of a type is.
#[tactic(auto, unfolding(crate::specs::Facts::value_words))]
pub(crate) fn value_of(kind: Kind) -> &'static str
    ensures { result.now ≡ value_words kind }
{
    match kind {
        Kind::Long => "a long",
        Kind::Moment => "a datetime",
        Kind::Span => "a timespan",
        Kind::Text => "a string",
        Kind::Bool => "a bool",
        Kind::Dynamic => "dynamic",
    }
}

/// What a column of a type is.
#[tactic(auto, unfolding(crate::specs::Facts::column_words))]
pub(crate) fn column_of(kind: Kind) -> &'static str
    ensures { result.now ≡ column_words kind }
{
    match kind {
        Kind::Long => "a long column",
        Kind::Moment => "a datetime column",
        Kind::Span => "a timespan column",
        Kind::Text => "a string column",
        Kind::Bool => "a bool column",
        Kind::Dynamic => "a dynamic column",
    }
}

/// The function that makes a value of a type.
pub(crate) fn conversion_to(kind: Kind) -> &'static str {
    match kind {
        Kind::Long => "tolong",
        Kind::Moment => "todatetime",
        Kind::Span => "totimespan",
        Kind::Text => "tostring",
        Kind::Bool => "tobool",
        Kind::Dynamic => "todynamic",
    }
}

/// The type of a word, in any case.
pub(crate) fn kind_named(word: &str) -> Option<Kind> {
    for kind in &KINDS {
        if word_of(*kind).eq_ignore_ascii_case(word) {
            return Some(*kind);
        }
    }
    None
}

/// The type of the first of these columns that has a name, if it is known.
#[tactic(auto, unfolding(crate::specs::Facts::kind_among))]
pub(crate) fn kind_among(columns: &[KnownColumn<'_>], name: &str) -> Option<Kind>
    ensures { result ≡ kind_among columns.now name.now }
{
    let mut left = columns;
    while let [column, others @ ..] = left {
        if column.name == name {
            return column.kind;
        }
        left = others;
    }
    None
}
