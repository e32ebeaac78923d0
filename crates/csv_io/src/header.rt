ghost use Rattle.std.specs.Prelude.{◌≡◌, ◌++◌, ◌∷◌, [], true, false, MatchOption, OnOk, ⊤, map};
ghost use Rattle.std.specs.List.{after_last, before_last, list_any};
ghost use Rattle.csv.specs.Records.{AllText};
ghost use Rattle.csv_io.specs.Faults.{Reads};
ghost use Rattle.csv_io.specs.Header.{column_faults, column_of, header_faults, is_colon, is_left_out, is_refused_word, kind_by, name_by, type_in, type_of_word};

use crate::fault::{BAD_COLUMN, COLUMN_TWICE, DataFault, refused};
use crate::fields::field;
use crate::line::Line;
use kql_cells::{Column, KText, Kind, Schema};
use std::alloc::Global;

// How many columns a table may have.
const COLUMN_LIMIT: usize = 256;

// What the text after the last colon says of a column's type.
#[derive(Clone, Copy)]
pub(crate) enum TypeWord {
    // One of the six words.
    Given(Kind),
    // A type that the language leaves out.
    LeftOut,
    // It is part of the name.
    Absent,
}

// The columns that a header names.
pub(crate) fn read_header(alloc: Global, line: &Line<'_>) -> Result<Schema, DataFault>
    requires { AllText line.now }
    ensures { Reads (header_faults [] line.now) (map column_of line.now) result }
{
    let mut schema = Schema::new(alloc);
    for j in 0..line.len() {
        push_column(alloc, &mut schema, field(line, j))?;
    }
    Ok(schema)
}

// Adds the column that a field names.
fn push_column(alloc: Global, schema: &mut Schema, field: &str) -> Result<(), DataFault>
    ensures read { Reads (column_faults schema.old field.now) tt result }
    ensures column { OnOk result (schema.new ≡ schema.old ++ column_of field.now ∷ []) }
{
    let column = read_column(alloc, schema, field)?;
    schema.push(column)?;
    Ok(())
}

// The column that a field names behind those of a schema.
#[tactic(auto, unfolding(crate::specs::Header::column_faults, crate::specs::Header::column_of))]
fn read_column(alloc: Global, schema: &Schema, field: &str) -> Result<Column, DataFault>
    ensures { Reads (column_faults schema.now field.now) (column_of field.now) result }
{
    let place = schema.columns().len() + 1;
    let heading = heading_of(field);
    if place > COLUMN_LIMIT || heading.is_left_out || heading.name.is_empty() {
        return Err(refused(BAD_COLUMN, 0, place));
    }
    if schema.find(heading.name).is_some() {
        return Err(refused(COLUMN_TWICE, 0, place));
    }
    Ok(Column {
        name: KText::from_str(alloc, heading.name)?,
        kind: heading.kind,
    })
}

// A field as a name and a type.
#[derive(Clone, Copy)]
struct Heading<'a> {
    name: &'a str,
    kind: Kind,
    is_left_out: bool,
}

fn heading_of(field: &str) -> Heading<'_>
    ensures name { result.name.now ≡ name_by (type_in field.now) field.now }
    ensures kind { result.kind ≡ kind_by (type_in field.now) }
    ensures left_out { result.is_left_out ≡ is_left_out (type_in field.now) }
{
    match split_type(field) {
        Some((name, word)) => match type_of_word(word) {
            TypeWord::Given(kind) => Heading {
                name,
                kind,
                is_left_out: false,
            },
            TypeWord::LeftOut => Heading {
                name: field,
                kind: Kind::Text,
                is_left_out: true,
            },
            TypeWord::Absent => untyped(field),
        },
        None => untyped(field),
    }
}

fn untyped(field: &str) -> Heading<'_>
    ensures name { result.name.now ≡ field.now }
    ensures kind { result.kind ≡ Kind.Text }
    ensures left_out { result.is_left_out ≡ false }
{
    Heading {
        name: field,
        kind: Kind::Text,
        is_left_out: false,
    }
}

// What stands before and after the last colon.
fn split_type(field: &str) -> Option<(&str, &str)>
    ensures none { MatchOption result (list_any is_colon field.now ≡ false) (λ _. list_any is_colon field.now ≡ true) }
    ensures parts { MatchOption result ⊤ (λ p. (p.0.now ≡ before_last is_colon field.now) × (p.1.now ≡ after_last is_colon field.now)) }
{
    let bytes = field.as_bytes();
    let mut end = bytes.len();
    'back: while end > 0 {
        end -= 1;
        if bytes[end] == b':' {
            return Some((&field[..end], &field[end + 1..]));
        }
    }
    None
}

fn type_of_word(word: &str) -> TypeWord
    ensures { result ≡ type_of_word word.now }
{
    if word == "bool" {
        TypeWord::Given(Kind::Bool)
    } else if word == "long" {
        TypeWord::Given(Kind::Long)
    } else if word == "string" {
        TypeWord::Given(Kind::Text)
    } else if word == "datetime" {
        TypeWord::Given(Kind::Moment)
    } else if word == "timespan" {
        TypeWord::Given(Kind::Span)
    } else if word == "dynamic" {
        TypeWord::Given(Kind::Dynamic)
    } else if is_refused_word(word) {
        TypeWord::LeftOut
    } else {
        TypeWord::Absent
    }
}

fn is_refused_word(word: &str) -> bool
    ensures { result ≡ is_refused_word word.now }
{
    word == "int"
        || word == "real"
        || word == "double"
        || word == "decimal"
        || word == "guid"
        || word == "date"
        || word == "time"
}
