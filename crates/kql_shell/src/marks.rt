//! The options of the shell's commands.

ghost use Rattle.std.specs.Prelude.{◌≡◌};
ghost use Rattle.kql_shell.specs.Marks.{form_of, is_option, mark_of, takes};

use crate::request::{Form, Verb};

/// An option.
#[derive(Clone, Copy, Debug, PartialEq, Eq)]
pub(crate) enum Mark {
    Text,
    File,
    Form,
    Moment,
    Workers,
    Limit,
    Catalogue,
    Types,
    All,
    Write,
}

/// The option of a name.
#[tactic(auto, unfolding(crate::specs::Marks::mark_of))]
pub(crate) fn mark_of(word: &str) -> Option<Mark>
    ensures { result ≡ mark_of word.now }
{
    if word == "-e" {
        Some(Mark::Text)
    } else if word == "-q" {
        Some(Mark::File)
    } else if word == "--output" {
        Some(Mark::Form)
    } else if word == "--now" {
        Some(Mark::Moment)
    } else if word == "--workers" {
        Some(Mark::Workers)
    } else if word == "--limit" {
        Some(Mark::Limit)
    } else if word == "--catalogue" {
        Some(Mark::Catalogue)
    } else if word == "--types" {
        Some(Mark::Types)
    } else if word == "--all" {
        Some(Mark::All)
    } else if word == "--write" {
        Some(Mark::Write)
    } else {
        None
    }
}

/// Whether a command has an option.
pub(crate) fn takes(verb: Verb, mark: Mark) -> bool
    ensures { result ≡ takes verb mark }
{
    match verb {
        Verb::Answer | Verb::Show => !matches!(mark, Mark::Write),
        Verb::Schema => matches!(mark, Mark::Form | Mark::All | Mark::Limit),
        Verb::Types => matches!(mark, Mark::Write | Mark::Limit),
    }
}

/// Whether a word begins as an option does; `-` alone is the standard input.
pub(crate) fn is_option(word: &str) -> bool
    ensures { result ≡ is_option word.now }
{
    word.as_bytes().starts_with(b"-") && word != "-"
}

/// The form of a name.
#[tactic(auto, unfolding(crate::specs::Marks::form_of))]
pub(crate) fn form_of(word: &str) -> Option<Form>
    ensures { result ≡ form_of word.now }
{
    if word == "csv" {
        Some(Form::Csv)
    } else if word == "table" {
        Some(Form::Table)
    } else if word == "json" {
        Some(Form::Json)
    } else if word == "jsonl" {
        Some(Form::JsonLines)
    } else {
        None
    }
}
