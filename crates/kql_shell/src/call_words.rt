ghost use Rattle.std.specs.Prelude.{◌≡◌, ◌++◌, ◌∷◌, [], IfOk, MatchOption, None, OnOk, Some, flat_map, slice_get, string_bytes};
ghost use Rattle.kql_words.specs.Command.{texts};
ghost use Rattle.kql_shell.specs.RunTexts.{file_number, file_word, flag, flag_numbers, option_numbers, option_pair, run_numbers, run_texts};

use crate::names::table_word;
use crate::request::Request;
use std::alloc::{AllocError, Global};

/// The words of `run`, and for each the number of the word that it comes from.
#[derive(Debug, Drop)]
pub struct RunWords {
    pub words: Vec<String>,
    pub origins: Vec<usize>,
}

impl RunWords {
    fn push(&mut self, word: String, origin: usize) -> Result<(), AllocError>
        ensures words { OnOk result (texts self.new.words.items ≡ texts self.old.words.items ++ string_bytes word ∷ []) }
        ensures origins { OnOk result (self.new.origins.items ≡ self.old.origins.items ++ origin ∷ []) }
    {
        self.words.push(word)?;
        self.origins.push(origin)?;
        Ok(())
    }
}

/// The words of `run` for a request that these words are, whose query has this path.
#[tactic(auto, unfolding(crate::specs::RunTexts::run_texts, crate::specs::RunTexts::run_numbers))]
pub fn run_words(
    alloc: Global,
    words: &[String],
    request: &Request,
    query: &str,
) -> Result<RunWords, AllocError>
    ensures words { IfOk result (λ made. texts made.words.items ≡ run_texts (texts words.now) request.now query.now) }
    ensures origins { IfOk result (λ made. made.origins.items ≡ run_numbers (texts words.now) request.now) }
{
    let mut made = RunWords {
        words: Vec::new(alloc),
        origins: Vec::new(alloc),
    };
    made.push(String::from_str(alloc, "run")?, 0)?;
    push_option(alloc, &mut made, "--workers", words, request.workers)?;
    push_option(alloc, &mut made, "--now", words, request.moment)?;
    push_option(alloc, &mut made, "--limit", words, request.limit)?;
    push_option(alloc, &mut made, "--catalogue", words, request.catalogue)?;
    push_flag(alloc, &mut made, "--types", request.types)?;
    made.push(String::from_str(alloc, query)?, 0)?;
    push_files(alloc, &mut made, words, request.files.as_slice())?;
    Ok(made)
}

// An option and its value, where it is given.
#[tactic(auto, using(crate::proofs::RunFacts::option_facts))]
fn push_option(
    alloc: Global,
    made: &mut RunWords,
    name: &str,
    words: &[String],
    given: Option<usize>,
) -> Result<(), AllocError>
    ensures words { OnOk result (texts made.new.words.items ≡ texts made.old.words.items ++ option_pair (texts words.now) name.now given) }
    ensures origins { OnOk result (made.new.origins.items ≡ made.old.origins.items ++ option_numbers (texts words.now) given) }
{
    let Some(number) = given else {
        return Ok(());
    };
    match word_at(words, number) {
        Some(word) => push_pair(alloc, made, name, word, number),
        None => Ok(()),
    }
}

// The word of a number.
fn word_at(words: &[String], number: usize) -> Option<&str>
    ensures { MatchOption result (slice_get (texts words.now) number ≡ None) (λ w. slice_get (texts words.now) number ≡ Some w.now) }
{
    if number < words.len() {
        Some(words[number].as_str())
    } else {
        None
    }
}

// An option and its value, which come from the word of a number.
fn push_pair(
    alloc: Global,
    made: &mut RunWords,
    name: &str,
    value: &str,
    number: usize,
) -> Result<(), AllocError>
    ensures words { OnOk result (texts made.new.words.items ≡ texts made.old.words.items ++ name.now ∷ value.now ∷ []) }
    ensures origins { OnOk result (made.new.origins.items ≡ made.old.origins.items ++ number ∷ number ∷ []) }
{
    made.push(String::from_str(alloc, name)?, number)?;
    made.push(String::from_str(alloc, value)?, number)
}

// An option without a value, where it is given.
fn push_flag(
    alloc: Global,
    made: &mut RunWords,
    name: &str,
    given: Option<usize>,
) -> Result<(), AllocError>
    ensures words { OnOk result (texts made.new.words.items ≡ texts made.old.words.items ++ flag name.now given) }
    ensures origins { OnOk result (made.new.origins.items ≡ made.old.origins.items ++ flag_numbers given) }
{
    match given {
        Some(number) => made.push(String::from_str(alloc, name)?, number),
        None => Ok(()),
    }
}

// The words NAME=PATH of the files.
fn push_files(
    alloc: Global,
    made: &mut RunWords,
    words: &[String],
    files: &[usize],
) -> Result<(), AllocError>
    ensures words { OnOk result (texts made.new.words.items ≡ texts made.old.words.items ++ flat_map (file_word (texts words.now)) files.now) }
    ensures origins { OnOk result (made.new.origins.items ≡ made.old.origins.items ++ flat_map (file_number (texts words.now)) files.now) }
{
    for number in files {
        push_file(alloc, made, words, *number)?;
    }
    Ok(())
}

// The word NAME=PATH of a file.
#[tactic(auto, using(crate::proofs::RunFacts::option_facts))]
fn push_file(
    alloc: Global,
    made: &mut RunWords,
    words: &[String],
    number: usize,
) -> Result<(), AllocError>
    ensures words { OnOk result (texts made.new.words.items ≡ texts made.old.words.items ++ file_word (texts words.now) number) }
    ensures origins { OnOk result (made.new.origins.items ≡ made.old.origins.items ++ file_number (texts words.now) number) }
{
    match word_at(words, number) {
        Some(word) => made.push(table_word(alloc, word)?, number),
        None => Ok(()),
    }
}
