ghost use Rattle.std.specs.Prelude.{◌≡◌, ◌≤◌, ◌<◌, ◌+◌, [], true, false, drop, length, map, IfOk, IfSome, MatchOption, OnOk};
ghost use Rattle.std.specs.List.{list_any};
ghost use Rattle.std.specs.Str.{bytes_eq};
ghost use Rattle.kql_cells.specs.Values.{IsMoment};
ghost use Rattle.kql_words.specs.Command.{AreTables, IfAsks, asked_of, command_of, name_in, names_table, path_in, table_faults, tables_faults, texts, workers_of};
ghost use Rattle.kql_words.specs.Options.{AreWorkers};
ghost use Rattle.kql_words.specs.Refusals.{unless};
ghost use Rattle.kql_words.specs.Sizes.{size_top};

use crate::options::{Options, read_options};
use crate::refusal::Refusal;
use crate::trial::{Trial, read_trial};
use kql_lexer::{is_reserved, is_word};

/// How many tables a command may name.
const TABLES_TOP: usize = 64;

/// What a query's command asks for.
#[derive(Clone, Copy, Debug)]
pub struct Asked {
    /// The number of the word QUERY, from 0; the words behind it name tables.
    pub query: usize,
    /// What the options in front of QUERY say.
    pub options: Options,
}

/// The words of a command that has no fault.
#[derive(Clone, Copy, Debug)]
pub enum Command {
    /// `run`: the table of a query.
    Run(Asked),
    /// `plain`: the same, operator by operator on one thread.
    Plain(Asked),
    /// `explain`: the plan by which `run` answers.
    Explain(Asked),
    /// `trial`: the stored queries over a log that a seed makes up.
    Trial(Trial),
}

/// The command that the words are, or their first fault.
#[tactic(auto, unfolding(crate::specs::Command::command_of))]
pub fn read_command(words: &[String]) -> Result<Command, Refusal>
    ensures read { result ≡ command_of (texts words.now) }
    ensures within { IfOk result (IfAsks (λ a. a.query < length words.now)) }
    ensures tables { IfOk result (IfAsks (λ a. AreTables (texts (drop (a.query + 1) words.now)))) }
    ensures moment { IfOk result (IfAsks (λ a. IfSome a.options.moment IsMoment)) }
    ensures limit { IfOk result (IfAsks (λ a. a.options.limit ≤ size_top)) }
    ensures catalogue { IfOk result (IfAsks (λ a. IfSome a.options.catalogue (λ k. k < length words.now))) }
    ensures workers { IfOk result (λ c. IfSome (workers_of c) AreWorkers) }
{
    match words {
        [] => Err(Refusal::Usage { word: 0, code: 601 }),
        [command, rest @ ..] => {
            if command.as_str() == "run" {
                Ok(Command::Run(read_asked(rest, true)?))
            } else if command.as_str() == "plain" {
                Ok(Command::Plain(read_asked(rest, true)?))
            } else if command.as_str() == "explain" {
                Ok(Command::Explain(read_asked(rest, false)?))
            } else if command.as_str() == "trial" {
                Ok(Command::Trial(read_trial(rest)?))
            } else {
                Err(Refusal::Usage { word: 0, code: 602 })
            }
        }
    }
}

// What the words behind `run`, `plain` or `explain` ask for, whether or not they may ask for types.
#[tactic(auto, unfolding(crate::specs::Command::asked_of))]
fn read_asked(words: &[String], may_have_types: bool) -> Result<Asked, Refusal>
    ensures read { result ≡ asked_of may_have_types (texts words.now) }
    ensures within { IfOk result (λ a. a.query ≤ length words.now) }
    ensures tables { IfOk result (λ a. AreTables (texts (drop a.query words.now))) }
    ensures moment { IfOk result (λ a. IfSome a.options.moment IsMoment) }
    ensures limit { IfOk result (λ a. a.options.limit ≤ size_top) }
    ensures catalogue { IfOk result (λ a. IfSome a.options.catalogue (λ k. k < 1 + length words.now)) }
    ensures workers { IfOk result (λ a. IfSome a.options.workers AreWorkers) }
{
    let asked = read_options(words, may_have_types)?;
    check_tables(&words[asked.query..], asked.query as u32 + 1)?;
    Ok(asked)
}

// The words NAME=PATH, of which the first has this number.
fn check_tables(words: &[String], first: u32) -> Result<(), Refusal>
    requires { first ≤ 11 }
    ensures checked { result ≡ unless (tables_faults first [] (texts words.now)) tt }
{
    for i in 0..words.len() {
        check_table(&words[..i], words[i].as_str(), i as u32 + first)?;
    }
    Ok(())
}

// The word of this number, behind other words of tables.
fn check_table(before: &[String], word: &str, number: u32) -> Result<(), Refusal>
    ensures checked { result ≡ unless (table_faults number (map name_in (texts before.now)) word.now) tt }
    ensures room { OnOk result (length before.now < 64) }
{
    let Some((name, _path)) = table_parts(word) else {
        return Err(Refusal::Usage {
            word: number,
            code: 607,
        });
    };
    if has_name(before, name) {
        return Err(Refusal::Usage {
            word: number,
            code: 608,
        });
    }
    if before.len() >= TABLES_TOP {
        return Err(Refusal::Usage {
            word: number,
            code: 610,
        });
    }
    Ok(())
}

/// The name and the path of a word NAME=PATH, or none where it names no table.
pub fn table_parts(word: &str) -> Option<(&str, &str)>
    ensures parts { MatchOption result (names_table word.now ≡ false)
        (λ parts. (names_table word.now ≡ true) × (parts.0.now ≡ name_in word.now) × (parts.1.now ≡ path_in word.now)) }
{
    let Some((name, path)) = word.split_once('=') else {
        return None;
    };
    if is_word(name) && !is_reserved(name) && !path.is_empty() {
        Some((name, path))
    } else {
        None
    }
}

// Whether a word of these has the name.
fn has_name(words: &[String], name: &str) -> bool
    ensures { result ≡ list_any (bytes_eq name.now) (map name_in (texts words.now)) }
{
    for word in words {
        if name == name_of(word.as_str()) {
            return true;
        }
    }
    false
}

// What stands before the first `=` of a word.
fn name_of(word: &str) -> &str
    ensures { result.now ≡ name_in word.now }
{
    match word.split_once('=') {
        Some((name, _path)) => name,
        None => word,
    }
}
