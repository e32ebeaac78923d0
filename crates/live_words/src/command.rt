ghost use Rattle.std.specs.Prelude.{◌≡◌, ◌≤◌, ◌+◌, ◌<◌, IfOk, IfSome, drop, length};
ghost use Rattle.kql_cells.specs.Values.{IsMoment};
ghost use Rattle.kql_words.specs.Command.{texts};
ghost use Rattle.live_words.specs.LiveReaders.{AreReaders};
ghost use Rattle.live_words.specs.LiveWords.{AreLivePaths, live_asked, live_of};

use crate::options::{LiveOptions, read_options};
use crate::paths::check_paths;
use kql_words::Refusal;

/// What `live` asks for.
#[derive(Clone, Copy, Debug)]
pub struct LiveAsked {
    /// The number of the word QUERY, from 0. The next word is NAME=PATH, and those behind it are further paths.
    pub query: usize,
    /// What the options in front of QUERY say.
    pub options: LiveOptions,
}

/// What the words of `live` ask for, or their first fault.
#[tactic(auto, unfolding(crate::specs::LiveWords::live_of))]
pub fn read_live(words: &[String]) -> Result<LiveAsked, Refusal>
    ensures read { result ≡ live_of (texts words.now) }
    ensures within { IfOk result (λ a. a.query < length words.now) }
    ensures paths { IfOk result (λ a. AreLivePaths (texts (drop (a.query + 1) words.now))) }
    ensures few { IfOk result (λ a. length words.now ≤ a.query + 65) }
    ensures readers { IfOk result (λ a. AreReaders a.options.readers) }
    ensures moment { IfOk result (λ a. IfSome a.options.moment IsMoment) }
{
    match words {
        [] => Err(Refusal::Usage { word: 0, code: 601 }),
        [command, rest @ ..] => {
            if command.as_str() == "live" {
                read_asked(rest)
            } else {
                Err(Refusal::Usage { word: 0, code: 602 })
            }
        }
    }
}

// What the words behind `live` ask for.
#[tactic(auto, unfolding(crate::specs::LiveWords::live_asked))]
fn read_asked(words: &[String]) -> Result<LiveAsked, Refusal>
    ensures read { result ≡ live_asked (texts words.now) }
    ensures within { IfOk result (λ a. a.query ≤ length words.now) }
    ensures paths { IfOk result (λ a. AreLivePaths (texts (drop a.query words.now))) }
    ensures few { IfOk result (λ a. length words.now ≤ a.query + 64) }
    ensures readers { IfOk result (λ a. AreReaders a.options.readers) }
    ensures moment { IfOk result (λ a. IfSome a.options.moment IsMoment) }
{
    let asked = read_options(words)?;
    check_paths(&words[asked.query..], asked.query as u32 + 1)?;
    Ok(asked)
}
