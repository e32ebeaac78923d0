//! The options of `live`, in front of QUERY.
ghost use Rattle.std.specs.Prelude.{◌≡◌, ◌≤◌, ◌<◌, ◌+◌, length, IfOk, IfSome};
ghost use Rattle.kql_cells.specs.Values.{IsMoment};
ghost use Rattle.kql_words.specs.Command.{texts};
ghost use Rattle.kql_words.specs.Options.{is_option};
ghost use Rattle.live_words.specs.LiveOptionWords.{IfGiven, due, flagged, is_due, live_at, live_from, live_options_after, missing_code, no_live_options, readers_in, valued, with_moment, with_readers, with_view, with_watch, words_in};
ghost use Rattle.live_words.specs.LiveReaders.{AreReaders};

use crate::command::LiveAsked;
use kql_cells::read_long;
use kql_ticks::read_moment;
use kql_words::Refusal;

/// How many readers a command may ask for, and how many it has where it asks for none.
const READERS_TOP: i64 = 8;

const READERS_UNGIVEN: u32 = 2;

/// What the options of `live` say.
#[derive(Clone, Copy, Debug)]
pub struct LiveOptions {
    /// How many readers ask the query, 1 to 8.
    pub readers: u32,
    /// The moment that `now()` stands for, in ticks and in the range of a datetime, where one is given.
    pub moment: Option<i64>,
    /// Whether each answer that differs from the one before is shown.
    pub watch: bool,
    /// Whether readers take snapshots of a view, which keeps groups in the place of rows.
    pub view: bool,
}

/// What is known of an option with a value.
#[derive(Clone, Copy, Debug, PartialEq, Eq)]
pub(crate) enum Given<T> {
    /// It was not given.
    Missing,
    /// Its value has to be the next word.
    Due,
    /// It has this value.
    Is(T),
}

/// The options so far.
#[derive(Clone, Copy, Debug)]
pub(crate) struct SoFar {
    pub readers: Given<u32>,
    pub moment: Given<i64>,
    pub watch: bool,
    pub view: bool,
}

/// What the words behind `live` ask for, up to QUERY: the words in front of it are options.
#[tactic(auto, unfolding(crate::specs::LiveOptionWords::live_from))]
pub(crate) fn read_options(words: &[String]) -> Result<LiveAsked, Refusal>
    ensures read { result ≡ live_from 1 no_live_options (texts words.now) }
    ensures first { IfOk result (λ c. (1 ≤ c.query) × (c.query ≤ 7)) }
    ensures within { IfOk result (λ c. c.query ≤ length words.now) }
    ensures moment { IfOk result (λ c. IfSome c.options.moment IsMoment) }
    ensures readers { IfOk result (λ c. AreReaders c.options.readers) }
{
    let mut options = SoFar {
        readers: Given::Missing,
        moment: Given::Missing,
        watch: false,
        view: false,
    };
    let mut number = 1u32;
    let mut left = words;
    'words: while let Some((word, more)) = left.split_first() {
        let Some(next) = options_after(options, word.as_str(), number)? else {
            return Ok(asked_at(options, number));
        };
        options = next;
        number += 1;
        left = more;
    }
    Err(Refusal::Usage {
        word: number,
        code: missing_code(options),
    })
}

fn asked_at(options: SoFar, number: u32) -> LiveAsked
    ensures asked { result ≡ live_at number options }
    ensures readers { IfGiven AreReaders options.readers → AreReaders result.options.readers }
{
    let readers = match options.readers {
        Given::Is(n) => n,
        _ => READERS_UNGIVEN,
    };
    let moment = match options.moment {
        Given::Is(x) => Some(x),
        _ => None,
    };
    LiveAsked {
        query: number as usize,
        options: LiveOptions {
            readers,
            moment,
            watch: options.watch,
            view: options.view,
        },
    }
}

// The code of a word that is missing behind the last one.
fn missing_code(options: SoFar) -> u32
    ensures { result ≡ missing_code options }
{
    if is_due(&options.readers) || is_due(&options.moment) {
        605
    } else {
        606
    }
}

// What the word of a number makes of the options before it; none where it is no part of them.
#[tactic(auto, unfolding(crate::specs::LiveOptionWords::live_options_after))]
fn options_after(options: SoFar, word: &str, number: u32) -> Result<Option<SoFar>, Refusal>
    ensures after { result ≡ live_options_after number options word.now }
    ensures counted { IfOk result (λ next. IfSome next (λ o. words_in o ≡ words_in options + 1)) }
    ensures moment { IfGiven IsMoment options.moment → IfOk result (λ next. IfSome next (λ o. IfGiven IsMoment o.moment)) }
    ensures readers { IfGiven AreReaders options.readers → IfOk result (λ next. IfSome next (λ o. IfGiven AreReaders o.readers)) }
{
    if is_due(&options.readers) {
        with_readers(options, valued(readers_in(word), number))
    } else if is_due(&options.moment) {
        with_moment(options, valued(read_moment(word), number))
    } else if word == "--readers" {
        with_readers(options, due(&options.readers, number))
    } else if word == "--now" {
        with_moment(options, due(&options.moment, number))
    } else if word == "--watch" {
        with_watch(options, flagged(options.watch, number))
    } else if word == "--view" {
        with_view(options, flagged(options.view, number))
    } else if is_option(word) {
        Err(Refusal::Usage {
            word: number,
            code: 603,
        })
    } else {
        Ok(None)
    }
}

fn with_readers(
    options: SoFar,
    readers: Result<Given<u32>, Refusal>,
) -> Result<Option<SoFar>, Refusal>
    ensures { result ≡ with_readers options readers }
{
    let readers = readers?;
    Ok(Some(SoFar { readers, ..options }))
}

fn with_moment(
    options: SoFar,
    moment: Result<Given<i64>, Refusal>,
) -> Result<Option<SoFar>, Refusal>
    ensures { result ≡ with_moment options moment }
{
    let moment = moment?;
    Ok(Some(SoFar { moment, ..options }))
}

fn with_watch(options: SoFar, watch: Result<bool, Refusal>) -> Result<Option<SoFar>, Refusal>
    ensures { result ≡ with_watch options watch }
{
    let watch = watch?;
    Ok(Some(SoFar { watch, ..options }))
}

fn with_view(options: SoFar, view: Result<bool, Refusal>) -> Result<Option<SoFar>, Refusal>
    ensures { result ≡ with_view options view }
{
    let view = view?;
    Ok(Some(SoFar { view, ..options }))
}

fn is_due<T>(given: &Given<T>) -> bool
    ensures { result ≡ is_due given.now }
{
    matches!(given, Given::Due)
}

// At the name of an option: its value is due.
fn due<T>(before: &Given<T>, number: u32) -> Result<Given<T>, Refusal>
    ensures { result ≡ due number before.now }
{
    match before {
        Given::Missing => Ok(Given::Due),
        _ => Err(Refusal::Usage {
            word: number,
            code: 604,
        }),
    }
}

// At the name of an option without a value.
fn flagged(before: bool, number: u32) -> Result<bool, Refusal>
    ensures { result ≡ flagged number before }
{
    if before {
        Err(Refusal::Usage {
            word: number,
            code: 604,
        })
    } else {
        Ok(true)
    }
}

fn valued<T>(value: Option<T>, number: u32) -> Result<Given<T>, Refusal>
    ensures { result ≡ valued number value }
{
    match value {
        Some(x) => Ok(Given::Is(x)),
        None => Err(Refusal::Usage {
            word: number,
            code: 605,
        }),
    }
}

/// The number of readers that a word writes.
#[tactic(auto, unfolding(crate::specs::LiveOptionWords::readers_in))]
fn readers_in(word: &str) -> Option<u32>
    ensures number { result ≡ readers_in word.now }
    ensures few { IfSome result AreReaders }
{
    let n = read_long(word)?;
    if 1 <= n && n <= READERS_TOP {
        Some(n as u32)
    } else {
        None
    }
}

// Whether a word begins as the name of an option.
fn is_option(word: &str) -> bool
    ensures { result ≡ is_option word.now }
{
    word.as_bytes().starts_with(b"--")
}
