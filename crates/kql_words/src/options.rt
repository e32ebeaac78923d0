//! The options of a command, in front of QUERY.
ghost use Rattle.std.specs.Prelude.{◌≡◌, ◌≤◌, ◌<◌, ◌+◌, ℕ, length, IfOk, IfSome};
ghost use Rattle.kql_cells.specs.Values.{IsMoment};
ghost use Rattle.kql_words.specs.Command.{texts};
ghost use Rattle.kql_words.specs.Options.{AreWorkers, IfGiven, asked_at, asked_from, due, flagged, is_due, is_option, missing_code, no_options, options_after, path_at, valued, with_catalogue, with_limit, with_moment, with_types, with_workers, words_in, workers_in};
ghost use Rattle.kql_words.specs.Sizes.{size_top};

use crate::command::Asked;
use crate::refusal::Refusal;
use crate::size::size_in;
use kql_cells::read_long;
use kql_ticks::read_moment;

/// How many workers a command may ask for.
const WORKERS_TOP: i64 = 64;

/// How many bytes table files may have together where no limit is given.
const LIMIT_UNGIVEN: u64 = 67_108_864;

/// What the options of a command say.
#[derive(Clone, Copy, Debug)]
pub struct Options {
    /// How many workers are asked for, 1 to 64, where a number is given.
    pub workers: Option<u32>,
    /// The moment that `now()` stands for, in ticks and in the range of a datetime, where one is given.
    pub moment: Option<i64>,
    /// How many bytes the table files may have together, up to 1 TiB.
    pub limit: u64,
    /// The number of the word that is the path of the catalogue file, from 0, where one is given; it is not empty.
    pub catalogue: Option<usize>,
    /// Whether the header of the answer has the types of its columns.
    pub types: bool,
}

/// What is known of an option with a value.
#[derive(Clone, Copy, Debug, PartialEq, Eq)]
pub(crate) enum Given<T> {
    /// It was not given.
    Missing,
    /// Its value has to be the next word.
    Due,
    /// It has this value.
    Is(T),
}

/// The options so far.
#[derive(Clone, Copy, Debug)]
pub(crate) struct SoFar {
    pub workers: Given<u32>,
    pub moment: Given<i64>,
    pub limit: Given<u64>,
    pub catalogue: Given<usize>,
    pub types: bool,
}

/// What the words behind `run`, `plain` or `explain` ask for, up to QUERY: the words in front of it are options.
#[tactic(auto, unfolding(crate::specs::Options::asked_from))]
pub(crate) fn read_options(words: &[String], may_have_types: bool) -> Result<Asked, Refusal>
    ensures read { result ≡ asked_from may_have_types 1 no_options (texts words.now) }
    ensures first { IfOk result (λ c. (1 ≤ c.query) × (c.query ≤ 10)) }
    ensures within { IfOk result (λ c. c.query ≤ length words.now) }
    ensures moment { IfOk result (λ c. IfSome c.options.moment IsMoment) }
    ensures limit { IfOk result (λ c. c.options.limit ≤ size_top) }
    ensures catalogue { IfOk result (λ c. IfSome c.options.catalogue (λ k. k < 1 + length words.now)) }
    ensures workers { IfOk result (λ c. IfSome c.options.workers AreWorkers) }
{
    let mut options = SoFar {
        workers: Given::Missing,
        moment: Given::Missing,
        limit: Given::Missing,
        catalogue: Given::Missing,
        types: false,
    };
    let mut number = 1u32;
    let mut left = words;
    'words: while let Some((word, more)) = left.split_first() {
        let Some(next) = options_after(options, word.as_str(), number, may_have_types)? else {
            return Ok(asked_at(options, number));
        };
        options = next;
        number += 1;
        left = more;
    }
    Err(Refusal::Usage {
        word: number,
        code: missing_code(options),
    })
}

fn asked_at(options: SoFar, number: u32) -> Asked
    ensures { result ≡ asked_at number options }
{
    let workers = match options.workers {
        Given::Is(n) => Some(n),
        _ => None,
    };
    let moment = match options.moment {
        Given::Is(x) => Some(x),
        _ => None,
    };
    let limit = match options.limit {
        Given::Is(n) => n,
        _ => LIMIT_UNGIVEN,
    };
    let catalogue = match options.catalogue {
        Given::Is(k) => Some(k),
        _ => None,
    };
    Asked {
        query: number as usize,
        options: Options {
            workers,
            moment,
            limit,
            catalogue,
            types: options.types,
        },
    }
}

// The code of a word that is missing behind the last one.
fn missing_code(options: SoFar) -> u32
    ensures { result ≡ missing_code options }
{
    if is_due(&options.workers)
        || is_due(&options.moment)
        || is_due(&options.limit)
        || is_due(&options.catalogue)
    {
        605
    } else {
        606
    }
}

// What the word of a number makes of the options before it; none where it is no part of them.
#[tactic(auto, unfolding(crate::specs::Options::options_after))]
fn options_after(
    options: SoFar,
    word: &str,
    number: u32,
    may_have_types: bool,
) -> Result<Option<SoFar>, Refusal>
    ensures after { result ≡ options_after may_have_types number options word.now }
    ensures counted { IfOk result (λ next. IfSome next (λ o. words_in o ≡ words_in options + 1)) }
    ensures moment { IfGiven IsMoment options.moment → IfOk result (λ next. IfSome next (λ o. IfGiven IsMoment o.moment)) }
    ensures limit { IfGiven (λ n. n ≤ size_top) options.limit → IfOk result (λ next. IfSome next (λ o. IfGiven (λ n. n ≤ size_top) o.limit)) }
    ensures catalogue { (bound : ℕ) → number < bound → IfGiven (λ k. k < bound) options.catalogue → IfOk result (λ next. IfSome next (λ o. IfGiven (λ k. k < bound) o.catalogue)) }
    ensures workers { IfGiven AreWorkers options.workers → IfOk result (λ next. IfSome next (λ o. IfGiven AreWorkers o.workers)) }
{
    if is_due(&options.workers) {
        with_workers(options, valued(workers_in(word), number))
    } else if is_due(&options.moment) {
        with_moment(options, valued(read_moment(word), number))
    } else if is_due(&options.limit) {
        with_limit(options, valued(size_in(word), number))
    } else if is_due(&options.catalogue) {
        with_catalogue(options, valued(path_at(word, number), number))
    } else if word == "--workers" {
        with_workers(options, due(&options.workers, number))
    } else if word == "--now" {
        with_moment(options, due(&options.moment, number))
    } else if word == "--limit" {
        with_limit(options, due(&options.limit, number))
    } else if word == "--catalogue" {
        with_catalogue(options, due(&options.catalogue, number))
    } else if word == "--types" && may_have_types {
        with_types(options, flagged(options.types, number))
    } else if is_option(word) {
        Err(Refusal::Usage {
            word: number,
            code: 603,
        })
    } else {
        Ok(None)
    }
}

fn with_workers(
    options: SoFar,
    workers: Result<Given<u32>, Refusal>,
) -> Result<Option<SoFar>, Refusal>
    ensures { result ≡ with_workers options workers }
{
    let workers = workers?;
    Ok(Some(SoFar { workers, ..options }))
}

fn with_moment(
    options: SoFar,
    moment: Result<Given<i64>, Refusal>,
) -> Result<Option<SoFar>, Refusal>
    ensures { result ≡ with_moment options moment }
{
    let moment = moment?;
    Ok(Some(SoFar { moment, ..options }))
}

fn with_limit(options: SoFar, limit: Result<Given<u64>, Refusal>) -> Result<Option<SoFar>, Refusal>
    ensures { result ≡ with_limit options limit }
{
    let limit = limit?;
    Ok(Some(SoFar { limit, ..options }))
}

fn with_catalogue(
    options: SoFar,
    catalogue: Result<Given<usize>, Refusal>,
) -> Result<Option<SoFar>, Refusal>
    ensures { result ≡ with_catalogue options catalogue }
{
    let catalogue = catalogue?;
    Ok(Some(SoFar {
        catalogue,
        ..options
    }))
}

fn with_types(options: SoFar, types: Result<bool, Refusal>) -> Result<Option<SoFar>, Refusal>
    ensures { result ≡ with_types options types }
{
    let types = types?;
    Ok(Some(SoFar { types, ..options }))
}

fn is_due<T>(given: &Given<T>) -> bool
    ensures { result ≡ is_due given.now }
{
    matches!(given, Given::Due)
}

// At the name of an option: its value is due.
fn due<T>(before: &Given<T>, number: u32) -> Result<Given<T>, Refusal>
    ensures { result ≡ due number before.now }
{
    match before {
        Given::Missing => Ok(Given::Due),
        _ => Err(Refusal::Usage {
            word: number,
            code: 604,
        }),
    }
}

// At the name of an option without a value.
fn flagged(before: bool, number: u32) -> Result<bool, Refusal>
    ensures { result ≡ flagged number before }
{
    if before {
        Err(Refusal::Usage {
            word: number,
            code: 604,
        })
    } else {
        Ok(true)
    }
}

fn valued<T>(value: Option<T>, number: u32) -> Result<Given<T>, Refusal>
    ensures { result ≡ valued number value }
{
    match value {
        Some(x) => Ok(Given::Is(x)),
        None => Err(Refusal::Usage {
            word: number,
            code: 605,
        }),
    }
}

// The number of a word that is a path: any but the empty one.
fn path_at(word: &str, number: u32) -> Option<usize>
    ensures path { result ≡ path_at number word.now }
    ensures here { IfSome result (λ k. k ≡ number) }
{
    if word.is_empty() {
        None
    } else {
        Some(number as usize)
    }
}

/// The number of workers that a word writes.
#[tactic(auto, unfolding(crate::specs::Options::workers_in))]
pub(crate) fn workers_in(word: &str) -> Option<u32>
    ensures number { result ≡ workers_in word.now }
    ensures few { IfSome result AreWorkers }
{
    let n = read_long(word)?;
    if 1 <= n && n <= WORKERS_TOP {
        Some(n as u32)
    } else {
        None
    }
}

/// Whether a word begins as the name of an option.
pub(crate) fn is_option(word: &str) -> bool
    ensures { result ≡ is_option word.now }
{
    word.as_bytes().starts_with(b"--")
}
