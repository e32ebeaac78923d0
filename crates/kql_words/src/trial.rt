//! The words behind `trial`: ROWS, SEED, and then `--workers N` or nothing.
ghost use Rattle.std.specs.Prelude.{◌≡◌, ◌≤◌, ◌==◌, IfOk, IfSome, slice_index};
ghost use Rattle.kql_words.specs.Command.{texts};
ghost use Rattle.kql_words.specs.Options.{AreWorkers};
ghost use Rattle.kql_words.specs.declared.refusal.Refusal.TheVariants as usage;
ghost use Rattle.kql_words.specs.Sizes.{count_in};
ghost use Rattle.kql_words.specs.TrialWords.{counted, end_of, rows_in, seed_of, trial_of, workers_given, workers_of};

use crate::options::{is_option, workers_in};
use crate::refusal::Refusal;

/// How many rows a trial may have.
pub const ROWS_TOP: u64 = 1_000_000;

/// What `trial` asks for.
#[derive(Clone, Copy, Debug)]
pub struct Trial {
    /// How many rows the log has, up to 1,000,000.
    pub rows: u32,
    /// The state that the log's recurrence begins with.
    pub seed: u64,
    /// How many workers are asked for, 1 to 64, where a number is given.
    pub workers: Option<u32>,
}

/// The trial that the words behind `trial` ask for, or their first fault.
#[tactic(auto, unfolding(crate::specs::TrialWords::trial_of))]
pub(crate) fn read_trial(words: &[String]) -> Result<Trial, Refusal>
    ensures read { result ≡ trial_of (texts words.now) }
    ensures workers { IfOk result (λ t. IfSome t.workers AreWorkers) }
{
    match words {
        [] => Err(refused(1, 609)),
        [rows, more @ ..] => {
            let rows = counted(rows_in(rows.as_str()), 1, 609)?;
            read_seed(rows, more)
        }
    }
}

// The words behind ROWS.
#[tactic(auto, unfolding(crate::specs::TrialWords::seed_of))]
fn read_seed(rows: u32, words: &[String]) -> Result<Trial, Refusal>
    ensures read { result ≡ seed_of rows (texts words.now) }
    ensures workers { IfOk result (λ t. IfSome t.workers AreWorkers) }
{
    match words {
        [] => Err(refused(2, 609)),
        [seed, more @ ..] => {
            let seed = counted(count_in(seed.as_str()), 2, 609)?;
            let workers = read_workers(more)?;
            Ok(Trial {
                rows,
                seed,
                workers,
            })
        }
    }
}

// The words behind SEED.
#[tactic(auto, unfolding(crate::specs::TrialWords::workers_of))]
fn read_workers(words: &[String]) -> Result<Option<u32>, Refusal>
    ensures read { result ≡ workers_of (texts words.now) }
    ensures workers { IfOk result (λ n. IfSome n AreWorkers) }
{
    match words {
        [] => Ok(None),
        [word, more @ ..] => {
            if word.as_str() == "--workers" {
                read_given(more)
            } else if is_option(word.as_str()) {
                Err(refused(3, 603))
            } else {
                Err(refused(3, 610))
            }
        }
    }
}

// The words behind `--workers`.
#[tactic(auto, unfolding(crate::specs::TrialWords::workers_given))]
fn read_given(words: &[String]) -> Result<Option<u32>, Refusal>
    ensures read { result ≡ workers_given (texts words.now) }
    ensures workers { IfOk result (λ n. IfSome n AreWorkers) }
{
    match words {
        [] => Err(refused(4, 605)),
        [workers, more @ ..] => {
            let workers = counted(workers_in(workers.as_str()), 4, 605)?;
            read_end(workers, more)
        }
    }
}

// The words behind the number of workers, where none may stand.
#[tactic(auto, unfolding(crate::specs::TrialWords::end_of))]
fn read_end(workers: u32, words: &[String]) -> Result<Option<u32>, Refusal>
    requires workers { AreWorkers workers }
    ensures read { result ≡ end_of workers (texts words.now) }
    ensures workers { IfOk result (λ n. IfSome n AreWorkers) }
{
    match words {
        [] => Ok(Some(workers)),
        [word, ..] => {
            if word.as_str() == "--workers" {
                Err(refused(5, 604))
            } else if is_option(word.as_str()) {
                Err(refused(5, 603))
            } else {
                Err(refused(5, 610))
            }
        }
    }
}

fn refused(word: u32, code: u32) -> Refusal
    ensures { result ≡ usage.Usage word code }
{
    Refusal::Usage { word, code }
}

// A number that the word of this number writes.
fn counted<T>(value: Option<T>, word: u32, code: u32) -> Result<T, Refusal>
    ensures { result ≡ counted word code value }
{
    match value {
        Some(x) => Ok(x),
        None => Err(refused(word, code)),
    }
}

// The number of rows that a word writes.
#[tactic(auto, unfolding(crate::specs::TrialWords::rows_in))]
fn rows_in(word: &str) -> Option<u32>
    ensures { result ≡ rows_in word.now }
{
    let n = count_in(word)?;
    if n <= ROWS_TOP { Some(n as u32) } else { None }
}

// The number that a word writes in digits.
#[tactic(auto, using(crate::proofs::TrialFacts::count_facts))]
pub(crate) fn count_in(word: &str) -> Option<u64>
    ensures { result ≡ count_in word.now }
{
    if begins_with_plus(word) {
        return None;
    }
    word.parse::<u64>().ok()
}

fn begins_with_plus(word: &str) -> bool
    ensures { result ≡ (slice_index word.now 0 == 43) }
{
    match word.as_bytes().first() {
        Some(byte) => *byte == b'+',
        None => false,
    }
}
