//! The words of a command of the shell: options and files in any order.

ghost use Rattle.std.specs.Prelude.{◌≡◌, ◌-◌, ◌≤◌, ◌^◌, ◌++◌, ◌∷◌, [], Ok, length, min};
ghost use Rattle.kql_words.specs.Command.{texts};
ghost use Rattle.kql_words.specs.declared.refusal.Refusal.TheVariants.{Usage};
ghost use Rattle.kql_shell.specs.Marks.{mark_of};
ghost use Rattle.kql_shell.specs.Asked.{Reads, finished, is_given, nothing, optioned, request_of, taken, valued, whole, with_files, with_one_file, with_query, with_file, with_value, worded, words_behind};
ghost use Rattle.kql_shell.specs.declared.request.Stop.TheVariants as stop;

use crate::marks::{Mark, form_of, is_option, mark_of, takes};
use crate::request::{Part, Request, Stop, Verb};
use kql_items::Items;
use kql_words::Refusal;
use std::alloc::Global;

// What is read so far, and the option whose value is the next word.
#[derive(Debug, Drop)]
struct Reader {
    verb: Verb,
    request: Request,
    due: Option<Mark>,
}

/// What the words of this command ask for, or their first fault.
#[tactic(auto, unfolding(crate::specs::Asked::request_of))]
pub fn read_request(alloc: Global, verb: Verb, words: &[String]) -> Result<Request, Stop>
    ensures read { Reads (request_of verb (texts words.now)) result }
{
    let mut reader = Reader {
        verb,
        request: nothing(alloc),
        due: None,
    };
    let mut left = words_behind(verb, words);
    let mut number = words.len() - left.len();
    'words: while let Some((word, more)) = left.split_first() {
        reader = reader.take(number, word.as_str())?;
        number += 1;
        left = more;
    }
    reader.finish(words.len())
}

// Nothing is asked for yet.
fn nothing(alloc: Global) -> Request
    ensures { result ≡ nothing }
{
    Request {
        parts: Items::new(alloc),
        files: Items::new(alloc),
        form: None,
        moment: None,
        workers: None,
        limit: None,
        catalogue: None,
        types: None,
        shows_all: false,
        writes: false,
    }
}

// The words behind the command's.
fn words_behind(verb: Verb, words: &[String]) -> &[String]
    ensures words { texts result.now ≡ words_behind verb (texts words.now) }
    ensures within { length result.now ≤ length words.now }
{
    match verb {
        Verb::Answer => words,
        Verb::Show | Verb::Schema | Verb::Types => match words {
            [] => words,
            [_, rest @ ..] => rest,
        },
    }
}

impl Reader {
    // The next word.
    #[tactic(auto, unfolding(crate::specs::Asked::taken))]
    fn take(self, number: usize, word: &str) -> Result<Reader, Stop>
        ensures { Reads (taken number word.now self) result }
    {
        match self.due {
            Some(mark) => self.value(mark, number, word),
            None => self.word(number, word),
        }
    }

    // A word that is no value.
    #[tactic(auto, unfolding(crate::specs::Asked::worded))]
    fn word(self, number: usize, word: &str) -> Result<Reader, Stop>
        ensures { Reads (worded number word.now (mark_of word.now) self) result }
    {
        match mark_of(word) {
            Some(mark) => self.option(mark, number),
            None => {
                if is_option(word) {
                    return Err(refused(number, 603));
                }
                self.file(number)
            }
        }
    }

    // The word of a file.
    fn file(mut self, number: usize) -> Result<Reader, Stop>
        ensures { Reads (Ok (with_file number self)) result }
    {
        match self.request.files.push(number) {
            Ok(()) => Ok(self),
            Err(_) => Err(Stop::OutOfMemory),
        }
    }

    // An option's name.
    #[tactic(auto, unfolding(crate::specs::Asked::optioned))]
    fn option(mut self, mark: Mark, number: usize) -> Result<Reader, Stop>
        ensures { Reads (optioned number mark self) result }
    {
        if !takes(self.verb, mark) {
            return Err(refused(number, 603));
        }
        if is_given(&self.request, mark) {
            return Err(refused(number, 604));
        }
        match mark {
            Mark::All => self.request.shows_all = true,
            Mark::Write => self.request.writes = true,
            Mark::Types => self.request.types = Some(number),
            Mark::Text
            | Mark::File
            | Mark::Form
            | Mark::Moment
            | Mark::Workers
            | Mark::Limit
            | Mark::Catalogue => self.due = Some(mark),
        }
        Ok(self)
    }

    // The value of an option.
    #[tactic(auto, unfolding(crate::specs::Asked::valued))]
    fn value(self, mark: Mark, number: usize, word: &str) -> Result<Reader, Stop>
        ensures { Reads (valued number mark word.now self) result }
    {
        if is_option(word) {
            return Err(refused(number, 605));
        }
        let Reader {
            verb,
            request,
            due: _,
        } = self;
        match with_value(request, mark, number, word) {
            Ok(request) => Ok(Reader {
                verb,
                request,
                due: None,
            }),
            Err(stop) => Err(stop),
        }
    }

    // What the words ask for, of which there are so many.
    #[tactic(auto, unfolding(crate::specs::Asked::finished))]
    fn finish(self, count: usize) -> Result<Request, Stop>
        ensures { Reads (finished count self) result }
    {
        let Reader { verb, request, due } = self;
        if due.is_some() {
            return Err(refused(count, 605));
        }
        match verb {
            Verb::Answer | Verb::Show => with_query(request, count),
            Verb::Schema => with_files(request, count),
            Verb::Types => with_one_file(request, count),
        }
    }
}

// Whether an option that may stand once stood before.
fn is_given(request: &Request, mark: Mark) -> bool
    ensures { result ≡ is_given request.now mark }
{
    match mark {
        Mark::Text | Mark::File => false,
        Mark::Form => request.form.is_some(),
        Mark::Moment => request.moment.is_some(),
        Mark::Workers => request.workers.is_some(),
        Mark::Limit => request.limit.is_some(),
        Mark::Catalogue => request.catalogue.is_some(),
        Mark::Types => request.types.is_some(),
        Mark::All => request.shows_all,
        Mark::Write => request.writes,
    }
}

// A request with the value of an option.
#[tactic(auto, unfolding(crate::specs::Asked::with_value))]
fn with_value(mut request: Request, mark: Mark, number: usize, word: &str) -> Result<Request, Stop>
    ensures { Reads (with_value number mark word.now request) result }
{
    match mark {
        Mark::Text => with_part(request, Part::Text(number)),
        Mark::File => with_part(request, Part::File(number)),
        Mark::Moment => {
            request.moment = Some(number);
            Ok(request)
        }
        Mark::Workers => {
            request.workers = Some(number);
            Ok(request)
        }
        Mark::Limit => {
            request.limit = Some(number);
            Ok(request)
        }
        Mark::Catalogue => {
            request.catalogue = Some(number);
            Ok(request)
        }
        Mark::Form | Mark::Types | Mark::All | Mark::Write => match form_of(word) {
            Some(form) => {
                request.form = Some(form);
                Ok(request)
            }
            None => Err(refused(number, 605)),
        },
    }
}

// A request with a part of the query more.
fn with_part(mut request: Request, part: Part) -> Result<Request, Stop>
    ensures { Reads (Ok (record request { parts = request.parts ++ part ∷ [] })) result }
{
    match request.parts.push(part) {
        Ok(()) => Ok(request),
        Err(_) => Err(Stop::OutOfMemory),
    }
}

// Without a part of the query the first file is the query.
fn with_query(mut request: Request, count: usize) -> Result<Request, Stop>
    ensures { Reads (with_query count request) result }
{
    if !request.parts.is_empty() {
        return Ok(request);
    }
    if request.files.is_empty() {
        return Err(refused(count, 606));
    }
    let number = request.files.remove(0);
    with_part(request, Part::File(number))
}

// There is a file.
fn with_files(request: Request, count: usize) -> Result<Request, Stop>
    ensures { Reads (with_files count request request.files) result }
{
    if request.files.is_empty() {
        return Err(refused(count, 607));
    }
    Ok(request)
}

// There is one file.
fn with_one_file(request: Request, count: usize) -> Result<Request, Stop>
    ensures { Reads (with_one_file count request request.files) result }
{
    match request.files.as_slice() {
        [] => Err(refused(count, 607)),
        [_] => Ok(request),
        [_, second, ..] => Err(refused(*second, 610)),
    }
}

fn refused(number: usize, code: u32) -> Stop
    ensures { result ≡ stop.Refused (Usage (min number (2 ^ 32 - 1)) code) }
{
    Stop::Refused(Refusal::Usage {
        word: number.min(u32::MAX as usize) as u32,
        code,
    })
}
