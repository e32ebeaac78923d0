ghost use Rattle.std.specs.Prelude.{◌≡◌, ◌≤◌, ◌<◌, ◌+◌, Err, IfOk, IfSome, Ok, drop, length};
ghost use Rattle.kql_cells.specs.Values.{IsMoment};
ghost use Rattle.kql_outside.specs.Causes.{Rose};
ghost use Rattle.kql_program.specs.Calls.{StopsAtRead, calls_now};
ghost use Rattle.kql_program.specs.Outcomes.{RefusesNoWord, SinkNow, outside, sink_now};
ghost use Rattle.kql_program.specs.Refusals.{Reaches};
ghost use Rattle.kql_program.specs.declared.refusal.Stop.TheVariants as stop;
ghost use Rattle.kql_words.specs.Command.{texts};
ghost use Rattle.live_words.specs.LiveReaders.{AreReaders};
ghost use Rattle.live_words.specs.LiveWords.{AreLivePaths, live_of};
ghost use Rattle.kql_live.specs.LiveAnswer.{AnswersLive, HasOneLiveAnswer, HasSeen, text_in};
ghost use Rattle.kql_live.specs.LiveCalls.{HeedsLiveFaults, LiveEndsAtWrite, LiveLineEndsAtWrite};
ghost use Rattle.kql_live.specs.LiveOutcomes.{HasLiveOutcome, WritesLive, WritesLiveStop};

use crate::bound::LiveDone;
use crate::ended::{LiveEnded, ending_of};
use crate::run::live_done;
use crate::steps::live_bound;
use kql_outside::{Gate, Shelf, Sink, write_all};
use kql_program::{Stop, line_of};
use kql_words::Refusal;
use live_words::{LiveAsked, read_live};
use std::alloc::Global;
use std::sync::Wait;
use std::thread::Threads;

const READ_FAULT_LINE: &str = "kql: read fault\n";

const MEMORY_LINE: &str = "kql: out of memory\n";

/// Answers the words of a live command: reads the query file and the files of the paths from `shelf`, lets the first table grow by the others while
/// readers ask the query, and writes the answer over all of them to `out`, or one line for a refusal to `err`.
///
/// The words, without the program's name, are `live`, then options in any order, each at most once, then QUERY, the path of the query file, then
/// NAME=PATH, the opening table, and up to 63 further paths, each a batch: a file of the same columns. The options are `--readers R`, 1 to 8 in
/// digits, 2 where it is not given; `--now T`, the datetime that `now()` stands for; `--watch`, by which the answer over the opening table is
/// written, and after each batch the answer until then where it differs from the one before, each under a line that tells after how many batches
/// it holds; and `--view`, by which readers take snapshots of a view, which keeps the groups of the query's one `summarize`: no table depends on it,
/// and a query that no view keeps is refused with 421.
/// The files of the paths may have 64 MiB together.
///
/// The batches are published one after another. Beside that each reader, from 0, enters the gate in phase 0 and asks the query once more than there are
/// batches. At last each learns that all are published, and asks once more.
///
/// It may wait: the appender for readers. The text is made whole before its first byte is written.
pub fn kql_live<R: Threads + Wait + Sync, F: Shelf, O: Sink, E: Sink, G: Gate + Sync>(
    rt: &R,
    alloc: Global,
    words: &[String],
    shelf: &mut F,
    out: &mut O,
    err: &mut E,
    gate: &G,
) -> LiveEnded
    ensures files { F.files shelf.new ≡ F.files shelf.old }

    // What the ending says of the answer to these words and files, of what each reader saw, and of what was written.
    ensures outcome { let out_at : O → SinkNow = λ o. sink_now (O.written o) (O.room o) (O.faults o) in
        let err_at : E → SinkNow = λ e. sink_now (E.written e) (E.room e) (E.faults e) in
        HasLiveOutcome (texts words.now) (F.files shelf.old) (outside (F.faults shelf.old) (out_at out.old) (err_at err.old)) (outside (F.faults shelf.new) (out_at out.new) (err_at err.new)) result }

    // After a call of the shelf or of a sink that failed there is no other, where these tell their calls, and the ending is that fault. But for the line
    // that tells a read fault.
    ensures heeds { HeedsLiveFaults (calls_now (F.calls shelf.old) (O.calls out.old) (E.calls err.old)) (calls_now (F.calls shelf.new) (O.calls out.new) (E.calls err.new)) result }

    // Where the files are told there is one answer.
    ensures one { IfSome (F.files shelf.old) (λ files. HasOneLiveAnswer (texts words.now) files) }
{
    match read_live(words) {
        Ok(asked) => answer_live(rt, alloc, words, asked, shelf, out, err, gate),
        Err(refusal) => write_refusal(alloc, err, refusal),
    }
}

// Answers what these words ask for.
fn answer_live<R: Threads + Wait + Sync, F: Shelf, O: Sink, E: Sink, G: Gate + Sync>(
    rt: &R,
    alloc: Global,
    words: &[String],
    asked: LiveAsked,
    shelf: &mut F,
    out: &mut O,
    err: &mut E,
    gate: &G,
) -> LiveEnded
    requires read { Ok asked ≡ live_of (texts words.now) }
    requires within { asked.query < length words.now }
    requires paths { AreLivePaths (texts (drop (asked.query + 1) words.now)) }
    requires few { length words.now ≤ asked.query + 65 }
    requires readers { AreReaders asked.options.readers }
    requires moment { IfSome asked.options.moment IsMoment }
    ensures files { F.files shelf.new ≡ F.files shelf.old }
    ensures outcome { let out_at : O → SinkNow = λ o. sink_now (O.written o) (O.room o) (O.faults o) in
        let err_at : E → SinkNow = λ e. sink_now (E.written e) (E.room e) (E.faults e) in
        HasLiveOutcome (texts words.now) (F.files shelf.old) (outside (F.faults shelf.old) (out_at out.old) (err_at err.old)) (outside (F.faults shelf.new) (out_at out.new) (err_at err.new)) result }
    ensures heeds { HeedsLiveFaults (calls_now (F.calls shelf.old) (O.calls out.old) (E.calls err.old)) (calls_now (F.calls shelf.new) (O.calls out.new) (E.calls err.new)) result }
{
    match asked_done(rt, alloc, words, asked, shelf, gate) {
        Ok(LiveDone { text, seen }) => write_ending(
            out,
            text.as_slice(),
            LiveEnded::Table { seen },
        ),
        Err(stop) => write_stop(alloc, err, stop),
    }
}

// The text that is asked for, and what each reader saw.
fn asked_done<R: Threads + Wait + Sync, F: Shelf, G: Gate + Sync>(
    rt: &R,
    alloc: Global,
    words: &[String],
    asked: LiveAsked,
    shelf: &mut F,
    gate: &G,
) -> Result<LiveDone, Stop>
    requires within { asked.query < length words.now }
    requires paths { AreLivePaths (texts (drop (asked.query + 1) words.now)) }
    requires few { length words.now ≤ asked.query + 65 }
    requires readers { AreReaders asked.options.readers }
    requires moment { IfSome asked.options.moment IsMoment }
    ensures files { F.files shelf.new ≡ F.files shelf.old }
    ensures failed { result ≡ Err stop.ReadFault → Rose (F.faults shelf.old) (F.faults shelf.new) }
    ensures stops { StopsAtRead (F.calls shelf.old) (F.calls shelf.new) result }
    ensures text { IfSome (F.files shelf.old) (λ files. Reaches (AnswersLive (texts words.now) files asked) (text_in result)) }
    ensures seen { IfOk result (λ done. HasSeen (texts words.now) (F.files shelf.old) asked done.seen) }
    ensures words { RefusesNoWord result }
{
    let bound = live_bound(rt, alloc, words, asked, shelf)?;
    let done = live_done(rt, alloc, bound, asked.options, gate)?;
    Ok(done)
}

// Writes a text, after which the call ends so, or with a write fault.
fn write_ending<S: Sink>(sink: &mut S, text: &[u8], done: LiveEnded) -> LiveEnded
    ensures written { WritesLive (sink_now (S.written sink.old) (S.room sink.old) (S.faults sink.old)) (sink_now (S.written sink.new) (S.room sink.new) (S.faults sink.new)) text.now done result }
    ensures calls { LiveEndsAtWrite (S.calls sink.old) (S.calls sink.new) done result }
{
    match write_all(sink, text) {
        Ok(()) => done,
        Err(_) => LiveEnded::WriteFault,
    }
}

// Writes the line of a stop.
fn write_stop<E: Sink>(alloc: Global, err: &mut E, stop: Stop) -> LiveEnded
    ensures written { WritesLiveStop (sink_now (E.written err.old) (E.room err.old) (E.faults err.old)) (sink_now (E.written err.new) (E.room err.new) (E.faults err.new)) stop result }
    ensures calls { LiveLineEndsAtWrite (E.calls err.old) (E.calls err.new) stop result }
{
    match stop {
        Stop::Refused(refusal) => write_refusal(alloc, err, refusal),
        Stop::ReadFault => write_ending(err, READ_FAULT_LINE.as_bytes(), LiveEnded::ReadFault),
        Stop::OutOfMemory => write_ending(err, MEMORY_LINE.as_bytes(), LiveEnded::OutOfMemory),
    }
}

fn write_refusal<E: Sink>(alloc: Global, err: &mut E, refusal: Refusal) -> LiveEnded
    ensures written { WritesLiveStop (sink_now (E.written err.old) (E.room err.old) (E.faults err.old)) (sink_now (E.written err.new) (E.room err.new) (E.faults err.new)) (stop.Refused refusal) result }
    ensures calls { LiveLineEndsAtWrite (E.calls err.old) (E.calls err.new) (stop.Refused refusal) result }
{
    match line_of(alloc, refusal) {
        Ok(line) => write_ending(err, line.as_bytes(), ending_of(refusal)),
        Err(_) => write_ending(err, MEMORY_LINE.as_bytes(), LiveEnded::OutOfMemory),
    }
}
