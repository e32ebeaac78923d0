ghost use Rattle.std.specs.Prelude.{◌≡◌, ◌≤◌, ◌<◌, ◌+◌, IfSome, Ok, drop, length};
ghost use Rattle.kql_cells.specs.Values.{IsMoment};
ghost use Rattle.kql_program.specs.Answer.{HasOneAnswer};
ghost use Rattle.kql_program.specs.Calls.{EndsAtWrite, HeedsFaults, LineEndsAtWrite, StartsFor, calls_now};
ghost use Rattle.kql_program.specs.Workers.{IsBy, IsByWorkers, IsCrew};
ghost use Rattle.kql_program.specs.Judged.{IsJudged};
ghost use Rattle.kql_words.specs.Command.{AreTables, IfAsks, command_of, texts};
ghost use Rattle.kql_words.specs.Sizes.{size_top};
ghost use Rattle.kql_program.specs.Outcomes.{HasOutcome, SinkNow, Writes, WritesStop, asked_in, outside_with, sink_now};
ghost use Rattle.kql_program.specs.declared.refusal.Stop.TheVariants as stop;

use crate::bound::Done;
use crate::crew::{Crew, workers_for};
use crate::ended::{Ended, ending_of};
use crate::lines::line_of;
use crate::refusal::Stop;
use crate::steps::command_text;
use kql_outside::{Gate, Shelf, Sink, write_all};
use kql_words::{Command, Refusal, read_command};
use pattern_ops::PatternMaker;
use phase_run::Sizes;
use std::alloc::Global;
use std::thread::Threads;

const READ_FAULT_LINE: &str = "kql: read fault\n";

const MEMORY_LINE: &str = "kql: out of memory\n";

/// Answers the words of a command: reads the query file and the files of the tables from `shelf`, evaluates the query, and
/// writes the text of its table to `out`, or one line for a refusal to `err`.
///
/// The words, without the program's name, are `run`, `plain` or `explain`, then options in any order, each at most once, then QUERY, the path of the query
/// file, and then up to 64 words NAME=PATH. The options are `--workers N`, 1 to 64 in digits; `--now T`, the datetime that `now()` stands for;
/// `--limit SIZE`, how many bytes the table files may have together, 64 MiB where it is not given; `--catalogue PATH`, a file of JSON that names further
/// tables, their columns and their files; and, but for `explain`, `--types`, which writes the types of the columns into the header. Or the words
/// are `trial`, ROWS, up to 1,000,000, SEED, up to 18,446,744,073,709,551,615, and then `--workers N` or nothing: the stored queries are
/// answered over a log of so many rows that the seed makes up, a line for each.
///
/// `run` answers by a plan, which is the query's program settled: no rule of the rewriter fires anywhere in it. `plain` answers operator by operator,
/// as the query is written, and `explain` writes the text of the plan in place of a table; it reads the table files all the same, whose columns decide
/// what the plan is.
///
/// `run` and `trial` evaluate by N workers, and where no number is given by as many as the machine has processors, but no more than eight. Each
/// takes pieces of the rows, and enters `gate` with each. A worker that wants memory stops the others, and the answer is want of memory. The
/// text is made whole before its first byte is written. What is answered depends neither on the runtime, on N or on `gate`, nor on who takes which
/// piece and when.
///
/// What the patterns of `matches regex` and `extract` find is told by `patterns`, which makes them before the rows are made, for `explain` too: a query
/// whose pattern it refuses is refused with 501 at the first such pattern, which is promised where the files are told, and then its count of faults rose.
/// The columns of what they find are made by the same workers, which do not enter `gate` for them. `trial` makes no pattern.
pub fn kql<R: Threads + Sync, F: Shelf, O: Sink, E: Sink, G: Gate + Sync, P: PatternMaker>(
    rt: &R,
    alloc: Global,
    words: &[String],
    shelf: &mut F,
    out: &mut O,
    err: &mut E,
    gate: &G,
    patterns: &mut P,
) -> Ended
    ensures files { F.files shelf.new ≡ F.files shelf.old }
    ensures patterns { P.found patterns.new ≡ P.found patterns.old }

    // What the ending says of the answer to these words and files, and of what was written.
    ensures outcome { let out_at : O → SinkNow = λ o. sink_now (O.written o) (O.room o) (O.faults o) in
        let err_at : E → SinkNow = λ e. sink_now (E.written e) (E.room e) (E.faults e) in
        HasOutcome (P.found patterns.old) (texts words.now) (F.files shelf.old) (outside_with (P.faults patterns.old) (F.faults shelf.old) (out_at out.old) (err_at err.old)) (outside_with (P.faults patterns.new) (F.faults shelf.new) (out_at out.new) (err_at err.new)) result }

    // After a call of the shelf or of a sink that failed there is no other, where these tell their calls, and the ending is that fault. But for the line
    // that tells a read fault.
    ensures heeds { HeedsFaults (calls_now (F.calls shelf.old) (O.calls out.old) (E.calls err.old)) (calls_now (F.calls shelf.new) (O.calls out.new) (E.calls err.new)) result }

    // No other file is started where the query has a fault of its own: in its file, its tokens or its syntax. The files of the tables are started one after
    // another, none behind one that is refused, and none of a catalogue's own where its file or one of its entries is refused.
    ensures starts { StartsFor (texts words.now) (F.files shelf.old) (asked_in (command_of (texts words.now))) (F.starts shelf.old) (F.starts shelf.new) }

    // The phases that the ending tells of ran by as many workers as the words ask for, each of their pieces once.
    ensures workers { IsByWorkers (texts words.now) result }

    // Where the files are told there is one answer but for refused patterns, which the maker chooses; of `explain` one refusal, or texts of plans of the one
    // program that the query is bound to.
    ensures one { IfSome (F.files shelf.old) (λ files. HasOneAnswer (P.found patterns.old) (texts words.now) files) }

    // A table, or the text of a plan, is answered only where the text of each pattern of the query may be made. 501 stands at the first whose text may be
    // refused, and all before it may be made.
    ensures judged { IsJudged P.makes P.refuses (texts words.now) (F.files shelf.old) (asked_in (command_of (texts words.now))) result }
{
    kql_in_pieces(
        rt,
        alloc,
        words,
        shelf,
        out,
        err,
        gate,
        patterns,
        Sizes::usual(),
    )
}

/// `kql` where the pieces of rows that a worker takes have other sizes. What is answered does not depend on them.
pub fn kql_in_pieces<
    R: Threads + Sync,
    F: Shelf,
    O: Sink,
    E: Sink,
    G: Gate + Sync,
    P: PatternMaker,
>(
    rt: &R,
    alloc: Global,
    words: &[String],
    shelf: &mut F,
    out: &mut O,
    err: &mut E,
    gate: &G,
    patterns: &mut P,
    sizes: Sizes,
) -> Ended
    requires sizes { 0 < sizes.piece_rows }
    ensures files { F.files shelf.new ≡ F.files shelf.old }
    ensures patterns { P.found patterns.new ≡ P.found patterns.old }
    ensures outcome { let out_at : O → SinkNow = λ o. sink_now (O.written o) (O.room o) (O.faults o) in
        let err_at : E → SinkNow = λ e. sink_now (E.written e) (E.room e) (E.faults e) in
        HasOutcome (P.found patterns.old) (texts words.now) (F.files shelf.old) (outside_with (P.faults patterns.old) (F.faults shelf.old) (out_at out.old) (err_at err.old)) (outside_with (P.faults patterns.new) (F.faults shelf.new) (out_at out.new) (err_at err.new)) result }
    ensures heeds { HeedsFaults (calls_now (F.calls shelf.old) (O.calls out.old) (E.calls err.old)) (calls_now (F.calls shelf.new) (O.calls out.new) (E.calls err.new)) result }
    ensures starts { StartsFor (texts words.now) (F.files shelf.old) (asked_in (command_of (texts words.now))) (F.starts shelf.old) (F.starts shelf.new) }
    ensures workers { IsByWorkers (texts words.now) result }
    ensures one { IfSome (F.files shelf.old) (λ files. HasOneAnswer (P.found patterns.old) (texts words.now) files) }
    ensures judged { IsJudged P.makes P.refuses (texts words.now) (F.files shelf.old) (asked_in (command_of (texts words.now))) result }
{
    match read_command(words) {
        Ok(command) => {
            let workers = workers_for(rt, &command);
            let crew = Crew { workers, sizes };
            answer_command(
                rt, alloc, words, command, shelf, out, err, crew, gate, patterns,
            )
        }
        Err(refusal) => write_refusal(alloc, err, refusal),
    }
}

// Answers a command, which these words are.
fn answer_command<R: Threads + Sync, F: Shelf, O: Sink, E: Sink, G: Gate + Sync, P: PatternMaker>(
    rt: &R,
    alloc: Global,
    words: &[String],
    command: Command,
    shelf: &mut F,
    out: &mut O,
    err: &mut E,
    crew: Crew,
    gate: &G,
    patterns: &mut P,
) -> Ended
    requires crew { IsCrew crew }
    requires read { Ok command ≡ command_of (texts words.now) }
    requires within { IfAsks (λ a. a.query < length words.now) command }
    requires tables { IfAsks (λ a. AreTables (texts (drop (a.query + 1) words.now))) command }
    requires moment { IfAsks (λ a. IfSome a.options.moment IsMoment) command }
    requires limit { IfAsks (λ a. a.options.limit ≤ size_top) command }
    requires catalogue { IfAsks (λ a. IfSome a.options.catalogue (λ k. k < length words.now)) command }
    ensures files { F.files shelf.new ≡ F.files shelf.old }
    ensures patterns { P.found patterns.new ≡ P.found patterns.old }
    ensures outcome { let out_at : O → SinkNow = λ o. sink_now (O.written o) (O.room o) (O.faults o) in
        let err_at : E → SinkNow = λ e. sink_now (E.written e) (E.room e) (E.faults e) in
        HasOutcome (P.found patterns.old) (texts words.now) (F.files shelf.old) (outside_with (P.faults patterns.old) (F.faults shelf.old) (out_at out.old) (err_at err.old)) (outside_with (P.faults patterns.new) (F.faults shelf.new) (out_at out.new) (err_at err.new)) result }
    ensures heeds { HeedsFaults (calls_now (F.calls shelf.old) (O.calls out.old) (E.calls err.old)) (calls_now (F.calls shelf.new) (O.calls out.new) (E.calls err.new)) result }
    ensures starts { StartsFor (texts words.now) (F.files shelf.old) (asked_in (command_of (texts words.now))) (F.starts shelf.old) (F.starts shelf.new) }
    ensures by { IsBy crew.workers result }
    ensures judged { IsJudged P.makes P.refuses (texts words.now) (F.files shelf.old) (asked_in (command_of (texts words.now))) result }
{
    match command_text(rt, alloc, words, command, shelf, crew, gate, patterns) {
        Ok(Done { text, ended }) => write_ending(out, text.as_slice(), ended),
        Err(stop) => write_stop(alloc, err, stop),
    }
}

// Writes a text, after which the call ends so, or with a write fault.
fn write_ending<S: Sink>(sink: &mut S, text: &[u8], done: Ended) -> Ended
    ensures written { Writes (sink_now (S.written sink.old) (S.room sink.old) (S.faults sink.old)) (sink_now (S.written sink.new) (S.room sink.new) (S.faults sink.new)) text.now done result }
    ensures calls { EndsAtWrite (S.calls sink.old) (S.calls sink.new) done result }
{
    match write_all(sink, text) {
        Ok(()) => done,
        Err(_) => Ended::WriteFault,
    }
}

// Writes the line of a stop.
fn write_stop<E: Sink>(alloc: Global, err: &mut E, stop: Stop) -> Ended
    ensures written { WritesStop (sink_now (E.written err.old) (E.room err.old) (E.faults err.old)) (sink_now (E.written err.new) (E.room err.new) (E.faults err.new)) stop result }
    ensures calls { LineEndsAtWrite (E.calls err.old) (E.calls err.new) stop result }
{
    match stop {
        Stop::Refused(refusal) => write_refusal(alloc, err, refusal),
        Stop::ReadFault => write_ending(err, READ_FAULT_LINE.as_bytes(), Ended::ReadFault),
        Stop::OutOfMemory => write_ending(err, MEMORY_LINE.as_bytes(), Ended::OutOfMemory),
    }
}

fn write_refusal<E: Sink>(alloc: Global, err: &mut E, refusal: Refusal) -> Ended
    ensures written { WritesStop (sink_now (E.written err.old) (E.room err.old) (E.faults err.old)) (sink_now (E.written err.new) (E.room err.new) (E.faults err.new)) (stop.Refused refusal) result }
    ensures calls { LineEndsAtWrite (E.calls err.old) (E.calls err.new) (stop.Refused refusal) result }
{
    match line_of(alloc, refusal) {
        Ok(line) => write_ending(err, line.as_bytes(), ending_of(refusal)),
        Err(_) => write_ending(err, MEMORY_LINE.as_bytes(), Ended::OutOfMemory),
    }
}
