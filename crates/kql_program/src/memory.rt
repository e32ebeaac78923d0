ghost use Rattle.std.specs.Prelude.{◌≡◌, ◌⊎◌, Some};
ghost use Rattle.kql_program.specs.Answer.{HasOneAnswer};
ghost use Rattle.kql_program.specs.Judged.{IsJudged};
ghost use Rattle.kql_words.specs.Command.{command_of, texts};
ghost use Rattle.kql_program.specs.InMemory.{Answered, HasRoomForMemoryLine, RunsOut, in_memory};
ghost use Rattle.kql_program.specs.Outcomes.{HasOutcome, asked_in, outside_with};
ghost use Rattle.kql_program.specs.Workers.{IsByWorkers};

use crate::ended::Ended;
use crate::top::kql;
use kql_outside::{CleanShelf, CleanSink, Gate};
use pattern_ops::PatternMaker;
use std::alloc::Global;
use std::thread::Threads;

/// The top call over files and sinks in memory. Where the sink for errors has room for the line of want of memory, its ending and its bytes
/// are those of the answer, of which there is one but for refused patterns, or of want of memory; where there is no room for the answer, it is a write fault.
/// Of `explain` the answer is one refusal, or one of the texts of plans of the one program that the query is bound to.
pub fn kql_in_memory<R: Threads + Sync, G: Gate + Sync, P: PatternMaker>(
    rt: &R,
    alloc: Global,
    words: &[String],
    shelf: &mut CleanShelf,
    out: &mut CleanSink,
    err: &mut CleanSink,
    gate: &G,
    patterns: &mut P,
) -> Ended
    ensures files { shelf.new.files ≡ shelf.old.files }
    ensures patterns { P.found patterns.new ≡ P.found patterns.old }

    // What `kql` says, where there may be too little room too.
    ensures outcome { HasOutcome (P.found patterns.old) (texts words.now) (Some shelf.old.files)
        (outside_with (P.faults patterns.old) 0 (in_memory out.old) (in_memory err.old))
        (outside_with (P.faults patterns.new) 0 (in_memory out.new) (in_memory err.new)) result }

    ensures answers { HasRoomForMemoryLine err.old →
        Answered (P.found patterns.old) (texts words.now) shelf.old.files out.old out.new err.old err.new result ⊎ RunsOut out.old out.new err.old err.new result }

    ensures workers { IsByWorkers (texts words.now) result }

    ensures one { HasOneAnswer (P.found patterns.old) (texts words.now) shelf.old.files }

    ensures judged { IsJudged P.makes P.refuses (texts words.now) (Some shelf.old.files) (asked_in (command_of (texts words.now))) result }
{
    kql(rt, alloc, words, shelf, out, err, gate, patterns)
}
