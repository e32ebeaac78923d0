//! The steps of the answer: query file, syntax, table files, binding, and then the text that the command asks for. The first fault stops them.
ghost use Rattle.std.specs.Prelude.{◌≡◌, ◌≤◌, ◌<◌, ◌+◌, Err, IfOk, IfSome, IsTrue, Ok, drop, length, option_map, true, ℕ};
ghost use Rattle.kql_cells.specs.Catalogues.{schemas_of};
ghost use Rattle.kql_cells.specs.Values.{IsMoment};
ghost use Rattle.kql_meaning.specs.Fits.{fits};
ghost use Rattle.kql_meaning.specs.Plans.{means};
ghost use Rattle.kql_lexer.specs.declared.place.Place.{Place};
ghost use Rattle.kql_outside.specs.Causes.{Rose};
ghost use Rattle.kql_parser.specs.Parsing.{Refuses};
ghost use Rattle.kql_parser_laws.specs.Patterns.{has_patterns};
ghost use Rattle.kql_plan_text.specs.Plans.{plan_text};
ghost use Rattle.kql_program.specs.Answer.{AnswersCommand};
ghost use Rattle.kql_program.specs.Calls.{StartsFor, StartsOf, StartsTables, StopsAtRead};
ghost use Rattle.kql_program.specs.Files.{tables_of};
ghost use Rattle.kql_program.specs.Judged.{IsProgramAsked, IsProgramOf, IsProgramWith, Judges, JudgesFor};
ghost use Rattle.kql_program.specs.Outcomes.{IfBadPattern, IsDone, ReadsFor, RefusesNoWord, TriesFor, asked_in, text_in};
ghost use Rattle.kql_program.specs.Plans.{AnswersExplain, IsExplainedBy, IsRunBy};
ghost use Rattle.kql_program.specs.Queries.{AnswersQuery, IsBound, IsBoundAsked, IsBoundWith, text_as};
ghost use Rattle.kql_program.specs.Refusals.{Finds, Reaches};
ghost use Rattle.kql_program.specs.Endings.{EndsAs};
ghost use Rattle.kql_program.specs.Trials.{AnswersTrial};
ghost use Rattle.kql_program.specs.Workers.{IsBy, IsCrew};
ghost use Rattle.kql_program.specs.declared.ended.Ended.TheVariants as ended;
ghost use Rattle.kql_program.specs.declared.refusal.Stop.TheVariants as stop;
ghost use Rattle.kql_words.specs.Command.{AreTables, IfAsks, catalogue_path, texts};
ghost use Rattle.kql_words.specs.Options.{AreWorkers};
ghost use Rattle.kql_words.specs.Sizes.{size_top};
ghost use Rattle.kql_words.specs.declared.command.Command.TheVariants as command;

use crate::bound::{BoundQuery, Done};
use crate::crew::Crew;
use crate::ended::Ended;
use crate::evaluate::{bound_over, plan_of, planned_rows};
use crate::files::{read_query, read_tables};
use crate::refusal::Stop;
use crate::trial::trial_text;
use csv_workers::{text_by_workers, typed_text_by_workers};
use kql_bound::Program;
use kql_cells::Bytes;
use kql_items::Items;
use kql_lexer::Tokens;
use kql_outside::{Gate, OpenGate, Shelf};
use kql_parser::parse;
use kql_parser_laws::law_of_patterns;
use kql_plain::plain;
use kql_plan_text::plan_text;
use kql_syntax::Query;
use kql_values::Table;
use kql_words::{Asked, Command, Options, Trial};
use pattern_ops::PatternMaker;
use phase_run::Answer;
use std::alloc::{AllocError, Global};
use std::thread::Threads;

/// The text that a command asks for, which these words are, and the ending after it.
pub(crate) fn command_text<R: Threads + Sync, F: Shelf, G: Gate + Sync, P: PatternMaker>(
    rt: &R,
    alloc: Global,
    words: &[String],
    command: Command,
    shelf: &mut F,
    crew: Crew,
    gate: &G,
    patterns: &mut P,
) -> Result<Done, Stop>
    requires crew { IsCrew crew }
    requires within { IfAsks (λ a. a.query < length words.now) command }
    requires tables { IfAsks (λ a. AreTables (texts (drop (a.query + 1) words.now))) command }
    requires moment { IfAsks (λ a. IfSome a.options.moment IsMoment) command }
    requires limit { IfAsks (λ a. a.options.limit ≤ size_top) command }
    requires catalogue { IfAsks (λ a. IfSome a.options.catalogue (λ k. k < length words.now)) command }
    ensures files { F.files shelf.new ≡ F.files shelf.old }
    ensures found { P.found patterns.new ≡ P.found patterns.old }
    ensures failed { result ≡ Err stop.ReadFault → Rose (F.faults shelf.old) (F.faults shelf.new) }
    ensures stops { StopsAtRead (F.calls shelf.old) (F.calls shelf.new) result }
    ensures starts { StartsFor (texts words.now) (F.files shelf.old) (asked_in (Ok command)) (F.starts shelf.old) (F.starts shelf.new) }
    ensures turn { result ≡ Err stop.ReadFault → ReadsFor command }
    ensures text { IfSome (F.files shelf.old) (λ files. Reaches (AnswersCommand (P.found patterns.old) (texts words.now) files (Ok command)) (text_in result)) }
    ensures done { IfOk result (λ done. IsDone (P.found patterns.old) (texts words.now) (F.files shelf.old) command done.text done.ended) }
    ensures by { IfOk result (λ done. IsBy crew.workers done.ended) }
    ensures trial { TriesFor command (text_in result) }
    ensures words { RefusesNoWord result }
    ensures pattern { ReadsFor command → IfBadPattern (Rose (P.faults patterns.old) (P.faults patterns.new)) result }
    ensures judged { JudgesFor P.makes P.refuses (texts words.now) (F.files shelf.old) (asked_in (Ok command)) result }
{
    match command {
        Command::Run(asked) => query_run(rt, alloc, words, asked, shelf, crew, gate, patterns),
        Command::Plain(asked) => query_plain(rt, alloc, words, asked, shelf, patterns),
        Command::Explain(asked) => {
            query_explained(rt, alloc, words, asked, shelf, crew.workers, patterns)
        }
        Command::Trial(trial) => trial_done(rt, alloc, trial, crew, gate),
    }
}

// The text of the table that a query's command asks for, answered by a plan.
fn query_run<R: Threads + Sync, F: Shelf, G: Gate + Sync, P: PatternMaker>(
    rt: &R,
    alloc: Global,
    words: &[String],
    asked: Asked,
    shelf: &mut F,
    crew: Crew,
    gate: &G,
    patterns: &mut P,
) -> Result<Done, Stop>
    requires crew { IsCrew crew }
    requires within { asked.query < length words.now }
    requires tables { AreTables (texts (drop (asked.query + 1) words.now)) }
    requires moment { IfSome asked.options.moment IsMoment }
    requires limit { asked.options.limit ≤ size_top }
    requires catalogue { IfSome asked.options.catalogue (λ k. k < length words.now) }
    ensures files { F.files shelf.new ≡ F.files shelf.old }
    ensures found { P.found patterns.new ≡ P.found patterns.old }
    ensures failed { result ≡ Err stop.ReadFault → Rose (F.faults shelf.old) (F.faults shelf.new) }
    ensures stops { StopsAtRead (F.calls shelf.old) (F.calls shelf.new) result }
    ensures starts { IfSome (F.files shelf.old) (λ files. StartsOf (texts words.now) files asked (F.starts shelf.old) (F.starts shelf.new)) }
    ensures text { IfSome (F.files shelf.old) (λ files. Reaches (AnswersQuery (P.found patterns.old) (texts words.now) files asked) (text_in result)) }
    ensures done { IfOk result (λ done. IsDone (P.found patterns.old) (texts words.now) (F.files shelf.old) (command.Run asked) done.text done.ended) }
    ensures by { IfOk result (λ done. IsBy crew.workers done.ended) }
    ensures words { RefusesNoWord result }
    ensures pattern { IfBadPattern (Rose (P.faults patterns.old) (P.faults patterns.new)) result }
    ensures judged { IfSome (F.files shelf.old) (λ files. Judges (IsProgramAsked (texts words.now) files asked) P.makes P.refuses result) }
{
    let bound = query_bound(rt, alloc, words, asked, shelf, crew.workers, patterns)?;
    let types = asked.options.types;
    Ok(bound_run(rt, alloc, &bound, types, crew, gate)?)
}

// The same, answered operator by operator, as the query is written, by one worker.
fn query_plain<R: Threads + Sync, F: Shelf, P: PatternMaker>(
    rt: &R,
    alloc: Global,
    words: &[String],
    asked: Asked,
    shelf: &mut F,
    patterns: &mut P,
) -> Result<Done, Stop>
    requires within { asked.query < length words.now }
    requires tables { AreTables (texts (drop (asked.query + 1) words.now)) }
    requires moment { IfSome asked.options.moment IsMoment }
    requires limit { asked.options.limit ≤ size_top }
    requires catalogue { IfSome asked.options.catalogue (λ k. k < length words.now) }
    ensures files { F.files shelf.new ≡ F.files shelf.old }
    ensures found { P.found patterns.new ≡ P.found patterns.old }
    ensures failed { result ≡ Err stop.ReadFault → Rose (F.faults shelf.old) (F.faults shelf.new) }
    ensures stops { StopsAtRead (F.calls shelf.old) (F.calls shelf.new) result }
    ensures starts { IfSome (F.files shelf.old) (λ files. StartsOf (texts words.now) files asked (F.starts shelf.old) (F.starts shelf.new)) }
    ensures text { IfSome (F.files shelf.old) (λ files. Reaches (AnswersQuery (P.found patterns.old) (texts words.now) files asked) (text_in result)) }
    ensures done { IfOk result (λ done. IsDone (P.found patterns.old) (texts words.now) (F.files shelf.old) (command.Plain asked) done.text done.ended) }
    ensures words { RefusesNoWord result }
    ensures pattern { IfBadPattern (Rose (P.faults patterns.old) (P.faults patterns.new)) result }
    ensures judged { IfSome (F.files shelf.old) (λ files. Judges (IsProgramAsked (texts words.now) files asked) P.makes P.refuses result) }
{
    let bound = query_bound(rt, alloc, words, asked, shelf, 1, patterns)?;
    Ok(bound_plain(rt, alloc, &bound, asked.options.types)?)
}

// The text of a plan of the query.
fn query_explained<R: Threads + Sync, F: Shelf, P: PatternMaker>(
    rt: &R,
    alloc: Global,
    words: &[String],
    asked: Asked,
    shelf: &mut F,
    workers: u32,
    patterns: &mut P,
) -> Result<Done, Stop>
    requires workers { AreWorkers workers }
    requires within { asked.query < length words.now }
    requires tables { AreTables (texts (drop (asked.query + 1) words.now)) }
    requires moment { IfSome asked.options.moment IsMoment }
    requires limit { asked.options.limit ≤ size_top }
    requires catalogue { IfSome asked.options.catalogue (λ k. k < length words.now) }
    ensures files { F.files shelf.new ≡ F.files shelf.old }
    ensures found { P.found patterns.new ≡ P.found patterns.old }
    ensures failed { result ≡ Err stop.ReadFault → Rose (F.faults shelf.old) (F.faults shelf.new) }
    ensures stops { StopsAtRead (F.calls shelf.old) (F.calls shelf.new) result }
    ensures starts { IfSome (F.files shelf.old) (λ files. StartsOf (texts words.now) files asked (F.starts shelf.old) (F.starts shelf.new)) }
    ensures text { IfSome (F.files shelf.old) (λ files. Reaches (AnswersExplain (P.found patterns.old) (texts words.now) files asked) (text_in result)) }
    ensures done { IfOk result (λ done. IsDone (P.found patterns.old) (texts words.now) (F.files shelf.old) (command.Explain asked) done.text done.ended) }
    ensures words { RefusesNoWord result }
    ensures pattern { IfBadPattern (Rose (P.faults patterns.old) (P.faults patterns.new)) result }
    ensures judged { IfSome (F.files shelf.old) (λ files. Judges (IsProgramAsked (texts words.now) files asked) P.makes P.refuses result) }
{
    let bound = query_bound(rt, alloc, words, asked, shelf, workers, patterns)?;
    Ok(bound_explained(alloc, &bound)?)
}

// The lines of a trial.
fn trial_done<R: Threads + Sync, G: Gate + Sync>(
    rt: &R,
    alloc: Global,
    trial: Trial,
    crew: Crew,
    gate: &G,
) -> Result<Done, Stop>
    requires crew { IsCrew crew }
    ensures text { Finds (AnswersTrial trial) (text_in result) }
    ensures ended { IfOk result (λ done. EndsAs (command.Trial trial) done.ended) }
    ensures by { IfOk result (λ done. IsBy crew.workers done.ended) }
    ensures words { RefusesNoWord result }
{
    let mut reports = Items::new(alloc);
    let text = trial_text(rt, alloc, trial, crew, gate, &mut reports)?;
    Ok(Done {
        text,
        ended: Ended::Trial { reports },
    })
}

// What `run` makes of a query that is bound.
fn bound_run<R: Threads + Sync, G: Gate + Sync>(
    rt: &R,
    alloc: Global,
    bound: &BoundQuery,
    types: bool,
    crew: Crew,
    gate: &G,
) -> Result<Done, AllocError>
    requires crew { IsCrew crew }
    requires fits { IsTrue (fits bound.now.program (schemas_of bound.now.catalogue)) }
    ensures by { IfOk result (λ done. IsBy crew.workers done.ended) }
    ensures text { IfOk result (λ done. done.text ≡ text_as types (means bound.now.program bound.now.catalogue)) }
    ensures plan { IfOk result (λ done. IsRunBy types bound.now.program bound.now.catalogue done.text done.ended) }
{
    let program = bound.program.get();
    let (answer, plan) = planned_rows(rt, alloc, program, &bound.catalogue, crew, gate)?;
    let Answer { table, report } = answer;
    let text = text_as(rt, alloc, &table, types, crew.workers)?;
    Ok(Done {
        text,
        ended: Ended::Table { plan, report },
    })
}

// What `plain` makes of it.
fn bound_plain<R: Threads + Sync>(
    rt: &R,
    alloc: Global,
    bound: &BoundQuery,
    types: bool,
) -> Result<Done, AllocError>
    requires fits { IsTrue (fits bound.now.program (schemas_of bound.now.catalogue)) }
    ensures text { IfOk result (λ done. done.text ≡ text_as types (means bound.now.program bound.now.catalogue)) }
    ensures ended { IfOk result (λ done. done.ended ≡ ended.PlainTable) }
{
    let rows = plain(alloc, bound.program.get(), &bound.catalogue)?;
    let text = text_as(rt, alloc, &rows, types, 1)?;
    Ok(Done {
        text,
        ended: Ended::PlainTable,
    })
}

// What `explain` makes of it.
#[tactic(auto, using(crate::proofs::PlanFacts::plan_facts))]
fn bound_explained(alloc: Global, bound: &BoundQuery) -> Result<Done, AllocError>
    requires fits { IsTrue (fits bound.now.program (schemas_of bound.now.catalogue)) }
    ensures plan { IfOk result (λ done. IsExplainedBy bound.now.program done.text done.ended) }
{
    let plan = plan_of(alloc, bound.program.get())?;
    let text = text_of(alloc, plan.get())?;
    Ok(Done {
        text,
        ended: Ended::Explained { plan },
    })
}

// The text of a table, with the types of its columns in the header where they are asked for.
fn text_as<R: Threads + Sync>(
    rt: &R,
    alloc: Global,
    rows: &Table,
    types: bool,
    workers: u32,
) -> Result<Bytes, AllocError>
    requires workers { AreWorkers workers }
    ensures text { IfOk result (λ text. text ≡ text_as types rows.now) }
{
    if types {
        typed_text_by_workers(rt, &OpenGate, alloc, workers, rows)
    } else {
        text_by_workers(rt, &OpenGate, alloc, workers, rows)
    }
}

// The text of a plan, as bytes.
fn text_of(alloc: Global, plan: &Program) -> Result<Bytes, AllocError>
    ensures text { IfOk result (λ text. text ≡ plan_text plan.now) }
{
    let text = plan_text(alloc, plan)?;
    let bytes = Vec::from_slice(alloc, text.as_str().as_bytes())?;
    Ok(Items::from_vec(bytes))
}

// The query of a command, bound.
fn query_bound<R: Threads + Sync, F: Shelf, P: PatternMaker>(
    rt: &R,
    alloc: Global,
    words: &[String],
    asked: Asked,
    shelf: &mut F,
    workers: u32,
    patterns: &mut P,
) -> Result<BoundQuery, Stop>
    requires workers { AreWorkers workers }
    requires within { asked.query < length words.now }
    requires tables { AreTables (texts (drop (asked.query + 1) words.now)) }
    requires moment { IfSome asked.options.moment IsMoment }
    requires limit { asked.options.limit ≤ size_top }
    requires catalogue { IfSome asked.options.catalogue (λ k. k < length words.now) }
    ensures files { F.files shelf.new ≡ F.files shelf.old }
    ensures found { P.found patterns.new ≡ P.found patterns.old }
    ensures later { F.faults shelf.old ≤ F.faults shelf.new }
    ensures failed { result ≡ Err stop.ReadFault → Rose (F.faults shelf.old) (F.faults shelf.new) }
    ensures stops { StopsAtRead (F.calls shelf.old) (F.calls shelf.new) result }
    ensures starts { IfSome (F.files shelf.old) (λ files. StartsOf (texts words.now) files asked (F.starts shelf.old) (F.starts shelf.new)) }
    ensures bound { IfSome (F.files shelf.old) (λ files. Reaches (IsBoundAsked (P.found patterns.old) (texts words.now) files asked) result) }
    ensures fits { IfOk result (λ b. IsTrue (fits b.program (schemas_of b.catalogue))) }
    ensures words { RefusesNoWord result }
    ensures pattern { IfBadPattern (Rose (P.faults patterns.old) (P.faults patterns.new)) result }
    ensures judged { IfSome (F.files shelf.old) (λ files. Judges (IsProgramAsked (texts words.now) files asked) P.makes P.refuses result) }
{
    let tokens = read_query(alloc, shelf, words[asked.query].as_str())?;
    let tables = &words[asked.query + 1..];
    let catalogue = catalogue_path(words, asked);
    parsed_bound(
        rt,
        alloc,
        shelf,
        &tokens,
        asked.options,
        catalogue,
        tables,
        workers,
        patterns,
    )
}

// The path of the catalogue file of a command, where one is given.
fn catalogue_path(words: &[String], asked: Asked) -> Option<&str>
    requires within { IfSome asked.options.catalogue (λ k. k < length words.now) }
    ensures path { option_map (λ path. path.now) result ≡ catalogue_path (texts words.now) asked }
{
    match asked.options.catalogue {
        Some(k) => Some(words[k].as_str()),
        None => None,
    }
}

// The query that tokens are, bound to the tables that words and a catalogue file name.
fn parsed_bound<R: Threads + Sync, F: Shelf, P: PatternMaker>(
    rt: &R,
    alloc: Global,
    shelf: &mut F,
    tokens: &Tokens,
    options: Options,
    catalogue: Option<&str>,
    words: &[String],
    workers: u32,
    patterns: &mut P,
) -> Result<BoundQuery, Stop>
    requires workers { AreWorkers workers }
    requires moment { IfSome options.moment IsMoment }
    requires limit { options.limit ≤ size_top }
    requires tables { AreTables (texts words.now) }
    ensures files { F.files shelf.new ≡ F.files shelf.old }
    ensures found { P.found patterns.new ≡ P.found patterns.old }
    ensures later { F.faults shelf.old ≤ F.faults shelf.new }
    ensures failed { result ≡ Err stop.ReadFault → Rose (F.faults shelf.old) (F.faults shelf.new) }
    ensures stops { StopsAtRead (F.calls shelf.old) (F.calls shelf.new) result }
    ensures alone { (code : ℕ) (place : Place) → Refuses tokens.now code place → F.starts shelf.new ≡ F.starts shelf.old }
    ensures starts { IfSome (F.files shelf.old) (λ files. StartsTables files options.limit (option_map (λ path. path.now) catalogue.entry) (texts words.now) (F.starts shelf.old) (F.starts shelf.new)) }
    ensures bound { IfSome (F.files shelf.old) (λ files. Reaches (IsBound (P.found patterns.old) (Ok tokens.now) (tables_of files options.limit (option_map (λ path. path.now) catalogue.entry) (texts words.now)) options.moment) result) }
    ensures fits { IfOk result (λ b. IsTrue (fits b.program (schemas_of b.catalogue))) }
    ensures words { RefusesNoWord result }
    ensures pattern { IfBadPattern (Rose (P.faults patterns.old) (P.faults patterns.new)) result }
    ensures judged { IfSome (F.files shelf.old) (λ files. Judges (IsProgramOf (Ok tokens.now) (tables_of files options.limit (option_map (λ path. path.now) catalogue.entry) (texts words.now)) options.moment) P.makes P.refuses result) }
{
    let query = parse(alloc, tokens)?;
    law_of_patterns();
    let bound = asked_bound(
        rt, alloc, shelf, tokens, &query, options, catalogue, words, workers, patterns,
    );
    drop(query);
    bound
}

// A query bound to the tables that words and a catalogue file name.
fn asked_bound<R: Threads + Sync, F: Shelf, P: PatternMaker>(
    rt: &R,
    alloc: Global,
    shelf: &mut F,
    tokens: &Tokens,
    query: &Query,
    options: Options,
    catalogue: Option<&str>,
    words: &[String],
    workers: u32,
    patterns: &mut P,
) -> Result<BoundQuery, Stop>
    requires workers { AreWorkers workers }
    requires moment { IfSome options.moment IsMoment }
    requires limit { options.limit ≤ size_top }
    requires patterns { has_patterns query.now ≡ true }
    requires tables { AreTables (texts words.now) }
    ensures files { F.files shelf.new ≡ F.files shelf.old }
    ensures found { P.found patterns.new ≡ P.found patterns.old }
    ensures later { F.faults shelf.old ≤ F.faults shelf.new }
    ensures failed { result ≡ Err stop.ReadFault → Rose (F.faults shelf.old) (F.faults shelf.new) }
    ensures stops { StopsAtRead (F.calls shelf.old) (F.calls shelf.new) result }
    ensures starts { IfSome (F.files shelf.old) (λ files. StartsTables files options.limit (option_map (λ path. path.now) catalogue.entry) (texts words.now) (F.starts shelf.old) (F.starts shelf.new)) }
    ensures bound { IfSome (F.files shelf.old) (λ files. Reaches (IsBoundWith (P.found patterns.old) tokens.now (tables_of files options.limit (option_map (λ path. path.now) catalogue.entry) (texts words.now)) options.moment query.now) result) }
    ensures fits { IfOk result (λ b. IsTrue (fits b.program (schemas_of b.catalogue))) }
    ensures words { RefusesNoWord result }
    ensures pattern { IfBadPattern (Rose (P.faults patterns.old) (P.faults patterns.new)) result }
    ensures judged { IfSome (F.files shelf.old) (λ files. Judges (IsProgramWith (tables_of files options.limit (option_map (λ path. path.now) catalogue.entry) (texts words.now)) options.moment query.now) P.makes P.refuses result) }
{
    let tables = read_tables(rt, alloc, shelf, words, catalogue, options.limit, workers)?;
    bound_over(
        rt,
        alloc,
        tokens,
        query,
        options.moment,
        tables,
        workers,
        patterns,
    )
}
