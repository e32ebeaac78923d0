//! The steps of the answer: query file, syntax, the files of the paths, and binding. The first fault stops them.
ghost use Rattle.std.specs.Prelude.{◌≡◌, ◌≤◌, ◌<◌, ◌+◌, All, Err, IfOk, IfSome, Ok, drop, length, true};
ghost use Rattle.kql_cells.specs.Values.{IsMoment};
ghost use Rattle.kql_outside.specs.Causes.{Rose};
ghost use Rattle.kql_parser_laws.specs.Patterns.{has_patterns};
ghost use Rattle.kql_program.specs.Calls.{StopsAtRead};
ghost use Rattle.kql_program.specs.Outcomes.{RefusesNoWord};
ghost use Rattle.kql_program.specs.Refusals.{Computes, Gives, Reaches};
ghost use Rattle.kql_program.specs.declared.refusal.Stop.TheVariants as stop;
ghost use Rattle.kql_words.specs.Command.{name_in, names_table, path_in, texts};
ghost use Rattle.kql_words.specs.Options.{limit_ungiven};
ghost use Rattle.live_query.specs.LiveMeaning.{FitsColumns};
ghost use Rattle.live_query.specs.ViewForm.{is_view};
ghost use Rattle.live_tables.specs.Growing.{has_columns_of};
ghost use Rattle.live_words.specs.LiveWords.{AreLivePaths};
ghost use Rattle.kql_live.specs.LiveAnswer.{IsLiveBound, IsLiveBoundAsked, IsLiveQueryBound, first_name, live_bound_over, live_bound_with, viewed};
ghost use Rattle.kql_live.specs.LiveFiles.{live_tables, tables_of};

use crate::bound::{LiveBound, LiveTables};
use crate::files::read_live_tables;
use kql_cells::KText;
use kql_lexer::{Place, Tokens};
use kql_outside::Shelf;
use kql_parser::parse;
use kql_parser_laws::law_of_patterns;
use kql_program::{Stop, program_of, read_query};
use kql_syntax::Query;
use kql_values::{Catalogue, Named};
use kql_words::{Refusal, table_parts};
use live_query::{LiveQuery, is_view};
use live_words::LiveAsked;
use std::alloc::Global;
use std::thread::Threads;

/// The query of a command, bound to its opening table: one that a view can keep, where a view is asked for.
pub(crate) fn live_bound<R: Threads + Sync, F: Shelf>(
    rt: &R,
    alloc: Global,
    words: &[String],
    asked: LiveAsked,
    shelf: &mut F,
) -> Result<LiveBound, Stop>
    requires within { asked.query < length words.now }
    requires paths { AreLivePaths (texts (drop (asked.query + 1) words.now)) }
    requires few { length words.now ≤ asked.query + 65 }
    requires moment { IfSome asked.options.moment IsMoment }
    ensures files { F.files shelf.new ≡ F.files shelf.old }
    ensures later { F.faults shelf.old ≤ F.faults shelf.new }
    ensures failed { result ≡ Err stop.ReadFault → Rose (F.faults shelf.old) (F.faults shelf.new) }
    ensures stops { StopsAtRead (F.calls shelf.old) (F.calls shelf.new) result }
    ensures bound { IfSome (F.files shelf.old) (λ files. Reaches (IsLiveBoundAsked (texts words.now) files asked) result) }
    ensures fits { IfOk result (λ b. FitsColumns b.query b.opening.columns) }
    ensures columns { IfOk result (λ b. All (has_columns_of b.opening) b.batches) }
    ensures count { IfOk result (λ b. length b.batches + 1 + (asked.query + 1) ≡ length words.now) }
    ensures view { IfOk result (λ b. asked.options.view ≡ true → is_view b.query.program ≡ true) }
    ensures words { RefusesNoWord result }
{
    let bound = query_bound(rt, alloc, words, asked, shelf)?;
    let kept = viewed(bound, asked.options.view)?;
    Ok(kept)
}

// A query that a view can keep, where a view is asked for; else 421 where the query's text starts.
fn viewed(bound: LiveBound, view: bool) -> Result<LiveBound, Refusal>
    ensures viewed { result ≡ viewed view bound }
    ensures same { IfOk result (λ b. b ≡ bound) }
    ensures view { IfOk result (λ b. view ≡ true → is_view b.query.program ≡ true) }
{
    if view && !is_view(bound.query.program.get()) {
        return Err(Refusal::Query {
            code: 421,
            place: Place {
                line: 1,
                column: 1,
                byte: 0,
            },
        });
    }
    Ok(bound)
}

// The query of a command, bound to its opening table.
fn query_bound<R: Threads + Sync, F: Shelf>(
    rt: &R,
    alloc: Global,
    words: &[String],
    asked: LiveAsked,
    shelf: &mut F,
) -> Result<LiveBound, Stop>
    requires within { asked.query < length words.now }
    requires paths { AreLivePaths (texts (drop (asked.query + 1) words.now)) }
    requires few { length words.now ≤ asked.query + 65 }
    requires moment { IfSome asked.options.moment IsMoment }
    ensures files { F.files shelf.new ≡ F.files shelf.old }
    ensures later { F.faults shelf.old ≤ F.faults shelf.new }
    ensures failed { result ≡ Err stop.ReadFault → Rose (F.faults shelf.old) (F.faults shelf.new) }
    ensures stops { StopsAtRead (F.calls shelf.old) (F.calls shelf.new) result }
    ensures bound { IfSome (F.files shelf.old) (λ files. Reaches (IsLiveQueryBound (texts words.now) files asked) result) }
    ensures fits { IfOk result (λ b. FitsColumns b.query b.opening.columns) }
    ensures columns { IfOk result (λ b. All (has_columns_of b.opening) b.batches) }
    ensures count { IfOk result (λ b. length b.batches + 1 + (asked.query + 1) ≡ length words.now) }
    ensures words { RefusesNoWord result }
{
    let tokens = read_query(alloc, shelf, words[asked.query].as_str())?;
    let rest = &words[asked.query + 1..];
    parsed_bound(rt, alloc, shelf, &tokens, asked.options.moment, rest)
}

// The query that tokens are, bound to the opening table of the words.
fn parsed_bound<R: Threads + Sync, F: Shelf>(
    rt: &R,
    alloc: Global,
    shelf: &mut F,
    tokens: &Tokens,
    moment: Option<i64>,
    words: &[String],
) -> Result<LiveBound, Stop>
    requires paths { AreLivePaths (texts words.now) }
    requires few { length words.now ≤ 64 }
    requires moment { IfSome moment IsMoment }
    ensures files { F.files shelf.new ≡ F.files shelf.old }
    ensures later { F.faults shelf.old ≤ F.faults shelf.new }
    ensures failed { result ≡ Err stop.ReadFault → Rose (F.faults shelf.old) (F.faults shelf.new) }
    ensures stops { StopsAtRead (F.calls shelf.old) (F.calls shelf.new) result }
    ensures bound { IfSome (F.files shelf.old) (λ files. Reaches (IsLiveBound (Ok tokens.now) (tables_of files (texts words.now)) moment (first_name (texts words.now))) result) }
    ensures fits { IfOk result (λ b. FitsColumns b.query b.opening.columns) }
    ensures columns { IfOk result (λ b. All (has_columns_of b.opening) b.batches) }
    ensures count { IfOk result (λ b. length b.batches + 1 ≡ length words.now) }
    ensures words { RefusesNoWord result }
{
    let query = parse(alloc, tokens)?;
    law_of_patterns();
    let bound = asked_bound(rt, alloc, shelf, &query, moment, words);
    drop(query);
    bound
}

// A query bound to the opening table of the words.
fn asked_bound<R: Threads + Sync, F: Shelf>(
    rt: &R,
    alloc: Global,
    shelf: &mut F,
    query: &Query,
    moment: Option<i64>,
    words: &[String],
) -> Result<LiveBound, Stop>
    requires paths { AreLivePaths (texts words.now) }
    requires few { length words.now ≤ 64 }
    requires moment { IfSome moment IsMoment }
    requires patterns { has_patterns query.now ≡ true }
    ensures files { F.files shelf.new ≡ F.files shelf.old }
    ensures later { F.faults shelf.old ≤ F.faults shelf.new }
    ensures failed { result ≡ Err stop.ReadFault → Rose (F.faults shelf.old) (F.faults shelf.new) }
    ensures stops { StopsAtRead (F.calls shelf.old) (F.calls shelf.new) result }
    ensures bound { IfSome (F.files shelf.old) (λ files. Computes (live_bound_with (tables_of files (texts words.now)) moment (first_name (texts words.now)) query.now) result) }
    ensures fits { IfOk result (λ b. FitsColumns b.query b.opening.columns) }
    ensures columns { IfOk result (λ b. All (has_columns_of b.opening) b.batches) }
    ensures count { IfOk result (λ b. length b.batches + 1 ≡ length words.now) }
    ensures words { RefusesNoWord result }
{
    let Some((word, paths)) = words.split_first() else {
        unreachable!()
    };
    named_bound(rt, alloc, shelf, query, moment, word.as_str(), paths)
}

// A query bound to the opening table that a word names.
fn named_bound<R: Threads + Sync, F: Shelf>(
    rt: &R,
    alloc: Global,
    shelf: &mut F,
    query: &Query,
    moment: Option<i64>,
    word: &str,
    paths: &[String],
) -> Result<LiveBound, Stop>
    requires names { names_table word.now ≡ true }
    requires few { length paths.now ≤ 63 }
    requires moment { IfSome moment IsMoment }
    requires patterns { has_patterns query.now ≡ true }
    ensures files { F.files shelf.new ≡ F.files shelf.old }
    ensures later { F.faults shelf.old ≤ F.faults shelf.new }
    ensures failed { result ≡ Err stop.ReadFault → Rose (F.faults shelf.old) (F.faults shelf.new) }
    ensures stops { StopsAtRead (F.calls shelf.old) (F.calls shelf.new) result }
    ensures bound { IfSome (F.files shelf.old) (λ files. Computes (live_bound_with (live_tables files limit_ungiven (path_in word.now) (texts paths.now)) moment (name_in word.now) query.now) result) }
    ensures fits { IfOk result (λ b. FitsColumns b.query b.opening.columns) }
    ensures columns { IfOk result (λ b. All (has_columns_of b.opening) b.batches) }
    ensures count { IfOk result (λ b. length b.batches ≡ length paths.now) }
    ensures words { RefusesNoWord result }
{
    let Some(told) = table_parts(word) else {
        unreachable!()
    };
    let (name, path) = told;
    let tables = read_live_tables(rt, alloc, shelf, path, paths)?;
    bound_over(alloc, query, moment, name, tables)
}

// A query bound to an opening table of this name.
#[tactic(auto, unfolding(crate::specs::LiveAnswer::live_bound_over))]
fn bound_over(
    alloc: Global,
    query: &Query,
    moment: Option<i64>,
    name: &str,
    tables: LiveTables,
) -> Result<LiveBound, Stop>
    requires moment { IfSome moment IsMoment }
    requires patterns { has_patterns query.now ≡ true }
    requires columns { All (has_columns_of tables.opening) tables.batches }
    ensures bound { Gives (live_bound_over query.now moment name.now tables) result }
    ensures fits { IfOk result (λ b. FitsColumns b.query b.opening.columns) }
    ensures columns { IfOk result (λ b. All (has_columns_of b.opening) b.batches) }
    ensures batches { IfOk result (λ b. b.batches ≡ tables.batches) }
{
    let LiveTables { opening, batches } = tables;
    let first = KText::from_str(alloc, name)?;
    let mut catalogue = Catalogue::new(alloc);
    catalogue.push(Named {
        name: first,
        table: opening,
    })?;
    let program = program_of(alloc, query, moment, &catalogue)?;
    let opening = catalogue.take(0);
    let name = KText::from_str(alloc, name)?;
    Ok(LiveBound {
        query: LiveQuery { name, program },
        opening,
        batches,
    })
}
