//! Queries over tables: what they are bound to, plans, and rows.
ghost use Rattle.std.specs.Prelude.{◌≡◌, All, IfOk, IfSome, OnOk, IsSome, IsTrue, None, true};
ghost use Rattle.kql_cells.specs.Catalogues.{Named as Seen, schemas_of};
ghost use Rattle.kql_cells.specs.Values.{IsMoment};
ghost use Rattle.kql_cells.specs.declared.schemas.NamedSchema.{NamedSchema};
ghost use Rattle.kql_fit_laws.specs.LawsOfRows.{IsTable};
ghost use Rattle.kql_meaning.specs.Fits.{fits, program_columns};
ghost use Rattle.kql_meaning.specs.Plans.{means};
ghost use Rattle.kql_parser_laws.specs.Patterns.{has_patterns};
ghost use Rattle.kql_values.specs.Kept.{all_named};
ghost use Rattle.kql_words.specs.Options.{AreWorkers};
ghost use Rattle.bind_query_laws.specs.Sound.{AreColumns};
ghost use Rattle.kql_program.specs.Plans.{IsPlanOf};
ghost use Rattle.kql_outside.specs.Causes.{Rose};
ghost use Rattle.kql_program.specs.Judged.{IsProgramOver, Judges};
ghost use Rattle.kql_program.specs.Outcomes.{IfBadPattern, RefusesNoPattern, RefusesNoWord};
ghost use Rattle.kql_program.specs.Queries.{IsBoundOver, bound_program_of, program_of, rows_over};
ghost use Rattle.kql_program.specs.Workers.{AddsReport, IsCrew, IsReportOf};
ghost use Rattle.kql_program.specs.Refusals.{Finds, Gives};

use crate::bound::BoundQuery;
use crate::crew::Crew;
use crate::ended::Reports;
use crate::refusal::Stop;
use bind_query::bind;
use bind_query_laws::law_of_binding_queries;
use kql_bound::Program;
use kql_cells::NamedSchema;
use kql_items::Boxed;
use kql_lexer::Tokens;
use kql_outside::Gate;
use kql_syntax::Query;
use kql_values::{Catalogue, Named, Table};
use kql_words::Refusal;
use pattern_ops::PatternMaker;
use pattern_run::{Lifted, first_call, run_patterns};
use phase_run::{Answer, run_plan};
use plan_push::settle;
use std::alloc::{AllocError, Global};
use std::thread::Threads;

/// The query that tokens are, bound to the tables of a catalogue, at a moment: what its pattern calls answer stands in further tables.
pub(crate) fn bound_over<R: Threads + Sync, P: PatternMaker>(
    rt: &R,
    alloc: Global,
    tokens: &Tokens,
    query: &Query,
    moment: Option<i64>,
    catalogue: Catalogue,
    workers: u32,
    patterns: &mut P,
) -> Result<BoundQuery, Stop>
    requires workers { AreWorkers workers }
    requires moment { IfSome moment IsMoment }
    requires patterns { has_patterns query.now ≡ true }
    ensures found { P.found patterns.new ≡ P.found patterns.old }
    ensures bound { Finds (IsBoundOver (P.found patterns.old) tokens.now query.now moment catalogue) result }
    ensures fits { IfOk result (λ b. IsTrue (fits b.program (schemas_of b.catalogue))) }
    ensures pattern { IfBadPattern (Rose (P.faults patterns.old) (P.faults patterns.new)) result }
    ensures words { RefusesNoWord result }
    ensures judged { Judges (IsProgramOver query.now moment catalogue) P.makes P.refuses result }
{
    let program = bound_program_of(alloc, query, moment, &catalogue)?;
    let lifted = run_patterns(rt, alloc, workers, patterns, tokens, program, catalogue)?;
    let Lifted { program, catalogue } = lifted;
    Ok(BoundQuery { program, catalogue })
}

/// The rows of a stored query over the tables of a catalogue; the phases that made them are added to the reports.
#[tactic(auto, unfolding(crate::specs::Queries::rows_over))]
pub(crate) fn rows_over<R: Threads + Sync, G: Gate + Sync>(
    rt: &R,
    alloc: Global,
    query: &Query,
    catalogue: &Catalogue,
    crew: Crew,
    gate: &G,
    reports: &mut Reports,
) -> Result<Table, Stop>
    requires crew { IsCrew crew }
    requires patterns { has_patterns query.now ≡ true }
    ensures rows { Gives (rows_over query.now None catalogue.now) result }
    ensures reports { OnOk result (AddsReport crew.workers reports.old reports.new) }
{
    let program = program_of(alloc, query, None, catalogue)?;
    let (answer, _plan) = planned_rows(rt, alloc, program.get(), catalogue, crew, gate)?;
    let Answer { table, report } = answer;
    reports.push(report)?;
    Ok(table)
}

/// The plan of a program: what it is settled to.
#[tactic(auto, using(crate::proofs::PlanFacts::plan_facts))]
pub(crate) fn plan_of(alloc: Global, program: &Program) -> Result<Boxed<Program>, AllocError>
    requires fits { IsSome (program_columns program.now) }
    ensures plan { IfOk result (IsPlanOf program.now) }
{
    let plan = settle(alloc, program)?;
    let plan = Boxed::new(alloc, plan)?;
    Ok(plan)
}

/// The rows of a program over the tables that it fits, the phases that made them, and the plan that they were answered by: they are what
/// this very plan means.
#[tactic(auto, using(crate::proofs::PlanFacts::plan_facts))]
pub(crate) fn planned_rows<R: Threads + Sync, G: Gate + Sync>(
    rt: &R,
    alloc: Global,
    program: &Program,
    catalogue: &Catalogue,
    crew: Crew,
    gate: &G,
) -> Result<(Answer, Boxed<Program>), AllocError>
    requires crew { IsCrew crew }
    requires fits { IsTrue (fits program.now (schemas_of catalogue.now)) }
    ensures rows { IfOk result (λ made. made.0.table ≡ means program.now catalogue.now) }
    ensures plan { IfOk result (λ made. IsPlanOf program.now made.1) }
    ensures evaluated { IfOk result (λ made. made.0.table ≡ means made.1 catalogue.now) }
    ensures report { IfOk result (λ made. IsReportOf crew.workers made.1 made.0.report) }
{
    know_tables(catalogue.tables());
    let plan = plan_of(alloc, program)?;
    let answer = run_plan(
        rt,
        alloc,
        plan.get(),
        catalogue,
        crew.workers,
        crew.sizes,
        gate,
    )?;
    Ok((answer, plan))
}

// Each table's rows fit its columns, and no two of these have one name: so tables are made.
fn know_tables(tables: &[Named])
    ensures tables { All (λ (n : Seen). IsTable n.table) (all_named tables.now) }
{
    let mut left = tables;
    'tables: while let Some((named, more)) = left.split_first() {
        named.table.schema().columns();
        left = more;
    }
}

// No two columns of a schema have one name, as each schema tells of its own.
fn columns_differ(schemas: &[NamedSchema])
    ensures differ { All (λ (s : NamedSchema). AreColumns s.schema) schemas.now }
{
    for named in schemas {
        let _ = named.schema.columns();
    }
}

/// The program that a query is bound to, which fits the tables, or binding's first refusal; a pattern call may not stand in it. `moment` is what
/// `now()` stands for.
pub fn program_of(
    alloc: Global,
    query: &Query,
    moment: Option<i64>,
    catalogue: &Catalogue,
) -> Result<Boxed<Program>, Stop>
    requires moment { IfSome moment IsMoment }
    requires patterns { has_patterns query.now ≡ true }
    ensures program { Gives (program_of query.now moment catalogue.now) result }
    ensures fits { IfOk result (λ p. IsTrue (fits p (schemas_of catalogue.now))) }
    ensures words { RefusesNoWord result }
{
    let program = bound_program_of(alloc, query, moment, catalogue)?;
    match first_call(alloc, program.get())? {
        None => Ok(program),
        Some(place) => Err(Stop::Refused(Refusal::Query { code: 420, place })),
    }
}

// The program that a query is bound to, which may have pattern calls.
#[tactic(auto, using(crate::proofs::BoundFacts::bound_facts), unfolding(crate::specs::Queries::bound_program_of))]
fn bound_program_of(
    alloc: Global,
    query: &Query,
    moment: Option<i64>,
    catalogue: &Catalogue,
) -> Result<Boxed<Program>, Stop>
    requires moment { IfSome moment IsMoment }
    requires patterns { has_patterns query.now ≡ true }
    ensures program { Gives (bound_program_of query.now moment catalogue.now) result }
    ensures fits { IfOk result (λ p. IsTrue (fits p (schemas_of catalogue.now))) }
    ensures patterns { RefusesNoPattern result }
    ensures words { RefusesNoWord result }
{
    let schemas = catalogue.schemas(alloc)?;
    columns_differ(schemas.schemas());
    law_of_binding_queries();
    let program = bind(alloc, query, schemas, moment)?;
    Ok(program)
}
