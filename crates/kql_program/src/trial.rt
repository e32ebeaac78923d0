//! The trial: the stored queries over the log, and a line for each.
ghost use Rattle.std.specs.Prelude.{◌≡◌, ◌<◌, ◌+◌, [], IfOk, None, Ok, OnOk, length, string_bytes};
ghost use Rattle.kql_program.specs.Files.{query_tokens};
ghost use Rattle.kql_program.specs.Outcomes.{RefusesNoWord};
ghost use Rattle.kql_program.specs.Queries.{AreRows};
ghost use Rattle.kql_program.specs.Refusals.{Finds};
ghost use Rattle.kql_program.specs.Trials.{AnswersTrial, AreLines, FindsLine, counted_line};
ghost use Rattle.kql_trial.specs.Queries.{stored_queries, stored_query};
ghost use Rattle.kql_program.specs.Workers.{AddsReport, AreReports, IsCrew};

use crate::crew::Crew;
use crate::ended::Reports;
use crate::evaluate::rows_over;
use crate::files::read_tokens;
use crate::refusal::Stop;
use csv_workers::text_by_workers;
use kql_cells::Bytes;
use kql_items::Items;
use kql_outside::{Gate, OpenGate};
use kql_parser::parse;
use kql_parser_laws::law_of_patterns;
use kql_trial::{STORED_QUERIES, log_catalogue, stored_query};
use kql_values::{Catalogue, Table};
use kql_words::Trial;
use std::alloc::{AllocError, Global};
use std::thread::Threads;

/// The lines that a trial asks for; the phases of each stored query are added to the reports, of which there are none before.
pub(crate) fn trial_text<R: Threads + Sync, G: Gate + Sync>(
    rt: &R,
    alloc: Global,
    trial: Trial,
    crew: Crew,
    gate: &G,
    reports: &mut Reports,
) -> Result<Bytes, Stop>
    requires crew { IsCrew crew }
    requires none { reports.old ≡ [] }
    ensures text { Finds (AnswersTrial trial) result }
    ensures words { RefusesNoWord result }
    ensures reports { OnOk result (AreReports crew.workers (length stored_queries) reports.new) }
{
    let catalogue = log_catalogue(alloc, trial.rows, trial.seed)?;
    stored_lines(rt, alloc, &catalogue, crew, gate, reports)
}

// A line for each stored query over the tables.
fn stored_lines<R: Threads + Sync, G: Gate + Sync>(
    rt: &R,
    alloc: Global,
    catalogue: &Catalogue,
    crew: Crew,
    gate: &G,
    reports: &mut Reports,
) -> Result<Bytes, Stop>
    requires crew { IsCrew crew }
    requires none { reports.old ≡ [] }
    ensures lines { Finds (AreLines catalogue.now 1 stored_queries) result }
    ensures words { RefusesNoWord result }
    ensures reports { OnOk result (AreReports crew.workers (length stored_queries) reports.new) }
{
    let mut text = Vec::new(alloc);
    for k in 0..STORED_QUERIES {
        let line = stored_line(rt, alloc, catalogue, k, crew, gate, reports)?;
        text.extend_from_slice(line.as_bytes())?;
    }
    Ok(Items::from_vec(text))
}

// The line of a stored query, numbered from 0.
fn stored_line<R: Threads + Sync, G: Gate + Sync>(
    rt: &R,
    alloc: Global,
    catalogue: &Catalogue,
    k: u32,
    crew: Crew,
    gate: &G,
    reports: &mut Reports,
) -> Result<String, Stop>
    requires few { k < 5 }
    requires crew { IsCrew crew }
    ensures reports { OnOk result (AddsReport crew.workers reports.old reports.new) }
    ensures line { FindsLine catalogue.now (k + 1) (stored_query k) result }
    ensures words { RefusesNoWord result }
{
    let rows = stored_rows(rt, alloc, catalogue, stored_query(k), crew, gate, reports)?;
    let text = text_by_workers(rt, &OpenGate, alloc, crew.workers, &rows)?;
    Ok(counted_line(alloc, k + 1, rows.len(), text.len())?)
}

// The rows of a stored query of this text.
fn stored_rows<R: Threads + Sync, G: Gate + Sync>(
    rt: &R,
    alloc: Global,
    catalogue: &Catalogue,
    text: &str,
    crew: Crew,
    gate: &G,
    reports: &mut Reports,
) -> Result<Table, Stop>
    requires crew { IsCrew crew }
    ensures reports { OnOk result (AddsReport crew.workers reports.old reports.new) }
    ensures rows { Finds (AreRows (query_tokens text.now) (Ok catalogue.now) None) result }
    ensures words { RefusesNoWord result }
{
    let tokens = read_tokens(alloc, text.as_bytes())?;
    let query = parse(alloc, &tokens)?;
    law_of_patterns();
    let rows = rows_over(rt, alloc, &query, catalogue, crew, gate, reports);
    drop(query);
    rows
}

// The line that tells how many rows and bytes there are.
fn counted_line(alloc: Global, number: u32, rows: usize, bytes: usize) -> Result<String, AllocError>
    ensures { IfOk result (λ line. string_bytes line ≡ counted_line number rows bytes) }
{
    format!(in alloc; "Q{number} rows {rows} bytes {bytes}\n")
}
