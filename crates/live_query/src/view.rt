//! A query whose groups a view keeps, while the view grows.
ghost use Rattle.std.specs.Prelude.{◌≡◌, ◌<◌, ◌≤◌, All, IfOk, IsTrue, fold, length};
ghost use Rattle.kql_cells.specs.Table.{Grid};
ghost use Rattle.kql_fit_laws.specs.LawsOfRows.{IsTable};
ghost use Rattle.live_run.specs.Sights.{IsSeenList};
ghost use Rattle.live_tables.specs.Growing.{has_columns_of, with_rows};
ghost use Rattle.live_query.specs.Keeping.{Keeps};
ghost use Rattle.live_query.specs.LiveMeaning.{FitsColumns, live_means};
ghost use Rattle.live_query.specs.ViewForm.{is_view};

use crate::form::view_of;
use crate::query::LiveQuery;
use kql_bound::clone_group;
use kql_outside::Gate;
use kql_values::Table;
use live_run::{Outcome, Question, Script, run_value};
use std::alloc::{AllocError, Global};
use std::marker::Brand;
use std::sync::Wait;
use std::thread::Threads;
use view_ops::View;

/// What a query answers over the rows of a view that keeps its groups.
impl Question<View> for LiveQuery {
    ghost use Rattle.kql_fit_laws.specs.LawsOfRows.{IsTableOf};
    ghost use Rattle.live_query.specs.Keeping.{Keeps};
    ghost use Rattle.live_query.specs.KeepingLaws.{keeps-grown};
    ghost use Rattle.live_query.specs.LiveMeaning.{live_means};

    ghost stands = { Keeps };

    ghost follows = { λ _ table batch. IsTableOf table.columns batch };

    ghost answer = { live_means };

    fn ask_value(&self, _alloc: Global, value: View) -> Result<Table, AllocError> {
        kept_answer(self, &value)
    }

    ghost grows = { keeps-grown };

    ghost follows_on = { λ _ _ _ _ own. own };
}

// The table of a view.
fn kept_answer(query: &LiveQuery, view: &View) -> Result<Table, AllocError>
    ensures answer { (table : Grid) → Keeps query.now table view.now → IfOk result (λ t. t ≡ live_means query.now table) }
{
    view.fed();
    view.table()
}

/// As `run_query`, over a view that keeps the groups of the query's one `summarize`: the batches' rows are joined to them, and no reader takes rows.
///
/// It may wait: the appender for readers.
pub fn run_view<R: Threads + Wait + Sync, G: Gate + Sync>(
    rt: &R,
    alloc: Global,
    query: &LiveQuery,
    opening: Table,
    batches: &[Table],
    readers: u32,
    gate: &G,
) -> Result<Outcome, AllocError>
    requires view { IsTrue (is_view query.now.program) }
    requires readers { (0 < readers) × (readers ≤ 8) }
    requires columns { All (has_columns_of opening) batches.now }
    requires fits { FitsColumns query.now opening.columns }
    ensures count { IfOk result (λ o. length o.seen ≡ readers) }
    ensures seen { IfOk result (λ o. All (IsSeenList (live_means query.now) opening batches.now) o.seen) }
    ensures table { IfOk result (λ o. o.table ≡ live_means query.now (fold with_rows opening batches.now)) }
{
    run_kept::<R, Brand, G>(rt, alloc, query, opening, batches, readers, gate)
}

fn run_kept<R: Threads + Wait + Sync, B: Script + Send + Sync, G: Gate + Sync>(
    rt: &R,
    alloc: Global,
    query: &LiveQuery,
    opening: Table,
    batches: &[Table],
    readers: u32,
    gate: &G,
) -> Result<Outcome, AllocError>
    requires script { (opening ≡ B.opening) × (batches.now ≡ B.batches) }
    requires view { IsTrue (is_view query.now.program) }
    requires readers { (0 < readers) × (readers ≤ 8) }
    requires columns { All (has_columns_of opening) batches.now }
    requires fits { FitsColumns query.now opening.columns }
    ensures count { IfOk result (λ o. length o.seen ≡ readers) }
    ensures seen { IfOk result (λ o. All (IsSeenList (live_means query.now) B.opening B.batches) o.seen) }
    ensures table { IfOk result (λ o. o.table ≡ live_means query.now (fold with_rows B.opening B.batches)) }
{
    let view = view_over(alloc, query, &opening)?;
    drop(opening);
    know_batches(batches);
    run_value::<R, View, B, LiveQuery, G>(rt, alloc, view, batches, readers, query, gate)
}

// A view that keeps the groups of a table.
fn view_over(alloc: Global, query: &LiveQuery, table: &Table) -> Result<View, AllocError>
    requires view { IsTrue (is_view query.now.program) }
    requires fits { FitsColumns query.now table.now.columns }
    ensures keeps { IfOk result (Keeps query.now table.now) }
{
    let Some(group) = view_of(query.program.get()) else {
        unreachable!()
    };
    let plan = clone_group(alloc, group)?;
    let _rows = table.len();
    let schema = table.schema();
    let _distinct = schema.columns();
    let schema = schema.copy(alloc)?;
    let mut view = View::new(alloc, plan, schema)?;
    view.append(table)?;
    Ok(view)
}

// Each table's rows fit its columns: so tables are made.
fn know_batches(batches: &[Table])
    ensures tables { All IsTable batches.now }
{
    let mut left = batches;
    'batches: while let Some((batch, more)) = left.split_first() {
        batch.schema().columns();
        left = more;
    }
}
