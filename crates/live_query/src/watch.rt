//! What is shown as the table grows.
ghost use Rattle.std.specs.Prelude.{◌≡◌, ◌++◌, All, IfOk, OnOk, string_bytes};
ghost use Rattle.csv_io.specs.Text.{table_text};
ghost use Rattle.live_tables.specs.Growing.{has_columns_of};
ghost use Rattle.live_query.specs.LiveMeaning.{FitsColumns, live_means};
ghost use Rattle.live_query.specs.Watching.{shown, shown_after, watch_line, watch_text};

use crate::query::LiveQuery;
use csv_io::table_text;
use kql_cells::Bytes;
use kql_items::Items;
use kql_values::Table;
use live_run::Query;
use std::alloc::{AllocError, Global};

/// The answer over the opening table, and after each batch the answer over all that came until then, where its text differs from the one before. Each
/// stands under a line that tells after how many batches it holds.
pub fn watch_text(
    alloc: Global,
    query: &LiveQuery,
    opening: &Table,
    batches: &[Table],
) -> Result<Bytes, AllocError>
    requires columns { All (has_columns_of opening.now) batches.now }
    requires fits { FitsColumns query.now opening.now.columns }
    ensures text { IfOk result (λ text. text ≡ watch_text (live_means query.now) opening.now batches.now) }
{
    let mut table = opening.copy(alloc)?;
    let mut before = text_over(alloc, query, &table)?;
    let mut out = Vec::new(alloc);
    push_shown(alloc, &mut out, 0, before.as_slice())?;
    let mut count = 0u64;
    let mut left = batches;
    'grown: while let Some((batch, more)) = left.split_first() {
        table.append(batch.copy(alloc)?)?;
        count += 1;
        let text = text_over(alloc, query, &table)?;
        push_changed(alloc, &mut out, before.as_slice(), count, text.as_slice())?;
        before = text;
        left = more;
    }
    Ok(Items::from_vec(out))
}

// The text of the answer over a table.
fn text_over(alloc: Global, query: &LiveQuery, table: &Table) -> Result<Bytes, AllocError>
    requires fits { FitsColumns query.now table.now.columns }
    ensures text { IfOk result (λ text. text ≡ table_text (live_means query.now table.now)) }
{
    let rows = query.ask(alloc, table.copy(alloc)?)?;
    let text = table_text(alloc, &rows)?;
    Ok(text)
}

// Adds an answer's text, under its line.
fn push_shown(alloc: Global, out: &mut Vec<u8>, count: u64, text: &[u8]) -> Result<(), AllocError>
    ensures shown { OnOk result (out.new.items ≡ out.old.items ++ shown count text.now) }
{
    let line = watch_line(alloc, count)?;
    out.extend_from_slice(line.as_bytes())?;
    out.extend_from_slice(text)?;
    Ok(())
}

// Adds an answer's text, under its line, where it is not the text before.
fn push_changed(
    alloc: Global,
    out: &mut Vec<u8>,
    before: &[u8],
    count: u64,
    text: &[u8],
) -> Result<(), AllocError>
    ensures shown { OnOk result (out.new.items ≡ out.old.items ++ shown_after before.now count text.now) }
{
    if text == before {
        return Ok(());
    }
    push_shown(alloc, out, count, text)
}

// The line above an answer.
fn watch_line(alloc: Global, count: u64) -> Result<String, AllocError>
    ensures line { IfOk result (λ line. string_bytes line ≡ watch_line count) }
{
    format!(in alloc; "# batches: {count}\n")
}
