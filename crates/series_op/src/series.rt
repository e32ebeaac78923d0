//! `make-series`.
ghost use Rattle.std.specs.Prelude.{◌≡◌, ◌<◌, ◌^◌, ◌∷◌, ◌++◌, [], IfOk, IsTrue, is_some};
ghost use Rattle.kql_meaning.specs.FittingOperators.{answer_if, series_fits, summarize_fits};
ghost use Rattle.kql_meaning.specs.MakeSeries.{rows_inside, series_columns, series_table};
ghost use Rattle.kql_meaning.specs.Summarize.{group_columns, summarize_table};
ghost use Rattle.series_op.specs.Filled.{IsFilled};
ghost use Rattle.series_op.specs.Summary.{summary_plan};

use crate::arrays::item_arrays;
use crate::bins::{axis_column, bin_places, count_of_bins};
use crate::groups::{Grouped, group_rows};
use crate::inside::rows_inside;
use crate::plan::summary_plan;
use kql_bound::{GroupPlan, SeriesPlan};
use kql_cells::Schema;
use kql_columns::series_columns;
use kql_values::{Rows, Table, Vector};
use std::alloc::{AllocError, Global};
use summarize_op::summarize_rows;

/// `make-series`: for each group with a row inside one row, with the keys, for each aggregate an array over the bins, and the bins as an
/// array, in order of the group's first row inside. Without keys there is one row where a row is inside, and none otherwise.
#[tactic(auto, using(crate::proofs::SeriesSteps::series_steps))]
pub fn series_rows(alloc: Global, t: &Table, series: &SeriesPlan) -> Result<Table, AllocError>
    requires fits { IsTrue (is_some (answer_if (series_fits series.now t.now.columns) (series_columns series.now t.now.columns))) }
    ensures rows { IfOk result (λ r. r ≡ series_table series.now t.now) }
{
    let SeriesParts { inside, plan } = series_parts(alloc, t, series)?;
    let summary = summarize_rows(alloc, &inside, &plan)?;
    let made = series_of_summary(alloc, t, series, &inside, &summary)?;
    Ok(made)
}

/// What a series is made of: the rows inside, and the `summarize` of them by bin and keys.
#[derive(Drop)]
pub struct SeriesParts {
    pub inside: Table,
    pub plan: GroupPlan,
}

/// The rows inside and their `summarize`, of whose table `series_of_summary` makes the series.
#[tactic(auto, using(crate::proofs::SeriesSteps::series_steps))]
pub fn series_parts(
    alloc: Global,
    t: &Table,
    series: &SeriesPlan,
) -> Result<SeriesParts, AllocError>
    requires fits { IsTrue (is_some (answer_if (series_fits series.now t.now.columns) (series_columns series.now t.now.columns))) }
    ensures inside { IfOk result (λ p. p.inside ≡ rows_inside series.now t.now) }
    ensures plan { IfOk result (λ p. p.plan ≡ summary_plan series.now) }
    ensures fits { IfOk result (λ p. IsTrue (is_some (answer_if (summarize_fits p.plan p.inside.columns) (group_columns p.plan p.inside.columns)))) }
{
    let inside = rows_inside(alloc, t, series)?;
    let plan = summary_plan(alloc, series)?;
    Ok(SeriesParts { inside, plan })
}

/// The series of a table from the rows inside, and the table of their `summarize` by bin and keys.
#[tactic(auto, using(crate::proofs::SeriesSteps::series_steps))]
pub fn series_of_summary(
    alloc: Global,
    t: &Table,
    series: &SeriesPlan,
    inside: &Table,
    summary: &Table,
) -> Result<Table, AllocError>
    requires fits { IsTrue (is_some (answer_if (series_fits series.now t.now.columns) (series_columns series.now t.now.columns))) }
    requires inside { inside.now ≡ rows_inside series.now t.now }
    requires summary { summary.now ≡ summarize_table (summary_plan series.now) inside.now }
    ensures rows { IfOk result (λ r. r ≡ series_table series.now t.now) }
{
    let Filled { columns, count } = filled_columns(alloc, series, inside, summary)?;
    let named = series_columns(alloc, series, t.schema().columns())?;
    let rows = Rows::from_columns(alloc, count, columns);
    let made = Table::new(alloc, Schema::from_items(named), rows)?;
    Ok(made)
}

// The columns of the answer, and how many rows it has.
#[derive(Drop)]
struct Filled {
    columns: Vec<Vector>,
    count: usize,
}

// The answer's columns from the summary of the rows inside.
#[tactic(auto, using(crate::proofs::FilledSteps::filled_steps))]
fn filled_columns(
    alloc: Global,
    series: &SeriesPlan,
    _inside: &Table,
    summary: &Table,
) -> Result<Filled, AllocError>
    requires fits { IsTrue (series_fits series.now _inside.now.columns) }
    requires summary { summary.now ≡ summarize_table (summary_plan series.now) _inside.now }
    ensures rows { IfOk result (λ f. IsFilled series.now _inside.now f.columns.items f.count) }
    ensures small { IfOk result (λ f. f.count < 2 ^ 63) }
{
    let inner = _inside.schema().columns();
    let [starts, others @ ..] = summary.columns() else {
        unreachable!()
    };
    let (keys, values) = others.split_at(others.len() - series.items.len());
    let bins = count_of_bins(series, inner);
    let places = bin_places(alloc, series, bins, starts)?;
    let Grouped { keys, rows } = group_rows(alloc, keys, summary.len())?;
    let arrays = item_arrays(
        alloc,
        values,
        series.items.as_slice(),
        &rows,
        places.as_slice(),
        bins,
    )?;
    let axis = axis_column(alloc, series, bins, rows.len())?;
    let columns = beside(keys, arrays, axis)?;
    Ok(Filled {
        columns,
        count: rows.len(),
    })
}

// The keys' columns, the arrays and the axis, side by side.
fn beside(keys: Vec<Vector>, arrays: Vec<Vector>, axis: Vector) -> Result<Vec<Vector>, AllocError>
    ensures columns { IfOk result (λ vs. vs.items ≡ keys.items ++ (arrays.items ++ axis ∷ [])) }
{
    let mut all = keys;
    let mut rest = arrays;
    rest.push(axis)?;
    all.append(&mut rest)?;
    Ok(all)
}
