//! `parse`.
ghost use Rattle.std.specs.Prelude.{◌≡◌, IfOk, IsTrue};
ghost use Rattle.kql_cells.specs.Named.{HasDistinctNames, column_name};
ghost use Rattle.kql_meaning.specs.FittingOperators.{parse_fits};
ghost use Rattle.kql_meaning.specs.Parse.{parse_columns, parse_table, pattern_columns};
ghost use Rattle.parse_op.specs.Filled.{parsed_grid, values_down};

use crate::columns::places_without;
use crate::fill::parsed_table;
use kql_bound::ParsePlan;
use kql_columns::pattern_columns;
use kql_scalar::Located;
use kql_values::{Table, Vector};
use std::alloc::{AllocError, Global};

/// `parse`: each row with the pieces of its text in the columns of the pattern, behind the other columns of the table. Where the text
/// has no cut all of them are absent. A column of the table that has the name of one of the pattern's goes; the others are moved
/// and not copied. Without memory the table is dropped.
#[tactic(auto, using(crate::proofs::ParseSteps::parse_steps))]
pub fn parse_rows(alloc: Global, t: Table, p: &ParsePlan) -> Result<Table, AllocError>
    requires fits { IsTrue (parse_fits p.now t.columns) }
    requires names { HasDistinctNames column_name (parse_columns p.now t.columns) }
    ensures table { IfOk result (λ r. r ≡ parse_table p.now t) }
{
    let added = pieces_of_rows(alloc, &t, p)?;
    let places = places_without(alloc, added.schema().columns(), t.schema().columns())?;
    let kept = t.select(places.as_slice())?;
    let parsed = kept.beside(added)?;
    Ok(parsed)
}

// The pieces of the text of each row.
#[tactic(auto, using(crate::proofs::ParseSteps::text_steps))]
fn pieces_of_rows(alloc: Global, t: &Table, p: &ParsePlan) -> Result<Table, AllocError>
    requires fits { IsTrue (parse_fits p.now t.now.columns) }
    requires names { HasDistinctNames column_name (pattern_columns p.now.pattern) }
    ensures rows { IfOk result (λ r. r ≡ parsed_grid p.now (values_down p.now.text t.now)) }
{
    let texts = texts_of_rows(alloc, t, p)?;
    let made = parsed_table(alloc, &texts, p)?;
    Ok(made)
}

// The text of each row.
#[tactic(auto, using(crate::proofs::ParseSteps::text_steps))]
fn texts_of_rows(alloc: Global, t: &Table, p: &ParsePlan) -> Result<Vector, AllocError>
    requires fits { IsTrue (parse_fits p.now t.now.columns) }
    ensures values { IfOk result (λ v. v ≡ values_down p.now.text t.now) }
{
    let located = Located::new(alloc, &p.text, t.schema())?;
    located.column_of(alloc, t, 0, t.len())
}
