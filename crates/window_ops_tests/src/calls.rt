//! Calls whose term and restart are columns.
ghost use Rattle.std.specs.Prelude.{◌≡◌, true, IfOk};
ghost use Rattle.window_ops.specs.Fitting.{AllFitRows};
ghost use Rattle.window_ops_tests.specs.Columns.{key, two_columns, two_keys};

use crate::table::Made;
use kql_bound::{BExpr, BKey, Exprs, Keys, WinCall};
use kql_cells::{Column, KText};
use kql_fits::sort_fits;
use kql_items::Items;
use kql_values::Table;
use std::alloc::Global;
use window_ops::{Carry, sum_piece};

fn args_of(alloc: Global, term: &str, restart: &str) -> Made<Exprs>
    ensures args { IfOk result (λ es. es ≡ two_columns term.now restart.now) }
{
    let term = KText::from_str(alloc, term)?;
    let restart = KText::from_str(alloc, restart)?;
    let mut args = Items::new(alloc);
    args.push(BExpr::Column(term))?;
    args.push(BExpr::Column(restart))?;
    Ok(args)
}

fn key_of(name: KText) -> BKey
    ensures { result ≡ key name }
{
    BKey {
        expr: BExpr::Column(name),
        asc: true,
        nulls_first: true,
    }
}

fn keys_of(alloc: Global, term: &str, restart: &str) -> Made<Keys>
    ensures keys { IfOk result (λ ks. ks ≡ two_keys term.now restart.now) }
{
    let term = KText::from_str(alloc, term)?;
    let restart = KText::from_str(alloc, restart)?;
    let mut keys = Items::new(alloc);
    keys.push(key_of(term))?;
    keys.push(key_of(restart))?;
    Ok(keys)
}

// Whether two columns are there.
#[tactic(auto, using(crate::proofs::FitSteps::fit_steps))]
fn columns_fit(alloc: Global, columns: &[Column], term: &str, restart: &str) -> Made<bool>
    ensures fit { IfOk result (λ b. b ≡ true → AllFitRows columns.now (two_columns term.now restart.now)) }
{
    let keys = keys_of(alloc, term, restart)?;
    let fits = sort_fits(alloc, keys.as_slice(), columns)?;
    Ok(fits)
}

/// The carry of a range for a call of this name over the columns `n` and `b`, where there is such a range.
#[tactic(auto, using(crate::proofs::FitSteps::fit_steps))]
pub(crate) fn carry_of(
    alloc: Global,
    t: &Table,
    from: usize,
    to: usize,
    name: &str,
) -> Made<Option<Carry>> {
    let term = "n";
    let restart = "b";
    if !columns_fit(alloc, t.schema().columns(), term, restart)? {
        return Ok(None);
    }
    if from > to || to > t.len() {
        return Ok(None);
    }
    let name = KText::from_str(alloc, name)?;
    let args = args_of(alloc, term, restart)?;
    let w = WinCall { name, args };
    let made = sum_piece(alloc, t, from, to, &w)?;
    Ok(Some(made))
}
