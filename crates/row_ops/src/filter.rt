//! `where`, `take` and `count`.
ghost use Rattle.std.specs.Prelude.{◌≡◌, IfOk, IsTrue};
ghost use Rattle.kql_meaning.specs.FittingOperators.{where_fits};
ghost use Rattle.kql_meaning.specs.TakeAndCount.{count_table, take_table};
ghost use Rattle.kql_meaning.specs.Where.{where_table};

use kql_bound::BExpr;
use kql_cells::{CellRef, Schema};
use kql_columns::count_columns;
use kql_scalar::Located;
use kql_values::Table;
use std::alloc::{AllocError, Global};

/// `where`: copies of the rows at which the predicate is true, in order.
#[tactic(auto, using(crate::proofs::ScalarSteps::scalar_steps))]
pub fn where_rows(alloc: Global, t: &Table, predicate: &BExpr) -> Result<Table, AllocError>
    requires fits { IsTrue (where_fits predicate.now t.now.columns) }
    ensures rows { IfOk result (λ r. r ≡ where_table predicate.now t.now) }
{
    let located = Located::new(alloc, predicate, t.schema())?;
    let places = located.places_where(alloc, t, 0, t.len())?;
    t.gather(alloc, places.as_slice())
}

/// `take n`, or `limit n`: the first n rows, or all where there are fewer. It takes no memory.
#[tactic(auto, unfolding(kql_meaning::specs::TakeAndCount::take_table))]
pub fn take_rows(t: Table, n: u64) -> Table
    ensures rows { result ≡ take_table n t }
{
    let mut t = t;
    if n < t.len() as u64 {
        t.truncate(n as usize);
    }
    t
}

/// `count`: one row, with the number of rows in the column `Count`.
#[tactic(auto, using(crate::proofs::CountSteps::count_steps))]
pub fn count_rows(alloc: Global, t: &Table) -> Result<Table, AllocError>
    ensures rows { IfOk result (λ r. r ≡ count_table t.now) }
{
    let columns = count_columns(alloc)?;
    let mut counted = Table::empty(alloc, Schema::from_items(columns))?;
    counted.push_cells(&[CellRef::Long(t.len() as i64)])?;
    Ok(counted)
}
