//! The groups of the rows of the summary.
ghost use Rattle.std.specs.Prelude.{◌≡◌, ◌<◌, ◌^◌, All, IfOk, length, map};
ghost use Rattle.kql_cells.specs.Seen.{value_at};
ghost use Rattle.kql_values.specs.Grids.{HaveLength};
ghost use Rattle.series_op.specs.Grouped.{AreGrouped};

use kql_keys::{Numbered, PlaceLists, number_keys, places_by_number};
use kql_values::Vector;
use std::alloc::{AllocError, Global};

/// The keys of the groups, and the rows of each.
#[derive(Drop)]
pub(crate) struct Grouped {
    pub keys: Vec<Vector>,
    pub rows: PlaceLists,
}

/// The groups of so many rows by these columns, in order of first occurrence. Without columns all rows are one group, where there is
/// one.
#[tactic(auto, using(crate::proofs::GroupSteps::group_steps))]
pub(crate) fn group_rows(
    alloc: Global,
    columns: &[Vector],
    count: usize,
) -> Result<Grouped, AllocError>
    requires long { HaveLength count columns.now }
    ensures groups { IfOk result (λ g. AreGrouped columns.now count g.keys.items g.rows) }
    ensures small { IfOk result (λ g. length g.rows < 2 ^ 63) }
{
    let lent = lent(alloc, columns)?;
    let Numbered { numbers, firsts } = number_keys(alloc, lent.as_slice(), count)?;
    let firsts = firsts.as_slice();
    let keys = gathered(alloc, columns, firsts, count)?;
    let rows = places_by_number(alloc, numbers.as_slice(), firsts.len())?;
    Ok(Grouped { keys, rows })
}

// Vectors, lent one by one.
fn lent<'a>(alloc: Global, vectors: &'a [Vector]) -> Result<Vec<&'a Vector>, AllocError>
    ensures same { IfOk result (λ ls. map (λ c. c.now) ls.items ≡ vectors.now) }
{
    let mut lent = Vec::with_capacity(alloc, vectors.len())?;
    for vector in vectors {
        lent.push(vector)?;
    }
    Ok(lent)
}

// What each of these vectors has at these places.
#[tactic(auto, using(crate::proofs::GroupSteps::gather_steps))]
fn gathered(
    alloc: Global,
    vectors: &[Vector],
    places: &[usize],
    count: usize,
) -> Result<Vec<Vector>, AllocError>
    requires long { HaveLength count vectors.now }
    requires within { All (λ i. i < count) places.now }
    ensures values { IfOk result (λ vs. vs.items ≡ map (λ v. map (value_at v) places.now) vectors.now) }
{
    let mut gathered = Vec::with_capacity(alloc, vectors.len())?;
    for vector in vectors {
        let part = vector.gather(alloc, places)?;
        gathered.push(part)?;
    }
    Ok(gathered)
}
