//! The groups of a table's rows.
ghost use Rattle.std.specs.Prelude.{◌≡◌, ◌<◌, ◌≤◌, ◌^◌, [], IfOk, IsTrue, All, length, map};
ghost use Rattle.std.specs.List.{list_all};
ghost use Rattle.kql_cells.specs.Seen.{value_at};
ghost use Rattle.kql_values.specs.Grids.{HaveLength};
ghost use Rattle.kql_meaning.specs.FittingOperators.{key_item_fits};
ghost use Rattle.kql_scalar.specs.Held.{held};
ghost use Rattle.summarize_op.specs.Groups.{AreGroups, key_columns, values_down, zeros};

use kql_bound::BItem;
use kql_items::Items;
use kql_keys::{Numbered, number_keys};
use kql_scalar::{LentColumn, Located};
use kql_values::{Table, Vector};
use std::alloc::{AllocError, Global};

/// The keys' columns with one row for each group, the number of each row's group, and how many groups there are.
#[derive(Drop)]
pub(crate) struct Groups {
    pub columns: Vec<Vector>,
    pub numbers: Items<usize>,
    pub count: usize,
}

/// The groups of the rows by these keys, in order of first occurrence. Without keys all rows are one group, also where there is
/// none.
pub(crate) fn groups_of(alloc: Global, t: &Table, keys: &[BItem]) -> Result<Groups, AllocError>
    requires fits { IsTrue (list_all (key_item_fits t.now.columns) keys.now) }
    ensures groups { IfOk result (λ g. AreGroups keys.now t.now g.columns.items g.numbers g.count) }
    ensures small { IfOk result (λ g. g.count < 2 ^ 63) }
{
    match keys {
        [] => one_group(alloc, t),
        [_, ..] => keyed_groups(alloc, t, keys),
    }
}

// The one group of all rows.
#[tactic(auto, using(crate::proofs::OneGroup::one_group_facts))]
fn one_group(alloc: Global, t: &Table) -> Result<Groups, AllocError>
    ensures groups { IfOk result (λ g. AreGroups [] t.now g.columns.items g.numbers g.count) }
    ensures small { IfOk result (λ g. g.count < 2 ^ 63) }
{
    let numbers = zeros(alloc, t.len())?;
    Ok(Groups {
        columns: Vec::new(alloc),
        numbers,
        count: 1,
    })
}

/// So many zeros.
#[tactic(auto, unfolding(crate::specs::Groups::zeros))]
pub(crate) fn zeros(alloc: Global, count: usize) -> Result<Items<usize>, AllocError>
    ensures zeros { IfOk result (λ ns. ns ≡ zeros count) }
{
    let mut numbers = Items::with_capacity(alloc, count)?;
    for i in 0..count {
        numbers.push(0)?;
    }
    Ok(numbers)
}

// The groups by one key or more.
#[tactic(auto, using(crate::proofs::KeyedGroups::keyed_facts))]
fn keyed_groups(alloc: Global, t: &Table, keys: &[BItem]) -> Result<Groups, AllocError>
    requires some { 0 < length keys.now }
    requires fits { IsTrue (list_all (key_item_fits t.now.columns) keys.now) }
    ensures groups { IfOk result (λ g. AreGroups keys.now t.now g.columns.items g.numbers g.count) }
    ensures small { IfOk result (λ g. g.count < 2 ^ 63) }
{
    let held = key_vectors(alloc, t, keys)?;
    let vectors = lent(alloc, held.as_slice())?;
    let Numbered { numbers, firsts } = number_keys(alloc, vectors.as_slice(), t.len())?;
    let columns = gathered(alloc, vectors.as_slice(), firsts.as_slice(), t.len())?;
    let count = firsts.as_slice().len();
    Ok(Groups {
        columns,
        numbers,
        count,
    })
}

// The values of each key at all rows. A key that is a column is read where it stands.
#[tactic(auto, using(crate::proofs::KeySteps::key_steps))]
fn key_vectors<'a>(
    alloc: Global,
    t: &'a Table,
    keys: &[BItem],
) -> Result<Vec<LentColumn<'a>>, AllocError>
    requires fits { IsTrue (list_all (key_item_fits t.now.columns) keys.now) }
    ensures values { IfOk result (λ vs. map held vs.items ≡ key_columns keys.now t.now) }
{
    let mut vectors = Vec::new(alloc);
    'keys: for key in keys {
        let vector = key_vector(alloc, t, key)?;
        vectors.push(vector)?;
    }
    Ok(vectors)
}

#[tactic(auto, using(crate::proofs::KeySteps::scalar_steps))]
fn key_vector<'a>(alloc: Global, t: &'a Table, key: &BItem) -> Result<LentColumn<'a>, AllocError>
    requires fits { IsTrue (key_item_fits t.now.columns key.now) }
    ensures values { IfOk result (λ v. held v ≡ values_down key.now t.now) }
{
    let located = Located::new(alloc, &key.expr, t.schema())?;
    located.lent_column(alloc, t)
}

// The vectors of columns, one by one.
#[tactic(auto, using(crate::proofs::KeySteps::lent_steps))]
fn lent<'a>(alloc: Global, columns: &'a [LentColumn<'a>]) -> Result<Vec<&'a Vector>, AllocError>
    ensures same { IfOk result (λ ls. map (λ c. c.now) ls.items ≡ map held columns.now) }
{
    let mut lent = Vec::with_capacity(alloc, columns.len())?;
    for column in columns {
        lent.push(column.as_vector())?;
    }
    Ok(lent)
}

// What each of these vectors has at these places.
#[tactic(auto, using(crate::proofs::KeySteps::gather_steps))]
fn gathered(
    alloc: Global,
    vectors: &[&Vector],
    places: &[usize],
    count: usize,
) -> Result<Vec<Vector>, AllocError>
    requires long { HaveLength count (map (λ c. c.now) vectors.now) }
    requires within { All (λ i. i < count) places.now }
    ensures values { IfOk result (λ vs. vs.items ≡ map (λ v. map (value_at v) places.now) (map (λ c. c.now) vectors.now)) }
{
    let mut gathered = Vec::with_capacity(alloc, vectors.len())?;
    for vector in vectors {
        let part = vector.gather(alloc, places)?;
        gathered.push(part)?;
    }
    Ok(gathered)
}
