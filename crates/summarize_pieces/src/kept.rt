//! What is kept of each group for a call: its fold, and the values of its further columns at the row that is chosen.
ghost use Rattle.std.specs.Prelude.{◌≡◌, ◌<◌, ◌≤◌, ◌+◌, ◌^◌, ◌++◌, ◌∷◌, [], All, IfOk, OnOk, length, map, slice_get};
ghost use Rattle.kql_cells.specs.Seen.{seen};
ghost use Rattle.kql_values.specs.Grids.{HaveLength};
ghost use Rattle.summarize_op.specs.Passes.{folds_of};
ghost use Rattle.summarize_pieces.specs.Joined.{with_kept};
ghost use Rattle.summarize_pieces.specs.Pieces.{cells_of, group_of, group_states, numbers_read};

use crate::folds::cells_at;
use crate::piece::CallRows;
use agg_folds::Fold;
use kql_cells::CellRef;
use kql_items::Items;
use kql_keys::places_by_number;
use kql_values::Vector;
use std::alloc::{AllocError, Global};
use std::marker::Model;

/// What is kept of the rows of a group. Cells are lent by the piece that they were read into; a call without further columns has none.
#[derive(Drop)]
pub(crate) struct GroupFold<'a> {
    fold: Fold<'a>,
    further: Vec<CellRef<'a>>,
}

impl<'a> Model for GroupFold<'a> {
    ghost use Rattle.std.specs.Prelude.{map};
    ghost use Rattle.std.specs.Coded.{codes};
    ghost use Rattle.kql_cells.specs.Seen.{seen};
    ghost use Rattle.kql_cells.specs.contracts.dynamic.Dyn as dynamic;
    ghost use Rattle.summarize_pieces.specs.Pieces.{GroupKept};

    ghost Value = { GroupKept };

    ghost coded = { Prim.hlevel (codes, dynamic.the_row.coded) };

    ghost view = { λ k. record { kept = k.fold; further = map seen k.further.items } };
}

impl<'a> GroupFold<'a> {
    pub(crate) fn new(fold: Fold<'a>, further: Vec<CellRef<'a>>) -> GroupFold<'a>
        ensures made { result ≡ record { kept = fold.entry; further = map seen further.entry.items } }
    {
        GroupFold { fold, further }
    }

    /// The fold of the rows.
    pub(crate) fn fold(&self) -> &Fold<'a>
        ensures fold { result.now ≡ self.now.kept }
    {
        &self.fold
    }

    /// The values of the further columns at the row that is chosen.
    pub(crate) fn further(&self) -> &[CellRef<'a>]
        ensures further { map seen result.now ≡ self.now.further }
    {
        self.further.as_slice()
    }

    /// Takes the rows of another group of the same call behind its own. Without memory it is not known which it has taken.
    #[tactic(auto, using(crate::proofs::KeptSteps::join_steps))]
    pub(crate) fn join(&mut self, other: GroupFold<'a>) -> Result<(), AllocError>
        requires room { self.old.kept.count + other.kept.count ≤ 2 ^ 63 }
        ensures joined { OnOk result (self.new ≡ with_kept self.old other.entry) }
    {
        let GroupFold { fold, further } = other;
        let count = self.fold.count();
        self.fold.join(&fold)?;
        if self.fold.chosen() >= count {
            self.further = further;
        }
        Ok(())
    }
}

/// What is kept of each group of a call, from the folds of the groups.
#[tactic(auto, using(crate::proofs::KeptSteps::group_steps))]
pub(crate) fn group_folds<'a>(
    alloc: Global,
    call: &'a CallRows,
    folds: Vec<Fold<'a>>,
    numbers: &[usize],
    count: usize,
) -> Result<Items<GroupFold<'a>>, AllocError>
    requires within { All (λ n. n < count) numbers.now }
    requires long { HaveLength (length numbers.now) call.now.further }
    requires folds { folds.items ≡ folds_of call.now.call call.now.columns numbers.now count }
    ensures states { IfOk result (λ s. s ≡ group_states call.now numbers.now count) }
{
    let columns = call.further.as_slice();
    let read = numbers_read(columns, numbers);
    let places = places_by_number(alloc, read, count)?;
    let mut left = Items::from_vec(folds);
    left.reverse();
    let mut kept = Items::with_capacity(alloc, count)?;
    'groups: for g in 0..count {
        if let Some(fold) = left.pop() {
            push_group(alloc, &mut kept, fold, columns, places.get(g))?;
        }
    }
    Ok(kept)
}

// A fold, and what columns have at the row that it chose of these, behind others.
fn push_group<'a>(
    alloc: Global,
    kept: &mut Items<GroupFold<'a>>,
    fold: Fold<'a>,
    columns: &'a [Vector],
    rows: &[usize],
) -> Result<(), AllocError>
    requires within { All (λ i. All (λ v. i < length v) columns.now) rows.now }
    ensures pushed { OnOk result (kept.new ≡ kept.old ++ group_of columns.now rows.now fold.entry ∷ []) }
{
    let group = group_fold(alloc, fold, columns, rows)?;
    kept.push(group)
}

// The numbers of the rows, where columns are read at them.
#[tactic(auto, using(crate::proofs::KeptSteps::read_steps))]
fn numbers_read<'a>(columns: &[Vector], numbers: &'a [usize]) -> &'a [usize]
    ensures { result.now ≡ numbers_read columns.now numbers.now }
{
    if columns.len() > 0 { numbers } else { &[] }
}

#[tactic(auto, unfolding(crate::specs::Pieces::group_of))]
fn group_fold<'a>(
    alloc: Global,
    fold: Fold<'a>,
    columns: &'a [Vector],
    rows: &[usize],
) -> Result<GroupFold<'a>, AllocError>
    requires within { All (λ i. All (λ v. i < length v) columns.now) rows.now }
    ensures group { IfOk result (λ s. s ≡ group_of columns.now rows.now fold.entry) }
{
    match chosen_cells(alloc, columns, rows, fold.chosen()) {
        Ok(cells) => Ok(GroupFold::new(fold, cells)),
        Err(e) => {
            drop(fold);
            Err(e)
        }
    }
}

// What columns have at the row that stands at a place, where there is one.
#[tactic(auto, using(crate::proofs::KeptSteps::cell_steps))]
fn chosen_cells<'a>(
    alloc: Global,
    columns: &'a [Vector],
    rows: &[usize],
    at: usize,
) -> Result<Vec<CellRef<'a>>, AllocError>
    requires within { All (λ i. All (λ v. i < length v) columns.now) rows.now }
    ensures cells { IfOk result (λ cs. map seen cs.items ≡ cells_of columns.now (slice_get rows.now at)) }
{
    if at < rows.len() {
        cells_at(alloc, columns, rows[at])
    } else {
        Ok(Vec::new(alloc))
    }
}
