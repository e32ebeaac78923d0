//! The groups of a piece.
ghost use Rattle.std.specs.Prelude.{◌≡◌, ◌<◌, ◌∷◌, [], ℕ, All, IfOk, OnOk, length, map};
ghost use Rattle.kql_cells.specs.Table.{Grid};
ghost use Rattle.kql_cells.specs.Keys.{same_keys};
ghost use Rattle.kql_keys.specs.Numbers.{distinct, numbers_of};
ghost use Rattle.kql_bound.specs.declared.parts.GroupPlan.{GroupPlan as Plan};
ghost use Rattle.summarize_pieces.specs.Pieces.{AreGroupsOf, CanBeFolded, ColumnsStored, group_keys, group_states, piece_of};

use crate::folds::fold_groups;
use crate::kept::{GroupFold, group_folds};
use crate::own::{OwnGroups, own_calls};
use crate::piece::{CallRows, PieceRows};
use agg_folds::FoldCall;
use kql_items::Items;
use kql_keys::{Numbered, number_keys};
use kql_values::{Rows, Vector};
use std::alloc::{AllocError, Global};
use std::marker::Model;

/// The groups of rows in order of first occurrence, and for each call of the plan what is kept of each group. Values are lent by the
/// piece that they were read into.
#[derive(Drop)]
pub struct Groups<'a> {
    pub(crate) count: usize,
    pub(crate) width: usize,
    pub(crate) keys: Rows,
    pub(crate) calls: Vec<FoldCall>,
    pub(crate) folds: Vec<Items<GroupFold<'a>>>,
}

impl<'a> Model for Groups<'a> {
    ghost use Rattle.std.specs.Coded.{codes};
    ghost use Rattle.kql_cells.specs.contracts.dynamic.Dyn as dynamic;
    ghost use Rattle.summarize_pieces.specs.Pieces.{Grouped};

    ghost Value = { Grouped };

    ghost coded = { Prim.hlevel (codes, dynamic.the_row.coded) };

    ghost view = { λ x. record { count = x.count; width = x.width; keys = x.keys; calls = x.calls.items; states = x.folds.items } };
}

impl<'a> Groups<'a> {
    /// The same groups with values of their own, in time linear in what is kept.
    pub fn own(&self, alloc: Global) -> Result<OwnGroups, AllocError>
        ensures same { IfOk result (λ x. x ≡ self.now) }
    {
        let folds = own_calls(alloc, self.folds.as_slice())?;
        let calls = Vec::from_slice(alloc, self.calls.as_slice())?;
        let keys = self.keys.copy(alloc)?;
        Ok(OwnGroups {
            count: self.count,
            width: self.width,
            keys,
            calls,
            folds,
        })
    }
}

/// The groups of the rows of a piece. Without keys all rows are one group, also where there is none.
#[tactic(auto, using(crate::proofs::GroupSteps::group_steps))]
pub fn group_piece<'a>(alloc: Global, p: &'a PieceRows) -> Result<Groups<'a>, AllocError>
    ensures groups { (g : Plan) (t : Grid) (from to : ℕ) → p.now ≡ piece_of g t from to → IfOk result (AreGroupsOf g t from to) }
{
    let count = p.keys.len();
    let NumberedKeys { keys, numbers } = keys_of(alloc, p)?;
    let folds = folds_of_calls(alloc, p.calls.as_slice(), numbers.as_slice(), keys.len())?;
    let calls = fold_calls(alloc, p.calls.as_slice())?;
    Ok(Groups {
        count,
        width: p.width,
        keys,
        calls,
        folds,
    })
}

/// The keys of groups in order of first occurrence, and the number of each row's group.
#[derive(Drop)]
pub(crate) struct NumberedKeys {
    pub(crate) keys: Rows,
    pub(crate) numbers: Items<usize>,
}

// The keys of a piece.
#[tactic(auto, unfolding(crate::specs::Pieces::group_keys))]
fn keys_of(alloc: Global, p: &PieceRows) -> Result<NumberedKeys, AllocError>
    ensures keys { IfOk result (λ k. k.keys ≡ group_keys p.now.width p.now.keys) }
    ensures numbers { IfOk result (λ k. k.numbers ≡ numbers_of same_keys p.now.keys) }
    ensures within { IfOk result (λ k. All (λ n. n < length k.keys) k.numbers) }
{
    if p.width == 0 && p.keys.len() == 0 {
        one_group(alloc)
    } else {
        keyed(alloc, &p.keys)
    }
}

// The one group where there are neither keys nor rows.
fn one_group(alloc: Global) -> Result<NumberedKeys, AllocError>
    ensures keys { IfOk result (λ k. k.keys ≡ [] ∷ []) }
    ensures numbers { IfOk result (λ k. k.numbers ≡ []) }
{
    Ok(NumberedKeys {
        keys: Rows::from_columns(alloc, 1, Vec::new(alloc)),
        numbers: Items::new(alloc),
    })
}

/// The distinct ones of these keys, and the number of each among them.
#[tactic(auto, using(crate::proofs::KeySteps::key_steps))]
pub(crate) fn keyed(alloc: Global, rows: &Rows) -> Result<NumberedKeys, AllocError>
    ensures keys { IfOk result (λ k. k.keys ≡ distinct same_keys rows.now) }
    ensures numbers { IfOk result (λ k. k.numbers ≡ numbers_of same_keys rows.now) }
    ensures within { IfOk result (λ k. All (λ n. n < length k.keys) k.numbers) }
{
    let lent = lent(alloc, rows.columns())?;
    let Numbered { numbers, firsts } = number_keys(alloc, lent.as_slice(), rows.len())?;
    let keys = rows.gather(alloc, firsts.as_slice())?;
    Ok(NumberedKeys { keys, numbers })
}

// Vectors, lent one by one.
fn lent<'a>(alloc: Global, vectors: &'a [Vector]) -> Result<Vec<&'a Vector>, AllocError>
    ensures same { IfOk result (λ ls. map (λ c. c.now) ls.items ≡ vectors.now) }
{
    let mut lent = Vec::with_capacity(alloc, vectors.len())?;
    for vector in vectors {
        lent.push(vector)?;
    }
    Ok(lent)
}

// The calls.
#[tactic(auto, using(crate::proofs::GroupSteps::call_steps))]
fn fold_calls(alloc: Global, calls: &[CallRows]) -> Result<Vec<FoldCall>, AllocError>
    ensures calls { IfOk result (λ cs. cs.items ≡ map (λ c. c.call) calls.now) }
{
    let mut made = Vec::with_capacity(alloc, calls.len())?;
    'calls: for call in calls {
        made.push(call.call)?;
    }
    Ok(made)
}

// For each call what is kept of each group.
#[tactic(auto, using(crate::proofs::GroupSteps::fold_steps))]
fn folds_of_calls<'a>(
    alloc: Global,
    calls: &'a [CallRows],
    numbers: &[usize],
    count: usize,
) -> Result<Vec<Items<GroupFold<'a>>>, AllocError>
    requires within { All (λ n. n < count) numbers.now }
    requires calls { All (CanBeFolded (length numbers.now)) calls.now }
    ensures folds { IfOk result (λ fs. fs.items ≡ map (λ c. group_states c numbers.now count) calls.now) }
    ensures stored { OnOk result (All (λ c. ColumnsStored (length numbers.now) c.columns) calls.now) }
{
    let mut folds = Vec::with_capacity(alloc, calls.len())?;
    'calls: for call in calls {
        let made = fold_groups(alloc, call.call, call.columns.as_slice(), numbers, count)?;
        let kept = group_folds(alloc, call, made, numbers, count)?;
        folds.push(kept)?;
    }
    Ok(folds)
}
