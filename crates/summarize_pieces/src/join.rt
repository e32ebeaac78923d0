//! Groups of neighbouring ranges of rows.
ghost use Rattle.std.specs.Prelude.{◌≡◌, ◌<◌, ◌≤◌, ◌+◌, ◌^◌, ◌++◌, ◌∷◌, [], All, IfOk, IfSome, List, None, OnOk, Some, drop, get_or, length};
ghost use Rattle.summarize_pieces.specs.Joined.{AllFew, Differ, joined_groups, joined_states, with_group, with_groups};
ghost use Rattle.summarize_pieces.specs.Pieces.{AreGroupsOf, AreNeighbours, GroupKept};

use crate::groups::{Groups, NumberedKeys, keyed};
use crate::kept::GroupFold;
use kql_items::Items;
use std::alloc::{AllocError, Global};

/// The groups of two ranges of which the second stands behind the first: those of `a`, and behind them those of `b` that `a` has not. Of a
/// key that both have, the folds are joined.
#[tactic(auto, using(crate::proofs::JoinSteps::neighbour_steps))]
pub fn join_groups<'a>(
    alloc: Global,
    a: Groups<'a>,
    b: Groups<'a>,
) -> Result<Groups<'a>, AllocError>
    requires neighbours { AreNeighbours a b }
    requires few { a.count + b.count < 2 ^ 63 }
    ensures joined { IfOk result (λ x. x ≡ joined_groups a.entry b.entry) }
    ensures range { (n : AreNeighbours a.entry b.entry) → IfOk result (AreGroupsOf n.plan n.table n.from n.to) }
{
    let Groups {
        count,
        width,
        keys: mut rows,
        calls,
        folds,
    } = a;
    let Groups {
        count: further,
        width: _,
        keys: more,
        calls: _,
        folds: more_folds,
    } = b;
    let first = rows.len();
    rows.append(more)?;
    let NumberedKeys { keys, numbers } = keyed(alloc, &rows)?;
    let behind = numbers_from(numbers.as_slice(), first);
    let folds = join_calls(alloc, first, folds, behind, more_folds, count, further)?;
    Ok(Groups {
        count: count + further,
        width,
        keys,
        calls,
        folds,
    })
}

// The numbers from a place on.
#[tactic(auto, using(crate::proofs::JoinSteps::slice_steps))]
fn numbers_from(numbers: &[usize], first: usize) -> &[usize]
    requires within { first ≤ length numbers.now }
    ensures rest { result.now ≡ drop first numbers.now }
{
    &numbers[first..]
}

// The folds of each call, of groups that are made of so many rows.
#[tactic(auto, using(crate::proofs::JoinSteps::call_steps))]
fn join_calls<'a>(
    alloc: Global,
    first: usize,
    folds: Vec<Items<GroupFold<'a>>>,
    numbers: &[usize],
    more: Vec<Items<GroupFold<'a>>>,
    count: usize,
    further: usize,
) -> Result<Vec<Items<GroupFold<'a>>>, AllocError>
    requires differ { Differ numbers.now }
    requires folds { AllFew first count folds.items }
    requires more { AllFew (length numbers.now) further more.items }
    requires few { count + further < 2 ^ 63 }
    ensures joined { IfOk result (λ fs. fs.items ≡ joined_states first folds.entry.items numbers.now more.entry.items) }
{
    let mut made = Vec::with_capacity(alloc, folds.len())?;
    let mut left = Items::from_vec(folds);
    let mut right = Items::from_vec(more);
    left.reverse();
    right.reverse();
    'calls: while let Some(a) = left.pop() {
        let b = right.pop();
        join_call(&mut made, first, a, numbers, b, count, further)?;
    }
    Ok(made)
}

// The folds of one call more, where there are others of it.
#[tactic(auto, using(crate::proofs::JoinSteps::one_steps))]
fn join_call<'a>(
    made: &mut Vec<Items<GroupFold<'a>>>,
    first: usize,
    a: Items<GroupFold<'a>>,
    numbers: &[usize],
    b: Option<Items<GroupFold<'a>>>,
    count: usize,
    further: usize,
) -> Result<(), AllocError>
    requires differ { Differ numbers.now }
    requires long { length a ≡ first }
    requires folds { All (λ k. k.kept.count ≤ count) a }
    requires more { IfSome b (All (λ k. k.kept.count ≤ further)) }
    requires few { count + further < 2 ^ 63 }
    ensures none { b.entry ≡ None → OnOk result (made.new.items ≡ made.old.items) }
    ensures some { (more : List GroupKept) → b.entry ≡ Some more → OnOk result (made.new.items ≡ made.old.items ++ with_groups first a.entry numbers.now more ∷ []) }
{
    match b {
        None => Ok(()),
        Some(b) => {
            let joined = join_folds(first, a, numbers, b, count, further)?;
            made.push(joined)?;
            Ok(())
        }
    }
}

// The folds of a call: those of the first groups, and behind them those of groups that are new.
#[tactic(auto, using(crate::proofs::JoinSteps::group_steps))]
fn join_folds<'a>(
    first: usize,
    folds: Items<GroupFold<'a>>,
    numbers: &[usize],
    more: Items<GroupFold<'a>>,
    count: usize,
    further: usize,
) -> Result<Items<GroupFold<'a>>, AllocError>
    requires differ { Differ numbers.now }
    requires long { length folds ≡ first }
    requires folds { All (λ k. k.kept.count ≤ count) folds }
    requires more { All (λ k. k.kept.count ≤ further) more }
    requires few { count + further < 2 ^ 63 }
    ensures joined { IfOk result (λ fs. fs ≡ with_groups first folds.entry numbers.now more.entry) }
{
    let mut made = folds.into_vec();
    let mut left = more;
    left.reverse();
    'groups: for g in numbers {
        if let Some(fold) = left.pop() {
            join_fold(&mut made, first, *g, fold)?;
        }
    }
    Ok(Items::from_vec(made))
}

// One fold more.
#[tactic(auto, unfolding(crate::specs::Joined::with_group))]
fn join_fold<'a>(
    folds: &mut Vec<GroupFold<'a>>,
    first: usize,
    g: usize,
    fold: GroupFold<'a>,
) -> Result<(), AllocError>
    requires first { first ≤ length folds.old.items }
    requires few { (k : GroupKept) → g < first → (get_or folds.old.items g k).kept.count + fold.kept.count ≤ 2 ^ 63 }
    ensures joined { OnOk result (folds.new.items ≡ with_group first folds.old.items g fold.entry) }
{
    if g < first {
        folds[g].join(fold)?;
    } else {
        folds.push(fold)?;
    }
    Ok(())
}
