//! The prefix of operators: the longest run of `where` and `extend` that they begin with.
ghost use Rattle.std.specs.Prelude.{◌≡◌, ◌++◌, IfOk};
ghost use Rattle.pattern_lift.specs.Calls.{is_among};
ghost use Rattle.pattern_lift.specs.Steps.{with_left};
ghost use Rattle.pattern_lift.specs.Prefixes.{behind, calls_at, joins, left_of, names_behind, names_set, prefix, prefix_calls, sets};

use crate::calls::PatternCalls;
use crate::pattern_calls::{calls_in_items, calls_of};
use kql_bound::{BItem, Op};
use kql_cells::{KText, Names, copy_names};
use kql_items::Items;
use std::alloc::{AllocError, Global};

/// Whether an operator joins a prefix.
#[tactic(auto, using(crate::proofs::PrefixSteps::join_steps))]
pub fn joins(op: &Op) -> bool
    ensures joins { result ≡ joins op.now }
{
    match op {
        Op::Where(_) => true,
        Op::Extend(_) => true,
        Op::Project(_) => false,
        Op::Take(_) => false,
        Op::Count => false,
        Op::Serialize => false,
        Op::Sort(_) => false,
        Op::Top(_, _) => false,
        Op::Summarize(_) => false,
        Op::MakeSeries(_) => false,
        Op::MvExpand(_) => false,
        Op::Parse(_) => false,
        Op::Join(_, _) => false,
        Op::Union(_, _) => false,
        Op::Scan(_) => false,
        Op::Partition(_, _) => false,
    }
}

/// What stands behind the prefix.
#[tactic(auto, unfolding(crate::specs::Prefixes::behind))]
pub fn behind(ops: &[Op]) -> &[Op]
    ensures behind { result.now ≡ behind ops.now }
{
    let mut left = ops;
    'ops: while let Some((op, more)) = left.split_first() {
        if !joins(op) {
            return left;
        }
        left = more;
    }
    left
}

// The calls of an operator of a prefix.
#[tactic(auto, using(crate::proofs::PrefixSteps::call_steps))]
fn calls_at(alloc: Global, op: &Op) -> Result<PatternCalls, AllocError>
    ensures calls { IfOk result (λ cs. cs ≡ calls_at op.now) }
{
    match op {
        Op::Where(e) => calls_of(alloc, e),
        Op::Extend(items) => calls_in_items(alloc, items.as_slice()),
        Op::Project(_) => Ok(Items::new(alloc)),
        Op::Take(_) => Ok(Items::new(alloc)),
        Op::Count => Ok(Items::new(alloc)),
        Op::Serialize => Ok(Items::new(alloc)),
        Op::Sort(_) => Ok(Items::new(alloc)),
        Op::Top(_, _) => Ok(Items::new(alloc)),
        Op::Summarize(_) => Ok(Items::new(alloc)),
        Op::MakeSeries(_) => Ok(Items::new(alloc)),
        Op::MvExpand(_) => Ok(Items::new(alloc)),
        Op::Parse(_) => Ok(Items::new(alloc)),
        Op::Join(_, _) => Ok(Items::new(alloc)),
        Op::Union(_, _) => Ok(Items::new(alloc)),
        Op::Scan(_) => Ok(Items::new(alloc)),
        Op::Partition(_, _) => Ok(Items::new(alloc)),
    }
}

/// The calls of a prefix.
#[tactic(auto, unfolding(crate::specs::Prefixes::prefix, crate::specs::Prefixes::prefix_calls, crate::specs::Prefixes::calls_along))]
pub(crate) fn prefix_calls(alloc: Global, ops: &[Op]) -> Result<PatternCalls, AllocError>
    ensures calls { IfOk result (λ cs. cs ≡ prefix_calls ops.now) }
{
    let mut all = Items::new(alloc);
    let mut left = ops;
    'ops: while let Some((op, more)) = left.split_first() {
        if !joins(op) {
            return Ok(all);
        }
        let own = calls_at(alloc, op)?;
        all.append(own)?;
        left = more;
    }
    Ok(all)
}

/// The columns that items set.
#[tactic(auto, unfolding(crate::specs::Prefixes::names_set))]
pub fn names_set(alloc: Global, items: &[BItem]) -> Result<Names, AllocError>
    ensures names { IfOk result (λ ns. ns ≡ names_set items.now) }
{
    let mut all = Items::new(alloc);
    for item in items {
        let more = copy_names(alloc, item.names.as_slice())?;
        all.append(more)?;
    }
    Ok(all)
}

/// The columns that an operator of a prefix sets.
#[tactic(auto, using(crate::proofs::PrefixSteps::set_steps))]
pub fn sets(alloc: Global, op: &Op) -> Result<Names, AllocError>
    ensures sets { IfOk result (λ ns. ns ≡ sets op.now) }
{
    match op {
        Op::Where(_) => Ok(Items::new(alloc)),
        Op::Extend(items) => names_set(alloc, items.as_slice()),
        Op::Project(_) => Ok(Items::new(alloc)),
        Op::Take(_) => Ok(Items::new(alloc)),
        Op::Count => Ok(Items::new(alloc)),
        Op::Serialize => Ok(Items::new(alloc)),
        Op::Sort(_) => Ok(Items::new(alloc)),
        Op::Top(_, _) => Ok(Items::new(alloc)),
        Op::Summarize(_) => Ok(Items::new(alloc)),
        Op::MakeSeries(_) => Ok(Items::new(alloc)),
        Op::MvExpand(_) => Ok(Items::new(alloc)),
        Op::Parse(_) => Ok(Items::new(alloc)),
        Op::Join(_, _) => Ok(Items::new(alloc)),
        Op::Union(_, _) => Ok(Items::new(alloc)),
        Op::Scan(_) => Ok(Items::new(alloc)),
        Op::Partition(_, _) => Ok(Items::new(alloc)),
    }
}

/// Whether a name is one of these.
#[tactic(auto, unfolding(crate::specs::Calls::is_among))]
pub(crate) fn is_among(names: &[KText], name: &KText) -> bool
    ensures among { result ≡ is_among names.now name.now }
{
    names.iter().any(|n| n.as_str() == name.as_str())
}

// The names that are left so far, once it is known whether the next is set.
fn with_left(alloc: Global, kept: Names, name: &KText, set: bool) -> Result<Names, AllocError>
    ensures left { IfOk result (λ ns. ns ≡ with_left kept name.now set) }
{
    if set {
        return Ok(kept);
    }
    let mut kept = kept;
    let name = name.copy(alloc)?;
    kept.push(name)?;
    Ok(kept)
}

/// The names that are left once others are set.
#[tactic(auto, using(crate::proofs::LeftSteps::left_steps), unfolding(crate::specs::Prefixes::left_of))]
pub fn left_of(alloc: Global, names: &[KText], set: &[KText]) -> Result<Names, AllocError>
    ensures left { IfOk result (λ ns. ns ≡ left_of names.now set.now) }
{
    let mut kept = Items::new(alloc);
    'names: for name in names {
        kept = with_left(alloc, kept, name, is_among(set, name))?;
    }
    Ok(kept)
}

// The names behind an operator.
fn names_after(alloc: Global, names: &[KText], op: &Op) -> Result<Names, AllocError>
    ensures names { IfOk result (λ ns. ns ≡ left_of names.now (sets op.now) ++ sets op.now) }
{
    let set = sets(alloc, op)?;
    let mut left = left_of(alloc, names, set.as_slice())?;
    left.append(set)?;
    Ok(left)
}

/// The names of the columns behind the prefix of operators.
#[tactic(auto, unfolding(crate::specs::Prefixes::prefix, crate::specs::Prefixes::names_behind))]
pub(crate) fn names_behind(alloc: Global, names: Names, ops: &[Op]) -> Result<Names, AllocError>
    ensures names { IfOk result (λ ns. ns ≡ names_behind names (prefix ops.now)) }
{
    let mut before = names;
    let mut left = ops;
    'ops: while let Some((op, more)) = left.split_first() {
        if !joins(op) {
            return Ok(before);
        }
        before = names_after(alloc, before.as_slice(), op)?;
        left = more;
    }
    Ok(before)
}
