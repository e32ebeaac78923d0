//! Operators of a prefix, and outside of one.
ghost use Rattle.std.specs.Prelude.{◌≡◌, ◌&&◌, ◌++◌, ◌∷◌, [], IfOk};
ghost use Rattle.std.specs.List.{list_all};
ghost use Rattle.kql_functions.specs.Kinds.{same_kind};
ghost use Rattle.kql_meaning.specs.FittingOperators.{are_distinct};
ghost use Rattle.pattern_lift.specs.Prefixes.{names_set, prefix};
ghost use Rattle.pattern_laws.specs.Liftable.{has_no_calls, item_is_liftable, op_is_liftable, prefix_is_liftable, text_columns};

use crate::expressions::{is_liftable, items_are_liftable, items_have_no_calls};
use kql_bound::{BItem, Op};
use kql_cells::{Column, KText, Kind, Names};
use kql_fits::are_distinct;
use kql_items::Items;
use pattern_lift::{calls_are_lent, joins, left_of, names_set, sets};
use std::alloc::{AllocError, Global};

fn extend_is_liftable(
    alloc: Global,
    marks: &str,
    lent: &[KText],
    items: &[BItem],
) -> Result<bool, AllocError>
    ensures liftable { IfOk result (λ b. b ≡ (list_all (item_is_liftable marks.now lent.now) items.now && are_distinct (names_set items.now))) }
{
    if !items_are_liftable(marks, lent, items) {
        return Ok(false);
    }
    let names = names_set(alloc, items)?;
    Ok(are_distinct(names.as_slice()))
}

// An operator of a prefix, where these columns are lent to its calls.
#[tactic(auto, using(crate::proofs::PlaceSteps::inside_steps))]
fn op_is_liftable(alloc: Global, marks: &str, lent: &[KText], op: &Op) -> Result<bool, AllocError>
    ensures liftable { IfOk result (λ b. b ≡ op_is_liftable marks.now lent.now op.now) }
{
    match op {
        Op::Where(e) => Ok(is_liftable(marks, lent, e)),
        Op::Extend(items) => extend_is_liftable(alloc, marks, lent, items.as_slice()),
        Op::Project(_) => Ok(false),
        Op::Take(_) => Ok(false),
        Op::Count => Ok(false),
        Op::Serialize => Ok(false),
        Op::Sort(_) => Ok(false),
        Op::Top(_, _) => Ok(false),
        Op::Summarize(_) => Ok(false),
        Op::MakeSeries(_) => Ok(false),
        Op::MvExpand(_) => Ok(false),
        Op::Parse(_) => Ok(false),
        Op::Join(_, _) => Ok(false),
        Op::Union(_, _) => Ok(false),
        Op::Scan(_) => Ok(false),
        Op::Partition(_, _) => Ok(false),
    }
}

/// The prefix of operators, where these columns are lent to the first of them.
#[tactic(auto, unfolding(pattern_lift::specs::Prefixes::prefix, pattern_laws::specs::Liftable::prefix_is_liftable))]
pub(crate) fn prefix_is_liftable(
    alloc: Global,
    marks: &str,
    lent: Names,
    ops: &[Op],
) -> Result<bool, AllocError>
    ensures liftable { IfOk result (λ b. b ≡ prefix_is_liftable marks.now lent (prefix ops.now)) }
{
    let mut own = lent;
    let mut left = ops;
    'ops: while let Some((op, more)) = left.split_first() {
        if !joins(op) {
            return Ok(true);
        }
        if !op_is_liftable(alloc, marks, own.as_slice(), op)? {
            return Ok(false);
        }
        let set = sets(alloc, op)?;
        own = left_of(alloc, own.as_slice(), set.as_slice())?;
        left = more;
    }
    Ok(true)
}

/// Whether an operator outside of a prefix holds no calls.
#[tactic(auto, using(crate::proofs::PlaceSteps::outside_steps))]
pub(crate) fn has_no_calls(op: &Op) -> bool
    ensures none { result ≡ has_no_calls op.now }
{
    match op {
        Op::Where(e) => calls_are_lent(&[], e),
        Op::Extend(items) => items_have_no_calls(items.as_slice()),
        Op::Project(_) => true,
        Op::Take(_) => true,
        Op::Count => true,
        Op::Serialize => true,
        Op::Sort(_) => true,
        Op::Top(_, _) => true,
        Op::Summarize(_) => true,
        Op::MakeSeries(_) => true,
        Op::MvExpand(_) => true,
        Op::Parse(_) => true,
        Op::Join(_, _) => true,
        Op::Union(_, _) => true,
        Op::Scan(_) => true,
        Op::Partition(_, _) => true,
    }
}

/// The same of several.
pub(crate) fn have_no_calls(ops: &[Op]) -> bool
    ensures none { result ≡ list_all has_no_calls ops.now }
{
    let mut left = ops;
    'ops: while let Some((op, more)) = left.split_first() {
        if !has_no_calls(op) {
            return false;
        }
        left = more;
    }
    true
}

fn is_text(kind: Kind) -> bool
    ensures text { result ≡ same_kind kind Kind.Text }
{
    match kind {
        Kind::Text => true,
        Kind::Bool => false,
        Kind::Long => false,
        Kind::Moment => false,
        Kind::Span => false,
        Kind::Dynamic => false,
    }
}

// The names so far, with that of the next column where it is a string.
#[tactic(auto, using(crate::proofs::TextSteps::text_steps))]
fn with_text(alloc: Global, names: Names, column: &Column) -> Result<Names, AllocError>
    ensures names { IfOk result (λ ns. ns ≡ names ++ text_columns (column.now ∷ [])) }
{
    if !is_text(column.kind) {
        return Ok(names);
    }
    let mut names = names;
    let name = column.name.copy(alloc)?;
    names.push(name)?;
    Ok(names)
}

/// The names of the string columns.
#[tactic(auto, using(crate::proofs::TextSteps::texts_steps))]
pub(crate) fn text_columns(alloc: Global, columns: &[Column]) -> Result<Names, AllocError>
    ensures names { IfOk result (λ ns. ns ≡ text_columns columns.now) }
{
    let mut all = Items::new(alloc);
    'columns: for column in columns {
        all = with_text(alloc, all, column)?;
    }
    Ok(all)
}
