//! The table of a join.
ghost use Rattle.std.specs.Prelude.{◌≡◌, ◌<◌, ◌≤◌, ◌++◌, ℕ, false, All, AllPairs, IfOk, IsTrue, length, map};
ghost use Rattle.kql_cells.specs.Named.{HasDistinctNames, column_name};
ghost use Rattle.kql_meaning.specs.FittingOperators.{join_fits};
ghost use Rattle.kql_meaning.specs.Join.{both_columns, join_columns, join_table};
ghost use Rattle.kql_values.specs.Moves.{IsWithin};
ghost use Rattle.join_op.specs.Led.{places_table};
ghost use Rattle.join_op.specs.Pairs.{has_lead, join_leads, pairs_joined, shows_both};
ghost use Rattle.join_op.specs.Shown.{row_shown};
ghost use Rattle.join_op.specs.Sides.{lead_side};
ghost use Rattle.join_op.specs.declared.sides.Side.TheVariants as side;

use crate::pairs::{Pairs, PlacesOrNone, has_lead, join_pairs, shows_both, some_places};
use crate::rows::{rows_at, rows_or_absent};
use crate::shown::with_right;
use crate::sides::{Side, lead_side};
use kql_bound::{JoinKind, JoinPlan};
use kql_cells::Places;
use kql_values::Table;
use std::alloc::{AllocError, Global};

/// A joined table, and for each of its rows the place of the row that leads it, from 0: a right row in the three right kinds, and a
/// left one in all others.
#[derive(Drop)]
pub struct Joined {
    pub table: Table,
    pub leads: Places,
}

/// `join` and `lookup`: copies of the rows that match, in the order of the side that leads and then of the other, and of the kinds
/// that keep them those that do not.
pub fn join_tables(
    alloc: Global,
    left: &Table,
    right: &Table,
    j: &JoinPlan,
) -> Result<Table, AllocError>
    requires fits { IsTrue (join_fits j.now left.now.columns right.now.columns) }
    requires names { HasDistinctNames column_name (join_columns j.now.kind j.now left.now.columns right.now.columns) }
    ensures table { IfOk result (λ t. t ≡ join_table j.now left.now right.now) }
{
    if has_lead(j.kind) {
        let Joined { table, leads: _ } = join_places(alloc, left, right, j)?;
        Ok(table)
    } else {
        full_outer(alloc, left, right, j)
    }
}

/// The same of a join in which one side leads, and the places of the rows that lead, which do not fall.
pub fn join_places(
    alloc: Global,
    left: &Table,
    right: &Table,
    j: &JoinPlan,
) -> Result<Joined, AllocError>
    requires lead { IsTrue (has_lead j.now.kind) }
    requires fits { IsTrue (join_fits j.now left.now.columns right.now.columns) }
    requires names { HasDistinctNames column_name (join_columns j.now.kind j.now left.now.columns right.now.columns) }
    ensures table { IfOk result (λ x. x.table ≡ join_table j.now left.now right.now) }
    ensures rows { IfOk result (λ x. x.table.lines ≡ map (row_shown (shows_both j.now.kind) (lead_side j.now.kind) j.now left.now right.now) (pairs_joined j.now left.now right.now)) }
    ensures leads { IfOk result (λ x. x.leads ≡ join_leads j.now left.now right.now) }
    ensures order { IfOk result (λ x. AllPairs (λ (i k : ℕ). i ≤ k) x.leads) }
{
    match lead_side(j.kind) {
        Side::Left => left_led(alloc, left, right, j),
        Side::Right => right_led(alloc, left, right, j),
    }
}

// A join that the left side leads.
#[tactic(auto, using(crate::proofs::JoinSteps::lead_steps))]
fn left_led(alloc: Global, left: &Table, right: &Table, j: &JoinPlan) -> Result<Joined, AllocError>
    requires lead { IsTrue (has_lead j.now.kind) }
    requires side { lead_side j.now.kind ≡ side.Left }
    requires fits { IsTrue (join_fits j.now left.now.columns right.now.columns) }
    requires names { HasDistinctNames column_name (join_columns j.now.kind j.now left.now.columns right.now.columns) }
    ensures table { IfOk result (λ x. x.table ≡ join_table j.now left.now right.now) }
    ensures rows { IfOk result (λ x. x.table.lines ≡ map (row_shown (shows_both j.now.kind) (lead_side j.now.kind) j.now left.now right.now) (pairs_joined j.now left.now right.now)) }
    ensures leads { IfOk result (λ x. x.leads ≡ join_leads j.now left.now right.now) }
    ensures order { IfOk result (λ x. AllPairs (λ (i k : ℕ). i ≤ k) x.leads) }
{
    let Pairs { leads, others } = join_pairs(alloc, j.kind, j.on.as_slice(), left, right)?;
    let both = shows_both(j.kind);
    let table = left_table(
        alloc,
        left,
        right,
        j,
        both,
        leads.as_slice(),
        others.as_slice(),
    )?;
    Ok(Joined { table, leads })
}

/// The table of pairs that the left side leads.
#[tactic(auto, using(crate::proofs::PairedSteps::left_steps))]
pub(crate) fn left_table(
    alloc: Global,
    left: &Table,
    right: &Table,
    j: &JoinPlan,
    both: bool,
    leads: &[usize],
    others: &[Option<usize>],
) -> Result<Table, AllocError>
    requires names { IsTrue both → HasDistinctNames column_name (both_columns j.now left.now.columns right.now.columns) }
    requires leads { All (λ i. i < length left.now.lines) leads.now }
    requires others { All (IsWithin (length right.now.lines)) others.now }
    requires count { length leads.now ≡ length others.now }
    ensures table { IfOk result (λ t. t ≡ places_table both side.Left j.now left.now right.now leads.now others.now) }
{
    let kept = rows_at(alloc, left, leads)?;
    if both {
        let made = with_right(alloc, kept, right, j, others)?;
        Ok(made)
    } else {
        Ok(kept)
    }
}

// A join that the right side leads.
#[tactic(auto, using(crate::proofs::JoinSteps::lead_steps))]
fn right_led(alloc: Global, left: &Table, right: &Table, j: &JoinPlan) -> Result<Joined, AllocError>
    requires lead { IsTrue (has_lead j.now.kind) }
    requires side { lead_side j.now.kind ≡ side.Right }
    requires fits { IsTrue (join_fits j.now left.now.columns right.now.columns) }
    requires names { HasDistinctNames column_name (join_columns j.now.kind j.now left.now.columns right.now.columns) }
    ensures table { IfOk result (λ x. x.table ≡ join_table j.now left.now right.now) }
    ensures rows { IfOk result (λ x. x.table.lines ≡ map (row_shown (shows_both j.now.kind) (lead_side j.now.kind) j.now left.now right.now) (pairs_joined j.now left.now right.now)) }
    ensures leads { IfOk result (λ x. x.leads ≡ join_leads j.now left.now right.now) }
    ensures order { IfOk result (λ x. AllPairs (λ (i k : ℕ). i ≤ k) x.leads) }
{
    let Pairs { leads, others } = join_pairs(alloc, j.kind, j.on.as_slice(), right, left)?;
    let both = shows_both(j.kind);
    let table = right_table(
        alloc,
        left,
        right,
        j,
        both,
        leads.as_slice(),
        others.as_slice(),
    )?;
    Ok(Joined { table, leads })
}

/// The table of pairs that the right side leads.
#[tactic(auto, using(crate::proofs::PairedSteps::right_steps))]
pub(crate) fn right_table(
    alloc: Global,
    left: &Table,
    right: &Table,
    j: &JoinPlan,
    both: bool,
    leads: &[usize],
    others: &[Option<usize>],
) -> Result<Table, AllocError>
    requires names { IsTrue both → HasDistinctNames column_name (both_columns j.now left.now.columns right.now.columns) }
    requires leads { All (λ i. i < length right.now.lines) leads.now }
    requires others { All (IsWithin (length left.now.lines)) others.now }
    requires count { length leads.now ≡ length others.now }
    ensures table { IfOk result (λ t. t ≡ places_table both side.Right j.now left.now right.now leads.now others.now) }
{
    if both {
        let rights = some_places(alloc, leads)?;
        let kept = rows_or_absent(alloc, left, others)?;
        let made = with_right(alloc, kept, right, j, rights.as_slice())?;
        Ok(made)
    } else {
        let alone = rows_at(alloc, right, leads)?;
        Ok(alone)
    }
}

// A join of kind fullouter: the rows of leftouter, and then those for the right rows that match none.
#[tactic(auto, using(crate::proofs::JoinSteps::full_steps))]
fn full_outer(alloc: Global, left: &Table, right: &Table, j: &JoinPlan) -> Result<Table, AllocError>
    requires lead { has_lead j.now.kind ≡ false }
    requires fits { IsTrue (join_fits j.now left.now.columns right.now.columns) }
    requires names { HasDistinctNames column_name (join_columns j.now.kind j.now left.now.columns right.now.columns) }
    ensures table { IfOk result (λ t. t ≡ join_table j.now left.now right.now) }
{
    let on = j.on.as_slice();
    let Pairs { leads, others } = join_pairs(alloc, JoinKind::LeftOuter, on, left, right)?;
    let more = join_pairs(alloc, JoinKind::RightAnti, on, right, left)?;
    let lefts = one_after_another(some_places(alloc, leads.as_slice())?, more.others)?;
    let rights = one_after_another(others, some_places(alloc, more.leads.as_slice())?)?;
    let kept = rows_or_absent(alloc, left, lefts.as_slice())?;
    let made = with_right(alloc, kept, right, j, rights.as_slice())?;
    Ok(made)
}

// These places, and then those.
fn one_after_another(first: PlacesOrNone, more: PlacesOrNone) -> Result<PlacesOrNone, AllocError>
    ensures places { IfOk result (λ ps. ps ≡ first ++ more) }
{
    let mut places = first;
    places.append(more)?;
    Ok(places)
}
