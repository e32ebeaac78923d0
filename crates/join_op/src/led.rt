//! What some of the rows that lead a join give. The keys of the other side are found once, and lent to each part.
ghost use Rattle.std.specs.Prelude.{◌≡◌, ◌<◌, ◌≤◌, All, IfOk, IsTrue, length, map};
ghost use Rattle.kql_cells.specs.Named.{HasDistinctNames, column_name};
ghost use Rattle.kql_meaning.specs.Join.{both_columns};
ghost use Rattle.kql_values.specs.Grids.{rows_of};
ghost use Rattle.join_op.specs.Led.{KeysStand, LedByBoth, LedByOne, led_table};
ghost use Rattle.join_op.specs.Pairs.{lead_rows};
ghost use Rattle.join_op.specs.Sides.{key_cells, lead_of, lead_side, opposite};

use crate::join::{left_table, right_table};
use crate::pairs::{Pairs, pairs_found, row_rule, rows_led};
use crate::sides::{Side, lead_side};
use kql_bound::{JoinKind, JoinPlan, OnPair};
use kql_cells::Places;
use kql_keys::Probe;
use kql_values::{Table, Vector};
use std::alloc::{AllocError, Global};

/// The table of a side.
#[tactic(auto, unfolding(crate::specs::Sides::lead_of))]
pub fn side_table<'a>(side: Side, left: &'a Table, right: &'a Table) -> &'a Table
    ensures table { result.now ≡ lead_of side left.now right.now }
{
    match side {
        Side::Left => left,
        Side::Right => right,
    }
}

/// The rows of the side that leads which are joined, from the columns of its keys.
#[tactic(auto, using(crate::proofs::LedSteps::row_steps))]
pub fn leading_rows(
    alloc: Global,
    kind: JoinKind,
    on: &[OnPair],
    lead: &Table,
    keys: &[&Vector],
) -> Result<Places, AllocError>
    requires keys { map (λ c. c.now) keys.now ≡ key_cells (lead_side kind) on.now lead.now }
    ensures rows { IfOk result (λ ps. ps ≡ lead_rows kind on.now lead.now) }
    ensures within { IfOk result (λ ps. All (λ i. i < length lead.now.lines) ps) }
{
    let _on = on;
    let rows = rows_led(alloc, kind, keys, lead.len())?;
    Ok(rows)
}

/// The rows of the other side by the columns of their keys.
#[tactic(auto, using(crate::proofs::LedSteps::probe_steps))]
pub fn other_rows<'a>(
    alloc: Global,
    kind: JoinKind,
    on: &[OnPair],
    other: &Table,
    keys: &'a [&'a Vector],
) -> Result<Probe<'a>, AllocError>
    requires keys { map (λ c. c.now) keys.now ≡ key_cells (opposite (lead_side kind)) on.now other.now }
    ensures keys { IfOk result (λ p. p ≡ rows_of (length other.now.lines) (key_cells (opposite (lead_side kind)) on.now other.now)) }
{
    let (_kind, _on) = (kind, on);
    let probe = Probe::new(alloc, keys, other.len())?;
    Ok(probe)
}

/// The rows that these of the rows that lead give with what matches them: of both sides, or of the side that leads.
pub fn table_of_leads(
    alloc: Global,
    left: &Table,
    right: &Table,
    j: &JoinPlan,
    kind: JoinKind,
    both: bool,
    keys: &[&Vector],
    probe: &Probe<'_>,
    leads: &[usize],
) -> Result<Table, AllocError>
    requires names { IsTrue both → HasDistinctNames column_name (both_columns j.now left.now.columns right.now.columns) }
    requires keys { map (λ c. c.now) keys.now ≡ key_cells (lead_side kind) j.now.on (lead_of (lead_side kind) left.now right.now) }
    requires probe { probe.now ≡ rows_of (length (lead_of (opposite (lead_side kind)) left.now right.now).lines) (key_cells (opposite (lead_side kind)) j.now.on (lead_of (opposite (lead_side kind)) left.now right.now)) }
    requires within { All (λ i. i < length (lead_of (lead_side kind) left.now right.now).lines) leads.now }
    ensures table { IfOk result (λ t. t ≡ led_table both kind j.now left.now right.now leads.now) }
{
    let Pairs {
        leads: firsts,
        others,
    } = pairs_found(alloc, row_rule(kind), probe, keys, leads)?;
    let first = firsts.as_slice();
    let other = others.as_slice();
    match lead_side(kind) {
        Side::Left => {
            let made = left_table(alloc, left, right, j, both, first, other)?;
            Ok(made)
        }
        Side::Right => {
            let made = right_table(alloc, left, right, j, both, first, other)?;
            Ok(made)
        }
    }
}

/// A join is what all rows that lead give: those of one side, or those of the left side and behind them those of the right one. Where
/// it fits, each side has its keys.
#[tactic(auto, using(crate::proofs::LedSteps::led_laws))]
pub fn law_of_leads()
    ensures one { LedByOne }
    ensures both { LedByBoth }
    ensures keys { KeysStand }
{}
