//! Groups of pieces, joined in the order of the rows.
ghost use Rattle.std.specs.Prelude.{◌≡◌, ◌<◌, ◌≤◌, ◌+◌, ◌-◌, IfOk, OnOk, length, reverse};
ghost use Rattle.summarize_pieces.specs.Pieces.{AreGroupsOf, piece_of};
ghost use Rattle.phase_groups.specs.Works.{IsGroupRun, all_seen, behind, run_over};

use crate::ranges::RangeGroups;
use kql_bound::GroupPlan;
use kql_items::Items;
use kql_values::Table;
use phase_pieces::Cut;
use std::alloc::{AllocError, Global};
use summarize_pieces::{Groups, PieceRows, group_piece, join_groups};

/// The groups of all pieces. Where there is no piece they are those of no rows.
#[tactic(auto, using(crate::proofs::JoinSteps::all_steps))]
pub(crate) fn all_joined<'a>(
    alloc: Global,
    plan: &'a GroupPlan,
    table: &'a Table,
    cut: Cut,
    none: &'a PieceRows,
    more: Items<RangeGroups<'a>>,
) -> Result<Groups<'a>, AllocError>
    requires run { IsGroupRun (run_over plan.now table.now cut) }
    requires none { none.now ≡ piece_of plan.now table.now 0 0 }
    requires more { more ≡ all_seen (run_over plan.now table.now cut) 0 cut.pieces }
    ensures groups { IfOk result (AreGroupsOf plan.now table.now 0 (length table.now.lines)) }
{
    if cut.pieces == 0 {
        let made = group_piece(alloc, none)?;
        return Ok(made);
    }
    let mut left = more;
    left.reverse();
    let made = joined(alloc, plan, table, cut, &mut left, 0, cut.pieces)?;
    Ok(made)
}

// The groups of so many pieces from one on: those of the first half of them, joined with those of the second. The next piece stands last
// among those that are left.
#[tactic(auto, using(crate::proofs::JoinSteps::join_steps))]
fn joined<'a>(
    alloc: Global,
    plan: &'a GroupPlan,
    table: &'a Table,
    cut: Cut,
    left: &mut Items<RangeGroups<'a>>,
    from: u32,
    count: u32,
) -> Result<Groups<'a>, AllocError>
    requires run { IsGroupRun (run_over plan.now table.now cut) }
    requires some { 0 < count }
    requires within { from + count ≤ cut.pieces }
    requires left { reverse left.old ≡ all_seen (run_over plan.now table.now cut) from (cut.pieces - from) }
    ensures groups { IfOk result (AreGroupsOf plan.now table.now (behind (run_over plan.now table.now cut) from) (behind (run_over plan.now table.now cut) (from + count))) }
    ensures left { OnOk result (reverse left.new ≡ all_seen (run_over plan.now table.now cut) (from + count) (cut.pieces - (from + count))) }
{
    if count == 1 {
        let one = next_groups(plan, table, cut, left, from)?;
        return Ok(one);
    }
    let half = count / 2;
    let first = joined(alloc, plan, table, cut, left, from, half)?;
    let second = joined(alloc, plan, table, cut, left, from + half, count - half)?;
    let both = join_groups(alloc, first, second)?;
    Ok(both)
}

// The groups of the next piece.
#[tactic(auto, using(crate::proofs::JoinSteps::next_steps))]
fn next_groups<'a>(
    plan: &'a GroupPlan,
    table: &'a Table,
    cut: Cut,
    left: &mut Items<RangeGroups<'a>>,
    from: u32,
) -> Result<Groups<'a>, AllocError>
    requires run { IsGroupRun (run_over plan.now table.now cut) }
    requires within { from < cut.pieces }
    requires left { reverse left.old ≡ all_seen (run_over plan.now table.now cut) from (cut.pieces - from) }
    ensures groups { IfOk result (AreGroupsOf plan.now table.now (behind (run_over plan.now table.now cut) from) (behind (run_over plan.now table.now cut) (from + 1))) }
    ensures left { OnOk result (reverse left.new ≡ all_seen (run_over plan.now table.now cut) (from + 1) (cut.pieces - (from + 1))) }
{
    match left.pop() {
        Some(next) => Ok(next.into_groups()),
        None => unreachable!(),
    }
}
